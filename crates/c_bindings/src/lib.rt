//! What is told of each node of a program: its judgement, what its name stands for, and its value (C11 6.2.1, 6.5.1, 6.7.2.2, 6.8.4.2).
#![tactic(auto)]

mod binding;
mod told;

pub use binding::{Binding, bound_to, function_binding};
pub use told::{Told, first_misfit};

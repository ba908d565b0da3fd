//! Integer constant expressions (C11 6.6): their type and value, the value of an enumerator and that of a case.
//!
//! [`meaning_of`] walks an expression once. It is `None` where a part is no integer or character constant, no name with a value and
//! no operator on integers: a call, an assignment, a comma, a cast and a sizeof are none. Else it has the type, and the value where
//! each evaluated part has one that C defines and that lies within 64 bits with a sign. Which names have a value is told by what the
//! caller hands in, as a [`Names`].
#![tactic(auto)]

mod constants;
mod meaning;
mod names;
mod operators;

pub use constants::{case_value, constant, enumerator, meaning_of};
pub use meaning::Meaning;
pub use names::Names;
pub use operators::{binary_result, binary_type, unary_result};

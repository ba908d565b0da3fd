//! What is said of the nodes of a program.
#![tactic(auto)]

mod case_values;
mod cases;
mod declarations;
mod functions;
mod initializers;
mod labels;
mod law;
mod program;
mod statements;

pub use law::as_many_as_nodes;
pub use program::{Judged, judge};

//! Positions of a program, where control goes from each, and which values are pending there.
//!
//! [`flow`] goes once through a program's tree and notes a row for each position: a phase of a node that is executed, with the
//! ways on from it. [`Flow`] answers by a position in constant time. What the rows are is defined in `specs/Control.antt` for
//! expressions (C11 6.5) and in `specs/Statements.antt` for statements (6.8), functions and programs; `specs/Pending.antt` has
//! the values that are pending, and `specs/Action.antt` what is done on the way into a position.
//!
//! What names and constants mean is told by [`Names`], which stands for what a crate of types will answer.
#![tactic(auto)]

mod build;
mod declarations;
mod edge;
mod expressions;
mod functions;
mod jumps;
mod labels;
mod law;
mod loops;
mod meaning;
mod positions;
mod statements;
mod switches;
mod table;
mod targets;
mod values;
mod walk;

pub use build::flow;
pub use edge::{Edge, Guard, Row, Source, Use};
pub use law::edges_stay_in_their_function;
pub use meaning::{Call, Callee, Meaning, Names};
pub use positions::Flow;

//! What the names at a place of a program stand for (C11 6.2.1 to 6.2.3), and the types that declarations give.
//!
//! [`Environment`] is walked through a program: a block is entered and left, and each declaration makes of it what `specs/Environment.antt`
//! and the small steps of `specs/Behind.antt` and `specs/Scopes.antt` say. [`Environment::start`] has it before the first item. A contract
//! sees it through `seen_environment` of `specs/Seen.antt`. The types of specifiers and declarators are those of `specs/Types.antt`. The
//! walk over a tree, which gives what the names stand for behind each part of a program, is left to the crates above.
#![tactic(auto)]

mod built_in;
mod built_in_types;
mod declare;
mod entity;
mod environment;
mod law;
mod members;
mod specified;
mod start;
mod steps;
mod types;
mod unit;
mod words;

pub use built_in::KnownBuiltIn;
pub use entity::{DeclaredType, Entity, Variable};
pub use environment::Environment;
pub use law::type_names_are_the_grammars;
pub use members::{Members, Structure};
pub use steps::tag_alone;

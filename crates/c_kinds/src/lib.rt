//! The types of C values: the code's `CType`, seen by contracts as plain data of `specs/Kind.antt`.
//!
//! A type is shared, not copied: what a pointer points to and what a function takes lie behind a counted pointer, so a copy
//! of a type takes one step however deep it is.
#![tactic(auto)]

mod ctype;
mod matching;
mod word;

pub use ctype::{CType, Types};
pub use word::Word;

//! The grammar of the C subset as a parser reads it (C11 6.5 to 6.9, for what the subset keeps).
//!
//! `specs/Rules.antt` has the rules: each is a small program that looks at one token to choose how it goes on
//! (`specs/Body.antt`), and `read` of `specs/Reading.antt` is what it reads from an input, within the limits. Laws on these,
//! in `proofs/`, say that what is read is a tree of its shape that the tokens spell (`Programs.antt`: `found`), that each tree
//! is read back from its tokens (`ReadBack/Items.antt`), and that no program goes on with a token that is refused
//! (`refused_means`, `exceeded_means`). From them follows [`equal_spellings_are_equal_trees`].
//! [`keywords_are_those_of_the_lexis`] says that the kinds of keywords are the scanner's keywords.
//!
//! A [`Cursor`] is the input as code reads it, and [`Kind`] the kinds of tokens that the rules tell apart. The
//! [`steps`] of which rules are made, the [`Refusal`] of a text and the [`NameEnvironment`] of a token are what all parsers
//! share; what a function that reads a rule ensures is said by `specs/Gives.antt`. The crate stands on `base_core` and `c_tree`.
#![tactic(auto)]

mod cursor;
mod environment;
mod infix;
mod kind;
mod law;
mod names;
mod refusal;
mod start;
pub mod steps;

pub use cursor::Cursor;
pub use environment::NameEnvironment;
pub use infix::{First, Infix};
pub use kind::{
    Kind, assignment_operator, binary_operator, kind_of, same_kind, step_operator, unary_operator,
};
pub use law::{equal_spellings_are_equal_trees, keywords_are_those_of_the_lexis};
pub use names::Names;
pub use refusal::Refusal;
pub use start::{Start, TypeKeyword};

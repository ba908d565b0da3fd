//! The rules of kinds and declarations, computed on examples.
//!
//! The definitions of `c_environment`, `c_rules`, `c_declared` and `c_judged` say what names stand for and what is said of each node of a
//! program. Here they are computed on small programs that a reader can follow by eye, so that it can be seen that they mean what they are to
//! mean. Each program is given as a tree, with its text beside it (`specs/Programs.antt`), over the built-in names and the profile's table of
//! library functions. The contract of [`programs_fit`] carries those that break no rule, and that of [`programs_break`] others, with the first node
//! that does and its rule.
//!
//! The crate stands on the definitions alone, and has no code of its own.
#![tactic(auto)]

mod examples;

pub use examples::{programs_break, programs_fit};

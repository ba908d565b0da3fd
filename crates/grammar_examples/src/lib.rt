//! The grammar, computed on examples.
//!
//! The definitions of `c_tree` and `c_grammar` say what a program spells and what is read of tokens. Here they are computed on
//! small programs that a reader can follow by eye, so that it can be seen that they mean what they are to mean. Each program is
//! given as a tree (`specs/Programs.antt`) and as the tokens of a text (`specs/Examples.antt`): the tree spells exactly these
//! tokens, exactly this tree is read back from them, and its nodes and its depth are counted. The contract of
//! [`examples_are_read_back`] carries these, and that of [`examples_are_refused`] some texts that leave the grammar, with the
//! token at which they do (`specs/Refusals.antt`).
//!
//! The crate stands on `base_core`, `c_tree` and `c_grammar`, and has no code of its own.
#![tactic(auto)]

mod examples;

pub use examples::{examples_are_read_back, examples_are_refused};

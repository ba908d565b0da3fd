//! Where the nodes of a parsed program stand among its tokens.
//!
//! [`find`] goes once through a tree of `c_tree` and counts the tokens that it spells. For each node, in preorder, it
//! answers the index of the node's first token, and for each function the index of its closing brace. A caller looks up
//! the places of these tokens in what the lexer answered.
//!
//! `starts` and `closes` of `specs/Starts.antt` are these indices, beside `nodes` of `c_tree`. That there is one for each
//! node and each function, and that each is the index of a token, is proved in `proofs/Laws.antt`.
#![tactic(auto)]

mod expressions;
mod items;
mod walk;

pub use items::{NodeTokens, find};

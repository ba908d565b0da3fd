//! The parser of expressions (C11 6.5).
//!
//! Each function reads what its rule of `c_grammar` reads, or refuses where the rule does; its contract says so by
//! c_grammar's `specs/Gives.antt`. What nests in something else, as a type in a cast, goes through the reader that a
//! [`Grammar`](grammar::Grammar) holds.
#![tactic(auto)]

pub mod expression;
pub mod grammar;
pub mod infix;

//! The parser of types, declarators and parameters (C11 6.7.2, 6.7.6).
//!
//! Each function reads what its rule of `c_grammar` reads, or refuses where the rule does. What nests, expressions in types and
//! types in expressions, goes through one function of `nest`, which passes itself on as the reader of what nests.
#![tactic(auto)]

pub mod declarator;
pub mod nest;
pub mod parameter;
pub mod pointer;
pub mod specifier;
pub mod tagged;
pub mod words;

//! The parser: from the tokens of a text to the program that they spell (C11 6.5 to 6.9, for what the subset keeps).
//!
//! [`parse`] is what the layer above uses. It answers the program of which the tokens are the spelling, with the places of its
//! nodes, or the first fault. It reads the items by `item_parser`, counts the brackets that are open (`brackets`), and looks
//! up the places of the nodes (`places`).
#![tactic(auto)]

mod brackets;
mod fault;
mod parser;
mod places;

pub use fault::ParseFault;
pub use parser::parse;

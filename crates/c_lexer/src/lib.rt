//! The lexis of the C subset (C11 6.4): a text becomes its tokens with their places, or the first fault is told.
//!
//! It stands on `base_core`, which has the token and the place. [`scan`] is what the parser uses: of a text of at most
//! `base_core::MOST_BYTES` bytes it answers the lexis, tokens or first fault, as `specs/Lexis.antt` defines it, or else that
//! memory ran out; and its tokens stand in the text as the relation of `specs/Grammar.antt` says. By this relation a text
//! has at most one token list (`proofs/OnlyTokens.antt`). [`fault_file`] tells the file of the first fault by its line
//! markers, and [`LexFault`] the fault's place and kind.
//!
//! The module `first` tells what stands at the front of a text, with a module for each kind of item; `scanner` takes
//! one item at a time, and `lexis` all of them.
#![tactic(auto)]

mod bytes;
mod comments;
mod directives;
mod fault;
mod fault_place;
mod first;
mod integers;
mod item;
mod lexis;
mod literals;
mod names;
mod numbers;
mod punctuators;
mod scanner;
mod tokens;

pub use fault::LexFault;
pub use fault_place::fault_file;
pub use lexis::scan;
pub use tokens::Tokens;

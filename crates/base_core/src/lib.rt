//! What every layer of the certifier speaks of: the numbers of nodes, functions and variables, signals, positions,
//! places in a text, tokens, rules and limits, and the outside of the program as two traits, a shelf of named texts and a sink of
//! bytes.
//!
//! It stands on `std` alone. The layers above use its types and the contracts of [`Shelf`] and [`Sink`]: nothing else
//! is known of files and of standard output.
#![tactic(auto)]

mod fault;
mod file_shelf;
mod id;
mod keywords;
mod lexeme;
mod limits;
mod mem_shelf;
mod mem_sink;
mod place;
mod rules;
mod shelf;
mod signal;
mod sink;
mod std_sink;
mod token;

pub use fault::{Failed, NoMemory};
pub use file_shelf::FileShelf;
pub use id::{FnId, NodeId, Phase, Pos, VarId};
pub use keywords::{is_among, is_keyword};
pub use lexeme::Lexeme;
pub use limits::MOST_BYTES;
pub use mem_shelf::MemShelf;
pub use mem_sink::MemSink;
pub use place::Place;
pub use rules::{Rule, RuleBits, Rules};
pub use shelf::{ReadError, Shelf, WriteError};
pub use signal::Sig;
pub use sink::Sink;
pub use std_sink::StdSink;
pub use token::{Class, Token};

//! The command `asafe`: from its words, a shelf of texts and a sink of bytes to a status.
//!
//! Its top call is [`run`], which `main` gives the words of the command line, the system's files and standard
//! output. The contract of `run` says what each status means, and it carries the theorem of the product: where it answers
//! [`Status::Yes`], no run of the program breaks a rule.
#![tactic(auto)]

mod command;
mod decision;
mod ending;
mod fault_line;
mod lines;
mod put;
mod status;
mod token_fault;

use base_core::{FileShelf, StdSink};
pub use command::run;
pub use status::Status;
use std::process::ExitCode;
use std::{env, io};

/// The status where the system doesn't give the words as text.
const NO_TEXT: u8 = 11;

fn main(rt: HostRuntime) -> ExitCode {
    let words = match env::args(&rt) {
        Ok(words) => words,
        Err(error) => {
            return match error.kind() {
                io::ErrorKind::OutOfMemory => ExitCode::from(Status::NoMemory.code()),
                _ => ExitCode::from(NO_TEXT),
            };
        }
    };
    let words: Vec<String> = match words.skip(1).collect(rt.alloc()) {
        Ok(words) => words,
        Err(_) => return ExitCode::from(Status::NoMemory.code()),
    };
    let mut shelf = FileShelf::new(&rt);
    let mut out = StdSink::new(&rt);
    ExitCode::from(run(rt.alloc(), &words, &mut shelf, &mut out).code())
}

#[cfg(test)]
mod tests;

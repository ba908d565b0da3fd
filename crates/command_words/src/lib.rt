//! The words of the command line: which job they ask for.
//!
//! [`asked`] reads the words with `clap` by one simple command: a positional for the job, one last positional for its names,
//! three options with a value and one flag. What `clap` finds is then tried against the table of jobs: which names and options
//! a job has, and which values an option takes. The definitions are in `specs/`: the command in `Command.antt`, the table in
//! `Table.antt`, and in `Stated.antt` the form of the command's synopsis, of which [`stated_forms_are_asked`] says that it asks
//! for the job that it states.
#![tactic(auto)]

mod clap_command;
mod given;
mod job;
mod table;
mod values;
mod words;

pub use job::{Depth, Job};
pub use words::{asked, stated_forms_are_asked};

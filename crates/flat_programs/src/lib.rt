//! Flat programs: signal handlers, and a `main` of calls of library functions and installs of handlers. All that speaks of them
//! alone stands here, so that it goes in one step once whole programs are decided.
//!
//! [`read_flat`] reads a flat program from the tokens of a text, and its contract says that it answers exactly the one of which the
//! tokens are the spelling. [`are_safe`] decides the condition on the handlers, and [`soundness`] is the theorem that no run of a
//! program whose condition holds breaks a rule. The definitions are in `specs/`, in this order: trees, spelling, shape and condition
//! (`Flat*.antt`), positions, worlds, steps, breaches.
//!
//! It stands on `base_core`, `c_lexer` and `c_tree`.
#![tactic(auto)]

mod body;
mod call;
mod condition;
mod expect;
mod flat;
mod handler;
mod head;
mod program;
mod shape;
mod statement;
mod theorems;

pub use condition::are_safe;
pub use flat::{FlatProgram, Handler, LibraryFunction, Statement};
pub use program::{FlatFault, read_flat};
pub use theorems::{
    errno_is_int, flat_is_whole, getpid_changes_errno, mask_comes_back, nests_and_returns,
    rand_above_handler, rand_in_exit, rand_over_rand, soundness,
};

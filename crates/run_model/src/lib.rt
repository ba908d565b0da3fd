//! What a run of a C program is: worlds of processes, threads and objects, the steps from one world to the next, and which
//! steps break a rule on signal handlers, threads and forked children.
//!
//! The definitions stand in `specs/`, one idea a file, each with the section of C11 or POSIX.1-2017 that it comes from. They
//! are what a reader must believe of a statement about all runs. The program is seen as `specs/Code.antt` says: positions,
//! edges, and what is done along each; `specs/Owed.antt` says what is asked of it. The crate has no code that runs: each
//! public function of `law`, `step_law`, `case` and `example` is a law over the definitions, stated by its contract.
#![tactic(auto)]

mod case;
mod example;
mod law;
mod step_law;

pub use case::cases_are_decided;
pub use example::{example_is_code, runs_break_each_rule, runs_break_none};
pub use law::{
    arrivals_keep_mask, end_is_end, every_program_starts, frames_stand_at_positions,
    integers_lie_in_their_types, mask_comes_back, prefixes_are_runs,
};
pub use step_law::{
    children_are_alone, exit_ends, handlers_are_masked, kill_is_not_caught, order_of_fork_handlers,
};

//! Limits of programs are passed late: reading the items of a program passes no limit before 900 tokens were read.
//!
//! `specs/LimitsLate.antt` has the statement, which [`limits_come_late`] carries. Its proof follows what a body may spend before it
//! takes a token (`proofs/Saving.antt`): each token pays for a hundred nodes and for one more level, and each rule begins with
//! what it may owe (`proofs/Dues.antt`). The crate stands on `base_core`, `c_tree` and `c_grammar`, and has no code of its own.
#![tactic(auto)]

mod law;

pub use law::limits_come_late;

//! Facts about a program: the states of its cells, what its pointers may point to, and which handlers, threads and fork
//! handlers there may be; and what a part of an analysis is.
//!
//! [`Facts`] are seen as lists in the order of their keys, and the theory stands on a view of them as functions from
//! keys (`specs/Facts.antt`). [`Facts::add`] gives the least facts that hold a consequence besides, and says exactly
//! whether they grew. A family of consequences is a [`Transfer`]: it appends exactly what it forces at a cell, greater
//! facts force no less, and what it forces has the form that `add` asks. No call hands out a reference to a state.
//!
//! The crate stands on `base_core`, `sig_set`, `call_ctx` and `abstract_values`.
#![tactic(auto)]

mod consequence;
mod facts;
mod keyed;
mod laws;
mod object;
mod part;
mod target_set;
mod transfer;

pub use consequence::{Consequence, Consequences};
pub use facts::{Facts, Marks};
pub use laws::{
    added_facts_are_least, facts_are_ordered, key_orders_are_total, keys_are_ordered_by_numbers,
};
pub use object::{Holder, Obj, Target};
pub use part::{Held, Installed, Part};
pub use transfer::Transfer;

//! Contexts: what is kept apart of the ways in which a frame of a thread came about.
//!
//! A [`Ctx`] tells of a frame whether it runs in a signal handler, what that handler interrupted, whether it runs a
//! fork handler, and the last call sites; a [`Cell`] is a position in a context on a side. The crate stands on
//! `base_core` alone, and no call takes memory. The layer above uses the contexts of a call, an arrival and a fork
//! handler ([`Ctx::called`], [`Ctx::arrived`], [`Ctx::handling`]) and the order of cells ([`compare_cells`]).
#![tactic(auto)]

mod cell;
mod context;
mod order;
mod sites;

pub use cell::Cell;
pub use context::{Ctx, Role, Side, push, sites_are_few};
pub use order::{compare_cells, compare_contexts, order_is_total};
pub use sites::Sites;

//! What a static analysis knows of a program at a position: abstract integers, sets of signals and functions, the
//! values of slots (variables and evaluated nodes), and states, with their order and their joins.
//!
//! An abstract value stands for some values; it is below another where that one stands for all of these. The join of
//! two is the least value above both. No call here speaks of a program: the layers above say which states describe
//! which runs. The crate stands on `base_core` and `sig_set`.
#![tactic(auto)]

mod functions;
mod number;
mod signal_set;
mod slot;
mod slot_value;
mod slots;
mod state;
mod state_laws;

pub use functions::{AbsFns, FnList};
pub use number::AbsInt;
pub use signal_set::AbsSet;
pub use slot::Slot;
pub use slot_value::SlotValue;
pub use slots::Slots;
pub use state::State;
pub use state_laws::{states_are_ordered, states_stay_well_formed};

//! Tests of the public calls of what the analysis stands on: sets of signals, contexts, abstract values, states and facts.
#![tactic(auto)]

#[cfg(test)]
mod contexts;
#[cfg(test)]
mod facts;
#[cfg(test)]
mod signal_sets;
#[cfg(test)]
mod states;
#[cfg(test)]
mod value_tables;

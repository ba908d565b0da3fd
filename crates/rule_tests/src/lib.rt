//! Tests of the rules by the kinds of operands (C11 6.5 to 6.9): tables of operands, each with what is said of it, written from C11 and from
//! what the subset leaves out.
#![tactic(auto)]

#[cfg(test)]
mod asked;
#[cfg(test)]
mod described;
#[cfg(test)]
mod library;
#[cfg(test)]
mod names;
#[cfg(test)]
mod operators;
#[cfg(test)]
mod statements;
#[cfg(test)]
mod stores;

//! Tests of positions, edges and pending values: each is a text of C, which is read, and what its flow is, written by hand from C11 6.5
//! to 6.8 and from what `docs/SPECIFICATION.md` and `docs/DECISIONS.md` of the repository say of positions.
#![tactic(auto)]

#[cfg(test)]
mod calls;
#[cfg(test)]
mod cases;
#[cfg(test)]
mod conditions;
#[cfg(test)]
mod jumps;
#[cfg(test)]
mod loops;
#[cfg(test)]
mod meaning;
#[cfg(test)]
mod operands;
#[cfg(test)]
mod pending;
#[cfg(test)]
mod places;
#[cfg(test)]
mod reads;
#[cfg(test)]
mod shown;
#[cfg(test)]
mod text;

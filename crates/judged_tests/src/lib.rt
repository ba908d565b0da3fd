//! Tests of what is said of whole programs: each is a text of C, which is read, with the first rule of names and kinds that it breaks and the
//! place where that is told, written by hand from C11 and from what `docs/SPECIFICATION.md` and `docs/DECISIONS.md` of the repository say of
//! the subset.
#![tactic(auto)]

#[cfg(test)]
mod bindings;
#[cfg(test)]
mod calls;
#[cfg(test)]
mod constants;
#[cfg(test)]
mod constructs;
#[cfg(test)]
mod initialisers;
#[cfg(test)]
mod left_out;
#[cfg(test)]
mod library;
#[cfg(test)]
mod main_function;
#[cfg(test)]
mod names;
#[cfg(test)]
mod operators;
#[cfg(test)]
mod places;
#[cfg(test)]
mod scopes;
#[cfg(test)]
mod told;
#[cfg(test)]
mod twice;
#[cfg(test)]
mod types;

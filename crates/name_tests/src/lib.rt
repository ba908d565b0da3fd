//! Tests of the public calls of what names and kinds stand on: kinds, scopes, growing lists, and what names stand for.
#![tactic(auto)]

#[cfg(test)]
mod environment;
#[cfg(test)]
mod judgements;
#[cfg(test)]
mod kinds;
#[cfg(test)]
mod scopes;

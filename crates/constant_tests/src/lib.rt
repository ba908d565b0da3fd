//! Tests of integer constant expressions (C11 6.6): each is a text of C, which is read and whose value is compared with what C11 says.
#![tactic(auto)]

#[cfg(test)]
mod evaluated;
#[cfg(test)]
mod letters;
#[cfg(test)]
mod read;
#[cfg(test)]
mod table;

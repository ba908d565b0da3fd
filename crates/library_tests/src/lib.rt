//! Tests of the public calls of the front's libraries: the outside, tokens, trees, flat programs, the function table, the words of the command.
//! They stand in a crate of their own, above the libraries, so that no library is proved twice for its tests.
#![tactic(auto)]

#[cfg(test)]
mod flat_reading;
#[cfg(test)]
mod flat_trees;
#[cfg(test)]
mod function_rows;
#[cfg(test)]
mod grammar_cursor;
#[cfg(test)]
mod job_words;
#[cfg(test)]
mod outside;
#[cfg(test)]
mod program_nodes;
#[cfg(test)]
mod token_texts;

//! The parser of the items of a program: functions and declarations outside functions (C11 6.9).
//!
//! [`items`] reads what the rule of `c_grammar` for all items of a program reads, or refuses where the rule does. The scope
//! that an item is read in grows in place, with each name that is declared.
#![tactic(auto)]

mod all_items;
mod first;
mod outer;

pub use all_items::items;

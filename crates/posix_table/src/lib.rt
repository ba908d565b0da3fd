//! What the certifier knows of the library functions that a program may call: one row a function.
//!
//! A [`Row`] has the name of a function of POSIX.1-2017 or C11, whether it counts as safe to call from a signal-catching
//! function, how many arguments it takes, what it does with each, what it returns, and what it does besides. Which rows
//! count as safe is this project's own profile: it is made after the list of POSIX.1-2017 XSH 2.4.3, and no statement of
//! which names stand in that list. A [`Table`] is rows in the order of the bytes of their names, found by name or by
//! place; [`profile`] makes the table of the functions that are known without being told, and [`profile_later`] the same
//! with `fork` unsafe and the row of `_Fork`. [`table_text`] is its text.
//! The crate stands on `base_core` alone.
//!
//! The rows of the profiles are written once for the reader, in `specs/Profile.antt`: a line has a signature, as
//! `(i,r,i,i?) i`, and the names of the functions that have it. The letters are explained at [`Param`] and
//! [`ResultKind`], the words of the effects at [`Effect`]; a `?` follows an argument that may be left out. The code
//! holds the same rows sorted and in full, and the contracts of both calls say that they are the reader's.
#![tactic(auto)]

mod kind;
mod known;
mod lines;
mod name;
mod params;
mod row;
mod table;
mod text;

pub use kind::{Effect, Param, ResultKind};
pub use known::{profile, profile_later};
pub use name::Name;
pub use params::Params;
pub use row::Row;
pub use table::Table;
pub use text::table_text;

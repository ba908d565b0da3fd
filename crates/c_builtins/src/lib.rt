//! What every program of the subset knows without a declaration, but for the functions of the library: named constants, errno, the
//! names of types, and structures with their members (POSIX.1-2017 XBD 13).
//!
//! Each is one table, in the code and in `specs/`, and a call's contract says that it gives the table. The layer above declares what
//! stands in them, in a scope around the program. The crate stands on `base_core` alone, which has the signals.
#![tactic(auto)]

mod law;
mod names;
mod types;

pub use law::names_are_distinct;
pub use names::{BuiltIn, NamedBuiltIn, built_ins};
pub use types::{BuiltInType, Member, TypeName, structures, tags, type_names};

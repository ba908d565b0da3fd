//! The rules that the nodes of a C program keep by the kinds of their parts (C11 6.5 to 6.9).
//!
//! A rule is a definition in `specs/`, one line a case, and a function here that answers it. It looks at no tree: an [`Operand`] is
//! what is said of an expression ([`Verdict`]) and its [`Form`], which the layer above finds from below. So a [`Verdict`] of a node is
//! that it has a kind, that it breaks a rule, that it waits since a part of it has no kind, or that by its form it has none.
//! Where two rules at one node are broken, the order of the `if`s says which is told. The crate stands on the kinds of values
//! (`c_kinds`), on integer types (`c_arithmetic`), on the built-in names (`c_builtins`), on the rows of library functions
//! (`posix_table`), and on the operators of `c_tree` alone.
#![tactic(auto)]

mod access;
mod calls;
mod conversions;
mod declarations;
mod form;
mod library_calls;
mod misfit;
mod names;
mod operand;
mod operators;
mod shapes;
mod statements;
mod types;
mod values;
mod verdict;

pub use access::{arrow, dot, index};
pub use calls::call;
pub use conversions::{cast, size_of, size_of_type};
pub use declarations::{
    is_main_type, list_misfit, main_misfit, object_misfit, part_misfit, passed_misfit,
    positional_misfit, redeclared_misfit,
};
pub use form::{Constant, Designates, Form};
pub use library_calls::library_call;
pub use misfit::MisfitKind;
pub use names::{Denoted, built_in_kind, character, integer, named, text};
pub use operand::Operand;
pub use operators::{binary, choose, comma, paren, unary};
pub use shapes::{arrow_form, index_form, name_form, unary_form};
pub use statements::{condition, evaluated, return_nothing, returned, switched};
pub use values::{assign, initialiser_misfit, step};
pub use verdict::Verdict;

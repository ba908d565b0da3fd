//! The parser of initialisers, declarations and statements (C11 6.7, 6.7.9, 6.8).
//!
//! [`body`] reads what the rule of `c_grammar` for the statements of a function's body reads, or refuses where the rule does.
//! So does each function below it for its rule, or for its part of one. Statements nest through the reader that
//! [`Statements`](reader::Statements) holds; one function of `nest` passes itself on as that reader. So do initialisers through
//! one of `init`. What may be one of many forms is held in a box until the node that it belongs to is made.
#![tactic(auto)]

mod compound;
mod context;
mod forms;
mod function_body;
mod init;
mod list;
mod local;
mod named;
mod nest;
mod optional;
mod part;
mod reader;
mod simple;
mod statement;

pub use forms::{begins_declarator, has_initializer, has_tag, is_function};
pub use function_body::body;
pub use named::named_init;

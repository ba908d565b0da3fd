//! The scope of a program while it is parsed: which names are types at a point of the text, and which are declared as
//! anything else before it.
//!
//! [`Scope`] holds both lists. Its methods go on past a part of the program, as `behind_specifiers`, `behind_named` and
//! `behind_item` of c_tree's `specs/Shape.antt` say. The walks over a tree pass its parts in order,
//! as `specs/With.antt`; that each adds what c_tree's `specs/DeclaredNames.antt` lists is proved in `proofs/Adds.antt`.
#![tactic(auto)]

mod expressions;
mod items;
mod scope;

pub use scope::Scope;

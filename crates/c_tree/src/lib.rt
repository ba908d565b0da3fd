//! Syntax trees of the C subset, what each of them spells, and which of them have the shape that the grammar asks.
//!
//! A [`Program`] is a tree of the whole grammar with the places of its parts. Contracts see a tree as plain data of
//! `specs/Tree.antt`, through the views of `specs/View.antt` and `specs/StatementView.antt`; the lemmas that open a view,
//! variant by variant, stand in `proofs/ViewLemmas.antt` and `proofs/StatementViewLemmas.antt`. `spell` of
//! `specs/Spelling.antt` is the tokens of a program, `Shape` of `specs/Shape.antt` the conditions of the grammar,
//! `WithinLimits` of `specs/Limits.antt` the limits, and `nodes` of `specs/Nodes.antt` the nodes in preorder. That two
//! programs of that shape with equal spelling are equal is stated in `specs/EqualSpellings.antt`, and not proved here.
//!
//! It stands on `base_core`, and on the lists and boxes of `sqlite_items`.
#![tactic(auto)]

mod count;
mod node;
mod program;
mod search;
mod tree;
mod type_word;
mod walk;
mod walk_items;

pub use count::{
    count_declaration, count_declarator, count_expression, count_init, count_named, count_optional,
    count_parameters, count_specifiers, count_start, count_statement, count_type,
};
pub use node::NodeRef;
pub use program::Program;
pub use tree::{
    AssignOp, Bare, BinaryOp, Decl, Declarator, Enumerator, Expr, ForStart, Function, Init,
    InitList, Item, Member, Named, ParamForm, Parameter, Params, Part, Qual, Quals, SpecWord,
    Specs, Stars, StepOp, Stmt, Storage, TypeName, UnaryOp,
};
pub use type_word::TypeWord;

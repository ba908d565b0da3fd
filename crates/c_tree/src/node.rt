ghost use Rattle.std.specs.Prelude.{◌≡◌};
ghost use Rattle.c_tree.specs.Nodes.{is_function};
ghost use Rattle.c_tree.specs.Search.{seen};

use crate::program::Program;
use crate::tree::{Decl, Declarator, Enumerator, Expr, Function, InitList, Named, Parameter, Stmt};

/// A node of a program's tree, by a reference to it. A declaration that is a statement is a `Decl`, a parameter is a node
/// where it has a name, and a `Member` is a declarator of a struct's member.
#[derive(Clone, Copy)]
pub enum NodeRef<'a> {
    Program(&'a Program),
    Function(&'a Function),
    Decl(&'a Decl),
    Named(&'a Named),
    Parameter(&'a Parameter),
    Member(&'a Declarator),
    Enumerator(&'a Enumerator),
    Parts(&'a InitList),
    Stmt(&'a Stmt),
    Expr(&'a Expr),
}

impl<'a> NodeRef<'a> {
    /// Whether it is a function.
    pub fn is_function(&self) -> bool
        ensures { result ≡ is_function (seen self.now) }
    {
        matches!(self, NodeRef::Function(_))
    }
}

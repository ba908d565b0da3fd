ghost use Rattle.std.specs.Prelude.{◌≡◌, ◌++◌, map, OnOk};
ghost use Rattle.c_tree.specs.StatementView.{view_statement, statements_of};
ghost use Rattle.flow_form.specs.Statements.{case_edges, leave_edges, is_default, has_default};
ghost use Rattle.flow_form.specs.Typing.{typing};

use crate::edge::{Edge, Guard};
use crate::meaning::Meaning;
use crate::walk::{enter_of, leave_of};
use base_core::NodeId;
use c_tree::Stmt;
use std::alloc::AllocError;

/// A switch, and its expression.
#[derive(Clone, Copy)]
pub(crate) struct Switch {
    pub(crate) node: u32,
    pub(crate) expression: u32,
}

/// Appends the edge to the end of a switch, unless it has a label `default`.
pub(crate) fn push_end(has_default: bool, of: Switch, out: &mut Vec<Edge>) -> Result<(), AllocError>
    ensures { OnOk result (out.new.items ≡ out.old.items ++ leave_edges has_default of.node) }
{
    if !has_default {
        out.push(Edge {
            to: leave_of(of.node),
            guard: Guard::NoneOf(NodeId(of.node)),
        })?;
    }
    Ok(())
}

/// Appends the edge to the statement `n` directly in the block of a switch, if it is a label of it.
pub(crate) fn push_case(
    t: &Meaning<'_>,
    of: Switch,
    n: u32,
    statement: &Stmt,
    out: &mut Vec<Edge>,
) -> Result<(), AllocError>
    ensures { OnOk result (out.new.items ≡ out.old.items ++ case_edges (typing t.now) of.node of.expression n (view_statement statement.now)) }
{
    let to = enter_of(n);
    match statement {
        Stmt::Case(_) => {
            out.push(Edge {
                to,
                guard: Guard::Equal(NodeId(of.expression), t.constant(n)),
            })?;
            Ok(())
        }
        Stmt::Default => {
            out.push(Edge {
                to,
                guard: Guard::NoneOf(NodeId(of.node)),
            })?;
            Ok(())
        }
        Stmt::Block(_)
        | Stmt::Decl(_)
        | Stmt::Expr(_)
        | Stmt::If(_, _, None)
        | Stmt::If(_, _, Some(_))
        | Stmt::While(_, _)
        | Stmt::DoWhile(_, _)
        | Stmt::For(_, _, _, _)
        | Stmt::Switch(_, _)
        | Stmt::Label(_)
        | Stmt::Break
        | Stmt::Continue
        | Stmt::Return(_)
        | Stmt::Goto(_) => Ok(()),
    }
}

fn is_default_label(s: &Stmt) -> bool
    ensures { result ≡ is_default (view_statement s.now) }
{
    match s {
        Stmt::Default => true,
        Stmt::Block(_)
        | Stmt::Decl(_)
        | Stmt::Expr(_)
        | Stmt::If(_, _, None)
        | Stmt::If(_, _, Some(_))
        | Stmt::While(_, _)
        | Stmt::DoWhile(_, _)
        | Stmt::For(_, _, _, _)
        | Stmt::Switch(_, _)
        | Stmt::Case(_)
        | Stmt::Label(_)
        | Stmt::Break
        | Stmt::Continue
        | Stmt::Return(_)
        | Stmt::Goto(_) => false,
    }
}

/// Whether a label `default` stands directly among these statements.
pub(crate) fn has_default_label(all: &[Stmt]) -> bool
    ensures { result ≡ has_default (statements_of (map view_statement all.now)) }
{
    for s in all {
        if is_default_label(s) {
            return true;
        }
    }
    false
}

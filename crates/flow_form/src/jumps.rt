ghost use Rattle.std.specs.Prelude.{◌≡◌};
ghost use Rattle.c_tree.specs.StatementView.{view_statement};
ghost use Rattle.flow_form.specs.Jumps.{around};
ghost use Rattle.flow_form.specs.Positions.{otherwise};
ghost use Rattle.flow_form.specs.Statements.{jump, leaving};

use crate::edge::Source;
use crate::targets::Targets;
use crate::walk::{giving_of, leave_of, plain_of};
use base_core::Pos;
use c_tree::Stmt;

/// Where the jumps of a statement lead: a break, a continue, a return from this function, and a goto by its label.
#[derive(Clone, Copy)]
pub(crate) struct Jumps<'a> {
    pub(crate) stop: Pos,
    pub(crate) again: Pos,
    pub(crate) function: u32,
    pub(crate) targets: &'a Targets<'a>,
}

/// Where a statement jumps to from its Leave; None where it goes on.
pub(crate) fn jump_of(w: &Jumps<'_>, s: &Stmt) -> Option<Pos>
    ensures { result ≡ jump (around w.now) (view_statement s.now) }
{
    match s {
        Stmt::Break => Some(w.stop),
        Stmt::Continue => Some(w.again),
        Stmt::Return(_) => Some(leave_of(w.function)),
        Stmt::Goto(m) => w.targets.label(m.as_bytes()),
        Stmt::Block(_)
        | Stmt::Decl(_)
        | Stmt::Expr(_)
        | Stmt::If(_, _, None)
        | Stmt::If(_, _, Some(_))
        | Stmt::While(_, _)
        | Stmt::DoWhile(_, _)
        | Stmt::For(_, _, _, _)
        | Stmt::Switch(_, _)
        | Stmt::Case(_)
        | Stmt::Default
        | Stmt::Label(_) => None,
    }
}

/// A jump's target, or `p` where there is no jump.
pub(crate) fn or_on(jump: Option<Pos>, p: Pos) -> Pos
    ensures { result ≡ otherwise p jump }
{
    match jump {
        Some(q) => q,
        None => p,
    }
}

/// The Leave of a statement with the number `n`, to go on from.
pub(crate) fn leaving_of(w: &Jumps<'_>, n: u32, s: &Stmt) -> Source
    ensures { result ≡ leaving (around w.now) n (view_statement s.now) }
{
    match s {
        Stmt::Return(Some(_)) => giving_of(w.function, n),
        Stmt::Return(None)
        | Stmt::Block(_)
        | Stmt::Decl(_)
        | Stmt::Expr(_)
        | Stmt::If(_, _, None)
        | Stmt::If(_, _, Some(_))
        | Stmt::While(_, _)
        | Stmt::DoWhile(_, _)
        | Stmt::For(_, _, _, _)
        | Stmt::Switch(_, _)
        | Stmt::Case(_)
        | Stmt::Default
        | Stmt::Label(_)
        | Stmt::Break
        | Stmt::Continue
        | Stmt::Goto(_) => plain_of(leave_of(n)),
    }
}

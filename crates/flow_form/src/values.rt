ghost use Rattle.std.specs.Prelude.{◌≡◌};
ghost use Rattle.c_tree.specs.View.{view_expression};
ghost use Rattle.flow_form.specs.Control.{designator, reads, takes_place};
ghost use Rattle.flow_form.specs.Typing.{typing};

use crate::meaning::Meaning;
use c_tree::{Expr, UnaryOp};

/// Whether an expression designates an object or errno.
fn is_designator(t: &Meaning<'_>, n: u32, e: &Expr) -> bool
    ensures { result ≡ designator (typing t.now) n (view_expression e.now) }
{
    match e {
        Expr::Name(_) | Expr::Unary(UnaryOp::Follow, _) => t.designates(n),
        Expr::Index(_, _) | Expr::Dot(_, _) | Expr::Arrow(_, _) | Expr::Text(_) => true,
        Expr::Comma(_, _)
        | Expr::Assign(_, _, _)
        | Expr::Choose(_, _, _)
        | Expr::Binary(_, _, _)
        | Expr::Cast(_, _)
        | Expr::Unary(_, _)
        | Expr::Before(_, _)
        | Expr::SizeOf(_)
        | Expr::SizeOfType(_)
        | Expr::Call(_, _)
        | Expr::After(_, _)
        | Expr::Integer(_)
        | Expr::Character(_)
        | Expr::Paren(_) => false,
    }
}

/// Whether an expression, with the number `n`, is read.
pub(crate) fn is_read(t: &Meaning<'_>, is_place: bool, n: u32, e: &Expr) -> bool
    ensures { result ≡ reads (typing t.now) is_place n (view_expression e.now) }
{
    if is_place {
        false
    } else {
        is_designator(t, n, e) && !t.is_array(n)
    }
}

/// Whether an operator's operand stands as a place.
pub(crate) fn is_address(o: UnaryOp) -> bool
    ensures { result ≡ takes_place o }
{
    match o {
        UnaryOp::Address => true,
        _ => false,
    }
}

//! A call of a function of the program, or by a pointer to a function (C11 6.5.2.2).

ghost use Rattle.std.specs.Prelude.{◌≡◌, IfOk, map};
ghost use Rattle.c_kinds.specs.View.{view, view_types};
ghost use Rattle.c_rules.specs.Calls as rule;
ghost use Rattle.c_rules.specs.Seen.{seen, seen_operand, seen_operands};

use crate::misfit::MisfitKind;
use crate::operand::{Operand, are_settled, have_kinds};
use crate::values::is_accepted;
use crate::verdict::Verdict;
use c_kinds::{CType, Types};
use std::alloc::AllocError;

/// Whether each argument may stand where its parameter's kind is due.
fn are_accepted(dues: &[CType], xs: &[Operand]) -> bool
    ensures { result ≡ rule.are_accepted (map view dues.now) (seen_operands xs.now) }
{
    let mut rest = dues;
    for x in xs {
        match rest {
            [] => return false,
            [due, more @ ..] => {
                if !is_accepted(due, x) {
                    return false;
                }
                rest = more;
            }
        }
    }
    match rest {
        [] => true,
        [_due, _more @ ..] => false,
    }
}

/// The call's kind, where each argument has one.
pub(crate) fn given(xs: &[Operand], kind: CType) -> Verdict
    ensures { seen result ≡ rule.given (seen_operands xs.now) (view kind) }
{
    if have_kinds(xs) {
        Verdict::Fits(kind)
    } else {
        Verdict::Waits
    }
}

fn called(xs: &[Operand], dues: &Types, gives: &CType) -> Result<Verdict, AllocError>
    ensures { IfOk result (λ v. seen v ≡ rule.called (seen_operands xs.now) (view_types dues.now) (view gives.now)) }
{
    if xs.len() != dues.len() {
        Ok(Verdict::Fails(MisfitKind::WrongCount))
    } else if are_accepted(dues.as_slice(), xs) {
        Ok(given(xs, gives.share()?))
    } else {
        Ok(Verdict::Fails(MisfitKind::KindMismatch))
    }
}

fn call_rule(xs: &[Operand], callee: &CType) -> Result<Verdict, AllocError>
    ensures { IfOk result (λ v. seen v ≡ rule.call_rule (seen_operands xs.now) (view callee.now)) }
{
    match callee {
        CType::FnPtr(dues, gives) => called(xs, dues, gives),
        _ => Ok(Verdict::Fails(MisfitKind::NotCallable)),
    }
}

/// A call of a function of the program, or by a pointer to a function, with these arguments (C11 6.5.2.2). Err where there is not enough
/// memory.
pub fn call(callee: &Operand, xs: &[Operand]) -> Result<Verdict, AllocError>
    ensures { IfOk result (λ v. seen v ≡ rule.call (seen_operand callee.now) (seen_operands xs.now)) }
{
    if !(callee.is_settled() && are_settled(xs)) {
        return Ok(Verdict::Waits);
    }
    match callee.kind() {
        Some(kind) => call_rule(xs, kind),
        None => Ok(Verdict::Waits),
    }
}

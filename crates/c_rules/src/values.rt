//! Values and the places that they are stored into (C11 6.5.16, 6.7.9).

ghost use Rattle.std.specs.Prelude.{◌≡◌, IfOk, option_map};
ghost use Rattle.c_kinds.specs.View.{view};
ghost use Rattle.c_rules.specs.Judgement as judgement;
ghost use Rattle.c_rules.specs.Values as rule;
ghost use Rattle.c_rules.specs.Seen.{seen, seen_operand};

use crate::form::{Constant, Designates, Form};
use crate::misfit::MisfitKind;
use crate::operand::Operand;
use crate::types::is_int;
use crate::verdict::Verdict;
use c_kinds::{CType, Word};
use c_tree::AssignOp;
use std::alloc::AllocError;

pub(crate) fn is_null(constant: Constant) -> bool
    ensures { result ≡ rule.is_null constant }
{
    matches!(constant, Constant::Zero | Constant::Null)
}

pub(crate) fn is_disposition(constant: Constant) -> bool
    ensures { result ≡ rule.is_disposition constant }
{
    matches!(constant, Constant::Disposition)
}

fn stands_for(constant: Constant, due: &CType) -> bool
    ensures { result ≡ rule.stands_for constant (view due.now) }
{
    let word = due.word();
    is_null(constant) && word.is_pointer() || is_disposition(constant) && Word::FnPtr.is(word)
}

/// Whether a value may stand where this kind is due.
pub(crate) fn may_stand(constant: Constant, kind: &CType, due: &CType) -> bool
    ensures { result ≡ rule.may_stand constant (view kind.now) (view due.now) }
{
    kind.matches(due) || stands_for(constant, due)
}

/// Whether an operand may stand where this kind is due.
pub(crate) fn is_accepted(due: &CType, x: &Operand) -> bool
    ensures { result ≡ rule.is_accepted (view due.now) x.now.form.constant (judgement.kind (seen x.now.verdict)) }
{
    match x.kind() {
        Some(kind) => may_stand(x.form.constant, kind, due),
        None => true,
    }
}

/// Whether an object that may be stored into is designated.
fn is_storable(designates: Designates) -> bool
    ensures { result ≡ rule.is_storable designates }
{
    matches!(designates, Designates::Object | Designates::Errno)
}

/// Whether it is a modifiable lvalue.
fn is_modifiable(form: Form, kind: Option<&CType>) -> bool
    ensures { result ≡ rule.is_modifiable form (option_map (λ t. view t.now) kind.entry) }
{
    is_storable(form.designates) && !matches!(kind, Some(CType::Array(_)))
}

/// Whether it is an integer or a pointer to an object.
fn is_step(kind: &CType) -> bool
    ensures { result ≡ rule.is_step (view kind.now) }
{
    matches!(kind, CType::Int(_, _) | CType::Ptr(_))
}

fn fits_if(holds: bool, kind: &CType) -> Result<Verdict, AllocError>
    ensures { IfOk result (λ v. seen v ≡ rule.fits_if holds (view kind.now)) }
{
    if holds {
        Ok(Verdict::Fits(kind.share()?))
    } else {
        Ok(Verdict::Fails(MisfitKind::KindMismatch))
    }
}

fn assign_rule(
    op: AssignOp,
    constant: Constant,
    to: &CType,
    value: &CType,
) -> Result<Verdict, AllocError>
    ensures { IfOk result (λ v. seen v ≡ rule.assign_rule op constant (view to.now) (view value.now)) }
{
    match op {
        AssignOp::Plain => fits_if(may_stand(constant, value, to), to),
        AssignOp::Add | AssignOp::Sub => fits_if(is_step(to) && is_int(value), to),
        _ => fits_if(is_int(to) && is_int(value), to),
    }
}

/// `=` and the compound assignments (C11 6.5.16). Err where there is not enough memory.
pub fn assign(op: AssignOp, x: &Operand, y: &Operand) -> Result<Verdict, AllocError>
    ensures { IfOk result (λ v. seen v ≡ rule.assign op (seen_operand x.now) (seen_operand y.now)) }
{
    if !(x.is_settled() && y.is_settled()) {
        return Ok(Verdict::Waits);
    }
    if !is_modifiable(x.form, x.kind()) {
        return Ok(Verdict::Fails(MisfitKind::NotAssignable));
    }
    match (x.kind(), y.kind()) {
        (Some(to), Some(value)) => assign_rule(op, y.form.constant, to, value),
        _ => Ok(Verdict::Waits),
    }
}

fn step_rule(kind: &CType) -> Result<Verdict, AllocError>
    ensures { IfOk result (λ v. seen v ≡ rule.step_rule (view kind.now)) }
{
    fits_if(is_step(kind), kind)
}

/// `++` and `--`, before and behind (C11 6.5.2.4, 6.5.3.1). Err where there is not enough memory.
pub fn step(x: &Operand) -> Result<Verdict, AllocError>
    ensures { IfOk result (λ v. seen v ≡ rule.step (seen_operand x.now)) }
{
    if !x.is_settled() {
        return Ok(Verdict::Waits);
    }
    if !is_modifiable(x.form, x.kind()) {
        return Ok(Verdict::Fails(MisfitKind::NotAssignable));
    }
    match x.kind() {
        Some(kind) => step_rule(kind),
        None => Ok(Verdict::Waits),
    }
}

fn is_char_array(kind: &CType) -> bool
    ensures { result ≡ rule.is_char_array (view kind.now) }
{
    match kind {
        CType::Array(of) => matches!(&**of, CType::Int(8, _)),
        _ => false,
    }
}

/// Whether an expression initialises an object of this kind.
fn initialises(constant: Constant, kind: &CType, due: &CType) -> bool
    ensures { result ≡ rule.initialises constant (view kind.now) (view due.now) }
{
    may_stand(constant, kind, due)
        || matches!(constant, Constant::Text) && is_char_array(due)
        || matches!(constant, Constant::Initializer) && Word::Kernel.is(due.word())
}

/// What is wrong with an expression that initialises an object of this kind, or a part of one in a list (C11 6.7.9p11, p14). It is
/// asked where the expression is settled.
pub fn initialiser_misfit(due: &CType, x: &Operand) -> Option<MisfitKind>
    ensures { result ≡ rule.initialiser_misfit (view due.now) (seen_operand x.now) }
{
    match x.kind() {
        Some(kind) => {
            if initialises(x.form.constant, kind, due) {
                None
            } else {
                Some(MisfitKind::KindMismatch)
            }
        }
        None => None,
    }
}

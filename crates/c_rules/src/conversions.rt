//! Casts and sizeof (C11 6.5.4, 6.5.3.4).

ghost use Rattle.std.specs.Prelude.{◌≡◌, IfOk};
ghost use Rattle.c_kinds.specs.Kind as kinds;
ghost use Rattle.c_kinds.specs.View.{view};
ghost use Rattle.c_rules.specs.Conversions as rule;
ghost use Rattle.c_rules.specs.Seen.{seen, seen_operand};

use crate::form::Constant;
use crate::misfit::MisfitKind;
use crate::operand::Operand;
use crate::verdict::Verdict;
use c_kinds::CType;
use std::alloc::AllocError;

fn may_cast(to: &CType, constant: Constant, kind: &CType) -> bool
    ensures { result ≡ rule.may_cast (view to.now) constant (kinds.decayed (view kind.now)) }
{
    match (to, kind) {
        (CType::Void, _) => true,
        (CType::Int(_, _) | CType::Ptr(_), CType::Int(_, _) | CType::Ptr(_) | CType::Array(_)) =>
            true,
        (CType::FnPtr(_, _), CType::FnPtr(_, _)) => true,
        (CType::FnPtr(_, _), CType::Int(_, _)) => matches!(constant, Constant::Zero),
        _ => false,
    }
}

fn cast_rule(to: &CType, constant: Constant, kind: &CType) -> Result<Verdict, AllocError>
    ensures { IfOk result (λ v. seen v ≡ rule.cast_rule (view to.now) constant (view kind.now)) }
{
    if may_cast(to, constant, kind) {
        Ok(Verdict::Fits(to.share()?))
    } else {
        Ok(Verdict::Fails(MisfitKind::LeftOut))
    }
}

/// A cast to this kind (C11 6.5.4). Err where there is not enough memory.
pub fn cast(to: &CType, x: &Operand) -> Result<Verdict, AllocError>
    ensures { IfOk result (λ v. seen v ≡ rule.cast (view to.now) (seen_operand x.now)) }
{
    if !x.is_settled() {
        return Ok(Verdict::Waits);
    }
    match x.kind() {
        Some(kind) => cast_rule(to, x.form.constant, kind),
        None => Ok(Verdict::Waits),
    }
}

/// sizeof of a type (C11 6.5.3.4p5).
pub fn size_of_type() -> Verdict
    ensures { seen result ≡ rule.size_of_type }
{
    Verdict::Fits(CType::Int(64, false))
}

/// sizeof of an expression (C11 6.5.3.4p5).
pub fn size_of(x: &Operand) -> Verdict
    ensures { seen result ≡ rule.size_of (seen_operand x.now) }
{
    if !x.is_settled() {
        return Verdict::Waits;
    }
    match x.kind() {
        Some(_) => size_of_type(),
        None => Verdict::Waits,
    }
}

//! An index and a member (C11 6.5.2.1, 6.5.2.3).

ghost use Rattle.std.specs.Prelude.{◌≡◌, IfOk, option_map};
ghost use Rattle.c_kinds.specs.View.{view};
ghost use Rattle.c_rules.specs.Access as rule;
ghost use Rattle.c_rules.specs.Seen.{seen, seen_operand};

use crate::misfit::MisfitKind;
use crate::operand::Operand;
use crate::types::is_int;
use crate::verdict::Verdict;
use c_kinds::CType;
use std::alloc::AllocError;

fn index_rule(based: bool, whole: &CType, at: &CType) -> Result<Verdict, AllocError>
    ensures { IfOk result (λ v. seen v ≡ rule.index_rule based (view whole.now) (view at.now)) }
{
    match (whole, at) {
        (CType::Ptr(to), CType::Int(_, _)) => Ok(Verdict::Fits(to.share()?)),
        (CType::Array(of), CType::Int(_, _)) if based => Ok(Verdict::Fits(of.share()?)),
        _ => Ok(Verdict::Fails(MisfitKind::KindMismatch)),
    }
}

/// An index (C11 6.5.2.1). Err where there is not enough memory.
pub fn index(x: &Operand, y: &Operand) -> Result<Verdict, AllocError>
    ensures { IfOk result (λ v. seen v ≡ rule.index (seen_operand x.now) (seen_operand y.now)) }
{
    if !(x.is_settled() && y.is_settled()) {
        return Ok(Verdict::Waits);
    }
    match (x.kind(), y.kind()) {
        (Some(whole), Some(at)) => index_rule(x.form.based, whole, at),
        _ => Ok(Verdict::Waits),
    }
}

fn member_rule(member: Option<&CType>, based: bool) -> Result<Verdict, AllocError>
    ensures { IfOk result (λ v. seen v ≡ rule.member_rule (option_map (λ t. view t.now) member.entry) based) }
{
    match member {
        Some(kind) if based => Ok(Verdict::Fits(kind.share()?)),
        Some(_) => Ok(Verdict::Fails(MisfitKind::KindMismatch)),
        None => Ok(Verdict::Fails(MisfitKind::UnknownName)),
    }
}

fn dot_rule(member: Option<&CType>, based: bool, whole: &CType) -> Result<Verdict, AllocError>
    ensures { IfOk result (λ v. seen v ≡ rule.dot_rule (option_map (λ t. view t.now) member.entry) based (view whole.now)) }
{
    match whole {
        CType::Struct(_) => member_rule(member, based),
        _ => Ok(Verdict::Fails(MisfitKind::KindMismatch)),
    }
}

/// `.` to a member with this kind; None where the structure has no such member (C11 6.5.2.3p1). Err where there is not enough memory.
pub fn dot(member: Option<&CType>, x: &Operand) -> Result<Verdict, AllocError>
    ensures { IfOk result (λ v. seen v ≡ rule.dot (option_map (λ t. view t.now) member.entry) (seen_operand x.now)) }
{
    if !x.is_settled() {
        return Ok(Verdict::Waits);
    }
    match x.kind() {
        Some(whole) => dot_rule(member, x.form.based, whole),
        None => Ok(Verdict::Waits),
    }
}

fn arrow_rule(member: Option<&CType>, whole: &CType) -> Result<Verdict, AllocError>
    ensures { IfOk result (λ v. seen v ≡ rule.arrow_rule (option_map (λ t. view t.now) member.entry) (view whole.now)) }
{
    match whole {
        CType::Ptr(to) | CType::Array(to) => dot_rule(member, true, to),
        _ => Ok(Verdict::Fails(MisfitKind::KindMismatch)),
    }
}

/// `->` to a member with this kind; None where the structure has no such member (C11 6.5.2.3p2). Err where there is not enough memory.
pub fn arrow(member: Option<&CType>, x: &Operand) -> Result<Verdict, AllocError>
    ensures { IfOk result (λ v. seen v ≡ rule.arrow (option_map (λ t. view t.now) member.entry) (seen_operand x.now)) }
{
    if !x.is_settled() {
        return Ok(Verdict::Waits);
    }
    match x.kind() {
        Some(whole) => arrow_rule(member, whole),
        None => Ok(Verdict::Waits),
    }
}

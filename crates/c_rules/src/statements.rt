//! Statements by the kinds of their expressions (C11 6.8).

ghost use Rattle.std.specs.Prelude.{◌≡◌};
ghost use Rattle.c_kinds.specs.View.{view};
ghost use Rattle.c_rules.specs.Statements as rule;
ghost use Rattle.c_rules.specs.Seen.{seen, seen_operand};

use crate::misfit::MisfitKind;
use crate::operand::Operand;
use crate::types::{is_condition, is_int};
use crate::values::is_accepted;
use crate::verdict::Verdict;
use c_kinds::CType;

fn silent_if(holds: bool) -> Verdict
    ensures { seen result ≡ rule.silent_if holds }
{
    if holds {
        Verdict::Silent
    } else {
        Verdict::Fails(MisfitKind::KindMismatch)
    }
}

/// An expression as a statement (C11 6.8.3p2).
pub fn evaluated(x: &Operand) -> Verdict
    ensures { seen result ≡ rule.evaluated (seen_operand x.now) }
{
    if x.is_settled() {
        Verdict::Silent
    } else {
        Verdict::Waits
    }
}

/// An if, a while, a do or a for with this controlling expression (C11 6.8.4.1p1, 6.8.5p2).
pub fn condition(x: &Operand) -> Verdict
    ensures { seen result ≡ rule.condition (seen_operand x.now) }
{
    if !x.is_settled() {
        return Verdict::Waits;
    }
    match x.kind() {
        Some(kind) => silent_if(is_condition(kind)),
        None => Verdict::Silent,
    }
}

/// A switch with this controlling expression (C11 6.8.4.2p1).
pub fn switched(x: &Operand) -> Verdict
    ensures { seen result ≡ rule.switched (seen_operand x.now) }
{
    if !x.is_settled() {
        return Verdict::Waits;
    }
    match x.kind() {
        Some(kind) => silent_if(is_int(kind)),
        None => Verdict::Silent,
    }
}

/// A return without an expression, in a function with this result (C11 6.8.6.4p1).
pub fn return_nothing(result_kind: &CType) -> Verdict
    ensures { seen result ≡ rule.return_nothing (view result_kind.now) }
{
    match result_kind {
        CType::Void => Verdict::Silent,
        _ => Verdict::Fails(MisfitKind::KindMismatch),
    }
}

/// A return with this expression, in a function with this result (C11 6.8.6.4p1, p3).
pub fn returned(result_kind: &CType, x: &Operand) -> Verdict
    ensures { seen result ≡ rule.returned (view result_kind.now) (seen_operand x.now) }
{
    if !x.is_settled() {
        return Verdict::Waits;
    }
    match result_kind {
        CType::Void => Verdict::Fails(MisfitKind::KindMismatch),
        _ => silent_if(is_accepted(result_kind, x)),
    }
}

//! What declarations owe by the kinds that they declare (C11 6.7, 6.9). A function here gives the rule that is broken, so that a
//! declaration asks several in order, once its parts are settled.

ghost use Rattle.std.specs.Prelude.{◌≡◌, map, option_map};
ghost use Rattle.c_kinds.specs.View.{view};
ghost use Rattle.c_rules.specs.Declarations as rule;

use crate::form::Constant;
use crate::misfit::MisfitKind;
use crate::types::sigaction_number;
use c_kinds::{CType, Word};

fn misfit_unless(holds: bool, misfit: MisfitKind) -> Option<MisfitKind>
    ensures { result ≡ rule.misfit_unless holds misfit }
{
    if holds { None } else { Some(misfit) }
}

/// What is wrong with an object, a member or a parameter of this type: whether it is complete, void apart, and whether it is a function's
/// type, is told by the caller (C11 6.7p7, 6.7.2.1p3, 6.7.6.3p4).
pub fn object_misfit(is_complete: bool, is_function: bool, kind: &CType) -> Option<MisfitKind>
    ensures { result ≡ rule.object_misfit is_complete is_function (view kind.now) }
{
    let holds = is_complete && !is_function && kind.innermost().word().has_values();
    misfit_unless(holds, MisfitKind::KindMismatch)
}

/// What is wrong with a parameter or a result of this type: the subset passes no structure and no sigset_t by value.
pub fn passed_misfit(kind: &CType) -> Option<MisfitKind>
    ensures { result ≡ rule.passed_misfit (view kind.now) }
{
    match kind {
        CType::Struct(_) | CType::Set => Some(MisfitKind::LeftOut),
        _ => None,
    }
}

/// What is wrong with a second declaration of one object or function (C11 6.2.7p2).
pub fn redeclared_misfit(before: &CType, now: &CType) -> Option<MisfitKind>
    ensures { result ≡ rule.redeclared_misfit (view before.now) (view now.now) }
{
    misfit_unless(before.agrees(now), MisfitKind::KindMismatch)
}

/// What is wrong with a list of initialisers for an object of this type (C11 6.7.9p16).
pub fn list_misfit(kind: &CType) -> Option<MisfitKind>
    ensures { result ≡ rule.list_misfit (view kind.now) }
{
    match kind {
        CType::Array(_) | CType::Struct(_) => None,
        _ => Some(MisfitKind::KindMismatch),
    }
}

/// What is wrong with a part of a list that fills a member or an element of this kind; None where there is none of the part's name, or
/// none behind the last (C11 6.7.9p2, p7).
pub fn part_misfit(is_named: bool, filled: Option<&CType>) -> Option<MisfitKind>
    ensures { result ≡ rule.part_misfit is_named (option_map (λ t. view t.now) filled.entry) }
{
    match filled {
        Some(_) => None,
        None if is_named => Some(MisfitKind::UnknownName),
        None => Some(MisfitKind::KindMismatch),
    }
}

fn is_sigaction(kind: &CType) -> bool
    ensures { result ≡ rule.is_sigaction (view kind.now) }
{
    match kind {
        CType::Struct(number) => *number == sigaction_number(),
        _ => false,
    }
}

/// What is wrong with a part of a list that names no member, in a list for an object of this type: in one for a struct sigaction it is the
/// constant 0, and the only part.
pub fn positional_misfit(kind: &CType, is_sole: bool, constant: Constant) -> Option<MisfitKind>
    ensures { result ≡ rule.positional_misfit (view kind.now) is_sole constant }
{
    let is_zero = matches!(constant, Constant::Zero);
    misfit_unless(
        !is_sigaction(kind) || is_sole && is_zero,
        MisfitKind::LeftOut,
    )
}

fn is_plain_int(kind: &CType) -> bool
    ensures { result ≡ rule.is_plain_int (view kind.now) }
{
    match kind {
        CType::Int(width, signed) => *width == 32 && *signed,
        _ => false,
    }
}

fn is_pointer(kind: &CType) -> bool
    ensures { result ≡ rule.is_pointer (view kind.now) }
{
    Word::Ptr.is(kind.word())
}

fn are_main_parameters(kinds: &[CType]) -> bool
    ensures { result ≡ rule.are_main_parameters (map view kinds.now) }
{
    match kinds {
        [] => true,
        [n, texts] => is_plain_int(n) && is_pointer(texts),
        [n, texts, environment] => is_plain_int(n) && is_pointer(texts) && is_pointer(environment),
        _ => false,
    }
}

/// Whether main may have this type (C11 5.1.2.2.1).
pub fn is_main_type(kind: &CType) -> bool
    ensures { result ≡ rule.is_main_type (view kind.now) }
{
    match kind {
        CType::FnPtr(takes, gives) => is_plain_int(gives) && are_main_parameters(takes.as_slice()),
        _ => false,
    }
}

/// What is wrong with a program whose function main has this type; None where there is no main (C11 5.1.2.2.1).
pub fn main_misfit(kind: Option<&CType>) -> Option<MisfitKind>
    ensures { result ≡ rule.main_misfit (option_map (λ t. view t.now) kind.entry) }
{
    match kind {
        Some(kind) => misfit_unless(is_main_type(kind), MisfitKind::NoMain),
        None => Some(MisfitKind::NoMain),
    }
}

//! The kinds that rules give, and what they ask of kinds.

ghost use Rattle.std.specs.Prelude.{◌≡◌, IfOk};
ghost use Rattle.c_kinds.specs.View.{view};
ghost use Rattle.c_rules.specs.Types as spec;

use c_arithmetic::IntType;
use c_kinds::{CType, Types, Word};
use std::alloc::{AllocError, Global};

/// The kind of an integer of this type.
pub(crate) fn of_type(of: IntType) -> CType
    ensures { view result ≡ spec.of_type of }
{
    CType::Int(of.width, of.signed)
}

/// int.
pub(crate) fn plain_int() -> CType
    ensures { view result ≡ spec.plain_int }
{
    CType::Int(32, true)
}

/// A pointer to a function of an int without a result.
pub(crate) fn handler(alloc: Global) -> Result<CType, AllocError>
    ensures { IfOk result (λ t. view t ≡ spec.handler) }
{
    let mut takes = Vec::new(alloc);
    takes.push(plain_int())?;
    let takes = Types::new(alloc, takes)?;
    CType::function(alloc, takes, CType::Void)
}

pub(crate) fn is_int(kind: &CType) -> bool
    ensures { result ≡ spec.is_int (view kind.now) }
{
    Word::Int.is(kind.word())
}

pub(crate) fn is_void(kind: &CType) -> bool
    ensures { result ≡ spec.is_void (view kind.now) }
{
    Word::Void.is(kind.word())
}

pub(crate) fn is_object_pointer(kind: &CType) -> bool
    ensures { result ≡ spec.is_object_pointer (view kind.now) }
{
    Word::Ptr.is(kind.word().decayed())
}

pub(crate) fn is_condition(kind: &CType) -> bool
    ensures { result ≡ spec.is_condition (view kind.now) }
{
    kind.word().decayed().is_scalar()
}

pub(crate) fn is_void_pointer(kind: &CType) -> bool
    ensures { result ≡ spec.is_void_pointer (view kind.now) }
{
    match kind {
        CType::Ptr(to) => matches!(&**to, CType::Void),
        _ => false,
    }
}

/// The number of struct tm among the built-in structures.
pub(crate) fn tm_number() -> u32
    ensures { result ≡ spec.tm_number }
{
    4
}

/// The number of struct sigaction among the built-in structures.
pub(crate) fn sigaction_number() -> u32
    ensures { result ≡ spec.sigaction_number }
{
    11
}

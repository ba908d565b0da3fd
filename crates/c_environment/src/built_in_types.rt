//! The types of built-in names, and the built-in structures.

ghost use Rattle.std.specs.Prelude.{◌≡◌, map, IfOk, OnOk};
ghost use Rattle.c_kinds.specs.View.{view};
ghost use Rattle.c_environment.specs.Entity.{no_members};
ghost use Rattle.c_environment.specs.Start as plain;
ghost use Rattle.c_environment.specs.Seen.{seen_entity, seen_members};

use crate::entity::{DeclaredType, Entity};
use crate::members::Members;
use c_builtins::{BuiltInType, Member, TypeName};
use c_kinds::{CType, Types};
use std::alloc::{AllocError, Global};

/// The kind of a pointer to a function of an int without a result (POSIX.1-2017 XBD signal.h).
fn handler(alloc: Global) -> Result<CType, AllocError>
    ensures { IfOk result (λ t. view t ≡ plain.handler) }
{
    let mut parameters = Vec::new(alloc);
    parameters.push(CType::Int(32, true))?;
    let parameters = Types::new(alloc, parameters)?;
    CType::function(alloc, parameters, CType::Void)
}

/// The kind of a pointer to a function of an int and two pointers without a result.
fn action(alloc: Global) -> Result<CType, AllocError>
    ensures { IfOk result (λ t. view t ≡ plain.action) }
{
    let mut parameters = Vec::new(alloc);
    parameters.push(CType::Int(32, true))?;
    parameters.push(CType::pointer(alloc, CType::Void)?)?;
    parameters.push(CType::pointer(alloc, CType::Void)?)?;
    let parameters = Types::new(alloc, parameters)?;
    CType::function(alloc, parameters, CType::Void)
}

/// The kind of a built-in type.
pub(crate) fn built_in_kind(alloc: Global, of: BuiltInType) -> Result<CType, AllocError>
    ensures { IfOk result (λ t. view t ≡ plain.built_in_kind of) }
{
    match of {
        BuiltInType::Int(width, signed) => Ok(CType::Int(width, signed)),
        BuiltInType::Signals => Ok(CType::Set),
        BuiltInType::Kernel => Ok(CType::Kernel),
        BuiltInType::Structure(number) => Ok(CType::Struct(number)),
        BuiltInType::Text => CType::array(alloc, CType::Int(8, true)),
        BuiltInType::Handler => handler(alloc),
        BuiltInType::Action => action(alloc),
    }
}

/// What a built-in name of a type stands for.
pub(crate) fn built_in_type(alloc: Global, of: &TypeName) -> Result<Entity, AllocError>
    ensures { IfOk result (λ e. seen_entity e ≡ plain.built_in_type (of.now.name.now, of.now.names)) }
{
    Ok(Entity::TypeName(DeclaredType {
        kind: built_in_kind(alloc, of.names)?,
        is_function: false,
        is_open: false,
        constant: false,
        volatile: false,
        atomic: of.name == b"sig_atomic_t".as_slice(),
    }))
}

/// Adds these members.
fn add_members<'a>(
    alloc: Global,
    members: &mut Members<'a>,
    all: &'static [Member],
) -> Result<(), AllocError>
    ensures { OnOk result (seen_members members.new ≡ plain.members_of (seen_members members.old) (map (λ m. (m.name.now, m.holds)) all.now)) }
{
    for member in all {
        let kind = built_in_kind(alloc, member.holds)?;
        members.with_member(member.name, kind)?;
    }
    Ok(())
}

/// The members of a built-in structure.
pub(crate) fn built_in_members<'a>(
    alloc: Global,
    all: &'static [Member],
) -> Result<Members<'a>, AllocError>
    ensures { IfOk result (λ ms. seen_members ms ≡ plain.members_of no_members (map (λ m. (m.name.now, m.holds)) all.now)) }
{
    let mut members = Members::new(alloc);
    add_members(alloc, &mut members, all)?;
    Ok(members)
}

//! What a name in an expression stands for (C11 6.2.1p1, 6.5.1p2).

ghost use Rattle.std.specs.Prelude.{◌≡◌, option_map, IfOk};
ghost use Rattle.c_kinds.specs.View.{view};
ghost use Rattle.c_environment.specs.Seen.{seen_variable, seen_entity, seen_environment};
ghost use Rattle.c_rules.specs.Seen.{seen_operand};
ghost use Rattle.c_declared.specs.Denotes as denotes;
ghost use Rattle.c_declared.specs.Operands as spec;

use c_environment::{Entity, Environment, Variable};
use c_kinds::CType;
use c_rules::{Denoted, Operand, name_form, named};
use std::alloc::{AllocError, Global};

/// Whether the program defines the object.
fn is_defined(env: &Environment, name: &[u8], of: &Variable) -> bool
    ensures { result ≡ denotes.is_defined (seen_environment env.now) name.now (seen_variable of.now) }
{
    !of.linked || env.is_defined_object(name)
}

fn denoted_by(env: &Environment, name: &[u8], entity: Option<&Entity>) -> Denoted
    ensures { result ≡ denotes.denoted_by (seen_environment env.now) name.now (option_map (λ e. seen_entity e.now) entity.entry) }
{
    match entity {
        None | Some(Entity::TypeName(_)) => Denoted::Undeclared,
        Some(Entity::Variable(v)) => Denoted::Object {
            constant: v.of.constant,
            defined: is_defined(env, name, v),
        },
        Some(Entity::Parameter(of)) => Denoted::Object {
            constant: of.constant,
            defined: true,
        },
        Some(Entity::Function(_)) => Denoted::Function {
            defined: env.function_number(name).is_some(),
            main: name == b"main".as_slice(),
        },
        Some(Entity::Enumerator(_)) => Denoted::Enumerator,
        Some(Entity::Library(_)) => Denoted::Library,
        Some(Entity::BuiltIn(built_in)) => Denoted::BuiltIn(built_in.get()),
    }
}

/// What a name stands for.
pub(crate) fn denoted(env: &Environment, name: &[u8]) -> Denoted
    ensures { result ≡ denotes.denoted (seen_environment env.now) name.now }
{
    denoted_by(env, name, env.entity(name))
}

fn declared_kind<'a>(entity: Option<&'a Entity>) -> Option<&'a CType>
    ensures { option_map (λ t. view t.now) result ≡ denotes.declared_kind (option_map (λ e. seen_entity e.now) entity.entry) }
{
    match entity {
        Some(Entity::Variable(v)) => Some(&v.of.kind),
        Some(Entity::Parameter(of)) | Some(Entity::Function(of)) => Some(&of.kind),
        _ => None,
    }
}

/// The kind that a name was declared with.
pub(crate) fn kind_of<'e>(env: &'e Environment, name: &[u8]) -> Option<&'e CType>
    ensures { option_map (λ t. view t.now) result ≡ denotes.kind_of (seen_environment env.now) name.now }
{
    declared_kind(env.entity(name))
}

fn library_by(entity: Option<&Entity>) -> Option<u32>
    ensures { result ≡ denotes.library_by (option_map (λ e. seen_entity e.now) entity.entry) }
{
    match entity {
        Some(Entity::Library(place)) => Some(*place),
        _ => None,
    }
}

/// The library function that a name stands for, by its place in the table.
pub(crate) fn library_of(env: &Environment, name: &[u8]) -> Option<u32>
    ensures { result ≡ denotes.library_of (seen_environment env.now) name.now }
{
    library_by(env.entity(name))
}

/// A name, as an operand or before the arguments of a call. Err where there is not enough memory.
pub(crate) fn named_operand(
    alloc: Global,
    env: &Environment,
    name: &[u8],
    as_callee: bool,
) -> Result<Operand, AllocError>
    ensures { IfOk result (λ o. seen_operand o ≡ spec.named_operand (seen_environment env.now) name.now as_callee) }
{
    let denoted = denoted(env, name);
    let verdict = named(alloc, denoted, kind_of(env, name), as_callee)?;
    Ok(Operand {
        verdict,
        form: name_form(denoted),
    })
}

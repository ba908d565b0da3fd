//! Which constant expressions an expression is, by what its parts are (C11 6.6).

ghost use Rattle.std.specs.Prelude.{◌≡◌, option_map};
ghost use Rattle.c_kinds.specs.View.{view};
ghost use Rattle.c_environment.specs.Environment.{entity};
ghost use Rattle.c_environment.specs.Seen.{seen_entity, seen_environment};
ghost use Rattle.c_declared.specs.Constness as spec;
ghost use Rattle.c_declared.specs.Sizes as sizes;
ghost use Rattle.c_declared.specs.StaticConstants as statics;

use c_builtins::BuiltIn;
use c_environment::{Entity, Environment};
use c_kinds::CType;
use c_tree::UnaryOp;

/// Which constant expressions an expression is.
#[derive(Clone, Copy)]
pub struct Constness {
    /// An integer constant expression without casts (C11 6.6p6), which may be the size of an array.
    pub size: bool,
    /// An expression that may initialise an object of static storage duration (C11 6.7.9p4).
    pub fixed: bool,
    /// The place of an object of static storage duration (C11 6.6p9).
    pub lasting: bool,
}

fn is_array(kind: Option<&CType>) -> bool
    ensures { result ≡ statics.is_array (option_map (λ t. view t.now) kind.entry) }
{
    match kind {
        Some(CType::Array(_)) => true,
        _ => false,
    }
}

fn is_constant(entity: Option<&Entity>) -> bool
    ensures { result ≡ sizes.is_constant (option_map (λ e. seen_entity e.now) entity.entry) }
{
    match entity {
        Some(Entity::Enumerator(_)) => true,
        Some(Entity::BuiltIn(built_in)) => {
            matches!(
                built_in.get(),
                BuiltIn::Number(_) | BuiltIn::Null | BuiltIn::Opaque
            )
        }
        _ => false,
    }
}

fn is_constant_entity(entity: Option<&Entity>) -> bool
    ensures { result ≡ statics.is_constant_entity (option_map (λ e. seen_entity e.now) entity.entry) }
{
    match entity {
        Some(Entity::Enumerator(_) | Entity::Function(_) | Entity::Library(_)) => true,
        Some(Entity::BuiltIn(built_in)) => {
            !matches!(built_in.get(), BuiltIn::Errno | BuiltIn::LeftOut)
        }
        Some(Entity::Variable(v)) => v.lasting && is_array(Some(&v.of.kind)),
        _ => false,
    }
}

fn is_lasting_entity(entity: Option<&Entity>) -> bool
    ensures { result ≡ statics.is_lasting_entity (option_map (λ e. seen_entity e.now) entity.entry) }
{
    match entity {
        Some(Entity::Variable(v)) => v.lasting,
        Some(Entity::Function(_)) => true,
        _ => false,
    }
}

impl Constness {
    /// None.
    pub(crate) fn none() -> Self
        ensures { result ≡ spec.of_none }
    {
        Constness {
            size: false,
            fixed: false,
            lasting: false,
        }
    }

    /// A constant, or the size of something.
    pub(crate) fn constant() -> Self
        ensures { result ≡ spec.of_constant }
    {
        Constness {
            size: true,
            fixed: true,
            lasting: false,
        }
    }

    /// A string.
    pub(crate) fn text() -> Self
        ensures { result ≡ spec.of_text }
    {
        Constness {
            size: false,
            fixed: true,
            lasting: true,
        }
    }

    /// A name.
    pub(crate) fn name(env: &Environment, name: &[u8]) -> Self
        ensures { result ≡ spec.of_name (entity (seen_environment env.now) name.now) }
    {
        let entity = env.entity(name);
        Constness {
            size: is_constant(entity),
            fixed: is_constant_entity(entity),
            lasting: is_lasting_entity(entity),
        }
    }

    /// A binary operator of two.
    pub(crate) fn and(self, other: Self) -> Self
        ensures { result ≡ spec.of_two self other }
    {
        Constness {
            size: self.size && other.size,
            fixed: self.fixed && other.fixed,
            lasting: false,
        }
    }

    /// A choice between two, by this.
    pub(crate) fn choice(self, x: Self, y: Self) -> Self
        ensures { result ≡ spec.of_choice self x y }
    {
        Constness {
            size: self.size && x.size && y.size,
            fixed: self.fixed && x.fixed && y.fixed,
            lasting: false,
        }
    }

    /// A cast of this.
    pub(crate) fn cast(self) -> Self
        ensures { result ≡ spec.of_cast self }
    {
        Constness {
            size: false,
            fixed: self.fixed,
            lasting: false,
        }
    }

    /// A member of this.
    pub(crate) fn dot(self) -> Self
        ensures { result ≡ spec.of_dot self }
    {
        Constness {
            size: false,
            fixed: false,
            lasting: self.lasting,
        }
    }

    /// A unary operator of this.
    pub(crate) fn unary(self, op: UnaryOp) -> Self
        ensures { result ≡ spec.of_unary op self }
    {
        match op {
            UnaryOp::Address => Constness {
                size: false,
                fixed: self.lasting,
                lasting: false,
            },
            UnaryOp::Follow => Constness::none(),
            _ => Constness {
                size: self.size,
                fixed: self.fixed,
                lasting: false,
            },
        }
    }

    /// An element of this, which has this kind.
    pub(crate) fn index(self, kind: Option<&CType>, by: Self) -> Self
        ensures { result ≡ spec.of_index self (option_map (λ t. view t.now) kind.entry) by }
    {
        Constness {
            size: false,
            fixed: false,
            lasting: self.lasting && is_array(kind) && by.size,
        }
    }
}

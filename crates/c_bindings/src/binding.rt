//! What a name stands for, by the number of the object or function, or by its value.

ghost use Rattle.std.specs.Prelude.{◌≡◌, option_map};
ghost use Rattle.c_environment.specs.Seen.{seen_entity, seen_environment};
ghost use Rattle.c_bindings.specs.Binding as spec;

use base_core::{FnId, VarId};
use c_builtins::BuiltIn;
use c_environment::{Entity, Environment};

/// What a name in an expression, a declared name or a parameter stands for (C11 6.2.1p1).
#[derive(Clone, Copy, Debug, PartialEq, Eq)]
pub enum Binding {
    /// A variable, or a parameter of a function with a body.
    Variable(VarId),
    /// A function that has a body in the unit.
    Function(FnId),
    /// A library function, by its place in the table, which is sorted by the names.
    Library(u32),
    /// An object of the library: 0 to 2 for stdin, stdout and stderr (C11 7.21.1).
    LibraryObject(u32),
    /// An enumerator, or a constant with this value (C11 6.6).
    Value(i64),
    /// SIG_DFL (POSIX.1-2017 XBD signal.h).
    Default,
    /// SIG_IGN.
    Ignore,
    /// SIG_ERR.
    Failure,
    /// A value with which a kernel object is initialised.
    Kernel,
    /// A constant whose value is left open.
    Opaque,
    /// The place errno (C11 7.5).
    Errno,
}

fn built_in_binding(stands_for: BuiltIn) -> Option<Binding>
    ensures { result ≡ spec.built_in_binding stands_for }
{
    match stands_for {
        BuiltIn::Number(k) => Some(Binding::Value(i64::from(k))),
        BuiltIn::Null => Some(Binding::Value(0)),
        BuiltIn::Default => Some(Binding::Default),
        BuiltIn::Ignore => Some(Binding::Ignore),
        BuiltIn::Failure => Some(Binding::Failure),
        BuiltIn::Initializer => Some(Binding::Kernel),
        BuiltIn::Stream(k) => Some(Binding::LibraryObject(k)),
        BuiltIn::Opaque => Some(Binding::Opaque),
        BuiltIn::Errno => Some(Binding::Errno),
        BuiltIn::LeftOut => None,
    }
}

/// A function by its number, where it has a body in the unit (C11 6.9.1).
pub fn function_binding(env: &Environment, name: &[u8]) -> Option<Binding>
    ensures { result ≡ spec.function_binding (seen_environment env.now) name.now }
{
    match env.function_number(name) {
        Some(number) => Some(Binding::Function(FnId(number))),
        None => None,
    }
}

fn valued_enumerator(value: Option<i32>) -> Option<Binding>
    ensures { result ≡ spec.valued_enumerator value }
{
    match value {
        Some(value) => Some(Binding::Value(i64::from(value))),
        None => None,
    }
}

fn bound_by(env: &Environment, name: &[u8], entity: Option<&Entity>) -> Option<Binding>
    ensures { result ≡ spec.bound_by (seen_environment env.now) name.now (option_map (λ e. seen_entity e.now) entity.entry) }
{
    match entity {
        None | Some(Entity::Parameter(_)) | Some(Entity::TypeName(_)) => None,
        Some(Entity::Variable(v)) => Some(Binding::Variable(VarId(v.number))),
        Some(Entity::Function(_)) => function_binding(env, name),
        Some(Entity::Enumerator(value)) => valued_enumerator(*value),
        Some(Entity::Library(place)) => Some(Binding::Library(*place)),
        Some(Entity::BuiltIn(built_in)) => built_in_binding(built_in.get()),
    }
}

/// What a name stands for; `None` where it is not declared, or stands for none of these: a type, a function without a body, a parameter
/// of a prototype, or what the subset leaves out.
pub fn bound_to(env: &Environment, name: &[u8]) -> Option<Binding>
    ensures { result ≡ spec.bound_to (seen_environment env.now) name.now }
{
    bound_by(env, name, env.entity(name))
}

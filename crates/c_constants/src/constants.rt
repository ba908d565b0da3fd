ghost use Rattle.std.specs.Prelude.{◌≡◌};
ghost use Rattle.c_tree.specs.View.{view_expression, view_enumerator};
ghost use Rattle.c_constants.specs.Constants as spec;

use crate::meaning::Meaning;
use crate::names::Names;
use crate::operators::{binary, choice, unary};
use c_arithmetic::{IntType, Value, character_number, integer_number, integer_type};
use c_tree::{Enumerator, Expr};

/// A value of type int.
fn of_int(number: Option<i64>) -> Meaning
    ensures { result ≡ spec.of_int number }
{
    Meaning {
        of: IntType::INT,
        number,
    }
}

/// What the expression is, where it is made of constants and operators alone.
pub fn meaning_of<N: Names>(names: &N, e: &Expr) -> Option<Meaning>
    ensures { result ≡ spec.meaning (N.values names.now) (view_expression e.now) }
{
    match e {
        Expr::Name(name) => {
            let number = names.value(name.as_bytes())?;
            Some(of_int(Some(i64::from(number))))
        }
        Expr::Integer(literal) => Some(Meaning {
            of: integer_type(literal.as_bytes()),
            number: integer_number(literal.as_bytes()),
        }),
        Expr::Character(literal) => Some(of_int(character_number(literal.as_bytes()))),
        Expr::Paren(x) => meaning_of(names, x.get()),
        Expr::Unary(op, x) => {
            let x = meaning_of(names, x.get())?;
            unary(*op, x)
        }
        Expr::Binary(op, x, y) => {
            let x = meaning_of(names, x.get())?;
            let y = meaning_of(names, y.get())?;
            Some(binary(*op, x, y))
        }
        Expr::Choose(condition, x, y) => {
            let condition = meaning_of(names, condition.get())?;
            let x = meaning_of(names, x.get())?;
            let y = meaning_of(names, y.get())?;
            Some(choice(condition, x, y))
        }
        Expr::Comma(_, _)
        | Expr::Assign(_, _, _)
        | Expr::Cast(_, _)
        | Expr::Before(_, _)
        | Expr::SizeOf(_)
        | Expr::SizeOfType(_)
        | Expr::Index(_, _)
        | Expr::Call(_, _)
        | Expr::Dot(_, _)
        | Expr::Arrow(_, _)
        | Expr::After(_, _)
        | Expr::Text(_) => None,
    }
}

/// The value of a constant expression with its type; `None` where it isn't one.
pub fn constant<N: Names>(names: &N, e: &Expr) -> Option<Value>
    ensures { result ≡ spec.constant (N.values names.now) (view_expression e.now) }
{
    let meaning = meaning_of(names, e)?;
    let number = meaning.number?;
    Some(Value {
        number,
        of: meaning.of,
    })
}

/// The value of an enumerator (C11 6.7.2.2), where `before` is that of the one before it, if there is one; `None` where it is no
/// constant, or none of int.
pub fn enumerator<N: Names>(names: &N, one: &Enumerator, before: Option<i32>) -> Option<i32>
    ensures { result ≡ spec.enumerator (N.values names.now) (view_enumerator one.now).1 before }
{
    match (&one.value, before) {
        (Some(e), _) => i32::try_from(constant(names, e)?.number).ok(),
        (None, Some(before)) => before.checked_add(1),
        (None, None) => Some(0),
    }
}

/// The value of a case in a switch on a value of this type (C11 6.8.4.2p5); `None` where it is no constant, or none of the promoted
/// type.
pub fn case_value<N: Names>(names: &N, e: &Expr, switched: IntType) -> Option<i64>
    ensures { result ≡ spec.case_value (N.values names.now) (view_expression e.now) switched }
{
    let value = constant(names, e)?;
    if switched.promoted().holds(value.number) {
        Some(value.number)
    } else {
        None
    }
}

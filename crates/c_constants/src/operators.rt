//! What the operators of a constant expression make of their operands (C11 6.5.3.3, 6.5.5 to 6.5.15).

ghost use Rattle.std.specs.Prelude.{◌≡◌};
ghost use Rattle.c_constants.specs.Operators as spec;

use crate::meaning::Meaning;
use c_arithmetic::{
    IntType, Value, both_bits, complement, converted, difference, either_bits, is_equal, is_less,
    is_true, negated, plus, product, quotient, remainder, shifted_left, shifted_right, sum, truth,
    unequal_bits,
};
use c_tree::{BinaryOp, UnaryOp};

/// The value of an operator before a value; `None` where C leaves it undefined, or it lies outside of 64 bits with a sign.
pub fn unary_result(op: UnaryOp, x: Value) -> Option<i64>
    ensures { result ≡ spec.unary_result op x }
{
    match op {
        UnaryOp::Plus => plus(x),
        UnaryOp::Minus => negated(x),
        UnaryOp::BitNot => complement(x),
        UnaryOp::Not => Some(truth(!is_true(x.number))),
        UnaryOp::Address | UnaryOp::Follow => None,
    }
}

fn unary_number(op: UnaryOp, x: Meaning) -> Option<i64>
    ensures { result ≡ spec.unary_number op x.of x.number }
{
    match x.number {
        Some(number) => unary_result(op, Value { number, of: x.of }),
        None => None,
    }
}

/// What an operator makes of the operand behind it.
pub(crate) fn unary(op: UnaryOp, x: Meaning) -> Option<Meaning>
    ensures { result ≡ spec.unary op x }
{
    match op {
        UnaryOp::Plus | UnaryOp::Minus | UnaryOp::BitNot => Some(Meaning {
            of: x.of.promoted(),
            number: unary_number(op, x),
        }),
        UnaryOp::Not => Some(Meaning {
            of: IntType::INT,
            number: unary_number(op, x),
        }),
        UnaryOp::Address | UnaryOp::Follow => None,
    }
}

/// The value of an operator between two values; `None` where C leaves it undefined, or it lies outside of 64 bits with a sign.
pub fn binary_result(op: BinaryOp, x: Value, y: Value) -> Option<i64>
    ensures { result ≡ spec.binary_result op x y }
{
    match op {
        BinaryOp::Or => Some(truth(is_true(x.number) || is_true(y.number))),
        BinaryOp::And => Some(truth(is_true(x.number) && is_true(y.number))),
        BinaryOp::BitOr => either_bits(x, y),
        BinaryOp::BitXor => unequal_bits(x, y),
        BinaryOp::BitAnd => both_bits(x, y),
        BinaryOp::Equal => Some(truth(is_equal(x, y))),
        BinaryOp::Unequal => Some(truth(!is_equal(x, y))),
        BinaryOp::Less => Some(truth(is_less(x, y))),
        BinaryOp::Greater => Some(truth(is_less(y, x))),
        BinaryOp::AtMost => Some(truth(!is_less(y, x))),
        BinaryOp::AtLeast => Some(truth(!is_less(x, y))),
        BinaryOp::ShiftLeft => shifted_left(x, y),
        BinaryOp::ShiftRight => shifted_right(x, y),
        BinaryOp::Add => sum(x, y),
        BinaryOp::Sub => difference(x, y),
        BinaryOp::Mul => product(x, y),
        BinaryOp::Div => quotient(x, y),
        BinaryOp::Rem => remainder(x, y),
    }
}

/// The type of an operator between two operands.
pub fn binary_type(op: BinaryOp, left: IntType, right: IntType) -> IntType
    ensures { result ≡ spec.binary_type op left right }
{
    match op {
        BinaryOp::Or
        | BinaryOp::And
        | BinaryOp::Equal
        | BinaryOp::Unequal
        | BinaryOp::Less
        | BinaryOp::Greater
        | BinaryOp::AtMost
        | BinaryOp::AtLeast => IntType::INT,
        BinaryOp::ShiftLeft | BinaryOp::ShiftRight => left.promoted(),
        BinaryOp::BitOr
        | BinaryOp::BitXor
        | BinaryOp::BitAnd
        | BinaryOp::Add
        | BinaryOp::Sub
        | BinaryOp::Mul
        | BinaryOp::Div
        | BinaryOp::Rem => left.common(right),
    }
}

/// What the left operand decides alone.
fn decided(op: BinaryOp, left: Option<i64>) -> Option<i64>
    ensures { result ≡ spec.decided op left }
{
    match (op, left) {
        (BinaryOp::And, Some(number)) if !is_true(number) => Some(0),
        (BinaryOp::Or, Some(number)) if is_true(number) => Some(1),
        _ => None,
    }
}

fn of_both(op: BinaryOp, x: Meaning, y: Meaning) -> Option<i64>
    ensures { result ≡ spec.of_both op x y x.number y.number }
{
    match (x.number, y.number) {
        (Some(left), Some(right)) => {
            let left = Value {
                number: left,
                of: x.of,
            };
            let right = Value {
                number: right,
                of: y.of,
            };
            binary_result(op, left, right)
        }
        _ => None,
    }
}

/// What an operator makes of its two operands.
pub(crate) fn binary(op: BinaryOp, x: Meaning, y: Meaning) -> Meaning
    ensures { result ≡ spec.binary op x y }
{
    let number = match decided(op, x.number) {
        Some(number) => Some(number),
        None => of_both(op, x, y),
    };
    Meaning {
        of: binary_type(op, x.of, y.of),
        number,
    }
}

fn number_in(of: IntType, x: Meaning) -> Option<i64>
    ensures { result ≡ spec.number_in of x x.number }
{
    match x.number {
        Some(number) => converted(of, Value { number, of: x.of }),
        None => None,
    }
}

/// What `?:` makes of its three operands.
pub(crate) fn choice(condition: Meaning, x: Meaning, y: Meaning) -> Meaning
    ensures { result ≡ spec.choice condition x y }
{
    let of = x.of.common(y.of);
    let number = match condition.number {
        Some(number) if is_true(number) => number_in(of, x),
        Some(_) => number_in(of, y),
        None => None,
    };
    Meaning { of, number }
}

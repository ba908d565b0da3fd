//! The operators whose result has the type of their operands (C11 6.5.3.3, 6.5.5 to 6.5.7, 6.5.10 to 6.5.12).

ghost use Rattle.std.specs.Prelude.{◌≡◌, ◌≤◌, ◌<◌, ◌^◌, pos, ◌*◌, ◌%◌, ◌*ℤ◌, unsigned_abs, IsTrue, IfSome};
ghost use Rattle.c_arithmetic.specs.Conversion.{holds, modulus, kept as kept_number, residue as residue_of};
ghost use Rattle.c_arithmetic.specs.Types.{promoted as spec_promoted};
ghost use Rattle.c_arithmetic.specs.Operations as spec;

use crate::conversion::{bits, kept, largest, power, represented, residue};
use crate::exact::{exact_quotient, exact_remainder, exact_shift};
use crate::types::IntType;
use crate::value::Value;

/// The bits that represent x in the type.
fn pattern(of: IntType, x: Value) -> u64
    ensures value { result ≡ residue_of of x.number }
    ensures below { result < modulus of }
{
    residue(of, i128::from(x.number))
}

/// The number, converted to the type.
pub(crate) fn operand(of: IntType, value: Value) -> i128
    ensures value { result ≡ spec.operand of value }
    ensures bounded { unsigned_abs result < 2 ^ 64 }
{
    represented(of, pattern(of, value))
}

/// Whether the type has this value.
fn is_held(of: IntType, number: i128) -> bool
    ensures { result ≡ holds of number }
{
    if of.signed {
        let half = power(bits(of).saturating_sub(1));
        -half <= number && number < half
    } else {
        0 <= number && number < power(bits(of))
    }
}

impl IntType {
    /// Whether the number is a value of the type.
    pub fn holds(self, number: i64) -> bool
        ensures { result ≡ holds self number }
    {
        is_held(self, i128::from(number))
    }
}

/// x, converted to the type (C11 6.3.1.3).
pub fn converted(of: IntType, x: Value) -> Option<i64>
    ensures { result ≡ kept_number (spec.operand of x) }
{
    kept(operand(of, x))
}

/// What becomes of an exact result in the type.
fn settled(of: IntType, exact: i128) -> Option<i64>
    ensures { result ≡ spec.settled of exact }
{
    if !of.signed {
        kept(i128::from(residue(of, exact)))
    } else if is_held(of, exact) {
        kept(exact)
    } else {
        None
    }
}

/// The product of two values of a type with a sign.
fn signed_product(of: IntType, number: i128, other: i128) -> Option<i64>
    requires { IsTrue of.signed }
    ensures { result ≡ spec.settled of (number *ℤ other) }
{
    match number.checked_mul(other) {
        Some(exact) => settled(of, exact),
        None => None,
    }
}

/// The product of two values of a type without a sign.
fn unsigned_product(of: IntType, number: u64, other: u64) -> Option<i64>
    ensures { result ≡ kept_number (pos ((number * other) % modulus of)) }
{
    let wrapped = u128::from(number) * u128::from(other) % power(bits(of)) as u128;
    kept(wrapped as i128)
}

/// `+ x`, whose type is the promoted one.
pub fn plus(x: Value) -> Option<i64>
    ensures { result ≡ spec.plus x }
{
    kept(operand(x.of.promoted(), x))
}

/// `- x`, whose type is the promoted one.
pub fn negated(x: Value) -> Option<i64>
    ensures { result ≡ spec.negated x }
{
    let of = x.of.promoted();
    settled(of, -operand(of, x))
}

/// `~ x`, whose type is the promoted one.
pub fn complement(x: Value) -> Option<i64>
    ensures { result ≡ spec.complement x }
{
    let of = x.of.promoted();
    kept(represented(of, largest(of) - pattern(of, x)))
}

/// `x + y`, whose type is the common one.
pub fn sum(x: Value, y: Value) -> Option<i64>
    ensures { result ≡ spec.sum x y }
{
    let of = x.of.common(y.of);
    settled(of, operand(of, x) + operand(of, y))
}

/// `x - y`, whose type is the common one.
pub fn difference(x: Value, y: Value) -> Option<i64>
    ensures { result ≡ spec.difference x y }
{
    let of = x.of.common(y.of);
    settled(of, operand(of, x) - operand(of, y))
}

/// `x * y`, whose type is the common one.
pub fn product(x: Value, y: Value) -> Option<i64>
    ensures { result ≡ spec.product x y }
{
    let of = x.of.common(y.of);
    if of.signed {
        signed_product(of, operand(of, x), operand(of, y))
    } else {
        unsigned_product(of, pattern(of, x), pattern(of, y))
    }
}

/// Whether the number is 0.
fn is_zero(number: i128) -> bool
    ensures { result ≡ spec.is_zero number }
{
    number == 0
}

/// The quotient in the type.
fn divided(of: IntType, number: i128, divisor: i128) -> Option<i64>
    requires { unsigned_abs number < 2 ^ 64 }
    ensures { result ≡ spec.divided of number divisor }
{
    if is_zero(divisor) {
        return None;
    }
    settled(of, exact_quotient(number, divisor))
}

/// What the quotient leaves in the type.
fn left_over(of: IntType, number: i128, divisor: i128) -> Option<i64>
    requires { unsigned_abs number < 2 ^ 64 }
    ensures { result ≡ spec.left_over of number divisor }
{
    if is_zero(divisor) {
        return None;
    }
    if is_held(of, exact_quotient(number, divisor)) {
        kept(exact_remainder(number, divisor))
    } else {
        None
    }
}

/// `x / y`, whose type is the common one.
pub fn quotient(x: Value, y: Value) -> Option<i64>
    ensures { result ≡ spec.quotient x y }
{
    let of = x.of.common(y.of);
    divided(of, operand(of, x), operand(of, y))
}

/// `x % y`, whose type is the common one.
pub fn remainder(x: Value, y: Value) -> Option<i64>
    ensures { result ≡ spec.remainder x y }
{
    let of = x.of.common(y.of);
    left_over(of, operand(of, x), operand(of, y))
}

/// By how much a value of the type is shifted.
fn places(of: IntType, by: Value) -> Option<u32>
    ensures value { result ≡ spec.places of (spec.operand (spec_promoted by.of) by) }
    ensures bounded { IfSome result (λ n. n < 64) }
{
    let number = operand(by.of.promoted(), by);
    if 0 <= number && number < i128::from(bits(of)) {
        Some(number as u32)
    } else {
        None
    }
}

/// The number, shifted to the left in the type.
fn moved_left(of: IntType, number: i128, places: u32) -> Option<i64>
    requires bounded { unsigned_abs number < 2 ^ 64 }
    requires below { places < 64 }
    ensures { result ≡ spec.moved_left of number (Some places) }
{
    if number < 0 {
        None
    } else {
        settled(of, exact_shift(number, places))
    }
}

/// `x << y`, whose type is that of the promoted x.
pub fn shifted_left(x: Value, y: Value) -> Option<i64>
    ensures { result ≡ spec.shifted_left x y }
{
    let of = x.of.promoted();
    match places(of, y) {
        Some(n) => moved_left(of, operand(of, x), n),
        None => None,
    }
}

/// `x >> y`, whose type is that of the promoted x.
pub fn shifted_right(x: Value, y: Value) -> Option<i64>
    ensures { result ≡ spec.shifted_right x y }
{
    let of = x.of.promoted();
    match places(of, y) {
        Some(n) => kept(operand(of, x) >> n),
        None => None,
    }
}

/// `x & y`, whose type is the common one.
pub fn both_bits(x: Value, y: Value) -> Option<i64>
    ensures { result ≡ spec.both_bits x y }
{
    let of = x.of.common(y.of);
    kept(represented(of, pattern(of, x) & pattern(of, y)))
}

/// `x | y`, whose type is the common one.
pub fn either_bits(x: Value, y: Value) -> Option<i64>
    ensures { result ≡ spec.either_bits x y }
{
    let of = x.of.common(y.of);
    kept(represented(of, pattern(of, x) | pattern(of, y)))
}

/// `x ^ y`, whose type is the common one.
pub fn unequal_bits(x: Value, y: Value) -> Option<i64>
    ensures { result ≡ spec.unequal_bits x y }
{
    let of = x.of.common(y.of);
    kept(represented(of, pattern(of, x) ^ pattern(of, y)))
}

//! The operators whose result is the int 1 or 0 (C11 6.5.3.3p5, 6.5.8, 6.5.9).

ghost use Rattle.std.specs.Prelude.{◌≡◌};
ghost use Rattle.c_arithmetic.specs.Comparison as spec;

use crate::operations::operand;
use crate::value::Value;

/// Whether x is less than y, both converted to their common type.
pub fn is_less(x: Value, y: Value) -> bool
    ensures { result ≡ spec.is_less x y }
{
    let of = x.of.common(y.of);
    operand(of, x) < operand(of, y)
}

/// Whether x and y are equal, both converted to their common type.
pub fn is_equal(x: Value, y: Value) -> bool
    ensures { result ≡ spec.is_equal x y }
{
    let of = x.of.common(y.of);
    operand(of, x) == operand(of, y)
}

/// What an operator that tells true from false gives: the int 1 or 0 (C11 6.5.8p6, 6.5.9p3, 6.5.3.3p5).
pub fn truth(holds: bool) -> i64
    ensures { result ≡ spec.truth holds }
{
    if holds { 1 } else { 0 }
}

/// Whether the number compares unequal to 0 (C11 6.5.13p3, 6.5.15p4).
pub fn is_true(number: i64) -> bool
    ensures { result ≡ spec.is_true number }
{
    number != 0
}

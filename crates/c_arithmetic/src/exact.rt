//! Arithmetic on numbers less than 2^64 from zero, without loss.

ghost use Rattle.std.specs.Prelude.{◌≡◌, ◌≢◌, ◌<◌, ◌^◌, pos, ◌*ℤ◌, unsigned_abs, int_div, int_rem};

use crate::conversion::power;

/// The quotient, toward zero.
pub(crate) fn exact_quotient(number: i128, divisor: i128) -> i128
    requires bounded { unsigned_abs number < 2 ^ 64 }
    requires divides { divisor ≢ pos 0 }
    ensures { result ≡ int_div number divisor }
{
    number / divisor
}

/// What that quotient leaves.
pub(crate) fn exact_remainder(number: i128, divisor: i128) -> i128
    requires bounded { unsigned_abs number < 2 ^ 64 }
    requires divides { divisor ≢ pos 0 }
    ensures { result ≡ int_rem number divisor }
{
    number % divisor
}

/// The number times a power of two.
pub(crate) fn exact_shift(number: i128, places: u32) -> i128
    requires bounded { unsigned_abs number < 2 ^ 64 }
    requires below { places < 64 }
    ensures { result ≡ number *ℤ pos (2 ^ places) }
{
    number * power(places)
}

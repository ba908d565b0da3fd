//! What a number becomes in a type (C11 6.3.1.3), and the bits that stand for it (6.2.6.2).

ghost use Rattle.std.specs.Prelude.{◌≡◌, ◌+◌, ◌≤◌, ◌<◌, ◌^◌, pos, unsigned_abs};
ghost use Rattle.c_arithmetic.specs.Conversion as spec;

use crate::types::IntType;

/// Two to this power.
pub(crate) fn power(exponent: u32) -> i128
    requires { exponent ≤ 64 }
    ensures value { result ≡ pos (2 ^ exponent) }
    ensures bounded { 2 ^ exponent ≤ 2 ^ 64 }
{
    1 << exponent
}

/// How many bits represent a value of the type.
pub(crate) fn bits(of: IntType) -> u32
    ensures value { result ≡ spec.bits of }
    ensures bounded { result ≤ 64 }
{
    u32::from(of.width.min(64))
}

/// All the bits that represent values of the type.
pub(crate) fn largest(of: IntType) -> u64
    ensures { result + 1 ≡ spec.modulus of }
{
    (power(bits(of)) - 1) as u64
}

/// The bits that represent the number.
pub(crate) fn residue(of: IntType, number: i128) -> u64
    ensures value { result ≡ spec.residue of number }
    ensures below { result < spec.modulus of }
{
    number.rem_euclid(power(bits(of))) as u64
}

/// The value that bits represent.
pub(crate) fn represented(of: IntType, bits_set: u64) -> i128
    ensures value { result ≡ spec.represented of bits_set }
    ensures bounded { unsigned_abs result < 2 ^ 64 }
{
    if of.signed && power(bits(of).saturating_sub(1)) <= i128::from(bits_set) {
        i128::from(bits_set) - power(bits(of))
    } else {
        i128::from(bits_set)
    }
}

/// The number, where it lies within 64 bits with a sign.
pub(crate) fn kept(number: i128) -> Option<i64>
    ensures { result ≡ spec.kept number }
{
    i64::try_from(number).ok()
}

//! The type and the value of an integer constant and of a character constant, from its bytes (C11 6.4.4.1, 6.4.4.4).

ghost use Rattle.std.specs.Prelude.{◌≡◌, ◌+◌, ◌*◌, ◌^◌, ◌<◌, ◌≤◌, Some, None, nat_le, if◌then◌else◌, min, pos, ℕ};
ghost use Rattle.std.specs.List.{list_any};
ghost use Rattle.c_arithmetic.specs.Conversion.{holds};
ghost use Rattle.c_arithmetic.specs.Literals as spec;

use crate::types::IntType;

/// The value of a digit.
fn digit(b: u8) -> u8
    ensures { result ≡ spec.digit b }
{
    if b <= b'9' {
        b.saturating_sub(48)
    } else if b <= b'F' {
        b - 55
    } else {
        b.saturating_sub(87)
    }
}

/// The number with one more digit behind it, where it isn't above the limit.
fn with_digit(limit: u64, base: u64, number: u64, b: u8) -> Option<u64>
    ensures { result ≡ (if nat_le (number * base + spec.digit b) limit then Some (number * base + spec.digit b) else None) }
{
    match number.checked_mul(base) {
        Some(shifted) => match shifted.checked_add(u64::from(digit(b))) {
            Some(next) if next <= limit => Some(next),
            _ => None,
        },
        None => None,
    }
}

/// The value of the digits, where it isn't above the limit.
fn value_up_to(limit: u64, base: u64, digits: &[u8]) -> Option<u64>
    requires { 1 ≤ base }
    ensures { result ≡ (if nat_le (spec.value_from base 0 digits.now) limit then Some (spec.value_from base 0 digits.now) else None) }
{
    let mut value = 0;
    let mut rest = digits;
    while let [b, after @ ..] = rest {
        value = with_digit(limit, base, value, *b)?;
        rest = after;
    }
    Some(value)
}

fn is_unsigned_letter(b: u8) -> bool
    ensures { result ≡ spec.is_unsigned_letter b }
{
    b == b'u' || b == b'U'
}

fn is_long_letter(b: u8) -> bool
    ensures { result ≡ spec.is_long_letter b }
{
    b == b'l' || b == b'L'
}

/// Whether the constant has a `u`.
fn has_unsigned_letter(bytes: &[u8]) -> bool
    ensures { result ≡ list_any spec.is_unsigned_letter bytes.now }
{
    bytes.iter().any(|b| is_unsigned_letter(*b))
}

/// Whether the constant has an `l`.
fn has_long_letter(bytes: &[u8]) -> bool
    ensures { result ≡ list_any spec.is_long_letter bytes.now }
{
    bytes.iter().any(|b| is_long_letter(*b))
}

/// What stands before the suffix.
fn before_suffix(bytes: &[u8]) -> &[u8]
    ensures { result.now ≡ spec.before_suffix bytes.now }
{
    for (k, b) in bytes.iter().enumerate() {
        if is_unsigned_letter(*b) || is_long_letter(*b) {
            return &bytes[..k];
        }
    }
    bytes
}

/// What stands before the closing quote.
fn before_quote(bytes: &[u8]) -> &[u8]
    ensures { result.now ≡ spec.before_quote bytes.now }
{
    for (k, b) in bytes.iter().enumerate() {
        if *b == b'\'' {
            return &bytes[..k];
        }
    }
    bytes
}

fn is_hexadecimal(bytes: &[u8]) -> bool
    ensures { result ≡ spec.is_hexadecimal bytes.now }
{
    matches!(bytes, [b'0', b'x' | b'X', ..])
}

fn is_decimal(bytes: &[u8]) -> bool
    ensures { result ≡ spec.is_decimal bytes.now }
{
    !matches!(bytes, [b'0', ..])
}

/// The value of the constant, where it isn't above the limit.
fn magnitude_up_to(limit: u64, bytes: &[u8]) -> Option<u64>
    ensures { result ≡ (if nat_le (spec.magnitude bytes.now) limit then Some (spec.magnitude bytes.now) else None) }
{
    if is_hexadecimal(bytes) {
        value_up_to(limit, 16, before_suffix(&bytes[2..]))
    } else if is_decimal(bytes) {
        value_up_to(limit, 10, before_suffix(bytes))
    } else {
        value_up_to(limit, 8, before_suffix(bytes))
    }
}

/// Whether the value of the constant lies within the limit.
fn is_up_to(limit: u64, bytes: &[u8]) -> bool
    ensures { result ≡ nat_le (spec.magnitude bytes.now) limit }
{
    magnitude_up_to(limit, bytes).is_some()
}

/// The type of an integer constant (C11 6.4.4.1p5). A decimal constant past 2^63 - 1 without a `u` is an unsigned long.
pub fn integer_type(bytes: &[u8]) -> IntType
    ensures { result ≡ spec.integer_type bytes.now }
{
    let unsigned = has_unsigned_letter(bytes);
    let long = has_long_letter(bytes);
    if !long && !unsigned && is_up_to(i32::MAX as u64, bytes) {
        IntType::INT
    } else if !long && (unsigned || !is_decimal(bytes)) && is_up_to(u64::from(u32::MAX), bytes) {
        IntType::UNSIGNED_INT
    } else if !unsigned && is_up_to(i64::MAX as u64, bytes) {
        IntType::LONG
    } else {
        IntType::UNSIGNED_LONG
    }
}

/// The value of an integer constant (C11 6.4.4.1), where it lies within 64 bits with a sign.
pub fn integer_number(bytes: &[u8]) -> Option<i64>
    ensures { result ≡ spec.integer_number bytes.now }
{
    let magnitude = magnitude_up_to(i64::MAX as u64, bytes)?;
    Some(magnitude as i64)
}

/// The character of an escape sequence of one letter (C11 6.4.4.4p3).
fn simple(b: u8) -> u8
    ensures { result ≡ spec.simple b }
{
    match b {
        b'a' => 7,
        b'b' => 8,
        b'f' => 12,
        b'n' => 10,
        b'r' => 13,
        b't' => 9,
        b'v' => 11,
        _ => b,
    }
}

/// The value of an escape sequence behind its `\`, where it isn't above that of an unsigned char.
fn escaped(bytes: &[u8]) -> Option<u64>
    ensures { result ≡ (if nat_le (spec.escaped bytes.now) 255 then Some (spec.escaped bytes.now) else None) }
{
    match bytes {
        [b'x', digits @ ..] => value_up_to(255, 16, before_quote(digits)),
        [b'0'..=b'7', ..] => value_up_to(255, 8, before_quote(bytes)),
        [letter, ..] => Some(u64::from(simple(*letter))),
        [] => Some(0),
    }
}

/// The value of the character, where it isn't above that of an unsigned char.
fn character(bytes: &[u8]) -> Option<u64>
    ensures { result ≡ (if nat_le (spec.character bytes.now) 255 then Some (spec.character bytes.now) else None) }
{
    match bytes {
        [_, b'\\', rest @ ..] => escaped(rest),
        [_, plain, ..] => Some(u64::from(*plain)),
        [_] => Some(0),
        [] => Some(0),
    }
}

/// The value of a character constant, which has the type int (C11 6.4.4.4p10): that of a char, so `'\377'` is -1. `None` where an
/// escape sequence has a value past that of an unsigned char (p9).
pub fn character_number(bytes: &[u8]) -> Option<i64>
    ensures { result ≡ spec.character_number bytes.now }
{
    let code = character(bytes)?;
    if code < 128 {
        Some(code as i64)
    } else {
        Some(code as i64 - 256)
    }
}

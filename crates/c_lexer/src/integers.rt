//! Integer constants (C11 6.4.4.1).

ghost use Rattle.std.specs.Prelude.{◌≡◌, ◌+◌, ◌<◌, ◌≤◌, length};
ghost use Rattle.c_lexer.specs.Item.{IsWithin};
ghost use Rattle.c_lexer.specs.Integers as spec;

use crate::bytes::{ByteClass, back, byte, front, is_in, run};
use crate::item::{Item, Refusal};
use crate::numbers::value_up_to;
use base_core::Class;

/// Whether a hexadecimal constant begins.
fn is_hexadecimal(z: &[u8]) -> bool
    ensures { result ≡ spec.is_hexadecimal z.now }
{
    let x = byte(z, 1);
    byte(z, 0) == b'0' && (x == b'x' || x == b'X') && is_in(ByteClass::Hexadecimal, byte(z, 2))
}

/// How many bytes stand before the digits.
fn prefix(z: &[u8]) -> usize
    ensures { result ≡ spec.prefix z.now }
{
    if is_hexadecimal(z) { 2 } else { 0 }
}

/// The class of the digits.
fn digits_class(z: &[u8]) -> ByteClass
    ensures { result ≡ spec.digits_class z.now }
{
    if is_hexadecimal(z) {
        ByteClass::Hexadecimal
    } else if byte(z, 0) == b'0' {
        ByteClass::Octal
    } else {
        ByteClass::Digit
    }
}

fn base(z: &[u8]) -> u64
    ensures value { result ≡ spec.base z.now }
    ensures positive { 1 ≤ result }
{
    if is_hexadecimal(z) {
        16
    } else if byte(z, 0) == b'0' {
        8
    } else {
        10
    }
}

/// The length of a `u` at the front.
fn unsigned(z: &[u8]) -> usize
    ensures value { result ≡ spec.unsigned z.now }
    ensures within { result ≤ length z.now }
{
    let b = byte(z, 0);
    if b == b'u' || b == b'U' { 1 } else { 0 }
}

/// The length of an `l` or `ll` at the front.
fn long(z: &[u8]) -> usize
    ensures value { result ≡ spec.long z.now }
    ensures within { result ≤ length z.now }
{
    let b = byte(z, 0);
    if !(b == b'l' || b == b'L') {
        0
    } else if byte(z, 1) == b {
        2
    } else {
        1
    }
}

/// The length of the suffix at the front.
fn suffix(z: &[u8]) -> usize
    ensures value { result ≡ spec.suffix z.now }
    ensures within { result ≤ length z.now }
{
    if unsigned(z) == 1 {
        1 + long(back(z, 1))
    } else {
        let n = long(z);
        n + unsigned(back(z, n))
    }
}

/// Whether the byte mustn't follow a constant directly.
fn spoils(b: u8) -> bool
    ensures { result ≡ spec.spoils b }
{
    is_in(ByteClass::Word, b) || b == b'.'
}

/// The constant at the front of a text that begins with a digit.
#[tactic(auto, unfolding(crate::specs::Integers::integer))]
pub fn integer(z: &[u8]) -> Item
    requires begins { spec.begins z.now }
    ensures value { result ≡ spec.integer z.now }
    ensures within { IsWithin result z.now }
{
    let from = prefix(z);
    let digits = back(z, from);
    let count = run(digits_class(z), digits);
    let n = from + count + suffix(back(digits, count));
    if value_up_to(u64::MAX, base(z), front(digits, count)).is_none() {
        Item::Fault(Refusal::NumberTooLarge, 0)
    } else if spoils(byte(z, n)) {
        Item::Fault(Refusal::BadByte, n)
    } else {
        Item::Token(Class::Integer, n)
    }
}

//! Character constants and string literals (C11 6.4.4.4 and 6.4.5).

ghost use Rattle.std.specs.Prelude.{◌≡◌, ◌≢◌, ◌+◌, ◌^◌, ◌<◌, ◌≤◌, length, slice_index, IfSome, false};
ghost use Rattle.c_lexer.specs.Item.{IsWithin};
ghost use Rattle.c_lexer.specs.Literals as spec;

use crate::bytes::{ByteClass, back, byte, front, is_in, run};
use crate::item::{Item, Refusal};
use crate::numbers::value_up_to;
use base_core::Class;

/// Whether the byte behind a `\` makes a simple escape sequence.
fn is_simple(b: u8) -> bool
    ensures value { result ≡ spec.is_simple b }
{
    match b {
        b'\'' | b'"' | b'?' | b'\\' | b'a' | b'b' | b'f' | b'n' | b'r' | b't' | b'v' => true,
        _ => false,
    }
}

/// How many octal digits the escape sequence has.
fn octal_digits(e: &[u8]) -> usize
    ensures value { result ≡ spec.octal_digits e.now }
    ensures within { result ≤ length e.now }
{
    run(ByteClass::Octal, front(e, 3))
}

/// How many hexadecimal digits follow the `x`.
fn hexadecimal_digits(e: &[u8]) -> usize
    ensures value { result ≡ spec.hexadecimal_digits e.now }
    ensures within { slice_index e.now 0 ≢ 0 → result + 1 ≤ length e.now }
{
    run(ByteClass::Hexadecimal, back(e, 1))
}

/// The length of the escape sequence behind a `\`, or 0 where there is none.
#[tactic(auto, unfolding(crate::specs::Literals::escape))]
fn escape(e: &[u8]) -> usize
    ensures value { result ≡ spec.escape e.now }
    ensures within { result ≤ length e.now }
{
    let b = byte(e, 0);
    if is_in(ByteClass::Octal, b) {
        octal_digits(e)
    } else if b == b'x' {
        let n = hexadecimal_digits(e);
        if n == 0 { 0 } else { n + 1 }
    } else if is_simple(b) {
        1
    } else {
        0
    }
}

/// Whether the value of the escape sequence behind a `\` is past that of an unsigned char.
#[tactic(auto, unfolding(crate::specs::Literals::is_large))]
fn is_large(e: &[u8]) -> bool
    ensures { result ≡ spec.is_large e.now }
{
    let b = byte(e, 0);
    if is_in(ByteClass::Octal, b) {
        value_up_to(255, 8, front(e, octal_digits(e))).is_none()
    } else if b == b'x' {
        value_up_to(255, 16, front(back(e, 1), hexadecimal_digits(e))).is_none()
    } else {
        false
    }
}

/// Whether the byte stands for itself in a character constant.
fn is_plain(b: u8) -> bool
    ensures { result ≡ spec.is_plain b }
{
    b < 128 && !(b == b'\'' || b == b'\\' || b == b'\n')
}

/// A character constant with an escape sequence.
#[tactic(auto, unfolding(crate::specs::Literals::escaped_character))]
fn escaped_character(z: &[u8]) -> Item
    requires { 2 ≤ length z.now }
    ensures value { result ≡ spec.escaped_character z.now }
    ensures within { IsWithin result z.now }
{
    let e = back(z, 2);
    let n = escape(e);
    if n == 0 {
        Item::Fault(Refusal::BadByte, 1)
    } else if byte(z, n + 2) != b'\'' {
        Item::Fault(Refusal::OpenLiteral, 0)
    } else if is_large(e) {
        Item::Fault(Refusal::NumberTooLarge, 0)
    } else {
        Item::Token(Class::Character, n + 3)
    }
}

/// The character constant at the front of a text that begins with `'`.
#[tactic(auto, unfolding(crate::specs::Literals::character))]
pub fn character(z: &[u8]) -> Item
    requires { 0 < length z.now }
    ensures value { result ≡ spec.character z.now }
    ensures within { IsWithin result z.now }
{
    let b = byte(z, 1);
    if b == b'\\' {
        escaped_character(z)
    } else if is_plain(b) && byte(z, 2) == b'\'' {
        Item::Token(Class::Character, 3)
    } else {
        Item::Fault(Refusal::OpenLiteral, 0)
    }
}

/// Where the `"` stands that ends a string literal. The text begins at the place `at`.
fn closing(mut z: &[u8], mut at: usize) -> Option<usize>
    requires { at + length z.now < 2 ^ 64 }
    ensures value { result ≡ spec.closing false at z.entry.now }
    ensures within { IfSome result (λ k. (at ≤ k) × (k < at + length z.entry.now)) }
{
    let mut escaped = false;
    while let [b, rest @ ..] = z {
        if *b == b'\n' {
            return None;
        }
        if *b == b'"' && !escaped {
            return Some(at);
        }
        escaped = *b == b'\\' && !escaped;
        at += 1;
        z = rest;
    }
    None
}

/// Whether an escape sequence in a string literal has a value past that of an unsigned char.
fn has_large(mut z: &[u8]) -> bool
    ensures { result ≡ spec.has_large false z.entry.now }
{
    let mut escaped = false;
    while let [b, rest @ ..] = z {
        escaped = *b == b'\\' && !escaped;
        if escaped && is_large(rest) {
            return true;
        }
        z = rest;
    }
    false
}

/// The first `\` in a string literal that begins no escape sequence. The text begins at the place `at`.
fn first_bad(mut z: &[u8], mut at: usize) -> Option<usize>
    requires { at + length z.now < 2 ^ 64 }
    ensures value { result ≡ spec.first_bad false at z.entry.now }
    ensures within { IfSome result (λ k. k < at + length z.entry.now) }
{
    let mut escaped = false;
    while let [b, rest @ ..] = z {
        escaped = *b == b'\\' && !escaped;
        if escaped && escape(rest) == 0 {
            return Some(at);
        }
        at += 1;
        z = rest;
    }
    None
}

/// The string literal at the front of a text that begins with `"`.
#[tactic(auto, unfolding(crate::specs::Literals::string))]
pub fn string(z: &[u8]) -> Item
    requires { 0 < length z.now }
    ensures value { result ≡ spec.string z.now }
    ensures within { IsWithin result z.now }
{
    match closing(back(z, 1), 1) {
        None => Item::Fault(Refusal::OpenLiteral, 0),
        Some(end) => {
            let body = front(back(z, 1), end - 1);
            if has_large(body) {
                return Item::Fault(Refusal::NumberTooLarge, 0);
            }
            match first_bad(body, 1) {
                Some(at) => Item::Fault(Refusal::BadByte, at),
                None => Item::Token(Class::Text, end + 1),
            }
        }
    }
}

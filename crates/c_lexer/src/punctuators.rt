//! Punctuators (C11 6.4.6).

ghost use Rattle.std.specs.Prelude.{◌≡◌, ◌<◌, [], ◌∷◌, length};
ghost use Rattle.c_lexer.specs.Bytes.{is_among};
ghost use Rattle.c_lexer.specs.Item.{IsWithin};
ghost use Rattle.c_lexer.specs.Punctuators as spec;

use crate::bytes::byte;
use crate::item::{Item, Refusal};
use base_core::Class;

fn is_one(a: u8) -> bool
    ensures { result ≡ is_among spec.of_one (a ∷ []) }
{
    match a {
        b'{' | b'}' | b'(' | b')' | b'[' | b']' | b';' | b',' | b'.' | b'&' | b'*' | b'+' => true,
        b'-' | b'~' | b'!' | b'/' | b'%' | b'<' | b'>' | b'^' | b'|' | b'?' | b':' | b'=' => true,
        _ => false,
    }
}

/// Whether a punctuator is made by the byte and a `=` behind it.
fn takes_equals(a: u8) -> bool
    ensures { result ≡ is_among spec.of_two (a ∷ 61 ∷ []) }
{
    match a {
        b'<' | b'>' | b'=' | b'!' | b'*' | b'/' | b'%' | b'+' | b'-' | b'&' | b'^' | b'|' => true,
        _ => false,
    }
}

fn is_two(a: u8, b: u8) -> bool
    ensures { result ≡ is_among spec.of_two (a ∷ b ∷ []) }
{
    match b {
        b'=' => takes_equals(a),
        b'+' => a == b'+',
        b'-' => a == b'-',
        b'<' => a == b'<',
        b'>' => a == b'-' || a == b'>',
        b'&' => a == b'&',
        b'|' => a == b'|',
        _ => false,
    }
}

fn is_three(a: u8, b: u8, c: u8) -> bool
    ensures { result ≡ is_among spec.of_three (a ∷ b ∷ c ∷ []) }
{
    c == b'=' && ((a == b'<' && b == b'<') || (a == b'>' && b == b'>'))
}

/// The punctuator at the front of a text.
#[tactic(auto, unfolding(crate::specs::Punctuators::punctuator))]
pub fn punctuator(z: &[u8]) -> Item
    requires { 0 < length z.now }
    ensures value { result ≡ spec.punctuator z.now }
    ensures within { IsWithin result z.now }
{
    let (a, b, c) = (byte(z, 0), byte(z, 1), byte(z, 2));
    if is_three(a, b, c) {
        Item::Token(Class::Punctuator, 3)
    } else if is_two(a, b) {
        Item::Token(Class::Punctuator, 2)
    } else if is_one(a) {
        Item::Token(Class::Punctuator, 1)
    } else {
        Item::Fault(Refusal::BadByte, 0)
    }
}

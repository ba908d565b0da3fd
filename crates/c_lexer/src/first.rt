//! What stands at the front of a text.

ghost use Rattle.std.specs.Prelude.{◌≡◌, ◌<◌, length};
ghost use Rattle.c_lexer.specs.Item.{IsWithin};
ghost use Rattle.c_lexer.specs.First as spec;

use crate::bytes::{byte, is_blank, is_digit, is_letter};
use crate::comments::{block_comment, line_comment};
use crate::directives::directive;
use crate::integers::integer;
use crate::item::Item;
use crate::literals::{character, string};
use crate::names::name;
use crate::punctuators::punctuator;

/// What begins with a byte that is no blank and begins no word, number or quoted literal.
#[tactic(auto, unfolding(crate::specs::First::sign))]
fn sign(fresh: bool, z: &[u8]) -> Item
    requires { 0 < length z.now }
    ensures value { result ≡ spec.sign fresh z.now }
    ensures within { IsWithin result z.now }
{
    let next = byte(z, 1);
    match z[0] {
        b'/' if next == b'*' => block_comment(z),
        b'/' if next == b'/' => line_comment(z),
        b'#' if fresh => directive(z),
        _ => punctuator(z),
    }
}

/// What stands at the front of a text that isn't empty. `fresh` tells whether only blanks stand before it on its line.
#[tactic(auto, unfolding(crate::specs::First::first))]
pub fn first(fresh: bool, z: &[u8]) -> Item
    requires { 0 < length z.now }
    ensures value { result ≡ spec.first fresh z.now }
    ensures within { IsWithin result z.now }
{
    let b = z[0];
    if is_blank(b) {
        Item::Blank
    } else if is_letter(b) {
        name(z)
    } else if is_digit(b) {
        integer(z)
    } else if b == b'\'' {
        character(z)
    } else if b == b'"' {
        string(z)
    } else {
        sign(fresh, z)
    }
}

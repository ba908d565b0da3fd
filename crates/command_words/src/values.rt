ghost use Rattle.std.specs.Prelude.{◌≡◌, false, option_map};
ghost use Rattle.command_words.specs.Values as spec;

use crate::Depth;
use base_core::Rules;

/// The greatest number of a generated program.
const MOST: u32 = 2_000;

/// The profile that a word names.
fn rules_named(word: &str) -> Option<Rules>
    ensures { result ≡ spec.rules_named word.now }
{
    if word == "usual" {
        Some(Rules::Usual)
    } else if word == "strict" {
        Some(Rules::Strict)
    } else if word == "later" {
        Some(Rules::Later)
    } else {
        None
    }
}

/// The profile of the option `rules`: `usual` where it is absent.
pub(crate) fn rules_value(word: Option<&str>) -> Option<Rules>
    ensures { result ≡ spec.rules_value (option_map (λ text. text.now) word.entry) }
{
    match word {
        Some(word) => rules_named(word),
        None => Some(Rules::Usual),
    }
}

fn depth_named(word: &str) -> Option<Depth>
    ensures { result ≡ spec.depth_named word.now }
{
    if word == "1" {
        Some(Depth::One)
    } else if word == "2" {
        Some(Depth::Two)
    } else {
        None
    }
}

/// The depth of the option `depth`: 2 where it is absent.
pub(crate) fn depth_value(word: Option<&str>) -> Option<Depth>
    ensures { result ≡ spec.depth_value (option_map (λ text. text.now) word.entry) }
{
    match word {
        Some(word) => depth_named(word),
        None => Some(Depth::Two),
    }
}

/// Whether a sign or a zero too many stands at the front.
fn begins_badly(word: &[u8]) -> bool
    ensures { result ≡ spec.begins_badly word.now }
{
    match word {
        [b'+', ..] => true,
        [b'0', rest @ ..] => !rest.is_empty(),
        _ => false,
    }
}

/// Whether there are more than four bytes, a sign, or a zero too many.
fn is_ill_formed(word: &[u8]) -> bool
    ensures { result ≡ spec.is_ill_formed word.now }
{
    word.len() > 4 || begins_badly(word)
}

/// The value of decimal digits, where it is at most 2,000.
fn number_in(word: &str) -> Option<u32>
    requires { spec.is_ill_formed word.now ≡ false }
    ensures { result ≡ spec.number_in word.now }
{
    match word.parse::<u32>() {
        Ok(n) => { if n > MOST { None } else { Some(n) } }
        Err(_) => None,
    }
}

/// The number of a generated program, which has one to four digits.
pub(crate) fn number_of(word: &str) -> Option<u32>
    ensures { result ≡ spec.number_of word.now }
{
    if is_ill_formed(word.as_bytes()) {
        None
    } else {
        number_in(word)
    }
}

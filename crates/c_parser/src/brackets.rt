//! Brackets that are open at a token.

ghost use Rattle.std.specs.Prelude.{◌≡◌, MatchOption};
ghost use Rattle.base_core.specs.Limits.{most_open};
ghost use Rattle.c_tree.specs.Limits.{NestsAtMost, is_opener, is_closer};
ghost use Rattle.c_parser.specs.Faults.{IsFirstNested};

use base_core::{Class, Token};

/// How many brackets may be open at once.
const MAX_OPEN: usize = 100;

/// The first token at which more than 100 brackets are open.
pub(crate) fn first_nested(tokens: &[Token]) -> Option<usize>
    ensures { MatchOption result (NestsAtMost most_open tokens.now) (λ k. IsFirstNested tokens.now k) }
{
    let mut opened: usize = 0;
    let mut closed: usize = 0;
    for (k, token) in tokens.iter().enumerate() {
        if is_opener(token) {
            opened += 1;
        }
        if is_closer(token) {
            closed += 1;
        }
        if opened.saturating_sub(MAX_OPEN) > closed {
            return Some(k);
        }
    }
    None
}

/// Whether the token is one of ( [ and {.
fn is_opener(token: &Token) -> bool
    ensures { result ≡ is_opener token.now }
{
    match token.class {
        Class::Punctuator => matches!(token.lexeme.as_bytes(), b"(" | b"[" | b"{"),
        _ => false,
    }
}

/// Whether the token is one of ) ] and }.
fn is_closer(token: &Token) -> bool
    ensures { result ≡ is_closer token.now }
{
    match token.class {
        Class::Punctuator => matches!(token.lexeme.as_bytes(), b")" | b"]" | b"}"),
        _ => false,
    }
}

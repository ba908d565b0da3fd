ghost use Rattle.std.specs.Prelude.{◌≡◌};
ghost use Rattle.flat_programs.specs.Expect.{same_class, is_token, is_name, expect, letter_of, letter};
ghost use Rattle.flat_programs.specs.Seen.{seen_rest, seen};

use base_core::{Class, Token};

fn same_class(a: Class, b: Class) -> bool
    ensures { result ≡ same_class a b }
{
    match a {
        Class::Keyword => matches!(b, Class::Keyword),
        Class::Name => matches!(b, Class::Name),
        Class::Integer => matches!(b, Class::Integer),
        Class::Character => matches!(b, Class::Character),
        Class::Text => matches!(b, Class::Text),
        Class::Punctuator => matches!(b, Class::Punctuator),
    }
}

/// Whether a token is that of this class and these bytes.
pub(crate) fn is_token(token: &Token, class: Class, bytes: &[u8]) -> bool
    ensures { result ≡ is_token token.now class bytes.now }
{
    same_class(token.class, class) && token.lexeme.as_bytes() == bytes
}

/// What is left behind a token of this class and these bytes; None exactly where no such token stands at the head.
pub(crate) fn expect<'a>(tokens: &'a [Token], class: Class, bytes: &[u8]) -> Option<&'a [Token]>
    ensures { seen_rest result ≡ expect class bytes.now tokens.now }
{
    let (first, rest) = tokens.split_first()?;
    if is_token(first, class, bytes) {
        Some(rest)
    } else {
        None
    }
}

/// Whether a token is a name.
pub(crate) fn is_name(token: &Token) -> bool
    ensures { result ≡ is_name token.now }
{
    same_class(token.class, Class::Name)
}

fn letter_of(token: &Token) -> Option<u8>
    ensures { result ≡ letter_of token.now }
{
    if !is_name(token) {
        return None;
    }
    match token.lexeme.as_bytes() {
        [byte] if b'a' <= *byte && *byte <= b'z' => Some(*byte),
        _ => None,
    }
}

/// The lower-case letter at the head, and what is left behind it; None exactly where no letter stands there.
pub(crate) fn letter(tokens: &[Token]) -> Option<(u8, &[Token])>
    ensures { seen result ≡ letter tokens.now }
{
    let (first, rest) = tokens.split_first()?;
    let byte = letter_of(first)?;
    Some((byte, rest))
}

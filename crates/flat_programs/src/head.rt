ghost use Rattle.std.specs.Prelude.{◌≡◌};
ghost use Rattle.flat_programs.specs.Head.{parameters, handler_head, main_head, main_tail};
ghost use Rattle.flat_programs.specs.Seen.{seen_rest, seen};

use crate::expect::{expect, letter};
use base_core::{Class, Token};

/// The letter in `( int LETTER ) {`, and what is left behind it.
fn parameters(tokens: &[Token]) -> Option<(u8, &[Token])>
    ensures { seen result ≡ parameters tokens.now }
{
    let rest = expect(tokens, Class::Punctuator, b"(")?;
    let rest = expect(rest, Class::Keyword, b"int")?;
    let (parameter, rest) = letter(rest)?;
    let rest = expect(rest, Class::Punctuator, b")")?;
    let rest = expect(rest, Class::Punctuator, b"{")?;
    Some((parameter, rest))
}

/// The name and the parameter in `void LETTER ( int LETTER ) {`, and what is left behind it.
pub(crate) fn handler_head(tokens: &[Token]) -> Option<((u8, u8), &[Token])>
    ensures { seen result ≡ handler_head tokens.now }
{
    let rest = expect(tokens, Class::Keyword, b"void")?;
    let (name, rest) = letter(rest)?;
    let (parameter, rest) = parameters(rest)?;
    Some(((name, parameter), rest))
}

/// What is left behind `int main ( void ) {`.
pub(crate) fn main_head(tokens: &[Token]) -> Option<&[Token]>
    ensures { seen_rest result ≡ main_head tokens.now }
{
    let rest = expect(tokens, Class::Keyword, b"int")?;
    let rest = expect(rest, Class::Name, b"main")?;
    let rest = expect(rest, Class::Punctuator, b"(")?;
    let rest = expect(rest, Class::Keyword, b"void")?;
    let rest = expect(rest, Class::Punctuator, b")")?;
    expect(rest, Class::Punctuator, b"{")
}

/// What is left behind `return 0 ; }`.
pub(crate) fn main_tail(tokens: &[Token]) -> Option<&[Token]>
    ensures { seen_rest result ≡ main_tail tokens.now }
{
    let rest = expect(tokens, Class::Keyword, b"return")?;
    let rest = expect(rest, Class::Integer, b"0")?;
    let rest = expect(rest, Class::Punctuator, b";")?;
    expect(rest, Class::Punctuator, b"}")
}

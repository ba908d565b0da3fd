ghost use Rattle.std.specs.Prelude.{◌≡◌};
ghost use Rattle.flat_programs.specs.Call.{function_named, function_of, call_end, call};
ghost use Rattle.flat_programs.specs.Seen.{seen_rest, seen};

use crate::LibraryFunction;
use crate::expect::{expect, is_name};
use base_core::{Class, Token};

fn function_named(name: &[u8]) -> Option<LibraryFunction>
    ensures { result ≡ function_named name.now }
{
    if name == b"abort".as_slice() {
        Some(LibraryFunction::Abort)
    } else if name == b"getpid".as_slice() {
        Some(LibraryFunction::Getpid)
    } else if name == b"pause".as_slice() {
        Some(LibraryFunction::Pause)
    } else if name == b"rand".as_slice() {
        Some(LibraryFunction::Rand)
    } else {
        None
    }
}

fn function_of(token: &Token) -> Option<LibraryFunction>
    ensures { result ≡ function_of token.now }
{
    if is_name(token) {
        function_named(token.lexeme.as_bytes())
    } else {
        None
    }
}

/// What is left behind `( ) ;`.
fn call_end(tokens: &[Token]) -> Option<&[Token]>
    ensures { seen_rest result ≡ call_end tokens.now }
{
    let rest = expect(tokens, Class::Punctuator, b"(")?;
    let rest = expect(rest, Class::Punctuator, b")")?;
    expect(rest, Class::Punctuator, b";")
}

/// The call at the head, as `pause ( ) ;`, and what is left behind it.
pub(crate) fn call(tokens: &[Token]) -> Option<(LibraryFunction, &[Token])>
    ensures { seen result ≡ call tokens.now }
{
    let (first, rest) = tokens.split_first()?;
    let function = function_of(first)?;
    let rest = call_end(rest)?;
    Some((function, rest))
}

ghost use Rattle.std.specs.Prelude.{◌≡◌};
ghost use Rattle.flat_programs.specs.Statement.{signal_of, signal, installed, install, statement};
ghost use Rattle.flat_programs.specs.Seen.{seen};

use crate::Statement;
use crate::call::call;
use crate::expect::{expect, is_name, letter};
use base_core::{Class, Sig, Token};

fn signal_of(token: &Token) -> Option<Sig>
    ensures { result ≡ signal_of token.now }
{
    if is_name(token) {
        Sig::named(token.lexeme.as_bytes())
    } else {
        None
    }
}

fn signal(tokens: &[Token]) -> Option<(Sig, &[Token])>
    ensures { seen result ≡ signal tokens.now }
{
    let (first, rest) = tokens.split_first()?;
    let signal = signal_of(first)?;
    Some((signal, rest))
}

/// The handler in `, LETTER ) ;`, and what is left behind it.
fn installed(tokens: &[Token]) -> Option<(u8, &[Token])>
    ensures { seen result ≡ installed tokens.now }
{
    let rest = expect(tokens, Class::Punctuator, b",")?;
    let (handler, rest) = letter(rest)?;
    let rest = expect(rest, Class::Punctuator, b")")?;
    let rest = expect(rest, Class::Punctuator, b";")?;
    Some((handler, rest))
}

/// The install at the head, as `signal ( SIGINT , h ) ;`, and what is left behind it.
fn install(tokens: &[Token]) -> Option<(Statement, &[Token])>
    ensures { seen result ≡ install tokens.now }
{
    let rest = expect(tokens, Class::Name, b"signal")?;
    let rest = expect(rest, Class::Punctuator, b"(")?;
    match signal(rest) {
        Some((signal, rest)) => {
            let (handler, rest) = installed(rest)?;
            Some((Statement::Install { signal, handler }, rest))
        }
        None => None,
    }
}

/// The statement at the head, and what is left behind it.
pub(crate) fn statement(tokens: &[Token]) -> Option<(Statement, &[Token])>
    ensures { seen result ≡ statement tokens.now }
{
    match call(tokens) {
        Some((function, rest)) => Some((Statement::Call(function), rest)),
        None => install(tokens),
    }
}

ghost use Rattle.std.specs.Prelude.{◌≡◌, ◌++◌, ◌∷◌, [], List, None, Some, IfOk};
ghost use Rattle.base_core.specs.declared.token.Token.{Token};
ghost use Rattle.flat_programs.specs.FlatTree.{HandlerTree};
ghost use Rattle.flat_programs.specs.FlatShape.{IsHandlerShaped};
ghost use Rattle.flat_programs.specs.FlatSpelling.{spell_handler, spell_handlers};
ghost use Rattle.flat_programs.specs.Handlers.{ReadsHandler, NoHandler, AreShaped};

use crate::Handler;
use crate::body::calls;
use crate::expect::expect;
use crate::head::handler_head;
use base_core::{Class, NoMemory, Token};
use std::alloc::Global;

/// The handler at the head, and what is left behind it; None exactly where no handler stands there.
fn handler<'a>(
    alloc: Global,
    tokens: &'a [Token],
) -> Result<Option<(Handler, &'a [Token])>, NoMemory>
    ensures { IfOk result (λ read. ReadsHandler tokens.now read) }
{
    match handler_head(tokens) {
        None => Ok(None),
        Some(((name, parameter), rest)) => {
            let (calls, rest) = calls(alloc, rest)?;
            match expect(rest, Class::Punctuator, b"}") {
                None => Ok(None),
                Some(rest) => Ok(Some((Handler::new(name, parameter, calls), rest))),
            }
        }
    }
}

/// All handlers at the head, and what is left behind them, where no handler stands.
pub(crate) fn handlers<'a>(
    alloc: Global,
    tokens: &'a [Token],
) -> Result<(Vec<Handler>, &'a [Token]), NoMemory>
    ensures spelled { IfOk result (λ p. tokens.now ≡ spell_handlers p.0.items ++ p.1.now) }
    ensures shaped { IfOk result (λ p. AreShaped p.0.items) }
    ensures end { IfOk result (λ p. NoHandler p.1.now) }
{
    let mut handlers = Vec::new(alloc);
    let mut rest = tokens;
    'next: loop {
        match handler(alloc, rest)? {
            None => return Ok((handlers, rest)),
            Some((found, after)) => {
                if handlers.push(found).is_err() {
                    return Err(NoMemory);
                }
                rest = after;
            }
        }
    }
}

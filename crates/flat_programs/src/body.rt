ghost use Rattle.std.specs.Prelude.{◌≡◌, ◌++◌, None, IfOk};
ghost use Rattle.flat_programs.specs.FlatSpelling.{spell_calls, spell_statements};
ghost use Rattle.flat_programs.specs.Call.{call};
ghost use Rattle.flat_programs.specs.Statement.{statement};
ghost use Rattle.flat_programs.specs.Body.{AreReadable};

use crate::call::call;
use crate::statement::statement;
use crate::{LibraryFunction, Statement};
use base_core::{NoMemory, Token};
use std::alloc::Global;

/// All calls at the head, and what is left behind them, where no call stands.
pub(crate) fn calls<'a>(
    alloc: Global,
    tokens: &'a [Token],
) -> Result<(Vec<LibraryFunction>, &'a [Token]), NoMemory>
    ensures spelled { IfOk result (λ p. tokens.now ≡ spell_calls p.0.items ++ p.1.now) }
    ensures end { IfOk result (λ p. call p.1.now ≡ None) }
{
    let mut calls = Vec::new(alloc);
    let mut rest = tokens;
    while let Some((function, after)) = call(rest) {
        if calls.push(function).is_err() {
            return Err(NoMemory);
        }
        rest = after;
    }
    Ok((calls, rest))
}

/// All statements at the head, and what is left behind them, where no statement stands.
pub(crate) fn statements<'a>(
    alloc: Global,
    tokens: &'a [Token],
) -> Result<(Vec<Statement>, &'a [Token]), NoMemory>
    ensures spelled { IfOk result (λ p. tokens.now ≡ spell_statements p.0.items ++ p.1.now) }
    ensures readable { IfOk result (λ p. AreReadable p.0.items) }
    ensures end { IfOk result (λ p. statement p.1.now ≡ None) }
{
    let mut statements = Vec::new(alloc);
    let mut rest = tokens;
    while let Some((next, after)) = statement(rest) {
        if statements.push(next).is_err() {
            return Err(NoMemory);
        }
        rest = after;
    }
    Ok((statements, rest))
}

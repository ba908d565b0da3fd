ghost use Rattle.std.specs.Prelude.{IfOk};
ghost use Rattle.asafe.specs.Deciding.{IsProgram, Decides};

use crate::token_fault::TokenFault;
use base_core::NoMemory;
use c_lexer::Tokens;
use c_parser::{ParseFault, parse};
use flat_programs::{FlatFault, are_safe, read_flat};
use std::alloc::Global;

/// What is decided of the tokens of a text.
#[derive(Clone, Copy, Debug, PartialEq, Eq)]
pub(crate) enum Decision {
    /// They spell a flat program, and no run of it breaks a rule.
    Accepted,
    /// They spell a flat program, and the condition on its handlers doesn't hold.
    Refused,
    /// They spell a program within the limits, and no flat program.
    NotFlat,
    /// They spell no program within the limits, since this token doesn't fit; their number where it is the end.
    Misplaced(TokenFault, usize),
    /// No program within the limits of nodes and depth begins with them.
    TooLarge,
}

/// Decides tokens that spell a program within the limits.
fn decide_flat(alloc: Global, tokens: &Tokens) -> Result<Decision, NoMemory>
    requires { IsProgram tokens.now.tokens }
    ensures { IfOk result (λ decision. Decides tokens.now decision) }
{
    match read_flat(alloc, tokens) {
        Ok(program) => {
            if are_safe(&program) {
                Ok(Decision::Accepted)
            } else {
                Ok(Decision::Refused)
            }
        }
        Err(FlatFault::NotFlat) => Ok(Decision::NotFlat),
        Err(FlatFault::NoMemory) => Err(NoMemory),
    }
}

/// Decides the tokens of a text.
pub(crate) fn decide(alloc: Global, tokens: &Tokens) -> Result<Decision, NoMemory>
    ensures { IfOk result (λ decision. Decides tokens.now decision) }
{
    match parse(alloc, tokens) {
        Ok(_) => decide_flat(alloc, tokens),
        Err(ParseFault::Syntax(token)) => Ok(Decision::Misplaced(TokenFault::Syntax, token)),
        Err(ParseFault::Nested(token)) => Ok(Decision::Misplaced(TokenFault::Nested, token)),
        Err(ParseFault::Large(_)) => Ok(Decision::TooLarge),
        Err(ParseFault::NoMemory) => Err(NoMemory),
    }
}

//! A text becomes its tokens.

ghost use Rattle.std.specs.Prelude.{◌≡◌, ◌≤◌, length, IfOk};
ghost use Rattle.base_core.specs.Limits.{most_bytes};
ghost use Rattle.c_lexer.specs.Grammar.{AreTokensOf};
ghost use Rattle.c_lexer.specs.Lexis.{lexis, Gives};

use crate::bytes::back;
use crate::fault::LexFault;
use crate::scanner::Scanner;
use crate::tokens::Tokens;
use std::alloc::Global;

/// The tokens of a text of at most `base_core::MOST_BYTES` bytes, or its first fault (C11 6.4); `NoMemory` alone is free to
/// come at any text.
pub fn scan(alloc: Global, text: &[u8]) -> Result<Tokens, LexFault>
    requires { length text.now ≤ most_bytes }
    ensures exact { Gives result (lexis text.now) }
    ensures stands { IfOk result (λ found. AreTokensOf found.tokens text.now) }
{
    let mut scanner = Scanner::new(alloc);
    let mut rest = text;
    while !rest.is_empty() {
        match scanner.step(alloc, rest) {
            Ok(n) => rest = back(rest, n),
            Err(fault) => return Err(fault),
        }
    }
    Ok(Tokens {
        tokens: scanner.tokens,
        places: scanner.places,
        end: scanner.place,
        files: scanner.files,
    })
}

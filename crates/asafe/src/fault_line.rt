ghost use Rattle.std.specs.Prelude.{◌≡◌, ◌≤◌, length, string_bytes, IfOk};
ghost use Rattle.base_core.specs.Limits.{most_bytes};
ghost use Rattle.asafe.specs.FaultLine.{token_fault_kind, line_at, fault_line, token_fault_line};

use crate::token_fault::TokenFault;
use base_core::{NoMemory, Place};
use c_lexer::{Tokens, fault_file};
use std::alloc::Global;

fn token_fault_kind(fault: TokenFault) -> &'static str
    ensures { result.now ≡ token_fault_kind fault }
{
    match fault {
        TokenFault::Syntax => "Syntax",
        TokenFault::Nested => "Nested",
    }
}

/// The line of a fault of this kind at this place of a file.
fn line_at(alloc: Global, file: &str, place: Place, kind: &str) -> Result<String, NoMemory>
    ensures { IfOk result (λ line. string_bytes line ≡ line_at file.now place kind.now) }
{
    let (line, column) = (place.line, place.column);
    match format!(in alloc; "{file}:{line}:{column}: not in the subset: {kind}\n") {
        Ok(line) => Ok(line),
        Err(_) => Err(NoMemory),
    }
}

/// The line of a fault of this kind at this place of a text, which was read from this file.
pub(crate) fn fault_line(
    alloc: Global,
    file: &str,
    text: &[u8],
    place: Place,
    kind: &str,
) -> Result<String, NoMemory>
    requires { length text.now ≤ most_bytes }
    ensures { IfOk result (λ line. string_bytes line ≡ fault_line file.now text.now place kind.now) }
{
    match fault_file(alloc, text)? {
        Some(name) => line_at(alloc, name.as_str(), place, kind),
        None => line_at(alloc, file, place, kind),
    }
}

/// The line of the k-th token of a text, which was read from this file, where that token doesn't fit.
pub(crate) fn token_fault_line(
    alloc: Global,
    file: &str,
    fault: TokenFault,
    tokens: &Tokens,
    k: usize,
) -> Result<String, NoMemory>
    requires { k ≤ length tokens.now.tokens }
    ensures { IfOk result (λ line. string_bytes line ≡ token_fault_line file.now fault tokens.now k) }
{
    let (place, kind) = (tokens.place(k), token_fault_kind(fault));
    match tokens.file(place.file) {
        Some(name) => line_at(alloc, name, place, kind),
        None => line_at(alloc, file, place, kind),
    }
}

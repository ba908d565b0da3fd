ghost use Rattle.std.specs.Prelude.{◌≡◌, string_bytes, IfOk};
ghost use Rattle.asafe.specs.Lines as spec;

use base_core::NoMemory;
use std::alloc::Global;

/// The line of the words that the command takes.
pub(crate) fn usage() -> &'static [u8]
    ensures { result.now ≡ spec.usage_line }
{
    b"usage: asafe certify FILE [--rules R] [--depth D] [--cert OUT] [--json] | check FILE CERT [--rules R] | show FILE | table | gen N\n"
}

/// The report of no finding, as JSON or as text.
pub(crate) fn report(json: bool) -> &'static [u8]
    ensures { result.now ≡ spec.report json }
{
    if json {
        b"{\"count\":0,\"findings\":[]}\n"
    } else {
        b"findings: 0\n"
    }
}

/// The line for a file that was not read.
pub(crate) fn cannot_read_line(alloc: Global, name: &str) -> Result<String, NoMemory>
    ensures { IfOk result (λ line. string_bytes line ≡ spec.cannot_read_line name.now) }
{
    match format!(in alloc; "cannot read {name}\n") {
        Ok(line) => Ok(line),
        Err(_) => Err(NoMemory),
    }
}

/// The line for a text of this name that is too large.
pub(crate) fn too_large_line(alloc: Global, name: &str) -> Result<String, NoMemory>
    ensures { IfOk result (λ line. string_bytes line ≡ spec.too_large_line name.now) }
{
    match format!(in alloc; "{name}: too large\n") {
        Ok(line) => Ok(line),
        Err(_) => Err(NoMemory),
    }
}

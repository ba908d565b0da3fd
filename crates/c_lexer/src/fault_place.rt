//! Where the first fault of a text lies.

ghost use Rattle.std.specs.Prelude.{◌≡◌, ◌≤◌, ℕ, length, map, string_bytes, IfOk};
ghost use Rattle.std.specs.Option.{option_map, option_copied};
ghost use Rattle.base_core.specs.Limits.{most_bytes};
ghost use Rattle.c_lexer.specs.FaultFile.{file_named, fault_file};

use crate::bytes::back;
use crate::first::first;
use crate::item::Item;
use crate::scanner::Scanner;
use base_core::NoMemory;
use indexmap::IndexSet;
use std::alloc::Global;

fn file_named(files: &IndexSet<String>, n: u32) -> Option<&str>
    ensures { option_copied result ≡ file_named (map string_bytes files.now.keys) n }
{
    if n == 0 {
        return None;
    }
    match files.get_index(n as usize - 1) {
        Some(name) => Some(name.as_str()),
        None => None,
    }
}

fn copied(alloc: Global, name: Option<&str>) -> Result<Option<String>, NoMemory>
    ensures { IfOk result (λ copy. option_map string_bytes copy ≡ option_copied name.entry) }
{
    match name {
        None => Ok(None),
        Some(name) => match String::from_str(alloc, name) {
            Ok(copy) => Ok(Some(copy)),
            Err(_) => Err(NoMemory),
        },
    }
}

/// The file in which the first fault of a text of at most `base_core::MOST_BYTES` bytes lies, as the line marker before it
/// names it. None exactly where the text has no fault, or it lies in the command's own file.
pub fn fault_file(alloc: Global, text: &[u8]) -> Result<Option<String>, NoMemory>
    requires { length text.now ≤ most_bytes }
    ensures { IfOk result (λ name. option_map string_bytes name ≡ fault_file text.now) }
{
    let mut scanner = Scanner::new(alloc);
    let mut rest = text;
    while !rest.is_empty() {
        if let Item::Fault(_, _) = first(scanner.fresh, rest) {
            return copied(alloc, file_named(&scanner.files, scanner.place.file));
        }
        match scanner.step(alloc, rest) {
            Ok(n) => rest = back(rest, n),
            Err(_) => return Err(NoMemory),
        }
    }
    Ok(None)
}

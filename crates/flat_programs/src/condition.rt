ghost use Rattle.std.specs.Prelude.{◌≡◌};
ghost use Rattle.flat_programs.specs.Condition.{aborts_first, is_safe, is_installed, are_safe};

use crate::{FlatProgram, Handler, LibraryFunction, Statement};

/// Whether a call of `abort` is reached, and none of `rand` before it.
fn aborts_first(calls: &[LibraryFunction]) -> bool
    ensures { result ≡ aborts_first calls.now }
{
    let mut rest = calls;
    while let Some((first, after)) = rest.split_first() {
        match first {
            LibraryFunction::Abort => return true,
            LibraryFunction::Rand => return false,
            LibraryFunction::Getpid | LibraryFunction::Pause => rest = after,
        }
    }
    false
}

/// Whether a handler with these calls keeps the rules whenever it runs.
fn is_safe(calls: &[LibraryFunction]) -> bool
    ensures { result ≡ is_safe calls.now }
{
    calls.is_empty() || aborts_first(calls)
}

/// Whether a statement that is reached installs the handler of this name for a signal that can be caught.
fn is_installed(statements: &[Statement], name: u8) -> bool
    ensures { result ≡ is_installed statements.now name }
{
    let mut rest = statements;
    while let Some((first, after)) = rest.split_first() {
        match first {
            Statement::Call(LibraryFunction::Abort) => return false,
            Statement::Call(_) => rest = after,
            Statement::Install { signal, handler } => {
                if *handler == name && signal.can_be_caught() {
                    return true;
                }
                rest = after;
            }
        }
    }
    false
}

/// Whether each handler that is installed keeps the rules whenever it runs.
pub fn are_safe(program: &FlatProgram) -> bool
    ensures { result ≡ are_safe program.now.statements program.now.handlers }
{
    let statements = program.statements();
    let mut rest = program.handlers();
    while let Some((first, after)) = rest.split_first() {
        if is_installed(statements, first.name()) && !is_safe(first.calls()) {
            return false;
        }
        rest = after;
    }
    true
}

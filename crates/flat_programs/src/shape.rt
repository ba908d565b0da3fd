ghost use Rattle.std.specs.Prelude.{◌≡◌, ◌≤◌, ◌+◌, ◌↔◌, ◌==◌, length, IsTrue};
ghost use Rattle.std.specs.List.{list_any, list_all};
ghost use Rattle.flat_programs.specs.FlatTree.{HandlerTree};
ghost use Rattle.flat_programs.specs.FlatShape.{calls_in};
ghost use Rattle.flat_programs.specs.Shape.{names_differ, is_install_named};

use crate::{Handler, Statement};

/// Whether at most 100 calls and installs stand in the program.
pub(crate) fn is_small(handlers: &[Handler], statements: &[Statement]) -> bool
    ensures { IsTrue result ↔ (calls_in handlers.now + length statements.now ≤ 100) }
{
    if statements.len() > 100 {
        return false;
    }
    let mut room = 100 - statements.len();
    let mut rest = handlers;
    while let Some((first, after)) = rest.split_first() {
        let count = first.calls().len();
        if count > room {
            return false;
        }
        room -= count;
        rest = after;
    }
    true
}

fn is_named(handlers: &[Handler], name: u8) -> bool
    ensures { result ≡ list_any (λ (h : HandlerTree). h.name == name) handlers.now }
{
    handlers.iter().any(|handler| handler.name() == name)
}

/// Whether the names of the handlers differ.
pub(crate) fn names_differ(handlers: &[Handler]) -> bool
    ensures { result ≡ names_differ handlers.now }
{
    let mut rest = handlers;
    while let Some((first, after)) = rest.split_first() {
        // There are 26 names, so this is tried 27 times at most.
        if is_named(after, first.name()) {
            return false;
        }
        rest = after;
    }
    true
}

fn is_install_named(handlers: &[Handler], statement: &Statement) -> bool
    ensures { result ≡ is_install_named handlers.now statement.now }
{
    match statement {
        Statement::Call(_) => true,
        Statement::Install { handler, .. } => is_named(handlers, *handler),
    }
}

/// Whether each install names a handler of the program.
pub(crate) fn installs_are_named(handlers: &[Handler], statements: &[Statement]) -> bool
    ensures { result ≡ list_all (is_install_named handlers.now) statements.now }
{
    statements
        .iter()
        .all(|statement| is_install_named(handlers, statement))
}

//! The knot that closes what nests.

ghost use Rattle.std.specs.Prelude.{◌≡◌, ◌≤◌, map};
ghost use Rattle.c_tree.specs.StatementView.{view_statement, statements_of};
ghost use Rattle.c_grammar.specs.Reading.{read};
ghost use Rattle.c_grammar.specs.Rules.{all_statements};
ghost use Rattle.c_grammar.specs.Gives.{Gives};
ghost use Rattle.statement_parser.specs.Nests.{Finds, IsSmall};

use crate::context::Context;
use crate::reader::{Found, Nested, Statements};
use c_grammar::{Cursor, NameEnvironment, Refusal};
use c_tree::Stmt;
use sqlite_items::Items;
use std::alloc::Global;

/// How often statements may nest. The limits of a program stop it long before.
const MAX_NESTING: usize = 10_000;

/// Reads what nests. Where it nests too often, there is no memory for it.
fn nested(
    alloc: Global,
    types: &NameEnvironment<'_>,
    cursor: &mut Cursor<'_>,
    budget: usize,
    d: u32,
    what: Nested,
) -> Result<Found, Refusal>
    requires small { IsSmall d what }
    ensures { Finds types.now d what cursor.old result cursor.new }
{
    if budget == 0 {
        return Err(Refusal::NoMemory);
    }
    let reader = Statements {
        alloc,
        types: &*types,
        budget: budget - 1,
        read: nested,
    };
    Ok(match what {
        Nested::Statement { context, owed } => {
            Found::Statement(reader.any(cursor, d, context, owed)?)
        }
        Nested::Block { context } => Found::Block(reader.all(cursor, d, context)?),
    })
}

/// The statements of a block at this context, with the closing brace.
pub fn block(
    alloc: Global,
    types: &NameEnvironment<'_>,
    cursor: &mut Cursor<'_>,
    d: u32,
    context: Context,
) -> Result<Items<Stmt>, Refusal>
    requires { d ≤ 1000 }
    ensures { Gives (λ ss. statements_of (map view_statement ss)) (read (all_statements types.now d context) cursor.old) result cursor.new }
{
    Statements {
        alloc,
        types,
        budget: MAX_NESTING,
        read: nested,
    }
    .all(cursor, d, context)
}

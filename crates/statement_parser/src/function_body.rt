//! Bodies of functions.

ghost use Rattle.std.specs.Prelude.{map};
ghost use Rattle.c_tree.specs.Shape.{of_block, outside};
ghost use Rattle.c_tree.specs.StatementView.{view_statement, statements_of};
ghost use Rattle.c_grammar.specs.Reading.{read};
ghost use Rattle.c_grammar.specs.Rules.{all_statements};
ghost use Rattle.c_grammar.specs.Gives.{Gives};

use crate::context::Context;
use crate::nest;
use c_grammar::{Cursor, NameEnvironment, Refusal};
use c_tree::Stmt;
use sqlite_items::Items;
use std::alloc::Global;

/// The statements of a function's body, with its closing brace.
pub fn body(
    alloc: Global,
    types: &NameEnvironment<'_>,
    cursor: &mut Cursor<'_>,
) -> Result<Items<Stmt>, Refusal>
    ensures { Gives (λ ss. statements_of (map view_statement ss)) (read (all_statements types.now 3 (of_block outside)) cursor.old) result cursor.new }
{
    let context = Context::outside().of_block();
    nest::block(alloc, types, cursor, 3, context)
}

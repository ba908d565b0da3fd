//! Initialisers, with the knot that closes their nesting.

ghost use Rattle.std.specs.Prelude.{◌≡◌, ◌≤◌};
ghost use Rattle.c_tree.specs.StatementView.{view_init};
ghost use Rattle.c_grammar.specs.Reading.{read};
ghost use Rattle.c_grammar.specs.Rules.{an_initializer};
ghost use Rattle.c_grammar.specs.Gives.{Gives};
ghost use Rattle.c_grammar.specs.Performing.{perform};
ghost use Rattle.statement_parser.specs.InitNests.{InitNests};
ghost use Rattle.statement_parser.specs.PartList.{braced};

use crate::part::{Nest, parts};
use c_grammar::steps::{kind, spend};
use c_grammar::{Cursor, Kind, NameEnvironment, Refusal};
use c_tree::{Init, InitList};
use sqlite_items::Boxed;
use std::alloc::Global;
use type_parser::nest::expression;

/// How often initialisers may nest. The limits of a program stop it long before.
const MAX_NESTING: usize = 10_000;

/// An initialiser in braces.
#[tactic(auto, using(c_tree::proofs::StatementViewLemmas::view_Init_Parts, c_tree::proofs::StatementViewLemmas::view_InitList))]
fn braced<
    F: Fn(
        Global,
        &NameEnvironment<'_>,
        &mut Cursor<'_>,
        usize,
        u32,
        u32,
    ) -> Result<Boxed<Init>, Refusal>,
>(nest: &Nest<'_, F>, cursor: &mut Cursor<'_>, d: u32, owed: u32) -> Result<Boxed<Init>, Refusal>
    requires nests { InitNests nest.now.budget (F.pre nest.now.read) (F.post nest.now.read) }
    requires small { d ≤ 1001 }
    requires few { owed ≤ 1000 }
    ensures { Gives view_init (perform (braced nest.now.types.now d owed) cursor.old) result cursor.new }
{
    spend(cursor, owed + 1, d + 2)?;
    cursor.take();
    let (parts, comma) = parts(nest, cursor, d + 1)?;
    Ok(Boxed::new(nest.alloc, Init::Parts(InitList { parts, comma }))?)
}

/// An initialiser: a list in braces, or an expression.
#[tactic(auto, using(c_grammar::proofs::Opens::initializer_performs, c_tree::proofs::StatementViewLemmas::view_Init_Expr))]
fn single_or_braced<
    F: Fn(
        Global,
        &NameEnvironment<'_>,
        &mut Cursor<'_>,
        usize,
        u32,
        u32,
    ) -> Result<Boxed<Init>, Refusal>,
>(nest: &Nest<'_, F>, cursor: &mut Cursor<'_>, d: u32, owed: u32) -> Result<Boxed<Init>, Refusal>
    requires nests { InitNests nest.now.budget (F.pre nest.now.read) (F.post nest.now.read) }
    requires small { d ≤ 1001 }
    requires few { owed ≤ 1000 }
    ensures { Gives view_init (read (an_initializer nest.now.types.now d owed) cursor.old) result cursor.new }
{
    match kind(nest.types, cursor) {
        Kind::OpenBrace => braced(nest, cursor, d, owed),
        _ => {
            let found = expression(nest.alloc, nest.types, cursor, d, 2, owed)?;
            Ok(Boxed::new(nest.alloc, Init::Expr(found.into_inner()))?)
        }
    }
}

/// Reads an initialiser. Where it nests too often, there is no memory for it.
fn nested(
    alloc: Global,
    types: &NameEnvironment<'_>,
    cursor: &mut Cursor<'_>,
    budget: usize,
    d: u32,
    owed: u32,
) -> Result<Boxed<Init>, Refusal>
    requires depth { d ≤ 1001 }
    requires few { owed ≤ 1000 }
    ensures { Gives view_init (read (an_initializer types.now d owed) cursor.old) result cursor.new }
{
    if budget == 0 {
        return Err(Refusal::NoMemory);
    }
    let nest = Nest {
        alloc,
        types: &*types,
        budget: budget - 1,
        read: nested,
    };
    single_or_braced(&nest, cursor, d, owed)
}

/// An initialiser, whose first token makes so many nodes necessary besides its own.
pub fn initializer(
    alloc: Global,
    types: &NameEnvironment<'_>,
    cursor: &mut Cursor<'_>,
    d: u32,
    owed: u32,
) -> Result<Boxed<Init>, Refusal>
    requires depth { d ≤ 1001 }
    requires few { owed ≤ 1000 }
    ensures { Gives view_init (read (an_initializer types.now d owed) cursor.old) result cursor.new }
{
    nested(alloc, types, cursor, MAX_NESTING, d, owed)
}

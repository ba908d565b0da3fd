//! Declared names.

ghost use Rattle.std.specs.Prelude.{◌≤◌, ◌∷◌, [], true, map};
ghost use Rattle.c_tree.specs.View.{view_declarator};
ghost use Rattle.c_tree.specs.StatementView.{view_named};
ghost use Rattle.c_grammar.specs.declared.kind.Kind.TheVariants as k;
ghost use Rattle.c_grammar.specs.Body.{look};
ghost use Rattle.c_grammar.specs.Performing.{perform};
ghost use Rattle.c_grammar.specs.Reading.{read};
ghost use Rattle.c_grammar.specs.Rules.{a_named, more_named, named_init_by};
ghost use Rattle.c_grammar.specs.Gives.{Gives};
ghost use Rattle.c_grammar.specs.Lists.{mapped};
ghost use Rattle.statement_parser.specs.DeclarationParts.{another_name};

use crate::forms::has_initializer;
use crate::init::initializer;
use c_grammar::steps::{expect, refused, spend};
use c_grammar::{Cursor, Kind, NameEnvironment, Refusal, same_kind};
use c_tree::{Declarator, Named};
use sqlite_items::{Boxed, Items};
use std::alloc::Global;
use type_parser::nest::declarator;

/// A declared name at the sign before its initialiser.
fn initialized(
    alloc: Global,
    types: &NameEnvironment<'_>,
    cursor: &mut Cursor<'_>,
    d: u32,
    declarator: Boxed<Declarator>,
) -> Result<Boxed<Named>, Refusal>
    requires { d ≤ 1001 }
    ensures { Gives view_named (perform (named_init_by types.now d true (view_declarator declarator) k.Assign) cursor.old) result cursor.new }
{
    spend(cursor, 1, d + 1)?;
    cursor.take();
    let init = initializer(alloc, types, cursor, d, 0)?;
    Ok(Boxed::new(
        alloc,
        Named {
            declarator: declarator.into_inner(),
            init: Some(init.into_inner()),
        },
    )?)
}

/// A declared name behind its declarator, whose name has depth `d`: its initialiser, which it may have or not, or none.
pub fn named_init(
    alloc: Global,
    types: &NameEnvironment<'_>,
    cursor: &mut Cursor<'_>,
    d: u32,
    may_begin: bool,
    declarator: Boxed<Declarator>,
) -> Result<Boxed<Named>, Refusal>
    requires { d ≤ 1001 }
    ensures { Gives view_named (perform (look [] (named_init_by types.now d may_begin (view_declarator declarator))) cursor.old) result cursor.new }
{
    match cursor.kind() {
        Kind::Assign => {
            if may_begin {
                initialized(alloc, types, cursor, d, declarator)
            } else {
                Err(refused(cursor))
            }
        }
        _ => Ok(Boxed::new(
            alloc,
            Named {
                declarator: declarator.into_inner(),
                init: None,
            },
        )?),
    }
}

/// A declared name.
#[tactic(auto, using(c_grammar::proofs::Opens::named_performs))]
pub fn declared_name(
    alloc: Global,
    types: &NameEnvironment<'_>,
    cursor: &mut Cursor<'_>,
    d: u32,
) -> Result<Boxed<Named>, Refusal>
    requires { d ≤ 1000 }
    ensures { Gives view_named (read (a_named types.now d) cursor.old) result cursor.new }
{
    let declarator = declarator(alloc, types, cursor, d + 1, true)?;
    let may_begin = has_initializer(declarator.get());
    named_init(alloc, types, cursor, d + 1, may_begin, declarator)
}

/// One more declared name, behind a comma.
fn another_name(
    alloc: Global,
    types: &NameEnvironment<'_>,
    cursor: &mut Cursor<'_>,
    d: u32,
) -> Result<Boxed<Named>, Refusal>
    requires { d ≤ 1001 }
    ensures { Gives view_named (perform (another_name types.now d) cursor.old) result cursor.new }
{
    spend(cursor, 1, d + 1)?;
    cursor.take();
    declared_name(alloc, types, cursor, d)
}

/// The declared names behind the first, with the semicolon.
pub fn more_names(
    alloc: Global,
    types: &NameEnvironment<'_>,
    cursor: &mut Cursor<'_>,
    d: u32,
    first: Boxed<Named>,
) -> Result<Items<Named>, Refusal>
    requires { d ≤ 1001 }
    ensures { Gives (map view_named) (mapped (◌∷◌ (view_named first)) (read (more_named types.now d) cursor.old)) result cursor.new }
{
    let mut found = Items::new(alloc);
    found.push(first.into_inner())?;
    while same_kind(cursor.kind(), Kind::Comma) {
        let next = another_name(alloc, types, cursor, d)?;
        found.push(next.into_inner())?;
    }
    expect(cursor, Kind::Semicolon)?;
    Ok(found)
}

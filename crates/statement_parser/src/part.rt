//! The parts of a list of initialisers. The initialisers in them go through a reader that is a parameter, so that each
//! function is proved by itself.

ghost use Rattle.std.specs.Prelude.{◌≡◌, ◌≤◌, [], map};
ghost use Rattle.c_tree.specs.StatementView.{view_init, view_part, initializers_of};
ghost use Rattle.c_grammar.specs.Body.{look};
ghost use Rattle.c_grammar.specs.Reading.{read};
ghost use Rattle.c_grammar.specs.Rules.{an_initializer, all_initializers};
ghost use Rattle.c_grammar.specs.Gives.{Gives};
ghost use Rattle.c_grammar.specs.Performing.{perform};
ghost use Rattle.statement_parser.specs.InitNests.{InitNests};
ghost use Rattle.statement_parser.specs.PartList.{behind_part_by, assigned, named_part, one_part};

use base_core::Lexeme;
use c_grammar::steps::{expect, kind, name, refused, spend};
use c_grammar::{Cursor, Kind, NameEnvironment, Refusal};
use c_tree::{Init, Part};
use sqlite_items::{Boxed, Items};
use std::alloc::Global;

/// What the functions for parts are given.
#[derive(Drop)]
pub struct Nest<'a, F> {
    pub alloc: Global,
    /// The names that are types.
    pub types: &'a NameEnvironment<'a>,
    /// How often initialisers may still nest.
    pub budget: usize,
    pub read: F,
}

/// An initialiser in another, whose first token makes so many nodes necessary besides its own.
fn inner<
    F: Fn(
        Global,
        &NameEnvironment<'_>,
        &mut Cursor<'_>,
        usize,
        u32,
        u32,
    ) -> Result<Boxed<Init>, Refusal>,
>(nest: &Nest<'_, F>, cursor: &mut Cursor<'_>, d: u32, owed: u32) -> Result<Boxed<Init>, Refusal>
    requires nests { InitNests nest.now.budget (F.pre nest.now.read) (F.post nest.now.read) }
    requires small { d ≤ 1001 }
    requires few { owed ≤ 1000 }
    ensures { Gives view_init (read (an_initializer nest.now.types.now d owed) cursor.old) result cursor.new }
{
    (nest.read)(nest.alloc, nest.types, cursor, nest.budget, d, owed)
}

/// A part, with the name of its member if it has one.
#[tactic(auto, using(c_tree::proofs::StatementViewLemmas::view_Part))]
fn part_of(name: Option<Lexeme>, init: Boxed<Init>) -> Part
    ensures { view_part result ≡ (name, view_init init) }
{
    Part {
        name,
        init: init.into_inner(),
    }
}

/// Behind a part: the closing brace, or a comma, behind which that brace may stand too. Where neither brace stands there,
/// another part begins.
fn behind_part(
    types: &NameEnvironment<'_>,
    cursor: &mut Cursor<'_>,
    name: Option<Lexeme>,
    init: Boxed<Init>,
) -> Result<(Part, Option<bool>), Refusal>
    ensures { Gives (λ p. (view_part p.0, p.1)) (perform (look [] (behind_part_by types.now (name, view_init init))) cursor.old) result cursor.new }
{
    match cursor.kind() {
        Kind::CloseBrace => {
            cursor.take();
            Ok((part_of(name, init), Some(false)))
        }
        Kind::Comma => {
            cursor.take();
            match kind(types, cursor) {
                Kind::CloseBrace => {
                    cursor.take();
                    Ok((part_of(name, init), Some(true)))
                }
                _ => Ok((part_of(name, init), None)),
            }
        }
        _ => Err(refused(cursor)),
    }
}

/// A part for a named member, behind its name.
fn assigned<
    F: Fn(
        Global,
        &NameEnvironment<'_>,
        &mut Cursor<'_>,
        usize,
        u32,
        u32,
    ) -> Result<Boxed<Init>, Refusal>,
>(
    nest: &Nest<'_, F>,
    cursor: &mut Cursor<'_>,
    d: u32,
    name: Lexeme,
) -> Result<(Part, Option<bool>), Refusal>
    requires nests { InitNests nest.now.budget (F.pre nest.now.read) (F.post nest.now.read) }
    requires small { d ≤ 1001 }
    ensures { Gives (λ p. (view_part p.0, p.1)) (perform (assigned nest.now.types.now d name) cursor.old) result cursor.new }
{
    expect(cursor, Kind::Assign)?;
    let init = inner(nest, cursor, d, 0)?;
    behind_part(nest.types, cursor, Some(name), init)
}

/// A part for a named member, from its dot on.
fn named_part<
    F: Fn(
        Global,
        &NameEnvironment<'_>,
        &mut Cursor<'_>,
        usize,
        u32,
        u32,
    ) -> Result<Boxed<Init>, Refusal>,
>(
    nest: &Nest<'_, F>,
    cursor: &mut Cursor<'_>,
    d: u32,
    owed: u32,
) -> Result<(Part, Option<bool>), Refusal>
    requires nests { InitNests nest.now.budget (F.pre nest.now.read) (F.post nest.now.read) }
    requires small { d ≤ 1001 }
    ensures { Gives (λ p. (view_part p.0, p.1)) (perform (named_part nest.now.types.now d owed) cursor.old) result cursor.new }
{
    spend(cursor, owed, d + 1)?;
    cursor.take();
    let name = name(nest.alloc, nest.types, cursor)?;
    assigned(nest, cursor, d, name)
}

/// One part, and where it is the last whether a comma stands behind it.
fn part<
    F: Fn(
        Global,
        &NameEnvironment<'_>,
        &mut Cursor<'_>,
        usize,
        u32,
        u32,
    ) -> Result<Boxed<Init>, Refusal>,
>(
    nest: &Nest<'_, F>,
    cursor: &mut Cursor<'_>,
    d: u32,
    owed: u32,
) -> Result<(Part, Option<bool>), Refusal>
    requires nests { InitNests nest.now.budget (F.pre nest.now.read) (F.post nest.now.read) }
    requires small { d ≤ 1001 }
    requires few { owed ≤ 1000 }
    ensures { Gives (λ p. (view_part p.0, p.1)) (perform (one_part nest.now.types.now d owed) cursor.old) result cursor.new }
{
    match cursor.kind() {
        Kind::Dot => named_part(nest, cursor, d, owed),
        _ => {
            let init = inner(nest, cursor, d, owed)?;
            behind_part(nest.types, cursor, None, init)
        }
    }
}

/// The parts of a list, with the closing brace, and whether a comma stands before it. What stands in the place of the first
/// part was counted with the brace before it; the first token of each later part makes its initialiser necessary.
pub fn parts<
    F: Fn(
        Global,
        &NameEnvironment<'_>,
        &mut Cursor<'_>,
        usize,
        u32,
        u32,
    ) -> Result<Boxed<Init>, Refusal>,
>(nest: &Nest<'_, F>, cursor: &mut Cursor<'_>, d: u32) -> Result<(Items<Part>, bool), Refusal>
    requires nests { InitNests nest.now.budget (F.pre nest.now.read) (F.post nest.now.read) }
    requires small { d ≤ 1001 }
    ensures { Gives (λ p. (initializers_of (map view_part p.0), p.1)) (read (all_initializers nest.now.types.now d 0) cursor.old) result cursor.new }
{
    let mut found = Items::new(nest.alloc);
    let mut owed: u32 = 0;
    loop {
        let (next, last) = part(nest, cursor, d, owed)?;
        found.push(next)?;
        match last {
            Some(comma) => return Ok((found, comma)),
            None => owed = 1,
        }
    }
}

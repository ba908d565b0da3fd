//! All items of a program.

ghost use Rattle.std.specs.Prelude.{◌≡◌, ◌<◌, map, length, IfOk};
ghost use Rattle.c_tree.specs.Shape.{first_scope, behind_item};
ghost use Rattle.c_tree.specs.StatementView.{view_item};
ghost use Rattle.c_grammar.specs.Kind as grammar;
ghost use Rattle.c_grammar.specs.Performing.{perform};
ghost use Rattle.c_grammar.specs.Reading.{read};
ghost use Rattle.c_grammar.specs.Rules.{all_items, an_item, item_specifiers};
ghost use Rattle.c_grammar.specs.Gives.{Gives};
ghost use Rattle.item_parser.specs.ItemParts.{one_item, stored};

use crate::first::{behind_specifiers, kept};
use crate::outer::inner_types;
use c_grammar::steps::{kind, refused, spend};
use c_grammar::{Cursor, Kind, Names, Refusal, same_kind};
use c_tree::{Item, Storage};
use expression_parser::infix::begins_type;
use program_scope::Scope;
use sqlite_items::{Boxed, Items};
use std::alloc::Global;
use type_parser::nest::specifiers;

/// The kind of the next token, outside functions.
fn kind_outside(alloc: Global, scope: &Scope, cursor: &Cursor<'_>) -> Kind
    ensures { result ≡ grammar.kind scope.now.types cursor.now.rest }
{
    let none = Names::new(alloc);
    kind(&inner_types(scope, &none), cursor)
}

/// An item, from its specifiers on.
fn specified(
    alloc: Global,
    scope: &mut Scope,
    cursor: &mut Cursor<'_>,
    storage: Storage,
) -> Result<Boxed<Item>, Refusal>
    ensures reads { Gives view_item (perform (item_specifiers storage scope.old) cursor.old) result cursor.new }
    ensures behind { IfOk result (λ x. scope.new ≡ behind_item (view_item x) scope.old) }
{
    let none = Names::new(alloc);
    let types = inner_types(scope, &none);
    let specs = specifiers(alloc, &types, cursor, 2, true)?;
    behind_specifiers(alloc, scope, cursor, storage, specs)
}

/// An item, at the word of its storage.
fn stored(
    alloc: Global,
    scope: &mut Scope,
    cursor: &mut Cursor<'_>,
    storage: Storage,
) -> Result<Boxed<Item>, Refusal>
    ensures reads { Gives view_item (perform (stored storage scope.old) cursor.old) result cursor.new }
    ensures behind { IfOk result (λ x. scope.new ≡ behind_item (view_item x) scope.old) }
{
    spend(cursor, 1, 2)?;
    cursor.take();
    specified(alloc, scope, cursor, storage)
}

/// An item: a function, or a declaration. The scope is then the one behind it.
#[tactic(auto, using(c_grammar::proofs::Opens::item_performs))]
fn item(alloc: Global, scope: &mut Scope, cursor: &mut Cursor<'_>) -> Result<Boxed<Item>, Refusal>
    ensures reads { Gives view_item (read (an_item scope.old) cursor.old) result cursor.new }
    ensures behind { IfOk result (λ x. scope.new ≡ behind_item (view_item x) scope.old) }
{
    match kind_outside(alloc, scope, cursor) {
        Kind::Static => stored(alloc, scope, cursor, Storage::Static),
        Kind::Extern => stored(alloc, scope, cursor, Storage::Extern),
        Kind::Typedef => stored(alloc, scope, cursor, Storage::Typedef),
        other => {
            if !begins_type(other) {
                return Err(refused(cursor));
            }
            spend(cursor, 1, 2)?;
            specified(alloc, scope, cursor, Storage::Nothing)
        }
    }
}

/// An item, which takes a token at least: the refusal where it takes none never comes.
fn one_item(
    alloc: Global,
    scope: &mut Scope,
    cursor: &mut Cursor<'_>,
) -> Result<Boxed<Item>, Refusal>
    ensures reads { Gives view_item (perform (one_item scope.old) cursor.old) result cursor.new }
    ensures behind { IfOk result (λ x. scope.new ≡ behind_item (view_item x) scope.old) }
    ensures shorter { IfOk result (λ _. length cursor.new.rest < length cursor.old.rest) }
{
    let before = cursor.left();
    let found = item(alloc, scope, cursor)?;
    kept(found, cursor.left() < before, refused(cursor))
}

/// The items of a program, up to the end of the text.
pub fn items(alloc: Global, cursor: &mut Cursor<'_>) -> Result<Items<Item>, Refusal>
    ensures { Gives (λ xs. map view_item xs) (read (all_items first_scope) cursor.old) result cursor.new }
{
    let mut scope = Scope::first(alloc)?;
    let mut found = Items::new(alloc);
    while !same_kind(cursor.kind(), Kind::Nothing) {
        let next = one_item(alloc, &mut scope, cursor)?;
        found.push(next.into_inner())?;
    }
    Ok(found)
}

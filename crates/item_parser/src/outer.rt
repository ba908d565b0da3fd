//! Names that are declared outside functions.

ghost use Rattle.std.specs.Prelude.{◌≡◌, ◌∷◌, ◌++◌, [], true, map, IfOk, OnOk};
ghost use Rattle.c_tree.specs.Shape.{behind_named, behind_names};
ghost use Rattle.c_tree.specs.View.{view_declarator};
ghost use Rattle.c_tree.specs.StatementView.{view_named};
ghost use Rattle.c_grammar.specs.Body.{look};
ghost use Rattle.c_grammar.specs.Performing.{perform};
ghost use Rattle.c_grammar.specs.Reading.{read};
ghost use Rattle.c_grammar.specs.Rules as rules;
ghost use Rattle.c_grammar.specs.Gives.{Gives};
ghost use Rattle.c_grammar.specs.Lists.{mapped};
ghost use Rattle.item_parser.specs.ItemParts as spec;

use c_grammar::steps::{expect, spend};
use c_grammar::{Cursor, Kind, NameEnvironment, Names, Refusal, same_kind};
use c_tree::{Declarator, Named, Storage};
use program_scope::Scope;
use sqlite_items::{Boxed, Items};
use statement_parser::{has_initializer, named_init};
use std::alloc::{AllocError, Global};
use type_parser::nest::{declarator, type_declarator};

/// Where no type is declared: the names that are types.
pub(crate) fn inner_types<'a>(scope: &'a Scope, none: &'a Names) -> NameEnvironment<'a>
    requires { none.now ≡ [] }
    ensures { result ≡ rules.only_types scope.now.types }
{
    NameEnvironment::new(scope.types(), none)
}

/// Where names are declared outside functions: the name of a type is new.
fn outer_types<'a>(storage: Storage, scope: &'a Scope, none: &'a Names) -> NameEnvironment<'a>
    requires { none.now ≡ [] }
    ensures { result ≡ rules.outer_types storage scope.now }
{
    match storage {
        Storage::Typedef => NameEnvironment::new(scope.types(), scope.others()),
        Storage::Nothing => inner_types(scope, none),
        Storage::Static => inner_types(scope, none),
        Storage::Extern => inner_types(scope, none),
    }
}

/// The declarator of a name outside functions.
fn outer_declarator(
    alloc: Global,
    types: &NameEnvironment<'_>,
    cursor: &mut Cursor<'_>,
    storage: Storage,
) -> Result<Boxed<Declarator>, Refusal>
    ensures { Gives view_declarator (read (rules.a_declarator types.now 3 true (rules.is_typedef storage)) cursor.old) result cursor.new }
{
    match storage {
        Storage::Typedef => type_declarator(alloc, types, cursor, 3),
        Storage::Nothing => declarator(alloc, types, cursor, 3, true),
        Storage::Static => declarator(alloc, types, cursor, 3, true),
        Storage::Extern => declarator(alloc, types, cursor, 3, true),
    }
}

/// Whether the declared name may have an initialiser.
fn may_begin(storage: Storage, d: &Declarator) -> bool
    ensures { result ≡ rules.may_begin storage (view_declarator d.now) }
{
    match storage {
        Storage::Typedef => false,
        Storage::Nothing => has_initializer(d),
        Storage::Static => has_initializer(d),
        Storage::Extern => has_initializer(d),
    }
}

/// A declared name behind its declarator.
fn behind_declarator(
    alloc: Global,
    types: &NameEnvironment<'_>,
    cursor: &mut Cursor<'_>,
    storage: Storage,
    found: Boxed<Declarator>,
) -> Result<Boxed<Named>, Refusal>
    ensures { Gives view_named (perform (spec.behind_declarator types.now storage (view_declarator found)) cursor.old) result cursor.new }
{
    let may_begin = may_begin(storage, found.get());
    named_init(alloc, types, cursor, 3, may_begin, found)
}

/// A declared name.
#[tactic(auto, using(c_grammar::proofs::Opens::outer_performs))]
pub(crate) fn outer(
    alloc: Global,
    scope: &Scope,
    cursor: &mut Cursor<'_>,
    storage: Storage,
) -> Result<Boxed<Named>, Refusal>
    ensures { Gives view_named (read (rules.an_outer storage scope.now) cursor.old) result cursor.new }
{
    let none = Names::new(alloc);
    let types = outer_types(storage, scope, &none);
    let found = outer_declarator(alloc, &types, cursor, storage)?;
    behind_declarator(alloc, &types, cursor, storage, found)
}

/// One more declared name, behind a comma.
fn another(
    alloc: Global,
    scope: &Scope,
    cursor: &mut Cursor<'_>,
    storage: Storage,
) -> Result<Boxed<Named>, Refusal>
    ensures { Gives view_named (perform (spec.another storage scope.now) cursor.old) result cursor.new }
{
    spend(cursor, 1, 3)?;
    cursor.take();
    outer(alloc, scope, cursor, storage)
}

/// Puts a name behind those that were found, and into the scope.
fn add_name(
    scope: &mut Scope,
    found: &mut Items<Named>,
    storage: Storage,
    next: Boxed<Named>,
) -> Result<(), AllocError>
    ensures scope { OnOk result (scope.new ≡ behind_named storage (view_named next) scope.old) }
    ensures found { OnOk result (found.new ≡ found.old ++ next ∷ []) }
{
    scope.behind_named(storage, next.get())?;
    found.push(next.into_inner())
}

/// The declared names behind the first, with the semicolon. The scope is then the one behind all of them.
pub(crate) fn names(
    alloc: Global,
    scope: &mut Scope,
    cursor: &mut Cursor<'_>,
    storage: Storage,
    first: Boxed<Named>,
) -> Result<Items<Named>, Refusal>
    ensures reads { Gives (λ ns. map view_named ns) (mapped (λ ns. view_named first ∷ ns) (read (rules.more_outer storage (behind_named storage (view_named first) scope.old)) cursor.old)) result cursor.new }
    ensures behind { IfOk result (λ ns. scope.new ≡ behind_names storage (map view_named ns) scope.old) }
{
    let mut found = Items::new(alloc);
    add_name(scope, &mut found, storage, first)?;
    while same_kind(cursor.kind(), Kind::Comma) {
        let next = another(alloc, scope, cursor, storage)?;
        add_name(scope, &mut found, storage, next)?;
    }
    expect(cursor, Kind::Semicolon)?;
    Ok(found)
}

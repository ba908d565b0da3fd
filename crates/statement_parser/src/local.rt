//! Declarations inside functions.

ghost use Rattle.std.specs.Prelude.{◌≤◌, map};
ghost use Rattle.c_tree.specs.View.{view_specifier, specifiers_of};
ghost use Rattle.c_tree.specs.StatementView.{view_declaration};
ghost use Rattle.c_grammar.specs.Body.{look};
ghost use Rattle.c_grammar.specs.Performing.{perform};
ghost use Rattle.c_grammar.specs.Reading.{read};
ghost use Rattle.c_grammar.specs.Rules.{a_declaration, a_declared, declared_names_by};
ghost use Rattle.c_grammar.specs.Gives.{Gives};
ghost use Rattle.statement_parser.specs.DeclarationParts.{some_names, counted_names};

use crate::forms::{begins_declarator, has_tag};
use crate::named::{declared_name, more_names};
use c_grammar::steps::{kind, refused, spend};
use c_grammar::{Cursor, Kind, NameEnvironment, Refusal};
use c_tree::{Decl, Specs, Storage};
use sqlite_items::Items;
use std::alloc::Global;
use type_parser::nest::specifiers;

/// Declared names behind these specifiers, at least one, with the semicolon.
fn some_names(
    alloc: Global,
    types: &NameEnvironment<'_>,
    cursor: &mut Cursor<'_>,
    d: u32,
    storage: Storage,
    specs: Specs,
) -> Result<Decl, Refusal>
    requires { d ≤ 1000 }
    ensures { Gives view_declaration (perform (some_names types.now d storage (specifiers_of (map view_specifier specs))) cursor.old) result cursor.new }
{
    let first = declared_name(alloc, types, cursor, d)?;
    let names = more_names(alloc, types, cursor, d, first)?;
    Ok(Decl {
        storage,
        specs,
        names,
    })
}

/// The same where the first name is still to be counted.
fn counted_names(
    alloc: Global,
    types: &NameEnvironment<'_>,
    cursor: &mut Cursor<'_>,
    d: u32,
    storage: Storage,
    specs: Specs,
) -> Result<Decl, Refusal>
    requires { d ≤ 1001 }
    ensures { Gives view_declaration (perform (counted_names types.now d storage (specifiers_of (map view_specifier specs))) cursor.old) result cursor.new }
{
    spend(cursor, 1, d + 1)?;
    some_names(alloc, types, cursor, d, storage, specs)
}

/// The declared names behind these specifiers, with the semicolon. Where the specifiers counted a name, its depth was within the
/// limits, so that `d` is at most 1000 and the refusal for want of memory never comes.
fn declared_names(
    alloc: Global,
    types: &NameEnvironment<'_>,
    cursor: &mut Cursor<'_>,
    d: u32,
    storage: Storage,
    specs: Specs,
) -> Result<Decl, Refusal>
    requires { d ≤ 1001 }
    ensures { Gives view_declaration (perform (look types.now.types (declared_names_by types.now d storage (specifiers_of (map view_specifier specs)))) cursor.old) result cursor.new }
{
    match kind(types, cursor) {
        Kind::Semicolon => {
            if !has_tag(specs.as_slice()) {
                return Err(refused(cursor));
            }
            cursor.take();
            let names = Items::new(alloc);
            Ok(Decl {
                storage,
                specs,
                names,
            })
        }
        other => {
            if !begins_declarator(other) {
                return Err(refused(cursor));
            }
            if has_tag(specs.as_slice()) {
                return counted_names(alloc, types, cursor, d, storage, specs);
            }
            if d > 1000 {
                // The depth of the specifiers was within the limits, so this never comes.
                return Err(Refusal::NoMemory);
            }
            some_names(alloc, types, cursor, d, storage, specs)
        }
    }
}

/// A declaration of this storage, behind the word for it if there is one, with its semicolon.
#[tactic(auto, using(c_grammar::proofs::Opens::declared_performs))]
fn declared(
    alloc: Global,
    types: &NameEnvironment<'_>,
    cursor: &mut Cursor<'_>,
    d: u32,
    storage: Storage,
) -> Result<Decl, Refusal>
    requires { d ≤ 1001 }
    ensures { Gives view_declaration (read (a_declared types.now d storage) cursor.old) result cursor.new }
{
    let specs = specifiers(alloc, types, cursor, d, true)?;
    declared_names(alloc, types, cursor, d, storage, specs)
}

/// A declaration inside a function, with its semicolon.
#[tactic(auto, using(c_grammar::proofs::Opens::declaration_performs))]
pub fn declaration(
    alloc: Global,
    types: &NameEnvironment<'_>,
    cursor: &mut Cursor<'_>,
    d: u32,
) -> Result<Decl, Refusal>
    requires { d ≤ 1001 }
    ensures { Gives view_declaration (read (a_declaration types.now d) cursor.old) result cursor.new }
{
    match kind(types, cursor) {
        Kind::Static => {
            cursor.take();
            let found = declared(alloc, types, cursor, d, Storage::Static)?;
            Ok(found)
        }
        Kind::Extern => {
            cursor.take();
            let found = declared(alloc, types, cursor, d, Storage::Extern)?;
            Ok(found)
        }
        _ => {
            let found = declared(alloc, types, cursor, d, Storage::Nothing)?;
            Ok(found)
        }
    }
}

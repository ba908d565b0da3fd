//! Items, behind their specifiers.

ghost use Rattle.std.specs.Prelude.{◌≡◌, [], map, IfOk, Ok, Err, if◌then◌else◌};
ghost use Rattle.c_tree.specs.declared.tree.Storage.TheVariants as st;
ghost use Rattle.c_tree.specs.Shape as shape;
ghost use Rattle.c_tree.specs.Shape.{IsNoTypedef, behind_specifiers, behind_item};
ghost use Rattle.c_tree.specs.View.{view_specifier, view_declarator, specifiers_of};
ghost use Rattle.c_tree.specs.StatementView.{view_item, view_named, view_statement, statements_of};
ghost use Rattle.c_tree.specs.Tree.{declaration_item};
ghost use Rattle.c_grammar.specs.Body.{look};
ghost use Rattle.c_grammar.specs.Performing.{perform};
ghost use Rattle.c_grammar.specs.Reading.{read};
ghost use Rattle.c_grammar.specs.Rules as rules;
ghost use Rattle.c_grammar.specs.declared.kind.Kind.TheVariants as k;
ghost use Rattle.c_grammar.specs.Gives.{Gives};
ghost use Rattle.item_parser.specs.ItemParts as spec;

use crate::outer::{inner_types, names, outer};
use base_core::Lexeme;
use c_grammar::steps::{new_kind, refused, rise, spend, word};
use c_grammar::{Cursor, Kind, NameEnvironment, Names, Refusal};
use c_tree::{Decl, Declarator, Function, Item, Named, Specs, Stars, Stmt, Storage};
use program_scope::Scope;
use sqlite_items::{Boxed, Items};
use statement_parser::{
    begins_declarator, body, has_initializer, has_tag, is_function, named_init,
};
use std::alloc::{AllocError, Global};
use type_parser::nest::{parameters, pointer, sizes};
use type_parser::pointer::stars;

/// Whether a declaration goes on with a token of this kind behind its first declarator.
fn follows_first(d: &Declarator, kind: Kind) -> bool
    ensures { result ≡ rules.follows_first (view_declarator d.now) kind }
{
    match kind {
        Kind::Assign => has_initializer(d),
        Kind::Comma => true,
        Kind::Semicolon => true,
        _ => false,
    }
}

/// Behind the first declarator, which may be of a function: its body, or a declaration goes on.
fn behind_first(
    cursor: &mut Cursor<'_>,
    found: Boxed<Declarator>,
) -> Result<Boxed<Declarator>, Refusal>
    ensures { Gives view_declarator (perform (look [] (rules.first_by (view_declarator found))) cursor.old) result cursor.new }
{
    match cursor.kind() {
        Kind::OpenBrace => {
            if is_function(found.get()) {
                Ok(found)
            } else {
                Err(refused(cursor))
            }
        }
        other => {
            if follows_first(found.get(), other) {
                rise(cursor)?;
                Ok(found)
            } else {
                Err(refused(cursor))
            }
        }
    }
}

/// An array that is the first declarator of an item, behind its stars and its name.
#[tactic(auto, using(c_tree::proofs::ViewLemmas::view_Declarator_Array))]
fn first_array(
    alloc: Global,
    types: &NameEnvironment<'_>,
    cursor: &mut Cursor<'_>,
    stars: Stars,
    name: Lexeme,
) -> Result<Boxed<Declarator>, Refusal>
    ensures { Gives view_declarator (perform (rules.first_declared_by types.now stars name k.OpenBracket) cursor.old) result cursor.new }
{
    rise(cursor)?;
    let sizes = sizes(alloc, types, cursor, 3)?;
    Ok(Boxed::new(alloc, Declarator::Array(stars, name, sizes))?)
}

/// The first declarator of an item, behind its stars and its name. An array is no function.
#[tactic(auto, using(c_tree::proofs::ViewLemmas::view_Declarator_Plain, c_tree::proofs::ViewLemmas::view_Declarator_Function))]
fn first_declared(
    alloc: Global,
    types: &NameEnvironment<'_>,
    cursor: &mut Cursor<'_>,
    stars: Stars,
    name: Lexeme,
) -> Result<Boxed<Declarator>, Refusal>
    ensures { Gives view_declarator (perform (look [] (rules.first_declared_by types.now stars name)) cursor.old) result cursor.new }
{
    match cursor.kind() {
        Kind::OpenBracket => first_array(alloc, types, cursor, stars, name),
        Kind::OpenParen => {
            cursor.take();
            let params = parameters(alloc, types, cursor, 2)?;
            let function = Boxed::new(alloc, Declarator::Function(stars, name, params))?;
            behind_first(cursor, function)
        }
        _ => {
            let plain = Boxed::new(alloc, Declarator::Plain(stars, name))?;
            behind_first(cursor, plain)
        }
    }
}

/// The declarator of a function or of the first name of a declaration.
#[tactic(auto, using(c_grammar::proofs::Opens::first_performs))]
fn first(
    alloc: Global,
    types: &NameEnvironment<'_>,
    cursor: &mut Cursor<'_>,
) -> Result<Boxed<Declarator>, Refusal>
    ensures { Gives view_declarator (read (rules.a_first types.now) cursor.old) result cursor.new }
{
    let stars = stars(alloc, cursor)?;
    match new_kind(types, cursor) {
        Kind::Name => {
            let name = word(alloc, cursor)?;
            first_declared(alloc, types, cursor, stars, name)
        }
        Kind::OpenParen => {
            rise(cursor)?;
            cursor.take();
            pointer(alloc, types, cursor, 3, stars)
        }
        _ => Err(refused(cursor)),
    }
}

/// A declaration as an item.
fn item_of(
    alloc: Global,
    storage: Storage,
    specs: Specs,
    names: Items<Named>,
) -> Result<Boxed<Item>, AllocError>
    ensures { IfOk result (λ x. view_item x ≡ declaration_item (record { storage = storage; specs = specifiers_of (map view_specifier specs); names = map view_named names })) }
{
    let declaration = Decl {
        storage,
        specs,
        names,
    };
    Boxed::new(alloc, Item::Decl(declaration))
}

/// A function of its declarator and the statements of its body. No other declarator stands before a body: the answers to those,
/// want of memory, never come.
#[tactic(auto, using(c_tree::proofs::ViewLemmas::view_Declarator_Function, c_tree::proofs::StatementViewLemmas::view_Stmt_Block))]
fn function_of(
    alloc: Global,
    storage: Storage,
    specs: Specs,
    statements: Items<Stmt>,
    declarator: Boxed<Declarator>,
) -> Result<Boxed<Item>, AllocError>
    ensures { IfOk result (λ x. view_item x ≡ rules.function_of storage (specifiers_of (map view_specifier specs)) (statements_of (map view_statement statements)) (view_declarator declarator)) }
{
    match declarator.into_inner() {
        Declarator::Function(stars, name, params) => Boxed::new(
            alloc,
            Item::Function(Function {
                storage,
                specs,
                stars,
                name,
                params,
                body: Stmt::Block(statements),
            }),
        ),
        Declarator::Plain(_, _) | Declarator::Array(_, _, _) | Declarator::Pointer(_, _, _, _, _) =>
            Err(AllocError),
    }
}

/// A function, behind its declarator.
fn function(
    alloc: Global,
    types: &NameEnvironment<'_>,
    cursor: &mut Cursor<'_>,
    storage: Storage,
    specs: Specs,
    declarator: Boxed<Declarator>,
) -> Result<Boxed<Item>, Refusal>
    ensures { Gives view_item (perform (spec.function_by types.now storage (specifiers_of (map view_specifier specs)) (view_declarator declarator)) cursor.old) result cursor.new }
{
    cursor.take();
    let statements = body(alloc, types, cursor)?;
    Ok(function_of(alloc, storage, specs, statements, declarator)?)
}

/// The value, or the refusal where it may not be kept.
pub(crate) fn kept<T: Drop>(value: T, may: bool, refusal: Refusal) -> Result<T, Refusal>
    ensures { result ≡ if may then Ok value else Err refusal }
{
    if may { Ok(value) } else { Err(refusal) }
}

/// A function, behind its declarator. The scope is then the one behind it.
fn function_item(
    alloc: Global,
    scope: &mut Scope,
    cursor: &mut Cursor<'_>,
    storage: Storage,
    specs: Specs,
    declarator: Boxed<Declarator>,
) -> Result<Boxed<Item>, Refusal>
    ensures reads { Gives view_item (perform (spec.function_by (rules.only_types scope.old.types) storage (specifiers_of (map view_specifier specs)) (view_declarator declarator)) cursor.old) result cursor.new }
    ensures behind { IfOk result (λ x. scope.new ≡ behind_item (view_item x) scope.old) }
{
    let none = Names::new(alloc);
    let types = inner_types(scope, &none);
    let found = function(alloc, &types, cursor, storage, specs, declarator)?;
    let may = scope.behind_item(found.get()).is_ok();
    kept(found, may, Refusal::NoMemory)
}

/// A declaration, behind its first declarator. The scope is then the one behind it.
fn declaration(
    alloc: Global,
    scope: &mut Scope,
    cursor: &mut Cursor<'_>,
    storage: Storage,
    specs: Specs,
    declarator: Boxed<Declarator>,
) -> Result<Boxed<Item>, Refusal>
    ensures reads { Gives view_item (spec.declared storage (specifiers_of (map view_specifier specs)) (behind_specifiers (specifiers_of (map view_specifier specs)) scope.old) (view_declarator declarator) cursor.old) result cursor.new }
    ensures behind { IfOk result (λ x. scope.new ≡ behind_item (view_item x) scope.old) }
{
    scope.behind_specifiers(specs.as_slice())?;
    let may_begin = has_initializer(declarator.get());
    let none = Names::new(alloc);
    let types = inner_types(scope, &none);
    let first = named_init(alloc, &types, cursor, 3, may_begin, declarator)?;
    let names = names(alloc, scope, cursor, storage, first)?;
    Ok(item_of(alloc, storage, specs, names)?)
}

/// An item that is no typedef, behind its first declarator.
fn behind_declarator(
    alloc: Global,
    scope: &mut Scope,
    cursor: &mut Cursor<'_>,
    storage: Storage,
    specs: Specs,
    declarator: Boxed<Declarator>,
) -> Result<Boxed<Item>, Refusal>
    ensures reads { Gives view_item (perform (look [] (rules.item_by storage (specifiers_of (map view_specifier specs)) (behind_specifiers (specifiers_of (map view_specifier specs)) scope.old) (view_declarator declarator))) cursor.old) result cursor.new }
    ensures behind { IfOk result (λ x. scope.new ≡ behind_item (view_item x) scope.old) }
{
    match cursor.kind() {
        Kind::OpenBrace => {
            if is_function(declarator.get()) {
                function_item(alloc, scope, cursor, storage, specs, declarator)
            } else {
                Err(refused(cursor))
            }
        }
        _ => declaration(alloc, scope, cursor, storage, specs, declarator),
    }
}

/// An item that is no typedef and has names, behind its specifiers.
fn named(
    alloc: Global,
    scope: &mut Scope,
    cursor: &mut Cursor<'_>,
    storage: Storage,
    specs: Specs,
) -> Result<Boxed<Item>, Refusal>
    ensures reads { Gives view_item (perform (spec.named storage (specifiers_of (map view_specifier specs)) (behind_specifiers (specifiers_of (map view_specifier specs)) scope.old)) cursor.old) result cursor.new }
    ensures behind { IfOk result (λ x. scope.new ≡ behind_item (view_item x) scope.old) }
{
    if has_tag(specs.as_slice()) {
        spend(cursor, 1, 3)?;
    }
    let outer = cursor.enter(2);
    let none = Names::new(alloc);
    let types = inner_types(scope, &none);
    let found = first(alloc, &types, cursor)?;
    cursor.leave(outer);
    behind_declarator(alloc, scope, cursor, storage, specs, found)
}

/// A declaration without names, at its semicolon.
fn no_names(
    alloc: Global,
    cursor: &mut Cursor<'_>,
    storage: Storage,
    specs: Specs,
) -> Result<Boxed<Item>, Refusal>
    ensures { Gives view_item (perform (spec.no_names storage (specifiers_of (map view_specifier specs))) cursor.old) result cursor.new }
{
    if !has_tag(specs.as_slice()) {
        return Err(refused(cursor));
    }
    cursor.take();
    let names = Items::new(alloc);
    Ok(item_of(alloc, storage, specs, names)?)
}

/// The names of a typedef, in the scope behind its specifiers. Each is a type from the end of its declarator on.
fn type_names(
    alloc: Global,
    scope: &mut Scope,
    cursor: &mut Cursor<'_>,
    specs: Specs,
) -> Result<Boxed<Item>, Refusal>
    ensures reads { Gives view_item (perform (spec.type_names (specifiers_of (map view_specifier specs)) scope.old) cursor.old) result cursor.new }
    ensures behind { IfOk result (λ x. (s : shape.Scope) → scope.old ≡ behind_specifiers (specifiers_of (map view_specifier specs)) s → scope.new ≡ behind_item (view_item x) s) }
{
    let first = outer(alloc, scope, cursor, Storage::Typedef)?;
    let names = names(alloc, scope, cursor, Storage::Typedef, first)?;
    Ok(item_of(alloc, Storage::Typedef, specs, names)?)
}

/// The same where the first name is still to be counted.
fn counted_type_names(
    alloc: Global,
    scope: &mut Scope,
    cursor: &mut Cursor<'_>,
    specs: Specs,
) -> Result<Boxed<Item>, Refusal>
    ensures reads { Gives view_item (perform (spec.counted_type_names (specifiers_of (map view_specifier specs)) scope.old) cursor.old) result cursor.new }
    ensures behind { IfOk result (λ x. (s : shape.Scope) → scope.old ≡ behind_specifiers (specifiers_of (map view_specifier specs)) s → scope.new ≡ behind_item (view_item x) s) }
{
    spend(cursor, 1, 3)?;
    type_names(alloc, scope, cursor, specs)
}

/// A typedef, behind its specifiers.
fn type_item(
    alloc: Global,
    scope: &mut Scope,
    cursor: &mut Cursor<'_>,
    specs: Specs,
) -> Result<Boxed<Item>, Refusal>
    ensures reads { Gives view_item (perform (spec.behind_specifiers st.Typedef (specifiers_of (map view_specifier specs)) scope.old) cursor.old) result cursor.new }
    ensures behind { IfOk result (λ x. scope.new ≡ behind_item (view_item x) scope.old) }
{
    scope.behind_specifiers(specs.as_slice())?;
    let types = NameEnvironment::new(scope.types(), scope.others());
    match new_kind(&types, cursor) {
        Kind::Semicolon => no_names(alloc, cursor, Storage::Typedef, specs),
        other => {
            if !begins_declarator(other) {
                return Err(refused(cursor));
            }
            if has_tag(specs.as_slice()) {
                counted_type_names(alloc, scope, cursor, specs)
            } else {
                type_names(alloc, scope, cursor, specs)
            }
        }
    }
}

/// An item without names and no typedef, at its semicolon. The scope is then the one behind it.
fn unnamed(
    alloc: Global,
    scope: &mut Scope,
    cursor: &mut Cursor<'_>,
    storage: Storage,
    specs: Specs,
) -> Result<Boxed<Item>, Refusal>
    ensures reads { Gives view_item (perform (spec.no_names storage (specifiers_of (map view_specifier specs))) cursor.old) result cursor.new }
    ensures behind { IfOk result (λ x. scope.new ≡ behind_item (view_item x) scope.old) }
{
    scope.behind_specifiers(specs.as_slice())?;
    no_names(alloc, cursor, storage, specs)
}

/// An item that is no typedef, behind its specifiers.
fn other_item(
    alloc: Global,
    scope: &mut Scope,
    cursor: &mut Cursor<'_>,
    storage: Storage,
    specs: Specs,
) -> Result<Boxed<Item>, Refusal>
    requires { IsNoTypedef storage }
    ensures reads { Gives view_item (perform (spec.behind_specifiers storage (specifiers_of (map view_specifier specs)) scope.old) cursor.old) result cursor.new }
    ensures behind { IfOk result (λ x. scope.new ≡ behind_item (view_item x) scope.old) }
{
    let none = Names::new(alloc);
    let types = inner_types(scope, &none);
    match new_kind(&types, cursor) {
        Kind::Semicolon => unnamed(alloc, scope, cursor, storage, specs),
        other => {
            if !begins_declarator(other) {
                return Err(refused(cursor));
            }
            named(alloc, scope, cursor, storage, specs)
        }
    }
}

/// An item, behind its specifiers.
pub(crate) fn behind_specifiers(
    alloc: Global,
    scope: &mut Scope,
    cursor: &mut Cursor<'_>,
    storage: Storage,
    specs: Specs,
) -> Result<Boxed<Item>, Refusal>
    ensures reads { Gives view_item (perform (spec.behind_specifiers storage (specifiers_of (map view_specifier specs)) scope.old) cursor.old) result cursor.new }
    ensures behind { IfOk result (λ x. scope.new ≡ behind_item (view_item x) scope.old) }
{
    match storage {
        Storage::Typedef => type_item(alloc, scope, cursor, specs),
        Storage::Nothing => other_item(alloc, scope, cursor, Storage::Nothing, specs),
        Storage::Static => other_item(alloc, scope, cursor, Storage::Static, specs),
        Storage::Extern => other_item(alloc, scope, cursor, Storage::Extern, specs),
    }
}

//! Declarators.

ghost use Rattle.std.specs.Prelude.{◌≤◌, [], true, false, map, option_map};
ghost use Rattle.c_tree.specs.View.{view_expression, view_declarator, view_parameters, view_bare, sizes_of};
ghost use Rattle.c_grammar.specs.declared.kind.Kind.TheVariants as k;
ghost use Rattle.c_grammar.specs.Body.{look};
ghost use Rattle.c_grammar.specs.Performing.{perform};
ghost use Rattle.c_grammar.specs.Reading.{read};
ghost use Rattle.c_grammar.specs.Rules.{all_sizes, at_most_one_size, a_declarator, a_bare, a_new_name, declared_by, pointed};
ghost use Rattle.c_grammar.specs.Gives.{Gives};
ghost use Rattle.expression_parser.specs.Nests.{Nests};
ghost use Rattle.type_parser.specs.DeclaratorParts.{bracketed, behind_pointer, pointer_from, behind_bare, bare_pointer_from};

use crate::pointer::{quals, stars};
use base_core::Lexeme;
use c_grammar::steps::{expect, kind, new_kind, refused, word};
use c_grammar::{Cursor, Kind, NameEnvironment, Refusal, same_kind};
use c_tree::{Bare, Declarator, Expr, Params, Quals, Stars};
use expression_parser::grammar::{Found, Grammar, Nested};
use sqlite_items::{Boxed, Items};
use std::alloc::Global;

/// A size in its brackets, or the brackets alone.
fn bracketed<
    F: Fn(
        Global,
        &NameEnvironment<'_>,
        &mut Cursor<'_>,
        usize,
        u32,
        Nested,
    ) -> Result<Found, Refusal>,
>(grammar: &Grammar<'_, F>, cursor: &mut Cursor<'_>, d: u32) -> Result<Option<Expr>, Refusal>
    requires nests { Nests grammar.now.budget (F.pre grammar.now.read) (F.post grammar.now.read) }
    requires small { d ≤ 1001 }
    ensures { Gives (option_map view_expression) (perform (bracketed grammar.now.types.now d) cursor.old) result cursor.new }
{
    cursor.take();
    match kind(grammar.types, cursor) {
        Kind::CloseBracket => {
            cursor.take();
            Ok(None)
        }
        _ => {
            let size = grammar.expression(cursor, d, 3, 1)?;
            expect(cursor, Kind::CloseBracket)?;
            Ok(Some(size.into_inner()))
        }
    }
}

/// The sizes of an array.
pub fn sizes<
    F: Fn(
        Global,
        &NameEnvironment<'_>,
        &mut Cursor<'_>,
        usize,
        u32,
        Nested,
    ) -> Result<Found, Refusal>,
>(grammar: &Grammar<'_, F>, cursor: &mut Cursor<'_>, d: u32) -> Result<Items<Option<Expr>>, Refusal>
    requires nests { Nests grammar.now.budget (F.pre grammar.now.read) (F.post grammar.now.read) }
    requires small { d ≤ 1001 }
    ensures { Gives (λ xs. sizes_of (map (option_map view_expression) xs)) (read (all_sizes grammar.now.types.now d) cursor.old) result cursor.new }
{
    let mut found = Items::new(grammar.alloc);
    while same_kind(cursor.kind(), Kind::OpenBracket) {
        found.push(bracketed(grammar, cursor, d)?)?;
    }
    Ok(found)
}

/// The size of an array of pointers to functions, if there is one.
#[tactic(auto, using(crate::proofs::DeclaratorLists::one_begins, crate::proofs::DeclaratorLists::one_size_of))]
pub fn one_size<
    F: Fn(
        Global,
        &NameEnvironment<'_>,
        &mut Cursor<'_>,
        usize,
        u32,
        Nested,
    ) -> Result<Found, Refusal>,
>(grammar: &Grammar<'_, F>, cursor: &mut Cursor<'_>, d: u32) -> Result<Items<Option<Expr>>, Refusal>
    requires nests { Nests grammar.now.budget (F.pre grammar.now.read) (F.post grammar.now.read) }
    requires small { d ≤ 1001 }
    ensures { Gives (λ xs. sizes_of (map (option_map view_expression) xs)) (read (at_most_one_size grammar.now.types.now d) cursor.old) result cursor.new }
{
    match cursor.kind() {
        Kind::OpenBracket => {
            let size = bracketed(grammar, cursor, d)?;
            let mut found = Items::new(grammar.alloc);
            found.push(size)?;
            Ok(found)
        }
        _ => Ok(Items::new(grammar.alloc)),
    }
}

/// An array, behind its name.
#[tactic(auto, using(c_tree::proofs::ViewLemmas::view_Declarator_Array))]
fn array<
    F: Fn(
        Global,
        &NameEnvironment<'_>,
        &mut Cursor<'_>,
        usize,
        u32,
        Nested,
    ) -> Result<Found, Refusal>,
>(
    grammar: &Grammar<'_, F>,
    cursor: &mut Cursor<'_>,
    d: u32,
    stars: Stars,
    name: Lexeme,
) -> Result<Boxed<Declarator>, Refusal>
    requires nests { Nests grammar.now.budget (F.pre grammar.now.read) (F.post grammar.now.read) }
    requires small { d ≤ 1001 }
    ensures { Gives view_declarator (perform (declared_by grammar.now.types.now d false stars name k.OpenBracket) cursor.old) result cursor.new }
{
    let sizes = sizes(grammar, cursor, d)?;
    let found = Declarator::Array(stars, name, sizes);
    Ok(Boxed::new(grammar.alloc, found)?)
}

/// A function, behind its name.
#[tactic(auto, using(c_tree::proofs::ViewLemmas::view_Declarator_Function))]
fn function<
    F: Fn(
        Global,
        &NameEnvironment<'_>,
        &mut Cursor<'_>,
        usize,
        u32,
        Nested,
    ) -> Result<Found, Refusal>,
>(
    grammar: &Grammar<'_, F>,
    cursor: &mut Cursor<'_>,
    d: u32,
    stars: Stars,
    name: Lexeme,
) -> Result<Boxed<Declarator>, Refusal>
    requires nests { Nests grammar.now.budget (F.pre grammar.now.read) (F.post grammar.now.read) }
    requires small { d ≤ 1001 }
    ensures { Gives view_declarator (perform (declared_by grammar.now.types.now d true stars name k.OpenParen) cursor.old) result cursor.new }
{
    cursor.take();
    let params = grammar.parameters(cursor, d)?;
    let found = Declarator::Function(stars, name, params);
    Ok(Boxed::new(grammar.alloc, found)?)
}

/// Behind the stars and the name of a declarator.
#[tactic(auto, using(c_tree::proofs::ViewLemmas::view_Declarator_Plain))]
pub fn declared<
    F: Fn(
        Global,
        &NameEnvironment<'_>,
        &mut Cursor<'_>,
        usize,
        u32,
        Nested,
    ) -> Result<Found, Refusal>,
>(
    grammar: &Grammar<'_, F>,
    cursor: &mut Cursor<'_>,
    d: u32,
    may_be_function: bool,
    stars: Stars,
    name: Lexeme,
) -> Result<Boxed<Declarator>, Refusal>
    requires nests { Nests grammar.now.budget (F.pre grammar.now.read) (F.post grammar.now.read) }
    requires small { d ≤ 1001 }
    ensures { Gives view_declarator (perform (look [] (declared_by grammar.now.types.now d may_be_function stars name)) cursor.old) result cursor.new }
{
    match cursor.kind() {
        Kind::OpenBracket => array(grammar, cursor, d, stars, name),
        Kind::OpenParen => {
            if may_be_function {
                function(grammar, cursor, d, stars, name)
            } else {
                Ok(Boxed::new(grammar.alloc, Declarator::Plain(stars, name))?)
            }
        }
        _ => Ok(Boxed::new(grammar.alloc, Declarator::Plain(stars, name))?),
    }
}

/// Behind the name of a pointer to a function: the size, where it is an array of them, and the parameters.
fn behind_pointer<
    F: Fn(
        Global,
        &NameEnvironment<'_>,
        &mut Cursor<'_>,
        usize,
        u32,
        Nested,
    ) -> Result<Found, Refusal>,
>(
    grammar: &Grammar<'_, F>,
    cursor: &mut Cursor<'_>,
    d: u32,
) -> Result<(Items<Option<Expr>>, Params), Refusal>
    requires nests { Nests grammar.now.budget (F.pre grammar.now.read) (F.post grammar.now.read) }
    requires small { d ≤ 1001 }
    ensures { Gives (λ p. (sizes_of (map (option_map view_expression) p.0), view_parameters p.1)) (perform (behind_pointer grammar.now.types.now d) cursor.old) result cursor.new }
{
    let sizes = one_size(grammar, cursor, d)?;
    expect(cursor, Kind::CloseParen)?;
    expect(cursor, Kind::OpenParen)?;
    let params = grammar.parameters(cursor, d)?;
    Ok((sizes, params))
}

/// Behind the name of a pointer to a function, as a declarator.
#[tactic(auto, using(crate::proofs::PointerParts::pointed_joined, c_tree::proofs::ViewLemmas::view_Declarator_Pointer))]
pub fn pointed<
    F: Fn(
        Global,
        &NameEnvironment<'_>,
        &mut Cursor<'_>,
        usize,
        u32,
        Nested,
    ) -> Result<Found, Refusal>,
>(
    grammar: &Grammar<'_, F>,
    cursor: &mut Cursor<'_>,
    d: u32,
    stars: Stars,
    quals: Quals,
    name: Lexeme,
) -> Result<Boxed<Declarator>, Refusal>
    requires nests { Nests grammar.now.budget (F.pre grammar.now.read) (F.post grammar.now.read) }
    requires small { d ≤ 1001 }
    ensures { Gives view_declarator (perform (pointed grammar.now.types.now d stars quals name) cursor.old) result cursor.new }
{
    let (sizes, params) = behind_pointer(grammar, cursor, d)?;
    let found = Declarator::Pointer(stars, quals, name, sizes, params);
    Ok(Boxed::new(grammar.alloc, found)?)
}

/// Behind the star of a pointer to a function and its qualifiers: its name, and what follows.
fn named<
    F: Fn(
        Global,
        &NameEnvironment<'_>,
        &mut Cursor<'_>,
        usize,
        u32,
        Nested,
    ) -> Result<Found, Refusal>,
>(
    grammar: &Grammar<'_, F>,
    cursor: &mut Cursor<'_>,
    d: u32,
    stars: Stars,
    quals: Quals,
) -> Result<Boxed<Declarator>, Refusal>
    requires nests { Nests grammar.now.budget (F.pre grammar.now.read) (F.post grammar.now.read) }
    requires small { d ≤ 1001 }
    ensures { Gives view_declarator (perform (a_new_name grammar.now.types.now (pointed grammar.now.types.now d stars quals)) cursor.old) result cursor.new }
{
    match new_kind(grammar.types, cursor) {
        Kind::Name => {
            let name = word(grammar.alloc, cursor)?;
            pointed(grammar, cursor, d, stars, quals, name)
        }
        _ => Err(refused(cursor)),
    }
}

/// Behind the bracket of a pointer to a function.
pub fn pointer<
    F: Fn(
        Global,
        &NameEnvironment<'_>,
        &mut Cursor<'_>,
        usize,
        u32,
        Nested,
    ) -> Result<Found, Refusal>,
>(
    grammar: &Grammar<'_, F>,
    cursor: &mut Cursor<'_>,
    d: u32,
    stars: Stars,
) -> Result<Boxed<Declarator>, Refusal>
    requires nests { Nests grammar.now.budget (F.pre grammar.now.read) (F.post grammar.now.read) }
    requires small { d ≤ 1001 }
    ensures { Gives view_declarator (perform (pointer_from grammar.now.types.now d stars) cursor.old) result cursor.new }
{
    expect(cursor, Kind::Star)?;
    let quals = quals(grammar.alloc, cursor)?;
    named(grammar, cursor, d, stars, quals)
}

/// A declarator, perhaps of a function, and not of a type.
#[tactic(auto, using(c_grammar::proofs::Opens::declarator_performs))]
pub fn declarator<
    F: Fn(
        Global,
        &NameEnvironment<'_>,
        &mut Cursor<'_>,
        usize,
        u32,
        Nested,
    ) -> Result<Found, Refusal>,
>(
    grammar: &Grammar<'_, F>,
    cursor: &mut Cursor<'_>,
    d: u32,
    may_be_function: bool,
) -> Result<Boxed<Declarator>, Refusal>
    requires nests { Nests grammar.now.budget (F.pre grammar.now.read) (F.post grammar.now.read) }
    requires small { d ≤ 1001 }
    ensures { Gives view_declarator (read (a_declarator grammar.now.types.now d may_be_function false) cursor.old) result cursor.new }
{
    let stars = stars(grammar.alloc, cursor)?;
    match new_kind(grammar.types, cursor) {
        Kind::Name => {
            let name = word(grammar.alloc, cursor)?;
            declared(grammar, cursor, d, may_be_function, stars, name)
        }
        Kind::OpenParen => {
            cursor.take();
            pointer(grammar, cursor, d, stars)
        }
        _ => Err(refused(cursor)),
    }
}

/// Behind the bracket of a pointer to a function without a name: its qualifiers and its parameters.
fn behind_bare<
    F: Fn(
        Global,
        &NameEnvironment<'_>,
        &mut Cursor<'_>,
        usize,
        u32,
        Nested,
    ) -> Result<Found, Refusal>,
>(grammar: &Grammar<'_, F>, cursor: &mut Cursor<'_>, d: u32) -> Result<(Quals, Params), Refusal>
    requires nests { Nests grammar.now.budget (F.pre grammar.now.read) (F.post grammar.now.read) }
    requires small { d ≤ 1001 }
    ensures { Gives (λ p. (p.0, view_parameters p.1)) (perform (behind_bare grammar.now.types.now d) cursor.old) result cursor.new }
{
    expect(cursor, Kind::Star)?;
    let quals = quals(grammar.alloc, cursor)?;
    expect(cursor, Kind::CloseParen)?;
    expect(cursor, Kind::OpenParen)?;
    let params = grammar.parameters(cursor, d)?;
    Ok((quals, params))
}

/// Behind the bracket of a pointer to a function without a name.
#[tactic(auto, using(crate::proofs::PointerParts::bare_joined, c_tree::proofs::ViewLemmas::view_Bare_Pointer))]
fn bare_pointer<
    F: Fn(
        Global,
        &NameEnvironment<'_>,
        &mut Cursor<'_>,
        usize,
        u32,
        Nested,
    ) -> Result<Found, Refusal>,
>(grammar: &Grammar<'_, F>, cursor: &mut Cursor<'_>, d: u32, stars: Stars) -> Result<Bare, Refusal>
    requires nests { Nests grammar.now.budget (F.pre grammar.now.read) (F.post grammar.now.read) }
    requires small { d ≤ 1001 }
    ensures { Gives view_bare (perform (bare_pointer_from grammar.now.types.now d stars) cursor.old) result cursor.new }
{
    let (quals, params) = behind_bare(grammar, cursor, d)?;
    Ok(Bare::Pointer(stars, quals, params))
}

/// The stars of a type without a name, or a pointer to a function.
#[tactic(auto, using(c_grammar::proofs::Opens::bare_performs, c_tree::proofs::ViewLemmas::view_Bare_Plain))]
pub fn bare<
    F: Fn(
        Global,
        &NameEnvironment<'_>,
        &mut Cursor<'_>,
        usize,
        u32,
        Nested,
    ) -> Result<Found, Refusal>,
>(grammar: &Grammar<'_, F>, cursor: &mut Cursor<'_>, d: u32) -> Result<Bare, Refusal>
    requires nests { Nests grammar.now.budget (F.pre grammar.now.read) (F.post grammar.now.read) }
    requires small { d ≤ 1001 }
    ensures { Gives view_bare (read (a_bare grammar.now.types.now d) cursor.old) result cursor.new }
{
    let stars = stars(grammar.alloc, cursor)?;
    match cursor.kind() {
        Kind::OpenParen => {
            cursor.take();
            bare_pointer(grammar, cursor, d, stars)
        }
        _ => Ok(Bare::Plain(stars)),
    }
}

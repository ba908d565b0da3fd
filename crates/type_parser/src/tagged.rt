//! Structs and enums.

ghost use Rattle.std.specs.Prelude.{◌≡◌, ◌≤◌, [], map};
ghost use Rattle.c_tree.specs.Tree.{declarators};
ghost use Rattle.c_tree.specs.View.{view_specifier, view_declarator, view_enumerator, view_member, specifiers_of, members_of, declarators_of, enumerators_of};
ghost use Rattle.c_grammar.specs.declared.kind.Kind.TheVariants as k;
ghost use Rattle.c_grammar.specs.Body.{look};
ghost use Rattle.c_grammar.specs.Reading.{read};
ghost use Rattle.c_grammar.specs.Rules.{barred, a_struct, all_members, all_declarators, more_declarators, an_enum, all_enumerators, struct_body_by, enum_body_by};
ghost use Rattle.c_grammar.specs.Gives.{Gives};
ghost use Rattle.c_grammar.specs.Lists.{mapped};
ghost use Rattle.expression_parser.specs.Nests.{Nests};
ghost use Rattle.c_grammar.specs.Performing.{perform};
ghost use Rattle.type_parser.specs.Tagged.{struct_in, enum_in, one_member, behind_member_by, another_declarator, one_enumerator, valued_by, behind_enumerator_by, next_by};

use crate::declarator::declarator;
use crate::specifier::specifiers;
use base_core::Lexeme;
use c_grammar::steps::{expect, kind, new_kind, new_name, refused, spend, word};
use c_grammar::{Cursor, Kind, NameEnvironment, Refusal, same_kind};
use c_tree::{Declarator, Enumerator, Member, SpecWord, Specs};
use expression_parser::grammar::{Found, Grammar, Nested};
use expression_parser::infix::begins_type;
use sqlite_items::{Boxed, Items};
use std::alloc::Global;

/// The members of a struct in their braces, behind its tag if it has one.
#[tactic(auto, using(c_tree::proofs::ViewLemmas::view_SpecWord_Struct))]
fn struct_in<
    F: Fn(
        Global,
        &NameEnvironment<'_>,
        &mut Cursor<'_>,
        usize,
        u32,
        Nested,
    ) -> Result<Found, Refusal>,
>(
    grammar: &Grammar<'_, F>,
    cursor: &mut Cursor<'_>,
    d: u32,
    tag: Option<Lexeme>,
) -> Result<SpecWord, Refusal>
    requires nests { Nests grammar.now.budget (F.pre grammar.now.read) (F.post grammar.now.read) }
    requires small { d ≤ 1001 }
    ensures { Gives view_specifier (perform (struct_in grammar.now.types.now d tag) cursor.old) result cursor.new }
{
    spend(cursor, 1, d + 1)?;
    cursor.take();
    let members = grammar.members(cursor, d)?;
    Ok(SpecWord::Struct(tag, members))
}

/// A struct, behind its tag: its members, or the tag alone.
#[tactic(auto, using(c_tree::proofs::ViewLemmas::view_SpecWord_StructTag))]
fn struct_body<
    F: Fn(
        Global,
        &NameEnvironment<'_>,
        &mut Cursor<'_>,
        usize,
        u32,
        Nested,
    ) -> Result<Found, Refusal>,
>(
    grammar: &Grammar<'_, F>,
    cursor: &mut Cursor<'_>,
    d: u32,
    tag: Lexeme,
) -> Result<SpecWord, Refusal>
    requires nests { Nests grammar.now.budget (F.pre grammar.now.read) (F.post grammar.now.read) }
    requires small { d ≤ 1001 }
    ensures { Gives view_specifier (perform (look [] (struct_body_by grammar.now.types.now d tag)) cursor.old) result cursor.new }
{
    match cursor.kind() {
        Kind::OpenBrace => struct_in(grammar, cursor, d, Some(tag)),
        _ => Ok(SpecWord::StructTag(tag)),
    }
}

/// A struct, behind the word struct.
#[tactic(auto, using(c_grammar::proofs::Opens::struct_performs))]
pub fn structure<
    F: Fn(
        Global,
        &NameEnvironment<'_>,
        &mut Cursor<'_>,
        usize,
        u32,
        Nested,
    ) -> Result<Found, Refusal>,
>(grammar: &Grammar<'_, F>, cursor: &mut Cursor<'_>, d: u32) -> Result<SpecWord, Refusal>
    requires nests { Nests grammar.now.budget (F.pre grammar.now.read) (F.post grammar.now.read) }
    requires small { d ≤ 1001 }
    ensures { Gives view_specifier (read (a_struct grammar.now.types.now d) cursor.old) result cursor.new }
{
    match cursor.kind() {
        Kind::Name => {
            let tag = word(grammar.alloc, cursor)?;
            struct_body(grammar, cursor, d, tag)
        }
        Kind::OpenBrace => struct_in(grammar, cursor, d, None),
        _ => Err(refused(cursor)),
    }
}

/// Behind the semicolon of a member: the closing brace, or another member begins.
#[tactic(auto, using(c_tree::proofs::ViewLemmas::view_Member))]
fn behind_member(
    types: &NameEnvironment<'_>,
    cursor: &mut Cursor<'_>,
    d: u32,
    specs: Specs,
    names: Items<Declarator>,
) -> Result<(Member, bool), Refusal>
    requires small { d ≤ 1001 }
    ensures { Gives (λ p. (view_member p.0, p.1)) (perform (look types.now.types (behind_member_by types.now d (specifiers_of (map view_specifier specs), declarators_of (map view_declarator names)))) cursor.old) result cursor.new }
{
    match kind(types, cursor) {
        Kind::CloseBrace => {
            cursor.take();
            Ok((Member { specs, names }, true))
        }
        other => {
            if !begins_type(other) {
                return Err(refused(cursor));
            }
            spend(cursor, 1, d + 1)?;
            Ok((Member { specs, names }, false))
        }
    }
}

/// One member, and whether it is the last.
fn member<
    F: Fn(
        Global,
        &NameEnvironment<'_>,
        &mut Cursor<'_>,
        usize,
        u32,
        Nested,
    ) -> Result<Found, Refusal>,
>(grammar: &Grammar<'_, F>, cursor: &mut Cursor<'_>, d: u32) -> Result<(Member, bool), Refusal>
    requires nests { Nests grammar.now.budget (F.pre grammar.now.read) (F.post grammar.now.read) }
    requires small { d ≤ 1000 }
    ensures { Gives (λ p. (view_member p.0, p.1)) (perform (one_member grammar.now.types.now d) cursor.old) result cursor.new }
{
    let specs = specifiers(grammar, cursor, d, false)?;
    let names = declarators(grammar, cursor, d)?;
    expect(cursor, Kind::Semicolon)?;
    behind_member(grammar.types, cursor, d, specs, names)
}

/// The members of a struct, with the closing brace. The brace before them was within the limits, so that `d` is below 1000
/// and the first refusal never comes.
pub fn all_members<
    F: Fn(
        Global,
        &NameEnvironment<'_>,
        &mut Cursor<'_>,
        usize,
        u32,
        Nested,
    ) -> Result<Found, Refusal>,
>(grammar: &Grammar<'_, F>, cursor: &mut Cursor<'_>, d: u32) -> Result<Items<Member>, Refusal>
    requires nests { Nests grammar.now.budget (F.pre grammar.now.read) (F.post grammar.now.read) }
    requires small { d ≤ 1001 }
    ensures { Gives (λ ms. members_of (map view_member ms)) (read (all_members grammar.now.types.now d) cursor.old) result cursor.new }
{
    if d > 1000 {
        return Err(Refusal::NoMemory);
    }
    let mut found = Items::new(grammar.alloc);
    loop {
        let (next, last) = member(grammar, cursor, d)?;
        found.push(next)?;
        if last {
            return Ok(found);
        }
    }
}

/// One more declarator of a member, behind a comma.
fn another_declarator<
    F: Fn(
        Global,
        &NameEnvironment<'_>,
        &mut Cursor<'_>,
        usize,
        u32,
        Nested,
    ) -> Result<Found, Refusal>,
>(grammar: &Grammar<'_, F>, cursor: &mut Cursor<'_>, d: u32) -> Result<Boxed<Declarator>, Refusal>
    requires nests { Nests grammar.now.budget (F.pre grammar.now.read) (F.post grammar.now.read) }
    requires small { d ≤ 1001 }
    ensures { Gives view_declarator (perform (another_declarator grammar.now.types.now d) cursor.old) result cursor.new }
{
    spend(cursor, 1, d + 1)?;
    cursor.take();
    declarator(grammar, cursor, d + 1, false)
}

/// The declarators of a member, behind the first.
fn more_declarators<
    F: Fn(
        Global,
        &NameEnvironment<'_>,
        &mut Cursor<'_>,
        usize,
        u32,
        Nested,
    ) -> Result<Found, Refusal>,
>(
    grammar: &Grammar<'_, F>,
    cursor: &mut Cursor<'_>,
    d: u32,
    first: Boxed<Declarator>,
) -> Result<Items<Declarator>, Refusal>
    requires nests { Nests grammar.now.budget (F.pre grammar.now.read) (F.post grammar.now.read) }
    requires small { d ≤ 1001 }
    ensures { Gives (λ cs. declarators_of (map view_declarator cs)) (mapped (declarators (view_declarator first)) (read (more_declarators grammar.now.types.now d) cursor.old)) result cursor.new }
{
    let mut found = Items::new(grammar.alloc);
    found.push(first.into_inner())?;
    while same_kind(cursor.kind(), Kind::Comma) {
        let next = another_declarator(grammar, cursor, d)?;
        found.push(next.into_inner())?;
    }
    Ok(found)
}

/// The declarators of a member.
#[tactic(auto, using(c_grammar::proofs::Opens::declarators_performs))]
fn declarators<
    F: Fn(
        Global,
        &NameEnvironment<'_>,
        &mut Cursor<'_>,
        usize,
        u32,
        Nested,
    ) -> Result<Found, Refusal>,
>(grammar: &Grammar<'_, F>, cursor: &mut Cursor<'_>, d: u32) -> Result<Items<Declarator>, Refusal>
    requires nests { Nests grammar.now.budget (F.pre grammar.now.read) (F.post grammar.now.read) }
    requires small { d ≤ 1000 }
    ensures { Gives (λ cs. declarators_of (map view_declarator cs)) (read (all_declarators grammar.now.types.now d) cursor.old) result cursor.new }
{
    let first = declarator(grammar, cursor, d + 1, false)?;
    let found = more_declarators(grammar, cursor, d, first)?;
    Ok(found)
}

/// The enumerators in their braces, behind the tag of the enum if it has one.
#[tactic(auto, using(c_tree::proofs::ViewLemmas::view_SpecWord_Enum))]
fn enum_in<
    F: Fn(
        Global,
        &NameEnvironment<'_>,
        &mut Cursor<'_>,
        usize,
        u32,
        Nested,
    ) -> Result<Found, Refusal>,
>(
    grammar: &Grammar<'_, F>,
    cursor: &mut Cursor<'_>,
    d: u32,
    tag: Option<Lexeme>,
) -> Result<SpecWord, Refusal>
    requires nests { Nests grammar.now.budget (F.pre grammar.now.read) (F.post grammar.now.read) }
    requires small { d ≤ 1001 }
    ensures { Gives view_specifier (perform (enum_in grammar.now.types.now d tag) cursor.old) result cursor.new }
{
    spend(cursor, 1, d + 1)?;
    cursor.take();
    let (found, comma) = enumerators(grammar, cursor, d)?;
    Ok(SpecWord::Enum(tag, found, comma))
}

/// An enum, behind its tag: its enumerators, or the tag alone.
#[tactic(auto, using(c_tree::proofs::ViewLemmas::view_SpecWord_EnumTag))]
fn enum_body<
    F: Fn(
        Global,
        &NameEnvironment<'_>,
        &mut Cursor<'_>,
        usize,
        u32,
        Nested,
    ) -> Result<Found, Refusal>,
>(
    grammar: &Grammar<'_, F>,
    cursor: &mut Cursor<'_>,
    d: u32,
    tag: Lexeme,
) -> Result<SpecWord, Refusal>
    requires nests { Nests grammar.now.budget (F.pre grammar.now.read) (F.post grammar.now.read) }
    requires small { d ≤ 1001 }
    ensures { Gives view_specifier (perform (look [] (enum_body_by grammar.now.types.now d tag)) cursor.old) result cursor.new }
{
    match cursor.kind() {
        Kind::OpenBrace => enum_in(grammar, cursor, d, Some(tag)),
        _ => Ok(SpecWord::EnumTag(tag)),
    }
}

/// An enum, behind the word enum.
#[tactic(auto, using(c_grammar::proofs::Opens::enum_performs))]
pub fn enumeration<
    F: Fn(
        Global,
        &NameEnvironment<'_>,
        &mut Cursor<'_>,
        usize,
        u32,
        Nested,
    ) -> Result<Found, Refusal>,
>(grammar: &Grammar<'_, F>, cursor: &mut Cursor<'_>, d: u32) -> Result<SpecWord, Refusal>
    requires nests { Nests grammar.now.budget (F.pre grammar.now.read) (F.post grammar.now.read) }
    requires small { d ≤ 1001 }
    ensures { Gives view_specifier (read (an_enum grammar.now.types.now d) cursor.old) result cursor.new }
{
    match cursor.kind() {
        Kind::Name => {
            let tag = word(grammar.alloc, cursor)?;
            enum_body(grammar, cursor, d, tag)
        }
        Kind::OpenBrace => enum_in(grammar, cursor, d, None),
        _ => Err(refused(cursor)),
    }
}

/// Behind the comma of an enumerator: the closing brace, or another enumerator begins.
fn behind_comma(
    types: &NameEnvironment<'_>,
    cursor: &mut Cursor<'_>,
    d: u32,
    found: Boxed<Enumerator>,
) -> Result<(Boxed<Enumerator>, Option<bool>), Refusal>
    requires small { d ≤ 1001 }
    ensures { Gives (λ p. (view_enumerator p.0, p.1)) (perform (look (barred types.now) (next_by types.now d (view_enumerator found))) cursor.old) result cursor.new }
{
    match new_kind(types, cursor) {
        Kind::CloseBrace => {
            cursor.take();
            Ok((found, Some(true)))
        }
        Kind::Name => {
            spend(cursor, 1, d + 1)?;
            Ok((found, None))
        }
        _ => Err(refused(cursor)),
    }
}

/// Behind an enumerator: the closing brace, or a comma.
fn behind_enumerator(
    types: &NameEnvironment<'_>,
    cursor: &mut Cursor<'_>,
    d: u32,
    found: Boxed<Enumerator>,
) -> Result<(Boxed<Enumerator>, Option<bool>), Refusal>
    requires small { d ≤ 1001 }
    ensures { Gives (λ p. (view_enumerator p.0, p.1)) (perform (look [] (behind_enumerator_by types.now d (view_enumerator found))) cursor.old) result cursor.new }
{
    match cursor.kind() {
        Kind::CloseBrace => {
            cursor.take();
            Ok((found, Some(false)))
        }
        Kind::Comma => {
            cursor.take();
            behind_comma(types, cursor, d, found)
        }
        _ => Err(refused(cursor)),
    }
}

/// An enumerator with a value, behind its name.
#[tactic(auto, using(c_tree::proofs::ViewLemmas::view_Enumerator))]
fn with_value<
    F: Fn(
        Global,
        &NameEnvironment<'_>,
        &mut Cursor<'_>,
        usize,
        u32,
        Nested,
    ) -> Result<Found, Refusal>,
>(
    grammar: &Grammar<'_, F>,
    cursor: &mut Cursor<'_>,
    d: u32,
    name: Lexeme,
) -> Result<(Boxed<Enumerator>, Option<bool>), Refusal>
    requires nests { Nests grammar.now.budget (F.pre grammar.now.read) (F.post grammar.now.read) }
    requires small { d ≤ 1001 }
    ensures { Gives (λ p. (view_enumerator p.0, p.1)) (perform (valued_by grammar.now.types.now d name k.Assign) cursor.old) result cursor.new }
{
    spend(cursor, 1, d + 2)?;
    cursor.take();
    let value = grammar.expression(cursor, d + 1, 3, 0)?;
    let value = Some(value.into_inner());
    let found = Boxed::new(grammar.alloc, Enumerator { name, value })?;
    behind_enumerator(grammar.types, cursor, d, found)
}

/// An enumerator, behind its name: its value if it has one, and what stands behind it.
#[tactic(auto, using(c_tree::proofs::ViewLemmas::view_Enumerator))]
fn value<
    F: Fn(
        Global,
        &NameEnvironment<'_>,
        &mut Cursor<'_>,
        usize,
        u32,
        Nested,
    ) -> Result<Found, Refusal>,
>(
    grammar: &Grammar<'_, F>,
    cursor: &mut Cursor<'_>,
    d: u32,
    name: Lexeme,
) -> Result<(Boxed<Enumerator>, Option<bool>), Refusal>
    requires nests { Nests grammar.now.budget (F.pre grammar.now.read) (F.post grammar.now.read) }
    requires small { d ≤ 1001 }
    ensures { Gives (λ p. (view_enumerator p.0, p.1)) (perform (look [] (valued_by grammar.now.types.now d name)) cursor.old) result cursor.new }
{
    match cursor.kind() {
        Kind::Assign => with_value(grammar, cursor, d, name),
        _ => {
            let value = None;
            let found = Boxed::new(grammar.alloc, Enumerator { name, value })?;
            behind_enumerator(grammar.types, cursor, d, found)
        }
    }
}

/// One enumerator, and where it is the last whether a comma stands behind it.
fn enumerator<
    F: Fn(
        Global,
        &NameEnvironment<'_>,
        &mut Cursor<'_>,
        usize,
        u32,
        Nested,
    ) -> Result<Found, Refusal>,
>(
    grammar: &Grammar<'_, F>,
    cursor: &mut Cursor<'_>,
    d: u32,
) -> Result<(Boxed<Enumerator>, Option<bool>), Refusal>
    requires nests { Nests grammar.now.budget (F.pre grammar.now.read) (F.post grammar.now.read) }
    requires small { d ≤ 1001 }
    ensures { Gives (λ p. (view_enumerator p.0, p.1)) (perform (one_enumerator grammar.now.types.now d) cursor.old) result cursor.new }
{
    let name = new_name(grammar.alloc, grammar.types, cursor)?;
    value(grammar, cursor, d, name)
}

/// The enumerators, with the closing brace, and whether a comma stands before it.
fn enumerators<
    F: Fn(
        Global,
        &NameEnvironment<'_>,
        &mut Cursor<'_>,
        usize,
        u32,
        Nested,
    ) -> Result<Found, Refusal>,
>(
    grammar: &Grammar<'_, F>,
    cursor: &mut Cursor<'_>,
    d: u32,
) -> Result<(Items<Enumerator>, bool), Refusal>
    requires nests { Nests grammar.now.budget (F.pre grammar.now.read) (F.post grammar.now.read) }
    requires small { d ≤ 1001 }
    ensures { Gives (λ p. (enumerators_of (map view_enumerator p.0), p.1)) (read (all_enumerators grammar.now.types.now d) cursor.old) result cursor.new }
{
    let mut found = Items::new(grammar.alloc);
    loop {
        let (next, last) = enumerator(grammar, cursor, d)?;
        found.push(next.into_inner())?;
        match last {
            Some(comma) => return Ok((found, comma)),
            None => {}
        }
    }
}

//! Types and the specifiers of declarations.

ghost use Rattle.std.specs.Prelude.{◌≡◌, ◌≤◌, [], map};
ghost use Rattle.c_tree.specs.View.{view_specifier, view_type, specifiers_of};
ghost use Rattle.c_grammar.specs.Reading.{read};
ghost use Rattle.c_grammar.specs.Rules.{a_type, all_specifiers};
ghost use Rattle.c_grammar.specs.Gives.{Gives};
ghost use Rattle.expression_parser.specs.Nests.{Nests};
ghost use Rattle.c_grammar.specs.Performing.{perform};
ghost use Rattle.type_parser.specs.SpecifierWords.{a_specifier};

use crate::declarator::bare;
use crate::tagged::{enumeration, structure};
use crate::words::{Words, keyword, qualifier, stays};
use c_grammar::steps::{kind, refused, spend, word};
use c_grammar::{Cursor, NameEnvironment, Refusal, Start};
use c_tree::{SpecWord, Specs, TypeName};
use expression_parser::grammar::{Found, Grammar, Nested};
use sqlite_items::{Boxed, Items};
use std::alloc::Global;

/// The type that a cast or sizeof names.
#[tactic(auto, using(c_grammar::proofs::Opens::type_performs, c_tree::proofs::ViewLemmas::view_TypeName))]
pub fn type_name<
    F: Fn(
        Global,
        &NameEnvironment<'_>,
        &mut Cursor<'_>,
        usize,
        u32,
        Nested,
    ) -> Result<Found, Refusal>,
>(grammar: &Grammar<'_, F>, cursor: &mut Cursor<'_>, d: u32) -> Result<Boxed<TypeName>, Refusal>
    requires nests { Nests grammar.now.budget (F.pre grammar.now.read) (F.post grammar.now.read) }
    requires small { d ≤ 1001 }
    ensures { Gives view_type (read (a_type grammar.now.types.now d) cursor.old) result cursor.new }
{
    let specs = specifiers(grammar, cursor, d, false)?;
    let bare = bare(grammar, cursor, d)?;
    Ok(Boxed::new(grammar.alloc, TypeName { specs, bare })?)
}

/// The specifiers of one type. A name may have to follow them, unless they have a struct or an enum.
pub fn specifiers<
    F: Fn(
        Global,
        &NameEnvironment<'_>,
        &mut Cursor<'_>,
        usize,
        u32,
        Nested,
    ) -> Result<Found, Refusal>,
>(grammar: &Grammar<'_, F>, cursor: &mut Cursor<'_>, d: u32, named: bool) -> Result<Specs, Refusal>
    requires nests { Nests grammar.now.budget (F.pre grammar.now.read) (F.post grammar.now.read) }
    requires small { d ≤ 1001 }
    ensures { Gives (λ ws. specifiers_of (map view_specifier ws)) (read (all_specifiers grammar.now.types.now d named []) cursor.old) result cursor.new }
{
    let mut words = Words::new(grammar.alloc);
    more_specifiers(grammar, cursor, d, named, &mut words)
}

/// The specifiers that go on with these words of one type.
fn more_specifiers<
    F: Fn(
        Global,
        &NameEnvironment<'_>,
        &mut Cursor<'_>,
        usize,
        u32,
        Nested,
    ) -> Result<Found, Refusal>,
>(
    grammar: &Grammar<'_, F>,
    cursor: &mut Cursor<'_>,
    d: u32,
    named: bool,
    words: &mut Words,
) -> Result<Specs, Refusal>
    requires nests { Nests grammar.now.budget (F.pre grammar.now.read) (F.post grammar.now.read) }
    requires small { d ≤ 1001 }
    ensures { Gives (λ ws. specifiers_of (map view_specifier ws)) (read (all_specifiers grammar.now.types.now d named words.old) cursor.old) result cursor.new }
{
    let mut found = Items::new(grammar.alloc);
    let mut owing = named;
    while let Some(start) = words.follow(kind(grammar.types, cursor))? {
        found.push(specifier(grammar, cursor, d, owing, start)?)?;
        owing = stays(owing, start);
    }
    if words.is_whole() {
        Ok(found)
    } else {
        Err(refused(cursor))
    }
}

/// One specifier. The first word of a type that is neither a struct nor an enum makes the name necessary that has to follow.
#[tactic(auto, using(c_tree::proofs::ViewLemmas::view_SpecWord_TypeName))]
fn specifier<
    F: Fn(
        Global,
        &NameEnvironment<'_>,
        &mut Cursor<'_>,
        usize,
        u32,
        Nested,
    ) -> Result<Found, Refusal>,
>(
    grammar: &Grammar<'_, F>,
    cursor: &mut Cursor<'_>,
    d: u32,
    owing: bool,
    start: Start,
) -> Result<SpecWord, Refusal>
    requires nests { Nests grammar.now.budget (F.pre grammar.now.read) (F.post grammar.now.read) }
    requires small { d ≤ 1001 }
    ensures { Gives view_specifier (perform (a_specifier grammar.now.types.now d owing start) cursor.old) result cursor.new }
{
    match start {
        Start::Qualifier(found) => {
            cursor.take();
            Ok(qualifier(found))
        }
        Start::Keyword(found) => {
            if owing {
                spend(cursor, 1, d + 1)?;
            }
            cursor.take();
            Ok(keyword(found))
        }
        Start::TypeName => {
            if owing {
                spend(cursor, 1, d + 1)?;
            }
            let name = word(grammar.alloc, cursor)?;
            Ok(SpecWord::TypeName(name))
        }
        Start::Struct => {
            cursor.take();
            structure(grammar, cursor, d)
        }
        Start::Enum => {
            cursor.take();
            enumeration(grammar, cursor, d)
        }
    }
}

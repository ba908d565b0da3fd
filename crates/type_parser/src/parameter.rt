//! Parameters of functions.

ghost use Rattle.std.specs.Prelude.{◌≡◌, ◌≤◌, false, map};
ghost use Rattle.c_tree.specs.Tree.{no_parameters};
ghost use Rattle.c_tree.specs.View.{view_declarator, view_parameter, view_parameters, view_form, view_specifier, specifiers_of, parameters_of};
ghost use Rattle.c_grammar.specs.declared.kind.Kind.TheVariants as k;
ghost use Rattle.c_grammar.specs.Body.{look};
ghost use Rattle.c_grammar.specs.Reading.{read};
ghost use Rattle.c_grammar.specs.Rules as rules;
ghost use Rattle.c_grammar.specs.Gives.{Gives};
ghost use Rattle.c_grammar.specs.Lists.{mapped};
ghost use Rattle.expression_parser.specs.Nests.{Nests};
ghost use Rattle.c_grammar.specs.Performing.{perform};
ghost use Rattle.type_parser.specs.ParameterList as spec;

use crate::declarator::{declared, pointed};
use crate::pointer::{quals, stars};
use crate::specifier::specifiers;
use c_grammar::steps::{expect, kind, new_kind, refused, rise, spend, word};
use c_grammar::{Cursor, Kind, NameEnvironment, Refusal, same_kind};
use c_tree::{Bare, Declarator, ParamForm, Parameter, Params, Quals, SpecWord, Specs, Stars};
use expression_parser::grammar::{Found, Grammar, Nested};
use sqlite_items::{Boxed, Items};
use std::alloc::Global;

/// Whether it is the word void.
#[tactic(auto, using(c_tree::proofs::ViewLemmas::view_SpecWord_Const, c_tree::proofs::ViewLemmas::view_SpecWord_Volatile, c_tree::proofs::ViewLemmas::view_SpecWord_Void, c_tree::proofs::ViewLemmas::view_SpecWord_Char, c_tree::proofs::ViewLemmas::view_SpecWord_Short, c_tree::proofs::ViewLemmas::view_SpecWord_Int, c_tree::proofs::ViewLemmas::view_SpecWord_Long, c_tree::proofs::ViewLemmas::view_SpecWord_Signed, c_tree::proofs::ViewLemmas::view_SpecWord_Unsigned, c_tree::proofs::ViewLemmas::view_SpecWord_TypeName, c_tree::proofs::ViewLemmas::view_SpecWord_StructTag, c_tree::proofs::ViewLemmas::view_SpecWord_Struct, c_tree::proofs::ViewLemmas::view_SpecWord_EnumTag, c_tree::proofs::ViewLemmas::view_SpecWord_Enum))]
fn is_void_word(word: &SpecWord) -> bool
    ensures { result ≡ spec.is_void_word (view_specifier word.now) }
{
    match word {
        SpecWord::Void => true,
        SpecWord::Const
        | SpecWord::Volatile
        | SpecWord::Char
        | SpecWord::Short
        | SpecWord::Int
        | SpecWord::Long
        | SpecWord::Signed
        | SpecWord::Unsigned
        | SpecWord::TypeName(_)
        | SpecWord::StructTag(_)
        | SpecWord::Struct(_, _)
        | SpecWord::EnumTag(_)
        | SpecWord::Enum(_, _, _) => false,
    }
}

/// Whether it has neither a name nor stars.
#[tactic(auto, using(c_tree::proofs::ViewLemmas::view_ParamForm_Named, c_tree::proofs::ViewLemmas::view_ParamForm_Bare, c_tree::proofs::ViewLemmas::view_Bare_Plain, c_tree::proofs::ViewLemmas::view_Bare_Pointer))]
fn is_plain(form: &ParamForm) -> bool
    ensures { result ≡ spec.is_plain (view_form form.now) }
{
    match form {
        ParamForm::Bare(Bare::Plain(stars)) => stars.is_empty(),
        ParamForm::Bare(Bare::Pointer(_, _, _)) => false,
        ParamForm::Named(_) => false,
    }
}

/// Whether the parameter is the word void alone.
#[tactic(auto, using(c_tree::proofs::ViewLemmas::view_Parameter))]
fn is_void(parameter: &Parameter) -> bool
    ensures { result ≡ spec.is_void (view_parameter parameter.now) }
{
    match parameter.specs.as_slice() {
        [only] => is_void_word(only) && is_plain(&parameter.form),
        [] => false,
        [_, _, ..] => false,
    }
}

/// Whether they are the one parameter that is the word void.
fn is_one_void(parameters: &[Parameter]) -> bool
    ensures { result ≡ spec.is_one_void (map view_parameter parameters.now) }
{
    match parameters {
        [only] => is_void(only),
        [] => false,
        [_, _, ..] => false,
    }
}

/// The parameters; the one word void is the empty list.
#[tactic(auto, using(c_tree::proofs::ViewLemmas::view_Params, crate::proofs::ParameterLists::void_alone, crate::proofs::ParameterLists::not_void_alone))]
fn listed(alloc: Global, found: Items<Parameter>) -> Params
    ensures { view_parameters result ≡ spec.listed (map view_parameter found) }
{
    if is_one_void(found.as_slice()) {
        Params {
            items: Items::new(alloc),
            word: true,
        }
    } else {
        Params {
            items: found,
            word: false,
        }
    }
}

/// No parameters, in empty brackets.
#[tactic(auto, using(c_tree::proofs::ViewLemmas::view_Params))]
fn no_parameters(alloc: Global) -> Params
    ensures { view_parameters result ≡ (no_parameters, false) }
{
    Params {
        items: Items::new(alloc),
        word: false,
    }
}

/// The parameters of a function, with the closing bracket.
#[tactic(auto, using(c_grammar::proofs::Opens::parameters_performs))]
pub fn all_parameters<
    F: Fn(
        Global,
        &NameEnvironment<'_>,
        &mut Cursor<'_>,
        usize,
        u32,
        Nested,
    ) -> Result<Found, Refusal>,
>(grammar: &Grammar<'_, F>, cursor: &mut Cursor<'_>, d: u32) -> Result<Params, Refusal>
    requires nests { Nests grammar.now.budget (F.pre grammar.now.read) (F.post grammar.now.read) }
    requires small { d ≤ 1001 }
    ensures { Gives view_parameters (read (rules.all_parameters grammar.now.types.now d) cursor.old) result cursor.new }
{
    match kind(grammar.types, cursor) {
        Kind::CloseParen => {
            cursor.take();
            Ok(no_parameters(grammar.alloc))
        }
        _ => {
            let found = some_parameters(grammar, cursor, d)?;
            Ok(listed(grammar.alloc, found))
        }
    }
}

/// At least one parameter, with the closing bracket.
#[tactic(auto, using(crate::proofs::ParameterLists::parameters_begin))]
fn some_parameters<
    F: Fn(
        Global,
        &NameEnvironment<'_>,
        &mut Cursor<'_>,
        usize,
        u32,
        Nested,
    ) -> Result<Found, Refusal>,
>(grammar: &Grammar<'_, F>, cursor: &mut Cursor<'_>, d: u32) -> Result<Items<Parameter>, Refusal>
    requires nests { Nests grammar.now.budget (F.pre grammar.now.read) (F.post grammar.now.read) }
    requires small { d ≤ 1001 }
    ensures { Gives (λ xs. parameters_of (map view_parameter xs)) (read (rules.some_parameters grammar.now.types.now d) cursor.old) result cursor.new }
{
    let first = one_parameter(grammar, cursor, d)?;
    let found = more_parameters(grammar, cursor, d, first)?;
    Ok(found)
}

/// Parameters, behind the first, with the closing bracket.
fn more_parameters<
    F: Fn(
        Global,
        &NameEnvironment<'_>,
        &mut Cursor<'_>,
        usize,
        u32,
        Nested,
    ) -> Result<Found, Refusal>,
>(
    grammar: &Grammar<'_, F>,
    cursor: &mut Cursor<'_>,
    d: u32,
    first: Parameter,
) -> Result<Items<Parameter>, Refusal>
    requires nests { Nests grammar.now.budget (F.pre grammar.now.read) (F.post grammar.now.read) }
    requires small { d ≤ 1001 }
    ensures { Gives (λ xs. parameters_of (map view_parameter xs)) (mapped (spec.with_parameter (view_parameter first)) (read (rules.more_parameters grammar.now.types.now d) cursor.old)) result cursor.new }
{
    let mut found = Items::new(grammar.alloc);
    found.push(first)?;
    while same_kind(cursor.kind(), Kind::Comma) {
        found.push(another_parameter(grammar, cursor, d)?)?;
    }
    expect(cursor, Kind::CloseParen)?;
    Ok(found)
}

/// One more parameter, behind a comma.
fn another_parameter<
    F: Fn(
        Global,
        &NameEnvironment<'_>,
        &mut Cursor<'_>,
        usize,
        u32,
        Nested,
    ) -> Result<Found, Refusal>,
>(grammar: &Grammar<'_, F>, cursor: &mut Cursor<'_>, d: u32) -> Result<Parameter, Refusal>
    requires nests { Nests grammar.now.budget (F.pre grammar.now.read) (F.post grammar.now.read) }
    requires small { d ≤ 1001 }
    ensures { Gives view_parameter (perform (spec.another_parameter grammar.now.types.now d) cursor.old) result cursor.new }
{
    cursor.take();
    one_parameter(grammar, cursor, d)
}

/// One parameter, in its own scope.
fn one_parameter<
    F: Fn(
        Global,
        &NameEnvironment<'_>,
        &mut Cursor<'_>,
        usize,
        u32,
        Nested,
    ) -> Result<Found, Refusal>,
>(grammar: &Grammar<'_, F>, cursor: &mut Cursor<'_>, d: u32) -> Result<Parameter, Refusal>
    requires nests { Nests grammar.now.budget (F.pre grammar.now.read) (F.post grammar.now.read) }
    requires small { d ≤ 1001 }
    ensures { Gives view_parameter (perform (spec.one_parameter grammar.now.types.now d) cursor.old) result cursor.new }
{
    let outer = cursor.enter(d);
    let found = parameter(grammar, cursor, d)?;
    cursor.leave(outer);
    Ok(found)
}

/// A parameter, with a name or without.
#[tactic(auto, using(c_grammar::proofs::Opens::parameter_performs))]
fn parameter<
    F: Fn(
        Global,
        &NameEnvironment<'_>,
        &mut Cursor<'_>,
        usize,
        u32,
        Nested,
    ) -> Result<Found, Refusal>,
>(grammar: &Grammar<'_, F>, cursor: &mut Cursor<'_>, d: u32) -> Result<Parameter, Refusal>
    requires nests { Nests grammar.now.budget (F.pre grammar.now.read) (F.post grammar.now.read) }
    requires small { d ≤ 1001 }
    ensures { Gives view_parameter (read (rules.a_parameter grammar.now.types.now d) cursor.old) result cursor.new }
{
    let specs = specifiers(grammar, cursor, d, false)?;
    let stars = stars(grammar.alloc, cursor)?;
    formed(grammar, cursor, d, specs, stars)
}

/// The parameter of a declarator that was read, or the refusal.
#[tactic(auto, using(c_tree::proofs::ViewLemmas::view_Parameter, c_tree::proofs::ViewLemmas::view_ParamForm_Named))]
fn declaring(specs: Specs, found: Result<Boxed<Declarator>, Refusal>) -> Result<Parameter, Refusal>
    ensures { spec.Declaring specs found result }
{
    Ok(Parameter {
        specs,
        form: ParamForm::Named(found?.into_inner()),
    })
}

/// A parameter behind its stars.
#[tactic(auto, using(crate::proofs::PointerParts::name_gives, c_tree::proofs::ViewLemmas::view_Parameter, c_tree::proofs::ViewLemmas::view_ParamForm_Bare, c_tree::proofs::ViewLemmas::view_Bare_Plain))]
fn formed<
    F: Fn(
        Global,
        &NameEnvironment<'_>,
        &mut Cursor<'_>,
        usize,
        u32,
        Nested,
    ) -> Result<Found, Refusal>,
>(
    grammar: &Grammar<'_, F>,
    cursor: &mut Cursor<'_>,
    d: u32,
    specs: Specs,
    stars: Stars,
) -> Result<Parameter, Refusal>
    requires nests { Nests grammar.now.budget (F.pre grammar.now.read) (F.post grammar.now.read) }
    requires small { d ≤ 1001 }
    ensures { Gives view_parameter (perform (look (rules.barred grammar.now.types.now) (rules.parameter_by grammar.now.types.now d (specifiers_of (map view_specifier specs)) stars)) cursor.old) result cursor.new }
{
    match new_kind(grammar.types, cursor) {
        Kind::Name => declaring(specs, named(grammar, cursor, d, stars)),
        Kind::OpenParen => {
            cursor.take();
            inner(grammar, cursor, d, specs, stars)
        }
        _ => Ok(Parameter {
            specs,
            form: ParamForm::Bare(Bare::Plain(stars)),
        }),
    }
}

/// The declarator of a parameter, at its name, which lies one node deeper than the parameter.
fn named<
    F: Fn(
        Global,
        &NameEnvironment<'_>,
        &mut Cursor<'_>,
        usize,
        u32,
        Nested,
    ) -> Result<Found, Refusal>,
>(
    grammar: &Grammar<'_, F>,
    cursor: &mut Cursor<'_>,
    d: u32,
    stars: Stars,
) -> Result<Boxed<Declarator>, Refusal>
    requires nests { Nests grammar.now.budget (F.pre grammar.now.read) (F.post grammar.now.read) }
    requires small { d ≤ 1001 }
    ensures { Gives view_declarator (perform (spec.named grammar.now.types.now d stars) cursor.old) result cursor.new }
{
    rise(cursor)?;
    spend(cursor, 1, d + 1)?;
    let name = word(grammar.alloc, cursor)?;
    declared(grammar, cursor, d + 1, false, stars, name)
}

/// A parameter behind the bracket of a pointer to a function.
#[tactic(auto, using(crate::proofs::PointerParts::pointer_gives))]
fn inner<
    F: Fn(
        Global,
        &NameEnvironment<'_>,
        &mut Cursor<'_>,
        usize,
        u32,
        Nested,
    ) -> Result<Found, Refusal>,
>(
    grammar: &Grammar<'_, F>,
    cursor: &mut Cursor<'_>,
    d: u32,
    specs: Specs,
    stars: Stars,
) -> Result<Parameter, Refusal>
    requires nests { Nests grammar.now.budget (F.pre grammar.now.read) (F.post grammar.now.read) }
    requires small { d ≤ 1001 }
    ensures { Gives view_parameter (perform (spec.inner_by grammar.now.types.now d (specifiers_of (map view_specifier specs)) stars) cursor.old) result cursor.new }
{
    expect(cursor, Kind::Star)?;
    let quals = quals(grammar.alloc, cursor)?;
    match new_kind(grammar.types, cursor) {
        Kind::Name => declaring(specs, named_pointer(grammar, cursor, d, stars, quals)),
        Kind::CloseParen => bare_pointer(grammar, cursor, d, specs, stars, quals),
        _ => Err(refused(cursor)),
    }
}

/// A pointer to a function, at its name.
fn named_pointer<
    F: Fn(
        Global,
        &NameEnvironment<'_>,
        &mut Cursor<'_>,
        usize,
        u32,
        Nested,
    ) -> Result<Found, Refusal>,
>(
    grammar: &Grammar<'_, F>,
    cursor: &mut Cursor<'_>,
    d: u32,
    stars: Stars,
    quals: Quals,
) -> Result<Boxed<Declarator>, Refusal>
    requires nests { Nests grammar.now.budget (F.pre grammar.now.read) (F.post grammar.now.read) }
    requires small { d ≤ 1001 }
    ensures { Gives view_declarator (perform (spec.named_pointer grammar.now.types.now d stars quals) cursor.old) result cursor.new }
{
    rise(cursor)?;
    spend(cursor, 1, d + 1)?;
    let name = word(grammar.alloc, cursor)?;
    pointed(grammar, cursor, d + 1, stars, quals, name)
}

/// The parameters of a pointer to a function without a name, at the bracket behind its star.
fn behind_pointer<
    F: Fn(
        Global,
        &NameEnvironment<'_>,
        &mut Cursor<'_>,
        usize,
        u32,
        Nested,
    ) -> Result<Found, Refusal>,
>(grammar: &Grammar<'_, F>, cursor: &mut Cursor<'_>, d: u32) -> Result<Params, Refusal>
    requires nests { Nests grammar.now.budget (F.pre grammar.now.read) (F.post grammar.now.read) }
    requires small { d ≤ 1001 }
    ensures { Gives view_parameters (perform (spec.behind_pointer grammar.now.types.now d) cursor.old) result cursor.new }
{
    cursor.take();
    expect(cursor, Kind::OpenParen)?;
    grammar.parameters(cursor, d)
}

/// A pointer to a function without a name, at the bracket behind its star.
#[tactic(auto, using(crate::proofs::PointerParts::bare_parameter_joined, c_tree::proofs::ViewLemmas::view_Parameter, c_tree::proofs::ViewLemmas::view_ParamForm_Bare, c_tree::proofs::ViewLemmas::view_Bare_Pointer))]
fn bare_pointer<
    F: Fn(
        Global,
        &NameEnvironment<'_>,
        &mut Cursor<'_>,
        usize,
        u32,
        Nested,
    ) -> Result<Found, Refusal>,
>(
    grammar: &Grammar<'_, F>,
    cursor: &mut Cursor<'_>,
    d: u32,
    specs: Specs,
    stars: Stars,
    quals: Quals,
) -> Result<Parameter, Refusal>
    requires nests { Nests grammar.now.budget (F.pre grammar.now.read) (F.post grammar.now.read) }
    requires small { d ≤ 1001 }
    ensures { Gives view_parameter (perform (rules.parameter_pointer_by grammar.now.types.now d (specifiers_of (map view_specifier specs)) stars quals k.CloseParen) cursor.old) result cursor.new }
{
    let params = behind_pointer(grammar, cursor, d)?;
    Ok(Parameter {
        specs,
        form: ParamForm::Bare(Bare::Pointer(stars, quals, params)),
    })
}

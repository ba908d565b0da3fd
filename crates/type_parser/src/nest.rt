//! What nests, with the knot that closes it, and its entries for the rules above.

ghost use Rattle.std.specs.Prelude.{◌≡◌, ◌≤◌, ◌∷◌, true, false, map, option_map, [], IfOk};
ghost use Rattle.c_tree.specs.View.{view_expression, view_specifier, view_declarator, view_parameters, specifiers_of, sizes_of};
ghost use Rattle.c_grammar.specs.Body.{look};
ghost use Rattle.c_grammar.specs.Performing.{perform};
ghost use Rattle.c_grammar.specs.Reading.{read};
ghost use Rattle.c_grammar.specs.Rules.{an_expression, a_rest, all_specifiers, a_declarator, all_sizes, all_parameters, a_new_name, declared_by, inside};
ghost use Rattle.c_grammar.specs.Gives.{Gives};
ghost use Rattle.expression_parser.specs.Nests.{Finds, IsSmall};
ghost use Rattle.type_parser.specs.DeclaratorParts.{pointer_from, type_pointed, type_pointer_from};

use crate::pointer::{quals, stars};
use crate::{declarator, parameter, specifier, tagged};
use base_core::Lexeme;
use c_grammar::steps::{expect, new_kind, refused, word};
use c_grammar::{Cursor, Kind, NameEnvironment, Names, Refusal};
use c_tree::{Declarator, Expr, Params, Quals, Specs, Stars};
use expression_parser::grammar::{Found, Grammar, Nested};
use sqlite_items::{Boxed, Items};
use std::alloc::{AllocError, Global};

/// How often what nests may nest. The limits of a program stop it long before.
const MAX_NESTING: usize = 10_000;

/// Reads what nests. Where it nests too often, there is no memory for it.
fn nested(
    alloc: Global,
    types: &NameEnvironment<'_>,
    cursor: &mut Cursor<'_>,
    budget: usize,
    d: u32,
    what: Nested,
) -> Result<Found, Refusal>
    requires small { IsSmall d what }
    ensures { Finds types.now d what cursor.old result cursor.new }
{
    if budget == 0 {
        return Err(Refusal::NoMemory);
    }
    let grammar = Grammar {
        alloc,
        types,
        budget: budget - 1,
        read: nested,
    };
    Ok(match what {
        Nested::Expression { least, owed } => {
            Found::Expression(grammar.level(cursor, d, least, owed)?)
        }
        Nested::TypeName => Found::TypeName(specifier::type_name(&grammar, cursor, d)?),
        Nested::Members => Found::Members(tagged::all_members(&grammar, cursor, d)?),
        Nested::Parameters => Found::Parameters(parameter::all_parameters(&grammar, cursor, d)?),
    })
}

/// An expression of at least this level, whose first token makes so many nodes necessary besides its own.
pub fn expression(
    alloc: Global,
    types: &NameEnvironment<'_>,
    cursor: &mut Cursor<'_>,
    d: u32,
    least: u8,
    owed: u32,
) -> Result<Boxed<Expr>, Refusal>
    requires depth { d ≤ 1001 }
    requires few { owed ≤ 1000 }
    ensures { Gives view_expression (read (an_expression types.now d least owed) cursor.old) result cursor.new }
{
    Grammar {
        alloc,
        types,
        budget: MAX_NESTING,
        read: nested,
    }
    .level(cursor, d, least, owed)
}

/// How an expression of at least this level goes on behind `x`.
pub fn rest(
    alloc: Global,
    types: &NameEnvironment<'_>,
    cursor: &mut Cursor<'_>,
    d: u32,
    least: u8,
    x: Boxed<Expr>,
) -> Result<Boxed<Expr>, Refusal>
    requires { d ≤ 1001 }
    ensures { Gives view_expression (read (a_rest types.now d least (view_expression x)) cursor.old) result cursor.new }
{
    Grammar {
        alloc,
        types,
        budget: MAX_NESTING,
        read: nested,
    }
    .rest(cursor, d, least, x)
}

/// The specifiers of one type. A name may have to follow them, unless they have a struct or an enum.
pub fn specifiers(
    alloc: Global,
    types: &NameEnvironment<'_>,
    cursor: &mut Cursor<'_>,
    d: u32,
    named: bool,
) -> Result<Specs, Refusal>
    requires { d ≤ 1001 }
    ensures { Gives (λ ws. specifiers_of (map view_specifier ws)) (read (all_specifiers types.now d named []) cursor.old) result cursor.new }
{
    let grammar = Grammar {
        alloc,
        types,
        budget: MAX_NESTING,
        read: nested,
    };
    specifier::specifiers(&grammar, cursor, d, named)
}

/// A declarator, perhaps of a function, and not of a type.
pub fn declarator(
    alloc: Global,
    types: &NameEnvironment<'_>,
    cursor: &mut Cursor<'_>,
    d: u32,
    may_be_function: bool,
) -> Result<Boxed<Declarator>, Refusal>
    requires { d ≤ 1001 }
    ensures { Gives view_declarator (read (a_declarator types.now d may_be_function false) cursor.old) result cursor.new }
{
    let grammar = Grammar {
        alloc,
        types,
        budget: MAX_NESTING,
        read: nested,
    };
    declarator::declarator(&grammar, cursor, d, may_be_function)
}

/// Behind the bracket of a pointer to a function.
pub fn pointer(
    alloc: Global,
    types: &NameEnvironment<'_>,
    cursor: &mut Cursor<'_>,
    d: u32,
    stars: Stars,
) -> Result<Boxed<Declarator>, Refusal>
    requires { d ≤ 1001 }
    ensures { Gives view_declarator (perform (pointer_from types.now d stars) cursor.old) result cursor.new }
{
    let grammar = Grammar {
        alloc,
        types,
        budget: MAX_NESTING,
        read: nested,
    };
    declarator::pointer(&grammar, cursor, d, stars)
}

/// The sizes of an array.
pub fn sizes(
    alloc: Global,
    types: &NameEnvironment<'_>,
    cursor: &mut Cursor<'_>,
    d: u32,
) -> Result<Items<Option<Expr>>, Refusal>
    requires { d ≤ 1001 }
    ensures { Gives (λ xs. sizes_of (map (option_map view_expression) xs)) (read (all_sizes types.now d) cursor.old) result cursor.new }
{
    let grammar = Grammar {
        alloc,
        types,
        budget: MAX_NESTING,
        read: nested,
    };
    declarator::sizes(&grammar, cursor, d)
}

/// This name alone.
fn own_name(alloc: Global, name: &Lexeme) -> Result<Names, AllocError>
    ensures { IfOk result (λ names. names ≡ name.now ∷ []) }
{
    let mut own = Names::new(alloc);
    own.add(name.as_bytes())?;
    Ok(own)
}

/// The declarator of a type, behind its stars and its name, which its sizes and parameters may not declare.
fn type_declared(
    alloc: Global,
    types: &NameEnvironment<'_>,
    cursor: &mut Cursor<'_>,
    d: u32,
    stars: Stars,
    name: Lexeme,
) -> Result<Boxed<Declarator>, Refusal>
    requires { d ≤ 1001 }
    ensures { Gives view_declarator (perform (look [] (declared_by (inside true name types.now) d true stars name)) cursor.old) result cursor.new }
{
    let own = own_name(alloc, &name)?;
    let inside = NameEnvironment::new(types.types(), &own);
    let grammar = Grammar {
        alloc,
        types: &inside,
        budget: MAX_NESTING,
        read: nested,
    };
    declarator::declared(&grammar, cursor, d, true, stars, name)
}

/// The same of a pointer to a function.
fn type_pointed(
    alloc: Global,
    types: &NameEnvironment<'_>,
    cursor: &mut Cursor<'_>,
    d: u32,
    stars: Stars,
    quals: Quals,
    name: Lexeme,
) -> Result<Boxed<Declarator>, Refusal>
    requires { d ≤ 1001 }
    ensures { Gives view_declarator (perform (type_pointed types.now d stars quals name) cursor.old) result cursor.new }
{
    let own = own_name(alloc, &name)?;
    let inside = NameEnvironment::new(types.types(), &own);
    let grammar = Grammar {
        alloc,
        types: &inside,
        budget: MAX_NESTING,
        read: nested,
    };
    declarator::pointed(&grammar, cursor, d, stars, quals, name)
}

/// The declarator of a type that is a pointer to a function, behind the star and its qualifiers.
fn type_named(
    alloc: Global,
    types: &NameEnvironment<'_>,
    cursor: &mut Cursor<'_>,
    d: u32,
    stars: Stars,
    quals: Quals,
) -> Result<Boxed<Declarator>, Refusal>
    requires { d ≤ 1001 }
    ensures { Gives view_declarator (perform (a_new_name types.now (type_pointed types.now d stars quals)) cursor.old) result cursor.new }
{
    match new_kind(types, cursor) {
        Kind::Name => {
            let name = word(alloc, cursor)?;
            type_pointed(alloc, types, cursor, d, stars, quals, name)
        }
        _ => Err(refused(cursor)),
    }
}

/// The declarator of a type that is a pointer to a function, behind the bracket.
fn type_pointer(
    alloc: Global,
    types: &NameEnvironment<'_>,
    cursor: &mut Cursor<'_>,
    d: u32,
    stars: Stars,
) -> Result<Boxed<Declarator>, Refusal>
    requires { d ≤ 1001 }
    ensures { Gives view_declarator (perform (type_pointer_from types.now d stars) cursor.old) result cursor.new }
{
    expect(cursor, Kind::Star)?;
    let quals = quals(alloc, cursor)?;
    type_named(alloc, types, cursor, d, stars, quals)
}

/// The declarator of a type, perhaps of functions.
#[tactic(auto, using(c_grammar::proofs::Opens::declarator_performs))]
pub fn type_declarator(
    alloc: Global,
    types: &NameEnvironment<'_>,
    cursor: &mut Cursor<'_>,
    d: u32,
) -> Result<Boxed<Declarator>, Refusal>
    requires { d ≤ 1001 }
    ensures { Gives view_declarator (read (a_declarator types.now d true true) cursor.old) result cursor.new }
{
    let stars = stars(alloc, cursor)?;
    match new_kind(types, cursor) {
        Kind::Name => {
            let name = word(alloc, cursor)?;
            type_declared(alloc, types, cursor, d, stars, name)
        }
        Kind::OpenParen => {
            cursor.take();
            type_pointer(alloc, types, cursor, d, stars)
        }
        _ => Err(refused(cursor)),
    }
}

/// The parameters of a function, with the closing bracket.
pub fn parameters(
    alloc: Global,
    types: &NameEnvironment<'_>,
    cursor: &mut Cursor<'_>,
    d: u32,
) -> Result<Params, Refusal>
    requires { d ≤ 1001 }
    ensures { Gives view_parameters (read (all_parameters types.now d) cursor.old) result cursor.new }
{
    let grammar = Grammar {
        alloc,
        types,
        budget: MAX_NESTING,
        read: nested,
    };
    parameter::all_parameters(&grammar, cursor, d)
}

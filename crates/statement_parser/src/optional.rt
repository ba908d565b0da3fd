//! Expressions that may be left out, and what a for begins with.

ghost use Rattle.std.specs.Prelude.{◌≡◌, ◌≤◌, option_map};
ghost use Rattle.c_tree.specs.View.{view_expression};
ghost use Rattle.c_tree.specs.StatementView.{view_start};
ghost use Rattle.c_grammar.specs.Kind.{IsReal};
ghost use Rattle.c_grammar.specs.Reading.{read};
ghost use Rattle.c_grammar.specs.Rules as rules;
ghost use Rattle.c_grammar.specs.Rules.{an_optional, a_start};
ghost use Rattle.c_grammar.specs.Gives.{Gives};

use crate::local::declaration;
use c_grammar::steps::{expect, kind, spend};
use c_grammar::{Cursor, Kind, NameEnvironment, Refusal, same_kind};
use c_tree::{Expr, ForStart};
use expression_parser::infix::begins_type;
use sqlite_items::Boxed;
use std::alloc::Global;
use type_parser::nest::expression;

/// Whether a declaration inside a function begins with a token of this kind.
pub fn begins_declaration(kind: Kind) -> bool
    ensures { result ≡ rules.begins_declaration kind }
{
    match kind {
        Kind::Static | Kind::Extern => true,
        _ => begins_type(kind),
    }
}

/// An expression and a token of this kind, or the token alone.
#[tactic(auto, using(c_grammar::proofs::Opens::optional_performs))]
pub fn optional(
    alloc: Global,
    types: &NameEnvironment<'_>,
    cursor: &mut Cursor<'_>,
    d: u32,
    end: Kind,
) -> Result<Option<Boxed<Expr>>, Refusal>
    requires small { d ≤ 1001 }
    requires real { IsReal end }
    ensures { Gives (option_map view_expression) (read (an_optional types.now d end) cursor.old) result cursor.new }
{
    if same_kind(cursor.kind(), end) {
        cursor.take();
        return Ok(None);
    }
    let found = expression(alloc, types, cursor, d, 1, 1)?;
    expect(cursor, end)?;
    Ok(Some(found))
}

/// The expression outside its box.
pub fn unboxed(e: Option<Boxed<Expr>>) -> Option<Expr>
    ensures { result ≡ e }
{
    match e {
        Some(found) => Some(found.into_inner()),
        None => None,
    }
}

/// What a for begins with, with its semicolon.
#[tactic(auto, using(c_grammar::proofs::Opens::start_performs))]
pub fn start(
    alloc: Global,
    types: &NameEnvironment<'_>,
    cursor: &mut Cursor<'_>,
    d: u32,
) -> Result<Boxed<ForStart>, Refusal>
    requires { d ≤ 1001 }
    ensures { Gives view_start (read (a_start types.now d) cursor.old) result cursor.new }
{
    if begins_declaration(kind(types, cursor)) {
        spend(cursor, 1, d + 1)?;
        let found = declaration(alloc, types, cursor, d + 1)?;
        Ok(Boxed::new(alloc, ForStart::Decl(found))?)
    } else {
        let found = optional(alloc, types, cursor, d, Kind::Semicolon)?;
        Ok(Boxed::new(alloc, ForStart::Expr(unboxed(found)))?)
    }
}

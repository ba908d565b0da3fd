//! Statements that hold no others.

ghost use Rattle.std.specs.Prelude.{◌≡◌, ◌≤◌, []};
ghost use Rattle.c_tree.specs.Shape.{outside};
ghost use Rattle.c_tree.specs.StatementView.{view_statement};
ghost use Rattle.c_grammar.specs.declared.kind.Kind.TheVariants as k;
ghost use Rattle.c_grammar.specs.Body.{look};
ghost use Rattle.c_grammar.specs.Performing.{perform};
ghost use Rattle.c_grammar.specs.Rules as rules;
ghost use Rattle.c_grammar.specs.Rules.{statement_by, labelled_by};
ghost use Rattle.c_grammar.specs.Gives.{Gives};
ghost use Rattle.statement_parser.specs.Parts as parts;

use crate::context::Context;
use crate::local::declaration;
use crate::optional::{optional, unboxed};
use base_core::Lexeme;
use c_grammar::steps::{expect, name, refused, spend, word};
use c_grammar::{Cursor, Kind, NameEnvironment, Refusal};
use c_tree::{Expr, Stmt};
use expression_parser::infix::infix_behind;
use sqlite_items::Boxed;
use std::alloc::Global;
use type_parser::nest::{expression, rest};

/// An expression and its semicolon.
#[tactic(auto, using(c_tree::proofs::StatementViewLemmas::view_Stmt_Expr))]
pub fn expressed(
    alloc: Global,
    types: &NameEnvironment<'_>,
    cursor: &mut Cursor<'_>,
    d: u32,
    owed: u32,
) -> Result<Boxed<Stmt>, Refusal>
    requires small { d ≤ 1000 }
    requires few { owed ≤ 999 }
    ensures { Gives view_statement (perform (rules.expressed types.now d owed) cursor.old) result cursor.new }
{
    let found = expression(alloc, types, cursor, d + 1, 1, owed + 1)?;
    expect(cursor, Kind::Semicolon)?;
    Ok(Boxed::new(alloc, Stmt::Expr(Some(found.into_inner())))?)
}

/// An expression and its semicolon, behind the name that it begins with.
#[tactic(auto, using(c_tree::proofs::ViewLemmas::view_Expr_Name, c_tree::proofs::StatementViewLemmas::view_Stmt_Expr))]
fn named_expression(
    alloc: Global,
    types: &NameEnvironment<'_>,
    cursor: &mut Cursor<'_>,
    d: u32,
    name: Lexeme,
) -> Result<Boxed<Stmt>, Refusal>
    requires small { d ≤ 1000 }
    ensures { Gives view_statement (perform (parts.named_expression types.now d name) cursor.old) result cursor.new }
{
    spend(cursor, 1, d + 2)?;
    let first = Boxed::new(alloc, Expr::Name(name))?;
    let outer = cursor.enter(d + 2);
    let found = rest(alloc, types, cursor, d + 1, 1, first)?;
    cursor.leave(outer);
    expect(cursor, Kind::Semicolon)?;
    Ok(Boxed::new(alloc, Stmt::Expr(Some(found.into_inner())))?)
}

/// Whether a statement that begins with a name as an expression goes on with a token of this kind.
fn follows_name(kind: Kind) -> bool
    ensures { result ≡ rules.follows_name kind }
{
    match kind {
        Kind::Semicolon => true,
        _ => infix_behind(1, kind, 17).is_some(),
    }
}

/// Behind a name that begins a statement in a block: its colon where it is a label, or an expression goes on.
#[tactic(auto, using(c_tree::proofs::StatementViewLemmas::view_Stmt_Label))]
fn labelled(
    alloc: Global,
    types: &NameEnvironment<'_>,
    cursor: &mut Cursor<'_>,
    d: u32,
    name: Lexeme,
) -> Result<Boxed<Stmt>, Refusal>
    requires small { d ≤ 1000 }
    ensures { Gives view_statement (perform (look [] (labelled_by types.now d name)) cursor.old) result cursor.new }
{
    match cursor.kind() {
        Kind::Colon => {
            cursor.take();
            Ok(Boxed::new(alloc, Stmt::Label(name))?)
        }
        other => {
            if follows_name(other) {
                named_expression(alloc, types, cursor, d, name)
            } else {
                Err(refused(cursor))
            }
        }
    }
}

/// A statement that begins with a name: directly in a block perhaps a label.
pub fn named(
    alloc: Global,
    types: &NameEnvironment<'_>,
    cursor: &mut Cursor<'_>,
    d: u32,
    context: Context,
    owed: u32,
) -> Result<Boxed<Stmt>, Refusal>
    requires small { d ≤ 1000 }
    requires few { owed ≤ 999 }
    ensures { Gives view_statement (perform (parts.plain_by types.now d context owed k.Name) cursor.old) result cursor.new }
{
    if !context.in_block {
        return expressed(alloc, types, cursor, d, owed);
    }
    spend(cursor, owed, d + 1)?;
    let name = word(alloc, cursor)?;
    labelled(alloc, types, cursor, d, name)
}

/// A declaration, which stands directly in a block.
#[tactic(auto, using(c_tree::proofs::StatementViewLemmas::view_Stmt_Decl))]
pub fn declared(
    alloc: Global,
    types: &NameEnvironment<'_>,
    cursor: &mut Cursor<'_>,
    d: u32,
    context: Context,
    owed: u32,
) -> Result<Boxed<Stmt>, Refusal>
    requires small { d ≤ 1000 }
    ensures { Gives view_statement (perform (parts.declared types.now d context owed) cursor.old) result cursor.new }
{
    if !context.in_block {
        return Err(refused(cursor));
    }
    spend(cursor, owed, d + 1)?;
    let found = declaration(alloc, types, cursor, d + 1)?;
    Ok(Boxed::new(alloc, Stmt::Decl(found))?)
}

/// A semicolon alone.
#[tactic(auto, using(c_tree::proofs::StatementViewLemmas::view_Stmt_Expr))]
pub fn empty(
    alloc: Global,
    types: &NameEnvironment<'_>,
    cursor: &mut Cursor<'_>,
    d: u32,
    owed: u32,
) -> Result<Boxed<Stmt>, Refusal>
    requires small { d ≤ 1000 }
    ensures { Gives view_statement (perform (statement_by types.now d outside owed k.Semicolon) cursor.old) result cursor.new }
{
    spend(cursor, owed, d + 1)?;
    cursor.take();
    Ok(Boxed::new(alloc, Stmt::Expr(None))?)
}

/// A case of a switch.
#[tactic(auto, using(c_tree::proofs::StatementViewLemmas::view_Stmt_Case))]
pub fn case(
    alloc: Global,
    types: &NameEnvironment<'_>,
    cursor: &mut Cursor<'_>,
    d: u32,
    context: Context,
    owed: u32,
) -> Result<Boxed<Stmt>, Refusal>
    requires small { d ≤ 1000 }
    requires few { owed ≤ 999 }
    ensures { Gives view_statement (perform (statement_by types.now d context owed k.Case) cursor.old) result cursor.new }
{
    if !context.in_cases {
        return Err(refused(cursor));
    }
    spend(cursor, owed + 1, d + 2)?;
    cursor.take();
    let value = expression(alloc, types, cursor, d + 1, 3, 0)?;
    expect(cursor, Kind::Colon)?;
    Ok(Boxed::new(alloc, Stmt::Case(value.into_inner()))?)
}

/// The default of a switch.
#[tactic(auto, using(c_tree::proofs::StatementViewLemmas::view_Stmt_Default))]
pub fn default(
    alloc: Global,
    types: &NameEnvironment<'_>,
    cursor: &mut Cursor<'_>,
    d: u32,
    context: Context,
    owed: u32,
) -> Result<Boxed<Stmt>, Refusal>
    requires small { d ≤ 1000 }
    ensures { Gives view_statement (perform (statement_by types.now d context owed k.Default) cursor.old) result cursor.new }
{
    if !context.in_cases {
        return Err(refused(cursor));
    }
    spend(cursor, owed, d + 1)?;
    cursor.take();
    expect(cursor, Kind::Colon)?;
    Ok(Boxed::new(alloc, Stmt::Default)?)
}

/// A break, which stands in a loop or a switch.
#[tactic(auto, using(c_tree::proofs::StatementViewLemmas::view_Stmt_Break))]
pub fn break_out(
    alloc: Global,
    types: &NameEnvironment<'_>,
    cursor: &mut Cursor<'_>,
    d: u32,
    context: Context,
    owed: u32,
) -> Result<Boxed<Stmt>, Refusal>
    requires small { d ≤ 1000 }
    ensures { Gives view_statement (perform (statement_by types.now d context owed k.Break) cursor.old) result cursor.new }
{
    if !(context.in_loop || context.in_switch) {
        return Err(refused(cursor));
    }
    spend(cursor, owed, d + 1)?;
    cursor.take();
    expect(cursor, Kind::Semicolon)?;
    Ok(Boxed::new(alloc, Stmt::Break)?)
}

/// A continue, which stands in a loop.
#[tactic(auto, using(c_tree::proofs::StatementViewLemmas::view_Stmt_Continue))]
pub fn continue_on(
    alloc: Global,
    types: &NameEnvironment<'_>,
    cursor: &mut Cursor<'_>,
    d: u32,
    context: Context,
    owed: u32,
) -> Result<Boxed<Stmt>, Refusal>
    requires small { d ≤ 1000 }
    ensures { Gives view_statement (perform (statement_by types.now d context owed k.Continue) cursor.old) result cursor.new }
{
    if !context.in_loop {
        return Err(refused(cursor));
    }
    spend(cursor, owed, d + 1)?;
    cursor.take();
    expect(cursor, Kind::Semicolon)?;
    Ok(Boxed::new(alloc, Stmt::Continue)?)
}

/// A return, with a value or without.
#[tactic(auto, using(c_tree::proofs::StatementViewLemmas::view_Stmt_Return))]
pub fn return_back(
    alloc: Global,
    types: &NameEnvironment<'_>,
    cursor: &mut Cursor<'_>,
    d: u32,
    owed: u32,
) -> Result<Boxed<Stmt>, Refusal>
    requires small { d ≤ 1000 }
    ensures { Gives view_statement (perform (statement_by types.now d outside owed k.Return) cursor.old) result cursor.new }
{
    spend(cursor, owed, d + 1)?;
    cursor.take();
    let value = optional(alloc, types, cursor, d + 1, Kind::Semicolon)?;
    Ok(Boxed::new(alloc, Stmt::Return(unboxed(value)))?)
}

/// A goto.
#[tactic(auto, using(c_tree::proofs::StatementViewLemmas::view_Stmt_Goto))]
pub fn go_to(
    alloc: Global,
    types: &NameEnvironment<'_>,
    cursor: &mut Cursor<'_>,
    d: u32,
    owed: u32,
) -> Result<Boxed<Stmt>, Refusal>
    requires small { d ≤ 1000 }
    ensures { Gives view_statement (perform (statement_by types.now d outside owed k.Goto) cursor.old) result cursor.new }
{
    spend(cursor, owed, d + 1)?;
    cursor.take();
    let label = name(alloc, types, cursor)?;
    expect(cursor, Kind::Semicolon)?;
    Ok(Boxed::new(alloc, Stmt::Goto(label))?)
}

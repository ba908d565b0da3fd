//! Walks over initialisers, statements and items: each adds the names that a tree declares.

ghost use Rattle.std.specs.Prelude.{◌≡◌, map, option_map, OnOk};
ghost use Rattle.c_tree.specs.View.{view_expression};
ghost use Rattle.c_tree.specs.StatementView.{view_init, view_part, view_named, view_declaration, view_start, view_statement, view_function, initializers_of, statements_of};
ghost use Rattle.program_scope.specs.With.{with_init, with_initializers, with_named, with_names, with_declaration, with_optional, with_start, with_statement, with_statements, with_function};

use crate::expressions::{
    add_declarator, add_expression, add_name, add_parameters, add_specifiers,
};
use c_grammar::Names;
use c_tree::{Decl, Expr, ForStart, Function, Init, Named, Part, Stmt};
use std::alloc::AllocError;

#[cycle(add_init)]
fn add_init(i: &Init, names: &mut Names) -> Result<(), AllocError>
    ensures { OnOk result (names.new ≡ with_init names.old (view_init i.now)) }
{
    match i {
        Init::Expr(e) => add_expression(e, names),
        Init::Parts(list) => add_parts(list.parts.as_slice(), names),
    }
}

#[cycle(add_init)]
fn add_parts(all: &[Part], names: &mut Names) -> Result<(), AllocError>
    ensures { OnOk result (names.new ≡ with_initializers names.old (initializers_of (map view_part all.now))) }
{
    for part in all {
        add_init(&part.init, names)?;
    }
    Ok(())
}

pub(crate) fn add_named(n: &Named, names: &mut Names) -> Result<(), AllocError>
    ensures { OnOk result (names.new ≡ with_named names.old (view_named n.now)) }
{
    add_declarator(&n.declarator, names)?;
    match &n.init {
        Some(i) => add_init(i, names),
        None => Ok(()),
    }
}

fn add_names(all: &[Named], names: &mut Names) -> Result<(), AllocError>
    ensures { OnOk result (names.new ≡ with_names names.old (map view_named all.now)) }
{
    for named in all {
        add_named(named, names)?;
    }
    Ok(())
}

fn add_declaration(d: &Decl, names: &mut Names) -> Result<(), AllocError>
    ensures { OnOk result (names.new ≡ with_declaration names.old (view_declaration d.now)) }
{
    add_specifiers(d.specs.as_slice(), names)?;
    add_names(d.names.as_slice(), names)
}

fn add_optional(e: &Option<Expr>, names: &mut Names) -> Result<(), AllocError>
    ensures { OnOk result (names.new ≡ with_optional names.old (option_map view_expression e.now)) }
{
    match e {
        Some(e) => add_expression(e, names),
        None => Ok(()),
    }
}

fn add_start(start: &ForStart, names: &mut Names) -> Result<(), AllocError>
    ensures { OnOk result (names.new ≡ with_start names.old (view_start start.now)) }
{
    match start {
        ForStart::Decl(d) => add_declaration(d, names),
        ForStart::Expr(e) => add_optional(e, names),
    }
}

#[cycle(add_statement)]
fn add_statement(s: &Stmt, names: &mut Names) -> Result<(), AllocError>
    ensures { OnOk result (names.new ≡ with_statement names.old (view_statement s.now)) }
{
    match s {
        Stmt::Block(all) => add_statements(all.as_slice(), names),
        Stmt::Decl(d) => add_declaration(d, names),
        Stmt::Expr(e) | Stmt::Return(e) => add_optional(e, names),
        Stmt::If(test, one, None) | Stmt::While(test, one) | Stmt::Switch(test, one) => {
            add_expression(test, names)?;
            add_statement(one.get(), names)
        }
        Stmt::If(test, one, Some(other)) => {
            add_expression(test, names)?;
            add_statement(one.get(), names)?;
            add_statement(other.get(), names)
        }
        Stmt::DoWhile(body, test) => {
            add_statement(body.get(), names)?;
            add_expression(test, names)
        }
        Stmt::For(start, test, step, body) => {
            add_start(start, names)?;
            add_optional(test, names)?;
            add_optional(step, names)?;
            add_statement(body.get(), names)
        }
        Stmt::Case(e) => add_expression(e, names),
        Stmt::Label(name) => add_name(name, names),
        Stmt::Default | Stmt::Break | Stmt::Continue | Stmt::Goto(_) => Ok(()),
    }
}

#[cycle(add_statement)]
fn add_statements(all: &[Stmt], names: &mut Names) -> Result<(), AllocError>
    ensures { OnOk result (names.new ≡ with_statements names.old (statements_of (map view_statement all.now))) }
{
    for statement in all {
        add_statement(statement, names)?;
    }
    Ok(())
}

pub(crate) fn add_function(f: &Function, names: &mut Names) -> Result<(), AllocError>
    ensures { OnOk result (names.new ≡ with_function names.old (view_function f.now)) }
{
    add_specifiers(f.specs.as_slice(), names)?;
    add_name(&f.name, names)?;
    add_parameters(f.params.items.as_slice(), names)?;
    add_statement(&f.body, names)
}

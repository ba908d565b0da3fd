//! Walks over expressions and declarators: each adds the names that a tree declares.

ghost use Rattle.std.specs.Prelude.{◌≡◌, map, option_map, OnOk};
ghost use Rattle.c_tree.specs.View.{view_expression, view_type, view_specifier, view_declarator, view_bare, view_member, view_enumerator, view_parameter, expressions_of, sizes_of, specifiers_of, members_of, declarators_of, enumerators_of, parameters_of};
ghost use Rattle.program_scope.specs.With.{with_name, with_expression, with_expressions, with_sizes, with_type, with_specifiers, with_members, with_declarators, with_enumerators, with_declarator, with_inside, with_parameters, with_bare};

use base_core::Lexeme;
use c_grammar::Names;
use c_tree::{
    Bare, Declarator, Enumerator, Expr, Member, ParamForm, Parameter, SpecWord, TypeName,
};
use std::alloc::AllocError;

pub(crate) fn add_name(name: &Lexeme, names: &mut Names) -> Result<(), AllocError>
    ensures { OnOk result (names.new ≡ with_name names.old name.now) }
{
    names.add(name.as_bytes())
}

#[cycle(add)]
pub(crate) fn add_expression(e: &Expr, names: &mut Names) -> Result<(), AllocError>
    ensures { OnOk result (names.new ≡ with_expression names.old (view_expression e.now)) }
{
    match e {
        Expr::Comma(a, b) | Expr::Assign(_, a, b) | Expr::Binary(_, a, b) | Expr::Index(a, b) => {
            add_expression(a.get(), names)?;
            add_expression(b.get(), names)
        }
        Expr::Choose(a, b, c) => {
            add_expression(a.get(), names)?;
            add_expression(b.get(), names)?;
            add_expression(c.get(), names)
        }
        Expr::Cast(t, a) => {
            add_type(t.get(), names)?;
            add_expression(a.get(), names)
        }
        Expr::Call(f, arguments) => {
            add_expression(f.get(), names)?;
            add_expressions(arguments.as_slice(), names)
        }
        Expr::SizeOfType(t) => add_type(t.get(), names),
        Expr::Unary(_, a)
        | Expr::Before(_, a)
        | Expr::SizeOf(a)
        | Expr::Dot(a, _)
        | Expr::Arrow(a, _)
        | Expr::After(_, a)
        | Expr::Paren(a) => add_expression(a.get(), names),
        Expr::Name(_) | Expr::Integer(_) | Expr::Character(_) | Expr::Text(_) => Ok(()),
    }
}

#[cycle(add)]
fn add_expressions(all: &[Expr], names: &mut Names) -> Result<(), AllocError>
    ensures { OnOk result (names.new ≡ with_expressions names.old (expressions_of (map view_expression all.now))) }
{
    for e in all {
        add_expression(e, names)?;
    }
    Ok(())
}

#[cycle(add)]
fn add_sizes(all: &[Option<Expr>], names: &mut Names) -> Result<(), AllocError>
    ensures { OnOk result (names.new ≡ with_sizes names.old (sizes_of (map (option_map view_expression) all.now))) }
{
    for size in all {
        match size {
            Some(e) => add_expression(e, names)?,
            None => {}
        }
    }
    Ok(())
}

#[cycle(add)]
fn add_type(t: &TypeName, names: &mut Names) -> Result<(), AllocError>
    ensures { OnOk result (names.new ≡ with_type names.old (view_type t.now)) }
{
    add_specifiers(t.specs.as_slice(), names)?;
    add_bare(&t.bare, names)
}

#[cycle(add)]
pub(crate) fn add_specifiers(all: &[SpecWord], names: &mut Names) -> Result<(), AllocError>
    ensures { OnOk result (names.new ≡ with_specifiers names.old (specifiers_of (map view_specifier all.now))) }
{
    for word in all {
        match word {
            SpecWord::Struct(_, members) => add_members(members.as_slice(), names)?,
            SpecWord::Enum(_, enumerators, _) => add_enumerators(enumerators.as_slice(), names)?,
            _ => {}
        }
    }
    Ok(())
}

#[cycle(add)]
fn add_members(all: &[Member], names: &mut Names) -> Result<(), AllocError>
    ensures { OnOk result (names.new ≡ with_members names.old (members_of (map view_member all.now))) }
{
    for member in all {
        add_specifiers(member.specs.as_slice(), names)?;
        add_declarators(member.names.as_slice(), names)?;
    }
    Ok(())
}

#[cycle(add)]
fn add_declarators(all: &[Declarator], names: &mut Names) -> Result<(), AllocError>
    ensures { OnOk result (names.new ≡ with_declarators names.old (declarators_of (map view_declarator all.now))) }
{
    for declarator in all {
        add_declarator(declarator, names)?;
    }
    Ok(())
}

#[cycle(add)]
fn add_enumerators(all: &[Enumerator], names: &mut Names) -> Result<(), AllocError>
    ensures { OnOk result (names.new ≡ with_enumerators names.old (enumerators_of (map view_enumerator all.now))) }
{
    for enumerator in all {
        add_name(&enumerator.name, names)?;
        match &enumerator.value {
            Some(e) => add_expression(e, names)?,
            None => {}
        }
    }
    Ok(())
}

#[cycle(add)]
pub(crate) fn add_declarator(d: &Declarator, names: &mut Names) -> Result<(), AllocError>
    ensures { OnOk result (names.new ≡ with_declarator names.old (view_declarator d.now)) }
{
    match d {
        Declarator::Plain(_, name) => add_name(name, names),
        Declarator::Array(_, name, sizes) => {
            add_name(name, names)?;
            add_sizes(sizes.as_slice(), names)
        }
        Declarator::Function(_, name, params) => {
            add_name(name, names)?;
            add_parameters(params.items.as_slice(), names)
        }
        Declarator::Pointer(_, _, name, sizes, params) => {
            add_name(name, names)?;
            add_sizes(sizes.as_slice(), names)?;
            add_parameters(params.items.as_slice(), names)
        }
    }
}

#[cycle(add)]
pub(crate) fn add_parameters(all: &[Parameter], names: &mut Names) -> Result<(), AllocError>
    ensures { OnOk result (names.new ≡ with_parameters names.old (parameters_of (map view_parameter all.now))) }
{
    for parameter in all {
        add_specifiers(parameter.specs.as_slice(), names)?;
        match &parameter.form {
            ParamForm::Named(declarator) => add_declarator(declarator, names)?,
            ParamForm::Bare(bare) => add_bare(bare, names)?,
        }
    }
    Ok(())
}

#[cycle(add)]
fn add_bare(b: &Bare, names: &mut Names) -> Result<(), AllocError>
    ensures { OnOk result (names.new ≡ with_bare names.old (view_bare b.now)) }
{
    match b {
        Bare::Plain(_) => Ok(()),
        Bare::Pointer(_, _, params) => add_parameters(params.items.as_slice(), names),
    }
}

pub(crate) fn add_inside(d: &Declarator, names: &mut Names) -> Result<(), AllocError>
    ensures { OnOk result (names.new ≡ with_inside names.old (view_declarator d.now)) }
{
    match d {
        Declarator::Plain(_, _) => Ok(()),
        Declarator::Array(_, _, sizes) => add_sizes(sizes.as_slice(), names),
        Declarator::Function(_, _, params) => add_parameters(params.items.as_slice(), names),
        Declarator::Pointer(_, _, _, sizes, params) => {
            add_sizes(sizes.as_slice(), names)?;
            add_parameters(params.items.as_slice(), names)
        }
    }
}

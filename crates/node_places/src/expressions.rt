ghost use Rattle.std.specs.Prelude.{◌≡◌, false, length, map, option_map, OnOk};
ghost use Rattle.c_tree.specs.View.{view_expression, view_type, view_specifier, view_declarator, view_bare, view_member, view_enumerator, view_parameter, view_parameters, expressions_of, sizes_of, specifiers_of, members_of, declarators_of, enumerators_of, parameters_of};
ghost use Rattle.node_places.specs.Past.{past_stars, is_void, past_expression, past_expressions, past_sizes, past_type, past_specifiers, past_specifier, past_members, past_declarators, past_enumerators, past_declarator, past_parameters, past_bare};
ghost use Rattle.node_places.specs.Walked.{walked, skip, skip_if};

use crate::walk::Walk;
use c_tree::{
    Bare, Declarator, Enumerator, Expr, Member, ParamForm, Parameter, Params, Quals, SpecWord,
    TypeName,
};
use std::alloc::AllocError;

pub(crate) fn walk_stars(all: &[Quals], walk: &mut Walk) -> Result<(), AllocError>
    ensures { OnOk result (walked walk.new ≡ past_stars (walked walk.old) all.now) }
{
    for quals in all {
        walk.skip(1)?;
        walk.skip(quals.len())?;
    }
    Ok(())
}

/// Passes stars and so many tokens behind them.
pub(crate) fn stars_and_skip(all: &[Quals], count: usize, walk: &mut Walk) -> Result<(), AllocError>
    ensures { OnOk result (walked walk.new ≡ skip count (past_stars (walked walk.old) all.now)) }
{
    walk_stars(all, walk)?;
    walk.skip(count)
}

/// Passes stars, the bracket and the star of a pointer to a function with its qualifiers, and so many tokens behind them.
fn walk_pointer(
    stars: &[Quals],
    quals: &Quals,
    behind: usize,
    walk: &mut Walk,
) -> Result<(), AllocError>
    ensures { OnOk result (walked walk.new ≡ skip behind (skip (length quals.now) (skip 2 (past_stars (walked walk.old) stars.now)))) }
{
    stars_and_skip(stars, 2, walk)?;
    walk.skip(quals.len())?;
    walk.skip(behind)
}

#[cycle(walk)]
pub(crate) fn walk_expression(e: &Expr, walk: &mut Walk) -> Result<(), AllocError>
    ensures { OnOk result (walked walk.new ≡ past_expression (walked walk.old) (view_expression e.now)) }
{
    walk.begin()?;
    match e {
        Expr::Comma(a, b) | Expr::Assign(_, a, b) | Expr::Binary(_, a, b) => {
            walk_and_skip(a.get(), 1, walk)?;
            walk_expression(b.get(), walk)
        }
        Expr::Choose(a, b, c) => {
            walk_and_skip(a.get(), 1, walk)?;
            walk_and_skip(b.get(), 1, walk)?;
            walk_expression(c.get(), walk)
        }
        Expr::Cast(t, a) => {
            walk_type(t.get(), walk)?;
            walk_expression(a.get(), walk)
        }
        Expr::Unary(_, a) | Expr::Before(_, a) | Expr::SizeOf(a) => {
            walk.skip(1)?;
            walk_expression(a.get(), walk)
        }
        Expr::SizeOfType(t) => {
            walk.skip(1)?;
            walk_type(t.get(), walk)
        }
        Expr::Index(a, b) => {
            walk_and_skip(a.get(), 1, walk)?;
            walk_and_skip(b.get(), 1, walk)
        }
        Expr::Call(f, arguments) => {
            walk_and_skip(f.get(), 1, walk)?;
            walk_arguments(arguments.as_slice(), walk)
        }
        Expr::Dot(a, _) | Expr::Arrow(a, _) => walk_and_skip(a.get(), 2, walk),
        Expr::After(_, a) => walk_and_skip(a.get(), 1, walk),
        Expr::Name(_) | Expr::Integer(_) | Expr::Character(_) => walk.skip(1),
        Expr::Text(parts) => walk.skip(parts.len()),
        Expr::Paren(a) => {
            walk.skip(1)?;
            walk_and_skip(a.get(), 1, walk)
        }
    }
}

/// Passes an expression and so many tokens behind it.
#[cycle(walk)]
pub(crate) fn walk_and_skip(e: &Expr, count: usize, walk: &mut Walk) -> Result<(), AllocError>
    ensures { OnOk result (walked walk.new ≡ skip count (past_expression (walked walk.old) (view_expression e.now))) }
{
    walk_expression(e, walk)?;
    walk.skip(count)
}

/// Passes the arguments of a call and the bracket behind them.
#[cycle(walk)]
fn walk_arguments(all: &[Expr], walk: &mut Walk) -> Result<(), AllocError>
    ensures { OnOk result (walked walk.new ≡ skip 1 (past_expressions false (walked walk.old) (expressions_of (map view_expression all.now)))) }
{
    let mut behind = false;
    for e in all {
        walk.skip_if(behind)?;
        walk_expression(e, walk)?;
        behind = true;
    }
    walk.skip(1)
}

#[cycle(walk)]
fn walk_sizes(all: &[Option<Expr>], walk: &mut Walk) -> Result<(), AllocError>
    ensures { OnOk result (walked walk.new ≡ past_sizes (walked walk.old) (sizes_of (map (option_map view_expression) all.now))) }
{
    for size in all {
        match size {
            Some(e) => {
                walk.skip(1)?;
                walk_expression(e, walk)?;
                walk.skip(1)?;
            }
            None => walk.skip(2)?,
        }
    }
    Ok(())
}

/// Passes the name of a type in its brackets.
#[cycle(walk)]
fn walk_type(t: &TypeName, walk: &mut Walk) -> Result<(), AllocError>
    ensures { OnOk result (walked walk.new ≡ skip 1 (past_type (skip 1 (walked walk.old)) (view_type t.now))) }
{
    walk.skip(1)?;
    walk_specifiers(t.specs.as_slice(), walk)?;
    walk_bare(&t.bare, walk)?;
    walk.skip(1)
}

#[cycle(walk)]
pub(crate) fn walk_specifiers(all: &[SpecWord], walk: &mut Walk) -> Result<(), AllocError>
    ensures { OnOk result (walked walk.new ≡ past_specifiers (walked walk.old) (specifiers_of (map view_specifier all.now))) }
{
    for word in all {
        walk_specifier(word, walk)?;
    }
    Ok(())
}

#[cycle(walk)]
fn walk_specifier(word: &SpecWord, walk: &mut Walk) -> Result<(), AllocError>
    ensures { OnOk result (walked walk.new ≡ past_specifier (walked walk.old) (view_specifier word.now)) }
{
    walk.skip(1)?;
    match word {
        SpecWord::StructTag(_) | SpecWord::EnumTag(_) => walk.skip(1),
        SpecWord::Struct(tag, members) => {
            walk.skip_if(tag.is_some())?;
            walk.skip(1)?;
            walk_members(members.as_slice(), walk)?;
            walk.skip(1)
        }
        SpecWord::Enum(tag, enumerators, last) => {
            walk.skip_if(tag.is_some())?;
            walk.skip(1)?;
            walk_enumerators(enumerators.as_slice(), walk)?;
            walk.skip_if(*last)?;
            walk.skip(1)
        }
        _ => Ok(()),
    }
}

#[cycle(walk)]
fn walk_members(all: &[Member], walk: &mut Walk) -> Result<(), AllocError>
    ensures { OnOk result (walked walk.new ≡ past_members (walked walk.old) (members_of (map view_member all.now))) }
{
    for member in all {
        walk_specifiers(member.specs.as_slice(), walk)?;
        walk_declarators(member.names.as_slice(), walk)?;
        walk.skip(1)?;
    }
    Ok(())
}

#[cycle(walk)]
fn walk_declarators(all: &[Declarator], walk: &mut Walk) -> Result<(), AllocError>
    ensures { OnOk result (walked walk.new ≡ past_declarators false (walked walk.old) (declarators_of (map view_declarator all.now))) }
{
    let mut behind = false;
    for declarator in all {
        walk.skip_if(behind)?;
        walk.begin()?;
        walk_declarator(declarator, walk)?;
        behind = true;
    }
    Ok(())
}

#[cycle(walk)]
fn walk_enumerators(all: &[Enumerator], walk: &mut Walk) -> Result<(), AllocError>
    ensures { OnOk result (walked walk.new ≡ past_enumerators false (walked walk.old) (enumerators_of (map view_enumerator all.now))) }
{
    let mut behind = false;
    for enumerator in all {
        walk.skip_if(behind)?;
        walk.begin()?;
        match &enumerator.value {
            Some(e) => {
                walk.skip(2)?;
                walk_expression(e, walk)?;
            }
            None => walk.skip(1)?,
        }
        behind = true;
    }
    Ok(())
}

#[cycle(walk)]
pub(crate) fn walk_declarator(d: &Declarator, walk: &mut Walk) -> Result<(), AllocError>
    ensures { OnOk result (walked walk.new ≡ past_declarator (walked walk.old) (view_declarator d.now)) }
{
    match d {
        Declarator::Plain(stars, _) => stars_and_skip(stars.as_slice(), 1, walk),
        Declarator::Array(stars, _, sizes) => {
            stars_and_skip(stars.as_slice(), 1, walk)?;
            walk_sizes(sizes.as_slice(), walk)
        }
        Declarator::Function(stars, _, params) => {
            stars_and_skip(stars.as_slice(), 2, walk)?;
            walk_parameters(params, walk)
        }
        Declarator::Pointer(stars, quals, _, sizes, params) => {
            walk_pointer(stars.as_slice(), quals, 1, walk)?;
            walk_sizes(sizes.as_slice(), walk)?;
            walk.skip(2)?;
            walk_parameters(params, walk)
        }
    }
}

/// Whether the word `void` stands in place of parameters.
fn has_void(params: &Params) -> bool
    ensures { result ≡ is_void (view_parameters params.now).0 (view_parameters params.now).1 }
{
    params.word && params.items.is_empty()
}

/// Passes parameters and the bracket behind them.
#[cycle(walk)]
pub(crate) fn walk_parameters(params: &Params, walk: &mut Walk) -> Result<(), AllocError>
    ensures { OnOk result (walked walk.new ≡ skip 1 (past_parameters false (skip_if (is_void (view_parameters params.now).0 (view_parameters params.now).1) (walked walk.old)) (view_parameters params.now).0)) }
{
    walk.skip_if(has_void(params))?;
    walk_all_parameters(params.items.as_slice(), walk)?;
    walk.skip(1)
}

#[cycle(walk)]
fn walk_all_parameters(all: &[Parameter], walk: &mut Walk) -> Result<(), AllocError>
    ensures { OnOk result (walked walk.new ≡ past_parameters false (walked walk.old) (parameters_of (map view_parameter all.now))) }
{
    let mut behind = false;
    for parameter in all {
        walk.skip_if(behind)?;
        match &parameter.form {
            ParamForm::Named(declarator) => {
                walk.begin()?;
                walk_specifiers(parameter.specs.as_slice(), walk)?;
                walk_declarator(declarator, walk)?;
            }
            ParamForm::Bare(bare) => {
                walk_specifiers(parameter.specs.as_slice(), walk)?;
                walk_bare(bare, walk)?;
            }
        }
        behind = true;
    }
    Ok(())
}

#[cycle(walk)]
fn walk_bare(b: &Bare, walk: &mut Walk) -> Result<(), AllocError>
    ensures { OnOk result (walked walk.new ≡ past_bare (walked walk.old) (view_bare b.now)) }
{
    match b {
        Bare::Plain(stars) => walk_stars(stars.as_slice(), walk),
        Bare::Pointer(stars, quals, params) => {
            walk_pointer(stars.as_slice(), quals, 2, walk)?;
            walk_parameters(params, walk)
        }
    }
}

//! An expression by its rule from its parts (C11 6.5).

ghost use Rattle.std.specs.Prelude.{◌≡◌, ◌<◌, option_map, option_copied, length, IfOk, OnOk};
ghost use Rattle.c_kinds.specs.View.{view};
ghost use Rattle.c_tree.specs.View.{view_expression};
ghost use Rattle.c_environment.specs.Environment.{entity};
ghost use Rattle.c_environment.specs.Seen.{seen_structure, seen_environment};
ghost use Rattle.c_rules.specs.Access as access;
ghost use Rattle.c_rules.specs.Conversions as conversions;
ghost use Rattle.c_rules.specs.Form as form;
ghost use Rattle.c_rules.specs.Judgement.{kind};
ghost use Rattle.c_rules.specs.Names as names;
ghost use Rattle.c_rules.specs.Operators as operators;
ghost use Rattle.c_rules.specs.Values as values;
ghost use Rattle.c_rules.specs.Seen.{seen, seen_operand, seen_operands};
ghost use Rattle.c_bindings.specs.Told.{bound};
ghost use Rattle.c_declared.specs.Nodes as spec_nodes;
ghost use Rattle.c_declared.specs.Operands as spec;
ghost use Rattle.c_declared.specs.Constness as spec_constness;
ghost use Rattle.c_declared.specs.Seen.{shown};
ghost use Rattle.c_judgements.specs.Parts.{closed};

use crate::constness::Constness;
use crate::denoted::{library_of, named_operand};
use crate::judgements::Judgements;
use c_bindings::{Binding, bound_to};
use c_environment::{Environment, Structure};
use c_kinds::CType;
use c_rules::{
    Form, Operand, Verdict, arrow, arrow_form, assign, binary, call, character, choose, comma, dot,
    index, index_form, integer, library_call, paren, size_of, step, text, unary, unary_form,
};
use c_tree::{AssignOp, BinaryOp, Expr, UnaryOp};
use posix_table::{Row, Table};
use sqlite_items::Boxed;
use std::alloc::{AllocError, Global};

/// An expression that has been walked.
#[derive(Drop)]
pub struct Walked {
    /// It as an operand.
    pub operand: Operand,
    /// Which constant expressions it is.
    pub constness: Constness,
}

fn member_of<'e>(structure: Option<&'e Structure>, member: &[u8]) -> Option<&'e CType>
    ensures { option_map (λ t. view t.now) result ≡ spec.member_of member.now (option_map (λ s. seen_structure s.now) structure.entry) }
{
    match structure {
        Some(structure) => structure.members.member(member),
        None => None,
    }
}

/// The kind of the member of a structure (C11 6.5.2.3p1).
fn member_kind<'e>(env: &'e Environment, member: &[u8], kind: Option<&CType>) -> Option<&'e CType>
    ensures { option_map (λ t. view t.now) result ≡ spec.member_kind (seen_environment env.now) member.now (option_map (λ t. view t.now) kind.entry) }
{
    match kind {
        Some(CType::Struct(number)) => member_of(env.structure(*number), member),
        _ => None,
    }
}

/// The same of what a pointer points to.
fn pointed_member<'e>(
    env: &'e Environment,
    member: &[u8],
    kind: Option<&CType>,
) -> Option<&'e CType>
    ensures { option_map (λ t. view t.now) result ≡ spec.pointed_member (seen_environment env.now) member.now (option_map (λ t. view t.now) kind.entry) }
{
    match kind {
        Some(CType::Ptr(to) | CType::Array(to)) => member_kind(env, member, Some(to)),
        _ => None,
    }
}

/// The row of a library function's plain name.
pub(crate) fn row_of<'t>(table: &'t Table, env: &Environment, e: &Expr) -> Option<&'t Row>
    ensures { option_copied result ≡ spec.row_of table.now (seen_environment env.now) (view_expression e.now) }
{
    match e {
        Expr::Name(name) => match library_of(env, name.as_bytes()) {
            Some(place) => table.at(place as usize),
            None => None,
        },
        _ => None,
    }
}

/// It has been walked.
pub(crate) fn with_form(
    alloc: Global,
    verdict: Verdict,
    form: Form,
    constness: Constness,
) -> Result<Boxed<Walked>, AllocError>
    ensures operand { IfOk result (λ w. seen_operand w.operand ≡ spec.placed (seen verdict) form) }
    ensures constness { IfOk result (λ w. w.constness ≡ constness) }
{
    Ok(Boxed::new(
        alloc,
        Walked {
            operand: Operand { verdict, form },
            constness,
        },
    )?)
}

pub(crate) fn walked_comma(
    alloc: Global,
    x: &Walked,
    y: &Walked,
) -> Result<Boxed<Walked>, AllocError>
    ensures operand { IfOk result (λ w. seen_operand w.operand ≡ spec.valued (operators.comma (seen_operand x.now.operand) (seen_operand y.now.operand))) }
    ensures constness { IfOk result (λ w. w.constness ≡ spec_constness.of_none) }
{
    with_form(
        alloc,
        comma(&x.operand, &y.operand)?,
        Form::plain(),
        Constness::none(),
    )
}

pub(crate) fn walked_assign(
    alloc: Global,
    op: AssignOp,
    x: &Walked,
    y: &Walked,
) -> Result<Boxed<Walked>, AllocError>
    ensures operand { IfOk result (λ w. seen_operand w.operand ≡ spec.valued (values.assign op (seen_operand x.now.operand) (seen_operand y.now.operand))) }
    ensures constness { IfOk result (λ w. w.constness ≡ spec_constness.of_none) }
{
    with_form(
        alloc,
        assign(op, &x.operand, &y.operand)?,
        Form::plain(),
        Constness::none(),
    )
}

pub(crate) fn walked_choose(
    alloc: Global,
    first: &Walked,
    x: &Walked,
    y: &Walked,
) -> Result<Boxed<Walked>, AllocError>
    ensures operand { IfOk result (λ w. seen_operand w.operand ≡ spec.valued (operators.choose (seen_operand first.now.operand) (seen_operand x.now.operand) (seen_operand y.now.operand))) }
    ensures constness { IfOk result (λ w. w.constness ≡ spec_constness.of_choice first.now.constness x.now.constness y.now.constness) }
{
    let constness = first.constness.choice(x.constness, y.constness);
    with_form(
        alloc,
        choose(&first.operand, &x.operand, &y.operand)?,
        Form::plain(),
        constness,
    )
}

pub(crate) fn walked_binary(
    alloc: Global,
    op: BinaryOp,
    x: &Walked,
    y: &Walked,
) -> Result<Boxed<Walked>, AllocError>
    ensures operand { IfOk result (λ w. seen_operand w.operand ≡ spec.valued (operators.binary op (seen_operand x.now.operand) (seen_operand y.now.operand))) }
    ensures constness { IfOk result (λ w. w.constness ≡ spec_constness.of_two x.now.constness y.now.constness) }
{
    let constness = x.constness.and(y.constness);
    with_form(
        alloc,
        binary(op, &x.operand, &y.operand)?,
        Form::plain(),
        constness,
    )
}

pub(crate) fn walked_unary(
    alloc: Global,
    op: UnaryOp,
    x: &Walked,
) -> Result<Boxed<Walked>, AllocError>
    ensures operand { IfOk result (λ w. seen_operand w.operand ≡ spec.placed (operators.unary op (seen_operand x.now.operand)) (form.unary_form op (seen_operand x.now.operand))) }
    ensures constness { IfOk result (λ w. w.constness ≡ spec_constness.of_unary op x.now.constness) }
{
    let verdict = unary(alloc, op, &x.operand)?;
    with_form(
        alloc,
        verdict,
        unary_form(op, &x.operand),
        x.constness.unary(op),
    )
}

pub(crate) fn walked_step(alloc: Global, x: &Walked) -> Result<Boxed<Walked>, AllocError>
    ensures operand { IfOk result (λ w. seen_operand w.operand ≡ spec.valued (values.step (seen_operand x.now.operand))) }
    ensures constness { IfOk result (λ w. w.constness ≡ spec_constness.of_none) }
{
    with_form(alloc, step(&x.operand)?, Form::plain(), Constness::none())
}

pub(crate) fn walked_size_of(alloc: Global, x: &Walked) -> Result<Boxed<Walked>, AllocError>
    ensures operand { IfOk result (λ w. seen_operand w.operand ≡ spec.valued (conversions.size_of (seen_operand x.now.operand))) }
    ensures constness { IfOk result (λ w. w.constness ≡ spec_constness.of_constant) }
{
    with_form(
        alloc,
        size_of(&x.operand),
        Form::plain(),
        Constness::constant(),
    )
}

pub(crate) fn walked_index(
    alloc: Global,
    x: &Walked,
    y: &Walked,
) -> Result<Boxed<Walked>, AllocError>
    ensures operand { IfOk result (λ w. seen_operand w.operand ≡ spec.placed (access.index (seen_operand x.now.operand) (seen_operand y.now.operand)) (form.index_form (seen_operand x.now.operand))) }
    ensures constness { IfOk result (λ w. w.constness ≡ spec_constness.of_index x.now.constness (kind (seen x.now.operand.verdict)) y.now.constness) }
{
    let verdict = index(&x.operand, &y.operand)?;
    let constness = x.constness.index(x.operand.verdict.kind(), y.constness);
    with_form(alloc, verdict, index_form(&x.operand), constness)
}

fn called(
    alloc: Global,
    row: Option<&Row>,
    f: &Operand,
    xs: &[Operand],
) -> Result<Verdict, AllocError>
    ensures { IfOk result (λ v. seen v ≡ spec.called (option_copied row.entry) (seen_operand f.now) (seen_operands xs.now)) }
{
    match row {
        Some(row) => library_call(alloc, row, xs),
        None => call(f, xs),
    }
}

pub(crate) fn walked_call(
    alloc: Global,
    row: Option<&Row>,
    f: &Walked,
    xs: &[Operand],
) -> Result<Boxed<Walked>, AllocError>
    ensures operand { IfOk result (λ w. seen_operand w.operand ≡ spec.valued (spec.called (option_copied row.entry) (seen_operand f.now.operand) (seen_operands xs.now))) }
    ensures constness { IfOk result (λ w. w.constness ≡ spec_constness.of_none) }
{
    with_form(
        alloc,
        called(alloc, row, &f.operand, xs)?,
        Form::plain(),
        Constness::none(),
    )
}

/// What is called: the plain name of a library function may stand there.
pub(crate) fn as_callee(
    alloc: Global,
    env: &Environment,
    e: &Expr,
    x: Boxed<Walked>,
) -> Result<Boxed<Walked>, AllocError>
    ensures { IfOk result (λ w. seen_operand w.operand ≡ spec.as_callee (seen_environment env.now) (view_expression e.now) (seen_operand x.operand)) }
{
    match e {
        Expr::Name(name) => walked_name(alloc, env, name.as_bytes(), true),
        _ => Ok(x),
    }
}

/// A name, as an operand or before the arguments of a call.
pub(crate) fn walked_name(
    alloc: Global,
    env: &Environment,
    name: &[u8],
    as_callee: bool,
) -> Result<Boxed<Walked>, AllocError>
    ensures operand { IfOk result (λ w. seen_operand w.operand ≡ spec.named_operand (seen_environment env.now) name.now as_callee) }
    ensures constness { IfOk result (λ w. w.constness ≡ spec_constness.of_name (entity (seen_environment env.now) name.now)) }
{
    let operand = named_operand(alloc, env, name, as_callee)?;
    let constness = Constness::name(env, name);
    Ok(Boxed::new(alloc, Walked { operand, constness })?)
}

pub(crate) fn walked_dot(
    alloc: Global,
    env: &Environment,
    x: &Walked,
    member: &[u8],
) -> Result<Boxed<Walked>, AllocError>
    ensures operand { IfOk result (λ w. seen_operand w.operand ≡ spec.placed (access.dot (spec.member_kind (seen_environment env.now) member.now (kind (seen x.now.operand.verdict))) (seen_operand x.now.operand)) (form.dot_form x.now.operand.form)) }
    ensures constness { IfOk result (λ w. w.constness ≡ spec_constness.of_dot x.now.constness) }
{
    let of = member_kind(env, member, x.operand.verdict.kind());
    with_form(
        alloc,
        dot(of, &x.operand)?,
        x.operand.form.dot(),
        x.constness.dot(),
    )
}

pub(crate) fn walked_arrow(
    alloc: Global,
    env: &Environment,
    x: &Walked,
    member: &[u8],
) -> Result<Boxed<Walked>, AllocError>
    ensures operand { IfOk result (λ w. seen_operand w.operand ≡ spec.placed (access.arrow (spec.pointed_member (seen_environment env.now) member.now (kind (seen x.now.operand.verdict))) (seen_operand x.now.operand)) (form.arrow_form (seen_operand x.now.operand))) }
    ensures constness { IfOk result (λ w. w.constness ≡ spec_constness.of_none) }
{
    let of = pointed_member(env, member, x.operand.verdict.kind());
    with_form(
        alloc,
        arrow(of, &x.operand)?,
        arrow_form(&x.operand),
        Constness::none(),
    )
}

pub(crate) fn walked_integer(alloc: Global, bytes: &[u8]) -> Result<Boxed<Walked>, AllocError>
    ensures operand { IfOk result (λ w. seen_operand w.operand ≡ spec.placed (names.integer bytes.now) (form.integer_form bytes.now)) }
    ensures constness { IfOk result (λ w. w.constness ≡ spec_constness.of_constant) }
{
    with_form(
        alloc,
        integer(bytes),
        Form::integer(bytes),
        Constness::constant(),
    )
}

pub(crate) fn walked_character(alloc: Global) -> Result<Boxed<Walked>, AllocError>
    ensures operand { IfOk result (λ w. seen_operand w.operand ≡ spec.valued names.character) }
    ensures constness { IfOk result (λ w. w.constness ≡ spec_constness.of_constant) }
{
    with_form(alloc, character(), Form::plain(), Constness::constant())
}

pub(crate) fn walked_text(alloc: Global) -> Result<Boxed<Walked>, AllocError>
    ensures operand { IfOk result (λ w. seen_operand w.operand ≡ spec.placed names.text form.text_form) }
    ensures constness { IfOk result (λ w. w.constness ≡ spec_constness.of_text) }
{
    with_form(alloc, text(alloc)?, Form::text(), Constness::text())
}

pub(crate) fn walked_paren(alloc: Global, x: &Walked) -> Result<Boxed<Walked>, AllocError>
    ensures operand { IfOk result (λ w. seen_operand w.operand ≡ spec.placed (operators.paren (seen_operand x.now.operand)) (form.paren_form x.now.operand.form)) }
    ensures constness { IfOk result (λ w. w.constness ≡ x.now.constness) }
{
    with_form(
        alloc,
        paren(&x.operand)?,
        x.operand.form.paren(),
        x.constness,
    )
}

/// What an expression stands for that is a name.
pub(crate) fn expression_binding(env: &Environment, e: &Expr) -> Option<Binding>
    ensures { result ≡ spec_nodes.expression_binding (seen_environment env.now) (view_expression e.now) }
{
    match e {
        Expr::Name(name) => bound_to(env, name.as_bytes()),
        _ => None,
    }
}

/// The node of an expression that has been walked ends, which stands for this. Err where there is not enough memory.
pub(crate) fn ended(
    walked: Boxed<Walked>,
    binding: Option<Binding>,
    out: &mut Judgements,
) -> Result<Boxed<Walked>, AllocError>
    requires { 1 < length (shown out.old) }
    ensures same { IfOk result (λ w. w ≡ walked) }
    ensures all { OnOk result (shown out.new ≡ closed (bound (seen_operand walked.operand).judged binding) (shown out.old)) }
{
    out.end(&walked.get().operand.verdict, binding)?;
    Ok(walked)
}

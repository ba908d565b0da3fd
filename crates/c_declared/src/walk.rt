//! One pass from left to right over expressions, types and declarators: what is said of each node is added in preorder, and the names stand
//! for what they do behind it. Where one of these gives Err, there is not enough memory, and what it changes is of no use.
//! Each takes the tree that it goes down first, whose depth is what decreases.

ghost use Rattle.std.specs.Prelude.{◌≡◌, ◌<◌, ◌&&◌, ◌∷◌, Some, None, false, map, option_map, option_copied, length, if◌then◌else◌, IfOk, OnOk};
ghost use Rattle.c_judgements.specs.Parts.{added, closed};
ghost use Rattle.c_bindings.specs.Binding.{bound_to};
ghost use Rattle.c_bindings.specs.Told.{bound};
ghost use Rattle.c_kinds.specs.View.{view};
ghost use Rattle.c_tree.specs.DeclaredNames.{declarator_name};
ghost use Rattle.c_tree.specs.View as tree;
ghost use Rattle.c_tree.specs.View.{view_expression, view_type, view_specifier, view_declarator, view_bare, view_member, view_enumerator, view_parameter, expressions_of, specifiers_of, declarators_of, enumerators_of, parameters_of};
ghost use Rattle.c_environment.specs.Behind as behind;
ghost use Rattle.c_environment.specs.Entity.{no_members, with_member};
ghost use Rattle.c_environment.specs.Environment.{entered, left, completed};
ghost use Rattle.c_environment.specs.Seen.{seen_type, seen_members, seen_environment};
ghost use Rattle.c_environment.specs.Types.{specified, defined_structure, adjusted};
ghost use Rattle.c_rules.specs.Access as access;
ghost use Rattle.c_rules.specs.Conversions as conversions;
ghost use Rattle.c_rules.specs.Form as form;
ghost use Rattle.c_rules.specs.Judgement.{kind, waits, is_settled};
ghost use Rattle.c_rules.specs.Operators as operators;
ghost use Rattle.c_rules.specs.Values as values;
ghost use Rattle.c_rules.specs.Seen.{seen, seen_operand, seen_operands};
ghost use Rattle.c_declared.specs.Constness as consts;
ghost use Rattle.c_declared.specs.Faults as faults;
ghost use Rattle.c_declared.specs.Nodes as nodes;
ghost use Rattle.c_declared.specs.Operands as spec;
ghost use Rattle.c_declared.specs.Parts as parts;
ghost use Rattle.c_declared.specs.Seen.{shown};
ghost use Rattle.c_declared.specs.Sizes as sizes;

use crate::declared::{
    Declared, ParametersPart, Part, SizesPart, array_declared, bare_declared, bare_parameter,
    function_declared, plain_declared, pointer_declared, type_declared,
};
use crate::faults::{
    Faults, both, enumeration_faults, enumeration_tag_faults, is_own, is_own_bare,
    structure_faults, structure_tag_faults, tag_unknown, tag_word,
};
use crate::judgements::Judgements;
use crate::operands::{
    Walked, as_callee, ended, expression_binding, row_of, walked_arrow, walked_assign,
    walked_binary, walked_call, walked_character, walked_choose, walked_comma, walked_dot,
    walked_index, walked_integer, walked_name, walked_paren, walked_size_of, walked_step,
    walked_text, walked_unary,
};
use crate::rules::{end_enumerator, end_member, end_parameter, walked_cast, walked_size_of_type};
use base_core::Lexeme;
use c_constants::enumerator;
use c_environment::{DeclaredType, Environment, Members};
use c_rules::Operand;
use c_tree::{
    AssignOp, Bare, BinaryOp, Declarator, Enumerator, Expr, Member, ParamForm, Parameter, SpecWord,
    TypeName,
};
use posix_table::{Row, Table};
use sqlite_items::Boxed;
use std::alloc::{AllocError, Global};

/// An expression: its node, and those below it.
#[cycle(walk)]
pub fn walk_operand<'a>(
    alloc: Global,
    table: &Table,
    env: &mut Environment<'a>,
    e: &'a Expr,
    out: &mut Judgements,
) -> Result<Boxed<Walked>, AllocError>
    requires { 0 < length (shown out.old) }
    ensures operand { IfOk result (λ w. seen_operand w.operand ≡ nodes.operand table.now (seen_environment env.old) (view_expression e.now)) }
    ensures constness { IfOk result (λ w. w.constness ≡ consts.constness table.now (seen_environment env.old) (view_expression e.now)) }
    ensures all { OnOk result (shown out.new ≡ added (nodes.said table.now (seen_environment env.old) (view_expression e.now)).all (shown out.old)) }
    ensures behind { OnOk result (seen_environment env.new ≡ behind.behind_expression (seen_environment env.old) (view_expression e.now)) }
{
    let binding = expression_binding(env, e);
    let x = walk_expression(alloc, table, env, e, out)?;
    ended(x, binding, out)
}

/// An expression as an operand, and what is below its node, which stays open.
#[cycle(walk)]
fn walk_expression<'a>(
    alloc: Global,
    table: &Table,
    env: &mut Environment<'a>,
    e: &'a Expr,
    out: &mut Judgements,
) -> Result<Boxed<Walked>, AllocError>
    ensures operand { IfOk result (λ w. seen_operand w.operand ≡ nodes.operand table.now (seen_environment env.old) (view_expression e.now)) }
    ensures constness { IfOk result (λ w. w.constness ≡ consts.constness table.now (seen_environment env.old) (view_expression e.now)) }
    ensures all { OnOk result (shown out.new ≡ (nodes.below table.now (seen_environment env.old) (view_expression e.now)).all ∷ shown out.old) }
    ensures behind { OnOk result (seen_environment env.new ≡ behind.behind_expression (seen_environment env.old) (view_expression e.now)) }
{
    out.open()?;
    match e {
        Expr::Comma(x, y) => {
            let x = walk_operand(alloc, table, env, x.get(), out)?;
            walk_comma(alloc, table, env, y.get(), x.get(), out)
        }
        Expr::Assign(op, x, y) => {
            let x = walk_operand(alloc, table, env, x.get(), out)?;
            walk_assign(alloc, table, env, y.get(), *op, x.get(), out)
        }
        Expr::Choose(first, x, y) => {
            let first = walk_operand(alloc, table, env, first.get(), out)?;
            let x = walk_operand(alloc, table, env, x.get(), out)?;
            walk_choose(alloc, table, env, y.get(), first.get(), x.get(), out)
        }
        Expr::Binary(op, x, y) => {
            let x = walk_operand(alloc, table, env, x.get(), out)?;
            walk_binary(alloc, table, env, y.get(), *op, x.get(), out)
        }
        Expr::Cast(to, x) => {
            let to = walk_type(alloc, table, env, to.get(), out)?;
            walk_cast(alloc, table, env, x.get(), to.get(), out)
        }
        Expr::Unary(op, x) => {
            let x = walk_operand(alloc, table, env, x.get(), out)?;
            walked_unary(alloc, *op, x.get())
        }
        Expr::Before(_, x) => {
            let x = walk_operand(alloc, table, env, x.get(), out)?;
            walked_step(alloc, x.get())
        }
        Expr::SizeOf(x) => {
            let x = walk_operand(alloc, table, env, x.get(), out)?;
            walked_size_of(alloc, x.get())
        }
        Expr::SizeOfType(of) => {
            let of = walk_type(alloc, table, env, of.get(), out)?;
            walked_size_of_type(alloc, of.get())
        }
        Expr::Index(x, y) => {
            let x = walk_operand(alloc, table, env, x.get(), out)?;
            walk_index(alloc, table, env, y.get(), x.get(), out)
        }
        Expr::Call(callee, arguments) => {
            let row = row_of(table, env, callee.get());
            let f = walk_callee(alloc, table, env, callee.get(), out)?;
            walk_call(alloc, table, env, arguments.as_slice(), row, f.get(), out)
        }
        Expr::Dot(x, member) => {
            let x = walk_operand(alloc, table, env, x.get(), out)?;
            walked_dot(alloc, env, x.get(), member.as_bytes())
        }
        Expr::Arrow(x, member) => {
            let x = walk_operand(alloc, table, env, x.get(), out)?;
            walked_arrow(alloc, env, x.get(), member.as_bytes())
        }
        Expr::After(_, x) => {
            let x = walk_operand(alloc, table, env, x.get(), out)?;
            walked_step(alloc, x.get())
        }
        Expr::Name(name) => walked_name(alloc, env, name.as_bytes(), false),
        Expr::Integer(bytes) => walked_integer(alloc, bytes.as_bytes()),
        Expr::Character(_) => walked_character(alloc),
        Expr::Text(_) => walked_text(alloc),
        Expr::Paren(x) => {
            let x = walk_operand(alloc, table, env, x.get(), out)?;
            walked_paren(alloc, x.get())
        }
    }
}

/// What is called: its node, and those below it.
#[cycle(walk)]
fn walk_callee<'a>(
    alloc: Global,
    table: &Table,
    env: &mut Environment<'a>,
    e: &'a Expr,
    out: &mut Judgements,
) -> Result<Boxed<Walked>, AllocError>
    requires { 0 < length (shown out.old) }
    ensures operand { IfOk result (λ w. seen_operand w.operand ≡ spec.as_callee (behind.behind_expression (seen_environment env.old) (view_expression e.now)) (view_expression e.now) (nodes.operand table.now (seen_environment env.old) (view_expression e.now))) }
    ensures all { OnOk result (shown out.new ≡ added (nodes.expression_node (seen_environment env.old) (view_expression e.now) (spec.as_callee (behind.behind_expression (seen_environment env.old) (view_expression e.now)) (view_expression e.now) (nodes.operand table.now (seen_environment env.old) (view_expression e.now))).judged (nodes.below table.now (seen_environment env.old) (view_expression e.now))).all (shown out.old)) }
    ensures behind { OnOk result (seen_environment env.new ≡ behind.behind_expression (seen_environment env.old) (view_expression e.now)) }
{
    let binding = expression_binding(env, e);
    let f = walk_expression(alloc, table, env, e, out)?;
    let f = as_callee(alloc, env, e, f)?;
    ended(f, binding, out)
}

/// The right operand of a comma.
#[cycle(walk)]
fn walk_comma<'a>(
    alloc: Global,
    table: &Table,
    env: &mut Environment<'a>,
    e: &'a Expr,
    x: &Walked,
    out: &mut Judgements,
) -> Result<Boxed<Walked>, AllocError>
    requires { 0 < length (shown out.old) }
    ensures operand { IfOk result (λ w. seen_operand w.operand ≡ spec.valued (operators.comma (seen_operand x.now.operand) (nodes.operand table.now (seen_environment env.old) (view_expression e.now)))) }
    ensures constness { IfOk result (λ w. w.constness ≡ consts.of_none) }
    ensures all { OnOk result (shown out.new ≡ added (nodes.said table.now (seen_environment env.old) (view_expression e.now)).all (shown out.old)) }
    ensures behind { OnOk result (seen_environment env.new ≡ behind.behind_expression (seen_environment env.old) (view_expression e.now)) }
{
    let y = walk_operand(alloc, table, env, e, out)?;
    walked_comma(alloc, x, y.get())
}

/// What is assigned.
#[cycle(walk)]
fn walk_assign<'a>(
    alloc: Global,
    table: &Table,
    env: &mut Environment<'a>,
    e: &'a Expr,
    op: AssignOp,
    x: &Walked,
    out: &mut Judgements,
) -> Result<Boxed<Walked>, AllocError>
    requires { 0 < length (shown out.old) }
    ensures operand { IfOk result (λ w. seen_operand w.operand ≡ spec.valued (values.assign op (seen_operand x.now.operand) (nodes.operand table.now (seen_environment env.old) (view_expression e.now)))) }
    ensures constness { IfOk result (λ w. w.constness ≡ consts.of_none) }
    ensures all { OnOk result (shown out.new ≡ added (nodes.said table.now (seen_environment env.old) (view_expression e.now)).all (shown out.old)) }
    ensures behind { OnOk result (seen_environment env.new ≡ behind.behind_expression (seen_environment env.old) (view_expression e.now)) }
{
    let y = walk_operand(alloc, table, env, e, out)?;
    walked_assign(alloc, op, x, y.get())
}

/// The last operand of a choice.
#[cycle(walk)]
fn walk_choose<'a>(
    alloc: Global,
    table: &Table,
    env: &mut Environment<'a>,
    e: &'a Expr,
    first: &Walked,
    x: &Walked,
    out: &mut Judgements,
) -> Result<Boxed<Walked>, AllocError>
    requires { 0 < length (shown out.old) }
    ensures operand { IfOk result (λ w. seen_operand w.operand ≡ spec.valued (operators.choose (seen_operand first.now.operand) (seen_operand x.now.operand) (nodes.operand table.now (seen_environment env.old) (view_expression e.now)))) }
    ensures constness { IfOk result (λ w. w.constness ≡ consts.of_choice first.now.constness x.now.constness (consts.constness table.now (seen_environment env.old) (view_expression e.now))) }
    ensures all { OnOk result (shown out.new ≡ added (nodes.said table.now (seen_environment env.old) (view_expression e.now)).all (shown out.old)) }
    ensures behind { OnOk result (seen_environment env.new ≡ behind.behind_expression (seen_environment env.old) (view_expression e.now)) }
{
    let y = walk_operand(alloc, table, env, e, out)?;
    walked_choose(alloc, first, x, y.get())
}

/// The right operand of a binary operator.
#[cycle(walk)]
fn walk_binary<'a>(
    alloc: Global,
    table: &Table,
    env: &mut Environment<'a>,
    e: &'a Expr,
    op: BinaryOp,
    x: &Walked,
    out: &mut Judgements,
) -> Result<Boxed<Walked>, AllocError>
    requires { 0 < length (shown out.old) }
    ensures operand { IfOk result (λ w. seen_operand w.operand ≡ spec.valued (operators.binary op (seen_operand x.now.operand) (nodes.operand table.now (seen_environment env.old) (view_expression e.now)))) }
    ensures constness { IfOk result (λ w. w.constness ≡ consts.of_two x.now.constness (consts.constness table.now (seen_environment env.old) (view_expression e.now))) }
    ensures all { OnOk result (shown out.new ≡ added (nodes.said table.now (seen_environment env.old) (view_expression e.now)).all (shown out.old)) }
    ensures behind { OnOk result (seen_environment env.new ≡ behind.behind_expression (seen_environment env.old) (view_expression e.now)) }
{
    let y = walk_operand(alloc, table, env, e, out)?;
    walked_binary(alloc, op, x, y.get())
}

/// An index.
#[cycle(walk)]
fn walk_index<'a>(
    alloc: Global,
    table: &Table,
    env: &mut Environment<'a>,
    e: &'a Expr,
    x: &Walked,
    out: &mut Judgements,
) -> Result<Boxed<Walked>, AllocError>
    requires { 0 < length (shown out.old) }
    ensures operand { IfOk result (λ w. seen_operand w.operand ≡ spec.placed (access.index (seen_operand x.now.operand) (nodes.operand table.now (seen_environment env.old) (view_expression e.now))) (form.index_form (seen_operand x.now.operand))) }
    ensures constness { IfOk result (λ w. w.constness ≡ consts.of_index x.now.constness (kind (seen x.now.operand.verdict)) (consts.constness table.now (seen_environment env.old) (view_expression e.now))) }
    ensures all { OnOk result (shown out.new ≡ added (nodes.said table.now (seen_environment env.old) (view_expression e.now)).all (shown out.old)) }
    ensures behind { OnOk result (seen_environment env.new ≡ behind.behind_expression (seen_environment env.old) (view_expression e.now)) }
{
    let y = walk_operand(alloc, table, env, e, out)?;
    walked_index(alloc, x, y.get())
}

/// What is cast.
#[cycle(walk)]
fn walk_cast<'a>(
    alloc: Global,
    table: &Table,
    env: &mut Environment<'a>,
    e: &'a Expr,
    to: &Declared,
    out: &mut Judgements,
) -> Result<Boxed<Walked>, AllocError>
    requires { 0 < length (shown out.old) }
    ensures operand { IfOk result (λ w. seen_operand w.operand ≡ spec.valued (if to.now.settled then nodes.type_rule to.now.faults (conversions.cast (seen_type to.now.of).kind (nodes.operand table.now (seen_environment env.old) (view_expression e.now))) else waits)) }
    ensures constness { IfOk result (λ w. w.constness ≡ consts.of_cast (consts.constness table.now (seen_environment env.old) (view_expression e.now))) }
    ensures all { OnOk result (shown out.new ≡ added (nodes.said table.now (seen_environment env.old) (view_expression e.now)).all (shown out.old)) }
    ensures behind { OnOk result (seen_environment env.new ≡ behind.behind_expression (seen_environment env.old) (view_expression e.now)) }
{
    let y = walk_operand(alloc, table, env, e, out)?;
    walked_cast(alloc, to, y.get())
}

/// The arguments of a call.
#[cycle(walk)]
fn walk_call<'a>(
    alloc: Global,
    table: &Table,
    env: &mut Environment<'a>,
    all: &'a [Expr],
    row: Option<&Row>,
    f: &Walked,
    out: &mut Judgements,
) -> Result<Boxed<Walked>, AllocError>
    requires { 0 < length (shown out.old) }
    ensures operand { IfOk result (λ w. seen_operand w.operand ≡ spec.valued (spec.called (option_copied row.entry) (seen_operand f.now.operand) (nodes.operands table.now (seen_environment env.old) (expressions_of (map view_expression all.now))))) }
    ensures constness { IfOk result (λ w. w.constness ≡ consts.of_none) }
    ensures all { OnOk result (shown out.new ≡ added (nodes.said_expressions table.now (seen_environment env.old) (expressions_of (map view_expression all.now))).all (shown out.old)) }
    ensures behind { OnOk result (seen_environment env.new ≡ behind.behind_expressions (seen_environment env.old) (expressions_of (map view_expression all.now))) }
{
    let xs = walk_all(alloc, table, env, all, out)?;
    walked_call(alloc, row, f, xs.as_slice())
}

/// Expressions one after another.
#[cycle(walk)]
fn walk_all<'a>(
    alloc: Global,
    table: &Table,
    env: &mut Environment<'a>,
    all: &'a [Expr],
    out: &mut Judgements,
) -> Result<Vec<Operand>, AllocError>
    requires { 0 < length (shown out.old) }
    ensures each { IfOk result (λ xs. seen_operands xs.items ≡ nodes.operands table.now (seen_environment env.old) (expressions_of (map view_expression all.now))) }
    ensures all { OnOk result (shown out.new ≡ added (nodes.said_expressions table.now (seen_environment env.old) (expressions_of (map view_expression all.now))).all (shown out.old)) }
    ensures behind { OnOk result (seen_environment env.new ≡ behind.behind_expressions (seen_environment env.old) (expressions_of (map view_expression all.now))) }
{
    let mut operands = Vec::new(alloc);
    for e in all {
        let x = walk_operand(alloc, table, env, e, out)?;
        let Walked {
            operand,
            constness: _,
        } = x.into_inner();
        operands.push(operand)?;
    }
    Ok(operands)
}

/// The sizes of an array.
#[cycle(walk)]
#[tactic(auto, using(crate::proofs::Joins::and_assoc, crate::proofs::Joins::and_true, crate::proofs::Firsts::sizes_said, crate::proofs::Firsts::sizes_are, crate::proofs::Firsts::sizes_behind))]
fn walk_sizes<'a>(
    alloc: Global,
    table: &Table,
    env: &mut Environment<'a>,
    all: &'a [Option<Expr>],
    out: &mut Judgements,
) -> Result<SizesPart, AllocError>
    requires { 0 < length (shown out.old) }
    ensures settled { IfOk result (λ w. w.settled ≡ (nodes.said_sizes table.now (seen_environment env.old) (tree.sizes_of (map (option_map view_expression) all.now))).settled) }
    ensures sizes { IfOk result (λ w. w.are_sizes ≡ sizes.are_sizes (seen_environment env.old) (tree.sizes_of (map (option_map view_expression) all.now))) }
    ensures all { OnOk result (shown out.new ≡ added (nodes.said_sizes table.now (seen_environment env.old) (tree.sizes_of (map (option_map view_expression) all.now))).all (shown out.old)) }
    ensures behind { OnOk result (seen_environment env.new ≡ behind.behind_sizes (seen_environment env.old) (tree.sizes_of (map (option_map view_expression) all.now))) }
{
    let mut settled = true;
    let mut are_sizes = true;
    for one in all {
        match one {
            Some(e) => {
                let x = walk_operand(alloc, table, env, e, out)?;
                settled = both(settled, x.get().operand.verdict.is_settled());
                are_sizes = both(are_sizes, x.get().constness.size);
            }
            None => {}
        }
    }
    Ok(SizesPart { settled, are_sizes })
}

/// A type name (C11 6.7.7).
#[cycle(walk)]
fn walk_type<'a>(
    alloc: Global,
    table: &Table,
    env: &mut Environment<'a>,
    t: &'a TypeName,
    out: &mut Judgements,
) -> Result<Boxed<Declared>, AllocError>
    requires { 0 < length (shown out.old) }
    ensures settled { IfOk result (λ w. w.settled ≡ (nodes.said_type table.now (seen_environment env.old) (view_type t.now)).settled) }
    ensures faults { IfOk result (λ w. w.faults ≡ faults.faults_type (seen_environment env.old) (view_type t.now)) }
    ensures of { IfOk result (λ w. seen_type w.of ≡ behind.named_type (seen_environment env.old) (view_type t.now)) }
    ensures all { OnOk result (shown out.new ≡ added (nodes.said_type table.now (seen_environment env.old) (view_type t.now)).all (shown out.old)) }
    ensures behind { OnOk result (seen_environment env.new ≡ behind.behind_type (seen_environment env.old) (view_type t.now)) }
{
    let of = Boxed::new(alloc, env.specified(t.specs.as_slice())?)?;
    let part = walk_specifiers(alloc, table, env, t.specs.as_slice(), out)?;
    let bare = walk_bare(alloc, table, env, &t.bare, of.get(), out)?;
    type_declared(alloc, part, bare)
}

/// Specifiers (C11 6.7.2).
#[cycle(walk)]
#[tactic(auto, using(crate::proofs::Joins::and_assoc, crate::proofs::Joins::and_true, crate::proofs::Joins::faults_assoc, crate::proofs::Joins::faults_last))]
pub fn walk_specifiers<'a>(
    alloc: Global,
    table: &Table,
    env: &mut Environment<'a>,
    all: &'a [SpecWord],
    out: &mut Judgements,
) -> Result<Part, AllocError>
    requires { 0 < length (shown out.old) }
    ensures settled { IfOk result (λ w. w.settled ≡ (nodes.said_specifiers table.now (seen_environment env.old) (specifiers_of (map view_specifier all.now))).settled) }
    ensures faults { IfOk result (λ w. w.faults ≡ faults.faults_specifiers (seen_environment env.old) (specifiers_of (map view_specifier all.now))) }
    ensures all { OnOk result (shown out.new ≡ added (nodes.said_specifiers table.now (seen_environment env.old) (specifiers_of (map view_specifier all.now))).all (shown out.old)) }
    ensures behind { OnOk result (seen_environment env.new ≡ behind.behind_specifiers (seen_environment env.old) (specifiers_of (map view_specifier all.now))) }
{
    let mut settled = true;
    let mut faults = Faults::none();
    for word in all {
        let part = walk_specifier(alloc, table, env, word, out)?;
        settled = both(settled, part.settled);
        faults = faults.and(part.faults);
    }
    Ok(Part { settled, faults })
}

#[cycle(walk)]
#[tactic(auto, using(crate::proofs::Joins::added_none))]
fn walk_specifier<'a>(
    alloc: Global,
    table: &Table,
    env: &mut Environment<'a>,
    word: &'a SpecWord,
    out: &mut Judgements,
) -> Result<Part, AllocError>
    requires { 0 < length (shown out.old) }
    ensures settled { IfOk result (λ w. w.settled ≡ (nodes.said_specifier table.now (seen_environment env.old) (view_specifier word.now)).settled) }
    ensures faults { IfOk result (λ w. w.faults ≡ faults.faults_specifier (seen_environment env.old) (view_specifier word.now)) }
    ensures all { OnOk result (shown out.new ≡ added (nodes.said_specifier table.now (seen_environment env.old) (view_specifier word.now)).all (shown out.old)) }
    ensures behind { OnOk result (seen_environment env.new ≡ behind.behind_specifier (seen_environment env.old) (view_specifier word.now)) }
{
    match word {
        SpecWord::StructTag(name) => {
            let faults = structure_tag_faults(env, name.as_bytes());
            let known = env.tag(name.as_bytes());
            env.mentioned(name.as_bytes(), known)?;
            Ok(Part {
                settled: true,
                faults,
            })
        }
        SpecWord::Struct(tag, members) => {
            walk_structure(alloc, table, env, members.as_slice(), tag, out)
        }
        SpecWord::EnumTag(name) => Ok(Part {
            settled: true,
            faults: enumeration_tag_faults(env, name.as_bytes()),
        }),
        SpecWord::Enum(tag, all, _) => {
            let faults = enumeration_faults(env, tag);
            env.with_optional_tag(tag, None)?;
            let settled = walk_enumerators(alloc, table, env, all.as_slice(), out)?;
            Ok(Part { settled, faults })
        }
        _ => Ok(Part {
            settled: true,
            faults: Faults::none(),
        }),
    }
}

/// A structure with its members (C11 6.7.2.1).
#[cycle(walk)]
fn walk_structure<'a>(
    alloc: Global,
    table: &Table,
    env: &mut Environment<'a>,
    all: &'a [Member],
    tag: &'a Option<Lexeme>,
    out: &mut Judgements,
) -> Result<Part, AllocError>
    requires { 0 < length (shown out.old) }
    ensures settled { IfOk result (λ w. w.settled ≡ (nodes.said_members table.now (behind.opened (seen_environment env.old) tag.now) no_members (tree.members_of (map view_member all.now))).settled) }
    ensures faults { IfOk result (λ w. w.faults ≡ faults.faults_of_both (faults.repeated_if (faults.structure_repeats (seen_environment env.old) tag.now)) (faults.faults_members (behind.opened (seen_environment env.old) tag.now) (tree.members_of (map view_member all.now)))) }
    ensures all { OnOk result (shown out.new ≡ added (nodes.said_members table.now (behind.opened (seen_environment env.old) tag.now) no_members (tree.members_of (map view_member all.now))).all (shown out.old)) }
    ensures behind { OnOk result (seen_environment env.new ≡ completed (behind.behind_members (behind.opened (seen_environment env.old) tag.now) (tree.members_of (map view_member all.now))) (defined_structure (seen_environment env.old) tag.now) (behind.members_of (behind.opened (seen_environment env.old) tag.now) no_members (tree.members_of (map view_member all.now)))) }
{
    let faults = structure_faults(env, tag);
    let number = env.defined_structure(tag)?;
    env.opened(tag)?;
    let mut known = Members::new(alloc);
    let part = walk_members(alloc, table, env, all, &mut known, out)?;
    env.completed(number, known);
    Ok(Part {
        settled: part.settled,
        faults: faults.and(part.faults),
    })
}

/// The members of a structure, behind those before them.
#[cycle(walk)]
#[tactic(auto, using(crate::proofs::Joins::and_assoc, crate::proofs::Joins::and_true, crate::proofs::Joins::faults_assoc, crate::proofs::Joins::faults_last))]
fn walk_members<'a>(
    alloc: Global,
    table: &Table,
    env: &mut Environment<'a>,
    all: &'a [Member],
    earlier: &mut Members<'a>,
    out: &mut Judgements,
) -> Result<Part, AllocError>
    requires { 0 < length (shown out.old) }
    ensures settled { IfOk result (λ w. w.settled ≡ (nodes.said_members table.now (seen_environment env.old) (seen_members earlier.old) (tree.members_of (map view_member all.now))).settled) }
    ensures faults { IfOk result (λ w. w.faults ≡ faults.faults_members (seen_environment env.old) (tree.members_of (map view_member all.now))) }
    ensures members { OnOk result (seen_members earlier.new ≡ behind.members_of (seen_environment env.old) (seen_members earlier.old) (tree.members_of (map view_member all.now))) }
    ensures all { OnOk result (shown out.new ≡ added (nodes.said_members table.now (seen_environment env.old) (seen_members earlier.old) (tree.members_of (map view_member all.now))).all (shown out.old)) }
    ensures behind { OnOk result (seen_environment env.new ≡ behind.behind_members (seen_environment env.old) (tree.members_of (map view_member all.now))) }
{
    let mut settled = true;
    let mut faults = Faults::none();
    for one in all {
        let part = walk_member(alloc, table, env, one, earlier, out)?;
        settled = both(settled, part.settled);
        faults = faults.and(part.faults);
    }
    Ok(Part { settled, faults })
}

/// Members of one type.
#[cycle(walk)]
#[tactic(auto, using(crate::proofs::Joins::added_twice))]
fn walk_member<'a>(
    alloc: Global,
    table: &Table,
    env: &mut Environment<'a>,
    one: &'a Member,
    earlier: &mut Members<'a>,
    out: &mut Judgements,
) -> Result<Part, AllocError>
    requires { 0 < length (shown out.old) }
    ensures settled { IfOk result (λ w. w.settled ≡ (parts.said_member table.now (seen_environment env.old) (seen_members earlier.old) (view_member one.now)).settled) }
    ensures faults { IfOk result (λ w. w.faults ≡ faults.faults_specifiers (seen_environment env.old) (view_member one.now).0) }
    ensures members { OnOk result (seen_members earlier.new ≡ parts.members_behind (seen_environment env.old) (seen_members earlier.old) (view_member one.now)) }
    ensures all { OnOk result (shown out.new ≡ added (parts.said_member table.now (seen_environment env.old) (seen_members earlier.old) (view_member one.now)).all (shown out.old)) }
    ensures behind { OnOk result (seen_environment env.new ≡ parts.behind_member (seen_environment env.old) (view_member one.now)) }
{
    let specs = one.specs.as_slice();
    let of = Boxed::new(alloc, env.specified(specs)?)?;
    let word = tag_word(specs);
    let part = walk_specifiers(alloc, table, env, specs, out)?;
    let names = one.names.as_slice();
    let named = walk_declarators(alloc, table, env, names, word, of.get(), earlier, out)?;
    Ok(Part {
        settled: both(part.settled, named),
        faults: part.faults,
    })
}

#[cycle(walk)]
#[tactic(auto, using(crate::proofs::Joins::and_assoc, crate::proofs::Joins::and_true))]
fn walk_declarators<'a>(
    alloc: Global,
    table: &Table,
    env: &mut Environment<'a>,
    all: &'a [Declarator],
    word: Option<&SpecWord>,
    of: &DeclaredType,
    earlier: &mut Members<'a>,
    out: &mut Judgements,
) -> Result<bool, AllocError>
    requires { 0 < length (shown out.old) }
    ensures settled { IfOk result (λ w. w ≡ (nodes.said_declarators table.now (seen_environment env.old) (seen_members earlier.old) (option_map (λ w. view_specifier w.now) word.entry) (seen_type of.now) (declarators_of (map view_declarator all.now))).settled) }
    ensures members { OnOk result (seen_members earlier.new ≡ behind.declared_members (seen_environment env.old) (seen_members earlier.old) (seen_type of.now) (declarators_of (map view_declarator all.now))) }
    ensures all { OnOk result (shown out.new ≡ added (nodes.said_declarators table.now (seen_environment env.old) (seen_members earlier.old) (option_map (λ w. view_specifier w.now) word.entry) (seen_type of.now) (declarators_of (map view_declarator all.now))).all (shown out.old)) }
    ensures behind { OnOk result (seen_environment env.new ≡ behind.behind_declarators (seen_environment env.old) (declarators_of (map view_declarator all.now))) }
{
    let mut settled = true;
    for d in all {
        let one = walk_named_member(alloc, table, env, d, word, of, earlier, out)?;
        settled = both(settled, one);
    }
    Ok(settled)
}

/// A member: its node, and those below it.
#[cycle(walk)]
fn walk_named_member<'a>(
    alloc: Global,
    table: &Table,
    env: &mut Environment<'a>,
    d: &'a Declarator,
    word: Option<&SpecWord>,
    of: &DeclaredType,
    earlier: &mut Members<'a>,
    out: &mut Judgements,
) -> Result<bool, AllocError>
    requires { 0 < length (shown out.old) }
    ensures settled { IfOk result (λ w. w ≡ (parts.said_named_member table.now (seen_environment env.old) (seen_members earlier.old) (option_map (λ w. view_specifier w.now) word.entry) (seen_type of.now) (view_declarator d.now)).settled) }
    ensures members { OnOk result (seen_members earlier.new ≡ with_member (seen_members earlier.old) (declarator_name (view_declarator d.now)) (behind.declared (seen_environment env.old) (seen_type of.now) (view_declarator d.now)).kind) }
    ensures all { OnOk result (shown out.new ≡ added (parts.said_named_member table.now (seen_environment env.old) (seen_members earlier.old) (option_map (λ w. view_specifier w.now) word.entry) (seen_type of.now) (view_declarator d.now)).all (shown out.old)) }
    ensures behind { OnOk result (seen_environment env.new ≡ behind.behind_declarator (seen_environment env.old) (view_declarator d.now)) }
{
    out.open()?;
    let unknown = both(is_own(d), tag_unknown(env, word));
    let by = walk_declarator(alloc, table, env, d, of, out)?;
    end_member(env, unknown, earlier, d, by, out)
}

#[cycle(walk)]
#[tactic(auto, using(crate::proofs::Joins::and_assoc, crate::proofs::Joins::and_true, crate::proofs::Firsts::enumerators_said, crate::proofs::Firsts::enumerators_behind))]
fn walk_enumerators<'a>(
    alloc: Global,
    table: &Table,
    env: &mut Environment<'a>,
    all: &'a [Enumerator],
    out: &mut Judgements,
) -> Result<bool, AllocError>
    requires { 0 < length (shown out.old) }
    ensures settled { IfOk result (λ w. w ≡ (nodes.said_enumerators table.now (seen_environment env.old) None (enumerators_of (map view_enumerator all.now))).settled) }
    ensures all { OnOk result (shown out.new ≡ added (nodes.said_enumerators table.now (seen_environment env.old) None (enumerators_of (map view_enumerator all.now))).all (shown out.old)) }
    ensures behind { OnOk result (seen_environment env.new ≡ behind.behind_enumerators (seen_environment env.old) None (enumerators_of (map view_enumerator all.now))) }
{
    let mut settled = true;
    let mut previous = None;
    for one in all {
        let value = enumerator(&*env, one, previous);
        let part = walk_enumerator(alloc, table, env, one, value, out)?;
        settled = both(settled, part);
        previous = value;
    }
    Ok(settled)
}

/// An enumerator with this value: its node, and those below it.
#[cycle(walk)]
fn walk_enumerator<'a>(
    alloc: Global,
    table: &Table,
    env: &mut Environment<'a>,
    one: &'a Enumerator,
    value: Option<i32>,
    out: &mut Judgements,
) -> Result<bool, AllocError>
    requires { 0 < length (shown out.old) }
    ensures settled { IfOk result (λ w. w ≡ (parts.said_enumerator table.now (seen_environment env.old) (view_enumerator one.now) value).settled) }
    ensures all { OnOk result (shown out.new ≡ added (parts.said_enumerator table.now (seen_environment env.old) (view_enumerator one.now) value).all (shown out.old)) }
    ensures behind { OnOk result (seen_environment env.new ≡ parts.behind_enumerator (seen_environment env.old) (view_enumerator one.now) value) }
{
    out.open()?;
    match &one.value {
        Some(e) => {
            let x = walk_operand(alloc, table, env, e, out)?;
            let below = x.get().operand.verdict.is_settled();
            end_enumerator(env, below, one.name.as_bytes(), value, out)
        }
        None => end_enumerator(env, true, one.name.as_bytes(), value, out),
    }
}

/// The sizes and the parameters of a declarator, whose specifiers give this type (C11 6.7.6).
#[cycle(walk)]
#[tactic(auto, using(crate::proofs::Joins::added_none, crate::proofs::Joins::added_twice, crate::proofs::Views::view_array, crate::proofs::Views::view_pointer))]
pub fn walk_declarator<'a>(
    alloc: Global,
    table: &Table,
    env: &mut Environment<'a>,
    d: &'a Declarator,
    of: &DeclaredType,
    out: &mut Judgements,
) -> Result<Boxed<Declared>, AllocError>
    requires { 0 < length (shown out.old) }
    ensures settled { IfOk result (λ w. w.settled ≡ (nodes.said_declarator table.now (seen_environment env.old) (view_declarator d.now)).settled) }
    ensures sizes { IfOk result (λ w. w.are_sizes ≡ sizes.are_sizes (seen_environment env.old) (sizes.sizes_of (view_declarator d.now))) }
    ensures faults { IfOk result (λ w. w.faults ≡ faults.faults_declarator (seen_environment env.old) (seen_type of.now) (view_declarator d.now)) }
    ensures of { IfOk result (λ w. seen_type w.of ≡ behind.declared (seen_environment env.old) (seen_type of.now) (view_declarator d.now)) }
    ensures all { OnOk result (shown out.new ≡ added (nodes.said_declarator table.now (seen_environment env.old) (view_declarator d.now)).all (shown out.old)) }
    ensures behind { OnOk result (seen_environment env.new ≡ behind.behind_declarator (seen_environment env.old) (view_declarator d.now)) }
{
    match d {
        Declarator::Plain(stars, _) => plain_declared(alloc, of, stars.as_slice()),
        Declarator::Array(stars, _, all) => {
            let part = walk_sizes(alloc, table, env, all.as_slice(), out)?;
            array_declared(alloc, of, stars.as_slice(), all.as_slice(), part)
        }
        Declarator::Function(stars, _, params) => {
            let items = params.items.as_slice();
            let takes = walk_prototype(alloc, table, env, items, out)?;
            function_declared(alloc, of, stars.as_slice(), takes)
        }
        Declarator::Pointer(stars, quals, _, all, params) => {
            let part = walk_sizes(alloc, table, env, all.as_slice(), out)?;
            let items = params.items.as_slice();
            let takes = walk_prototype(alloc, table, env, items, out)?;
            pointer_declared(
                alloc,
                of,
                stars.as_slice(),
                quals.as_slice(),
                all.as_slice(),
                part,
                takes,
            )
        }
    }
}

/// Parameters without a body, whose scope ends with them (C11 6.2.1p4).
#[cycle(walk)]
fn walk_prototype<'a>(
    alloc: Global,
    table: &Table,
    env: &mut Environment<'a>,
    all: &'a [Parameter],
    out: &mut Judgements,
) -> Result<Boxed<ParametersPart>, AllocError>
    requires { 0 < length (shown out.old) }
    ensures settled { IfOk result (λ w. w.settled ≡ (nodes.said_parameters table.now false (entered (seen_environment env.old)) (parameters_of (map view_parameter all.now))).settled) }
    ensures faults { IfOk result (λ w. w.faults ≡ faults.faults_parameters false (entered (seen_environment env.old)) (parameters_of (map view_parameter all.now))) }
    ensures kinds { IfOk result (λ w. map view w.kinds.items ≡ behind.parameter_kinds false (entered (seen_environment env.old)) (parameters_of (map view_parameter all.now))) }
    ensures all { OnOk result (shown out.new ≡ added (nodes.said_parameters table.now false (entered (seen_environment env.old)) (parameters_of (map view_parameter all.now))).all (shown out.old)) }
    ensures behind { OnOk result (seen_environment env.new ≡ left (behind.behind_parameters false (entered (seen_environment env.old)) (parameters_of (map view_parameter all.now)))) }
{
    env.entered()?;
    let takes = walk_parameters(alloc, table, env, all, false, out)?;
    env.left();
    Ok(takes)
}

/// Parameters, of a function with a body or without (C11 6.7.6.3).
#[cycle(walk)]
#[tactic(auto, using(crate::proofs::Joins::and_assoc, crate::proofs::Joins::and_true, crate::proofs::Joins::faults_assoc, crate::proofs::Joins::faults_last))]
pub fn walk_parameters<'a>(
    alloc: Global,
    table: &Table,
    env: &mut Environment<'a>,
    all: &'a [Parameter],
    has_body: bool,
    out: &mut Judgements,
) -> Result<Boxed<ParametersPart>, AllocError>
    requires { 0 < length (shown out.old) }
    ensures settled { IfOk result (λ w. w.settled ≡ (nodes.said_parameters table.now has_body (seen_environment env.old) (parameters_of (map view_parameter all.now))).settled) }
    ensures faults { IfOk result (λ w. w.faults ≡ faults.faults_parameters has_body (seen_environment env.old) (parameters_of (map view_parameter all.now))) }
    ensures kinds { IfOk result (λ w. map view w.kinds.items ≡ behind.parameter_kinds has_body (seen_environment env.old) (parameters_of (map view_parameter all.now))) }
    ensures all { OnOk result (shown out.new ≡ added (nodes.said_parameters table.now has_body (seen_environment env.old) (parameters_of (map view_parameter all.now))).all (shown out.old)) }
    ensures behind { OnOk result (seen_environment env.new ≡ behind.behind_parameters has_body (seen_environment env.old) (parameters_of (map view_parameter all.now))) }
{
    let mut settled = true;
    let mut faults = Faults::none();
    let mut kinds = Vec::new(alloc);
    for one in all {
        let by = walk_parameter(alloc, table, env, one, has_body, out)?;
        settled = both(settled, by.get().settled);
        faults = faults.and(by.get().faults);
        kinds.push(by.get().of.kind.share()?)?;
    }
    Ok(Boxed::new(
        alloc,
        ParametersPart {
            settled,
            faults,
            kinds,
        },
    )?)
}

#[cycle(walk)]
#[tactic(auto, using(crate::proofs::Joins::added_twice))]
fn walk_parameter<'a>(
    alloc: Global,
    table: &Table,
    env: &mut Environment<'a>,
    p: &'a Parameter,
    has_body: bool,
    out: &mut Judgements,
) -> Result<Boxed<Declared>, AllocError>
    requires { 0 < length (shown out.old) }
    ensures settled { IfOk result (λ w. w.settled ≡ (parts.said_parameter table.now has_body (seen_environment env.old) (view_parameter p.now)).settled) }
    ensures faults { IfOk result (λ w. w.faults ≡ faults.faults_form (seen_environment env.old) (view_parameter p.now).0 (view_parameter p.now).1) }
    ensures of { IfOk result (λ w. seen_type w.of ≡ parts.parameter_type (seen_environment env.old) (view_parameter p.now)) }
    ensures all { OnOk result (shown out.new ≡ added (parts.said_parameter table.now has_body (seen_environment env.old) (view_parameter p.now)).all (shown out.old)) }
    ensures behind { OnOk result (seen_environment env.new ≡ parts.behind_parameter has_body (seen_environment env.old) (view_parameter p.now)) }
{
    let specs = p.specs.as_slice();
    let of = Boxed::new(alloc, env.specified(specs)?)?;
    let word = tag_word(specs);
    match &p.form {
        ParamForm::Named(d) => {
            out.open()?;
            let part = walk_specifiers(alloc, table, env, specs, out)?;
            walk_named_parameter(alloc, table, env, d, word, of.get(), part, has_body, out)
        }
        ParamForm::Bare(b) => {
            let part = walk_specifiers(alloc, table, env, specs, out)?;
            walk_bare_parameter(alloc, table, env, b, word, of.get(), part, out)
        }
    }
}

/// A parameter with a name, behind its specifiers, which give this: its node ends.
#[cycle(walk)]
#[tactic(auto, using(crate::proofs::Joins::length_added))]
fn walk_named_parameter<'a>(
    alloc: Global,
    table: &Table,
    env: &mut Environment<'a>,
    d: &'a Declarator,
    word: Option<&SpecWord>,
    of: &DeclaredType,
    part: Part,
    has_body: bool,
    out: &mut Judgements,
) -> Result<Boxed<Declared>, AllocError>
    requires { 1 < length (shown out.old) }
    ensures settled { IfOk result (λ w. w.settled ≡ is_settled (parts.parameter_judged table.now (seen_environment env.old) part.settled part.faults (option_map (λ w. view_specifier w.now) word.entry) (seen_type of.now) (view_declarator d.now))) }
    ensures faults { IfOk result (λ w. w.faults ≡ faults.no_faults) }
    ensures of { IfOk result (λ w. seen_type w.of ≡ adjusted (behind.declared (seen_environment env.old) (seen_type of.now) (view_declarator d.now))) }
    ensures all { OnOk result (shown out.new ≡ closed (bound (parts.parameter_judged table.now (seen_environment env.old) part.settled part.faults (option_map (λ w. view_specifier w.now) word.entry) (seen_type of.now) (view_declarator d.now)) (bound_to (behind.with_parameter has_body (behind.behind_declarator (seen_environment env.old) (view_declarator d.now)) (declarator_name (view_declarator d.now)) (adjusted (behind.declared (seen_environment env.old) (seen_type of.now) (view_declarator d.now)))) (declarator_name (view_declarator d.now)))) (added (nodes.said_declarator table.now (seen_environment env.old) (view_declarator d.now)).all (shown out.old))) }
    ensures behind { OnOk result (seen_environment env.new ≡ behind.with_parameter has_body (behind.behind_declarator (seen_environment env.old) (view_declarator d.now)) (declarator_name (view_declarator d.now)) (adjusted (behind.declared (seen_environment env.old) (seen_type of.now) (view_declarator d.now)))) }
{
    let unknown = both(is_own(d), tag_unknown(env, word));
    let by = walk_declarator(alloc, table, env, d, of, out)?;
    end_parameter(alloc, env, has_body, unknown, part, d, by, out)
}

/// A parameter without a name, behind its specifiers, which give this.
#[cycle(walk)]
fn walk_bare_parameter<'a>(
    alloc: Global,
    table: &Table,
    env: &mut Environment<'a>,
    b: &'a Bare,
    word: Option<&SpecWord>,
    of: &DeclaredType,
    part: Part,
    out: &mut Judgements,
) -> Result<Boxed<Declared>, AllocError>
    requires { 0 < length (shown out.old) }
    ensures settled { IfOk result (λ w. w.settled ≡ (part.settled && (nodes.said_bare table.now (seen_environment env.old) (view_bare b.now)).settled)) }
    ensures faults { IfOk result (λ w. w.faults ≡ parts.bare_faults (seen_environment env.old) part.faults (option_map (λ w. view_specifier w.now) word.entry) (seen_type of.now) (view_bare b.now)) }
    ensures of { IfOk result (λ w. seen_type w.of ≡ adjusted (behind.bare (seen_environment env.old) (seen_type of.now) (view_bare b.now))) }
    ensures all { OnOk result (shown out.new ≡ added (nodes.said_bare table.now (seen_environment env.old) (view_bare b.now)).all (shown out.old)) }
    ensures behind { OnOk result (seen_environment env.new ≡ behind.behind_bare (seen_environment env.old) (view_bare b.now)) }
{
    let unknown = both(is_own_bare(b), tag_unknown(env, word));
    let by = walk_bare(alloc, table, env, b, of, out)?;
    bare_parameter(alloc, env, unknown, part, by)
}

/// The parameters of a declarator without a name.
#[cycle(walk)]
#[tactic(auto, using(crate::proofs::Joins::added_none))]
fn walk_bare<'a>(
    alloc: Global,
    table: &Table,
    env: &mut Environment<'a>,
    b: &'a Bare,
    of: &DeclaredType,
    out: &mut Judgements,
) -> Result<Boxed<Declared>, AllocError>
    requires { 0 < length (shown out.old) }
    ensures settled { IfOk result (λ w. w.settled ≡ (nodes.said_bare table.now (seen_environment env.old) (view_bare b.now)).settled) }
    ensures faults { IfOk result (λ w. w.faults ≡ faults.faults_bare (seen_environment env.old) (seen_type of.now) (view_bare b.now)) }
    ensures of { IfOk result (λ w. seen_type w.of ≡ behind.bare (seen_environment env.old) (seen_type of.now) (view_bare b.now)) }
    ensures all { OnOk result (shown out.new ≡ added (nodes.said_bare table.now (seen_environment env.old) (view_bare b.now)).all (shown out.old)) }
    ensures behind { OnOk result (seen_environment env.new ≡ behind.behind_bare (seen_environment env.old) (view_bare b.now)) }
{
    match b {
        Bare::Plain(stars) => plain_declared(alloc, of, stars.as_slice()),
        Bare::Pointer(stars, quals, params) => {
            let items = params.items.as_slice();
            let takes = walk_prototype(alloc, table, env, items, out)?;
            bare_declared(alloc, of, stars.as_slice(), quals.as_slice(), takes)
        }
    }
}

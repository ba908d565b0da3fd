//! The rules that the tables ask.

use crate::described::{is_wanted, operands};
use c_kinds::CType;
use c_rules::{MisfitKind, Operand, Verdict};
use c_tree::{AssignOp, BinaryOp, UnaryOp};
use std::alloc::{AllocError, Global};

/// A rule on operands.
#[derive(Clone, Copy)]
pub(crate) enum Rule {
    Unary(UnaryOp),
    Binary(BinaryOp),
    Assign(AssignOp),
    Step,
    Comma,
    Choose,
    Paren,
    Index,
    Dot,
    Arrow,
    Call,
    Cast,
    SizeOf,
    Condition,
    Switch,
    Return,
    Initial,
    Object(bool, bool),
    Passed,
    Redeclared,
    List,
    Positional(bool),
    Main,
}

/// What an operator or a statement says of an operand.
fn of_one(alloc: Global, rule: Rule, x: &Operand) -> Result<Verdict, AllocError> {
    match rule {
        Rule::Unary(op) => c_rules::unary(alloc, op, x),
        Rule::Step => c_rules::step(x),
        Rule::Paren => c_rules::paren(x),
        Rule::SizeOf => Ok(c_rules::size_of(x)),
        Rule::Condition => Ok(c_rules::condition(x)),
        Rule::Switch => Ok(c_rules::switched(x)),
        _ => Ok(Verdict::unless(of_declared(rule, x), Verdict::Silent)),
    }
}

/// What is wrong with a declaration of the operand's kind.
fn of_declared(rule: Rule, x: &Operand) -> Option<MisfitKind> {
    match (rule, x.verdict.kind()) {
        (Rule::Object(complete, function), Some(kind)) => {
            c_rules::object_misfit(complete, function, kind)
        }
        (Rule::Passed, Some(kind)) => c_rules::passed_misfit(kind),
        (Rule::List, Some(kind)) => c_rules::list_misfit(kind),
        (Rule::Positional(sole), Some(kind)) => {
            c_rules::positional_misfit(kind, sole, x.form.constant)
        }
        (Rule::Main, kind) => c_rules::main_misfit(kind),
        _ => Some(MisfitKind::NotConstant),
    }
}

/// What a rule says of an operand beside a kind, that of a member, of a cast, of a result or of what is initialised.
fn beside(rule: Rule, kind: Option<&CType>, x: &Operand) -> Result<Verdict, AllocError> {
    match (rule, kind) {
        (Rule::Dot, _) => c_rules::dot(kind, x),
        (Rule::Arrow, _) => c_rules::arrow(kind, x),
        (Rule::Cast, Some(kind)) => c_rules::cast(kind, x),
        (Rule::Return, Some(kind)) => Ok(c_rules::returned(kind, x)),
        (Rule::Initial, Some(kind)) => Ok(Verdict::unless(
            c_rules::initialiser_misfit(kind, x),
            Verdict::Silent,
        )),
        (Rule::Redeclared, Some(before)) => match x.verdict.kind() {
            Some(now) => Ok(Verdict::unless(
                c_rules::redeclared_misfit(before, now),
                Verdict::Silent,
            )),
            None => Ok(Verdict::Waits),
        },
        _ => Ok(Verdict::Waits),
    }
}

/// What a rule says of two operands.
fn of_two(rule: Rule, x: &Operand, y: &Operand) -> Result<Verdict, AllocError> {
    match rule {
        Rule::Binary(op) => c_rules::binary(op, x, y),
        Rule::Assign(op) => c_rules::assign(op, x, y),
        Rule::Comma => c_rules::comma(x, y),
        Rule::Index => c_rules::index(x, y),
        _ => beside(rule, x.verdict.kind(), y),
    }
}

fn judged(alloc: Global, rule: Rule, xs: &[Operand]) -> Result<Verdict, AllocError> {
    match (rule, xs) {
        (Rule::Call, [callee, arguments @ ..]) => c_rules::call(callee, arguments),
        (Rule::Choose, [first, x, y]) => c_rules::choose(first, x, y),
        (_, [x, y]) => of_two(rule, x, y),
        (_, [x]) => of_one(alloc, rule, x),
        _ => Ok(Verdict::Waits),
    }
}

/// Operands, and what a rule says of them.
pub(crate) struct Case {
    /// The rule.
    pub(crate) rule: Rule,
    /// The operands.
    pub(crate) on: &'static [u8],
    /// What is said.
    pub(crate) gives: &'static [u8],
}

/// The first case whose verdict isn't as wanted, by its place.
fn first_wrong(alloc: Global, cases: &[Case]) -> Result<Option<usize>, AllocError> {
    for (k, case) in cases.iter().enumerate() {
        let xs = operands(alloc, case.on)?;
        let verdict = judged(alloc, case.rule, xs.as_slice())?;
        if !is_wanted(alloc, &verdict, case.gives)? {
            return Ok(Some(k));
        }
    }
    Ok(None)
}

/// The first case of the first table that has one whose verdict isn't as wanted, by the places of both.
pub(crate) fn wrong_in(
    alloc: Global,
    tables: &[&[Case]],
) -> Result<Option<(usize, usize)>, AllocError> {
    for (t, table) in tables.iter().enumerate() {
        if let Some(k) = first_wrong(alloc, table)? {
            return Ok(Some((t, k)));
        }
    }
    Ok(None)
}

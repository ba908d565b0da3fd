//! Statements (C11 6.8).

ghost use Rattle.std.specs.Prelude.{◌≡◌, ◌<◌, ◌∷◌, [], length, map, option_map, true, Some, None, IfOk, OnOk};
ghost use Rattle.c_judgements.specs.Parts.{added, closed};
ghost use Rattle.c_bindings.specs.Told.{plainly};
ghost use Rattle.c_kinds.specs.View.{view};
ghost use Rattle.c_tree.specs.Tree as tree;
ghost use Rattle.c_tree.specs.View.{view_expression};
ghost use Rattle.c_tree.specs.StatementView.{view_start, view_statement, statements_of};
ghost use Rattle.c_environment.specs.Behind.{behind_expression};
ghost use Rattle.c_environment.specs.Environment.{entered, left, with_label};
ghost use Rattle.c_environment.specs.Scopes as scopes;
ghost use Rattle.c_environment.specs.Seen.{seen_environment};
ghost use Rattle.c_rules.specs.Statements as rule;
ghost use Rattle.c_rules.specs.Seen.{seen, seen_operand};
ghost use Rattle.c_declared.specs.Nodes as nodes;
ghost use Rattle.c_declared.specs.Said.{both, once};
ghost use Rattle.c_declared.specs.Seen.{shown};
ghost use Rattle.c_judged.specs.Seen.{seen_body, seen_cases};
ghost use Rattle.c_judged.specs.Statements as spec;

use crate::cases::Cases;
use crate::declarations::walk_declaration;
use base_core::Lexeme;
use c_bindings::Told;
use c_declared::{Judgements, Walked, both, broken, once, walk_operand};
use c_environment::Environment;
use c_grammar::Names;
use c_kinds::CType;
use c_rules::{MisfitKind, Verdict, condition, evaluated, return_nothing, returned, switched};
use c_tree::{Expr, ForStart, Stmt};
use posix_table::Table;
use sqlite_items::Boxed;
use std::alloc::{AllocError, Global};

/// What statements know of their function.
#[derive(Drop)]
pub(crate) struct Body {
    /// The kind of its result.
    pub(crate) result: CType,
    /// The labels in it.
    pub(crate) labels: Names,
}

fn evaluated_by(x: &Option<Boxed<Walked>>) -> Verdict
    ensures { seen result ≡ spec.evaluated_by (option_map (λ w. seen_operand w.operand) x.now) }
{
    match x {
        Some(x) => evaluated(&x.get().operand),
        None => Verdict::Silent,
    }
}

fn condition_by(x: &Option<Boxed<Walked>>) -> Verdict
    ensures { seen result ≡ spec.condition_by (option_map (λ w. seen_operand w.operand) x.now) }
{
    match x {
        Some(x) => condition(&x.get().operand),
        None => Verdict::Silent,
    }
}

fn return_by(result_kind: &CType, x: &Option<Boxed<Walked>>) -> Verdict
    ensures { seen result ≡ spec.return_by (view result_kind.now) (option_map (λ w. seen_operand w.operand) x.now) }
{
    match x {
        Some(x) => returned(result_kind, &x.get().operand),
        None => return_nothing(result_kind),
    }
}

/// Whether an expression that may be missing is settled.
fn is_settled(x: &Option<Boxed<Walked>>) -> bool
    ensures { result ≡ spec.settled_by (option_map (λ w. seen_operand w.operand) x.now) }
{
    match x {
        Some(x) => x.get().operand.verdict.is_settled(),
        None => true,
    }
}

/// An expression that may be missing. Err where there is not enough memory.
#[tactic(auto, using(crate::proofs::Joins::added_none))]
fn walk_optional<'a>(
    alloc: Global,
    table: &Table,
    env: &mut Environment<'a>,
    x: &'a Option<Expr>,
    out: &mut Judgements,
) -> Result<Option<Boxed<Walked>>, AllocError>
    requires { 0 < length (shown out.old) }
    ensures operand { IfOk result (λ w. option_map (λ v. seen_operand v.operand) w ≡ spec.operand_if_any table.now (seen_environment env.old) (option_map view_expression x.now)) }
    ensures all { OnOk result (shown out.new ≡ added (spec.said_optional table.now (seen_environment env.old) (option_map view_expression x.now)).all (shown out.old)) }
    ensures behind { OnOk result (seen_environment env.new ≡ scopes.behind_optional (seen_environment env.old) (option_map view_expression x.now)) }
{
    match x {
        Some(x) => Ok(Some(walk_operand(alloc, table, env, x, out)?)),
        None => Ok(None),
    }
}

/// An expression with `;`. Err where there is not enough memory.
fn walk_evaluated<'a>(
    alloc: Global,
    table: &Table,
    env: &mut Environment<'a>,
    x: &'a Option<Expr>,
    out: &mut Judgements,
) -> Result<(), AllocError>
    requires { 0 < length (shown out.old) }
    ensures all { OnOk result (shown out.new ≡ added (spec.said_evaluated table.now (seen_environment env.old) (option_map view_expression x.now)).all (shown out.old)) }
    ensures behind { OnOk result (seen_environment env.new ≡ scopes.behind_optional (seen_environment env.old) (option_map view_expression x.now)) }
{
    out.open()?;
    let x = walk_optional(alloc, table, env, x, out)?;
    out.close(evaluated_by(&x));
    Ok(())
}

/// A return. Err where there is not enough memory.
fn walk_return<'a>(
    alloc: Global,
    table: &Table,
    env: &mut Environment<'a>,
    x: &'a Option<Expr>,
    f: &Body,
    out: &mut Judgements,
) -> Result<(), AllocError>
    requires { 0 < length (shown out.old) }
    ensures all { OnOk result (shown out.new ≡ added (spec.said_return table.now (seen_body f.now) (seen_environment env.old) (option_map view_expression x.now)).all (shown out.old)) }
    ensures behind { OnOk result (seen_environment env.new ≡ scopes.behind_optional (seen_environment env.old) (option_map view_expression x.now)) }
{
    out.open()?;
    let x = walk_optional(alloc, table, env, x, out)?;
    out.close(return_by(&f.result, &x));
    Ok(())
}

/// A case. Err where there is not enough memory.
fn walk_case<'a>(
    alloc: Global,
    table: &Table,
    env: &mut Environment<'a>,
    x: &'a Expr,
    cases: &mut Cases,
    out: &mut Judgements,
) -> Result<(), AllocError>
    requires { 0 < length (shown out.old) }
    ensures all { OnOk result (shown out.new ≡ added (spec.said_case table.now (seen_environment env.old) (seen_cases cases.old) (view_expression x.now)).all (shown out.old)) }
    ensures behind { OnOk result (seen_environment env.new ≡ behind_expression (seen_environment env.old) (view_expression x.now)) }
    ensures cases { OnOk result (seen_cases cases.new ≡ spec.with_value (seen_cases cases.old) (spec.value_in (seen_environment env.old) (seen_cases cases.old).of (view_expression x.now))) }
{
    let value = cases.value(env, x);
    let own = cases.rule(value);
    cases.with_value(value)?;
    out.open()?;
    let x = walk_operand(alloc, table, env, x, out)?;
    let own = once(x.get().operand.verdict.is_settled(), own);
    out.close_told(Told::valued(own, value));
    Ok(())
}

/// A label. Err where there is not enough memory.
fn walk_label<'a>(
    env: &mut Environment<'a>,
    name: &'a Lexeme,
    out: &mut Judgements,
) -> Result<(), AllocError>
    ensures all { OnOk result (shown out.new ≡ added (plainly (spec.label_rule (seen_environment env.old) name.now) ∷ []) (shown out.old)) }
    ensures behind { OnOk result (seen_environment env.new ≡ with_label (seen_environment env.old) name.now) }
{
    let name = name.as_bytes();
    let twice = broken(env.is_label(name), MisfitKind::DeclaredTwice);
    out.push(Verdict::unless(twice, Verdict::Silent))?;
    env.with_label(name)
}

/// What is said of a goto.
fn goto_rule(f: &Body, name: &Lexeme) -> Verdict
    ensures { seen result ≡ spec.goto_rule (seen_body f.now) name.now }
{
    let unknown = !f.labels.contains(name.as_bytes());
    Verdict::unless(broken(unknown, MisfitKind::UnknownName), Verdict::Silent)
}

/// What stands first in the brackets of a for: whether it is settled. Err where there is not enough memory.
#[tactic(auto, using(crate::proofs::Settled::optional))]
fn walk_start<'a>(
    alloc: Global,
    table: &Table,
    env: &mut Environment<'a>,
    a: &'a ForStart,
    out: &mut Judgements,
) -> Result<bool, AllocError>
    requires { 0 < length (shown out.old) }
    ensures settled { IfOk result (λ w. w ≡ (spec.said_start table.now (seen_environment env.old) (view_start a.now)).settled) }
    ensures all { OnOk result (shown out.new ≡ added (spec.said_start table.now (seen_environment env.old) (view_start a.now)).all (shown out.old)) }
    ensures behind { OnOk result (seen_environment env.new ≡ scopes.behind_start (seen_environment env.old) (view_start a.now)) }
{
    match a {
        ForStart::Decl(d) => {
            walk_declaration(alloc, table, env, d, out)?;
            Ok(true)
        }
        ForStart::Expr(x) => {
            let x = walk_optional(alloc, table, env, x, out)?;
            Ok(is_settled(&x))
        }
    }
}

/// What stands in the brackets of a for: what is said of the for. Err where there is not enough memory.
#[tactic(auto, using(crate::proofs::Settled::optional, crate::proofs::Joins::added_twice))]
fn walk_control<'a>(
    alloc: Global,
    table: &Table,
    env: &mut Environment<'a>,
    a: &'a ForStart,
    x: &'a Option<Expr>,
    y: &'a Option<Expr>,
    out: &mut Judgements,
) -> Result<Verdict, AllocError>
    requires { 0 < length (shown out.old) }
    ensures own { IfOk result (λ w. seen w ≡ once (spec.said_control table.now (seen_environment env.old) (view_start a.now) (option_map view_expression x.now) (option_map view_expression y.now)) (spec.condition_by (spec.operand_if_any table.now (scopes.behind_start (seen_environment env.old) (view_start a.now)) (option_map view_expression x.now)))) }
    ensures all { OnOk result (shown out.new ≡ added (spec.said_control table.now (seen_environment env.old) (view_start a.now) (option_map view_expression x.now) (option_map view_expression y.now)).all (shown out.old)) }
    ensures behind { OnOk result (seen_environment env.new ≡ scopes.behind_optional (scopes.behind_optional (scopes.behind_start (seen_environment env.old) (view_start a.now)) (option_map view_expression x.now)) (option_map view_expression y.now)) }
{
    let settled = walk_start(alloc, table, env, a, out)?;
    let x = walk_optional(alloc, table, env, x, out)?;
    let settled = both(settled, is_settled(&x));
    let y = walk_optional(alloc, table, env, y, out)?;
    let settled = both(settled, is_settled(&y));
    Ok(once(settled, condition_by(&x)))
}

/// A statement behind the cases before it. Err where there is not enough memory.
#[cycle(statements)]
pub(crate) fn walk_statement<'a>(
    alloc: Global,
    table: &Table,
    env: &mut Environment<'a>,
    s: &'a Stmt,
    f: &Body,
    cases: &mut Cases,
    out: &mut Judgements,
) -> Result<(), AllocError>
    requires { 0 < length (shown out.old) }
    ensures all { OnOk result (shown out.new ≡ added (spec.said_statement table.now (seen_body f.now) (seen_environment env.old) (seen_cases cases.old) (view_statement s.now)).all (shown out.old)) }
    ensures behind { OnOk result (seen_environment env.new ≡ scopes.behind_statement (seen_environment env.old) (view_statement s.now)) }
    ensures cases { OnOk result (seen_cases cases.new ≡ spec.behind_cases (seen_environment env.old) (seen_cases cases.old) (view_statement s.now)) }
{
    match s {
        Stmt::Block(all) => {
            let mut none = Cases::none(alloc);
            walk_block(alloc, table, env, all.as_slice(), f, &mut none, out)
        }
        Stmt::Decl(d) => walk_declaration(alloc, table, env, d, out),
        Stmt::Expr(x) => walk_evaluated(alloc, table, env, x, out),
        Stmt::If(x, s, r) => match r {
            None => walk_guarded(alloc, table, env, s.get(), x, f, out),
            Some(r) => {
                let own = walk_first(alloc, table, env, s.get(), x, f, out)?;
                walk_last(alloc, table, env, r.get(), own, f, out)
            }
        },
        Stmt::While(x, s) => walk_guarded(alloc, table, env, s.get(), x, f, out),
        Stmt::DoWhile(s, x) => walk_do(alloc, table, env, s.get(), x, f, out),
        Stmt::For(a, x, y, s) => walk_for(alloc, table, env, s.get(), a, x, y, f, out),
        Stmt::Switch(x, s) => walk_switch(alloc, table, env, s.get(), x, f, out),
        Stmt::Case(x) => walk_case(alloc, table, env, x, cases, out),
        Stmt::Default => {
            out.push(cases.default_rule())?;
            cases.with_default();
            Ok(())
        }
        Stmt::Label(name) => walk_label(env, name, out),
        Stmt::Break | Stmt::Continue => out.push(Verdict::Silent),
        Stmt::Return(x) => walk_return(alloc, table, env, x, f, out),
        Stmt::Goto(name) => out.push(goto_rule(f, name)),
    }
}

/// A block, behind the cases of its switch. Err where there is not enough memory.
#[cycle(statements)]
fn walk_block<'a>(
    alloc: Global,
    table: &Table,
    env: &mut Environment<'a>,
    all: &'a [Stmt],
    f: &Body,
    cases: &mut Cases,
    out: &mut Judgements,
) -> Result<(), AllocError>
    requires { 0 < length (shown out.old) }
    ensures all { OnOk result (shown out.new ≡ added (spec.said_block table.now (seen_body f.now) (seen_environment env.old) (seen_cases cases.old) (statements_of (map view_statement all.now))).all (shown out.old)) }
    ensures behind { OnOk result (seen_environment env.new ≡ left (scopes.behind_statements (entered (seen_environment env.old)) (statements_of (map view_statement all.now)))) }
{
    out.open()?;
    env.entered()?;
    walk_statements(alloc, table, env, all, f, cases, out)?;
    env.left();
    out.close(Verdict::Silent);
    Ok(())
}

/// Statements, one after another. Err where there is not enough memory.
#[cycle(statements)]
pub(crate) fn walk_statements<'a>(
    alloc: Global,
    table: &Table,
    env: &mut Environment<'a>,
    all: &'a [Stmt],
    f: &Body,
    cases: &mut Cases,
    out: &mut Judgements,
) -> Result<(), AllocError>
    requires { 0 < length (shown out.old) }
    ensures all { OnOk result (shown out.new ≡ added (spec.said_statements table.now (seen_body f.now) (seen_environment env.old) (seen_cases cases.old) (statements_of (map view_statement all.now))).all (shown out.old)) }
    ensures behind { OnOk result (seen_environment env.new ≡ scopes.behind_statements (seen_environment env.old) (statements_of (map view_statement all.now))) }
{
    for s in all {
        walk_statement(alloc, table, env, s, f, cases, out)?;
    }
    Ok(())
}

/// A statement outside of the block of a switch. Err where there is not enough memory.
#[cycle(statements)]
pub(crate) fn walk_elsewhere<'a>(
    alloc: Global,
    table: &Table,
    env: &mut Environment<'a>,
    s: &'a Stmt,
    f: &Body,
    out: &mut Judgements,
) -> Result<(), AllocError>
    requires { 0 < length (shown out.old) }
    ensures all { OnOk result (shown out.new ≡ added (spec.said_statement table.now (seen_body f.now) (seen_environment env.old) spec.no_cases (view_statement s.now)).all (shown out.old)) }
    ensures behind { OnOk result (seen_environment env.new ≡ scopes.behind_statement (seen_environment env.old) (view_statement s.now)) }
{
    let mut none = Cases::none(alloc);
    walk_statement(alloc, table, env, s, f, &mut none, out)
}

/// A statement that is a part of another, in a scope of its own. Err where there is not enough memory.
#[cycle(statements)]
fn walk_branch<'a>(
    alloc: Global,
    table: &Table,
    env: &mut Environment<'a>,
    s: &'a Stmt,
    f: &Body,
    out: &mut Judgements,
) -> Result<(), AllocError>
    requires { 0 < length (shown out.old) }
    ensures all { OnOk result (shown out.new ≡ added (spec.said_statement table.now (seen_body f.now) (entered (seen_environment env.old)) spec.no_cases (view_statement s.now)).all (shown out.old)) }
    ensures behind { OnOk result (seen_environment env.new ≡ left (scopes.behind_statement (entered (seen_environment env.old)) (view_statement s.now))) }
{
    env.entered()?;
    walk_elsewhere(alloc, table, env, s, f, out)?;
    env.left();
    Ok(())
}

/// The controlling expression and the first statement of an if or a while, whose node stays open: what is said of it. Err where there is not enough memory.
#[cycle(statements)]
fn walk_first<'a>(
    alloc: Global,
    table: &Table,
    env: &mut Environment<'a>,
    s: &'a Stmt,
    x: &'a Expr,
    f: &Body,
    out: &mut Judgements,
) -> Result<Verdict, AllocError>
    ensures own { IfOk result (λ w. seen w ≡ rule.condition (nodes.operand table.now (entered (seen_environment env.old)) (view_expression x.now))) }
    ensures all { OnOk result (shown out.new ≡ (both (nodes.said table.now (entered (seen_environment env.old)) (view_expression x.now)) (spec.said_statement table.now (seen_body f.now) (entered (behind_expression (entered (seen_environment env.old)) (view_expression x.now))) spec.no_cases (view_statement s.now))).all ∷ shown out.old) }
    ensures behind { OnOk result (seen_environment env.new ≡ left (scopes.behind_statement (entered (behind_expression (entered (seen_environment env.old)) (view_expression x.now))) (view_statement s.now))) }
{
    out.open()?;
    env.entered()?;
    let x = walk_operand(alloc, table, env, x, out)?;
    walk_branch(alloc, table, env, s, f, out)?;
    Ok(condition(&x.get().operand))
}

/// The last statement of an if, of which this is said. Err where there is not enough memory.
#[cycle(statements)]
#[tactic(auto, using(crate::proofs::Joins::length_added))]
fn walk_last<'a>(
    alloc: Global,
    table: &Table,
    env: &mut Environment<'a>,
    r: &'a Stmt,
    own: Verdict,
    f: &Body,
    out: &mut Judgements,
) -> Result<(), AllocError>
    requires { 1 < length (shown out.old) }
    ensures all { OnOk result (shown out.new ≡ closed (plainly (seen own)) (added (spec.said_statement table.now (seen_body f.now) (entered (seen_environment env.old)) spec.no_cases (view_statement r.now)).all (shown out.old))) }
    ensures behind { OnOk result (seen_environment env.new ≡ left (left (scopes.behind_statement (entered (seen_environment env.old)) (view_statement r.now)))) }
{
    walk_branch(alloc, table, env, r, f, out)?;
    env.left();
    out.close(own);
    Ok(())
}

/// A while, or an if without else. Err where there is not enough memory.
#[cycle(statements)]
fn walk_guarded<'a>(
    alloc: Global,
    table: &Table,
    env: &mut Environment<'a>,
    s: &'a Stmt,
    x: &'a Expr,
    f: &Body,
    out: &mut Judgements,
) -> Result<(), AllocError>
    requires { 0 < length (shown out.old) }
    ensures all { OnOk result (shown out.new ≡ added (spec.said_statement table.now (seen_body f.now) (seen_environment env.old) spec.no_cases (tree.while_statement (view_expression x.now) (view_statement s.now))).all (shown out.old)) }
    ensures behind { OnOk result (seen_environment env.new ≡ scopes.behind_statement (seen_environment env.old) (tree.while_statement (view_expression x.now) (view_statement s.now))) }
{
    let own = walk_first(alloc, table, env, s, x, f, out)?;
    env.left();
    out.close(own);
    Ok(())
}

/// A do. Err where there is not enough memory.
#[cycle(statements)]
fn walk_do<'a>(
    alloc: Global,
    table: &Table,
    env: &mut Environment<'a>,
    s: &'a Stmt,
    x: &'a Expr,
    f: &Body,
    out: &mut Judgements,
) -> Result<(), AllocError>
    requires { 0 < length (shown out.old) }
    ensures all { OnOk result (shown out.new ≡ added (spec.said_statement table.now (seen_body f.now) (seen_environment env.old) spec.no_cases (tree.do_statement (view_statement s.now) (view_expression x.now))).all (shown out.old)) }
    ensures behind { OnOk result (seen_environment env.new ≡ scopes.behind_statement (seen_environment env.old) (tree.do_statement (view_statement s.now) (view_expression x.now))) }
{
    out.open()?;
    env.entered()?;
    walk_branch(alloc, table, env, s, f, out)?;
    let x = walk_operand(alloc, table, env, x, out)?;
    env.left();
    out.close(condition(&x.get().operand));
    Ok(())
}

/// A for. Err where there is not enough memory.
#[cycle(statements)]
fn walk_for<'a>(
    alloc: Global,
    table: &Table,
    env: &mut Environment<'a>,
    s: &'a Stmt,
    a: &'a ForStart,
    x: &'a Option<Expr>,
    y: &'a Option<Expr>,
    f: &Body,
    out: &mut Judgements,
) -> Result<(), AllocError>
    requires { 0 < length (shown out.old) }
    ensures all { OnOk result (shown out.new ≡ added (spec.said_statement table.now (seen_body f.now) (seen_environment env.old) spec.no_cases (tree.for_statement (view_start a.now) (option_map view_expression x.now) (option_map view_expression y.now) (view_statement s.now))).all (shown out.old)) }
    ensures behind { OnOk result (seen_environment env.new ≡ scopes.behind_statement (seen_environment env.old) (tree.for_statement (view_start a.now) (option_map view_expression x.now) (option_map view_expression y.now) (view_statement s.now))) }
{
    out.open()?;
    env.entered()?;
    let own = walk_control(alloc, table, env, a, x, y, out)?;
    walk_branch(alloc, table, env, s, f, out)?;
    env.left();
    out.close(own);
    Ok(())
}

/// The block of a switch, with these cases so far. Err where there is not enough memory.
#[cycle(statements)]
#[tactic(auto, using(crate::proofs::Switched::if_elsewhere))]
fn walk_switched<'a>(
    alloc: Global,
    table: &Table,
    env: &mut Environment<'a>,
    s: &'a Stmt,
    f: &Body,
    cases: Cases,
    out: &mut Judgements,
) -> Result<(), AllocError>
    requires { 0 < length (shown out.old) }
    ensures all { OnOk result (shown out.new ≡ added (spec.said_switched table.now (seen_body f.now) (seen_environment env.old) (seen_cases cases) (view_statement s.now) (spec.said_statement table.now (seen_body f.now) (seen_environment env.old) spec.no_cases (view_statement s.now))).all (shown out.old)) }
    ensures behind { OnOk result (seen_environment env.new ≡ scopes.behind_statement (seen_environment env.old) (view_statement s.now)) }
{
    match s {
        Stmt::Block(all) => {
            let mut cases = cases;
            walk_block(alloc, table, env, all.as_slice(), f, &mut cases, out)
        }
        Stmt::Decl(_)
        | Stmt::Expr(_)
        | Stmt::If(_, _, _)
        | Stmt::While(_, _)
        | Stmt::DoWhile(_, _)
        | Stmt::For(_, _, _, _)
        | Stmt::Switch(_, _)
        | Stmt::Case(_)
        | Stmt::Default
        | Stmt::Label(_)
        | Stmt::Break
        | Stmt::Continue
        | Stmt::Return(_)
        | Stmt::Goto(_) => walk_elsewhere(alloc, table, env, s, f, out),
    }
}

/// A switch. Err where there is not enough memory.
#[cycle(statements)]
fn walk_switch<'a>(
    alloc: Global,
    table: &Table,
    env: &mut Environment<'a>,
    s: &'a Stmt,
    x: &'a Expr,
    f: &Body,
    out: &mut Judgements,
) -> Result<(), AllocError>
    requires { 0 < length (shown out.old) }
    ensures all { OnOk result (shown out.new ≡ added (spec.said_statement table.now (seen_body f.now) (seen_environment env.old) spec.no_cases (tree.switch_statement (view_expression x.now) (view_statement s.now))).all (shown out.old)) }
    ensures behind { OnOk result (seen_environment env.new ≡ scopes.behind_statement (seen_environment env.old) (tree.switch_statement (view_expression x.now) (view_statement s.now))) }
{
    out.open()?;
    env.entered()?;
    let x = walk_operand(alloc, table, env, x, out)?;
    let cases = Cases::first(alloc, x.get().operand.verdict.kind());
    let own = switched(&x.get().operand);
    env.entered()?;
    walk_switched(alloc, table, env, s, f, cases, out)?;
    env.left();
    env.left();
    out.close(own);
    Ok(())
}

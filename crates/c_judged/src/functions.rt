//! Functions (C11 6.9.1).

ghost use Rattle.std.specs.Prelude.{◌≡◌, ◌<◌, length, map, IfOk, OnOk};
ghost use Rattle.c_judgements.specs.Parts.{added};
ghost use Rattle.c_kinds.specs.View.{view};
ghost use Rattle.c_tree.specs.View.{view_specifier, specifiers_of};
ghost use Rattle.c_tree.specs.StatementView.{view_statement, view_function};
ghost use Rattle.c_environment.specs.Environment as plain;
ghost use Rattle.c_environment.specs.Scopes as scopes;
ghost use Rattle.c_environment.specs.Seen.{seen_type, seen_environment};
ghost use Rattle.c_environment.specs.Types as types;
ghost use Rattle.c_rules.specs.Seen.{seen};
ghost use Rattle.c_declared.specs.Said.{once};
ghost use Rattle.c_declared.specs.Seen.{shown};
ghost use Rattle.c_judged.specs.Program as spec;
ghost use Rattle.c_judged.specs.Seen.{seen_body};

use crate::cases::Cases;
use crate::declarations::{differs, first_broken, is_taken, name_rule};
use crate::labels::add_labels;
use crate::statements::{Body, walk_elsewhere, walk_statements};
use c_bindings::{Told, function_binding};
use c_declared::{
    Faults, Judgements, ParametersPart, Part, both, once, result_faults, walk_parameters,
    walk_specifiers,
};
use c_environment::{DeclaredType, Environment};
use c_grammar::Names;
use c_kinds::{CType, Types};
use c_rules::Verdict;
use c_tree::{Function, Quals, SpecWord, Stmt};
use posix_table::Table;
use sqlite_items::Boxed;
use std::alloc::{AllocError, Global};

/// What a function gives before its body.
#[derive(Drop)]
struct Head {
    /// What is said of its node.
    own: Verdict,
    /// What its statements know of it.
    body: Body,
}

/// The type of a function's result. Err where there is not enough memory.
fn result_type(
    alloc: Global,
    env: &Environment,
    specs: &[SpecWord],
    stars: &[Quals],
) -> Result<Boxed<DeclaredType>, AllocError>
    ensures { IfOk result (λ t. seen_type t ≡ types.pointed stars.now (types.specified (seen_environment env.now) (specifiers_of (map view_specifier specs.now)))) }
{
    let of = env.specified(specs)?;
    Ok(Boxed::new(alloc, of.pointed(alloc, stars)?)?)
}

/// The type of a function with such a result and such parameters. Err where there is not enough memory.
fn function_type(
    alloc: Global,
    gives: &DeclaredType,
    kinds: Vec<CType>,
) -> Result<Boxed<DeclaredType>, AllocError>
    ensures { IfOk result (λ t. seen_type t ≡ types.function_type (map view kinds.items) (seen_type gives.now)) }
{
    let takes = Types::new(alloc, kinds)?;
    Ok(Boxed::new(alloc, gives.share()?.function_type(alloc, takes)?)?)
}

/// Whether the name can't be that of a function which is defined here.
fn is_function_taken(env: &Environment, name: &[u8]) -> bool
    ensures { result ≡ spec.is_function_taken (seen_environment env.now) name.now }
{
    is_taken(env, true, true, name) || env.is_initialised(name)
}

/// What is said of a function, behind its parameters. Err where there is not enough memory.
fn head_rule(
    env: &Environment,
    name: &[u8],
    is_twice: bool,
    faults: Faults,
    of: &DeclaredType,
) -> Result<Verdict, AllocError>
    ensures { IfOk result (λ v. seen v ≡ spec.head_rule is_twice (spec.differs_here (seen_environment env.now) name.now (seen_type of.now)) faults (seen_type of.now)) }
{
    let first = first_broken(is_twice, differs(env, name, &of.kind), faults);
    name_rule(first, true, None, !faults.incomplete, &of.kind)
}

/// What the statements of a function know of it. Err where there is not enough memory.
fn body_of(alloc: Global, gives: &DeclaredType, body: &Stmt) -> Result<Body, AllocError>
    ensures { IfOk result (λ b. seen_body b ≡ spec.body_by (seen_type gives.now) (view_statement body.now)) }
{
    let mut labels = Names::new(alloc);
    add_labels(body, &mut labels)?;
    Ok(Body {
        result: gives.kind.share()?,
        labels,
    })
}

/// Goes into the scope of a function's parameters; the function's number among those with a body. Err where there is not enough memory.
fn enter_function(env: &mut Environment, number: Option<u32>) -> Result<(), AllocError>
    ensures { OnOk result (seen_environment env.new ≡ plain.entered (plain.within_function (seen_environment env.old) number)) }
{
    env.within_function(number);
    env.entered()
}

/// The name of a function comes into scope, around its parameters. Err where there is not enough memory.
fn enter_name<'a>(
    env: &mut Environment<'a>,
    name: &'a [u8],
    of: Boxed<DeclaredType>,
) -> Result<(), AllocError>
    ensures { OnOk result (seen_environment env.new ≡ plain.with_initialised (plain.with_function_around (seen_environment env.old) name.now (seen_type of)) name.now) }
{
    env.with_function_around(name, of.into_inner())?;
    env.with_initialised(name)
}

/// Behind the parameters of a function: its name comes into scope. Err where there is not enough memory.
fn end_head<'a>(
    alloc: Global,
    env: &mut Environment<'a>,
    f: &'a Function,
    is_twice: bool,
    part: Part,
    gives: &DeclaredType,
    takes: Boxed<ParametersPart>,
) -> Result<Head, AllocError>
    ensures own { IfOk result (λ h. seen h.own ≡ spec.head_closed (seen_environment env.old) f.now.name is_twice part.settled part.faults (seen_type gives.now) takes.settled takes.faults (map view takes.kinds.items)) }
    ensures body { IfOk result (λ h. seen_body h.body ≡ spec.body_by (seen_type gives.now) (view_statement f.now.body)) }
    ensures env { OnOk result (seen_environment env.new ≡ plain.with_initialised (plain.with_function_around (seen_environment env.old) f.now.name (types.function_type (map view takes.kinds.items) (seen_type gives.now))) f.now.name) }
{
    let name = f.name.as_bytes();
    let ParametersPart {
        settled,
        faults,
        kinds,
    } = takes.into_inner();
    let faults = part.faults.and(result_faults(gives).and(faults));
    let of = function_type(alloc, gives, kinds)?;
    let own = head_rule(env, name, is_twice, faults, of.get())?;
    let own = once(both(part.settled, settled), own);
    let body = body_of(alloc, gives, &f.body)?;
    enter_name(env, name, of)?;
    Ok(Head { own, body })
}

/// The specifiers and parameters of a function. Err where there is not enough memory.
fn walk_head<'a>(
    alloc: Global,
    table: &Table,
    env: &mut Environment<'a>,
    f: &'a Function,
    out: &mut Judgements,
) -> Result<Head, AllocError>
    requires { 0 < length (shown out.old) }
    ensures own { IfOk result (λ h. seen h.own ≡ once (spec.said_head table.now (seen_environment env.old) (view_function f.now)) (spec.function_rule (seen_environment env.old) (view_function f.now))) }
    ensures body { IfOk result (λ h. seen_body h.body ≡ spec.body_of (seen_environment env.old) (view_function f.now)) }
    ensures all { OnOk result (shown out.new ≡ added (spec.said_head table.now (seen_environment env.old) (view_function f.now)).all (shown out.old)) }
    ensures env { OnOk result (seen_environment env.new ≡ spec.in_body (seen_environment env.old) (view_function f.now)) }
{
    let specs = f.specs.as_slice();
    let params = f.params.items.as_slice();
    let name = f.name.as_bytes();
    let number = env.function_number(name);
    let gives = result_type(alloc, env, specs, f.stars.as_slice())?;
    let part = walk_specifiers(alloc, table, env, specs, out)?;
    let twice = is_function_taken(env, name);
    enter_function(env, number)?;
    let takes = walk_parameters(alloc, table, env, params, true, out)?;
    end_head(alloc, env, f, twice, part, gives.get(), takes)
}

/// The body of a function, in the scope of its parameters. Err where there is not enough memory.
#[tactic(auto, using(crate::proofs::Switched::if_body, crate::proofs::Switched::if_behind))]
fn walk_body<'a>(
    alloc: Global,
    table: &Table,
    env: &mut Environment<'a>,
    s: &'a Stmt,
    f: &Body,
    out: &mut Judgements,
) -> Result<(), AllocError>
    requires { 0 < length (shown out.old) }
    ensures all { OnOk result (shown out.new ≡ added (spec.said_body table.now (seen_body f.now) (seen_environment env.old) (view_statement s.now)).all (shown out.old)) }
    ensures behind { OnOk result (seen_environment env.new ≡ scopes.behind_body (seen_environment env.old) (view_statement s.now)) }
{
    match s {
        Stmt::Block(all) => {
            let mut none = Cases::none(alloc);
            out.open()?;
            walk_statements(alloc, table, env, all.as_slice(), f, &mut none, out)?;
            out.close(Verdict::Silent);
            Ok(())
        }
        Stmt::Decl(_)
        | Stmt::Expr(_)
        | Stmt::If(_, _, _)
        | Stmt::While(_, _)
        | Stmt::DoWhile(_, _)
        | Stmt::For(_, _, _, _)
        | Stmt::Switch(_, _)
        | Stmt::Case(_)
        | Stmt::Default
        | Stmt::Label(_)
        | Stmt::Break
        | Stmt::Continue
        | Stmt::Return(_)
        | Stmt::Goto(_) => walk_elsewhere(alloc, table, env, s, f, out),
    }
}

/// A function. Err where there is not enough memory.
#[tactic(auto, using(crate::proofs::Joins::added_twice, crate::proofs::Joins::length_added))]
pub(crate) fn walk_function<'a>(
    alloc: Global,
    table: &Table,
    env: &mut Environment<'a>,
    f: &'a Function,
    out: &mut Judgements,
) -> Result<(), AllocError>
    requires { 0 < length (shown out.old) }
    ensures all { OnOk result (shown out.new ≡ added (spec.said_function table.now (seen_environment env.old) (view_function f.now)).all (shown out.old)) }
    ensures behind { OnOk result (seen_environment env.new ≡ scopes.behind_function (seen_environment env.old) (view_function f.now)) }
{
    let binding = function_binding(env, f.name.as_bytes());
    out.open()?;
    let head = walk_head(alloc, table, env, f, out)?;
    walk_body(alloc, table, env, &f.body, &head.body, out)?;
    env.left();
    env.within_function(None);
    let Head { own, body: _ } = head;
    out.close_told(Told::bound(own, binding));
    Ok(())
}

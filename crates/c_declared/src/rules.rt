//! The rules of declared names by what their parts give (C11 6.7).

ghost use Rattle.std.specs.Prelude.{◌≡◌, ◌<◌, ◌&&◌, length, if◌then◌else◌, IfOk, OnOk};
ghost use Rattle.c_judgements.specs.Parts.{closed};
ghost use Rattle.c_kinds.specs.View.{view};
ghost use Rattle.c_tree.specs.DeclaredNames.{declarator_name};
ghost use Rattle.c_tree.specs.View.{view_declarator};
ghost use Rattle.c_bindings.specs.Binding as binding;
ghost use Rattle.c_bindings.specs.Told.{plainly, bound, of_value};
ghost use Rattle.c_environment.specs.Behind.{with_parameter};
ghost use Rattle.c_environment.specs.Entity.{enumerator, with_member};
ghost use Rattle.c_environment.specs.Environment.{with_entity};
ghost use Rattle.c_environment.specs.Seen.{seen_type, seen_members, seen_environment};
ghost use Rattle.c_environment.specs.Types.{adjusted};
ghost use Rattle.c_rules.specs.Conversions as conversions;
ghost use Rattle.c_rules.specs.Judgement.{waits, is_settled};
ghost use Rattle.c_rules.specs.Seen.{seen, seen_operand};
ghost use Rattle.c_declared.specs.Constness.{of_cast, of_constant};
ghost use Rattle.c_declared.specs.Ends.{member_judgement, parameter_judgement};
ghost use Rattle.c_declared.specs.Faults.{no_faults};
ghost use Rattle.c_declared.specs.Nodes as nodes;
ghost use Rattle.c_declared.specs.Operands as spec;
ghost use Rattle.c_declared.specs.Seen.{shown};

use crate::constness::Constness;
use crate::declared::{Declared, Part};
use crate::faults::{Faults, both, object_faults, parameter_faults};
use crate::judgements::Judgements;
use crate::operands::{Walked, with_form};
use base_core::Lexeme;
use c_bindings::{Told, bound_to};
use c_environment::{DeclaredType, Entity, Environment, Members};
use c_kinds::CType;
use c_rules::{Form, MisfitKind, Verdict, cast, size_of_type};
use c_tree::Declarator;
use sqlite_items::Boxed;
use std::alloc::{AllocError, Global};

/// The rule, where it is broken.
pub fn broken(holds: bool, misfit: MisfitKind) -> Option<MisfitKind>
    ensures { result ≡ nodes.broken holds misfit }
{
    if holds { Some(misfit) } else { None }
}

/// The rule of a declared name. Err where there is not enough memory.
pub(crate) fn declared_rule(
    faults: Faults,
    is_twice: bool,
    are_constant: bool,
    are_complete: bool,
    kind: &CType,
) -> Result<Verdict, AllocError>
    ensures { IfOk result (λ v. seen v ≡ nodes.declared_rule faults is_twice are_constant are_complete (view kind.now)) }
{
    let own = Verdict::Fits(kind.share()?);
    let mismatch = faults.incomplete || !are_complete;
    let own = Verdict::unless(broken(mismatch, MisfitKind::KindMismatch), own);
    let own = Verdict::unless(broken(!are_constant, MisfitKind::NotConstant), own);
    let own = Verdict::unless(broken(faults.passed, MisfitKind::LeftOut), own);
    let repeated = is_twice || faults.repeated;
    let own = Verdict::unless(broken(repeated, MisfitKind::DeclaredTwice), own);
    Ok(Verdict::unless(broken(faults.unknown, MisfitKind::UnknownName), own))
}

/// The rule of a type name where it stands.
fn type_rule(faults: Faults, own: Verdict) -> Verdict
    ensures { seen result ≡ nodes.type_rule faults (seen own) }
{
    let own = Verdict::unless(broken(faults.incomplete, MisfitKind::KindMismatch), own);
    let own = Verdict::unless(broken(faults.passed, MisfitKind::LeftOut), own);
    let own = Verdict::unless(broken(faults.repeated, MisfitKind::DeclaredTwice), own);
    Verdict::unless(broken(faults.unknown, MisfitKind::UnknownName), own)
}

/// A node's own rule is asked once the outermost nodes below it are settled.
pub fn once(settled: bool, own: Verdict) -> Verdict
    ensures { seen result ≡ if settled then seen own else waits }
{
    if settled { own } else { Verdict::Waits }
}

pub(crate) fn walked_cast(
    alloc: Global,
    to: &Declared,
    x: &Walked,
) -> Result<Boxed<Walked>, AllocError>
    ensures operand { IfOk result (λ w. seen_operand w.operand ≡ spec.valued (if to.now.settled then nodes.type_rule to.now.faults (conversions.cast (seen_type to.now.of).kind (seen_operand x.now.operand)) else waits)) }
    ensures constness { IfOk result (λ w. w.constness ≡ of_cast x.now.constness) }
{
    let own = type_rule(to.faults, cast(&to.of.kind, &x.operand)?);
    let constness = x.constness.cast();
    with_form(alloc, once(to.settled, own), Form::plain(), constness)
}

pub(crate) fn walked_size_of_type(alloc: Global, of: &Declared) -> Result<Boxed<Walked>, AllocError>
    ensures operand { IfOk result (λ w. seen_operand w.operand ≡ spec.valued (if of.now.settled then nodes.type_rule of.now.faults conversions.size_of_type else waits)) }
    ensures constness { IfOk result (λ w. w.constness ≡ of_constant) }
{
    let own = type_rule(of.faults, size_of_type());
    let constness = Constness::constant();
    with_form(alloc, once(of.settled, own), Form::plain(), constness)
}

/// What is said of an enumerator with this value (C11 6.7.2.2).
pub(crate) fn enumerator_rule(env: &Environment, name: &[u8], value: Option<i32>) -> Verdict
    ensures { seen result ≡ nodes.enumerator_rule (seen_environment env.now) name.now value }
{
    let twice = env.is_declared_here(name) || env.is_reserved(name);
    let own = Verdict::Fits(CType::Int(32, true));
    let own = Verdict::unless(broken(value.is_none(), MisfitKind::NotConstant), own);
    Verdict::unless(broken(twice, MisfitKind::DeclaredTwice), own)
}

/// The name that a declarator declares.
pub fn declared_name(d: &Declarator) -> &Lexeme
    ensures { result.now ≡ declarator_name (view_declarator d.now) }
{
    match d {
        Declarator::Plain(_, name)
        | Declarator::Array(_, name, _)
        | Declarator::Function(_, name, _)
        | Declarator::Pointer(_, _, name, _, _) => name,
    }
}

/// What is said of a member, behind its declarator; whether its tag was unknown before that.
fn member_rule(
    env: &Environment,
    unknown: bool,
    earlier: &Members,
    d: &Declarator,
    by: &Declared,
) -> Result<Verdict, AllocError>
    ensures { IfOk result (λ v. seen v ≡ member_judgement (seen_environment env.now) unknown (seen_members earlier.now) (view_declarator d.now) by.now.settled by.now.faults by.now.are_sizes (seen_type by.now.of)) }
{
    let faults = object_faults(env, unknown, &by.of).and(by.faults);
    let is_twice = earlier.member(declared_name(d).as_bytes()).is_some();
    let own = declared_rule(faults, is_twice, by.are_sizes, !by.of.is_open, &by.of.kind)?;
    Ok(once(by.settled, own))
}

/// A member ends: whether its node is settled. Err where there is not enough memory.
pub(crate) fn end_member<'a>(
    env: &Environment<'a>,
    unknown: bool,
    earlier: &mut Members<'a>,
    d: &'a Declarator,
    by: Boxed<Declared>,
    out: &mut Judgements,
) -> Result<bool, AllocError>
    requires { 1 < length (shown out.old) }
    ensures settled { IfOk result (λ s. s ≡ is_settled (member_judgement (seen_environment env.now) unknown (seen_members earlier.old) (view_declarator d.now) by.settled by.faults by.are_sizes (seen_type by.of))) }
    ensures all { OnOk result (shown out.new ≡ closed (plainly (member_judgement (seen_environment env.now) unknown (seen_members earlier.old) (view_declarator d.now) by.settled by.faults by.are_sizes (seen_type by.of))) (shown out.old)) }
    ensures members { OnOk result (seen_members earlier.new ≡ with_member (seen_members earlier.old) (declarator_name (view_declarator d.now)) (seen_type by.of).kind) }
{
    let own = member_rule(env, unknown, earlier, d, by.get())?;
    let settled = own.is_settled();
    out.close(own);
    let Declared {
        of,
        settled: _,
        are_sizes: _,
        faults: _,
    } = by.into_inner();
    let DeclaredType {
        kind,
        is_function: _,
        is_open: _,
        constant: _,
        volatile: _,
        atomic: _,
    } = of;
    earlier.with_member(declared_name(d).as_bytes(), kind)?;
    Ok(settled)
}

/// What is said of a parameter with a name, behind its declarator; whether its tag was unknown before that.
fn parameter_rule(
    env: &Environment,
    unknown: bool,
    outside: Part,
    d: &Declarator,
    by: &Declared,
    of: &DeclaredType,
) -> Result<Verdict, AllocError>
    requires { seen_type of.now ≡ adjusted (seen_type by.now.of) }
    ensures { IfOk result (λ v. seen v ≡ parameter_judgement (seen_environment env.now) unknown outside.faults (view_declarator d.now) (outside.settled && by.now.settled) by.now.faults by.now.are_sizes (seen_type by.now.of)) }
{
    let own = parameter_faults(env, unknown, of).and(by.faults);
    let faults = outside.faults.and(own);
    let is_twice = env.is_declared_here(declared_name(d).as_bytes());
    let own = declared_rule(faults, is_twice, by.are_sizes, !of.is_open, &of.kind)?;
    Ok(once(both(outside.settled, by.settled), own))
}

/// A parameter with a name ends, and its name is in scope, which it stands for: what it gives. Err where there is not enough memory.
pub(crate) fn end_parameter<'a>(
    alloc: Global,
    env: &mut Environment<'a>,
    has_body: bool,
    unknown: bool,
    outside: Part,
    d: &'a Declarator,
    by: Boxed<Declared>,
    out: &mut Judgements,
) -> Result<Boxed<Declared>, AllocError>
    requires { 1 < length (shown out.old) }
    ensures settled { IfOk result (λ p. p.settled ≡ is_settled (parameter_judgement (seen_environment env.old) unknown outside.faults (view_declarator d.now) (outside.settled && by.settled) by.faults by.are_sizes (seen_type by.of))) }
    ensures faults { IfOk result (λ p. p.faults ≡ no_faults) }
    ensures of { IfOk result (λ p. seen_type p.of ≡ adjusted (seen_type by.of)) }
    ensures all { OnOk result (shown out.new ≡ closed (bound (parameter_judgement (seen_environment env.old) unknown outside.faults (view_declarator d.now) (outside.settled && by.settled) by.faults by.are_sizes (seen_type by.of)) (binding.bound_to (with_parameter has_body (seen_environment env.old) (declarator_name (view_declarator d.now)) (adjusted (seen_type by.of))) (declarator_name (view_declarator d.now)))) (shown out.old)) }
    ensures behind { OnOk result (seen_environment env.new ≡ with_parameter has_body (seen_environment env.old) (declarator_name (view_declarator d.now)) (adjusted (seen_type by.of))) }
{
    let of = by.get().of.share()?.adjusted()?;
    let own = parameter_rule(env, unknown, outside, d, by.get(), &of)?;
    let settled = own.is_settled();
    let name = declared_name(d).as_bytes();
    env.with_parameter(has_body, name, of.share()?)?;
    out.close_told(Told::bound(own, bound_to(env, name)));
    Ok(Boxed::new(
        alloc,
        Declared {
            settled,
            are_sizes: true,
            faults: Faults::none(),
            of,
        },
    )?)
}

/// The same value.
fn wide(value: Option<i32>) -> Option<i64>
    ensures { result ≡ value }
{
    match value {
        Some(value) => Some(i64::from(value)),
        None => None,
    }
}

/// An enumerator ends, and its name is in scope: whether its node is settled, where those below it are or not. Err where there is not enough
/// memory.
pub(crate) fn end_enumerator<'a>(
    env: &mut Environment<'a>,
    below: bool,
    name: &'a [u8],
    value: Option<i32>,
    out: &mut Judgements,
) -> Result<bool, AllocError>
    requires { 1 < length (shown out.old) }
    ensures settled { IfOk result (λ s. s ≡ is_settled (if below then nodes.enumerator_rule (seen_environment env.old) name.now value else waits)) }
    ensures all { OnOk result (shown out.new ≡ closed (of_value (if below then nodes.enumerator_rule (seen_environment env.old) name.now value else waits) value) (shown out.old)) }
    ensures behind { OnOk result (seen_environment env.new ≡ with_entity (seen_environment env.old) name.now (enumerator value)) }
{
    let own = once(below, enumerator_rule(env, name, value));
    let settled = own.is_settled();
    out.close_told(Told::valued(own, wide(value)));
    env.with_entity(name, Entity::Enumerator(value))?;
    Ok(settled)
}

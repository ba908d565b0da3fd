//! Initialisers (C11 6.7.9), for an object of a kind, where that is known.

ghost use Rattle.std.specs.Prelude.{◌≡◌, ◌<◌, ◌&&◌, ◌||◌, length, map, option_map, is_none, IfOk, OnOk};
ghost use Rattle.c_judgements.specs.Parts.{added, closed};
ghost use Rattle.c_bindings.specs.Told.{plainly};
ghost use Rattle.c_kinds.specs.View.{view};
ghost use Rattle.c_tree.specs.StatementView.{view_init, view_part, initializers_of};
ghost use Rattle.c_environment.specs.Entity as plain;
ghost use Rattle.c_environment.specs.Scopes as scopes;
ghost use Rattle.c_environment.specs.Seen.{seen_structure, seen_environment};
ghost use Rattle.c_rules.specs.Judgement.{is_settled};
ghost use Rattle.c_rules.specs.Seen.{seen, seen_operand};
ghost use Rattle.c_declared.specs.Seen.{shown};
ghost use Rattle.c_judged.specs.Initializers as spec;
ghost use Rattle.c_judged.specs.Parts as parts;

use base_core::Lexeme;
use c_declared::{Judgements, Walked, both, once, walk_operand};
use c_environment::{Environment, Structure};
use c_kinds::CType;
use c_rules::{Constant, MisfitKind, Verdict, initialiser_misfit, list_misfit, positional_misfit};
use c_tree::{Init, Part};
use posix_table::Table;
use std::alloc::{AllocError, Global};

/// What an initialiser gives.
#[derive(Clone, Copy)]
pub(crate) struct InitPart {
    /// Whether its outermost nodes have kinds, or count as nodes that have.
    pub(crate) settled: bool,
    /// Whether it may initialise an object of static storage duration.
    pub(crate) fixed: bool,
    /// Which constant it is.
    pub(crate) constant: Constant,
    /// What is wrong with it for an object of the kind that is due.
    pub(crate) misfit: Option<MisfitKind>,
}

/// What the parts of a list give, one after another.
#[derive(Clone, Copy)]
pub(crate) struct ListPart {
    /// Whether their outermost nodes have kinds, or count as nodes that have.
    settled: bool,
    /// Whether they may initialise an object of static storage duration.
    fixed: bool,
    /// Whether one names a member that the structure hasn't.
    unknown: bool,
    /// What is wrong with their standing without a member's name.
    positional: Option<MisfitKind>,
    /// What is wrong with them for what they fill.
    misfit: Option<MisfitKind>,
    /// The place behind them.
    next: usize,
}

/// The first of two.
pub(crate) fn or_misfit(first: Option<MisfitKind>, second: Option<MisfitKind>) -> Option<MisfitKind>
    ensures { result ≡ spec.or_misfit first second }
{
    match first {
        Some(misfit) => Some(misfit),
        None => second,
    }
}

fn member_at<'e>(structure: Option<&'e Structure>, place: usize) -> Option<&'e CType>
    ensures { option_map (λ t. view t.now) result ≡ plain.member_at (spec.members_of (option_map (λ s. seen_structure s.now) structure.entry)) place }
{
    match structure {
        Some(structure) => structure.members.at(place),
        None => None,
    }
}

fn member_place(structure: Option<&Structure>, name: &[u8]) -> Option<u32>
    ensures { result ≡ plain.member_place (spec.members_of (option_map (λ s. seen_structure s.now) structure.entry)) name.now }
{
    match structure {
        Some(structure) => structure.members.place(name),
        None => None,
    }
}

fn shared(kind: Option<&CType>) -> Result<Option<CType>, AllocError>
    ensures { IfOk result (λ k. option_map view k ≡ option_map (λ t. view t.now) kind.entry) }
{
    match kind {
        Some(kind) => Ok(Some(kind.share()?)),
        None => Ok(None),
    }
}

/// The kind of the element at a place (C11 6.7.9p17). Err where there is not enough memory.
fn element(
    env: &Environment,
    due: &Option<CType>,
    place: usize,
) -> Result<Option<CType>, AllocError>
    ensures { IfOk result (λ k. option_map view k ≡ spec.element (seen_environment env.now) (option_map view due.now) place) }
{
    match due {
        Some(CType::Array(of)) => Ok(Some(of.share()?)),
        Some(CType::Struct(number)) => shared(member_at(env.structure(*number), place)),
        _ => Ok(None),
    }
}

fn named_place(env: &Environment, due: &Option<CType>, name: &[u8]) -> Option<u32>
    ensures { result ≡ spec.member_place (seen_environment env.now) (option_map view due.now) name.now }
{
    match due {
        Some(CType::Struct(number)) => member_place(env.structure(*number), name),
        _ => None,
    }
}

/// The place that a part fills, behind a place.
fn filled(
    env: &Environment,
    due: &Option<CType>,
    place: usize,
    name: &Option<Lexeme>,
) -> Option<usize>
    ensures { result ≡ spec.filled (seen_environment env.now) (option_map view due.now) place name.now }
{
    match name {
        None => Some(place),
        Some(name) => match named_place(env, due, name.as_bytes()) {
            Some(place) => Some(place as usize),
            None => None,
        },
    }
}

fn filled_kind(
    env: &Environment,
    due: &Option<CType>,
    at: Option<usize>,
) -> Result<Option<CType>, AllocError>
    ensures { IfOk result (λ k. option_map view k ≡ spec.filled_kind (seen_environment env.now) (option_map view due.now) at) }
{
    match at {
        Some(place) => element(env, due, place),
        None => Ok(None),
    }
}

/// The place behind a part. No text has so many parts that there is none; Err stands for that.
fn next_place(place: usize, at: Option<usize>) -> Result<usize, AllocError>
    ensures { IfOk result (λ n. n ≡ spec.next_place place at) }
{
    let last = match at {
        Some(at) => at,
        None => place,
    };
    match last.checked_add(1) {
        Some(next) => Ok(next),
        None => Err(AllocError),
    }
}

/// What is wrong with an expression for an object of the kind that is due.
fn operand_misfit(due: &Option<CType>, x: &Walked) -> Option<MisfitKind>
    ensures { result ≡ spec.operand_misfit (option_map view due.now) (seen_operand x.now.operand) }
{
    match due {
        Some(kind) => initialiser_misfit(kind, &x.operand),
        None => Some(MisfitKind::KindMismatch),
    }
}

/// What an expression gives as an initialiser.
fn of_operand(due: &Option<CType>, x: &Walked) -> InitPart
    ensures settled { result.settled ≡ is_settled (seen x.now.operand.verdict) }
    ensures fixed { result.fixed ≡ x.now.constness.fixed }
    ensures constant { result.constant ≡ x.now.operand.form.constant }
    ensures misfit { result.misfit ≡ spec.operand_misfit (option_map view due.now) (seen_operand x.now.operand) }
{
    InitPart {
        settled: x.operand.verdict.is_settled(),
        fixed: x.constness.fixed,
        constant: x.operand.form.constant,
        misfit: operand_misfit(due, x),
    }
}

/// What is wrong with a part's standing without a member's name (XSH 2.4.3 and sigaction(): its members come in any order).
fn positional(
    due: &Option<CType>,
    alone: bool,
    name: &Option<Lexeme>,
    constant: Constant,
) -> Option<MisfitKind>
    ensures { result ≡ spec.positional_by (option_map view due.now) alone name.now constant }
{
    match (due, name) {
        (Some(kind), None) => positional_misfit(kind, alone, constant),
        _ => None,
    }
}

/// One part of a list, without a name or of a member.
fn is_sole(all: &[Part]) -> bool
    ensures { result ≡ spec.is_sole (initializers_of (map view_part all.now)) }
{
    match all {
        [] => false,
        [_part] => true,
        [_part, _other, _more @ ..] => false,
    }
}

impl ListPart {
    fn none() -> ListPart
        ensures { result ≡ parts.no_part }
    {
        ListPart {
            settled: true,
            fixed: true,
            unknown: false,
            positional: None,
            misfit: None,
            next: 0,
        }
    }

    /// And the next part.
    fn and(self, other: ListPart) -> ListPart
        ensures { result ≡ parts.and_part self other }
    {
        ListPart {
            settled: both(self.settled, other.settled),
            fixed: both(self.fixed, other.fixed),
            unknown: self.unknown || other.unknown,
            positional: or_misfit(self.positional, other.positional),
            misfit: or_misfit(self.misfit, other.misfit),
            next: other.next,
        }
    }
}

/// What is said of a list by what its parts give.
fn list_rule(due: &Option<CType>, all: &ListPart) -> Verdict
    ensures { seen result ≡ spec.list_judgement (option_map view due.now) all.now.unknown all.now.positional all.now.misfit }
{
    match due {
        None => Verdict::Silent,
        Some(kind) => {
            let own = Verdict::unless(or_misfit(list_misfit(kind), all.misfit), Verdict::Silent);
            let own = Verdict::unless(all.positional, own);
            let unknown = if all.unknown {
                Some(MisfitKind::UnknownName)
            } else {
                None
            };
            Verdict::unless(unknown, own)
        }
    }
}

fn place_misfit(due: &Option<CType>) -> Option<MisfitKind>
    ensures { result ≡ spec.place_misfit (option_map view due.now) }
{
    match due {
        None => Some(MisfitKind::KindMismatch),
        Some(_kind) => None,
    }
}

/// A list ends.
fn end_list(due: &Option<CType>, all: ListPart, out: &mut Judgements) -> InitPart
    requires { 1 < length (shown out.old) }
    ensures of { result ≡ parts.of_list (option_map view due.now) all }
    ensures all { shown out.new ≡ closed (plainly (parts.list_closed (option_map view due.now) all)) (shown out.old) }
{
    let own = list_rule(due, &all);
    out.close(once(all.settled, own));
    InitPart {
        settled: true,
        fixed: all.fixed,
        constant: Constant::Other,
        misfit: place_misfit(due),
    }
}

/// An initialiser of an object of the kind that is due, where that is known. Err where there is not enough memory.
#[cycle(initializers)]
pub(crate) fn walk_init<'a>(
    alloc: Global,
    table: &Table,
    env: &mut Environment<'a>,
    i: &'a Init,
    due: &Option<CType>,
    out: &mut Judgements,
) -> Result<InitPart, AllocError>
    requires { 0 < length (shown out.old) }
    ensures settled { IfOk result (λ p. p.settled ≡ (spec.said_initializer table.now (seen_environment env.old) (option_map view due.now) (view_init i.now)).settled) }
    ensures fixed { IfOk result (λ p. p.fixed ≡ spec.is_static_initializer table.now (seen_environment env.old) (view_init i.now)) }
    ensures constant { IfOk result (λ p. p.constant ≡ spec.constant_of table.now (seen_environment env.old) (view_init i.now)) }
    ensures misfit { IfOk result (λ p. p.misfit ≡ spec.part_misfit table.now (seen_environment env.old) (option_map view due.now) (view_init i.now)) }
    ensures all { OnOk result (shown out.new ≡ added (spec.said_initializer table.now (seen_environment env.old) (option_map view due.now) (view_init i.now)).all (shown out.old)) }
    ensures behind { OnOk result (seen_environment env.new ≡ scopes.behind_initializer (seen_environment env.old) (view_init i.now)) }
{
    match i {
        Init::Expr(e) => {
            let x = walk_operand(alloc, table, env, e, out)?;
            Ok(of_operand(due, x.get()))
        }
        Init::Parts(list) => {
            let parts = list.parts.as_slice();
            out.open()?;
            let all = walk_parts(alloc, table, env, parts, due, is_sole(parts), out)?;
            Ok(end_list(due, all, out))
        }
    }
}

/// The parts of a list, from its first place on; whether there is one alone. Err where there is not enough memory.
#[cycle(initializers)]
fn walk_parts<'a>(
    alloc: Global,
    table: &Table,
    env: &mut Environment<'a>,
    all: &'a [Part],
    due: &Option<CType>,
    alone: bool,
    out: &mut Judgements,
) -> Result<ListPart, AllocError>
    requires { 0 < length (shown out.old) }
    ensures settled { IfOk result (λ p. p.settled ≡ (spec.said_initializers table.now (seen_environment env.old) (option_map view due.now) 0 (initializers_of (map view_part all.now))).settled) }
    ensures fixed { IfOk result (λ p. p.fixed ≡ spec.are_static_initializers table.now (seen_environment env.old) (initializers_of (map view_part all.now))) }
    ensures unknown { IfOk result (λ p. p.unknown ≡ spec.names_unknown (seen_environment env.old) (option_map view due.now) 0 (initializers_of (map view_part all.now))) }
    ensures positional { IfOk result (λ p. p.positional ≡ spec.positional_parts table.now (seen_environment env.old) (option_map view due.now) alone (initializers_of (map view_part all.now))) }
    ensures misfit { IfOk result (λ p. p.misfit ≡ spec.parts_misfit table.now (seen_environment env.old) (option_map view due.now) 0 (initializers_of (map view_part all.now))) }
    ensures all { OnOk result (shown out.new ≡ added (spec.said_initializers table.now (seen_environment env.old) (option_map view due.now) 0 (initializers_of (map view_part all.now))).all (shown out.old)) }
    ensures behind { OnOk result (seen_environment env.new ≡ scopes.behind_initializers (seen_environment env.old) (initializers_of (map view_part all.now))) }
{
    let mut so_far = ListPart::none();
    for part in all {
        let one = walk_part(alloc, table, env, part, due, so_far.next, alone, out)?;
        so_far = so_far.and(one);
    }
    Ok(so_far)
}

/// A part of a list behind a place. Err where there is not enough memory.
#[cycle(initializers)]
fn walk_part<'a>(
    alloc: Global,
    table: &Table,
    env: &mut Environment<'a>,
    part: &'a Part,
    due: &Option<CType>,
    place: usize,
    alone: bool,
    out: &mut Judgements,
) -> Result<ListPart, AllocError>
    requires { 0 < length (shown out.old) }
    ensures settled { IfOk result (λ p. p.settled ≡ (spec.said_initializer table.now (seen_environment env.old) (spec.filled_kind (seen_environment env.old) (option_map view due.now) (spec.filled (seen_environment env.old) (option_map view due.now) place (view_part part.now).0)) (view_part part.now).1).settled) }
    ensures fixed { IfOk result (λ p. p.fixed ≡ spec.is_static_initializer table.now (seen_environment env.old) (view_part part.now).1) }
    ensures unknown { IfOk result (λ p. p.unknown ≡ is_none (spec.filled (seen_environment env.old) (option_map view due.now) place (view_part part.now).0)) }
    ensures positional { IfOk result (λ p. p.positional ≡ spec.positional_part table.now (seen_environment env.old) (option_map view due.now) alone (view_part part.now).0 (view_part part.now).1) }
    ensures misfit { IfOk result (λ p. p.misfit ≡ spec.part_misfit table.now (seen_environment env.old) (spec.filled_kind (seen_environment env.old) (option_map view due.now) (spec.filled (seen_environment env.old) (option_map view due.now) place (view_part part.now).0)) (view_part part.now).1) }
    ensures next { IfOk result (λ p. p.next ≡ spec.next_place place (spec.filled (seen_environment env.old) (option_map view due.now) place (view_part part.now).0)) }
    ensures all { OnOk result (shown out.new ≡ added (spec.said_initializer table.now (seen_environment env.old) (spec.filled_kind (seen_environment env.old) (option_map view due.now) (spec.filled (seen_environment env.old) (option_map view due.now) place (view_part part.now).0)) (view_part part.now).1).all (shown out.old)) }
    ensures behind { OnOk result (seen_environment env.new ≡ scopes.behind_initializer (seen_environment env.old) (view_part part.now).1) }
{
    let at = filled(env, due, place, &part.name);
    let next = next_place(place, at)?;
    let kind = filled_kind(env, due, at)?;
    let one = walk_init(alloc, table, env, &part.init, &kind, out)?;
    Ok(ListPart {
        settled: one.settled,
        fixed: one.fixed,
        unknown: at.is_none(),
        positional: positional(due, alone, &part.name, one.constant),
        misfit: one.misfit,
        next,
    })
}

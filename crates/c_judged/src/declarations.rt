//! Declarations (C11 6.7).

ghost use Rattle.std.specs.Prelude.{◌≡◌, ◌<◌, ◌&&◌, length, map, option_map, is_some, IfOk, OnOk};
ghost use Rattle.c_judgements.specs.Parts.{added, closed};
ghost use Rattle.c_bindings.specs.Told.{bound};
ghost use Rattle.c_kinds.specs.View.{view};
ghost use Rattle.c_tree.specs.DeclaredNames.{declarator_name};
ghost use Rattle.c_tree.specs.View.{view_declarator, view_specifier, specifiers_of};
ghost use Rattle.c_tree.specs.StatementView.{view_init, view_named, view_declaration};
ghost use Rattle.c_environment.specs.Scopes as scopes;
ghost use Rattle.c_environment.specs.Seen.{seen_type, seen_entity, seen_environment};
ghost use Rattle.c_rules.specs.Judgement.{is_settled};
ghost use Rattle.c_rules.specs.Seen.{seen};
ghost use Rattle.c_declared.specs.Nodes as nodes;
ghost use Rattle.c_declared.specs.Seen.{shown};
ghost use Rattle.c_judged.specs.Declarations as spec;
ghost use Rattle.c_judged.specs.Parts as parts;

use crate::initializers::{InitPart, or_misfit, walk_init};
use c_bindings::{Binding, Told, bound_to};
use c_declared::{
    Declared, Faults, Judgements, Part, both, broken, declared_name, is_own, names_enumeration,
    object_faults, once, tag_unknown, tag_word, walk_declarator, walk_specifiers,
};
use c_environment::{DeclaredType, Entity, Environment, tag_alone};
use c_kinds::CType;
use c_rules::{Constant, MisfitKind, Verdict};
use c_tree::{Decl, Declarator, Init, Named, SpecWord, Storage};
use posix_table::Table;
use sqlite_items::Boxed;
use std::alloc::{AllocError, Global};

/// What a declared name is, where it comes into scope.
#[derive(Clone, Copy)]
pub(crate) struct NamePart {
    /// What is broken first.
    first: Option<MisfitKind>,
    /// Whether its type is complete, where it must be.
    is_complete: bool,
}

fn names_function(d: &Declarator) -> bool
    ensures { result ≡ spec.is_function_form (view_declarator d.now) }
{
    match d {
        Declarator::Function(_, _, _) => true,
        Declarator::Plain(_, _) | Declarator::Array(_, _, _) | Declarator::Pointer(_, _, _, _, _) =>
            false,
    }
}

fn is_typedef(storage: Storage) -> bool
    ensures { result ≡ scopes.is_typedef storage }
{
    matches!(storage, Storage::Typedef)
}

fn is_extern(storage: Storage) -> bool
    ensures { result ≡ scopes.is_extern storage }
{
    matches!(storage, Storage::Extern)
}

fn is_object(storage: Storage, d: &Declarator) -> bool
    ensures { result ≡ spec.is_object storage (view_declarator d.now) }
{
    !is_typedef(storage) && !names_function(d)
}

/// Whether the name has linkage (C11 6.2.2p4 to p6).
fn has_linkage(outside: bool, storage: Storage, is_function: bool) -> bool
    ensures { result ≡ parts.linked_at outside storage is_function }
{
    !is_typedef(storage) && (is_function || outside || is_extern(storage))
}

fn is_lasting(outside: bool, storage: Storage) -> bool
    ensures { result ≡ spec.is_lasting outside storage }
{
    outside || matches!(storage, Storage::Static) || is_extern(storage)
}

fn may_stand_again(is_function: bool, entity: &Entity) -> bool
    ensures { result ≡ spec.may_stand_again is_function (seen_entity entity.now) }
{
    match entity {
        Entity::Function(_) => is_function,
        Entity::Variable(v) => !is_function && v.linked,
        _ => false,
    }
}

fn clashes_with(linked: bool, is_function: bool, entity: Option<&Entity>) -> bool
    ensures { result ≡ spec.clashes_with linked is_function (option_map (λ e. seen_entity e.now) entity.entry) }
{
    match entity {
        Some(entity) => !(linked && may_stand_again(is_function, entity)),
        None => false,
    }
}

/// Whether the name can't be declared here (C11 6.7p3).
pub(crate) fn is_taken(env: &Environment, linked: bool, is_function: bool, name: &[u8]) -> bool
    ensures { result ≡ spec.is_taken (seen_environment env.now) linked is_function name.now }
{
    let reserved = env.at_file_scope() && env.is_reserved(name);
    reserved || clashes_with(linked, is_function, env.entity_here(name))
}

/// The kind of an object or function.
pub(crate) fn kind_of(entity: &Entity) -> Option<&CType>
    ensures { option_map (λ t. view t.now) result ≡ spec.kind_of (seen_entity entity.now) }
{
    match entity {
        Entity::Variable(v) => Some(&v.of.kind),
        Entity::Function(of) => Some(&of.kind),
        _ => None,
    }
}

fn differs_from(kind: &CType, before: Option<&CType>) -> bool
    ensures { result ≡ spec.differs_from (view kind.now) (option_map (λ t. view t.now) before.entry) }
{
    match before {
        Some(before) => !before.agrees(kind),
        None => false,
    }
}

/// Whether the object or function with linkage of this name has had another type (C11 6.2.7p2).
pub(crate) fn differs(env: &Environment, name: &[u8], kind: &CType) -> bool
    ensures { result ≡ spec.differs (seen_environment env.now) name.now (view kind.now) }
{
    match env.linked_entity(name) {
        Some(entity) => differs_from(kind, kind_of(entity)),
        None => false,
    }
}

/// What is broken first of a declared name.
pub(crate) fn first_broken(is_twice: bool, is_other: bool, faults: Faults) -> Option<MisfitKind>
    ensures { result ≡ spec.first_broken is_twice is_other faults }
{
    let last = broken(faults.passed, MisfitKind::LeftOut);
    let last = or_misfit(broken(faults.repeated, MisfitKind::DeclaredTwice), last);
    let last = or_misfit(broken(is_other, MisfitKind::KindMismatch), last);
    let last = or_misfit(broken(is_twice, MisfitKind::DeclaredTwice), last);
    or_misfit(broken(faults.unknown, MisfitKind::UnknownName), last)
}

/// The same behind its declarator.
fn declared_misfit(
    env: &Environment,
    linked: bool,
    of: &DeclaredType,
    name: &[u8],
    initialised: bool,
    faults: Faults,
) -> Option<MisfitKind>
    ensures { result ≡ spec.declared_misfit (seen_environment env.now) linked (seen_type of.now) name.now initialised faults }
{
    let again = linked && initialised && env.is_initialised(name);
    let twice = is_taken(env, linked, of.is_function, name) || again;
    let other = linked && differs(env, name, &of.kind);
    first_broken(twice, other, faults)
}

/// What is said of a declared name. Err where there is not enough memory.
pub(crate) fn name_rule(
    first: Option<MisfitKind>,
    are_constant: bool,
    misfit: Option<MisfitKind>,
    is_complete: bool,
    kind: &CType,
) -> Result<Verdict, AllocError>
    ensures { IfOk result (λ v. seen v ≡ spec.name_rule first are_constant misfit is_complete (view kind.now)) }
{
    let own = Verdict::Fits(kind.share()?);
    let own = Verdict::unless(broken(!is_complete, MisfitKind::KindMismatch), own);
    let own = Verdict::unless(misfit, own);
    let own = Verdict::unless(broken(!are_constant, MisfitKind::NotConstant), own);
    Ok(Verdict::unless(first, own))
}

fn is_complete_by(storage: Storage, initialised: bool, faults: Faults, of: &DeclaredType) -> bool
    ensures { result ≡ spec.is_complete_by storage initialised faults (seen_type of.now) }
{
    let may_be_open = initialised || is_extern(storage) || is_typedef(storage);
    !faults.incomplete && (!of.is_open || may_be_open)
}

fn faults_behind(
    env: &Environment,
    storage: Storage,
    unknown: bool,
    d: &Declarator,
    by: &Declared,
) -> Faults
    ensures { result ≡ parts.faults_behind (seen_environment env.now) storage unknown (seen_type by.now.of) (view_declarator d.now) by.now.faults }
{
    let own = if is_object(storage, d) {
        object_faults(env, unknown, &by.of)
    } else {
        Faults::none()
    };
    own.and(by.faults)
}

fn initialised_by<'a>(
    env: &mut Environment<'a>,
    linked: bool,
    name: &'a [u8],
    init: &Option<Init>,
) -> Result<(), AllocError>
    ensures { OnOk result (seen_environment env.new ≡ scopes.initialised_by (seen_environment env.old) linked name.now (option_map view_init init.now)) }
{
    match init {
        Some(_) if linked => env.with_initialised(name),
        _ => Ok(()),
    }
}

/// A name comes into scope behind its declarator; whether that stands at file scope, and whether the tag of its type was unknown before it.
/// Err where there is not enough memory.
fn enter_name<'a>(
    env: &mut Environment<'a>,
    outside: bool,
    storage: Storage,
    unknown: bool,
    n: &'a Named,
    by: &Declared,
) -> Result<NamePart, AllocError>
    ensures first { IfOk result (λ p. p.first ≡ spec.declared_misfit (seen_environment env.old) (parts.linked_at outside storage (seen_type by.now.of).is_function) (seen_type by.now.of) (declarator_name (view_declarator n.now.declarator)) (is_some (option_map view_init n.now.init)) (parts.faults_behind (seen_environment env.old) storage unknown (seen_type by.now.of) (view_declarator n.now.declarator) by.now.faults)) }
    ensures complete { IfOk result (λ p. p.is_complete ≡ spec.is_complete_by storage (is_some (option_map view_init n.now.init)) (parts.faults_behind (seen_environment env.old) storage unknown (seen_type by.now.of) (view_declarator n.now.declarator) by.now.faults) (seen_type by.now.of)) }
    ensures env { OnOk result (seen_environment env.new ≡ scopes.initialised_by (scopes.with_name (seen_environment env.old) storage (declarator_name (view_declarator n.now.declarator)) (seen_type by.now.of)) (parts.linked_at outside storage (seen_type by.now.of).is_function) (declarator_name (view_declarator n.now.declarator)) (option_map view_init n.now.init)) }
{
    let d = &n.declarator;
    let name = declared_name(d).as_bytes();
    let linked = has_linkage(outside, storage, by.of.is_function);
    let initialised = n.init.is_some();
    let faults = faults_behind(env, storage, unknown, d, by);
    let first = declared_misfit(env, linked, &by.of, name, initialised, faults);
    let is_complete = is_complete_by(storage, initialised, faults, &by.of);
    env.with_name(storage, name, by.of.share()?)?;
    initialised_by(env, linked, name, &n.init)?;
    Ok(NamePart { first, is_complete })
}

/// An initialiser of an object of this kind, where there is one. Err where there is not enough memory.
#[tactic(auto, using(crate::proofs::Joins::added_none))]
fn walk_optional<'a>(
    alloc: Global,
    table: &Table,
    env: &mut Environment<'a>,
    init: &'a Option<Init>,
    kind: &CType,
    out: &mut Judgements,
) -> Result<InitPart, AllocError>
    requires { 0 < length (shown out.old) }
    ensures settled { IfOk result (λ p. p.settled ≡ (spec.said_optional table.now (seen_environment env.old) (view kind.now) (option_map view_init init.now)).settled) }
    ensures fixed { IfOk result (λ p. p.fixed ≡ spec.is_static_if_any table.now (seen_environment env.old) (option_map view_init init.now)) }
    ensures misfit { IfOk result (λ p. p.misfit ≡ spec.mismatched table.now (seen_environment env.old) (view kind.now) (option_map view_init init.now)) }
    ensures all { OnOk result (shown out.new ≡ added (spec.said_optional table.now (seen_environment env.old) (view kind.now) (option_map view_init init.now)).all (shown out.old)) }
    ensures behind { OnOk result (seen_environment env.new ≡ scopes.behind_optional_initializer (seen_environment env.old) (option_map view_init init.now)) }
{
    match init {
        Some(i) => walk_init(alloc, table, env, i, &Some(kind.share()?), out),
        None => Ok(InitPart {
            settled: true,
            fixed: true,
            constant: Constant::Other,
            misfit: None,
        }),
    }
}

/// A declared name ends, which stands for this: whether its node is settled. Err where there is not enough memory.
fn end_name(
    outside: bool,
    storage: Storage,
    by: &Declared,
    name: NamePart,
    init: InitPart,
    binding: Option<Binding>,
    out: &mut Judgements,
) -> Result<bool, AllocError>
    requires { 1 < length (shown out.old) }
    ensures settled { IfOk result (λ s. s ≡ is_settled (parts.name_closed outside storage by.now.settled by.now.are_sizes (seen_type by.now.of).kind name init)) }
    ensures all { OnOk result (shown out.new ≡ closed (bound (parts.name_closed outside storage by.now.settled by.now.are_sizes (seen_type by.now.of).kind name init) binding) (shown out.old)) }
{
    let constant = !is_lasting(outside, storage) || init.fixed;
    let are_constant = both(by.are_sizes, constant);
    let own = name_rule(
        name.first,
        are_constant,
        init.misfit,
        name.is_complete,
        &by.of.kind,
    )?;
    let own = once(both(by.settled, init.settled), own);
    let settled = own.is_settled();
    out.close_told(Told::bound(own, binding));
    Ok(settled)
}

/// A declared name with its initialiser, of specifiers with this tag, which give this type: whether its node is settled. Err where there is not
/// enough memory.
fn walk_named<'a>(
    alloc: Global,
    table: &Table,
    env: &mut Environment<'a>,
    n: &'a Named,
    storage: Storage,
    word: Option<&SpecWord>,
    of: &DeclaredType,
    out: &mut Judgements,
) -> Result<bool, AllocError>
    requires { 0 < length (shown out.old) }
    ensures settled { IfOk result (λ s. s ≡ (spec.said_named table.now (seen_environment env.old) storage (option_map (λ w. view_specifier w.now) word.entry) (seen_type of.now) (view_named n.now)).settled) }
    ensures all { OnOk result (shown out.new ≡ added (spec.said_named table.now (seen_environment env.old) storage (option_map (λ w. view_specifier w.now) word.entry) (seen_type of.now) (view_named n.now)).all (shown out.old)) }
    ensures behind { OnOk result (seen_environment env.new ≡ scopes.behind_named (seen_environment env.old) storage (seen_type of.now) (view_named n.now)) }
{
    let d = &n.declarator;
    let unknown = both(is_own(d), tag_unknown(env, word));
    let outside = env.at_file_scope();
    out.open()?;
    let by = walk_declarator(alloc, table, env, d, of, out)?;
    let name = enter_name(env, outside, storage, unknown, n, by.get())?;
    let binding = bound_to(env, declared_name(d).as_bytes());
    let kind = &by.get().of.kind;
    let init = walk_optional(alloc, table, env, &n.init, kind, out)?;
    end_name(outside, storage, by.get(), name, init, binding, out)
}

/// Declared names, one after another: whether their nodes are settled. Err where there is not enough memory.
#[tactic(auto, using(crate::proofs::Joins::and_assoc, crate::proofs::Joins::and_true))]
fn walk_names<'a>(
    alloc: Global,
    table: &Table,
    env: &mut Environment<'a>,
    all: &'a [Named],
    storage: Storage,
    word: Option<&SpecWord>,
    of: &DeclaredType,
    out: &mut Judgements,
) -> Result<bool, AllocError>
    requires { 0 < length (shown out.old) }
    ensures settled { IfOk result (λ s. s ≡ (spec.said_names table.now (seen_environment env.old) storage (option_map (λ w. view_specifier w.now) word.entry) (seen_type of.now) (map view_named all.now)).settled) }
    ensures all { OnOk result (shown out.new ≡ added (spec.said_names table.now (seen_environment env.old) storage (option_map (λ w. view_specifier w.now) word.entry) (seen_type of.now) (map view_named all.now)).all (shown out.old)) }
    ensures behind { OnOk result (seen_environment env.new ≡ scopes.behind_names (seen_environment env.old) storage (seen_type of.now) (map view_named all.now)) }
{
    let mut settled = true;
    for n in all {
        let one = walk_named(alloc, table, env, n, storage, word, of, out)?;
        settled = both(settled, one);
    }
    Ok(settled)
}

/// Specifiers alone, as a structure's tag, which is then declared in its own block (C11 6.7.2.3p7). Err where there is not enough memory.
#[tactic(auto, using(crate::proofs::Alone::tag_faults, crate::proofs::Alone::tag_said, crate::proofs::Alone::tag_behind, crate::proofs::Alone::other_faults, crate::proofs::Alone::other_behind))]
fn walk_alone<'a>(
    alloc: Global,
    table: &Table,
    env: &mut Environment<'a>,
    specs: &'a [SpecWord],
    out: &mut Judgements,
) -> Result<Part, AllocError>
    requires { 0 < length (shown out.old) }
    ensures settled { IfOk result (λ p. p.settled ≡ (nodes.said_specifiers table.now (seen_environment env.old) (specifiers_of (map view_specifier specs.now))).settled) }
    ensures faults { IfOk result (λ p. p.faults ≡ spec.alone_faults (seen_environment env.old) (specifiers_of (map view_specifier specs.now))) }
    ensures all { OnOk result (shown out.new ≡ added (nodes.said_specifiers table.now (seen_environment env.old) (specifiers_of (map view_specifier specs.now))).all (shown out.old)) }
    ensures behind { OnOk result (seen_environment env.new ≡ scopes.behind_alone (seen_environment env.old) (specifiers_of (map view_specifier specs.now))) }
{
    match tag_alone(specs) {
        Some(name) => {
            let faults = Faults::repeated_if(names_enumeration(env.tag_here(name.as_bytes())));
            env.with_tag_alone(name.as_bytes())?;
            Ok(Part {
                settled: true,
                faults,
            })
        }
        None => walk_specifiers(alloc, table, env, specs, out),
    }
}

/// Specifiers, and the names that are declared with them. Err where there is not enough memory.
fn walk_list<'a>(
    alloc: Global,
    table: &Table,
    env: &mut Environment<'a>,
    storage: Storage,
    specs: &'a [SpecWord],
    names: &'a [Named],
    out: &mut Judgements,
) -> Result<Part, AllocError>
    requires { 0 < length (shown out.old) }
    ensures settled { IfOk result (λ p. p.settled ≡ (spec.said_list table.now (seen_environment env.old) storage (specifiers_of (map view_specifier specs.now)) (map view_named names.now)).settled) }
    ensures faults { IfOk result (λ p. p.faults ≡ spec.declaration_faults (seen_environment env.old) (specifiers_of (map view_specifier specs.now)) (map view_named names.now)) }
    ensures all { OnOk result (shown out.new ≡ added (spec.said_list table.now (seen_environment env.old) storage (specifiers_of (map view_specifier specs.now)) (map view_named names.now)).all (shown out.old)) }
    ensures behind { OnOk result (seen_environment env.new ≡ scopes.behind_list (seen_environment env.old) storage (specifiers_of (map view_specifier specs.now)) (map view_named names.now)) }
{
    match names {
        [] => walk_alone(alloc, table, env, specs, out),
        [_first, _more @ ..] => {
            let of = Boxed::new(alloc, env.specified(specs)?)?;
            let word = tag_word(specs);
            let part = walk_specifiers(alloc, table, env, specs, out)?;
            let settled = walk_names(alloc, table, env, names, storage, word, of.get(), out)?;
            Ok(Part {
                settled: both(part.settled, settled),
                faults: part.faults,
            })
        }
    }
}

/// A declaration. Err where there is not enough memory.
pub(crate) fn walk_declaration<'a>(
    alloc: Global,
    table: &Table,
    env: &mut Environment<'a>,
    d: &'a Decl,
    out: &mut Judgements,
) -> Result<(), AllocError>
    requires { 0 < length (shown out.old) }
    ensures all { OnOk result (shown out.new ≡ added (spec.said_declaration table.now (seen_environment env.old) (view_declaration d.now)).all (shown out.old)) }
    ensures behind { OnOk result (seen_environment env.new ≡ scopes.behind_declaration (seen_environment env.old) (view_declaration d.now)) }
{
    let specs = d.specs.as_slice();
    let names = d.names.as_slice();
    out.open()?;
    let part = walk_list(alloc, table, env, d.storage, specs, names, out)?;
    let twice = broken(part.faults.repeated, MisfitKind::DeclaredTwice);
    out.close(once(part.settled, Verdict::unless(twice, Verdict::Silent)));
    Ok(())
}

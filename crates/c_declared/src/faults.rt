//! What breaks a rule in types and declarators outside of the nodes that stand in them.

ghost use Rattle.std.specs.Prelude.{◌≡◌, ◌&&◌, map, option_map};
ghost use Rattle.c_kinds.specs.View.{view};
ghost use Rattle.c_tree.specs.View.{view_expression, view_specifier, specifiers_of, sizes_of, view_declarator, view_bare};
ghost use Rattle.c_environment.specs.Environment.{tag};
ghost use Rattle.c_environment.specs.Seen.{seen_type, seen_structure, seen_environment};
ghost use Rattle.c_declared.specs.Ends.{object_type_faults, parameter_type_faults};
ghost use Rattle.c_declared.specs.Faults as spec;
ghost use Rattle.c_declared.specs.Sizes as sizes;

use base_core::Lexeme;
use c_environment::{DeclaredType, Environment, Structure};
use c_kinds::CType;
use c_rules::{object_misfit, passed_misfit};
use c_tree::{Bare, Declarator, Expr, Quals, SpecWord};

/// Which rules are broken.
#[derive(Clone, Copy)]
pub struct Faults {
    /// An object has the type of a tag that isn't declared.
    pub unknown: bool,
    /// A tag is declared twice, or as a structure and as an enumeration.
    pub repeated: bool,
    /// A structure or a sigset_t is passed or returned by value.
    pub passed: bool,
    /// An object's type isn't complete, or is void or a function's.
    pub incomplete: bool,
}

/// Whether both hold.
pub fn both(one: bool, other: bool) -> bool
    ensures { result ≡ (one && other) }
{
    one && other
}

impl Faults {
    /// None is broken.
    pub fn none() -> Faults
        ensures { result ≡ spec.no_faults }
    {
        Faults {
            unknown: false,
            repeated: false,
            passed: false,
            incomplete: false,
        }
    }

    /// Those that are broken in one part or another.
    pub fn and(self, other: Faults) -> Faults
        ensures { result ≡ spec.faults_of_both self other }
    {
        Faults {
            unknown: self.unknown || other.unknown,
            repeated: self.repeated || other.repeated,
            passed: self.passed || other.passed,
            incomplete: self.incomplete || other.incomplete,
        }
    }

    /// A tag is declared twice, where this holds.
    pub fn repeated_if(holds: bool) -> Faults
        ensures { result ≡ spec.repeated_if holds }
    {
        Faults {
            unknown: false,
            repeated: holds,
            passed: false,
            incomplete: false,
        }
    }
}

fn has_begun(structure: Option<&Structure>) -> bool
    ensures { result ≡ spec.has_begun (option_map (λ s. seen_structure s.now) structure.entry) }
{
    match structure {
        Some(structure) => structure.begun,
        None => false,
    }
}

fn structure_clashes(env: &Environment, known: Option<Option<u32>>) -> bool
    ensures { result ≡ spec.structure_clashes (seen_environment env.now) known }
{
    match known {
        None => false,
        Some(None) => true,
        Some(Some(number)) => has_begun(env.structure(number)),
    }
}

/// Whether a tag that is known as this names an enumeration.
pub fn names_enumeration(known: Option<Option<u32>>) -> bool
    ensures { result ≡ spec.names_enumeration known }
{
    matches!(known, Some(None))
}

fn names_structure(known: Option<Option<u32>>) -> bool
    ensures { result ≡ spec.names_structure known }
{
    matches!(known, Some(Some(_)))
}

fn structure_repeats(env: &Environment, tag: &Option<Lexeme>) -> bool
    ensures { result ≡ spec.structure_repeats (seen_environment env.now) tag.now }
{
    match tag {
        None => false,
        Some(name) => structure_clashes(env, env.tag_here(name.as_bytes())),
    }
}

fn enumeration_repeats(env: &Environment, tag: &Option<Lexeme>) -> bool
    ensures { result ≡ spec.enumeration_repeats (seen_environment env.now) tag.now }
{
    match tag {
        None => false,
        Some(name) => env.tag_here(name.as_bytes()).is_some(),
    }
}

/// The faults of a tag that stands alone, of a structure.
pub(crate) fn structure_tag_faults(env: &Environment, name: &[u8]) -> Faults
    ensures { result ≡ spec.repeated_if (spec.names_enumeration (tag (seen_environment env.now) name.now)) }
{
    Faults::repeated_if(names_enumeration(env.tag(name)))
}

/// The faults of a tag that stands alone, of an enumeration.
pub(crate) fn enumeration_tag_faults(env: &Environment, name: &[u8]) -> Faults
    ensures { result ≡ spec.repeated_if (spec.names_structure (tag (seen_environment env.now) name.now)) }
{
    Faults::repeated_if(names_structure(env.tag(name)))
}

/// The faults of a structure's tag before its members.
pub(crate) fn structure_faults(env: &Environment, tag: &Option<Lexeme>) -> Faults
    ensures { result ≡ spec.repeated_if (spec.structure_repeats (seen_environment env.now) tag.now) }
{
    Faults::repeated_if(structure_repeats(env, tag))
}

/// The faults of an enumeration's tag before its enumerators.
pub(crate) fn enumeration_faults(env: &Environment, tag: &Option<Lexeme>) -> Faults
    ensures { result ≡ spec.repeated_if (spec.enumeration_repeats (seen_environment env.now) tag.now) }
{
    Faults::repeated_if(enumeration_repeats(env, tag))
}

fn is_undeclared(structure: Option<&Structure>) -> bool
    ensures { result ≡ spec.is_undeclared (option_map (λ s. seen_structure s.now) structure.entry) }
{
    match structure {
        None => true,
        Some(structure) => !structure.complete && !structure.declared,
    }
}

fn structure_unknown(env: &Environment, known: Option<Option<u32>>) -> bool
    ensures { result ≡ spec.structure_unknown (seen_environment env.now) known }
{
    match known {
        Some(Some(number)) => is_undeclared(env.structure(number)),
        _ => true,
    }
}

/// The tag among the specifiers that stands without members or enumerators.
pub fn tag_word(specs: &[SpecWord]) -> Option<&SpecWord>
    ensures { option_map (λ w. view_specifier w.now) result ≡ spec.tag_word (specifiers_of (map view_specifier specs.now)) }
{
    for word in specs {
        match word {
            SpecWord::StructTag(_) => return Some(word),
            SpecWord::EnumTag(_) => return Some(word),
            _ => {}
        }
    }
    None
}

/// Whether specifiers with this one have a tag that isn't declared (C11 6.7.2.3p3).
pub fn tag_unknown(env: &Environment, word: Option<&SpecWord>) -> bool
    ensures { result ≡ spec.tag_unknown (seen_environment env.now) (option_map (λ w. view_specifier w.now) word.entry) }
{
    match word {
        Some(SpecWord::StructTag(name)) => structure_unknown(env, env.tag(name.as_bytes())),
        Some(SpecWord::EnumTag(name)) => env.tag(name.as_bytes()).is_none(),
        _ => false,
    }
}

fn is_completed(structure: Option<&Structure>) -> bool
    ensures { result ≡ spec.is_completed (option_map (λ s. seen_structure s.now) structure.entry) }
{
    match structure {
        Some(structure) => structure.complete,
        None => false,
    }
}

fn is_complete(env: &Environment, kind: &CType) -> bool
    ensures { result ≡ spec.is_complete (seen_environment env.now) (view kind.now) }
{
    match kind {
        CType::Struct(number) => is_completed(env.structure(*number)),
        _ => true,
    }
}

fn incomplete_type(env: &Environment, of: &DeclaredType) -> bool
    ensures { result ≡ spec.incomplete_type (seen_environment env.now) (seen_type of.now) }
{
    let complete = is_complete(env, of.kind.innermost());
    object_misfit(complete, of.is_function, &of.kind).is_some()
}

fn is_passed(kind: &CType) -> bool
    ensures { result ≡ spec.is_passed (view kind.now) }
{
    passed_misfit(kind).is_some()
}

fn has_stars(stars: &[Quals]) -> bool
    ensures { result ≡ spec.has_stars stars.now }
{
    match stars {
        [] => false,
        [_first, _more @ ..] => true,
    }
}

/// Whether the declared name has the specifiers' type itself, or is an array of it.
pub fn is_own(d: &Declarator) -> bool
    ensures { result ≡ spec.is_own (view_declarator d.now) }
{
    match d {
        Declarator::Plain(stars, _) => !has_stars(stars.as_slice()),
        Declarator::Array(stars, _, _) => !has_stars(stars.as_slice()),
        Declarator::Function(_, _, _) | Declarator::Pointer(_, _, _, _, _) => false,
    }
}

/// The same of a declarator without a name.
pub(crate) fn is_own_bare(b: &Bare) -> bool
    ensures { result ≡ spec.is_own_bare (view_bare b.now) }
{
    match b {
        Bare::Plain(stars) => !has_stars(stars.as_slice()),
        Bare::Pointer(_, _, _) => false,
    }
}

/// The faults of an object's type, asked behind its declarator; whether its tag was unknown before it.
pub fn object_faults(env: &Environment, unknown: bool, of: &DeclaredType) -> Faults
    ensures { result ≡ object_type_faults (seen_environment env.now) unknown (seen_type of.now) }
{
    Faults {
        unknown,
        repeated: false,
        passed: false,
        incomplete: incomplete_type(env, of),
    }
}

/// The same of a parameter.
pub(crate) fn parameter_faults(env: &Environment, unknown: bool, of: &DeclaredType) -> Faults
    ensures { result ≡ parameter_type_faults (seen_environment env.now) unknown (seen_type of.now) }
{
    Faults {
        unknown,
        repeated: false,
        passed: is_passed(&of.kind),
        incomplete: incomplete_type(env, of),
    }
}

/// The faults of the type that a function gives.
pub fn result_faults(of: &DeclaredType) -> Faults
    ensures { result ≡ spec.result_faults (seen_type of.now) }
{
    Faults {
        unknown: false,
        repeated: false,
        passed: is_passed(&of.kind),
        incomplete: false,
    }
}

/// Whether all sizes of an array are given.
fn are_given(all: &[Option<Expr>]) -> bool
    ensures { result ≡ sizes.are_given (sizes_of (map (option_map view_expression) all.now)) }
{
    for size in all {
        match size {
            Some(_) => {}
            None => return false,
        }
    }
    true
}

fn elements_are_complete(is_open: bool, all: &[Option<Expr>]) -> bool
    ensures { result ≡ sizes.elements_are_complete is_open (sizes_of (map (option_map view_expression) all.now)) }
{
    match all {
        [] => true,
        [Some(_), more @ ..] => !is_open && are_given(more),
        [None, more @ ..] => !is_open && are_given(more),
    }
}

/// The faults of an array with these sizes, of what is an array without a size or not (C11 6.7.6.2p1).
pub(crate) fn element_faults(is_open: bool, all: &[Option<Expr>]) -> Faults
    ensures { result ≡ spec.element_faults is_open (sizes_of (map (option_map view_expression) all.now)) }
{
    Faults {
        unknown: false,
        repeated: false,
        passed: false,
        incomplete: !elements_are_complete(is_open, all),
    }
}

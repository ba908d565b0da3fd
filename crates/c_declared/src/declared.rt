//! What types and declarators give, beside the nodes that stand in them (C11 6.7.6, 6.7.7).

ghost use Rattle.std.specs.Prelude.{◌≡◌, ◌&&◌, true, false, map, option_map, IfOk};
ghost use Rattle.c_kinds.specs.View.{view};
ghost use Rattle.c_tree.specs.Tree.{no_sizes};
ghost use Rattle.c_tree.specs.View.{view_expression, sizes_of};
ghost use Rattle.c_environment.specs.Seen.{seen_type, seen_environment};
ghost use Rattle.c_environment.specs.Types as types;
ghost use Rattle.c_declared.specs.Ends.{parameter_type_faults};
ghost use Rattle.c_declared.specs.Faults as spec;

use crate::faults::{Faults, both, element_faults, parameter_faults, result_faults};
use c_environment::{DeclaredType, Environment};
use c_kinds::{CType, Types};
use c_tree::{Expr, Qual, Quals};
use sqlite_items::Boxed;
use std::alloc::{AllocError, Global};

/// What a part of a declaration gives that has no type.
#[derive(Clone, Copy)]
pub struct Part {
    /// Whether the outermost nodes in it have kinds, or count as nodes that have.
    pub settled: bool,
    /// What is broken outside of its nodes.
    pub faults: Faults,
}

/// What the sizes of an array give.
#[derive(Clone, Copy)]
pub struct SizesPart {
    /// Whether the outermost nodes in them have kinds.
    pub settled: bool,
    /// Whether they are integer constant expressions.
    pub are_sizes: bool,
}

/// What a declarator or a type name gives.
#[derive(Drop)]
pub struct Declared {
    /// Whether the outermost nodes in it have kinds, or count as nodes that have.
    pub settled: bool,
    /// Whether its sizes are integer constant expressions.
    pub are_sizes: bool,
    /// What is broken outside of its nodes.
    pub faults: Faults,
    /// Its type.
    pub of: DeclaredType,
}

/// What parameters give.
#[derive(Drop)]
pub struct ParametersPart {
    /// Whether the outermost nodes in them have kinds, or count as nodes that have.
    pub settled: bool,
    /// What is broken outside of their nodes.
    pub faults: Faults,
    /// Their kinds.
    pub kinds: Vec<CType>,
}

/// A type to which these stars point.
fn pointed(alloc: Global, of: &DeclaredType, stars: &[Quals]) -> Result<DeclaredType, AllocError>
    ensures { IfOk result (λ t. seen_type t ≡ types.pointed stars.now (seen_type of.now)) }
{
    of.share()?.pointed(alloc, stars)
}

pub(crate) fn plain_declared(
    alloc: Global,
    of: &DeclaredType,
    stars: &[Quals],
) -> Result<Boxed<Declared>, AllocError>
    ensures settled { IfOk result (λ d. d.settled ≡ true) }
    ensures sizes { IfOk result (λ d. d.are_sizes ≡ true) }
    ensures faults { IfOk result (λ d. d.faults ≡ spec.no_faults) }
    ensures of { IfOk result (λ d. seen_type d.of ≡ types.pointed stars.now (seen_type of.now)) }
{
    let of = pointed(alloc, of, stars)?;
    Ok(Boxed::new(
        alloc,
        Declared {
            settled: true,
            are_sizes: true,
            faults: Faults::none(),
            of,
        },
    )?)
}

pub(crate) fn array_declared(
    alloc: Global,
    of: &DeclaredType,
    stars: &[Quals],
    sizes: &[Option<Expr>],
    part: SizesPart,
) -> Result<Boxed<Declared>, AllocError>
    ensures settled { IfOk result (λ d. d.settled ≡ part.settled) }
    ensures sizes { IfOk result (λ d. d.are_sizes ≡ part.are_sizes) }
    ensures faults { IfOk result (λ d. d.faults ≡ spec.element_faults (types.pointed stars.now (seen_type of.now)).is_open (sizes_of (map (option_map view_expression) sizes.now))) }
    ensures of { IfOk result (λ d. seen_type d.of ≡ types.arrayed (sizes_of (map (option_map view_expression) sizes.now)) (types.pointed stars.now (seen_type of.now))) }
{
    let element = pointed(alloc, of, stars)?;
    let faults = element_faults(element.is_open, sizes);
    let of = element.arrayed(alloc, sizes)?;
    Ok(Boxed::new(
        alloc,
        Declared {
            settled: part.settled,
            are_sizes: part.are_sizes,
            faults,
            of,
        },
    )?)
}

pub(crate) fn function_declared(
    alloc: Global,
    of: &DeclaredType,
    stars: &[Quals],
    parameters: Boxed<ParametersPart>,
) -> Result<Boxed<Declared>, AllocError>
    ensures settled { IfOk result (λ d. d.settled ≡ parameters.settled) }
    ensures sizes { IfOk result (λ d. d.are_sizes ≡ true) }
    ensures faults { IfOk result (λ d. d.faults ≡ spec.faults_of_both (spec.result_faults (types.pointed stars.now (seen_type of.now))) parameters.faults) }
    ensures of { IfOk result (λ d. seen_type d.of ≡ types.function_type (map view parameters.kinds.items) (types.pointed stars.now (seen_type of.now))) }
{
    let ParametersPart {
        settled,
        faults,
        kinds,
    } = parameters.into_inner();
    let gives = pointed(alloc, of, stars)?;
    let faults = result_faults(&gives).and(faults);
    let of = gives.function_type(alloc, Types::new(alloc, kinds)?)?;
    Ok(Boxed::new(
        alloc,
        Declared {
            settled,
            are_sizes: true,
            faults,
            of,
        },
    )?)
}

pub(crate) fn pointer_declared(
    alloc: Global,
    of: &DeclaredType,
    stars: &[Quals],
    quals: &[Qual],
    sizes: &[Option<Expr>],
    part: SizesPart,
    parameters: Boxed<ParametersPart>,
) -> Result<Boxed<Declared>, AllocError>
    ensures settled { IfOk result (λ d. d.settled ≡ (part.settled && parameters.settled)) }
    ensures sizes { IfOk result (λ d. d.are_sizes ≡ part.are_sizes) }
    ensures faults { IfOk result (λ d. d.faults ≡ spec.faults_of_both (spec.element_faults false (sizes_of (map (option_map view_expression) sizes.now))) (spec.faults_of_both (spec.result_faults (types.pointed stars.now (seen_type of.now))) parameters.faults)) }
    ensures of { IfOk result (λ d. seen_type d.of ≡ types.pointer_type quals.now (sizes_of (map (option_map view_expression) sizes.now)) (map view parameters.kinds.items) (types.pointed stars.now (seen_type of.now))) }
{
    let ParametersPart {
        settled,
        faults,
        kinds,
    } = parameters.into_inner();
    let gives = pointed(alloc, of, stars)?;
    let faults = element_faults(false, sizes).and(result_faults(&gives).and(faults));
    let kinds = Types::new(alloc, kinds)?;
    let of = gives.pointer_type(alloc, quals, sizes, kinds)?;
    Ok(Boxed::new(
        alloc,
        Declared {
            settled: both(part.settled, settled),
            are_sizes: part.are_sizes,
            faults,
            of,
        },
    )?)
}

/// A pointer to a function without a name.
pub(crate) fn bare_declared(
    alloc: Global,
    of: &DeclaredType,
    stars: &[Quals],
    quals: &[Qual],
    parameters: Boxed<ParametersPart>,
) -> Result<Boxed<Declared>, AllocError>
    ensures settled { IfOk result (λ d. d.settled ≡ parameters.settled) }
    ensures faults { IfOk result (λ d. d.faults ≡ spec.faults_of_both (spec.result_faults (types.pointed stars.now (seen_type of.now))) parameters.faults) }
    ensures of { IfOk result (λ d. seen_type d.of ≡ types.pointer_type quals.now no_sizes (map view parameters.kinds.items) (types.pointed stars.now (seen_type of.now))) }
{
    let none = SizesPart {
        settled: true,
        are_sizes: true,
    };
    pointer_declared(alloc, of, stars, quals, &[], none, parameters)
}

/// A type name, whose specifiers give this.
pub(crate) fn type_declared(
    alloc: Global,
    part: Part,
    bare: Boxed<Declared>,
) -> Result<Boxed<Declared>, AllocError>
    ensures settled { IfOk result (λ d. d.settled ≡ (part.settled && bare.settled)) }
    ensures faults { IfOk result (λ d. d.faults ≡ spec.faults_of_both part.faults bare.faults) }
    ensures of { IfOk result (λ d. seen_type d.of ≡ seen_type bare.of) }
{
    let Declared {
        settled,
        are_sizes,
        faults,
        of,
    } = bare.into_inner();
    Ok(Boxed::new(
        alloc,
        Declared {
            settled: both(part.settled, settled),
            are_sizes,
            faults: part.faults.and(faults),
            of,
        },
    )?)
}

/// A parameter without a name, whose specifiers give this, behind it; whether its tag was unknown before.
pub(crate) fn bare_parameter(
    alloc: Global,
    env: &Environment,
    unknown: bool,
    part: Part,
    bare: Boxed<Declared>,
) -> Result<Boxed<Declared>, AllocError>
    ensures settled { IfOk result (λ d. d.settled ≡ (part.settled && bare.settled)) }
    ensures faults { IfOk result (λ d. d.faults ≡ spec.faults_of_both part.faults (spec.faults_of_both (parameter_type_faults (seen_environment env.now) unknown (types.adjusted (seen_type bare.of))) bare.faults)) }
    ensures of { IfOk result (λ d. seen_type d.of ≡ types.adjusted (seen_type bare.of)) }
{
    let Declared {
        settled,
        are_sizes,
        faults,
        of,
    } = bare.into_inner();
    let of = of.adjusted()?;
    let own = parameter_faults(env, unknown, &of).and(faults);
    Ok(Boxed::new(
        alloc,
        Declared {
            settled: both(part.settled, settled),
            are_sizes,
            faults: part.faults.and(own),
            of,
        },
    )?)
}

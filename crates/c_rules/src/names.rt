//! Names and literals (C11 6.5.1).

ghost use Rattle.std.specs.Prelude.{◌≡◌, IfOk, option_map};
ghost use Rattle.c_kinds.specs.View.{view};
ghost use Rattle.c_rules.specs.Names as rule;
ghost use Rattle.c_rules.specs.Seen.{seen};

use crate::misfit::MisfitKind;
use crate::types::{handler, of_type, plain_int};
use crate::verdict::Verdict;
use c_arithmetic::integer_type;
use c_builtins::BuiltIn;
use c_kinds::CType;
use std::alloc::{AllocError, Global};

/// What a name in an expression stands for (C11 6.2.1p1).
#[derive(Clone, Copy)]
pub enum Denoted {
    /// Nothing that is declared.
    Undeclared,
    /// An object of the program.
    Object {
        /// Whether it is declared const.
        constant: bool,
        /// Whether the program defines it.
        defined: bool,
    },
    /// A function of the program.
    Function {
        /// Whether the program defines it.
        defined: bool,
        /// Whether it is main.
        main: bool,
    },
    /// A library function.
    Library,
    /// An enumerator.
    Enumerator,
    /// A built-in name.
    BuiltIn(BuiltIn),
}

/// The kind of a built-in name; None where the subset leaves it out. Err where there is not enough memory.
pub fn built_in_kind(alloc: Global, built_in: BuiltIn) -> Result<Option<CType>, AllocError>
    ensures { IfOk result (λ o. option_map view o ≡ rule.built_in_kind built_in) }
{
    match built_in {
        BuiltIn::Default | BuiltIn::Ignore | BuiltIn::Failure => Ok(Some(handler(alloc)?)),
        BuiltIn::Initializer => Ok(Some(CType::Kernel)),
        BuiltIn::Stream(_) => Ok(Some(CType::pointer(alloc, CType::Kernel)?)),
        BuiltIn::LeftOut => Ok(None),
        BuiltIn::Number(_) | BuiltIn::Null | BuiltIn::Opaque | BuiltIn::Errno => Ok(Some(
            plain_int(),
        )),
    }
}

fn by_built_in(kind: Option<CType>) -> Verdict
    ensures { seen result ≡ rule.by_built_in (option_map view kind) }
{
    match kind {
        Some(kind) => Verdict::Fits(kind),
        None => Verdict::Fails(MisfitKind::LeftOut),
    }
}

fn declared(kind: Option<&CType>) -> Result<Verdict, AllocError>
    ensures { IfOk result (λ v. seen v ≡ rule.of_declared (option_map (λ t. view t.now) kind.entry)) }
{
    match kind {
        Some(kind) => Ok(Verdict::Fits(kind.share()?)),
        None => Ok(Verdict::Waits),
    }
}

/// The rule of a name that stands for this, and is declared with this kind; whether it stands before the arguments of a call
/// (C11 6.5.1p2). Err where there is not enough memory.
pub fn named(
    alloc: Global,
    denoted: Denoted,
    kind: Option<&CType>,
    as_callee: bool,
) -> Result<Verdict, AllocError>
    ensures { IfOk result (λ v. seen v ≡ rule.named denoted (option_map (λ t. view t.now) kind.entry) as_callee) }
{
    match denoted {
        Denoted::Undeclared
        | Denoted::Object { defined: false, .. }
        | Denoted::Function { defined: false, .. } => Ok(Verdict::Fails(MisfitKind::UnknownName)),
        Denoted::Function { main: true, .. } => Ok(Verdict::Fails(MisfitKind::LeftOut)),
        Denoted::Object { .. } | Denoted::Function { .. } => declared(kind),
        Denoted::Library => {
            if as_callee {
                Ok(Verdict::Silent)
            } else {
                Ok(Verdict::Fails(MisfitKind::LibraryAsValue))
            }
        }
        Denoted::Enumerator => Ok(Verdict::Fits(plain_int())),
        Denoted::BuiltIn(built_in) => Ok(by_built_in(built_in_kind(alloc, built_in)?)),
    }
}

/// An integer constant with this spelling (C11 6.4.4.1p5).
pub fn integer(bytes: &[u8]) -> Verdict
    ensures { seen result ≡ rule.integer bytes.now }
{
    Verdict::Fits(of_type(integer_type(bytes)))
}

/// A character constant (C11 6.4.4.4p10).
pub fn character() -> Verdict
    ensures { seen result ≡ rule.character }
{
    Verdict::Fits(plain_int())
}

/// A string literal (C11 6.4.5p6). Err where there is not enough memory.
pub fn text(alloc: Global) -> Result<Verdict, AllocError>
    ensures { IfOk result (λ v. seen v ≡ rule.text) }
{
    Ok(Verdict::Fits(CType::array(alloc, CType::Int(8, true))?))
}

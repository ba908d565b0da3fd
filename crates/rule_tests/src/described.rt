//! Operands and verdicts by short descriptions.

use c_kinds::{CType, Types};
use c_rules::{Constant, Designates, Form, MisfitKind, Operand, Verdict};
use std::alloc::{AllocError, Global};
use std::mem;

/// Takes one step of a kind's description: a base kind is pushed, `*` and `[` make a pointer to the last and an array of it, and `f` a
/// function that gives the last and takes those before it.
fn describe(alloc: Global, kinds: &mut Vec<CType>, step: u8) -> Result<(), AllocError> {
    let base = match step {
        b'v' => CType::Void,
        b'c' => CType::Int(8, true),
        b'b' => CType::Int(8, false),
        b'h' => CType::Int(16, false),
        b'i' => CType::Int(32, true),
        b'n' => CType::Int(32, false),
        b'l' => CType::Int(64, true),
        b'u' => CType::Int(64, false),
        b't' => CType::Struct(4),
        b'a' => CType::Struct(11),
        b'1' => CType::Struct(20),
        b'2' => CType::Struct(21),
        b's' => CType::Set,
        b'k' => CType::Kernel,
        _ => return modify(alloc, kinds, step),
    };
    kinds.push(base)?;
    Ok(())
}

fn modify(alloc: Global, kinds: &mut Vec<CType>, step: u8) -> Result<(), AllocError> {
    let Some(last) = kinds.pop() else {
        return Ok(());
    };
    let made = match step {
        b'*' => CType::pointer(alloc, last)?,
        b'[' => CType::array(alloc, last)?,
        _ => {
            let takes = mem::replace(kinds, Vec::new(alloc));
            CType::function(alloc, Types::new(alloc, takes)?, last)?
        }
    };
    kinds.push(made)?;
    Ok(())
}

/// The kind of this description; None of none.
pub(crate) fn described(alloc: Global, text: &[u8]) -> Result<Option<CType>, AllocError> {
    let mut kinds = Vec::new(alloc);
    for step in text {
        describe(alloc, &mut kinds, *step)?;
    }
    Ok(kinds.pop())
}

/// Whether two kinds are the same, but for what functions take and give, of which the outermost words count.
fn are_same(one: &CType, other: &CType) -> bool {
    let mut one = one;
    let mut other = other;
    loop {
        match (one, other) {
            (CType::Ptr(to), CType::Ptr(to_too)) | (CType::Array(to), CType::Array(to_too)) => {
                one = to;
                other = to_too;
            }
            (CType::Int(width, signed), CType::Int(width_too, signed_too)) => {
                return width == width_too && signed == signed_too;
            }
            (CType::Void, CType::Void) | (CType::Kernel, CType::Kernel) => return true,
            (CType::Ptr(_), _) | (_, CType::Ptr(_)) => return false,
            _ => return one.matches(other),
        }
    }
}

/// The form that a letter stands for.
fn form(letter: u8) -> Form {
    let (constant, designates, based) = match letter {
        b'0' => (Constant::Zero, Designates::Nothing, false),
        b'N' => (Constant::Null, Designates::Nothing, true),
        b'D' => (Constant::Disposition, Designates::Nothing, true),
        b'K' => (Constant::Initializer, Designates::Nothing, true),
        b'T' => (Constant::Text, Designates::Object, true),
        b'p' => (Constant::Other, Designates::Object, true),
        b'c' => (Constant::Other, Designates::ConstObject, true),
        b'e' => (Constant::Other, Designates::Errno, true),
        b'f' => (Constant::Other, Designates::Function, true),
        b'l' => (Constant::Other, Designates::LibraryFunction, true),
        _ => (Constant::Other, Designates::Nothing, false),
    };
    Form {
        constant,
        designates,
        based,
    }
}

/// The operand of a description: the letter of its form, and its kind. A library function's name has none; `w` is an operand that breaks a
/// rule, and `s` one that has no kind by its form.
pub(crate) fn operand(alloc: Global, text: &[u8]) -> Result<Operand, AllocError> {
    let letter = text.first().copied().unwrap_or(b'.');
    let kind = described(alloc, text.get(1..).unwrap_or(&[]))?;
    let verdict = match (letter, kind) {
        (b'l', _) => Verdict::Fails(MisfitKind::LibraryAsValue),
        (b'w', _) => Verdict::Fails(MisfitKind::LeftOut),
        (_, Some(kind)) => Verdict::Fits(kind),
        (_, None) => Verdict::Silent,
    };
    Ok(Operand {
        verdict,
        form: form(letter),
    })
}

/// The operands of descriptions between blanks.
pub(crate) fn operands(alloc: Global, text: &[u8]) -> Result<Vec<Operand>, AllocError> {
    let mut all = Vec::new(alloc);
    for word in text.split(|b| *b == b' ') {
        if !word.is_empty() {
            all.push(operand(alloc, word)?)?;
        }
    }
    Ok(all)
}

/// Whether a verdict is what a description says: a kind, `!` and the digit of a rule's number, `?` for one that waits, `-` for none.
pub(crate) fn is_wanted(
    alloc: Global,
    verdict: &Verdict,
    wanted: &[u8],
) -> Result<bool, AllocError> {
    match (verdict, wanted) {
        (Verdict::Fails(misfit), [b'!', digit]) => Ok(misfit.number() % 10 + b'0' == *digit),
        (Verdict::Waits, [b'?']) | (Verdict::Silent, [b'-']) => Ok(true),
        (Verdict::Fits(kind), _) => match described(alloc, wanted)? {
            Some(due) => Ok(are_same(kind, &due)),
            None => Ok(false),
        },
        _ => Ok(false),
    }
}

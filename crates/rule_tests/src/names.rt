//! Names, literals and forms.

use crate::described::{described, is_wanted, operand};
use c_builtins::BuiltIn;
use c_kinds::CType;
use c_rules::{Constant, Denoted, Designates, Form, Verdict};
use c_tree::UnaryOp;
use std::alloc::{AllocError, Global};
use std::test::Fail;

struct NameCase {
    denoted: Denoted,
    kind: &'static [u8],
    as_callee: bool,
    gives: &'static [u8],
}

/// Names (C11 6.5.1p2).
#[rattlefmt::skip]
const NAMES: [NameCase; 22] = [
    NameCase { denoted: Denoted::Undeclared, kind: b"", as_callee: false, gives: b"!1" },
    NameCase { denoted: Denoted::Object { constant: false, defined: true }, kind: b"i*", as_callee: false, gives: b"i*" },
    NameCase { denoted: Denoted::Object { constant: true, defined: true }, kind: b"1", as_callee: false, gives: b"1" },
    NameCase { denoted: Denoted::Object { constant: false, defined: false }, kind: b"i", as_callee: false, gives: b"!1" },
    NameCase { denoted: Denoted::Function { defined: true, main: false }, kind: b"ivf", as_callee: false, gives: b"ivf" },
    NameCase { denoted: Denoted::Function { defined: true, main: false }, kind: b"ivf", as_callee: true, gives: b"ivf" },
    NameCase { denoted: Denoted::Function { defined: false, main: false }, kind: b"ivf", as_callee: true, gives: b"!1" },
    NameCase { denoted: Denoted::Function { defined: true, main: true }, kind: b"if", as_callee: false, gives: b"!7" },
    NameCase { denoted: Denoted::Function { defined: false, main: true }, kind: b"if", as_callee: true, gives: b"!1" },
    NameCase { denoted: Denoted::Library, kind: b"", as_callee: true, gives: b"-" },
    NameCase { denoted: Denoted::Library, kind: b"", as_callee: false, gives: b"!0" },
    NameCase { denoted: Denoted::Enumerator, kind: b"", as_callee: false, gives: b"i" },
    NameCase { denoted: Denoted::BuiltIn(BuiltIn::Number(5)), kind: b"", as_callee: false, gives: b"i" },
    NameCase { denoted: Denoted::BuiltIn(BuiltIn::Null), kind: b"", as_callee: false, gives: b"i" },
    NameCase { denoted: Denoted::BuiltIn(BuiltIn::Default), kind: b"", as_callee: false, gives: b"ivf" },
    NameCase { denoted: Denoted::BuiltIn(BuiltIn::Ignore), kind: b"", as_callee: false, gives: b"ivf" },
    NameCase { denoted: Denoted::BuiltIn(BuiltIn::Failure), kind: b"", as_callee: false, gives: b"ivf" },
    NameCase { denoted: Denoted::BuiltIn(BuiltIn::Initializer), kind: b"", as_callee: false, gives: b"k" },
    NameCase { denoted: Denoted::BuiltIn(BuiltIn::Stream(1)), kind: b"", as_callee: false, gives: b"k*" },
    NameCase { denoted: Denoted::BuiltIn(BuiltIn::Opaque), kind: b"", as_callee: false, gives: b"i" },
    NameCase { denoted: Denoted::BuiltIn(BuiltIn::Errno), kind: b"", as_callee: false, gives: b"i" },
    NameCase { denoted: Denoted::BuiltIn(BuiltIn::LeftOut), kind: b"", as_callee: false, gives: b"!7" },
];

fn first_wrong_name(alloc: Global, cases: &[NameCase]) -> Result<Option<usize>, AllocError> {
    for (k, case) in cases.iter().enumerate() {
        let kind = described(alloc, case.kind)?;
        let verdict = c_rules::named(alloc, case.denoted, kind.as_ref(), case.as_callee)?;
        if !is_wanted(alloc, &verdict, case.gives)? {
            return Ok(Some(k));
        }
    }
    Ok(None)
}

#[derive(Clone, Copy)]
enum Literal {
    Integer(&'static [u8]),
    Character,
    Text,
}

fn judged_literal(alloc: Global, of: Literal) -> Result<Verdict, AllocError> {
    match of {
        Literal::Integer(bytes) => Ok(c_rules::integer(bytes)),
        Literal::Character => Ok(c_rules::character()),
        Literal::Text => c_rules::text(alloc),
    }
}

/// Literals, and the descriptions of their kinds (C11 6.4.4.1p5, 6.4.4.4p10, 6.4.5p6).
#[rattlefmt::skip]
const LITERALS: [(Literal, &[u8]); 6] = [
    (Literal::Integer(b"7"), b"i"),
    (Literal::Integer(b"0xffffffff"), b"n"),
    (Literal::Integer(b"4294967295"), b"l"),
    (Literal::Integer(b"0ul"), b"u"),
    (Literal::Character, b"i"),
    (Literal::Text, b"c["),
];

fn first_wrong_literal(
    alloc: Global,
    cases: &[(Literal, &[u8])],
) -> Result<Option<usize>, AllocError> {
    for (k, (of, gives)) in cases.iter().enumerate() {
        let verdict = judged_literal(alloc, *of)?;
        if !is_wanted(alloc, &verdict, gives)? {
            return Ok(Some(k));
        }
    }
    Ok(None)
}

#[test]
fn names_by_what_they_stand_for(rt: HostRuntime) -> Result<(), Fail> {
    assert_eq!(rt; first_wrong_name(rt.alloc(), &NAMES)?, None);
    Ok(())
}

#[test]
fn literals_have_their_kinds(rt: HostRuntime) -> Result<(), Fail> {
    assert_eq!(rt; first_wrong_literal(rt.alloc(), &LITERALS)?, None);
    Ok(())
}

/// What an index into an operand, `.` behind it, or `*` before it designates: `o` an object, `c` one that is declared const, `n` nothing.
fn designated(alloc: Global, text: &[u8], step: u8) -> Result<u8, AllocError> {
    let x = operand(alloc, text)?;
    let made = match step {
        b'[' => c_rules::index_form(&x),
        b'*' => c_rules::unary_form(UnaryOp::Follow, &x),
        b'-' => c_rules::unary_form(UnaryOp::Minus, &x),
        b'.' => x.form.dot(),
        _ => x.form.paren(),
    };
    Ok(match made.designates {
        Designates::Nothing => b'n',
        Designates::Object => b'o',
        Designates::ConstObject => b'c',
        Designates::Errno => b'e',
        Designates::Function | Designates::LibraryFunction => b'f',
    })
}

/// Parts of const objects, and what const pointers point to (C11 6.3.2.1p1, 6.5.1p5, 6.5.3.2p4): an operand, a step, and what is designated.
#[rattlefmt::skip]
const DESIGNATED: [(&[u8], u8, u8); 11] = [
    (b"ci[", b'[', b'c'),
    (b"ci[", b'*', b'c'),
    (b"c1", b'.', b'c'),
    (b"c1", b'(', b'c'),
    (b"ci*", b'[', b'o'),
    (b"ci*", b'*', b'o'),
    (b"pi[", b'[', b'o'),
    (b"fivf", b'*', b'n'),
    (b"fivf", b'(', b'n'),
    (b"ei", b'(', b'e'),
    (b"pi", b'-', b'n'),
];

fn first_wrong_place(
    alloc: Global,
    cases: &[(&[u8], u8, u8)],
) -> Result<Option<usize>, AllocError> {
    for (k, (text, step, wanted)) in cases.iter().enumerate() {
        if designated(alloc, text, *step)? != *wanted {
            return Ok(Some(k));
        }
    }
    Ok(None)
}

fn is_zero(form: Form) -> bool {
    matches!(form.constant, Constant::Zero)
}

/// Whether the constant 0 is told by its value in any spelling, and not in parentheses.
fn are_zeros(zeros: &[&[u8]], others: &[&[u8]]) -> bool {
    zeros.iter().all(|z| is_zero(Form::integer(z)) && !is_zero(Form::integer(z).paren()))
        && others.iter().all(|z| !is_zero(Form::integer(z)))
        && !is_zero(Form::plain())
}

/// Whether the names of constants and objects have their forms.
fn are_named_forms() -> bool {
    matches!(
        c_rules::name_form(Denoted::BuiltIn(BuiltIn::Null)).constant,
        Constant::Null
    ) && matches!(
        c_rules::name_form(Denoted::BuiltIn(BuiltIn::Failure)).constant,
        Constant::Disposition
    ) && matches!(
        c_rules::name_form(Denoted::BuiltIn(BuiltIn::Errno)).designates,
        Designates::Errno
    ) && matches!(
        c_rules::name_form(Denoted::Object {
            constant: true,
            defined: true
        })
        .designates,
        Designates::ConstObject
    ) && matches!(
        c_rules::name_form(Denoted::Enumerator).designates,
        Designates::Nothing
    ) && matches!(
        c_rules::name_form(Denoted::Library).designates,
        Designates::LibraryFunction
    ) && Form::text().based
}

#[test]
fn forms_of_expressions(rt: HostRuntime) -> Result<(), Fail> {
    let alloc = rt.alloc();
    assert_eq!(rt; first_wrong_place(alloc, &DESIGNATED)?, None);
    assert!(rt;
        are_zeros(
            &[b"0", b"0x0u", b"00L"],
            &[b"1", b"0x10", b"18446744073709551615u"]
        )
    );
    assert!(rt; are_named_forms());
    Ok(())
}

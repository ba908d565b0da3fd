//! Statements and declarations.

use crate::asked::{Case, Rule, wrong_in};
use c_kinds::CType;
use c_rules::MisfitKind;
use std::test::Fail;

/// Conditions, switch, and return with the result of its function first (C11 6.8).
#[rattlefmt::skip]
const STATEMENTS: [Case; 26] = [
    Case { rule: Rule::Condition, on: b"pi", gives: b"-" },
    Case { rule: Rule::Condition, on: b"pi*", gives: b"-" },
    Case { rule: Rule::Condition, on: b"pi[", gives: b"-" },
    Case { rule: Rule::Condition, on: b"fivf", gives: b"-" },
    Case { rule: Rule::Condition, on: b"p1", gives: b"!5" },
    Case { rule: Rule::Condition, on: b".v", gives: b"!5" },
    Case { rule: Rule::Condition, on: b"ps", gives: b"!5" },
    Case { rule: Rule::Condition, on: b"l", gives: b"-" },
    Case { rule: Rule::Condition, on: b"w", gives: b"?" },
    Case { rule: Rule::Switch, on: b"pi", gives: b"-" },
    Case { rule: Rule::Switch, on: b"pc", gives: b"-" },
    Case { rule: Rule::Switch, on: b"pi*", gives: b"!5" },
    Case { rule: Rule::Switch, on: b"p1", gives: b"!5" },
    Case { rule: Rule::Switch, on: b"l", gives: b"-" },
    Case { rule: Rule::Switch, on: b"w", gives: b"?" },
    Case { rule: Rule::Return, on: b".i pl", gives: b"-" },
    Case { rule: Rule::Return, on: b".i pi*", gives: b"!5" },
    Case { rule: Rule::Return, on: b".i* 0i", gives: b"-" },
    Case { rule: Rule::Return, on: b".i* pi", gives: b"!5" },
    Case { rule: Rule::Return, on: b".v pi", gives: b"!5" },
    Case { rule: Rule::Return, on: b".v .v", gives: b"!5" },
    Case { rule: Rule::Return, on: b".v l", gives: b"!5" },
    Case { rule: Rule::Return, on: b".v w", gives: b"?" },
    Case { rule: Rule::Return, on: b".i l", gives: b"-" },
    Case { rule: Rule::Return, on: b".ivf Divf", gives: b"-" },
    Case { rule: Rule::Return, on: b".i .v", gives: b"!5" },
];

/// Initialisers and declarations (C11 6.7, 6.9, 5.1.2.2.1).
#[rattlefmt::skip]
const DECLARATIONS: [Case; 65] = [
    Case { rule: Rule::Initial, on: b".k Kk", gives: b"-" },
    Case { rule: Rule::Initial, on: b".k .k", gives: b"!5" },
    Case { rule: Rule::Initial, on: b".i Kk", gives: b"!5" },
    Case { rule: Rule::Initial, on: b".c[ Tc[", gives: b"-" },
    Case { rule: Rule::Initial, on: b".b[ Tc[", gives: b"-" },
    Case { rule: Rule::Initial, on: b".i[ Tc[", gives: b"!5" },
    Case { rule: Rule::Initial, on: b".h[ Tc[", gives: b"!5" },
    Case { rule: Rule::Initial, on: b".c[ pc[", gives: b"!5" },
    Case { rule: Rule::Initial, on: b".c* Tc[", gives: b"-" },
    Case { rule: Rule::Initial, on: b".i[ pi*", gives: b"!5" },
    Case { rule: Rule::Initial, on: b".i* 0i", gives: b"-" },
    Case { rule: Rule::Initial, on: b".i* .i", gives: b"!5" },
    Case { rule: Rule::Initial, on: b".1 p1", gives: b"-" },
    Case { rule: Rule::Initial, on: b".1 0i", gives: b"!5" },
    Case { rule: Rule::Initial, on: b".i l", gives: b"-" },
    Case { rule: Rule::Initial, on: b".s ps", gives: b"-" },
    Case { rule: Rule::Initial, on: b".ivf Divf", gives: b"-" },
    Case { rule: Rule::Object(true, false), on: b"pi", gives: b"-" },
    Case { rule: Rule::Object(true, false), on: b".v", gives: b"!5" },
    Case { rule: Rule::Object(true, false), on: b".v[", gives: b"!5" },
    Case { rule: Rule::Object(true, false), on: b".k", gives: b"-" },
    Case { rule: Rule::Object(true, false), on: b".i[", gives: b"-" },
    Case { rule: Rule::Object(true, false), on: b".ivf", gives: b"-" },
    Case { rule: Rule::Object(false, false), on: b".1", gives: b"!5" },
    Case { rule: Rule::Object(false, false), on: b".i[", gives: b"!5" },
    Case { rule: Rule::Object(true, true), on: b".ivf", gives: b"!5" },
    Case { rule: Rule::Passed, on: b".1", gives: b"!7" },
    Case { rule: Rule::Passed, on: b".s", gives: b"!7" },
    Case { rule: Rule::Passed, on: b".a", gives: b"!7" },
    Case { rule: Rule::Passed, on: b".k", gives: b"-" },
    Case { rule: Rule::Passed, on: b".i", gives: b"-" },
    Case { rule: Rule::Passed, on: b".1*", gives: b"-" },
    Case { rule: Rule::Redeclared, on: b".i .l", gives: b"-" },
    Case { rule: Rule::Redeclared, on: b".i .i*", gives: b"!5" },
    Case { rule: Rule::Redeclared, on: b".ivf .vf", gives: b"!5" },
    Case { rule: Rule::Redeclared, on: b".ivf .lvf", gives: b"-" },
    Case { rule: Rule::Redeclared, on: b".i[ .l[", gives: b"-" },
    Case { rule: Rule::Redeclared, on: b".i[ .i*[", gives: b"!5" },
    Case { rule: Rule::Redeclared, on: b".k .k", gives: b"-" },
    Case { rule: Rule::Redeclared, on: b".1 .2", gives: b"!5" },
    Case { rule: Rule::Redeclared, on: b".i[ .i", gives: b"!5" },
    Case { rule: Rule::List, on: b".i[", gives: b"-" },
    Case { rule: Rule::List, on: b".1", gives: b"-" },
    Case { rule: Rule::List, on: b".i", gives: b"!5" },
    Case { rule: Rule::List, on: b".s", gives: b"!5" },
    Case { rule: Rule::List, on: b".k", gives: b"!5" },
    Case { rule: Rule::List, on: b".i*", gives: b"!5" },
    Case { rule: Rule::Positional(true), on: b"0a", gives: b"-" },
    Case { rule: Rule::Positional(true), on: b".a", gives: b"!7" },
    Case { rule: Rule::Positional(true), on: b"Na", gives: b"!7" },
    Case { rule: Rule::Positional(true), on: b".1", gives: b"-" },
    Case { rule: Rule::Positional(false), on: b"0a", gives: b"!7" },
    Case { rule: Rule::Positional(false), on: b".t", gives: b"-" },
    Case { rule: Rule::Main, on: b".if", gives: b"-" },
    Case { rule: Rule::Main, on: b".ic**if", gives: b"-" },
    Case { rule: Rule::Main, on: b".ic**c**if", gives: b"-" },
    Case { rule: Rule::Main, on: b".iif", gives: b"!8" },
    Case { rule: Rule::Main, on: b".vf", gives: b"!8" },
    Case { rule: Rule::Main, on: b".lf", gives: b"!8" },
    Case { rule: Rule::Main, on: b".nf", gives: b"!8" },
    Case { rule: Rule::Main, on: b".nc**if", gives: b"!8" },
    Case { rule: Rule::Main, on: b".ic**c**iif", gives: b"!8" },
    Case { rule: Rule::Main, on: b".iiif", gives: b"!8" },
    Case { rule: Rule::Main, on: b".ic**iif", gives: b"!8" },
    Case { rule: Rule::Main, on: b"s", gives: b"!8" },
];

/// Whether a part of a list is told that has no member to fill (C11 6.7.9p2, p7), and a return without an expression (6.8.6.4p1).
fn are_told(int: &CType) -> bool {
    c_rules::part_misfit(true, Some(int)).is_none()
        && matches!(
            c_rules::part_misfit(true, None),
            Some(MisfitKind::UnknownName)
        )
        && matches!(
            c_rules::part_misfit(false, None),
            Some(MisfitKind::KindMismatch)
        )
        && c_rules::return_nothing(&CType::Void).misfit().is_none()
        && matches!(
            c_rules::return_nothing(int).misfit(),
            Some(MisfitKind::KindMismatch)
        )
}

#[test]
fn statements_and_declarations(rt: HostRuntime) -> Result<(), Fail> {
    let tables: [&[Case]; 2] = [&STATEMENTS, &DECLARATIONS];
    assert_eq!(rt; wrong_in(rt.alloc(), &tables)?, None);
    assert!(rt; are_told(&CType::Int(32, true)));
    Ok(())
}

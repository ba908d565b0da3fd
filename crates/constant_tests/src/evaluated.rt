use crate::letters::Letters;
use crate::read::{enumeration, enumerators, expression};
use crate::table::GROUPS;
use c_arithmetic::{IntType, Value};
use c_constants::{case_value, constant, enumerator};
use c_tree::{Enumerator, Program};
use std::alloc::Global;

/// The type of this name in the table.
fn type_named(name: &str) -> Option<IntType> {
    match name {
        "int" => Some(IntType::INT),
        "unsigned" => Some(IntType::UNSIGNED_INT),
        "long" => Some(IntType::LONG),
        "ulong" => Some(IntType::UNSIGNED_LONG),
        _ => None,
    }
}

/// The value that the table expects; a text of another form gives no value in the place of one, so that the row fails.
fn expected(text: &str) -> Option<Option<Value>> {
    if text == "none" {
        return Some(None);
    }
    let (name, number) = text.split_once(' ')?;
    let of = type_named(name)?;
    let number = number.parse::<i64>().ok()?;
    Some(Some(Value { number, of }))
}

/// Whether the only enumerator has an expression with this value.
fn has_value(program: &Program, value: Option<Value>) -> bool {
    match expression(program) {
        Some(e) => constant(&Letters, e) == value,
        None => false,
    }
}

/// Whether the expression of the row has the value that is beside it.
fn is_right(alloc: Global, row: &str) -> bool {
    let Some((text, value)) = row.split_once(" => ") else {
        return false;
    };
    let Some(value) = expected(value) else {
        return false;
    };
    let Ok(list) = format!(in alloc; "A = {text}") else {
        return false;
    };
    match enumeration(alloc, list.as_str()) {
        Some(program) => has_value(&program, value),
        None => false,
    }
}

/// The first row that has another value than the one beside it.
fn first_wrong(alloc: Global, rows: &str) -> Option<&str> {
    for row in rows.lines() {
        if !is_right(alloc, row) {
            return Some(row);
        }
    }
    None
}

#[test]
fn constant_expressions_have_their_values(rt: HostRuntime) {
    for rows in GROUPS {
        assert_eq!(rt; first_wrong(rt.alloc(), rows), None);
    }
}

/// Whether the enumerators have these values, up to the first that has none.
fn count_on(all: &[Enumerator], values: &[i32]) -> bool {
    let mut before = None;
    let mut rest = values;
    for one in all {
        match (enumerator(&Letters, one, before), rest) {
            (Some(value), [first, more @ ..]) if value == *first => {
                before = Some(value);
                rest = more;
            }
            (None, []) => return true,
            _ => return false,
        }
    }
    rest.is_empty()
}

fn have_values(alloc: Global, list: &str, values: &[i32]) -> bool {
    match enumeration(alloc, list) {
        Some(program) => match enumerators(&program) {
            Some(all) => count_on(all, values),
            None => false,
        },
        None => false,
    }
}

#[test]
fn enumerators_count_on(rt: HostRuntime) {
    let alloc = rt.alloc();
    let first = have_values(alloc, "A, B, C = 10, D, E = -1, F", &[0, 1, 10, 11, -1, 0]);
    let greatest = have_values(alloc, "A = 2147483647, B", &[i32::MAX]);
    let past = have_values(alloc, "A = 5, B = 2147483648, C", &[5]);
    let least = have_values(alloc, "A = n, B, C = n - 1l", &[i32::MIN, -2147483647]);
    let unsigned = have_values(alloc, "A = 7u, B = ~0u", &[7]);
    let unknown = have_values(alloc, "A = 1, B = x, C", &[1]);
    assert!(rt; first && greatest && past && least && unsigned && unknown);
}

/// Whether a case of this text in a switch on the type has the value.
fn is_case(alloc: Global, text: &str, switched: IntType, value: Option<i64>) -> bool {
    match enumeration(alloc, text) {
        Some(program) => match expression(&program) {
            Some(e) => case_value(&Letters, e, switched) == value,
            None => false,
        },
        None => false,
    }
}

#[test]
fn a_case_is_a_value_of_the_promoted_type(rt: HostRuntime) {
    let alloc = rt.alloc();
    let int = is_case(alloc, "A = -1", IntType::INT, Some(-1));
    let unsigned = is_case(alloc, "A = -1", IntType::UNSIGNED_INT, None);
    let large = is_case(
        alloc,
        "A = 4294967295",
        IntType::UNSIGNED_INT,
        Some(4294967295),
    );
    let too_large = is_case(alloc, "A = 4294967295", IntType::INT, None);
    let of_char = is_case(alloc, "A = 1000", IntType::CHAR, Some(1000));
    let long = is_case(alloc, "A = 1l << 40", IntType::LONG, Some(1 << 40));
    let converted = is_case(alloc, "A = 5ul", IntType::INT, Some(5));
    let division = is_case(alloc, "A = 1 / 0", IntType::LONG, None);
    assert!(rt; int && unsigned && large && too_large && of_char && long && converted && division);
}

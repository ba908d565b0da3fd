use abstract_values::{AbsFns, AbsInt, AbsSet, FnList, SlotValue};
use base_core::{NoMemory, Sig};
use sig_set::SigSet;
use std::alloc::Global;
use std::test::Fail;

/// The abstract integer that a letter of the tables stands for.
fn named(letter: u8) -> AbsInt {
    match letter {
        b'A' => AbsInt::Any,
        b'N' => AbsInt::NotZero,
        b'0' => AbsInt::Exactly(0),
        b'5' => AbsInt::Exactly(5),
        b'3' => AbsInt::Exactly(-3),
        _ => AbsInt::EntryErrno,
    }
}

/// Whether the value of the letter is below those of A, N, 0, 5, 3 and E where a 1 stands, and has these joins.
fn row_holds(row: u8, below: &[u8; 6], joins: &[u8; 6]) -> bool {
    let a = named(row);
    let columns = b"AN053E";
    for k in 0..6 {
        let b = named(columns[k]);
        if a.below(b) != (below[k] == b'1') || a.join(b) != named(joins[k]) {
            return false;
        }
    }
    true
}

#[test]
fn integers_pair_by_pair(rt: HostRuntime) {
    assert!(rt; row_holds(b'A', b"100000", b"AAAAAA"));
    assert!(rt; row_holds(b'N', b"110000", b"ANANNA"));
    assert!(rt; row_holds(b'0', b"101000", b"AA0AAA"));
    assert!(rt; row_holds(b'5', b"110100", b"ANA5NA"));
    assert!(rt; row_holds(b'3', b"110010", b"ANAN3A"));
    assert!(rt; row_holds(b'E', b"100001", b"AAAAAE"));
}

/// The set of the signals 2 and 3, as far as asked for.
fn signals(second: bool, third: bool) -> SigSet {
    let mut set = SigSet::empty();
    if let Some(signal) = Sig::new(2) {
        if second {
            set = set.with(signal);
        }
    }
    if let Some(signal) = Sig::new(3) {
        if third {
            set = set.with(signal);
        }
    }
    set
}

fn abs_set(must: SigSet, may: SigSet) -> AbsSet {
    AbsSet { must, may }
}

/// The sets that a letter of the tables stands for: exactly {2}, at most {2}, exactly {2, 3}, 2 and perhaps 3, at most
/// {2, 3}, exactly {}, and all.
fn set_named(letter: u8) -> AbsSet {
    let none = signals(false, false);
    let two = signals(true, false);
    let both = signals(true, true);
    match letter {
        b'2' => abs_set(two, two),
        b'b' => abs_set(none, two),
        b'3' => abs_set(both, both),
        b'd' => abs_set(two, both),
        b'e' => abs_set(none, both),
        b'0' => abs_set(none, none),
        _ => AbsSet::any(),
    }
}

fn are_sets_equal(a: &AbsSet, b: &AbsSet) -> bool {
    a.must == b.must && a.may == b.may
}

fn is_set_below(a: &AbsSet, b: &AbsSet) -> bool {
    a.below(*b)
}

fn sets_join_to(a: &AbsSet, b: &AbsSet, wanted: &AbsSet) -> bool {
    let join = a.join(*b);
    are_sets_equal(&join, wanted)
}

/// Whether the sets of the letter are below those of 2, b, 3, d, e, A and 0 where a 1 stands, and have these joins.
fn set_row_holds(row: u8, below: &[u8; 7], joins: &[u8; 7]) -> bool {
    let a = set_named(row);
    let columns = b"2b3deA0";
    for k in 0..7 {
        let b = set_named(columns[k]);
        let wanted = set_named(joins[k]);
        if is_set_below(&a, &b) != (below[k] == b'1') || !sets_join_to(&a, &b, &wanted) {
            return false;
        }
    }
    true
}

#[test]
fn sets_pair_by_pair(rt: HostRuntime) {
    assert!(rt; set_row_holds(b'2', b"1101110", b"2bddeAb"));
    assert!(rt; set_row_holds(b'b', b"0100110", b"bbeeeAb"));
    assert!(rt; set_row_holds(b'3', b"0011110", b"de3deAe"));
    assert!(rt; set_row_holds(b'd', b"0001110", b"deddeAe"));
    assert!(rt; set_row_holds(b'e', b"0000110", b"eeeeeAe"));
    assert!(rt; set_row_holds(b'A', b"0000010", b"AAAAAAA"));
    assert!(rt; set_row_holds(b'0', b"0100111", b"bbeeeA0"));
}

/// The codes that a letter of the tables stands for: null, ignore and the function 2, and each two or three of them.
fn codes_named(letter: u8) -> &'static [u8] {
    match letter {
        b'z' => b"\x00",
        b'i' => b"\x01",
        b'g' => b"\x04",
        b'b' => b"\x00\x04",
        b'p' => b"\x01\x00",
        b'q' => b"\x04\x01",
        b't' => b"\x04\x00\x01",
        _ => b"",
    }
}

/// The functions that a letter of the tables stands for; n for none of them.
fn functions_named(alloc: Global, letter: u8) -> Result<AbsFns, NoMemory> {
    if letter == b'A' {
        return Ok(AbsFns::Any);
    }
    let mut list = FnList::new(alloc);
    for code in codes_named(letter) {
        list.add(*code as u64)?;
    }
    Ok(AbsFns::Among(list))
}

fn functions_join_to(
    alloc: Global,
    a: &AbsFns,
    b: &AbsFns,
    wanted: &AbsFns,
) -> Result<bool, NoMemory> {
    let join = a.join(alloc, b)?;
    Ok(join.below(wanted) && wanted.below(&join))
}

/// Whether a value is below that of a letter or isn't, and their join is that of another letter.
fn functions_hold(
    alloc: Global,
    a: &AbsFns,
    column: u8,
    below: bool,
    join: u8,
) -> Result<bool, NoMemory> {
    let b = functions_named(alloc, column)?;
    let wanted = functions_named(alloc, join)?;
    Ok(a.below(&b) == below && functions_join_to(alloc, a, &b, &wanted)?)
}

/// Whether the functions of the letter are below those of n, z, i, g, b and A where a 1 stands, and have these joins.
fn functions_row_holds(
    alloc: Global,
    row: u8,
    below: &[u8; 6],
    joins: &[u8; 6],
) -> Result<bool, NoMemory> {
    let a = functions_named(alloc, row)?;
    let columns = b"nzigbA";
    for k in 0..6 {
        if !functions_hold(alloc, &a, columns[k], below[k] == b'1', joins[k])? {
            return Ok(false);
        }
    }
    Ok(true)
}

#[test]
fn functions_pair_by_pair(rt: HostRuntime) -> Result<(), Fail> {
    let alloc = rt.alloc();
    assert!(rt; functions_row_holds(alloc, b'n', b"111111", b"nzigbA")?);
    assert!(rt; functions_row_holds(alloc, b'z', b"010011", b"zzpbbA")?);
    assert!(rt; functions_row_holds(alloc, b'i', b"001001", b"ipiqtA")?);
    assert!(rt; functions_row_holds(alloc, b'g', b"000111", b"gbqgbA")?);
    assert!(rt; functions_row_holds(alloc, b'b', b"000011", b"bbtbbA")?);
    assert!(rt; functions_row_holds(alloc, b'A', b"000001", b"AAAAAA")?);
    Ok(())
}

/// The action of these functions and sets, with flags 0.
fn action(alloc: Global, functions: u8, sets: u8) -> Result<SlotValue, NoMemory> {
    let handler = functions_named(alloc, functions)?;
    Ok(SlotValue::Action(handler, set_named(sets), AbsInt::Exactly(0)))
}

/// The value that a letter of the tables stands for, of each form.
fn value_named(alloc: Global, letter: u8) -> Result<SlotValue, NoMemory> {
    match letter {
        b'5' => Ok(SlotValue::Number(AbsInt::Exactly(5))),
        b'N' => Ok(SlotValue::Number(AbsInt::NotZero)),
        b's' => Ok(SlotValue::Signals(set_named(b'2'))),
        b'S' => Ok(SlotValue::Signals(AbsSet::any())),
        b'f' => Ok(SlotValue::Functions(functions_named(alloc, b'z')?)),
        b'a' => action(alloc, b'z', b'2'),
        b'c' => action(alloc, b'g', b'b'),
        b'C' => action(alloc, b'b', b'b'),
        _ => Ok(SlotValue::Number(AbsInt::Any)),
    }
}

fn values_join_to(
    alloc: Global,
    a: &SlotValue,
    b: &SlotValue,
    wanted: &SlotValue,
) -> Result<bool, NoMemory> {
    let join = a.join(alloc, b)?;
    Ok(join.below(wanted) && wanted.below(&join))
}

/// Whether a value is below that of a letter or isn't, and their join is that of another letter.
fn values_hold(
    alloc: Global,
    a: &SlotValue,
    column: u8,
    below: bool,
    join: u8,
) -> Result<bool, NoMemory> {
    let b = value_named(alloc, column)?;
    let wanted = value_named(alloc, join)?;
    Ok(a.below(&b) == below && values_join_to(alloc, a, &b, &wanted)?)
}

/// Whether the value of the letter is below those of 5, N, s, S, f, a, c and C where a 1 stands, and has these joins.
/// Values of two forms aren't ordered, and nothing is known of their join, which is U.
fn value_row_holds(
    alloc: Global,
    row: u8,
    below: &[u8; 8],
    joins: &[u8; 8],
) -> Result<bool, NoMemory> {
    let a = value_named(alloc, row)?;
    let columns = b"5NsSfacC";
    for k in 0..8 {
        if !values_hold(alloc, &a, columns[k], below[k] == b'1', joins[k])? {
            return Ok(false);
        }
    }
    Ok(true)
}

#[test]
fn values_pair_by_pair(rt: HostRuntime) -> Result<(), Fail> {
    let alloc = rt.alloc();
    assert!(rt; value_row_holds(alloc, b'5', b"11000000", b"5NUUUUUU")?);
    assert!(rt; value_row_holds(alloc, b'N', b"01000000", b"NNUUUUUU")?);
    assert!(rt; value_row_holds(alloc, b's', b"00110000", b"UUsSUUUU")?);
    assert!(rt; value_row_holds(alloc, b'S', b"00010000", b"UUSSUUUU")?);
    assert!(rt; value_row_holds(alloc, b'f', b"00001000", b"UUUUfUUU")?);
    assert!(rt; value_row_holds(alloc, b'a', b"00000101", b"UUUUUaCC")?);
    assert!(rt; value_row_holds(alloc, b'c', b"00000011", b"UUUUUCcC")?);
    assert!(rt; value_row_holds(alloc, b'C', b"00000001", b"UUUUUCCC")?);
    Ok(())
}

fn are_equal(a: &SlotValue, b: &SlotValue) -> bool {
    a.below(b) && b.below(a)
}

#[test]
fn a_value_is_copied(rt: HostRuntime) -> Result<(), Fail> {
    let alloc = rt.alloc();
    let value = value_named(alloc, b'c')?;
    let copy = value.copy(alloc)?;
    assert!(rt; are_equal(&value, &copy));
    Ok(())
}

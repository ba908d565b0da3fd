use abstract_values::{AbsFns, AbsInt, AbsSet, FnList, Slot, SlotValue, Slots, State};
use base_core::{NoMemory, NodeId, Sig, VarId};
use sig_set::SigSet;
use std::alloc::Global;
use std::test::Fail;

/// The set of the signals of these numbers.
fn set_of(numbers: &[u8]) -> SigSet {
    let mut set = SigSet::empty();
    for number in numbers {
        if let Some(signal) = Sig::new(*number) {
            set = set.with(signal);
        }
    }
    set
}

fn abs_set(must: &[u8], may: &[u8]) -> AbsSet {
    AbsSet {
        must: set_of(must),
        may: set_of(may),
    }
}

/// The functions of these codes.
fn among(alloc: Global, codes: &[u64]) -> Result<AbsFns, NoMemory> {
    let mut list = FnList::new(alloc);
    for code in codes {
        if *code < 4294967298 {
            list.add(*code)?;
        }
    }
    Ok(AbsFns::Among(list))
}

/// Whether the list is 0, 3, 4294967297.
fn has_three(list: &FnList) -> bool {
    list.len() == 3
        && list.at(0) == Some(0)
        && list.at(1) == Some(3)
        && list.at(2) == Some(4294967297)
        && list.at(3).is_none()
}

#[test]
fn a_list_keeps_its_codes_in_order(rt: HostRuntime) -> Result<(), Fail> {
    let mut list = FnList::new(rt.alloc());
    let first = list.add(3)? && list.add(4294967297)? && list.add(0)?;
    let again = list.add(3)? || list.add(0)? || list.add(4294967297)?;
    assert!(rt; first && !again && has_three(&list));
    Ok(())
}

/// Whether the slots are variable 7 with 5 and node 3 with another number than 0.
fn has_two(slots: &Slots) -> bool {
    slots.len() == 2
        && slots.get(Slot::Var(VarId(3))).is_none()
        && is_at(slots, 0, Slot::Var(VarId(7)), AbsInt::Exactly(5))
        && is_at(slots, 1, Slot::Node(NodeId(3)), AbsInt::NotZero)
        && slots.at(2).is_none()
}

/// Whether the slot at this place has this key and this number, by either look-up.
fn is_at(slots: &Slots, k: usize, key: Slot, number: AbsInt) -> bool {
    match (slots.at(k), slots.get(key)) {
        (Some((there, SlotValue::Number(a))), Some(SlotValue::Number(b))) => {
            *there == key && *a == number && *b == number
        }
        _ => false,
    }
}

#[test]
fn slots_are_set_and_removed(rt: HostRuntime) -> Result<(), Fail> {
    let mut slots = Slots::new(rt.alloc());
    slots.set(Slot::Node(NodeId(3)), SlotValue::Number(AbsInt::NotZero))?;
    slots.set(Slot::Var(VarId(7)), SlotValue::Number(AbsInt::EntryErrno))?;
    slots.set(Slot::Var(VarId(7)), SlotValue::Number(AbsInt::Exactly(5)))?;
    slots.set(Slot::Var(VarId(3)), SlotValue::Signals(AbsSet::any()))?;
    let set = has_two(&slots);
    slots.set(Slot::Var(VarId(7)), SlotValue::Number(AbsInt::Any))?;
    slots.remove(Slot::Node(NodeId(3)));
    slots.remove(Slot::Node(NodeId(3)));
    assert!(rt; set && slots.len() == 0);
    Ok(())
}

/// Sets three slots: a function, an action and a number.
fn fill(alloc: Global, state: &mut State, code: u64, number: AbsInt) -> Result<(), NoMemory> {
    let handler = among(alloc, &[code])?;
    let mask = abs_set(&[2], &[2]);
    let action = SlotValue::Action(handler.copy(alloc)?, mask, AbsInt::Exactly(0));
    state
        .slots
        .set(Slot::Var(VarId(1)), SlotValue::Functions(handler))?;
    state.slots.set(Slot::Var(VarId(2)), action)?;
    state
        .slots
        .set(Slot::Node(NodeId(9)), SlotValue::Number(number))
}

fn is_equal(a: &State, b: &State) -> bool {
    a.below(b) && b.below(a)
}

/// Whether the joined state is above both, which aren't ordered, and has no slot of the node.
fn is_join_of(join: &State, a: &State, b: &State) -> bool {
    a.below(join)
        && b.below(join)
        && !join.below(a)
        && !join.below(b)
        && join.slots.len() == 2
        && join.slots.get(Slot::Node(NodeId(9))).is_none()
}

#[test]
fn states_with_slots_are_copied_and_joined(rt: HostRuntime) -> Result<(), Fail> {
    let alloc = rt.alloc();
    let mut a = State::new(alloc);
    let mut b = State::new(alloc);
    fill(alloc, &mut a, 2, AbsInt::Exactly(0))?;
    fill(alloc, &mut b, 5, AbsInt::NotZero)?;
    let mut join = a.copy(alloc)?;
    let copied = is_equal(&join, &a);
    let grew = join.join(&b)?;
    let again = join.join(&a)?;
    assert!(rt; copied && grew && !again && is_join_of(&join, &a, &b));
    Ok(())
}

/// Whether the marks order states as they should: what says more is below.
fn marks_hold(bare: &State, alone: &State, neither: &State) -> bool {
    bare.below(alone)
        && alone.below(neither)
        && bare.below(neither)
        && !neither.below(alone)
        && !alone.below(bare)
        && !neither.below(bare)
}

#[test]
fn marks_are_lost_in_joins(rt: HostRuntime) -> Result<(), Fail> {
    let alloc = rt.alloc();
    let neither = State::new(alloc);
    let mut alone = State::new(alloc);
    alone.alone = true;
    let mut bare = alone.copy(alloc)?;
    bare.bare = true;
    let ordered = marks_hold(&bare, &alone, &neither);
    let first = bare.join(&alone)? && is_equal(&bare, &alone);
    let second = bare.join(&neither)? && is_equal(&bare, &neither);
    assert!(rt; ordered && first && second);
    Ok(())
}

#[test]
fn a_mask_loses_what_must_be_in(rt: HostRuntime) -> Result<(), Fail> {
    let interrupt = Sig::named(b"SIGINT").ok_or("no such signal")?;
    let only = SigSet::empty().with(interrupt);
    let mut first = State::new(rt.alloc());
    let mut second = State::new(rt.alloc());
    first.mask = AbsSet {
        must: only,
        may: only,
    };
    second.mask = AbsSet {
        must: SigSet::empty(),
        may: only,
    };
    let grew = first.join(&second)?;
    let became = is_equal(&first, &second);
    let again = first.join(&second)?;
    assert!(rt; grew && became && !again && is_equal(&first, &second));
    Ok(())
}

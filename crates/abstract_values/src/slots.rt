ghost use Rattle.std.specs.Prelude.{◌≡◌, ◌↔◌, ℕ, List, [], ◌∷◌, ◌+◌, ◌++◌, ◌<◌, ◌≤◌, drop, length, slice_get, slice_set, OnOk, OnErr, IfOk, IsTrue, None};
ghost use Rattle.std.specs.List.{insert, remove};
ghost use Rattle.std.specs.Option.{option_copied, option_map};
ghost use Rattle.abstract_values.specs.Places.{leading};
ghost use Rattle.abstract_values.specs.Keys.{is_before};
ghost use Rattle.abstract_values.specs.Values.{known, value_join, IsKept};
ghost use Rattle.abstract_values.specs.Entries.{slot_at, AreSlots, Puts, SlotsUnder, HasKey, IsMet, entry_of, common, slots_join};

use crate::{Slot, SlotValue};
use base_core::NoMemory;
use std::alloc::Global;
use std::marker::Model;

/// What is known of some slots, in the order of their keys; of every other slot nothing is known. A contract sees the
/// list of the entries.
#[derive(Drop)]
pub struct Slots {
    alloc: Global,
    entries: Vec<(Slot, SlotValue)>,
}

impl Model for Slots {
    ghost use Rattle.std.specs.Prelude.{List};
    ghost use Rattle.abstract_values.specs.declared.slot.Slot.{Slot};
    ghost use Rattle.abstract_values.specs.declared.slot_value.SlotValue.{SlotValue};
    ghost use Rattle.abstract_values.specs.contracts.slot_value.SlotValue as value;
    ghost use Rattle.std.specs.Coded.{codes};

    ghost Value = { List (Slot × SlotValue) };

    ghost coded = { Prim.hlevel (codes, value.the_row.coded) };

    ghost use Rattle.abstract_values.specs.Entries.{AreSlots};

    ghost view = { λ s. s.entries.items };

    ghost invariant = { λ s. AreSlots s.entries.items };
}

impl Slots {
    /// No slots.
    pub fn new(alloc: Global) -> Slots
        ensures { result ≡ [] }
    {
        Slots {
            alloc,
            entries: Vec::new(alloc),
        }
    }

    /// The number of slots.
    pub fn len(&self) -> usize
        ensures len { result ≡ length self.now }
        ensures slots { AreSlots self.now }
    {
        self.entries.len()
    }

    /// The slot at this place in the order of the keys, counted from 0; None exactly from the number of slots on.
    pub fn at(&self, k: usize) -> Option<(&Slot, &SlotValue)>
        ensures { option_map (λ e. (e.0.now, e.1.now)) result ≡ slice_get self.now k }
    {
        match self.entries.get(k) {
            Some(entry) => Some((&entry.0, &entry.1)),
            None => None,
        }
    }
    /// The value at this key; None exactly where nothing is known of it.
    pub fn get(&self, s: Slot) -> Option<&SlotValue>
        ensures { option_copied result ≡ slot_at self.now s }
    {
        let place = place_of(&self.entries, 0, s);
        if is_at(&self.entries, place, s) {
            Some(&self.entries[place].1)
        } else {
            None
        }
    }

    /// Gives the key this value, or none where nothing is known of it; other keys stay, and without memory all do.
    pub fn set(&mut self, s: Slot, v: SlotValue) -> Result<(), NoMemory>
        ensures set { OnOk result (Puts s (known v) self.old self.new) }
        ensures err { OnErr result (self.new ≡ self.old) }
    {
        if v.is_unknown() {
            remove_entry(&mut self.entries, s);
            return Ok(());
        }
        set_entry(&mut self.entries, s, v)
    }

    /// Takes the key's value away; other keys stay.
    pub fn remove(&mut self, s: Slot)
        ensures { Puts s None self.old self.new }
    {
        remove_entry(&mut self.entries, s);
    }

    /// Equal slots.
    pub(crate) fn copy(&self, alloc: Global) -> Result<Slots, NoMemory>
        ensures { IfOk result (λ s. s ≡ self.now) }
    {
        let entries = copy_entries(alloc, &self.entries)?;
        Ok(Slots { alloc, entries })
    }

    /// Whether each slot of the other stands here with a value below.
    pub(crate) fn below(&self, o: &Slots) -> bool
        ensures { IsTrue result ↔ SlotsUnder self.now o.now }
    {
        are_below(&self.entries, &o.entries)
    }

    /// The slots of both, with the joins of their values.
    pub(crate) fn join(&self, o: &Slots) -> Result<Slots, NoMemory>
        ensures { IfOk result (λ s. s ≡ slots_join self.now o.now) }
    {
        let alloc = self.alloc;
        let entries = join_entries(alloc, &self.entries, &o.entries)?;
        Ok(Slots { alloc, entries })
    }
}

/// The first place from `start` on where the key isn't before the given one.
fn place_of(entries: &[(Slot, SlotValue)], start: usize, key: Slot) -> usize
    requires { start ≤ length entries.now }
    ensures place { result ≡ start + leading (λ e. is_before e.0 key) (drop start entries.now) }
    ensures within { result ≤ length entries.now }
{
    let mut place = start;
    while place < entries.len() && entries[place].0.is_before(key) {
        place += 1;
    }
    place
}

/// Whether the entry at this place has the key.
fn is_at(entries: &[(Slot, SlotValue)], place: usize, key: Slot) -> bool
    ensures at { IsTrue result ↔ HasKey key (slice_get entries.now place) }
    ensures within { IsTrue result → place < length entries.now }
{
    match entries.get(place) {
        Some(there) => there.0.is_same(key),
        None => false,
    }
}

/// Whether the entry at this place has the key of another, and a value below.
fn is_met(lower: &[(Slot, SlotValue)], place: usize, entry: &(Slot, SlotValue)) -> bool
    ensures { IsTrue result ↔ IsMet entry.now (slice_get lower.now place) }
{
    match lower.get(place) {
        Some(there) => there.0.is_same(entry.0) && there.1.below(&entry.1),
        None => false,
    }
}

fn remove_at(entries: &mut Vec<(Slot, SlotValue)>, place: usize)
    requires { place < length entries.old.items }
    ensures { entries.new.items ≡ remove entries.old.items place }
{
    entries.remove(place);
}

fn replace_at(entries: &mut Vec<(Slot, SlotValue)>, place: usize, entry: (Slot, SlotValue))
    requires { place < length entries.old.items }
    ensures { entries.new.items ≡ slice_set entries.old.items place entry }
{
    entries[place] = entry;
}

fn insert_at(
    entries: &mut Vec<(Slot, SlotValue)>,
    place: usize,
    entry: (Slot, SlotValue),
) -> Result<(), NoMemory>
    requires { place ≤ length entries.old.items }
    ensures ok { OnOk result (entries.new.items ≡ insert entries.old.items place entry) }
    ensures err { OnErr result (entries.new.items ≡ entries.old.items) }
{
    match entries.insert(place, entry) {
        Ok(()) => Ok(()),
        Err(_) => Err(NoMemory),
    }
}

/// Takes the entry of a key away.
fn remove_entry(entries: &mut Vec<(Slot, SlotValue)>, key: Slot)
    requires { AreSlots entries.old.items }
    ensures puts { Puts key None entries.old.items entries.new.items }
    ensures slots { AreSlots entries.new.items }
{
    let place = place_of(entries, 0, key);
    if is_at(entries, place, key) {
        remove_at(entries, place);
    }
}

/// Gives a key a value of which something is known.
fn set_entry(
    entries: &mut Vec<(Slot, SlotValue)>,
    key: Slot,
    value: SlotValue,
) -> Result<(), NoMemory>
    requires slots { AreSlots entries.old.items }
    requires kept { IsKept value }
    ensures puts { OnOk result (Puts key (known value) entries.old.items entries.new.items) }
    ensures slots { AreSlots entries.new.items }
    ensures err { OnErr result (entries.new.items ≡ entries.old.items) }
{
    let place = place_of(entries, 0, key);
    if is_at(entries, place, key) {
        replace_at(entries, place, (key, value));
        return Ok(());
    }
    insert_at(entries, place, (key, value))
}

fn push_copy(
    alloc: Global,
    all: &mut Vec<(Slot, SlotValue)>,
    entry: &(Slot, SlotValue),
) -> Result<(), NoMemory>
    ensures { OnOk result (all.new.items ≡ all.old.items ++ entry.now ∷ []) }
{
    let value = entry.1.copy(alloc)?;
    match all.push((entry.0, value)) {
        Ok(()) => Ok(()),
        Err(_) => Err(NoMemory),
    }
}

fn copy_entries(
    alloc: Global,
    entries: &[(Slot, SlotValue)],
) -> Result<Vec<(Slot, SlotValue)>, NoMemory>
    ensures { IfOk result (λ all. all.items ≡ entries.now) }
{
    let mut all = with_room(alloc, entries.len())?;
    for entry in entries {
        push_copy(alloc, &mut all, entry)?;
    }
    Ok(all)
}

fn with_room(alloc: Global, room: usize) -> Result<Vec<(Slot, SlotValue)>, NoMemory>
    ensures { IfOk result (λ all. all.items ≡ []) }
{
    match Vec::with_capacity(alloc, room) {
        Ok(all) => Ok(all),
        Err(_) => Err(NoMemory),
    }
}

/// Whether each of the upper entries stands in the lower ones with a value below.
fn are_below(lower: &[(Slot, SlotValue)], upper: &[(Slot, SlotValue)]) -> bool
    requires lower { AreSlots lower.now }
    requires upper { AreSlots upper.now }
    ensures { IsTrue result ↔ SlotsUnder lower.now upper.now }
{
    let mut place = 0;
    for entry in upper {
        place = place_of(lower, place, entry.0);
        if !is_met(lower, place, entry) {
            return false;
        }
    }
    true
}

/// Appends the join of two values of a key, where it is known.
fn push_value(
    alloc: Global,
    all: &mut Vec<(Slot, SlotValue)>,
    entry: &(Slot, SlotValue),
    other: &SlotValue,
) -> Result<(), NoMemory>
    ensures { OnOk result (all.new.items ≡ all.old.items ++ entry_of entry.now.0 (value_join entry.now.1 other.now)) }
{
    let value = entry.1.join(alloc, other)?;
    if value.is_unknown() {
        return Ok(());
    }
    match all.push((entry.0, value)) {
        Ok(()) => Ok(()),
        Err(_) => Err(NoMemory),
    }
}

/// Appends what an entry and the one at a place of the others have in common.
fn push_joined(
    alloc: Global,
    all: &mut Vec<(Slot, SlotValue)>,
    entry: &(Slot, SlotValue),
    others: &[(Slot, SlotValue)],
    place: usize,
) -> Result<(), NoMemory>
    ensures { OnOk result (all.new.items ≡ all.old.items ++ common entry.now (slice_get others.now place)) }
{
    if is_at(others, place, entry.0) {
        push_value(alloc, all, entry, &others[place].1)
    } else {
        Ok(())
    }
}

fn join_entries(
    alloc: Global,
    left: &[(Slot, SlotValue)],
    right: &[(Slot, SlotValue)],
) -> Result<Vec<(Slot, SlotValue)>, NoMemory>
    requires left { AreSlots left.now }
    requires right { AreSlots right.now }
    ensures { IfOk result (λ all. all.items ≡ slots_join left.now right.now) }
{
    let mut all = with_room(alloc, left.len().min(right.len()))?;
    let mut place = 0;
    for entry in left {
        place = place_of(right, place, entry.0);
        push_joined(alloc, &mut all, entry, right, place)?;
    }
    Ok(all)
}

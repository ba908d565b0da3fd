ghost use Rattle.std.specs.Prelude.{◌≡◌, ◌≢◌, ◌↔◌, ◌⊎◌, ◌-◌, ◌<◌, ◌≤◌, ◌∷◌, ◌++◌, List, [], ℕ, Option, Some, length, take, map, min, IsTrue, IsErr, IfOk, OnOk, OnErr, Contains};
ghost use Rattle.base_core.specs.Count.{Rose, raised};
ghost use Rattle.base_core.specs.Taken.{appended};

use crate::{Failed, NoMemory, Sink};
use std::alloc::Global;
use std::marker::Model;

/// A sink in memory, which tells the bytes that it has taken. It can be told to fail.
#[derive(Debug, Drop)]
pub struct MemSink {
    taken: Vec<u8>,
    room: usize,
    most: usize,
    planned: Vec<u64>,
    faults: u64,
}

impl Model for MemSink {
    ghost use Rattle.std.specs.Prelude.{◌≤◌, vec_len, vec_capacity};
    ghost use Rattle.base_core.specs.MemSink.{SinkState};

    ghost Value = { SinkState };

    ghost view = { λ s. record {
      taken = s.taken.items;
      room = s.room;
      most = s.most;
      planned = s.planned.items;
      faults = s.faults;
    } };

    ghost invariant = { λ s. (vec_len s.taken ≤ s.room) × (s.room ≤ vec_capacity s.taken) };
}

/// Brings each of the planned failures one put nearer.
fn count_down(planned: &mut [u64])
    ensures { planned.new ≡ map (λ left. left - 1) planned.old }
{
    for left in planned.iter_mut() {
        *left = left.saturating_sub(1);
    }
}

impl MemSink {
    /// A sink that takes `room` bytes in all, and at most `most` in one put.
    pub fn new(alloc: Global, room: usize, most: usize) -> Result<Self, NoMemory>
        ensures taken { IfOk result (λ s. s.taken ≡ []) }
        ensures room { IfOk result (λ s. s.room ≡ room) }
        ensures most { IfOk result (λ s. s.most ≡ most) }
        ensures planned { IfOk result (λ s. s.planned ≡ []) }
        ensures faults { IfOk result (λ s. s.faults ≡ 0) }
    {
        match Vec::with_capacity(alloc, room) {
            Ok(taken) => Ok(MemSink {
                taken,
                room,
                most,
                planned: Vec::new(alloc),
                faults: 0,
            }),
            Err(_) => Err(NoMemory),
        }
    }

    /// Plans that the n-th put from now of a piece that isn't empty fails, counted from 1.
    pub fn fail(&mut self, n: u64) -> Result<(), NoMemory>
        ensures planned { OnOk result (self.new ≡ record self.old { planned = self.old.planned ++ n ∷ [] }) }
        ensures refused { OnErr result (self.new ≡ self.old) }
    {
        match self.planned.push(n) {
            Ok(()) => Ok(()),
            Err(_) => Err(NoMemory),
        }
    }

    /// The bytes that it has taken.
    pub fn taken(&self) -> &[u8]
        ensures { result.now ≡ self.now.taken }
    {
        &self.taken
    }

    /// How often it has failed.
    pub fn faults(&self) -> u64
        ensures { result ≡ self.now.faults }
    {
        self.faults
    }
}

impl Sink for MemSink {
    ghost taken = { λ s. Some s.taken };

    ghost faults = { λ s. s.faults };

    fn put(&mut self, bytes: &[u8]) -> Result<usize, Failed>
        ensures bound { IfOk result (λ n. n ≤ length bytes.now) }
        ensures taken { IfOk result (λ n. Some self.new.taken ≡ appended (Some self.old.taken) (take n bytes.now)) }
        ensures refused { OnErr result (Some self.new.taken ≡ Some self.old.taken) }
        ensures later { self.old.faults ≤ self.new.faults }
        ensures failed { OnErr result (Rose self.old.faults self.new.faults) }
        ensures stuck { result ≡ Ok 0 → bytes.now ≢ [] → Rose self.old.faults self.new.faults }
        ensures empty { bytes.now ≡ [] → result ≡ Ok 0 }
        ensures idle { bytes.now ≡ [] → self.new.faults ≡ self.old.faults }

        // What is planned happens, then want of room, and a put takes as much as it may.
        ensures planned { 0 < length bytes.now → Contains self.old.planned 1 → IsErr result }
        ensures full { 0 < length bytes.now → self.old.room ≤ length self.old.taken → IsErr result }
        ensures takes { OnErr result (Contains self.old.planned 1 ⊎ (self.old.room ≤ length self.old.taken)) }
        ensures much { 0 < length bytes.now → IfOk result (λ n. n ≡ min (min (length bytes.now) (self.old.room - length self.old.taken)) self.old.most) }

        // Each failure is counted, and nothing else is.
        ensures counted { OnErr result (self.new.faults ≡ raised self.old.faults) }
        ensures stuck_counted { result ≡ Ok 0 → 0 < length bytes.now → self.new.faults ≡ raised self.old.faults }
        ensures uncounted { IfOk result (λ n. 0 < n → self.new.faults ≡ self.old.faults) }

        ensures nearer { 0 < length bytes.now → self.new.planned ≡ map (λ left. left - 1) self.old.planned }
        ensures unchanged { bytes.now ≡ [] → self.new ≡ self.old }
        ensures room { self.new.room ≡ self.old.room }
        ensures most { self.new.most ≡ self.old.most }
    {
        if bytes.is_empty() {
            return Ok(0);
        }
        let is_planned = self.planned.contains(&1);
        count_down(&mut self.planned);
        let free = self.room - self.taken.len();
        if is_planned {
            self.faults = self.faults.saturating_add(1);
            return Err(Failed);
        }
        if free == 0 {
            self.faults = self.faults.saturating_add(1);
            return Err(Failed);
        }
        let count = bytes.len().min(free).min(self.most);
        if count == 0 {
            self.faults = self.faults.saturating_add(1);
            return Ok(0);
        }
        self.taken.extend_from_slice(&bytes[..count]).unwrap();
        Ok(count)
    }
}

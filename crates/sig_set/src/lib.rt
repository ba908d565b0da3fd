//! Sets of signals (POSIX.1-2017 XSH 2.4, "signal concepts"), kept as a mask of 28 bits.
//!
//! A contract sees a [`SigSet`] as a finite set of numbers from 1 to 28, and a signal as its number. So each call has
//! the meaning of the set operation of its name, and two sets are equal exactly where they have the same members. The
//! layers above keep signal masks, and what is known of them, as such sets. The crate stands on `base_core` alone, and
//! no call takes memory.
#![tactic(auto)]

ghost use Rattle.std.specs.Prelude.{◌≡◌, ℕ, ◌-◌, ◌^◌, ◌≤◌, IsTrue};
ghost use Rattle.std.specs.FinSet as set;
ghost use Rattle.sig_set.specs.Signals.{AreSignals, every_signal};

use base_core::Sig;
use std::marker::Model;

/// A set of signals.
#[derive(Clone, Copy, Debug, PartialEq, Eq)]
pub struct SigSet {
    mask: u32,
}

impl Model for SigSet {
    ghost use Rattle.std.specs.Prelude.{◌<◌, ◌^◌};
    ghost use Rattle.std.specs.Ordering.{nat_cmp};
    ghost use Rattle.std.specs.FinSet as set;
    ghost use Rattle.std.specs.Coded.{coded_ℕ};
    ghost use Rattle.sig_set.specs.Signals.{signals_of, mask_of};
    ghost use Rattle.sig_set.specs.Masks.{mask_of-signals_of};

    ghost Value = { set.FinSet nat_cmp };

    ghost coded = { set.code coded_ℕ };

    ghost view = { λ s. signals_of s.mask };

    ghost invariant = { λ s. s.mask < 2 ^ 28 };

    ghost inverse = { λ signals. record { mask = mask_of signals } };

    ghost inverse_ok = { λ s within i. record { mask = mask_of-signals_of s.mask within i } };
}

/// The mask of a signal alone.
fn bit_of(s: Sig) -> u32
    ensures value { result ≡ 2 ^ (s - 1) }
    ensures least { 1 ≤ s }
    ensures greatest { s ≤ 28 }
{
    1 << (s.number() - 1)
}

impl SigSet {
    /// The set of no signal.
    pub fn empty() -> Self
        ensures value { result ≡ set.empty }
        ensures range { AreSignals result }
    {
        SigSet { mask: 0 }
    }

    /// The set of all 28 signals.
    pub fn full() -> Self
        ensures value { result ≡ every_signal }
        ensures range { AreSignals result }
        ensures all { (signal : ℕ) → 1 ≤ signal → signal ≤ 28 → IsTrue (set.contains result signal) }
    {
        SigSet {
            mask: (1 << 28) - 1,
        }
    }

    /// The set with this signal too.
    pub fn with(self, s: Sig) -> Self
        ensures value { result ≡ set.insert self s }
        ensures range { AreSignals result }
    {
        SigSet {
            mask: self.mask | bit_of(s),
        }
    }

    /// The set without this signal.
    pub fn without(self, s: Sig) -> Self
        ensures value { result ≡ set.remove self s }
        ensures range { AreSignals result }
    {
        SigSet {
            mask: self.mask & !bit_of(s),
        }
    }

    /// Whether this signal is in the set.
    pub fn has(self, s: Sig) -> bool
        ensures value { result ≡ set.contains self s }
        ensures range { AreSignals self }
    {
        self.mask & bit_of(s) != 0
    }

    /// The signals that are in either set.
    pub fn union(self, o: Self) -> Self
        ensures value { result ≡ set.union self o }
        ensures range { AreSignals result }
    {
        SigSet {
            mask: self.mask | o.mask,
        }
    }

    /// The signals that are in both sets.
    pub fn meet(self, o: Self) -> Self
        ensures value { result ≡ set.intersection self o }
        ensures range { AreSignals result }
    {
        SigSet {
            mask: self.mask & o.mask,
        }
    }

    /// The signals of this set that are not in the other.
    pub fn minus(self, o: Self) -> Self
        ensures value { result ≡ set.difference self o }
        ensures range { AreSignals result }
    {
        SigSet {
            mask: self.mask & !o.mask,
        }
    }

    /// Whether each signal of this set is in the other.
    pub fn below(self, o: Self) -> bool
        ensures value { result ≡ set.is_subset self o }
        ensures range { AreSignals self }
        ensures other_range { AreSignals o }
    {
        self.mask & !o.mask == 0
    }
}

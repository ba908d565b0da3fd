ghost use Rattle.std.specs.Prelude.{◌≡◌, ◌↔◌, IfOk, IsTrue};
ghost use Rattle.abstract_values.specs.Values.{ValueUnder, value_join, is_unknown, HasRisingCodes};

use crate::{AbsFns, AbsInt, AbsSet};
use base_core::NoMemory;
use std::alloc::Global;

/// What is known of a slot: of an integer or a pointer, a set of signals, a function pointer, or a
/// `struct sigaction` (its handler, mask and flags; POSIX.1-2017 XBD signal.h).
#[derive(Drop)]
pub enum SlotValue {
    /// An integer or a pointer.
    Number(AbsInt),
    /// A set of signals.
    Signals(AbsSet),
    /// A function pointer.
    Functions(AbsFns),
    /// An action: its handler, its mask and its flags.
    Action(AbsFns, AbsSet, AbsInt),
}

impl SlotValue {
    /// An equal value.
    pub fn copy(&self, alloc: Global) -> Result<SlotValue, NoMemory>
        ensures { IfOk result (λ v. v ≡ self.now) }
    {
        match self {
            SlotValue::Number(a) => Ok(SlotValue::Number(*a)),
            SlotValue::Signals(s) => Ok(SlotValue::Signals(*s)),
            SlotValue::Functions(f) => Ok(SlotValue::Functions(f.copy(alloc)?)),
            SlotValue::Action(f, s, a) => Ok(SlotValue::Action(f.copy(alloc)?, *s, *a)),
        }
    }

    /// Whether the other stands for all that this one stands for; values of two forms aren't ordered.
    pub fn below(&self, o: &SlotValue) -> bool
        ensures { IsTrue result ↔ ValueUnder self.now o.now }
    {
        match (self, o) {
            (SlotValue::Number(a), SlotValue::Number(b)) => a.below(*b),
            (SlotValue::Signals(s), SlotValue::Signals(t)) => s.below(*t),
            (SlotValue::Functions(f), SlotValue::Functions(g)) => f.below(g),
            (SlotValue::Action(f, s, a), SlotValue::Action(g, t, b)) => {
                f.below(g) && s.below(*t) && a.below(*b)
            }
            _ => false,
        }
    }

    /// The least value above both; above values of two forms nothing is known.
    pub fn join(&self, alloc: Global, o: &SlotValue) -> Result<SlotValue, NoMemory>
        ensures { IfOk result (λ v. v ≡ value_join self.now o.now) }
    {
        match (self, o) {
            (SlotValue::Number(a), SlotValue::Number(b)) => Ok(SlotValue::Number(a.join(*b))),
            (SlotValue::Signals(s), SlotValue::Signals(t)) => Ok(SlotValue::Signals(s.join(*t))),
            (SlotValue::Functions(f), SlotValue::Functions(g)) => Ok(SlotValue::Functions(f.join(
                alloc, g,
            )?)),
            (SlotValue::Action(f, s, a), SlotValue::Action(g, t, b)) => {
                Ok(SlotValue::Action(f.join(alloc, g)?, s.join(*t), a.join(*b)))
            }
            _ => Ok(SlotValue::Number(AbsInt::Any)),
        }
    }

    /// Whether nothing is known.
    pub fn is_unknown(&self) -> bool
        ensures unknown { result ≡ is_unknown self.now }
        ensures codes { HasRisingCodes self.now }
    {
        match self {
            SlotValue::Number(a) => a.is_any(),
            SlotValue::Signals(s) => s.is_any(),
            SlotValue::Functions(f) => f.is_any(),
            SlotValue::Action(f, s, a) => f.is_any() && s.is_any() && a.is_any(),
        }
    }
}

ghost use Rattle.std.specs.Prelude.{◌≡◌, List, Option, IfSome};
ghost use Rattle.abstract_values.specs.Values.{IsFormed, known};
ghost use Rattle.abstract_values.specs.Entries.{Entry, AreSlots, Puts, AreFormed};
ghost use Rattle.abstract_values.specs.States.{Under, IsWellFormed, unknown_state};

use crate::{Slot, SlotValue, State};

/// States are ordered, and those whose slots are what `Slots` keeps are equal where each is below the other.
pub fn states_are_ordered()
    ensures reflexive { (s : State) → Under s s }
    ensures transitive { (s t u : State) → Under s t → Under t u → Under s u }
    ensures antisymmetric { (s t : State) → AreSlots s.slots → AreSlots t.slots → Under s t → Under t s → s ≡ t }
{}

/// The state of which nothing is known is well formed, and a slot that gets a value that stands for something, or none,
/// leaves slots so.
pub fn states_stay_well_formed()
    ensures unknown { IsWellFormed unknown_state }
    ensures value { (v : SlotValue) → IsFormed v → IfSome (known v) IsFormed }
    ensures slots { (key : Slot) (value : Option SlotValue) (old new : List Entry) → Puts key value old new → IfSome value IsFormed → AreFormed old → AreFormed new }
{}

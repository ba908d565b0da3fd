ghost use Rattle.std.specs.Prelude.{◌≡◌, [], ◌∷◌, false, OnErr, IfOk};
ghost use Rattle.std.specs.List.Sorted.{IsStrictlySortedBy};
ghost use Rattle.fact_values.specs.Objects.{target_cmp, is_empty, InsertsTarget};

use crate::Target;
use base_core::NoMemory;
use std::alloc::Global;
use std::collections::BTreeSet;
use std::marker::Model;

/// Targets in their order. A contract sees the list.
#[derive(Drop)]
pub(crate) struct TargetSet {
    pub(crate) items: BTreeSet<Target>,
}

impl Model for TargetSet {
    ghost use Rattle.std.specs.Prelude.{List};
    ghost use Rattle.fact_values.specs.declared.object.Target.{Target};

    ghost Value = { List Target };

    ghost view = { λ s. s.items.keys };
}

impl TargetSet {
    /// Takes the target in; true exactly where it was none of these. Without memory all stays.
    pub(crate) fn insert(&mut self, target: Target) -> Result<bool, NoMemory>
        ensures inserts { IfOk result (λ grew. InsertsTarget target grew self.old self.new) }
        ensures sorted { IsStrictlySortedBy target_cmp self.new }
        ensures some { is_empty self.old ≡ false → is_empty self.new ≡ false }
        ensures err { OnErr result (self.new ≡ self.old) }
    {
        match self.items.insert(target) {
            Ok(grew) => Ok(grew),
            Err(_) => Err(NoMemory),
        }
    }

    /// One target.
    pub(crate) fn of(alloc: Global, target: Target) -> Result<TargetSet, NoMemory>
        ensures { IfOk result (λ targets. targets ≡ target ∷ []) }
    {
        let mut items = BTreeSet::new(alloc);
        match items.insert(target) {
            Ok(_) => Ok(TargetSet { items }),
            Err(_) => Err(NoMemory),
        }
    }
}

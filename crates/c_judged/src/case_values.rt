ghost use Rattle.std.specs.Prelude.{◌≡◌, ◌++◌, ◌∷◌, [], OnOk};
ghost use Rattle.std.specs.List.{list_any};
ghost use Rattle.std.specs.Ordering.{int_eq};

use std::alloc::{AllocError, Global};
use std::collections::HashSet;
use std::marker::Model;

/// The values of the cases of a switch so far. A contract sees the list of them.
#[derive(Drop)]
pub(crate) struct CaseValues {
    values: Vec<i64>,
    /// The same values, each once, so that a look-up is fast.
    known: HashSet<i64>,
}

impl Model for CaseValues {
    ghost use Rattle.std.specs.Prelude.{List, ℤ};
    ghost use Rattle.c_judged.specs.Kept.{HoldSame};

    ghost Value = { List ℤ };

    ghost view = { λ t. t.values.items };

    ghost invariant = { λ t. HoldSame t.known.keys t.values.items };
}

impl CaseValues {
    /// No values.
    pub(crate) fn new(alloc: Global) -> Self
        ensures { result ≡ [] }
    {
        CaseValues {
            values: Vec::new(alloc),
            known: HashSet::new(alloc),
        }
    }

    /// Whether the value is one of them.
    pub(crate) fn contains(&self, value: i64) -> bool
        ensures { result ≡ list_any (int_eq value) self.now }
    {
        self.known.contains(&value)
    }

    /// Adds a value, behind the others. Err where there is not enough memory; they are then of no use.
    pub(crate) fn add(&mut self, value: i64) -> Result<(), AllocError>
        ensures { OnOk result (self.new ≡ self.old ++ value ∷ []) }
    {
        self.values.reserve(1)?;
        self.known.insert(value)?;
        self.values.push_reserved(value);
        Ok(())
    }
}

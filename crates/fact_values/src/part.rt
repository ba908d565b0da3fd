ghost use Rattle.std.specs.Prelude.{◌≡◌, ◌↔◌, IsTrue, refl};
ghost use Rattle.std.specs.Cmp.{partial_equiv_from_equiv};
ghost use Rattle.std.specs.Ordering.{as_partial_cmp, eq_by_cmp};
ghost use Rattle.fact_values.specs.PartOrder.{part_cmp};
ghost use Rattle.fact_values.specs.ByNumbers.{part_equiv, part_partial};
ghost use Rattle.fact_values.specs.Facts.{InstalledUnder, installed_join};

use crate::{Holder, Obj, Target};
use abstract_values::{AbsSet, State};
use base_core::{FnId, Sig};
use call_ctx::{Cell, Role};
use std::cmp::Ordering;

/// How a function is installed for a signal.
#[derive(Clone, Copy)]
pub struct Installed {
    /// What is blocked besides while it runs (POSIX.1-2017 XSH sigaction, `sa_mask`).
    pub mask: AbsSet,
    /// The signal itself is not surely blocked while it runs.
    pub deferred: bool,
}

impl Installed {
    /// Whether the other says no more than this one.
    pub fn below(&self, o: &Installed) -> bool
        ensures { IsTrue result ↔ InstalledUnder self.now o.now }
    {
        self.mask.below(o.mask) && (o.deferred || !self.deferred)
    }

    /// What both say.
    pub fn join(&self, o: &Installed) -> Installed
        ensures { result ≡ installed_join self.now o.now }
    {
        Installed {
            mask: self.mask.join(o.mask),
            deferred: self.deferred || o.deferred,
        }
    }
}

/// A part of facts, in the order in which parts are compared.
#[derive(Clone, Copy, Ord)]
pub enum Part {
    /// The state of a cell.
    Cell(Cell),
    Target(Holder, Target),
    /// A function that is installed for a signal.
    Installed(Sig, FnId),
    /// A function with which a thread starts.
    Thread(FnId),
    /// A function that is registered as a fork handler.
    Fork(Role, FnId),
    /// An object that is written while a handler may run.
    Stirred(Obj),
}

impl PartialEq for Part {
    ghost eq = { eq_by_cmp part_cmp };

    ghost laws = { partial_equiv_from_equiv part_equiv };

    fn eq(&self, other: &Part) -> bool {
        self.cmp(other).is_eq()
    }
}

impl Eq for Part {
    ghost laws = { part_equiv };
}

impl PartialOrd for Part {
    ghost partial_cmp = { as_partial_cmp part_cmp };

    ghost laws = { part_partial };

    fn partial_cmp(&self, other: &Part) -> Option<Ordering> {
        Some(self.cmp(other))
    }
}

#[derived]
impl Ord for Part {
    ghost matches_eq = { λ a b. refl };
}

/// What a part must hold.
#[derive(Drop)]
pub enum Held {
    State(State),
    Installed(Installed),
    Nothing,
}

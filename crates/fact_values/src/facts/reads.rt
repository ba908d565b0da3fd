ghost use Rattle.std.specs.Prelude.{◌≡◌, ◌↔◌, length, map, slice_get, true, false, OnErr, IfOk, IsTrue};
ghost use Rattle.std.specs.Option.{option_map, MatchOption};
ghost use Rattle.std.specs.List.Sorted.{IsStrictlySortedBy};
ghost use Rattle.call_ctx.specs.Order.{cell_cmp};
ghost use Rattle.fact_values.specs.Objects.{holder_cmp, obj_cmp, fn_cmp};
ghost use Rattle.fact_values.specs.Facts.{view, consequence, marks_of, targets_at, IsFit, Holds};

use super::{Facts, Marks};
use crate::keyed::key_at;
use crate::{Held, Holder, Installed, Obj, Part, Target};
use abstract_values::State;
use base_core::{FnId, NoMemory, Sig};
use call_ctx::{Cell, Role};

impl Facts {
    /// Makes `out` the state of the cell, and tells whether it has one; where it has none, and without memory, `out`
    /// stays.
    pub fn copy(&self, c: Cell, out: &mut State) -> Result<bool, NoMemory>
        ensures copied { IfOk result (λ found. MatchOption ((view self.now.lists).state_at c) ((found ≡ false) × (out.new ≡ out.old)) (λ s. (found ≡ true) × (out.new ≡ s))) }
        ensures err { OnErr result (out.new ≡ out.old) }
    {
        match self.cells.get(&c) {
            None => Ok(false),
            Some(state) => {
                *out = state.copy(self.alloc)?;
                Ok(true)
            }
        }
    }

    /// What is known at the cell besides its slots; None exactly where the cell has no state.
    pub fn marks(&self, c: Cell) -> Option<Marks>
        ensures { result ≡ option_map marks_of ((view self.now.lists).state_at c) }
    {
        match self.cells.get(&c) {
            None => None,
            Some(state) => Some(Marks {
                mask: state.mask,
                errno: state.errno,
                alone: state.alone,
                bare: state.bare,
            }),
        }
    }

    /// How many cells have a state.
    pub fn cells(&self) -> usize
        ensures len { result ≡ length self.now.lists.cells }
        ensures ordered { IsStrictlySortedBy cell_cmp (map (λ e. e.0) self.now.lists.cells) }
    {
        self.cells.len()
    }

    /// The k-th cell that has a state, from 0; None exactly from their number on. It takes time like k: a walk goes by
    /// [`Facts::cell_list`].
    pub fn cell(&self, k: usize) -> Option<Cell>
        ensures { result ≡ slice_get (map (λ e. e.0) self.now.lists.cells) k }
    {
        self.cells.keys().nth(k).copied()
    }

    /// How many holders have a target.
    pub fn holders(&self) -> usize
        ensures len { result ≡ length self.now.lists.targets }
        ensures ordered { IsStrictlySortedBy holder_cmp (map (λ e. e.0) self.now.lists.targets) }
    {
        self.targets.len()
    }

    /// The k-th holder that has a target, from 0; None exactly from their number on. It takes time like k: a walk goes
    /// by [`Facts::holder_list`].
    pub fn holder(&self, k: usize) -> Option<Holder>
        ensures { result ≡ slice_get (map (λ e. e.0) self.now.lists.targets) k }
    {
        self.targets.keys().nth(k).copied()
    }

    /// The k-th target of the holder, from 0; None exactly from their number on. It takes time like k: a walk goes by
    /// [`Facts::target_list`].
    pub fn target(&self, h: Holder, k: usize) -> Option<Target>
        ensures { result ≡ slice_get (targets_at self.now.lists h) k }
    {
        match self.targets.get(&h) {
            None => None,
            Some(targets) => key_at(&targets.items, k),
        }
    }

    /// How the function is installed for the signal; None exactly where it is not.
    pub fn installed_at(&self, signal: Sig, function: FnId) -> Option<Installed>
        ensures { result ≡ (view self.now.lists).installed_at signal function }
    {
        self.installed.get(&(signal, function)).copied()
    }

    /// The k-th function that is installed for a signal, from 0; None exactly from their number on. It takes time like
    /// k: a walk goes by [`Facts::installed_list`].
    pub fn installed(&self, k: usize) -> Option<(Sig, FnId, Installed)>
        ensures { result ≡ option_map (λ e. (e.0.0, e.0.1, e.1)) (slice_get self.now.lists.installed k) }
    {
        match self.installed.iter().nth(k) {
            None => None,
            Some((key, installed)) => Some((key.0, key.1, *installed)),
        }
    }

    /// The k-th function that threads start with, from 0; None exactly from their number on. It takes time like k: a
    /// walk goes by [`Facts::thread_list`].
    pub fn thread(&self, k: usize) -> Option<FnId>
        ensures { result ≡ slice_get self.now.lists.threads k }
    {
        key_at(&self.threads, k)
    }

    /// The k-th fork handler, from 0; None exactly from their number on. It takes time like k: a walk goes by
    /// [`Facts::fork_list`].
    pub fn fork(&self, k: usize) -> Option<(Role, FnId)>
        ensures { result ≡ slice_get self.now.lists.forks k }
    {
        key_at(&self.forks, k)
    }

    /// The k-th stirred object, from 0; None exactly from their number on. It takes time like k: a walk goes by
    /// [`Facts::stirred_list`].
    pub fn stirred(&self, k: usize) -> Option<Obj>
        ensures { result ≡ slice_get self.now.lists.stirred k }
    {
        key_at(&self.stirred, k)
    }

    pub(super) fn holds_state(&self, cell: Cell, state: &State) -> bool
        ensures { IsTrue result ↔ Holds (view self.now.lists) (consequence (Part.Cell cell) (Held.State state.now)) }
    {
        match self.cells.get(&cell) {
            Some(held) => state.below(held),
            None => false,
        }
    }

    pub(super) fn holds_installed(&self, signal: Sig, function: FnId, installed: &Installed) -> bool
        ensures { IsTrue result ↔ Holds (view self.now.lists) (consequence (Part.Installed signal function) (Held.Installed installed.now)) }
    {
        match self.installed_at(signal, function) {
            Some(held) => installed.below(&held),
            None => false,
        }
    }

    /// Whether the facts hold a consequence.
    pub fn holds(&self, p: &Part, h: &Held) -> bool
        requires { IsFit self.now.lists.depth (consequence p.now h.now) }
        ensures { IsTrue result ↔ Holds (view self.now.lists) (consequence p.now h.now) }
    {
        match p {
            Part::Cell(cell) => match h {
                Held::State(state) => self.holds_state(*cell, state),
                _ => false,
            },
            Part::Target(holder, target) => match self.targets.get(holder) {
                Some(targets) => targets.items.contains(target),
                None => false,
            },
            Part::Installed(signal, function) => match h {
                Held::Installed(installed) => self.holds_installed(*signal, *function, installed),
                _ => false,
            },
            Part::Thread(function) => self.threads.contains(function),
            Part::Fork(role, function) => self.forks.contains(&(*role, *function)),
            Part::Stirred(object) => self.stirred.contains(object),
        }
    }
}

ghost use Rattle.std.specs.Prelude.{◌≡◌, ◌≤◌};
ghost use Rattle.fact_values.specs.Facts.{view, IsInBounds, HasTargets};
ghost use Rattle.fact_values.specs.FactLists.{no_facts};

mod adds;
mod lists;
mod reads;

use crate::target_set::TargetSet;
use crate::{Holder, Installed, Obj};
use abstract_values::{AbsInt, AbsSet, State};
use base_core::{FnId, Sig};
use call_ctx::{Cell, Role};
use std::alloc::Global;
use std::collections::{BTreeMap, BTreeSet};
use std::marker::Model;

/// What is known of a program: the states of its cells, and for the whole program the targets of holders, the
/// functions that are installed for signals, those that threads start with, the fork handlers and the stirred objects.
/// A contract sees them as `lists`, each in the order of its keys.
#[derive(Drop)]
pub struct Facts {
    alloc: Global,
    depth: u8,
    cells: BTreeMap<Cell, State>,
    targets: BTreeMap<Holder, TargetSet>,
    installed: BTreeMap<(Sig, FnId), Installed>,
    threads: BTreeSet<FnId>,
    forks: BTreeSet<(Role, FnId)>,
    stirred: BTreeSet<Obj>,
}

impl Model for Facts {
    ghost use Rattle.fact_values.specs.FactLists.{FactsValue};
    ghost use Rattle.fact_values.specs.Facts.{AreFacts};

    ghost Value = { FactsValue };

    ghost use Rattle.sig_set.specs.contracts.SigSet as signals;
    ghost use Rattle.std.specs.Coded.{codes};

    ghost coded = { Prim.hlevel (codes, signals.the_row.coded) };

    ghost view = { λ a. record {
      lists = record {
        depth = a.depth;
        cells = a.cells.entries;
        targets = a.targets.entries;
        installed = a.installed.entries;
        threads = a.threads.keys;
        forks = a.forks.keys;
        stirred = a.stirred.keys;
      };
    } };

    ghost invariant = { λ a. AreFacts (record {
      depth = a.depth;
      cells = a.cells.entries;
      targets = a.targets.entries;
      installed = a.installed.entries;
      threads = a.threads.keys;
      forks = a.forks.keys;
      stirred = a.stirred.keys;
    }) };
}

/// What is known at a cell besides its slots.
#[derive(Clone, Copy)]
pub struct Marks {
    pub mask: AbsSet,
    pub errno: AbsInt,
    pub alone: bool,
    pub bare: bool,
}

impl Facts {
    /// No facts, of contexts that keep so many call sites.
    pub fn new(alloc: Global, depth: u8) -> Facts
        requires some { 1 ≤ depth }
        requires most { depth ≤ 2 }
        ensures { result.lists ≡ no_facts depth }
    {
        Facts {
            alloc,
            depth,
            cells: BTreeMap::new(alloc),
            targets: BTreeMap::new(alloc),
            installed: BTreeMap::new(alloc),
            threads: BTreeSet::new(alloc),
            forks: BTreeSet::new(alloc),
            stirred: BTreeSet::new(alloc),
        }
    }

    /// How many call sites contexts keep: one or two.
    pub fn depth(&self) -> u8
        ensures depth { result ≡ self.now.lists.depth }
        ensures bounds { IsInBounds (view self.now.lists) }
        ensures targets { HasTargets self.now.lists }
    {
        self.depth
    }
}

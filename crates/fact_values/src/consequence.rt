ghost use Rattle.std.specs.Prelude.{◌≡◌, ◌≤◌, ◌++◌, ◌∷◌, [], length, take, slice_get, OnOk, OnErr};
ghost use Rattle.std.specs.Option.{option_map};
ghost use Rattle.fact_values.specs.Facts.{consequence};

use crate::{Held, Part};
use base_core::NoMemory;
use std::alloc::Global;
use std::marker::Model;

/// A part of facts, and what it must hold.
#[derive(Drop)]
pub struct Consequence {
    pub part: Part,
    pub held: Held,
}

/// Consequences in a row. A contract sees the list.
#[derive(Drop)]
pub struct Consequences {
    items: Vec<Consequence>,
}

impl Model for Consequences {
    ghost use Rattle.std.specs.Prelude.{List};
    ghost use Rattle.fact_values.specs.declared.consequence.Consequence.{Consequence};

    ghost Value = { List Consequence };

    ghost use Rattle.sig_set.specs.contracts.SigSet as signals;
    ghost use Rattle.std.specs.Coded.{codes};

    ghost coded = { Prim.hlevel (codes, signals.the_row.coded) };

    ghost view = { λ s. s.items.items };
}

impl Consequences {
    /// No consequences.
    pub fn new(alloc: Global) -> Consequences
        ensures { result ≡ [] }
    {
        Consequences {
            items: Vec::new(alloc),
        }
    }

    /// How many there are.
    pub fn len(&self) -> usize
        ensures { result ≡ length self.now }
    {
        self.items.len()
    }

    /// Takes all away.
    pub fn clear(&mut self)
        ensures { self.new ≡ [] }
    {
        self.items.clear();
    }

    /// Takes away all but the first so many.
    pub fn truncate(&mut self, len: usize)
        ensures { self.new ≡ take len self.old }
    {
        self.items.truncate(len);
    }

    /// The k-th, from 0; None exactly from their number on.
    pub fn at(&self, k: usize) -> Option<(&Part, &Held)>
        ensures { option_map (λ e. consequence e.0.now e.1.now) result ≡ slice_get self.now k }
    {
        match self.items.get(k) {
            Some(item) => Some((&item.part, &item.held)),
            None => None,
        }
    }

    /// Appends one; without memory all stays.
    pub fn push(&mut self, p: Part, h: Held) -> Result<(), NoMemory>
        ensures ok { OnOk result (self.new ≡ self.old ++ consequence p h ∷ []) }
        ensures err { OnErr result (self.new ≡ self.old) }
    {
        match self.items.push(Consequence { part: p, held: h }) {
            Ok(()) => Ok(()),
            Err(_) => Err(NoMemory),
        }
    }
}

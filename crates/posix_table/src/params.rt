ghost use Rattle.std.specs.Prelude.{◌≡◌, List, [], ◌∷◌, ◌++◌, length, slice_get, OnOk, OnErr, IfOk};
ghost use Rattle.posix_table.specs.declared.kind.Param.{Param as Letter};

use crate::Param;
use base_core::NoMemory;
use std::alloc::Global;
use std::marker::Model;

/// What a function takes, in order. A contract sees the list of the letters.
#[derive(Debug, Drop)]
pub struct Params {
    letters: Vec<Param>,
}

impl Model for Params {
    ghost Value = { List Letter };

    ghost view = { λ p. p.letters.items };
}

impl Params {
    /// No parameters.
    pub fn new(alloc: Global) -> Self
        ensures { result ≡ [] }
    {
        Params {
            letters: Vec::new(alloc),
        }
    }

    /// Adds a letter at the end; without memory the list stays as it was.
    pub fn push(&mut self, p: Param) -> Result<(), NoMemory>
        ensures ok { OnOk result (self.new ≡ self.old ++ p ∷ []) }
        ensures err { OnErr result (self.new ≡ self.old) }
    {
        match self.letters.push(p) {
            Ok(()) => Ok(()),
            Err(_) => Err(NoMemory),
        }
    }

    /// The number of letters.
    pub fn len(&self) -> usize
        ensures { result ≡ length self.now }
    {
        self.letters.len()
    }

    /// The letter at this place, counted from 0; None exactly from the number of letters on.
    pub fn at(&self, k: usize) -> Option<Param>
        ensures { result ≡ slice_get self.now k }
    {
        self.letters.get(k).copied()
    }

    /// The letters.
    pub(crate) fn as_slice(&self) -> &[Param]
        ensures { result.now ≡ self.now }
    {
        self.letters.as_slice()
    }

    /// The parameters of these letters.
    pub(crate) fn from_letters(alloc: Global, letters: &[Param]) -> Result<Self, NoMemory>
        ensures { IfOk result (λ p. p ≡ letters.now) }
    {
        match Vec::from_slice(alloc, letters) {
            Ok(letters) => Ok(Params { letters }),
            Err(_) => Err(NoMemory),
        }
    }
}

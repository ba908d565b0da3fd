//! Sets of names.

ghost use Rattle.std.specs.Prelude.{◌≡◌, ◌++◌, ◌∷◌, [], OnOk};
ghost use Rattle.c_tree.specs.TypeWords.{is_among};

use base_core::Lexeme;
use std::alloc::{AllocError, Global};
use std::collections::{HashSet, VecDeque};
use std::marker::Model;

/// A set of names. A contract sees the list of them.
#[derive(Drop)]
pub struct Names {
    alloc: Global,
    names: VecDeque<Lexeme>,
    /// The same names, each once, so that a look-up is fast.
    known: HashSet<Vec<u8>>,
}

impl Model for Names {
    ghost use Rattle.std.specs.Prelude.{List};
    ghost use Rattle.c_tree.specs.Tree.{Name};
    ghost use Rattle.c_grammar.specs.Known.{HoldSame};

    ghost Value = { List Name };

    ghost view = { λ t. t.names.items };

    ghost invariant = { λ t. HoldSame t.known.keys t.names.items };
}

impl Names {
    /// No names.
    pub fn new(alloc: Global) -> Self
        ensures { result ≡ [] }
    {
        Names {
            alloc,
            names: VecDeque::new(alloc),
            known: HashSet::new(alloc),
        }
    }

    /// Whether the name is one of them.
    pub fn contains(&self, name: &[u8]) -> bool
        ensures { result ≡ is_among self.now name.now }
    {
        self.known.contains(name)
    }

    /// Adds a name, behind the others. Err where there is not enough memory.
    pub fn add(&mut self, name: &[u8]) -> Result<(), AllocError>
        ensures { OnOk result (self.new ≡ self.old ++ name.now ∷ []) }
    {
        let Ok(kept) = Lexeme::new(self.alloc, name) else {
            return Err(AllocError);
        };
        self.names.reserve(1)?;
        self.known.insert(Vec::from_slice(self.alloc, name)?)?;
        self.names.push_back_reserved(kept);
        Ok(())
    }

    /// Adds a name, before the others. Err where there is not enough memory.
    pub fn add_first(&mut self, name: &[u8]) -> Result<(), AllocError>
        ensures { OnOk result (self.new ≡ name.now ∷ self.old) }
    {
        let Ok(kept) = Lexeme::new(self.alloc, name) else {
            return Err(AllocError);
        };
        self.names.reserve(1)?;
        self.known.insert(Vec::from_slice(self.alloc, name)?)?;
        self.names.push_front_reserved(kept);
        Ok(())
    }
}

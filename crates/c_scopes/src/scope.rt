ghost use Rattle.std.specs.Prelude.{◌≡◌, ◌+◌, [], ◌∷◌, length, false, IsSome, OnOk, OnErr};
ghost use Rattle.c_scopes.specs.Scope as blocks;
ghost use Rattle.c_scopes.specs.Kept.{entry, is_bare, undone, with_all, kept, Changes};

use std::alloc::{AllocError, Global};
use std::collections::HashMap;
use std::marker::Model;
use std::mem;

/// What a name stands for, and how many blocks are around the one that declares it.
#[derive(Clone, Copy)]
pub(crate) struct Entry {
    depth: usize,
    what: u32,
}

/// A name that a block has declared, what it stands for, and what it stood for before.
#[derive(Clone, Copy)]
pub(crate) struct Declared<'a> {
    name: &'a [u8],
    what: u32,
    before: Option<Entry>,
}

/// The blocks that a place in the text stands in.
#[derive(Drop)]
pub struct Scope<'a> {
    alloc: Global,
    known: HashMap<&'a [u8], Entry>,
    /// The innermost block, and those around it, the innermost last.
    inner: Vec<Declared<'a>>,
    outer: Vec<Vec<Declared<'a>>>,
}

impl<'a> Model for Scope<'a> {
    ghost use Rattle.c_scopes.specs.Scope.{Scope as Blocks};

    ghost Value = { Blocks };

    ghost use Rattle.c_scopes.specs.Kept.{stack, seen, IsKept};

    ghost view = { λ s. seen (stack s.inner s.outer) };

    ghost invariant = { λ s. IsKept s.known (stack s.inner s.outer) };
}

/// Makes a name that is known stand for what it stood for before.
fn stand_again<'a>(known: &mut HashMap<&'a [u8], Entry>, name: &'a [u8], before: Option<Entry>)
    requires { IsSome (kept known.old name.now) }
    ensures { Changes known.old known.new name.now before }
{
    match before {
        Some(before) => {
            let Ok(_last) = known.insert(name, before) else {
                unreachable!();
            };
        }
        None => {
            let _last = known.remove(name);
        }
    }
}

impl<'a> Scope<'a> {
    /// One block, which has declared nothing.
    pub fn new(alloc: Global) -> Self
        ensures { result ≡ [] ∷ [] }
    {
        Scope {
            alloc,
            known: HashMap::new(alloc),
            inner: Vec::new(alloc),
            outer: Vec::new(alloc),
        }
    }

    /// What a name stands for, and how deep it was declared.
    fn find(&self, name: &[u8]) -> Option<Entry>
        ensures { result ≡ entry self.now name.now }
    {
        self.known.get(name).copied()
    }

    /// What a name stands for.
    pub fn look_up(&self, name: &[u8]) -> Option<u32>
        ensures { result ≡ blocks.look_up self.now name.now }
    {
        match self.find(name) {
            Some(entry) => Some(entry.what),
            None => None,
        }
    }

    /// How many blocks are around the innermost: none at file scope.
    pub fn depth(&self) -> usize
        ensures { result + 1 ≡ length self.now }
    {
        self.outer.len()
    }

    /// What the innermost block declares a name as.
    pub fn declared_here(&self, name: &[u8]) -> Option<u32>
        ensures { result ≡ blocks.declared_here self.now name.now }
    {
        let depth = self.depth();
        match self.find(name) {
            Some(entry) => {
                if entry.depth == depth {
                    Some(entry.what)
                } else {
                    None
                }
            }
            None => None,
        }
    }

    /// Declares a name in the innermost block, also where it has declared it before. Err where there is not enough memory; the
    /// scope is then as it was.
    pub fn declare(&mut self, name: &'a [u8], what: u32) -> Result<(), AllocError>
        ensures ok { OnOk result (self.new ≡ blocks.declare name.now what self.old) }
        ensures err { OnErr result (self.new ≡ self.old) }
    {
        let depth = self.depth();
        self.inner.reserve(1)?;
        let entry = Entry { depth, what };
        let Ok(before) = self.known.insert(name, entry) else {
            return Err(AllocError);
        };
        self.inner.push_reserved(Declared { name, what, before });
        Ok(())
    }

    /// Enters a block. Err where there is not enough memory; the scope is then as it was.
    pub fn enter(&mut self) -> Result<(), AllocError>
        ensures ok { OnOk result (self.new ≡ blocks.enter self.old) }
        ensures err { OnErr result (self.new ≡ self.old) }
    {
        self.outer.reserve(1)?;
        let around = mem::replace(&mut self.inner, Vec::new(self.alloc));
        self.outer.push_reserved(around);
        Ok(())
    }

    /// Declares these names in the innermost block, in order. Err where there is not enough memory; the scope is then of no use.
    fn declare_all(&mut self, names: &[Declared<'a>]) -> Result<(), AllocError>
        ensures { OnOk result (self.new ≡ with_all self.old names.now) }
    {
        for one in names {
            self.declare(one.name, one.what)?;
        }
        Ok(())
    }

    /// Declares a name in the block around the innermost, where there is one, in the time that the names of the innermost take. Err
    /// where there is not enough memory; the scope is then of no use.
    pub fn declare_around(&mut self, name: &'a [u8], what: u32) -> Result<(), AllocError>
        ensures { OnOk result (self.new ≡ blocks.declare_around name.now what self.old) }
    {
        if self.depth() == 0 {
            return Ok(());
        }
        let mut aside = Vec::new(self.alloc);
        aside.extend_from_slice(self.inner.as_slice())?;
        self.leave();
        self.declare(name, what)?;
        self.enter()?;
        self.declare_all(aside.as_slice())
    }

    /// Whether the innermost block has declared nothing.
    fn is_bare(&self) -> bool
        ensures { result ≡ is_bare self.now }
    {
        self.inner.is_empty()
    }

    /// Takes back the latest declaration of the innermost block.
    fn undo(&mut self)
        requires { is_bare self.old ≡ false }
        ensures { self.new ≡ undone self.old }
    {
        let Some(latest) = self.inner.last() else {
            return;
        };
        let latest = *latest;
        stand_again(&mut self.known, latest.name, latest.before);
        self.inner.pop();
    }

    /// Leaves the innermost block; the outermost is left empty.
    pub fn leave(&mut self)
        ensures { self.new ≡ blocks.leave self.old }
    {
        while !self.is_bare() {
            self.undo();
        }
        if let Some(around) = self.outer.pop() {
            self.inner = around;
        }
    }
}

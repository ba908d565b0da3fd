ghost use Rattle.std.specs.Prelude.{◌≡◌, ◌<◌, [], ◌∷◌, length, OnOk, OnErr};
ghost use Rattle.c_judgements.specs.Parts.{added, closed, count};

use std::alloc::{AllocError, Global};
use std::marker::Model;

/// A list in preorder, as it grows. A contract sees what stands below each node that is open, the innermost first.
#[derive(Drop)]
pub struct Growing<T> {
    items: Vec<T>,
    /// The places of the nodes that are open, the innermost last.
    opened: Vec<usize>,
}

impl<T> Model for Growing<T> {
    ghost use Rattle.std.specs.Prelude.{List, length, reverse};
    ghost use Rattle.std.specs.Coded.{coded_list};

    ghost Value = { List (List T) };

    ghost coded = { coded_list (coded_list T.code) };

    ghost use Rattle.c_judgements.specs.Parts.{parts, AreOpen};

    ghost view = { λ g. parts g.items.items (reverse g.opened.items) };

    ghost invariant = { λ g. AreOpen (length g.items.items) (reverse g.opened.items) };
}

impl<T: Drop> Growing<T> {
    /// Nothing so far.
    pub fn new(alloc: Global) -> Self
        ensures { result ≡ [] ∷ [] }
    {
        Growing {
            items: Vec::new(alloc),
            opened: Vec::new(alloc),
        }
    }

    /// How many nodes there are so far, those that are open too: the next one's place in preorder.
    pub fn len(&self) -> usize
        ensures { result ≡ count self.now }
    {
        self.items.as_slice().len()
    }

    /// A node without parts. Err where there is not enough memory; the list is then as it was.
    pub fn push(&mut self, own: T) -> Result<(), AllocError>
        ensures ok { OnOk result (self.new ≡ added (own ∷ []) self.old) }
        ensures err { OnErr result (self.new ≡ self.old) }
    {
        self.items.push(own)?;
        Ok(())
    }

    /// A node begins, whose own is not known yet; `blank` keeps its place. Err where there is not enough memory; the list is
    /// then as it was.
    pub fn open(&mut self, blank: T) -> Result<(), AllocError>
        ensures ok { OnOk result (self.new ≡ [] ∷ self.old) }
        ensures err { OnErr result (self.new ≡ self.old) }
    {
        self.opened.reserve(1)?;
        let at = self.items.len();
        self.items.push(blank)?;
        self.opened.push_reserved(at);
        Ok(())
    }

    /// The node that began last ends, and its own is this.
    pub fn close(&mut self, own: T)
        requires { 1 < length self.old }
        ensures { self.new ≡ closed own self.old }
    {
        if let Some(at) = self.opened.pop() {
            self.items[at] = own;
        }
    }

    /// The whole list, where no node is open.
    pub fn finish(self) -> Vec<T>
        requires { length self ≡ 1 }
        ensures { self ≡ result.items ∷ [] }
    {
        let Growing { items, opened: _ } = self;
        items
    }
}

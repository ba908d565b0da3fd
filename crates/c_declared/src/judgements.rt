ghost use Rattle.std.specs.Prelude.{◌≡◌, ◌<◌, [], ◌∷◌, length, map, OnOk};
ghost use Rattle.c_judgements.specs.Parts.{added, closed};
ghost use Rattle.c_rules.specs.Seen.{seen};
ghost use Rattle.c_bindings.specs.Seen.{seen_told};
ghost use Rattle.c_bindings.specs.Told.{plainly, bound};
ghost use Rattle.c_declared.specs.Seen.{shown};

use c_bindings::{Binding, Told};
use c_judgements::Growing;
use c_rules::Verdict;
use std::alloc::{AllocError, Global};

/// What is told of the nodes so far, in preorder. A contract sees what is told of those below each node that is open.
#[derive(Drop)]
pub struct Judgements {
    pub(crate) growing: Growing<Told>,
}

#[tactic(auto, using(crate::proofs::Lists::length_seen))]
impl Judgements {
    /// Nothing so far.
    pub fn new(alloc: Global) -> Self
        ensures { shown result ≡ [] ∷ [] }
    {
        Judgements {
            growing: Growing::new(alloc),
        }
    }

    /// A node without parts, that is no name and has no value. Err where there is not enough memory; they are then of no use.
    pub fn push(&mut self, own: Verdict) -> Result<(), AllocError>
        ensures { OnOk result (shown self.new ≡ added (plainly (seen own) ∷ []) (shown self.old)) }
    {
        self.growing.push(Told::plain(own))
    }

    /// A node begins. Err where there is not enough memory; they are then of no use.
    pub fn open(&mut self) -> Result<(), AllocError>
        ensures { OnOk result (shown self.new ≡ [] ∷ shown self.old) }
    {
        self.growing.open(Told::plain(Verdict::Waits))
    }

    /// The node that began last ends, and this is told of it.
    pub fn close_told(&mut self, own: Told)
        requires { 1 < length (shown self.old) }
        ensures { shown self.new ≡ closed (seen_told own) (shown self.old) }
    {
        self.growing.close(own);
    }

    /// The node that began last ends, that is no name and has no value, and this is said of it.
    pub fn close(&mut self, own: Verdict)
        requires { 1 < length (shown self.old) }
        ensures { shown self.new ≡ closed (plainly (seen own)) (shown self.old) }
    {
        self.close_told(Told::plain(own));
    }

    /// The node that began last ends, the same is said of it, and it stands for this. Err where there is not enough memory; they are then
    /// of no use.
    pub fn end(&mut self, own: &Verdict, binding: Option<Binding>) -> Result<(), AllocError>
        requires { 1 < length (shown self.old) }
        ensures { OnOk result (shown self.new ≡ closed (bound (seen own.now) binding) (shown self.old)) }
    {
        self.close_told(Told::bound(own.share()?, binding));
        Ok(())
    }

    /// All of them, where no node is open.
    pub fn finish(self) -> Vec<Told>
        requires { length (shown self) ≡ 1 }
        ensures { shown self ≡ map seen_told result.items ∷ [] }
    {
        let Judgements { growing } = self;
        growing.finish()
    }
}

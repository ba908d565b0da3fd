ghost use Rattle.std.specs.Prelude.{◌≡◌, OnOk, OnErr};
ghost use Rattle.fact_values.specs.Facts.{View, view, IsInBounds, IsFit, Below, Weaker, Appends};

use crate::{Consequences, Facts};
use base_core::NoMemory;
use call_ctx::Cell;
use std::alloc::Global;

/// A family of consequences: what the cells of facts force.
pub trait Transfer {
    ghost use Rattle.call_ctx.specs.declared.cell.Cell.{Cell};
    ghost use Rattle.fact_values.specs.declared.consequence.Consequence.{Consequence};

    /// What a cell of given facts forces.
    ghost forces: { Self → View → Cell → Consequence → Type 0 };

    /// Appends exactly what the cell forces; without memory the list stays as it was.
    fn apply(
        &self,
        alloc: Global,
        f: &Facts,
        c: Cell,
        out: &mut Consequences,
    ) -> Result<(), NoMemory>
        ensures exact { OnOk result (Appends (forces self.now (view f.now.lists) c) out.old out.new) }
        ensures err { OnErr result (out.new ≡ out.old) };

    /// What is forced may be added.
    ghost fits: { (t : Self) (f : View) (c : Cell) (q : Consequence) → IsInBounds f → forces t f c q → IsFit f.depth q };

    /// Greater facts force no less.
    ghost grows: { (t : Self) (f g : View) (c : Cell) (q : Consequence) → Below f g → forces t f c q → (r : Consequence) × forces t g c r × Weaker q r };
}

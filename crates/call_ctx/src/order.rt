ghost use Rattle.std.specs.Prelude.{◌≡◌};
ghost use Rattle.std.specs.Cmp.{IsTotalOrder};
ghost use Rattle.std.specs.Cmp.Lexicographic.{slice_cmp};
ghost use Rattle.std.specs.Ordering.{nat_cmp};
ghost use Rattle.call_ctx.specs.Order.{ctx_numbers, cell_numbers, ctx_cmp, cell_cmp};

use crate::{Cell, Ctx};
use std::cmp::Ordering;

/// How two contexts are ordered: as their lists of numbers.
pub fn compare_contexts(a: &Ctx, b: &Ctx) -> Ordering
    ensures { result ≡ slice_cmp nat_cmp (ctx_numbers a.now) (ctx_numbers b.now) }
{
    a.cmp(b)
}

/// How two cells are ordered: as their lists of numbers.
pub fn compare_cells(a: &Cell, b: &Cell) -> Ordering
    ensures { result ≡ slice_cmp nat_cmp (cell_numbers a.now) (cell_numbers b.now) }
{
    a.cmp(b)
}

/// The orders are total, and what they do not tell apart is equal.
pub fn order_is_total()
    ensures contexts { IsTotalOrder ctx_cmp }
    ensures cells { IsTotalOrder cell_cmp }
    ensures contexts_apart { (a b : Ctx) → ctx_cmp a b ≡ Ordering.Equal → a ≡ b }
    ensures cells_apart { (a b : Cell) → cell_cmp a b ≡ Ordering.Equal → a ≡ b }
{}

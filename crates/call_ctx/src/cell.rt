use crate::{Ctx, Side};
use base_core::Pos;

/// A position of a program in a context, on a side. Cells are compared by node, phase, context and side.
#[derive(Clone, Copy, PartialEq, Eq, PartialOrd, Ord)]
pub struct Cell {
    pub pos: Pos,
    pub ctx: Ctx,
    pub side: Side,
}

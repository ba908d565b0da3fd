use base_core::{NodeId, Pos};
use std::marker::Model;

/// When control goes along an edge: always, where the value of a node is not zero or is zero (C11 6.8.4, 6.8.5, 6.5.13 to
/// 6.5.15), where a switch's expression has this value, or where it has none of the values of the switch's labels (6.8.4.2).
#[derive(Clone, Copy, PartialEq, Eq)]
pub enum Guard {
    Always,
    Nonzero(NodeId),
    Zero(NodeId),
    Equal(NodeId, i64),
    NoneOf(NodeId),
}

/// One way on from a position.
#[derive(Clone, Copy, PartialEq, Eq)]
pub struct Edge {
    pub to: Pos,
    pub guard: Guard,
}

/// Which node uses a value, and whether it does so only when its later parts have been evaluated.
#[derive(Clone, Copy)]
pub struct Use {
    pub user: u32,
    pub later: bool,
}

/// A position, with what is known of its node's value: where it is the Leave of an expression or of a declared name, the number
/// behind the node, the use of its value, and whether it is read on the way to there (C11 6.3.2.1); where it is the Leave of a
/// function or of a return with an operand, the function that has its result there.
#[derive(Clone, Copy)]
pub struct Source {
    pub at: Pos,
    pub past: u32,
    pub used: Option<Use>,
    pub gives: Option<u32>,
    pub reads: bool,
}

/// A position, with the ways on from it.
#[derive(Drop)]
pub struct Row {
    pub source: Source,
    pub next: Vec<Edge>,
}

impl Model for Row {
    ghost use Rattle.flow_form.specs.Positions.{Ways};

    ghost Value = { Ways };

    ghost view = { λ r. record { source = r.source; next = r.next.items } };
}

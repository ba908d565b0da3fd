ghost use Rattle.std.specs.Prelude.{◌≡◌, ◌+◌, ◌++◌, ◌∷◌, [], OnOk, IfOk};
ghost use Rattle.flow_form.specs.Positions.{enter, in0, in1, leave, finish, plain, unused, used, kept, giving, ◌⟶◌, ◌⟹◌, if_zero, if_nonzero, choice, ends};

use crate::edge::{Edge, Guard, Row, Source, Use};
use base_core::{NodeId, Phase, Pos};
use std::alloc::{AllocError, Global};

/// A walk over a tree: the number of the next node, and the rows of the positions passed.
#[derive(Drop)]
pub(crate) struct Walk {
    pub(crate) alloc: Global,
    pub(crate) at: u32,
    pub(crate) rows: Vec<Row>,
}

/// Passes a node. Err where there are more nodes than there is room for.
pub(crate) fn pass(at: &mut u32) -> Result<(), AllocError>
    ensures { OnOk result (at.new ≡ at.old + 1) }
{
    match at.checked_add(1) {
        Some(next) => {
            *at = next;
            Ok(())
        }
        None => Err(AllocError),
    }
}

pub(crate) fn enter_of(n: u32) -> Pos
    ensures { result ≡ enter n }
{
    Pos {
        node: NodeId(n),
        phase: Phase::Enter,
    }
}

pub(crate) fn in0_of(n: u32) -> Pos
    ensures { result ≡ in0 n }
{
    Pos {
        node: NodeId(n),
        phase: Phase::In0,
    }
}

pub(crate) fn in1_of(n: u32) -> Pos
    ensures { result ≡ in1 n }
{
    Pos {
        node: NodeId(n),
        phase: Phase::In1,
    }
}

pub(crate) fn leave_of(n: u32) -> Pos
    ensures { result ≡ leave n }
{
    Pos {
        node: NodeId(n),
        phase: Phase::Leave,
    }
}

pub(crate) fn finish_of(n: u32) -> Pos
    ensures { result ≡ finish n }
{
    Pos {
        node: NodeId(n),
        phase: Phase::Finish,
    }
}

pub(crate) fn zero(n: u32, to: Pos) -> Edge
    ensures { result ≡ if_zero n to }
{
    Edge {
        to,
        guard: Guard::Zero(NodeId(n)),
    }
}

pub(crate) fn nonzero(n: u32, to: Pos) -> Edge
    ensures { result ≡ if_nonzero n to }
{
    Edge {
        to,
        guard: Guard::Nonzero(NodeId(n)),
    }
}

/// A position of which nothing more is to be known.
pub(crate) fn plain_of(p: Pos) -> Source
    ensures { result ≡ plain p }
{
    Source {
        at: p,
        past: 0,
        used: None,
        gives: None,
        reads: false,
    }
}

/// The Enter of a node, to go on from.
pub(crate) fn begin_of(n: u32) -> Source
    ensures { result ≡ plain (enter n) }
{
    plain_of(enter_of(n))
}

/// The Leave of the expression `a`, whose value no node uses. `past` is the number behind it.
pub(crate) fn unused_of(a: u32, past: u32, reads: bool) -> Source
    ensures { result ≡ unused a past reads }
{
    Source {
        at: leave_of(a),
        past,
        used: None,
        gives: None,
        reads,
    }
}

/// The Leave of the expression `a`, whose value `n` uses at once. `past` is the number behind it.
pub(crate) fn used_of(n: u32, a: u32, past: u32, reads: bool) -> Source
    ensures { result ≡ used n a past reads }
{
    Source {
        at: leave_of(a),
        past,
        used: Some(Use {
            user: n,
            later: false,
        }),
        gives: None,
        reads,
    }
}

/// The Leave of the expression `a`, whose value `n` uses behind its later parts. `past` is the number behind it.
pub(crate) fn kept_of(n: u32, a: u32, past: u32, reads: bool) -> Source
    ensures { result ≡ kept n a past reads }
{
    Source {
        at: leave_of(a),
        past,
        used: Some(Use {
            user: n,
            later: true,
        }),
        gives: None,
        reads,
    }
}

/// The Leave of `n`, where the function `f` has its result.
pub(crate) fn giving_of(f: u32, n: u32) -> Source
    ensures { result ≡ giving f n }
{
    Source {
        at: leave_of(n),
        past: 0,
        used: None,
        gives: Some(f),
        reads: false,
    }
}

impl Walk {
    /// A walk that has passed the program's own node.
    pub(crate) fn new(alloc: Global) -> Self
        ensures number { result.at ≡ 1 }
        ensures rows { result.rows.items ≡ [] }
    {
        Walk {
            alloc,
            at: 1,
            rows: Vec::new(alloc),
        }
    }

    /// Passes a node, and answers its number.
    pub(crate) fn begin(&mut self) -> Result<u32, AllocError>
        ensures number { OnOk result (self.new.at ≡ self.old.at + 1) }
        ensures rows { OnOk result (self.new.rows.items ≡ self.old.rows.items) }
        ensures was { IfOk result (λ n. n ≡ self.old.at) }
    {
        let n = self.at;
        pass(&mut self.at)?;
        Ok(n)
    }

    /// The only way on from `s` is to `q`.
    pub(crate) fn to(&mut self, s: Source, q: Pos) -> Result<(), AllocError>
        ensures number { OnOk result (self.new.at ≡ self.old.at) }
        ensures rows { OnOk result (self.new.rows.items ≡ self.old.rows.items ++ (s ⟹ q) ∷ []) }
    {
        let mut next = Vec::new(self.alloc);
        next.push(Edge {
            to: q,
            guard: Guard::Always,
        })?;
        self.rows.push(Row { source: s, next })?;
        Ok(())
    }

    /// There are two ways on from `s`.
    pub(crate) fn choice(&mut self, s: Source, a: Edge, b: Edge) -> Result<(), AllocError>
        ensures number { OnOk result (self.new.at ≡ self.old.at) }
        ensures rows { OnOk result (self.new.rows.items ≡ self.old.rows.items ++ choice s a b ∷ []) }
    {
        let mut next = Vec::new(self.alloc);
        next.push(a)?;
        next.push(b)?;
        self.rows.push(Row { source: s, next })?;
        Ok(())
    }

    /// These are the ways on from `s`.
    pub(crate) fn ways(&mut self, s: Source, next: Vec<Edge>) -> Result<(), AllocError>
        ensures number { OnOk result (self.new.at ≡ self.old.at) }
        ensures rows { OnOk result (self.new.rows.items ≡ self.old.rows.items ++ record { source = s; next = next.items } ∷ []) }
    {
        self.rows.push(Row { source: s, next })?;
        Ok(())
    }

    /// There is no way on from `s`.
    pub(crate) fn ends(&mut self, s: Source) -> Result<(), AllocError>
        ensures number { OnOk result (self.new.at ≡ self.old.at) }
        ensures rows { OnOk result (self.new.rows.items ≡ self.old.rows.items ++ ends s ∷ []) }
    {
        let next = Vec::new(self.alloc);
        self.rows.push(Row { source: s, next })?;
        Ok(())
    }
}

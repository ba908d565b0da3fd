ghost use Rattle.std.specs.Prelude.{◌≡◌, ◌+◌, ◌&&◌, nat_eq, slice_get, option_copied};
ghost use Rattle.flow_form.specs.Lines.{line_at, place_at, is_end, is_finish, called_at, row_name};
ghost use Rattle.flow_form.specs.Pending.{is_pending, is_awaited, is_given, is_leave, is_in_call, is_read, is_number, in_own_call, is_waiting, leave_row, at_later, waits, past_of};
ghost use Rattle.flow_form.specs.Positions.{otherwise};
ghost use Rattle.flow_form.specs.Table.{next, has, found, number, IsIndex};
ghost use Rattle.flow_form.specs.Typing.{typing};

use crate::edge::{Edge, Row, Use};
use crate::meaning::{Call, Callee, Meaning, Names};
use crate::table::{number_of, row_at};
use crate::walk::{in0_of, leave_of};
use base_core::{NodeId, Phase, Place, Pos};
use c_tree::Program;
use posix_table::Table;

/// The positions of a program, and the ways on from each.
#[derive(Drop)]
pub struct Flow<'a> {
    pub(crate) meaning: Meaning<'a>,
    pub(crate) program: &'a Program,
    pub(crate) rows: Vec<Row>,
    pub(crate) index: Vec<Option<usize>>,
    ghost indexed: { IsIndex index.items rows.items },
}

/// Whether a phase is a Leave.
fn is_leave_phase(phase: Phase) -> bool
    ensures { result ≡ is_leave phase }
{
    match phase {
        Phase::Leave => true,
        _ => false,
    }
}

/// Whether a phase is of a call that is under way.
fn is_call_phase(phase: Phase) -> bool
    ensures { result ≡ is_in_call phase }
{
    match phase {
        Phase::In0 | Phase::In1 => true,
        _ => false,
    }
}

/// Whether a call holds a value of its own in this phase.
fn holds_own(phase: Phase, call: Call) -> bool
    ensures { result ≡ in_own_call phase call }
{
    match phase {
        Phase::In0 => match call {
            Call::Waits => true,
            _ => false,
        },
        Phase::In1 => true,
        _ => false,
    }
}

/// Whether a phase is a Finish.
fn is_finish_phase(phase: Phase) -> bool
    ensures { result ≡ is_finish phase }
{
    match phase {
        Phase::Finish => true,
        _ => false,
    }
}

/// The name of the library function that a callee stands for.
fn library_name(callee: Callee, table: &Table) -> Option<&str>
    ensures { option_copied result ≡ row_name callee table.now }
{
    match callee {
        Callee::Library(k) => match table.at(k as usize) {
            Some(row) => Some(row.name.as_str()),
            None => None,
        },
        Callee::Pointer | Callee::Function => None,
    }
}

impl Flow<'_> {
    /// The row of a position.
    fn row(&self, p: Pos) -> Option<&Row>
        ensures { option_copied result ≡ found (number p) self.now.rows.items }
    {
        row_at(self.index.as_slice(), self.rows.as_slice(), number_of(p))
    }

    /// The edges of a position, in order of their targets; none where the program lacks the position.
    pub fn next(&self, p: Pos) -> &[Edge]
        ensures { result.now ≡ next self.now.rows.items p }
    {
        match self.row(p) {
            Some(row) => row.next.as_slice(),
            None => &[],
        }
    }

    /// Whether the program has this position.
    pub fn has(&self, p: Pos) -> bool
        ensures { result ≡ has self.now.rows.items p }
    {
        self.row(p).is_some()
    }

    /// The number behind a node, by its Leave.
    fn past(&self, n: u32) -> u32
        ensures { result ≡ past_of (leave_row self.now.rows.items n) }
    {
        match self.row(leave_of(n)) {
            Some(row) => row.source.past,
            None => 0,
        }
    }

    /// Whether `p` is at a later part of a value's user. `b` is the number behind the value's node.
    fn is_later(&self, u: Use, b: u32, p: Pos) -> bool
        ensures { result ≡ at_later self.now.rows.items u b p }
    {
        u.later && !(p.node.0 < b) && p.node.0 < self.past(u.user)
    }

    /// Whether a value that has this use waits at `p`.
    fn waits(&self, used: Option<Use>, n: u32, b: u32, p: Pos) -> bool
        ensures { result ≡ waits self.now.rows.items used n b p }
    {
        match used {
            None => false,
            Some(u) => {
                (is_leave_phase(p.phase) && p.node.0 == n)
                    || self.is_later(u, b, p)
                    || (is_call_phase(p.phase) && p.node.0 == u.user)
            }
        }
    }

    fn awaited(&self, n: u32, p: Pos) -> bool
        ensures { result ≡ is_awaited self.now.rows.items n p }
    {
        match self.row(leave_of(n)) {
            None => false,
            Some(row) => self.waits(row.source.used, n, row.source.past, p),
        }
    }

    fn given(&self, n: u32, p: Pos) -> bool
        ensures { result ≡ is_given self.now.rows.items n p }
    {
        match self.row(p) {
            None => false,
            Some(row) => match row.source.gives {
                None => false,
                Some(f) => f == n,
            },
        }
    }

    /// Whether the value of a node is pending at a position: evaluated, and not yet used.
    pub fn pending(&self, n: NodeId, p: Pos) -> bool
        ensures { result ≡ is_pending (typing self.now.meaning) self.now.rows.items n.0 p }
    {
        self.has(p) && (self.awaited(n.0, p) || self.given(n.0, p) || self.holds(n.0, p))
    }

    /// Whether `p` is in the call `n`, which holds a value of its own there.
    fn holds(&self, n: u32, p: Pos) -> bool
        ensures { result ≡ (nat_eq p.node.0 n && in_own_call p.phase ((typing self.now.meaning).call (n + 1))) }
    {
        p.node.0 == n && holds_own(p.phase, self.meaning.call(n as usize + 1))
    }

    /// Whether a node is an evaluated expression that is read: it designates an object or errno, has no array type and is no
    /// parenthesis, and does not stand as a place (C11 6.3.2.1).
    pub fn reads(&self, n: NodeId) -> bool
        ensures { result ≡ is_read self.now.rows.items n.0 }
    {
        match self.row(leave_of(n.0)) {
            Some(row) => row.source.reads,
            None => false,
        }
    }

    /// What the program's names mean.
    pub fn names(&self) -> &Names
        ensures { result.now ≡ self.now.meaning.names.now }
    {
        self.meaning.names
    }

    /// Whether a position is the end of a function.
    fn ends(&self, p: Pos) -> bool
        ensures { result ≡ is_end self.now.rows.items p }
    {
        self.given(p.node.0, p) || is_finish_phase(p.phase)
    }

    /// The first token of a node.
    fn start(&self, n: NodeId) -> Place
        ensures { result ≡ otherwise self.now.program.now.end (slice_get self.now.program.now.places n.0) }
    {
        match self.program.place(n) {
            Some(place) => place,
            None => self.program.end(),
        }
    }

    /// The first token of a node, and for the end of a function its closing brace.
    fn place(&self, n: NodeId, ends: bool) -> Place
        ensures { result ≡ place_at self.now.program.now n.0 ends }
    {
        if !ends {
            return self.start(n);
        }
        match self.program.close(n) {
            Some(place) => place,
            None => self.start(n),
        }
    }

    /// The place of a position: its node's first token; for the Leave and the Finish of a function its closing brace; for a
    /// position that the program lacks the end of the text. At the end of a function the time grows with what stands before
    /// it in the program.
    pub fn line(&self, p: Pos) -> Place
        ensures { result ≡ line_at self.now.program.now self.now.rows.items p }
    {
        if self.has(p) {
            self.place(p.node, self.ends(p))
        } else {
            self.program.end()
        }
    }

    /// The library function that is called by its plain name where the position is one of the call; None at every other
    /// position.
    pub fn called(&self, p: Pos) -> Option<&str>
        ensures { option_copied result ≡ called_at self.now.meaning self.now.rows.items p }
    {
        if self.has(p) && self.has(in0_of(p.node.0)) {
            let callee = self.meaning.callee(p.node.0 as usize + 1);
            library_name(callee, self.meaning.table)
        } else {
            None
        }
    }
}

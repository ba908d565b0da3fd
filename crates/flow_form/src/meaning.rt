ghost use Rattle.std.specs.Prelude.{◌≡◌, false, slice_get};
ghost use Rattle.flow_form.specs.Positions.{otherwise};
ghost use Rattle.flow_form.specs.Typing.{typing, callee_at, result_call, effect_call};

use posix_table::{Effect, ResultKind, Row, Table};

/// What is called by a call: a value, which is evaluated; by its plain name a function of the program; by its plain name the
/// library function of this row of the function table.
#[derive(Clone, Copy)]
pub enum Callee {
    Pointer,
    Function,
    Library(u32),
}

/// How a call goes: its callee is a value and evaluated first, or the call returns, never returns, copies the process (fork),
/// or waits under another signal mask (sigsuspend).
#[derive(Clone, Copy, PartialEq, Eq)]
pub enum Call {
    Value,
    Returns,
    Never,
    Copies,
    Waits,
}

/// What the names, constants and types of a program say about its flow of control, by the numbers of its nodes; a number past
/// the end of a list is a callee that is a value, the constant 0, or false.
#[derive(Drop)]
pub struct Names {
    /// What a callee stands for.
    pub callees: Vec<Callee>,
    /// The value of a case label (C11 6.8.4.2).
    pub constants: Vec<i64>,
    /// Whether a declared name is an automatic variable (C11 6.2.4).
    pub automatic: Vec<bool>,
    /// Whether an expression has the type void.
    pub voids: Vec<bool>,
    /// Whether an expression has an array type.
    pub arrays: Vec<bool>,
    /// Whether a name, or what a `*` follows, is an object or errno, and no constant or function (C11 6.5.1, 6.5.3.2).
    pub designators: Vec<bool>,
    /// The node of the function main.
    pub main: u32,
}

/// What a program's names mean, with the table of the library functions.
#[derive(Clone, Copy)]
pub struct Meaning<'a> {
    pub names: &'a Names,
    pub table: &'a Table,
}

fn call_of_effect(effect: Effect) -> Call
    ensures { result ≡ effect_call effect }
{
    match effect {
        Effect::Fork | Effect::Split => Call::Copies,
        Effect::Wait => Call::Waits,
        _ => Call::Returns,
    }
}

fn call_of_row(row: &Row) -> Call
    ensures { result ≡ result_call row.now.result row.now.effect }
{
    match row.result {
        ResultKind::Never => Call::Never,
        _ => call_of_effect(row.effect),
    }
}

/// The truth at a place of a list; false past its end.
fn flag(all: &[bool], n: u32) -> bool
    ensures { result ≡ otherwise false (slice_get all.now n) }
{
    match all.get(n as usize) {
        Some(answer) => *answer,
        None => false,
    }
}

impl Meaning<'_> {
    /// What is called where this node is the callee.
    pub fn callee(&self, n: usize) -> Callee
        ensures { result ≡ callee_at self.now.names.now n }
    {
        match self.names.callees.get(n) {
            Some(callee) => *callee,
            None => Callee::Pointer,
        }
    }

    /// How a call goes of which this node is the callee.
    pub fn call(&self, n: usize) -> Call
        ensures { result ≡ (typing self.now).call n }
    {
        match self.callee(n) {
            Callee::Pointer => Call::Value,
            Callee::Function => Call::Returns,
            Callee::Library(k) => match self.table.at(k as usize) {
                Some(row) => call_of_row(row),
                None => Call::Returns,
            },
        }
    }

    /// The value of a case label.
    pub fn constant(&self, n: u32) -> i64
        ensures { result ≡ (typing self.now).constant n }
    {
        match self.names.constants.get(n as usize) {
            Some(value) => *value,
            None => 0,
        }
    }

    /// Whether a declared name is an automatic variable.
    pub fn is_automatic(&self, n: u32) -> bool
        ensures { result ≡ (typing self.now).is_automatic n }
    {
        flag(self.names.automatic.as_slice(), n)
    }

    /// Whether an expression has the type void.
    pub fn is_void(&self, n: u32) -> bool
        ensures { result ≡ (typing self.now).is_void n }
    {
        flag(self.names.voids.as_slice(), n)
    }

    /// Whether an expression has an array type.
    pub fn is_array(&self, n: u32) -> bool
        ensures { result ≡ (typing self.now).is_array n }
    {
        flag(self.names.arrays.as_slice(), n)
    }

    /// Whether a name, or what a `*` follows, is an object or errno.
    pub fn designates(&self, n: u32) -> bool
        ensures { result ≡ (typing self.now).designates n }
    {
        flag(self.names.designators.as_slice(), n)
    }
}

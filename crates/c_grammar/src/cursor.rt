//! A cursor over the tokens of a text, with a count of what was read.

ghost use Rattle.std.specs.Prelude.{◌≡◌, true, false, [], length, Some, None};
ghost use Rattle.c_grammar.specs.Gauge.{added, raised, entered, fits, within};
ghost use Rattle.c_grammar.specs.Input as spec;
ghost use Rattle.c_grammar.specs.Kind as kinds;

use crate::kind::{Kind, kind_of};
use base_core::Token;
use std::marker::Model;

/// How many nodes a tree may have.
const MAX_NODES: u32 = 100_000;

/// How deep a tree may be.
const MAX_DEPTH: u32 = 1_000;

/// The tokens that are left, and the meter: how many nodes were made or are necessary, and how deep the deepest node of
/// this scope lies.
#[derive(Drop)]
pub struct Cursor<'a> {
    rest: &'a [Token],
    /// The kind of the next token, where no name is a type.
    kind: Kind,
    made: u32,
    peak: u32,
}

impl<'a> Model for Cursor<'a> {
    ghost use Rattle.c_grammar.specs.Input.{Input};

    ghost Value = { Input };

    ghost use Rattle.c_grammar.specs.Cursor.{input_of, IsReady};

    ghost view = { input_of };

    ghost invariant = { IsReady };
}

impl<'a> Cursor<'a> {
    /// A cursor before these tokens, with this meter.
    pub fn new(tokens: &'a [Token], made: u32, peak: u32) -> Self
        ensures { result ≡ spec.start_of tokens.now made peak }
    {
        Cursor {
            rest: tokens,
            kind: first_kind(tokens),
            made,
            peak,
        }
    }

    /// Another cursor at this place, with this meter.
    pub fn fork(&self) -> Self
        ensures { result ≡ self.now }
    {
        Cursor {
            rest: self.rest,
            kind: self.kind,
            made: self.made,
            peak: self.peak,
        }
    }

    /// The tokens that are left.
    pub fn rest(&self) -> &'a [Token]
        ensures { result.now ≡ self.now.rest }
    {
        self.rest
    }

    /// How many tokens are left.
    pub fn left(&self) -> usize
        ensures { result ≡ length self.now.rest }
    {
        self.rest.len()
    }

    /// The kind of the next token, where no name is a type.
    pub fn kind(&self) -> Kind
        ensures { result ≡ kinds.kind [] self.now.rest }
    {
        self.kind
    }

    /// The text of the next token, and nothing at the end.
    pub fn lexeme(&self) -> &'a [u8]
        ensures { result.now ≡ kinds.head_text self.now.rest }
    {
        match self.rest {
            [first, ..] => first.lexeme.as_bytes(),
            [] => &[],
        }
    }

    /// Passes over the next token, if there is one.
    pub fn take(&mut self)
        ensures { self.new ≡ spec.next self.old }
    {
        if let [_, rest @ ..] = self.rest {
            self.rest = rest;
            self.kind = first_kind(rest);
        }
    }

    /// How many nodes were made or are necessary.
    pub fn made(&self) -> u32
        ensures { result ≡ self.now.meter.made }
    {
        self.made
    }

    /// How deep the deepest node of this scope lies.
    pub fn peak(&self) -> u32
        ensures { result ≡ self.now.meter.peak }
    {
        self.peak
    }

    /// Whether the nodes and the depth are within the limits.
    pub fn fits(&self) -> bool
        ensures { result ≡ fits self.now.meter }
    {
        self.made <= MAX_NODES && self.peak <= MAX_DEPTH
    }

    /// Adds nodes, of this depth at most. Where that passes a limit, the answer is false, and nothing changes.
    pub fn spend(&mut self, nodes: u32, depth: u32) -> bool
        ensures rest { self.new.rest ≡ self.old.rest }
        ensures spent { result ≡ true → within (added nodes depth self.old.meter) ≡ Some self.new.meter }
        ensures exceeded { result ≡ false → within (added nodes depth self.old.meter) ≡ None }
        ensures unchanged { result ≡ false → self.new ≡ self.old }
    {
        let peak = if self.peak < depth { depth } else { self.peak };
        if self.made > MAX_NODES || nodes > MAX_NODES - self.made || peak > MAX_DEPTH {
            return false;
        }
        self.made += nodes;
        self.peak = peak;
        true
    }

    /// Puts all that was read in this scope one node deeper. Where that passes a limit, the answer is false, and nothing
    /// changes.
    pub fn rise(&mut self) -> bool
        ensures rest { self.new.rest ≡ self.old.rest }
        ensures raised { result ≡ true → within (raised self.old.meter) ≡ Some self.new.meter }
        ensures exceeded { result ≡ false → within (raised self.old.meter) ≡ None }
        ensures unchanged { result ≡ false → self.new ≡ self.old }
    {
        if self.made > MAX_NODES || self.peak >= MAX_DEPTH {
            return false;
        }
        self.peak += 1;
        true
    }

    /// Begins a scope whose deepest node lies so deep at first, and answers how deep the one of the outer scope does.
    pub fn enter(&mut self, peak: u32) -> u32
        ensures outer { result ≡ self.old.meter.peak }
        ensures entered { self.new ≡ spec.metered (entered peak self.old.meter) self.old }
    {
        std::mem::replace(&mut self.peak, peak)
    }

    /// Ends a scope, with the answer of the `enter` that began it.
    pub fn leave(&mut self, outer: u32)
        ensures { self.new ≡ spec.metered (spec.back_to outer self.old.meter) self.old }
    {
        if self.peak < outer {
            self.peak = outer;
        }
    }
}

fn first_kind(tokens: &[Token]) -> Kind
    ensures { result ≡ kinds.kind [] tokens.now }
{
    match tokens {
        [first, ..] => kind_of(first),
        [] => Kind::Nothing,
    }
}

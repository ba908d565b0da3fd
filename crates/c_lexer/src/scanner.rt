//! The steps of the scanner, one item of the text each.

ghost use Rattle.std.specs.Prelude.{◌≡◌, ◌+◌, ◌-◌, ◌^◌, ◌<◌, ◌≤◌, true, ℕ, length, map, string_bytes, IfOk, OnOk, OnErr, IsErrOf};
ghost use Rattle.c_lexer.specs.Progress.{progress, IsReady, Steps};
ghost use Rattle.c_lexer.specs.Item.{IsPart, IsWithin};
ghost use Rattle.c_lexer.specs.First.{first};
ghost use Rattle.c_lexer.specs.Directives as directive;
ghost use Rattle.c_lexer.specs.Lexis as spec;

use crate::bytes::front;
use crate::directives::{body, file_name, line_number};
use crate::fault::LexFault;
use crate::first::first;
use crate::item::{Item, Refusal};
use base_core::{Class, Lexeme, Place, Token};
use indexmap::IndexSet;
use std::alloc::Global;

/// What was read of a text, and the place of what follows.
#[derive(Drop)]
pub struct Scanner {
    pub tokens: Vec<Token>,
    pub places: Vec<Place>,
    pub files: IndexSet<String>,
    pub place: Place,
    /// Whether only blanks stand before the place on its line.
    pub fresh: bool,
}

/// The place behind a text that begins at a place.
#[tactic(auto, unfolding(crate::specs::Lexis::moved))]
fn moved(from: Place, text: &[u8]) -> Place
    requires line { from.line + length text.now < 2 ^ 32 }
    requires column { from.column + length text.now < 2 ^ 32 }
    ensures value { result ≡ spec.moved from text.now }
    ensures line { result.line ≤ from.line + length text.now }
    ensures column { result.column ≤ from.column + length text.now }
{
    let mut place = from;
    let mut z = text;
    while let [b, rest @ ..] = z {
        if *b == b'\n' {
            place.line += 1;
            place.column = 1;
        } else {
            place.column += 1;
        }
        z = rest;
    }
    place
}

fn refused(refusal: Refusal, place: Place) -> LexFault
    ensures { result ≡ spec.refused refusal place }
{
    match refusal {
        Refusal::BadByte => LexFault::BadByte(place),
        Refusal::OpenComment => LexFault::OpenComment(place),
        Refusal::OpenLiteral => LexFault::OpenLiteral(place),
        Refusal::NumberTooLarge => LexFault::NumberTooLarge(place),
        Refusal::Directive => LexFault::Directive(place),
    }
}

/// The number of a file, which joins the files if it isn't among them.
fn file_number(alloc: Global, files: &mut IndexSet<String>, name: &[u8]) -> Result<u32, LexFault>
    requires utf8 { directive.is_utf8 name.now ≡ true }
    requires room { length files.old.keys + 1 < 2 ^ 32 }
    ensures number { IfOk result (λ n. n ≡ spec.file_number (map string_bytes files.old.keys) name.now) }
    ensures files { OnOk result (map string_bytes files.new.keys ≡ spec.with_file (map string_bytes files.old.keys) name.now) }
    ensures within { IfOk result (λ n. n ≤ length files.old.keys + 1) }
    ensures err { OnErr result (IsErrOf result LexFault.NoMemory) }
{
    let Ok(text) = std::str::from_utf8(name) else {
        unreachable!();
    };
    let Ok(key) = String::from_str(alloc, text) else {
        return Err(LexFault::NoMemory);
    };
    let Ok((index, _)) = files.insert_full(key) else {
        return Err(LexFault::NoMemory);
    };
    Ok(index as u32 + 1)
}

impl Scanner {
    /// Nothing is read yet.
    pub fn new(alloc: Global) -> Self
        ensures { progress result ≡ spec.start }
    {
        Scanner {
            tokens: Vec::new(alloc),
            places: Vec::new(alloc),
            files: IndexSet::new(alloc),
            place: Place {
                file: 0,
                line: 1,
                column: 1,
            },
            fresh: true,
        }
    }

    /// Passes over a text.
    fn pass(&mut self, text: &[u8], fresh: bool)
        requires { IsReady (progress self.old) (length text.now) }
        ensures value { progress self.new ≡ spec.passed (progress self.old) text.now fresh }
        ensures ready { (n : ℕ) → IsReady (progress self.old) (length text.now + n) → IsReady (progress self.new) n }
    {
        self.place = moved(self.place, text);
        self.fresh = fresh;
    }

    /// Keeps a token.
    fn keep(&mut self, alloc: Global, class: Class, text: &[u8]) -> Result<(), LexFault>
        requires { IsReady (progress self.old) (length text.now) }
        ensures value { OnOk result (progress self.new ≡ spec.with_token (progress self.old) class text.now) }
        ensures ready { OnOk result ((n : ℕ) → IsReady (progress self.old) (length text.now + n) → IsReady (progress self.new) n) }
        ensures err { OnErr result (IsErrOf result LexFault.NoMemory) }
    {
        let Ok(lexeme) = Lexeme::new(alloc, text) else {
            return Err(LexFault::NoMemory);
        };
        let Ok(()) = self.tokens.push(Token { class, lexeme }) else {
            return Err(LexFault::NoMemory);
        };
        let Ok(()) = self.places.push(self.place) else {
            return Err(LexFault::NoMemory);
        };
        self.place = moved(self.place, text);
        self.fresh = false;
        Ok(())
    }

    /// Follows the line marker at the front of a text.
    fn follow(&mut self, alloc: Global, z: &[u8], n: usize) -> Result<usize, LexFault>
        requires marker { directive.is_marker (directive.body z.now) ≡ true }
        requires within { IsPart n z.now }
        requires ready { IsReady (progress self.old) (length z.now) }
        ensures steps { Steps result (progress self.new) (spec.after (progress self.old) z.now (Item.Marker n)) }
        ensures within { IfOk result (λ m. IsPart m z.now × IsReady (progress self.new) (length z.now - m)) }
    {
        let line = body(z);
        let file = file_number(alloc, &mut self.files, file_name(line))?;
        if n == z.len() {
            self.place = moved(self.place, z);
            self.fresh = false;
            Ok(n)
        } else {
            self.place = Place {
                file,
                line: line_number(line),
                column: 1,
            };
            self.fresh = true;
            Ok(n + 1)
        }
    }

    /// Reads the item at the front of a text, and tells its length.
    #[tactic(auto, unfolding(crate::specs::Lexis::step))]
    pub fn step(&mut self, alloc: Global, z: &[u8]) -> Result<usize, LexFault>
        requires nonempty { 0 < length z.now }
        requires ready { IsReady (progress self.old) (length z.now) }
        ensures steps { Steps result (progress self.new) (spec.step (progress self.old) z.now) }
        ensures item { IsWithin (first self.old.fresh z.now) z.now }
        ensures within { IfOk result (λ m. IsPart m z.now × IsReady (progress self.new) (length z.now - m)) }
    {
        match first(self.fresh, z) {
            Item::Blank => {
                let fresh = self.fresh || z[0] == b'\n';
                self.pass(front(z, 1), fresh);
                Ok(1)
            }
            Item::Gap(n) => {
                self.pass(front(z, n), false);
                Ok(n)
            }
            Item::Marker(n) => self.follow(alloc, z, n),
            Item::Token(class, n) => {
                self.keep(alloc, class, front(z, n))?;
                Ok(n)
            }
            Item::Fault(refusal, n) => Err(refused(refusal, moved(self.place, front(z, n)))),
        }
    }
}

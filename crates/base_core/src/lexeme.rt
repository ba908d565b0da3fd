ghost use Rattle.std.specs.Prelude.{◌≡◌, IfOk};

use crate::NoMemory;
use std::alloc::Global;
use std::marker::Model;
use std::mem::size_of;

/// The greatest number of bytes that a lexeme holds inside, with no allocation.
const ROOM: usize = 14;

/// Where the bytes of a lexeme lie. The `Vec` is boxed, since its own 24 bytes would double each lexeme.
#[derive(Debug, Drop)]
enum Stored {
    /// Inside, the first so many of these bytes.
    Inside(u8, [u8; ROOM]),
    /// On the heap.
    OnHeap(Box<Vec<u8>>),
}

/// The bytes of a token, as they stand in the text (C11 6.4, "lexical elements").
#[derive(Debug, Drop)]
pub struct Lexeme {
    stored: Stored,
}

/// A text has as many lexemes as bytes at most, so each is kept small.
const _: () = prove!(size_of::<Lexeme>() == 16);

impl Model for Lexeme {
    ghost use Rattle.std.specs.Prelude.{List, ℕ};

    ghost Value = { List ℕ };

    ghost use Rattle.base_core.specs.Lexeme.{stored_bytes, IsWithinRoom};

    ghost view = { λ l. stored_bytes l.stored };

    ghost invariant = { λ l. IsWithinRoom l.stored };
}

impl Lexeme {
    /// A lexeme of these bytes.
    pub fn new(alloc: Global, bytes: &[u8]) -> Result<Self, NoMemory>
        ensures { IfOk result (λ l. l ≡ bytes.now) }
    {
        let stored = if bytes.len() <= ROOM {
            let mut inside = [0; ROOM];
            inside[..bytes.len()].copy_from_slice(bytes);
            Stored::Inside(bytes.len() as u8, inside)
        } else {
            let Ok(items) = Vec::from_slice(alloc, bytes) else {
                return Err(NoMemory);
            };
            let Ok(boxed) = Box::new(alloc, items) else {
                return Err(NoMemory);
            };
            Stored::OnHeap(boxed)
        };
        Ok(Lexeme { stored })
    }

    /// Its bytes.
    pub fn as_bytes(&self) -> &[u8]
        ensures { result.now ≡ self.now }
    {
        match &self.stored {
            Stored::Inside(length, inside) => &inside[..*length as usize],
            Stored::OnHeap(items) => items.as_slice(),
        }
    }
}

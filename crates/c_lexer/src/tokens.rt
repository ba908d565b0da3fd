//! The tokens of a text.

ghost use Rattle.std.specs.Prelude.{◌≡◌, ◌-◌, ◌≤◌, ◌∷◌, ◌++◌, [], length, slice_get, None, Some, if◌then◌else◌, nat_eq};
ghost use Rattle.std.specs.Option.{option_copied};

use base_core::{Place, Token};
use indexmap::IndexSet;
use std::marker::Model;

/// The tokens of a text, with their places, the place of its end and the files that its line markers name. Contracts
/// see the record `Lexis` of `specs/Lexis.antt`.
#[derive(Drop)]
pub struct Tokens {
    pub(crate) tokens: Vec<Token>,
    pub(crate) places: Vec<Place>,
    pub(crate) end: Place,
    pub(crate) files: IndexSet<String>,
}

impl Model for Tokens {
    ghost use Rattle.std.specs.Prelude.{◌≡◌, map, string_bytes, vec_len};
    ghost use Rattle.c_lexer.specs.Lexis.{Lexis};

    ghost Value = { Lexis };

    ghost view = { λ t. record { tokens = t.tokens.items; places = t.places.items; end = t.end; files = map string_bytes t.files.keys } };

    ghost invariant = { λ t. vec_len t.places ≡ vec_len t.tokens };
}

impl Tokens {
    /// How many tokens there are.
    pub fn len(&self) -> usize
        ensures { result ≡ length self.now.tokens }
    {
        self.tokens.len()
    }

    /// All tokens, in order of the text.
    pub fn as_slice(&self) -> &[Token]
        ensures { result.now ≡ self.now.tokens }
    {
        &self.tokens
    }

    /// The k-th token, from 0; None exactly from their number on.
    pub fn token(&self, k: usize) -> Option<&Token>
        ensures { option_copied result ≡ slice_get self.now.tokens k }
    {
        self.tokens.get(k)
    }

    /// The place of the k-th token, and for their number that of the end of the text.
    pub fn place(&self, k: usize) -> Place
        requires { k ≤ length self.now.tokens }
        ensures { slice_get (self.now.places ++ self.now.end ∷ []) k ≡ Some result }
    {
        if k < self.places.len() {
            self.places[k]
        } else {
            self.end
        }
    }

    /// The place of the end of the text.
    pub fn end(&self) -> Place
        ensures { result ≡ self.now.end }
    {
        self.end
    }

    /// How many files the line markers name.
    pub fn files(&self) -> usize
        ensures { result ≡ length self.now.files }
    {
        self.files.len()
    }

    /// The name of the k-th file of the line markers, from 0; None exactly from their number on.
    pub fn file_name(&self, k: usize) -> Option<&str>
        ensures { option_copied result ≡ slice_get self.now.files k }
    {
        match self.files.get_index(k) {
            Some(name) => Some(name.as_str()),
            None => None,
        }
    }

    /// The name of a file; None exactly where the number is 0 or above the number of files.
    pub fn file(&self, n: u32) -> Option<&str>
        ensures { option_copied result ≡ (if nat_eq n 0 then None else slice_get self.now.files (n - 1)) }
    {
        if n == 0 {
            return None;
        }
        match self.files.get_index(n as usize - 1) {
            Some(name) => Some(name.as_str()),
            None => None,
        }
    }
}

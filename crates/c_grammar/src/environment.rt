//! What names mean where a token is read.

ghost use Rattle.std.specs.Prelude.{◌≡◌};

use crate::names::Names;
use std::marker::Model;

/// The names that matter where a token is read.
#[derive(Drop)]
pub struct NameEnvironment<'a> {
    /// Those that are types.
    types: &'a Names,
    /// Those that may be used there, but not be declared.
    reserved: &'a Names,
}

impl<'a> Model for NameEnvironment<'a> {
    ghost use Rattle.c_grammar.specs.Rules as rules;

    ghost Value = { rules.NameEnvironment };

    ghost view = { λ t. record { types = t.types.now; reserved = t.reserved.now } };
}

impl<'a> NameEnvironment<'a> {
    /// These names are types, and these are reserved.
    pub fn new(types: &'a Names, reserved: &'a Names) -> Self
        ensures { result ≡ record { types = types.now; reserved = reserved.now } }
    {
        NameEnvironment { types, reserved }
    }

    /// The names that are types.
    pub fn types(&self) -> &'a Names
        ensures { result.now ≡ self.now.types }
    {
        self.types
    }

    /// The names that are reserved.
    pub fn reserved(&self) -> &'a Names
        ensures { result.now ≡ self.now.reserved }
    {
        self.reserved
    }
}

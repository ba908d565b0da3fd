ghost use Rattle.std.specs.Prelude.{◌≡◌, List, ℕ, IfOk, string_bytes};

use base_core::NoMemory;
use std::alloc::Global;
use std::marker::Model;

/// The name of a function. A contract sees its bytes.
#[derive(Debug, Drop)]
pub struct Name {
    text: String,
}

impl Model for Name {
    ghost Value = { List ℕ };

    ghost view = { λ n. string_bytes n.text };
}

impl Name {
    /// The name of this text.
    pub fn new(alloc: Global, s: &str) -> Result<Self, NoMemory>
        ensures { IfOk result (λ name. name ≡ s.now) }
    {
        match String::from_str(alloc, s) {
            Ok(text) => Ok(Name { text }),
            Err(_) => Err(NoMemory),
        }
    }

    /// Its text.
    pub fn as_str(&self) -> &str
        ensures { result.now ≡ self.now }
    {
        self.text.as_str()
    }
}

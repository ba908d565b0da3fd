ghost use Rattle.std.specs.Prelude.{◌≡◌};

use base_core::NoMemory;
use std::alloc::AllocError;

/// Why a rule reads nothing.
#[derive(Clone, Copy)]
pub enum Refusal {
    /// No rule goes on with the next token; so many tokens are left.
    Syntax(usize),
    /// With the next token a limit is passed; so many tokens are left.
    Large(usize),
    NoMemory,
}

impl From<NoMemory> for Refusal {
    ghost use Rattle.c_grammar.specs.declared.refusal.Refusal.TheVariants.{NoMemory};

    ghost from_gives = { λ _ e. e ≡ NoMemory };

    fn from(_: NoMemory) -> Self {
        Refusal::NoMemory
    }
}

impl From<AllocError> for Refusal {
    ghost use Rattle.c_grammar.specs.declared.refusal.Refusal.TheVariants.{NoMemory};

    ghost from_gives = { λ _ e. e ≡ NoMemory };

    fn from(_: AllocError) -> Self {
        Refusal::NoMemory
    }
}

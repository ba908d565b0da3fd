ghost use Rattle.std.specs.Prelude.{◌≡◌};

use std::alloc::AllocError;
use thiserror::Error;

/// Why tokens spell no program within the limits.
#[derive(Clone, Copy, Debug, PartialEq, Eq, Error)]
pub enum ParseFault {
    /// No program's tokens begin with those up to this one; for their number, they are the tokens of no program.
    #[error("no program goes on with token {0}")]
    Syntax(usize),
    /// At this token more than 100 brackets are open for the first time.
    #[error("more than 100 brackets are open at token {0}")]
    Nested(usize),
    /// The tokens of no program within the limits begin with those up to this one.
    #[error("the program is too large from token {0} on")]
    Large(usize),
    /// There is not enough memory.
    #[error("not enough memory")]
    NoMemory,
}

impl From<AllocError> for ParseFault {
    ghost use Rattle.c_parser.specs.declared.fault.ParseFault.TheVariants.{NoMemory};

    ghost from_gives = { λ _ e. e ≡ NoMemory };

    fn from(_: AllocError) -> Self {
        ParseFault::NoMemory
    }
}

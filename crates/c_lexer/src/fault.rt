use base_core::Place;
use thiserror::Error;

/// Why a text has no tokens, and where.
#[derive(Clone, Copy, Debug, PartialEq, Eq, Error)]
pub enum LexFault {
    /// A byte that begins no lexeme, or that mustn't stand where it stands.
    #[error("a byte that no token has")]
    BadByte(Place),
    /// A comment without an end.
    #[error("a comment without an end")]
    OpenComment(Place),
    /// A character constant or a string literal without an end.
    #[error("a literal without an end")]
    OpenLiteral(Place),
    /// An integer past 64 bits, or an escape sequence past 8.
    #[error("a number that is too large")]
    NumberTooLarge(Place),
    /// A line with a `#` that is no directive of the subset.
    #[error("a directive that the subset lacks")]
    Directive(Place),
    #[error("not enough memory")]
    NoMemory,
}

impl LexFault {
    ghost use Rattle.std.specs.Prelude.{◌≡◌};
    ghost use Rattle.c_lexer.specs.Faults.{place_of, kind_of};

    /// Where the fault lies; None exactly at want of memory.
    pub fn place(self) -> Option<Place>
        ensures { result ≡ place_of self }
    {
        match self {
            LexFault::BadByte(place)
            | LexFault::OpenComment(place)
            | LexFault::OpenLiteral(place)
            | LexFault::NumberTooLarge(place)
            | LexFault::Directive(place) => Some(place),
            LexFault::NoMemory => None,
        }
    }

    /// The word for its kind, as it is printed: the name of its variant.
    pub fn kind(self) -> &'static str
        ensures { result.now ≡ kind_of self }
    {
        match self {
            LexFault::BadByte(_) => "BadByte",
            LexFault::OpenComment(_) => "OpenComment",
            LexFault::OpenLiteral(_) => "OpenLiteral",
            LexFault::NumberTooLarge(_) => "NumberTooLarge",
            LexFault::Directive(_) => "Directive",
            LexFault::NoMemory => "NoMemory",
        }
    }
}

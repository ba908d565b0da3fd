//! What a text is made of.

use base_core::Class;

/// Why a text is refused.
#[derive(Clone, Copy, Debug)]
pub enum Refusal {
    BadByte,
    OpenComment,
    OpenLiteral,
    NumberTooLarge,
    Directive,
}

/// What stands at the front of a text, with its length in bytes.
#[derive(Clone, Copy, Debug)]
pub enum Item {
    /// One blank.
    Blank,
    /// A comment, or an include directive up to the end of its line.
    Gap(usize),
    /// A line marker up to the end of its line.
    Marker(usize),
    Token(Class, usize),
    /// Nothing of the lexis. The number is that of the bytes before the faulty one.
    Fault(Refusal, usize),
}

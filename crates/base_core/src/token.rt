use crate::Lexeme;

/// The class of a token (C11 6.4). A keyword of C that the subset refuses is a `Keyword` too, and a string literal
/// is a `Text`.
#[derive(Clone, Copy, Debug, PartialEq, Eq, Hash)]
pub enum Class {
    Keyword,
    Name,
    Integer,
    Character,
    Text,
    Punctuator,
}

/// A token: its class and its bytes.
#[derive(Debug, Drop)]
pub struct Token {
    pub class: Class,
    pub lexeme: Lexeme,
}

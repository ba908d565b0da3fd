//! What the specifiers of a type begin and go on with.

use c_tree::Qual;

/// A keyword that names a type, by itself or with others (C11 6.7.2).
#[derive(Clone, Copy)]
pub enum TypeKeyword {
    Void,
    Char,
    Short,
    Int,
    Long,
    Signed,
    Unsigned,
}

/// What a specifier begins with (C11 6.7.2 and 6.7.3).
#[derive(Clone, Copy)]
pub enum Start {
    Qualifier(Qual),
    Keyword(TypeKeyword),
    TypeName,
    Struct,
    Enum,
}

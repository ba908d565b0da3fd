//! The words that name a type.

/// A word of specifiers that is no qualifier (C11 6.7.2). A type's name, a struct and an enum are a whole type each.
#[derive(Clone, Copy)]
pub enum TypeWord {
    Void,
    Char,
    Short,
    Int,
    Long,
    Signed,
    Unsigned,
    Whole,
}

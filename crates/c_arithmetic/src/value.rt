use crate::types::IntType;

/// A number with its type (C11 6.2.5).
#[derive(Clone, Copy, PartialEq, Eq)]
pub struct Value {
    pub number: i64,
    pub of: IntType,
}

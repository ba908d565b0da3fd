use c_arithmetic::IntType;

/// What an expression made of constants is: its type, and its value where it has one.
#[derive(Clone, Copy, PartialEq, Eq)]
pub struct Meaning {
    pub of: IntType,
    pub number: Option<i64>,
}

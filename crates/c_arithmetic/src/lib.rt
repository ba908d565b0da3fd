//! Integers of C on a machine with 32 bits in an int and 64 in a long and in a pointer (C11 6.2.5, 6.3.1, 6.4.4, 6.5).
//!
//! [`IntType`] is an integer type, a [`Value`] a number with its type. The functions give the type that operands have in common
//! (`types`), what a number becomes in another type (`conversion`), the type and the value of a literal (`literals`), and
//! the result of an operator (`operations`, `comparison`): `None` where C leaves it undefined, or where it lies outside of
//! 64 bits with a sign. So an unsigned long from 2^63 on is no [`Value`], though an operand may become one on the way to
//! a result, as in `-1 < 0ul`.
#![tactic(auto)]

mod comparison;
mod conversion;
mod exact;
mod literals;
mod operations;
mod types;
mod value;

pub use comparison::{is_equal, is_less, is_true, truth};
pub use literals::{character_number, integer_number, integer_type};
pub use operations::{
    both_bits, complement, converted, difference, either_bits, negated, plus, product, quotient,
    remainder, shifted_left, shifted_right, sum, unequal_bits,
};
pub use types::IntType;
pub use value::Value;

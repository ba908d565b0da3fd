ghost use Rattle.std.specs.Prelude.{◌≡◌};
ghost use Rattle.c_arithmetic.specs.Types as spec;

/// An integer type (C11 6.2.5): its width in bits, and whether it has a sign. char is signed 8, short 16, int 32, long and
/// long long 64. A width past 64 is read as 64.
#[derive(Clone, Copy, PartialEq, Eq)]
pub struct IntType {
    pub width: u8,
    pub signed: bool,
}

/// The type of two that have a sign both or neither.
fn of_greater_rank(one: IntType, other: IntType) -> IntType
    ensures { result ≡ spec.of_greater_rank one other }
{
    if one.width < other.width { other } else { one }
}

/// The type of one without a sign and one with.
fn of_mixed(unsigned: IntType, signed: IntType) -> IntType
    ensures { result ≡ spec.of_mixed unsigned signed }
{
    if signed.width <= unsigned.width {
        unsigned
    } else {
        signed
    }
}

/// The type of two promoted types.
fn usual(one: IntType, other: IntType) -> IntType
    ensures { result ≡ spec.usual one other }
{
    match (one.signed, other.signed) {
        (true, false) => of_mixed(other, one),
        (false, true) => of_mixed(one, other),
        _ => of_greater_rank(one, other),
    }
}

impl IntType {
    /// char, which has a sign here.
    pub const CHAR: IntType = IntType {
        width: 8,
        signed: true,
    };

    /// int.
    pub const INT: IntType = IntType {
        width: 32,
        signed: true,
    };

    /// unsigned int.
    pub const UNSIGNED_INT: IntType = IntType {
        width: 32,
        signed: false,
    };

    /// long and long long.
    pub const LONG: IntType = IntType {
        width: 64,
        signed: true,
    };

    /// unsigned long and unsigned long long.
    pub const UNSIGNED_LONG: IntType = IntType {
        width: 64,
        signed: false,
    };

    /// The type behind integer promotion (C11 6.3.1.1p2).
    pub fn promoted(self) -> IntType
        ensures { result ≡ spec.promoted self }
    {
        if self.width < 32 { IntType::INT } else { self }
    }

    /// The common type of two operands by the usual arithmetic conversions (C11 6.3.1.8p1).
    pub fn common(self, other: IntType) -> IntType
        ensures { result ≡ spec.common self other }
    {
        usual(self.promoted(), other.promoted())
    }
}

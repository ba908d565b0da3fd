//! Numbers by their digits.

ghost use Rattle.std.specs.Prelude.{◌≡◌, ◌+◌, ◌*◌, ◌^◌, ◌<◌, ◌≤◌, Some, None, nat_le, nat_lt, if◌then◌else◌};
ghost use Rattle.c_lexer.specs.Numbers as spec;

/// The value of a digit.
fn digit(b: u8) -> u8
    ensures { result ≡ spec.digit b }
{
    if b <= b'9' {
        b.saturating_sub(48)
    } else if b <= b'F' {
        b - 55
    } else {
        b.saturating_sub(87)
    }
}

/// The number with one more digit behind it, where it isn't above the limit.
fn with_digit(limit: u64, base: u64, number: u64, b: u8) -> Option<u64>
    ensures { result ≡ (if nat_le (number * base + spec.digit b) limit then Some (number * base + spec.digit b) else None) }
{
    match number.checked_mul(base) {
        Some(shifted) => match shifted.checked_add(u64::from(digit(b))) {
            Some(next) if next <= limit => Some(next),
            _ => None,
        },
        None => None,
    }
}

/// The value of the digits, where it isn't above the limit.
pub fn value_up_to(limit: u64, base: u64, digits: &[u8]) -> Option<u64>
    requires { 1 ≤ base }
    ensures { result ≡ (if nat_le (spec.value base digits.now) limit then Some (spec.value base digits.now) else None) }
{
    let mut value = 0;
    let mut rest = digits;
    while let [b, after @ ..] = rest {
        value = with_digit(limit, base, value, *b)?;
        rest = after;
    }
    Some(value)
}

use c_constants::Names;

/// Names with a value, for the tests: m is INT_MAX, n is INT_MIN, t is 3 and w is -2.
pub(crate) struct Letters;

impl Names for Letters {
    ghost use Rattle.constant_tests.specs.Letters.{letter_values};

    ghost values = { λ _ name. letter_values name };

    fn value(&self, name: &[u8]) -> Option<i32> {
        match name {
            [b'm'] => Some(i32::MAX),
            [b'n'] => Some(i32::MIN),
            [b't'] => Some(3),
            [b'w'] => Some(-2),
            [] => None,
            [_] => None,
            [_, _, ..] => None,
        }
    }
}

ghost use Rattle.std.specs.Prelude.{◌≡◌, ◌↔◌, IsTrue};
ghost use Rattle.abstract_values.specs.Numbers.{IntUnder, never_zero, apart, int_join, is_any_int};

/// What is known of an integer.
#[derive(Clone, Copy, PartialEq, Eq)]
pub enum AbsInt {
    /// Nothing is known.
    Any,
    /// Every value but the integer 0.
    NotZero,
    /// This integer.
    Exactly(i64),
    /// The value that `errno` had when the innermost signal handler was entered (POSIX.1-2017 XSH 2.4.3).
    EntryErrno,
}

impl AbsInt {
    /// Whether the other stands for all that this one stands for.
    pub fn below(self, o: AbsInt) -> bool
        ensures { IsTrue result ↔ IntUnder self o }
    {
        match (self, o) {
            (_, AbsInt::Any) => true,
            (AbsInt::NotZero, AbsInt::NotZero) => true,
            (AbsInt::Exactly(i), AbsInt::NotZero) => i != 0,
            (AbsInt::Exactly(i), AbsInt::Exactly(j)) => i == j,
            (AbsInt::EntryErrno, AbsInt::EntryErrno) => true,
            _ => false,
        }
    }

    /// The least value above both.
    pub fn join(self, o: AbsInt) -> AbsInt
        ensures { result ≡ int_join self o }
    {
        match (self, o) {
            (AbsInt::EntryErrno, AbsInt::EntryErrno) => AbsInt::EntryErrno,
            (AbsInt::Exactly(i), AbsInt::Exactly(j)) => {
                if i == j {
                    AbsInt::Exactly(i)
                } else {
                    self.apart(o)
                }
            }
            _ => self.apart(o),
        }
    }

    /// The least value above both, where neither is below the other.
    fn apart(self, o: AbsInt) -> AbsInt
        ensures { result ≡ apart self o }
    {
        if self.never_zero() && o.never_zero() {
            AbsInt::NotZero
        } else {
            AbsInt::Any
        }
    }

    fn never_zero(self) -> bool
        ensures { result ≡ never_zero self }
    {
        match self {
            AbsInt::NotZero => true,
            AbsInt::Exactly(i) => i != 0,
            AbsInt::Any | AbsInt::EntryErrno => false,
        }
    }

    pub(crate) fn is_any(self) -> bool
        ensures { result ≡ is_any_int self }
    {
        match self {
            AbsInt::Any => true,
            AbsInt::NotZero | AbsInt::Exactly(_) | AbsInt::EntryErrno => false,
        }
    }
}

ghost use Rattle.std.specs.Prelude.{◌≡◌, map};
ghost use Rattle.c_kinds.specs.Kind.{words, kinds_of};
ghost use Rattle.c_kinds.specs.Word.{same_words};
ghost use Rattle.c_kinds.specs.Matching as matching;
ghost use Rattle.c_kinds.specs.View.{view};

use crate::ctype::CType;
use crate::word::Word;

/// Whether the types are as many as these words, and have them as their outermost words.
fn have_words(types: &[CType], due: &[Word]) -> bool
    ensures { result ≡ same_words (words (kinds_of (map view types.now))) due.now }
{
    let mut rest = due;
    for one in types {
        match rest {
            [] => return false,
            [word, more @ ..] => {
                if !one.word().is(*word) {
                    return false;
                }
                rest = more;
            }
        }
    }
    match rest {
        [] => true,
        [_word, _more @ ..] => false,
    }
}

/// Whether they are as many, with the same outermost words.
fn have_same_words(ones: &[CType], others: &[CType]) -> bool
    ensures { result ≡ same_words (words (kinds_of (map view ones.now))) (words (kinds_of (map view others.now))) }
{
    let mut rest = others;
    for one in ones {
        match rest {
            [] => return false,
            [other, more @ ..] => {
                if !one.word().is(other.word()) {
                    return false;
                }
                rest = more;
            }
        }
    }
    match rest {
        [] => true,
        [_other, _more @ ..] => false,
    }
}

impl CType {
    /// Whether it is a pointer to a function whose parameters and result have these outermost words.
    pub fn has_signature(&self, parameters: &[Word], gives: Word) -> bool
        ensures { result ≡ matching.has_signature parameters.now gives (view self.now) }
    {
        match self {
            CType::FnPtr(takes, to) => {
                have_words(takes.as_slice(), parameters) && to.word().is(gives)
            }
            _ => false,
        }
    }

    /// Whether a value of this type may stand where the other is due: as the right side of an assignment, an argument, an
    /// initialiser or what a return gives (C11 6.5.16.1p1). Integers match, whatever their width; pointers and arrays match a pointer
    /// to an object, structures and sets of signals the same, and functions one whose parameters and result have the same outermost
    /// words.
    pub fn matches(&self, due: &CType) -> bool
        ensures { result ≡ matching.matches (view self.now) (view due.now) }
    {
        match (self, due) {
            (CType::Int(_, _), CType::Int(_, _)) => true,
            (CType::Ptr(_) | CType::Array(_), CType::Ptr(_)) => true,
            (CType::Struct(one), CType::Struct(other)) => one == other,
            (CType::Set, CType::Set) => true,
            (CType::FnPtr(takes, gives), CType::FnPtr(takes_due, gives_due)) => {
                have_same_words(takes.as_slice(), takes_due.as_slice())
                    && gives.word().is(gives_due.word())
            }
            _ => false,
        }
    }

    /// Whether one of the two matches the other, as the operands of a comparison do (C11 6.5.8p2, 6.5.9p2).
    pub fn matches_either_way(&self, other: &CType) -> bool
        ensures { result ≡ matching.matches_either_way (view self.now) (view other.now) }
    {
        self.matches(other) || other.matches(self)
    }

    /// Whether two declarations of one object, with these types, agree (C11 6.2.7p2).
    pub fn agrees(&self, other: &CType) -> bool
        ensures { result ≡ matching.agrees (view self.now) (view other.now) }
    {
        let mut one = self;
        let mut two = other;
        loop {
            match (one, two) {
                (CType::Array(of_one), CType::Array(of_two)) => {
                    one = of_one;
                    two = of_two;
                }
                (CType::Kernel, CType::Kernel) => return true,
                _ => return one.matches_either_way(two),
            }
        }
    }
}

ghost use Rattle.std.specs.Prelude.{◌≡◌};
ghost use Rattle.c_rules.specs.Misfit as spec;

/// Which rule a node breaks.
#[derive(Clone, Copy, Debug, PartialEq, Eq)]
pub enum MisfitKind {
    /// A name, a member, a tag or a label is not declared, or what it stands for is not defined (C11 6.5.1, 6.5.2.3, 6.8.6.1, 6.9).
    UnknownName,
    /// A name, a tag, a member, a label or a value of a case stands a second time (C11 6.7p3, 6.8.1p3, 6.8.4.2p3).
    DeclaredTwice,
    /// What is called is no function (C11 6.5.2.2p1).
    NotCallable,
    /// A call has too few or too many arguments (C11 6.5.2.2p2).
    WrongCount,
    /// A kind is another than the one that is due.
    KindMismatch,
    /// No constant stands where one is due (C11 6.6).
    NotConstant,
    /// The subset leaves this out.
    LeftOut,
    /// There is no function main of a type that it may have (C11 5.1.2.2.1).
    NoMain,
    /// What is stored into, or its address taken, is no such place (C11 6.5.3.2p1, 6.5.16p2).
    NotAssignable,
    /// The name of a library function stands otherwise than before the arguments of a call.
    LibraryAsValue,
}

impl MisfitKind {
    /// Its number, from 1 to 10.
    pub fn number(self) -> u8
        ensures { result ≡ spec.number self }
    {
        match self {
            MisfitKind::UnknownName => 1,
            MisfitKind::DeclaredTwice => 2,
            MisfitKind::NotCallable => 3,
            MisfitKind::WrongCount => 4,
            MisfitKind::KindMismatch => 5,
            MisfitKind::NotConstant => 6,
            MisfitKind::LeftOut => 7,
            MisfitKind::NoMain => 8,
            MisfitKind::NotAssignable => 9,
            MisfitKind::LibraryAsValue => 10,
        }
    }
}

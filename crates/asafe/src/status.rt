ghost use Rattle.std.specs.Prelude.{◌≡◌};
ghost use Rattle.asafe.specs.Status.{code_of};

/// How the command ends.
#[derive(Clone, Copy, Debug, PartialEq, Eq, Hash)]
pub enum Status {
    /// No run of the program breaks a rule; or what was asked for is printed.
    Yes,
    /// The condition on the handlers doesn't hold.
    Refused,
    /// The words ask for no job of the command.
    Usage,
    /// The text is not in the subset: it has a fault of the lexis, a token with which no program goes on, or too many open
    /// brackets.
    Text,
    /// The file was not read.
    ReadFault,
    /// Standard output failed.
    WriteFault,
    /// There is not enough memory.
    NoMemory,
    /// The text is too long, or its program has too many nodes or too great a depth.
    TooLarge,
    /// The job isn't built yet, or the text spells a program of the subset that is no flat program. Such programs aren't
    /// decided yet.
    NotYet,
}

impl Status {
    /// The exit status of the process.
    pub fn code(self) -> u8
        ensures { result ≡ code_of self }
    {
        match self {
            Status::Yes => 0,
            Status::Refused => 1,
            Status::Usage => 2,
            Status::Text => 3,
            Status::ReadFault => 4,
            Status::WriteFault => 5,
            Status::NoMemory => 6,
            Status::TooLarge => 7,
            Status::NotYet => 8,
        }
    }
}

ghost use Rattle.std.specs.Prelude.{◌≡◌};
ghost use Rattle.asafe.specs.Ending.{ending_status, ending_text};

use crate::Status;
use crate::lines::{report, usage};

/// How a phase of the command ends the whole, and what is printed, before anything is put.
#[derive(Drop)]
pub(crate) enum Ending {
    /// No run of the program breaks a rule; whether the report is JSON.
    Accepted(bool),
    /// The condition on the handlers doesn't hold.
    Refused,
    /// This list was asked for.
    Listed(String),
    /// The words ask for no job.
    Usage,
    /// The text is not in the subset, which this line tells.
    Faulty(String),
    /// The file was not read, which this line tells.
    Unread(String),
    /// There is not enough memory.
    NoMemory,
    /// The text is too large, which this line tells.
    TooLarge(String),
    /// The job or the program can't be done yet.
    NotYet,
}

impl Ending {
    /// The status, where all that is printed is taken.
    pub(crate) fn status(&self) -> Status
        ensures { result ≡ ending_status self.now }
    {
        match self {
            Ending::Accepted(_) | Ending::Listed(_) => Status::Yes,
            Ending::Refused => Status::Refused,
            Ending::Usage => Status::Usage,
            Ending::Faulty(_) => Status::Text,
            Ending::Unread(_) => Status::ReadFault,
            Ending::NoMemory => Status::NoMemory,
            Ending::TooLarge(_) => Status::TooLarge,
            Ending::NotYet => Status::NotYet,
        }
    }

    /// What is printed.
    pub(crate) fn text(&self) -> &[u8]
        ensures { result.now ≡ ending_text self.now }
    {
        match self {
            Ending::Accepted(json) => report(*json),
            Ending::Usage => usage(),
            Ending::Listed(text)
            | Ending::Faulty(text)
            | Ending::Unread(text)
            | Ending::TooLarge(text) => text.as_bytes(),
            Ending::Refused | Ending::NoMemory | Ending::NotYet => b"",
        }
    }
}

ghost use Rattle.std.specs.Prelude.{◌≡◌, ◌≤◌, ◌↔◌, IsTrue, IsSome, IfSome, ◌-◌, slice_get};
ghost use Rattle.base_core.specs.Signal.{signal_names, signal_named, CanBeCaught};

use std::marker::Model;

/// A signal, as its number in the alphabetical list of the 28 signals of `<signal.h>` (POSIX.1-2017 XBD,
/// "signal.h"): `SIGABRT` is 1 and `SIGXFSZ` is 28. A contract sees the number.
#[derive(Clone, Copy, Debug, PartialEq, Eq, PartialOrd, Ord, Hash)]
pub struct Sig {
    number: u8,
}

impl Model for Sig {
    ghost use Rattle.std.specs.Prelude.{◌≤◌, ℕ};

    ghost Value = { ℕ };

    ghost view = { λ s. s.number };

    ghost invariant = { λ s. (1 ≤ s.number) × (s.number ≤ 28) };

    ghost inverse = { λ n. record { number = n } };
}

/// The name of the signal of this number.
fn name_of(number: u8) -> &'static str
    requires least { 1 ≤ number }
    requires greatest { number ≤ 28 }
    ensures { slice_get signal_names (number - 1) ≡ Some result.now }
{
    match number {
        1 => "SIGABRT",
        2 => "SIGALRM",
        3 => "SIGBUS",
        4 => "SIGCHLD",
        5 => "SIGCONT",
        6 => "SIGFPE",
        7 => "SIGHUP",
        8 => "SIGILL",
        9 => "SIGINT",
        10 => "SIGKILL",
        11 => "SIGPIPE",
        12 => "SIGPOLL",
        13 => "SIGPROF",
        14 => "SIGQUIT",
        15 => "SIGSEGV",
        16 => "SIGSTOP",
        17 => "SIGSYS",
        18 => "SIGTERM",
        19 => "SIGTRAP",
        20 => "SIGTSTP",
        21 => "SIGTTIN",
        22 => "SIGTTOU",
        23 => "SIGURG",
        24 => "SIGUSR1",
        25 => "SIGUSR2",
        26 => "SIGVTALRM",
        27 => "SIGXCPU",
        _ => "SIGXFSZ",
    }
}

impl Sig {
    /// The signal of this number; None exactly where the number is not from 1 to 28.
    pub fn new(number: u8) -> Option<Self>
        ensures valid { IsSome result ↔ ((1 ≤ number) × (number ≤ 28)) }
        ensures value { IfSome result (λ signal. signal ≡ number) }
    {
        if 1 <= number && number <= 28 {
            Some(Sig { number })
        } else {
            None
        }
    }

    /// The signal of this name, as `SIGINT`; None exactly where no signal has it.
    pub fn named(name: &[u8]) -> Option<Self>
        ensures { result ≡ signal_named name.now }
    {
        for number in 1..29 {
            if name_of(number).as_bytes() == name {
                return Some(Sig { number });
            }
        }
        None
    }

    /// Its name, as `SIGINT`.
    pub fn name(self) -> &'static str
        ensures { slice_get signal_names (self - 1) ≡ Some result.now }
    {
        name_of(self.number)
    }

    /// Its number, from 1 to 28.
    pub fn number(self) -> u8
        ensures value { result ≡ self }
        ensures least { 1 ≤ result }
        ensures greatest { result ≤ 28 }
    {
        self.number
    }

    /// Whether a signal-catching function may be set for it (POSIX.1-2017 XSH 2.4.3).
    pub fn can_be_caught(self) -> bool
        ensures { IsTrue result ↔ CanBeCaught self }
    {
        self.number != 10 && self.number != 16
    }
}

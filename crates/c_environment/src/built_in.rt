ghost use Rattle.std.specs.Prelude.{◌≡◌, if◌then◌else◌, Option, Some, None};
ghost use Rattle.c_environment.specs.Entity.{built_in};
ghost use Rattle.c_environment.specs.Environment.{constant_of};
ghost use Rattle.c_environment.specs.Values.{fits_int};

use c_builtins::BuiltIn;
use std::marker::Model;

/// A built-in name whose number, where it has one, is a value of int. A contract sees what the name stands for.
#[derive(Drop)]
pub struct KnownBuiltIn {
    stands_for: BuiltIn,
}

impl Model for KnownBuiltIn {
    ghost use Rattle.std.specs.Prelude.{◌≡◌, true};
    ghost use Rattle.c_builtins.specs.declared.names.BuiltIn.{BuiltIn as TheBuiltIn};
    ghost use Rattle.c_environment.specs.Values.{fits_int};

    ghost Value = { TheBuiltIn };

    ghost view = { λ b. b.stands_for };

    ghost invariant = { λ b. fits_int b.stands_for ≡ true };
}

impl KnownBuiltIn {
    /// The built-in name; `None` where it has a number that is no value of int.
    pub fn new(stands_for: BuiltIn) -> Option<Self>
        ensures { result ≡ if fits_int stands_for then Some stands_for else None }
    {
        match stands_for {
            BuiltIn::Number(k) if k > i32::MAX as u32 => None,
            _ => Some(KnownBuiltIn { stands_for }),
        }
    }

    /// What it stands for.
    pub fn get(&self) -> BuiltIn
        ensures { result ≡ self.now }
    {
        self.stands_for
    }

    /// Its value in a constant expression (C11 6.6), where it has one.
    pub fn value(&self) -> Option<i32>
        ensures { result ≡ constant_of (built_in self.now) }
    {
        match self.stands_for {
            BuiltIn::Number(k) => Some(k as i32),
            BuiltIn::Null => Some(0),
            _ => None,
        }
    }
}

ghost use Rattle.std.specs.Prelude.{◌≡◌};

/// The names that have a value: enumerators (C11 6.4.4.3), and other constants of type int.
pub trait Names {
    ghost use Rattle.std.specs.Prelude.{List, ℕ, ℤ, Option};

    /// The value of each name that has one.
    ghost values: { Self → List ℕ → Option ℤ };

    /// The value of the name, where it has one.
    fn value(&self, name: &[u8]) -> Option<i32>
        ensures { result ≡ values self.now name.now };
}

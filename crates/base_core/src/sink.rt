ghost use Rattle.std.specs.Prelude.{◌≡◌, ◌≢◌, ◌≤◌, List, [], ℕ, Option, length, take, IfOk, OnErr};
ghost use Rattle.base_core.specs.Count.{Rose};
ghost use Rattle.base_core.specs.Taken.{appended};

use crate::Failed;

/// A sink of bytes, such as standard output.
pub trait Sink {
    /// The bytes that it has taken, where it tells them.
    ghost taken: { Self → Option (List ℕ) };

    /// How often it has failed. The count stands still at the last value of a `u64`.
    ghost faults: { Self → ℕ };

    /// Takes the first bytes of a piece, and says how many. It takes no memory.
    fn put(&mut self, bytes: &[u8]) -> Result<usize, Failed>
        ensures bound { IfOk result (λ n. n ≤ length bytes.now) }
        ensures taken { IfOk result (λ n. taken self.new ≡ appended (taken self.old) (take n bytes.now)) }
        ensures refused { OnErr result (taken self.new ≡ taken self.old) }
        ensures later { faults self.old ≤ faults self.new }

        // It doesn't give up by itself.
        ensures failed { OnErr result (Rose (faults self.old) (faults self.new)) }
        ensures stuck { result ≡ Ok 0 → bytes.now ≢ [] → Rose (faults self.old) (faults self.new) }
        ensures empty { bytes.now ≡ [] → result ≡ Ok 0 }
        ensures idle { bytes.now ≡ [] → faults self.new ≡ faults self.old };
}

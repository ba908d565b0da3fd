ghost use Rattle.std.specs.Prelude.{◌≡◌, ◌≢◌, ◌⊎◌, ◌≤◌, List, ℕ, Option, length, vec_len, is_some, IfOk, OnOk, OnErr, IsErrOf};
ghost use Rattle.base_core.specs.Count.{Rose};
ghost use Rattle.base_core.specs.Contents.{Contents, text_of, Lacks, IsOverLimit, Holds, HoldsPrefix};

use std::alloc::Global;
use thiserror::Error;

/// Why a text was not read.
#[derive(Clone, Copy, Debug, PartialEq, Eq, Error)]
pub enum ReadError {
    /// The device failed, or the name is absent.
    #[error("the read failed")]
    Failed,
    /// The text has more bytes than the limit.
    #[error("the text is too long")]
    TooLong,
    /// There is not enough memory.
    #[error("not enough memory")]
    NoMemory,
}

/// Why a text was not written.
#[derive(Clone, Copy, Debug, PartialEq, Eq, Error)]
pub enum WriteError {
    /// The device failed.
    #[error("the write failed")]
    Failed,
    /// There is not enough memory.
    #[error("not enough memory")]
    NoMemory,
}

/// A shelf of texts by name, such as a file system.
pub trait Shelf {
    /// The bytes of each name, where it tells them.
    ghost contents: { Self → Contents };

    /// How often a read has failed. The count stands still at the last value of a `u64`.
    ghost failed_reads: { Self → ℕ };

    /// How often a write has failed. The count stands still at the last value of a `u64`.
    ghost failed_writes: { Self → ℕ };

    /// The bytes of a name, of which there are at most `limit`.
    fn read(&mut self, alloc: Global, name: &str, limit: u32) -> Result<Vec<u8>, ReadError>
        ensures found { IfOk result (λ bytes. Holds (contents self.old) name.now bytes.items) }
        ensures within { IfOk result (λ bytes. vec_len bytes ≤ limit) }
        ensures too_long { IsErrOf result ReadError.TooLong → IsOverLimit (contents self.old) name.now limit }
        ensures absent { Lacks (contents self.old) name.now → IsErrOf result ReadError.Failed ⊎ IsErrOf result ReadError.NoMemory }

        // It doesn't give up by itself.
        ensures failed { IsErrOf result ReadError.Failed → Rose (failed_reads self.old) (failed_reads self.new) ⊎ Lacks (contents self.old) name.now }

        ensures later { failed_reads self.old ≤ failed_reads self.new }
        ensures writes { failed_writes self.new ≡ failed_writes self.old }
        ensures same { contents self.new ≡ contents self.old };

    /// Makes a name hold these bytes. After a refusal the name holds a prefix of the bytes, or what it held, or it is
    /// still absent.
    fn write(&mut self, alloc: Global, name: &str, bytes: &[u8]) -> Result<(), WriteError>
        ensures written { OnOk result (Holds (contents self.new) name.now bytes.now) }
        ensures refused { OnErr result (HoldsPrefix (text_of (contents self.new) name.now) bytes.now
            ⊎ (text_of (contents self.new) name.now ≡ text_of (contents self.old) name.now)) }
        ensures others { (other : List ℕ) → other ≢ name.now → text_of (contents self.new) other ≡ text_of (contents self.old) other }
        ensures told { is_some (contents self.new) ≡ is_some (contents self.old) }

        // It doesn't give up by itself.
        ensures failed { IsErrOf result WriteError.Failed → Rose (failed_writes self.old) (failed_writes self.new) }

        ensures later { failed_writes self.old ≤ failed_writes self.new }
        ensures reads { failed_reads self.new ≡ failed_reads self.old };
}

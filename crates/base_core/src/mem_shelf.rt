ghost use Rattle.std.specs.Prelude.{◌≡◌, ◌≢◌, ◌⊎◌, ◌≤◌, ◌∷◌, ◌++◌, List, [], ℕ, Option, Some, None, length, take, vec_len, is_some, IsSome, IfSome, IfOk, OnOk, OnErr, IsErr, IsErrOf};
ghost use Rattle.std.specs.Option.{option_copied};
ghost use Rattle.base_core.specs.Count.{Rose, raised};
ghost use Rattle.base_core.specs.PlannedFailures.{kept_at, one_nearer};
ghost use Rattle.base_core.specs.Texts.{bytes_of};
ghost use Rattle.base_core.specs.Contents.{Contents, text_of, Lacks, IsOverLimit, Holds, HoldsPrefix};

use crate::{NoMemory, ReadError, Shelf, WriteError};
use std::alloc::{AllocError, Global};
use std::collections::BTreeMap;

/// A call that is to fail.
#[derive(Clone, Copy, Debug)]
struct PlannedFailure {
    /// Which of the next calls it is: 1 is the next one, and 0 stands for one that is past.
    call: u64,
    /// How many bytes the call leaves, where it is a write.
    kept: usize,
}

/// A shelf in memory, which tells its contents. It can be told to fail.
#[derive(Drop)]
pub struct MemShelf {
    alloc: Global,
    texts: BTreeMap<String, Vec<u8>>,
    planned: Vec<PlannedFailure>,
    failed_reads: u64,
    failed_writes: u64,
}

/// Brings each of the planned failures one call nearer.
fn count_down(planned: &mut [PlannedFailure])
    ensures { planned.new ≡ one_nearer planned.old }
{
    for failure in planned.iter_mut() {
        failure.call = failure.call.saturating_sub(1);
    }
}

/// Whether the next call is to fail, and how many bytes it then leaves.
fn next_failure(planned: &[PlannedFailure]) -> Option<usize>
    ensures { result ≡ kept_at planned.now 1 }
{
    planned
        .iter()
        .rev()
        .find(|failure| failure.call == 1)
        .map(|failure| failure.kept)
}

/// Whether the next call is to fail, and how many bytes it then leaves. The other planned failures come one call nearer.
fn take_failure(planned: &mut [PlannedFailure]) -> Option<usize>
    ensures next { result ≡ kept_at planned.old 1 }
    ensures nearer { planned.new ≡ one_nearer planned.old }
{
    let next = next_failure(planned);
    count_down(planned);
    next
}

/// Makes a name hold these bytes.
fn store(
    alloc: Global,
    texts: &mut BTreeMap<String, Vec<u8>>,
    name: &str,
    bytes: &[u8],
) -> Result<(), AllocError>
    ensures stored { OnOk result (bytes_of texts.new name.now ≡ Some bytes.now) }
    ensures others { (other : List ℕ) → other ≢ name.now → bytes_of texts.new other ≡ bytes_of texts.old other }
    ensures refused { OnErr result (bytes_of texts.new name.now ≡ bytes_of texts.old name.now) }
{
    let key = String::from_str(alloc, name)?;
    let text = Vec::from_slice(alloc, bytes)?;
    texts.insert(key, text)?;
    Ok(())
}

impl MemShelf {
    ghost use Rattle.base_core.specs.MemShelf.{held, planned, failed_reads_of, failed_writes_of};

    /// A shelf without names.
    pub fn new(alloc: Global) -> Self
        ensures names { (name : List ℕ) → held result name ≡ None }
        ensures planned { planned result ≡ [] }
        ensures reads { failed_reads_of result ≡ 0 }
        ensures writes { failed_writes_of result ≡ 0 }
    {
        MemShelf {
            alloc,
            texts: BTreeMap::new(alloc),
            planned: Vec::new(alloc),
            failed_reads: 0,
            failed_writes: 0,
        }
    }

    /// Makes a name hold these bytes. It is no call of the shelf's trait, so it doesn't fail by plan.
    pub fn set(&mut self, name: &str, bytes: &[u8]) -> Result<(), NoMemory>
        ensures stored { OnOk result (held self.new name.now ≡ Some bytes.now) }
        ensures others { (other : List ℕ) → other ≢ name.now → held self.new other ≡ held self.old other }
        ensures refused { OnErr result (held self.new name.now ≡ held self.old name.now) }
        ensures planned { planned self.new ≡ planned self.old }
        ensures reads { failed_reads_of self.new ≡ failed_reads_of self.old }
        ensures writes { failed_writes_of self.new ≡ failed_writes_of self.old }
    {
        match store(self.alloc, &mut self.texts, name, bytes) {
            Ok(()) => Ok(()),
            Err(_) => Err(NoMemory),
        }
    }

    /// Plans that the n-th call of the shelf's trait from now fails, counted from 1. A failing write leaves the first
    /// `kept` bytes, or all if there are fewer. Of several plans for one call the last one counts.
    pub fn fail(&mut self, n: u64, kept: usize) -> Result<(), NoMemory>
        ensures planned { OnOk result (planned self.new ≡ planned self.old ++ record { call = n; kept = kept } ∷ []) }
        ensures refused { OnErr result (planned self.new ≡ planned self.old) }
        ensures names { (name : List ℕ) → held self.new name ≡ held self.old name }
        ensures reads { failed_reads_of self.new ≡ failed_reads_of self.old }
        ensures writes { failed_writes_of self.new ≡ failed_writes_of self.old }
    {
        match self.planned.push(PlannedFailure { call: n, kept }) {
            Ok(()) => Ok(()),
            Err(_) => Err(NoMemory),
        }
    }

    /// The bytes of a name; None exactly where the name is absent.
    pub fn contents(&self, name: &str) -> Option<&[u8]>
        ensures { option_copied result ≡ held self.now name.now }
    {
        match self.texts.get(name) {
            Some(text) => Some(text.as_slice()),
            None => None,
        }
    }

    /// How often a read has failed.
    pub fn failed_reads(&self) -> u64
        ensures { result ≡ failed_reads_of self.now }
    {
        self.failed_reads
    }

    /// How often a write has failed.
    pub fn failed_writes(&self) -> u64
        ensures { result ≡ failed_writes_of self.now }
    {
        self.failed_writes
    }
}

impl Shelf for MemShelf {
    ghost use Rattle.base_core.specs.MemShelf.{held, planned, failed_reads_of, failed_writes_of};

    ghost contents = { λ s. Some (held s) };

    ghost failed_reads = { λ s. s.failed_reads };

    ghost failed_writes = { λ s. s.failed_writes };

    fn read(&mut self, alloc: Global, name: &str, limit: u32) -> Result<Vec<u8>, ReadError>
        ensures found { IfOk result (λ bytes. held self.old name.now ≡ Some bytes.items) }
        ensures within { IfOk result (λ bytes. vec_len bytes ≤ limit) }
        ensures too_long { IsErrOf result ReadError.TooLong → IsOverLimit (Some (held self.old)) name.now limit }
        ensures absent { held self.old name.now ≡ None → IsErrOf result ReadError.Failed ⊎ IsErrOf result ReadError.NoMemory }
        ensures failed { IsErrOf result ReadError.Failed → Rose (failed_reads_of self.old) (failed_reads_of self.new) ⊎ (held self.old name.now ≡ None) }
        ensures later { failed_reads_of self.old ≤ failed_reads_of self.new }
        ensures writes { failed_writes_of self.new ≡ failed_writes_of self.old }
        ensures same { Some (held self.new) ≡ Some (held self.old) }

        // What is planned happens.
        ensures planned { IsSome (kept_at (planned self.old) 1) → IsErrOf result ReadError.Failed }
        ensures nearer { planned self.new ≡ one_nearer (planned self.old) }
        ensures succeeds { OnErr result ((kept_at (planned self.old) 1 ≡ None) → (failed_reads_of self.new ≡ failed_reads_of self.old)) }

        // It doesn't fail but by plan and at an absent name, and what is planned alone is counted.
        ensures unplanned { kept_at (planned self.old) 1 ≡ None → IsErrOf result ReadError.Failed → held self.old name.now ≡ None }
        ensures counted { IsSome (kept_at (planned self.old) 1) → failed_reads_of self.new ≡ raised (failed_reads_of self.old) }
        ensures uncounted { OnOk result (failed_reads_of self.new ≡ failed_reads_of self.old) }
    {
        if take_failure(&mut self.planned).is_some() {
            self.failed_reads = self.failed_reads.saturating_add(1);
            return Err(ReadError::Failed);
        }
        match self.texts.get(name) {
            None => Err(ReadError::Failed),
            Some(text) if text.len() > limit as usize => Err(ReadError::TooLong),
            Some(text) => match Vec::from_slice(alloc, text.as_slice()) {
                Ok(bytes) => Ok(bytes),
                Err(_) => Err(ReadError::NoMemory),
            },
        }
    }

    fn write(&mut self, alloc: Global, name: &str, bytes: &[u8]) -> Result<(), WriteError>
        ensures written { OnOk result (held self.new name.now ≡ Some bytes.now) }
        ensures refused { OnErr result (HoldsPrefix (held self.new name.now) bytes.now ⊎ (held self.new name.now ≡ held self.old name.now)) }
        ensures others { (other : List ℕ) → other ≢ name.now → held self.new other ≡ held self.old other }
        ensures told { is_some (Some (held self.new)) ≡ is_some (Some (held self.old)) }
        ensures failed { IsErrOf result WriteError.Failed → Rose (failed_writes_of self.old) (failed_writes_of self.new) }
        ensures later { failed_writes_of self.old ≤ failed_writes_of self.new }
        ensures reads { failed_reads_of self.new ≡ failed_reads_of self.old }

        // What is planned happens.
        ensures planned { IfSome (kept_at (planned self.old) 1) (λ kept. IsErr result) }
        ensures kept { IsErrOf result WriteError.Failed → IfSome (kept_at (planned self.old) 1) (λ kept. held self.new name.now ≡ Some (take kept bytes.now)) }
        ensures nearer { planned self.new ≡ one_nearer (planned self.old) }
        ensures succeeds { kept_at (planned self.old) 1 ≡ None → OnErr result (IsErrOf result WriteError.NoMemory) }

        // Each failure of the device is counted, and nothing else is.
        ensures counted { IsErrOf result WriteError.Failed → failed_writes_of self.new ≡ raised (failed_writes_of self.old) }
        ensures uncounted { OnOk result (failed_writes_of self.new ≡ failed_writes_of self.old) }
        ensures no_memory { IsErrOf result WriteError.NoMemory → failed_writes_of self.new ≡ failed_writes_of self.old }
    {
        match take_failure(&mut self.planned) {
            Some(kept) => {
                let left = &bytes[..kept.min(bytes.len())];
                match store(alloc, &mut self.texts, name, left) {
                    Ok(()) => {
                        self.failed_writes = self.failed_writes.saturating_add(1);
                        Err(WriteError::Failed)
                    }
                    Err(_) => Err(WriteError::NoMemory),
                }
            }
            None => match store(alloc, &mut self.texts, name, bytes) {
                Ok(()) => Ok(()),
                Err(_) => Err(WriteError::NoMemory),
            },
        }
    }
}

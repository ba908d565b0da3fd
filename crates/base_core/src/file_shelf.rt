ghost use Rattle.std.specs.Prelude.{◌≡◌, ◌≤◌, ◌∷◌, None, vec_len, IfOk};

use crate::{ReadError, Shelf, WriteError};
use std::alloc::Global;
use std::io::Read;
use std::rt::Files;
use std::{fs, io};

/// The shelf of the system's files: a name is a path. It tells no contents, so what the system's files hold is trusted.
#[derive(Drop)]
pub struct FileShelf<'a, R: Files> {
    files: &'a R,
    failed_reads: u64,
    failed_writes: u64,
}

impl<'a, R: Files> FileShelf<'a, R> {
    ghost use Rattle.base_core.specs.FileShelf.{failed_file_reads, failed_file_writes};

    /// The shelf over the files that `main` is given.
    pub fn new(files: &'a R) -> Self
        ensures reads { failed_file_reads result ≡ 0 }
        ensures writes { failed_file_writes result ≡ 0 }
    {
        FileShelf {
            files,
            failed_reads: 0,
            failed_writes: 0,
        }
    }
}

fn read_error(error: &io::Error) -> ReadError {
    match error.kind() {
        io::ErrorKind::OutOfMemory => ReadError::NoMemory,
        _ => ReadError::Failed,
    }
}

/// The bytes of a file, of which there are at most `limit`. No more than one byte past the limit is read.
fn read_file<R: Files>(
    files: &R,
    alloc: Global,
    path: &str,
    limit: u32,
) -> Result<Vec<u8>, ReadError>
    ensures { IfOk result (λ bytes. vec_len bytes ≤ limit) }
{
    let file = match fs::open(files, path) {
        Ok(file) => file,
        Err(error) => return Err(read_error(&error)),
    };
    let mut bytes = Vec::new(alloc);
    match file.take(u64::from(limit) + 1).read_to_end(&mut bytes) {
        Ok(_) if bytes.len() > limit as usize => Err(ReadError::TooLong),
        Ok(_) => Ok(bytes),
        Err(error) => Err(read_error(&error)),
    }
}

impl<'a, R: Files> Shelf for FileShelf<'a, R> {
    ghost contents = { λ _. None };

    ghost failed_reads = { λ s. s.failed_reads };

    ghost failed_writes = { λ s. s.failed_writes };

    fn read(&mut self, alloc: Global, name: &str, limit: u32) -> Result<Vec<u8>, ReadError> {
        match read_file(self.files, alloc, name, limit) {
            Ok(bytes) => Ok(bytes),
            Err(ReadError::Failed) => {
                self.failed_reads = self.failed_reads.saturating_add(1);
                Err(ReadError::Failed)
            }
            Err(error) => Err(error),
        }
    }

    fn write(&mut self, _alloc: Global, name: &str, bytes: &[u8]) -> Result<(), WriteError> {
        match fs::write(self.files, name, bytes) {
            Ok(()) => Ok(()),
            Err(_) => {
                self.failed_writes = self.failed_writes.saturating_add(1);
                Err(WriteError::Failed)
            }
        }
    }
}

ghost use Rattle.std.specs.Prelude.{◌≡◌, ◌≤◌, None, length, IfOk};

use crate::{Failed, Sink};
use std::io;
use std::io::Write;

/// The sink over standard output. It tells nothing of the bytes that it has taken, so that they arrive is trusted.
#[derive(Drop)]
pub struct StdSink<'a, P: Print> {
    out: &'a P,
    faults: u64,
}

impl<'a, P: Print> StdSink<'a, P> {
    ghost use Rattle.base_core.specs.StdSink.{output_faults};

    /// The sink over the standard output that `main` is given.
    pub fn new(out: &'a P) -> Self
        ensures { output_faults result ≡ 0 }
    {
        StdSink { out, faults: 0 }
    }
}

/// Writes the first bytes of a piece and flushes.
fn write_and_flush<P: Print>(out: &P, bytes: &[u8]) -> io::Result<usize>
    ensures { IfOk result (λ n. n ≤ length bytes.now) }
{
    let mut writer = io::writer(out);
    let count = writer.write(bytes)?;
    writer.flush()?;
    Ok(count)
}

impl<'a, P: Print> Sink for StdSink<'a, P> {
    ghost taken = { λ _. None };

    ghost faults = { λ s. s.faults };

    fn put(&mut self, bytes: &[u8]) -> Result<usize, Failed> {
        if bytes.is_empty() {
            return Ok(0);
        }
        match write_and_flush(self.out, bytes) {
            Ok(0) => {
                self.faults = self.faults.saturating_add(1);
                Ok(0)
            }
            Ok(count) => Ok(count),
            Err(_) => {
                self.faults = self.faults.saturating_add(1);
                Err(Failed)
            }
        }
    }
}

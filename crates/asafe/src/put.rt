ghost use Rattle.std.specs.Prelude.{◌≡◌, ◌≤◌, [], OnOk, OnErr};
ghost use Rattle.base_core.specs.Count.{Rose};
ghost use Rattle.base_core.specs.Taken.{appended};
ghost use Rattle.asafe.specs.Printing.{PutsPart};

use base_core::{Failed, Sink};

/// Puts all the bytes. It goes on until they are taken, or a put takes none or fails.
pub(crate) fn put_all<K: Sink>(out: &mut K, bytes: &[u8]) -> Result<(), Failed>
    ensures all { OnOk result (K.taken out.new ≡ appended (K.taken out.old) bytes.now) }
    ensures part { OnErr result (PutsPart (K.taken out.old) (K.taken out.new) bytes.now) }
    ensures failed { OnErr result (Rose (K.faults out.old) (K.faults out.new)) }
    ensures later { K.faults out.old ≤ K.faults out.new }
    ensures idle { bytes.now ≡ [] → out.new ≡ out.old }
{
    let mut rest = bytes;
    while !rest.is_empty() {
        match out.put(rest) {
            Ok(0) => return Err(Failed),
            Ok(count) => {
                let (_, after) = rest.split_at(count);
                rest = after;
            }
            Err(failed) => return Err(failed),
        }
    }
    Ok(())
}

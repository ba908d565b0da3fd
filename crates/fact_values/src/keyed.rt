ghost use Rattle.std.specs.Prelude.{◌≡◌, map, slice_get, IfOk};

use base_core::NoMemory;
use std::alloc::Global;
use std::collections::{BTreeMap, BTreeSet};

/// The keys of a set, in order.
pub(crate) fn keys_of<K: Ord + Copy>(set: &BTreeSet<K>, alloc: Global) -> Result<Vec<K>, NoMemory>
    ensures { IfOk result (λ list. list.items ≡ set.now.keys) }
{
    match set.iter().copied().collect(alloc) {
        Ok(list) => Ok(list),
        Err(_) => Err(NoMemory),
    }
}

/// The keys of a map, in order.
pub(crate) fn map_keys<K: Ord + Copy, V>(
    entries: &BTreeMap<K, V>,
    alloc: Global,
) -> Result<Vec<K>, NoMemory>
    ensures { IfOk result (λ list. list.items ≡ map (λ e. e.0) entries.now.entries) }
{
    match entries.keys().copied().collect(alloc) {
        Ok(list) => Ok(list),
        Err(_) => Err(NoMemory),
    }
}

/// The k-th key of a set, from 0; None exactly from their number on. It takes time like k.
pub(crate) fn key_at<K: Ord + Copy>(set: &BTreeSet<K>, k: usize) -> Option<K>
    ensures { result ≡ slice_get set.now.keys k }
{
    set.iter().nth(k).copied()
}

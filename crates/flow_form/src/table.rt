ghost use Rattle.std.specs.Prelude.{◌≡◌, ℕ, List, None, IfOk, slice_get, option_copied};
ghost use Rattle.flow_form.specs.Positions.{Ways};
ghost use Rattle.flow_form.specs.Table.{phase_number, number, pick, IsIndex};

use crate::edge::Row;
use base_core::{Phase, Pos};
use std::alloc::{AllocError, Global};

fn number_of_phase(phase: Phase) -> usize
    ensures { result ≡ phase_number phase }
{
    match phase {
        Phase::Enter => 0,
        Phase::In0 => 1,
        Phase::In1 => 2,
        Phase::Leave => 3,
        Phase::Finish => 4,
    }
}

/// The number of a position, node by node and phase by phase.
pub(crate) fn number_of(p: Pos) -> usize
    ensures { result ≡ number p }
{
    5 * p.node.0 as usize + number_of_phase(p.phase)
}

fn empty_index(alloc: Global, count: usize) -> Result<Vec<Option<usize>>, AllocError>
    ensures { IfOk result (λ index. (rs : List Ways) (k : ℕ) → pick (slice_get index.items k) rs ≡ None) }
{
    let mut index = Vec::new(alloc);
    for _ in 0..count {
        index.push(None)?;
    }
    Ok(index)
}

/// The places of the rows, by the numbers of their positions. Err also where a row is at a node from the `count`-th on.
pub(crate) fn index_of(
    alloc: Global,
    rows: &[Row],
    count: u32,
) -> Result<Vec<Option<usize>>, AllocError>
    ensures { IfOk result (λ index. IsIndex index.items rows.now) }
{
    let mut index = empty_index(alloc, 5 * count as usize)?;
    let mut i: usize = 0;
    for row in rows {
        let k = number_of(row.source.at);
        if k >= index.len() {
            return Err(AllocError);
        }
        index[k] = Some(i);
        i += 1;
    }
    Ok(index)
}

/// The row that an index has at a number.
pub(crate) fn row_at<'a>(index: &[Option<usize>], rows: &'a [Row], k: usize) -> Option<&'a Row>
    ensures { option_copied result ≡ pick (slice_get index.now k) rows.now }
{
    match index.get(k) {
        Some(Some(j)) => rows.get(*j),
        _ => None,
    }
}

//! Tables of rows, one for each block or each name.

ghost use Rattle.std.specs.Prelude.{◌≡◌, ◌⊎◌, ◌↔◌, ℕ, [], slice_index_or, IfOk, IsTrue, OnOk};
ghost use Rattle.std.specs.List.{Contains};
ghost use Rattle.register_slots.specs.PhiReads.{Grows};

use std::alloc::Global;
use support::{NoMemory, Sequence};

/// `count` empty rows.
pub fn empty_rows(alloc: Global, count: usize) -> Result<Sequence<Sequence<usize>>, NoMemory> {
    let mut rows = Sequence::from_vec(Vec::new(alloc));
    for _row in 0..count {
        rows.push(Sequence::from_vec(Vec::new(alloc)))?;
    }
    Ok(rows)
}

/// The row at an index, and an empty one past the end.
pub fn row_at<'a>(rows: &'a [Sequence<usize>], at: usize) -> &'a [usize]
    ensures { result.now ≡ slice_index_or rows.now at [] }
{
    match rows.get(at) {
        Some(row) => row.as_slice(),
        None => &[],
    }
}

/// Adds an item to the end of a row, unless it is the last one there; false where there is no such row.
pub fn push_at(
    rows: &mut Sequence<Sequence<usize>>,
    at: usize,
    item: usize,
) -> Result<bool, NoMemory>
    ensures grows { OnOk result (Grows rows.old rows.new) }
    ensures added { IfOk result (λ added. IsTrue added → Contains (slice_index_or rows.new at []) item) }
{
    if at >= rows.len() {
        return Ok(false);
    }
    push_new(rows.get_mut(at), item)?;
    Ok(true)
}

fn push_new(row: &mut Sequence<usize>, item: usize) -> Result<(), NoMemory>
    ensures { OnOk result ((other : ℕ) → Contains row.new other ↔ (Contains row.old other ⊎ (other ≡ item))) }
{
    let count = row.len();
    if count > 0 && *row.get(count - 1) == item {
        return Ok(());
    }
    row.push(item)
}

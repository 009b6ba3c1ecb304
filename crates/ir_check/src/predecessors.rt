//! The blocks that may be left for a block.

ghost use Rattle.std.specs.Prelude.{◌≡◌, ◌⊎◌, ◌↔◌, ◌<◌, ℕ, [], length, replicate, slice_index_or, IfOk, OnOk};
ghost use Rattle.std.specs.List.{All, Contains};
ghost use Rattle.ir_tree.specs.Sites.{AreNumbered};
ghost use Rattle.ir_check.specs.Marks.{ArePredecessors};

use ir_tree::{Function, targets_of};
use std::alloc::Global;
use support::{NoMemory, Sequence};

/// For each name of a function, by its number, the labels of the blocks that may be left for the
/// block of that label.
pub fn predecessors_of(alloc: Global, f: &Function) -> Result<Sequence<Sequence<usize>>, NoMemory>
    requires numbered { AreNumbered f.now }
    ensures len { IfOk result (λ table. length table ≡ length f.now.names) }
    ensures each { IfOk result (λ table. ArePredecessors f.now.blocks table) }
{
    let mut table = empty_lists(alloc, f.names.len())?;
    for block in f.blocks.as_slice() {
        let targets = targets_of(alloc, &block.terminator)?;
        add_predecessor(&mut table, block.label, targets.as_slice())?;
    }
    Ok(table)
}

fn empty_lists(alloc: Global, count: usize) -> Result<Sequence<Sequence<usize>>, NoMemory>
    ensures { IfOk result (λ lists. lists ≡ replicate count []) }
{
    let mut lists = Sequence::from_vec(Vec::new(alloc));
    for _list in 0..count {
        lists.push(Sequence::from_vec(Vec::new(alloc)))?;
    }
    Ok(lists)
}

// Puts a label into the list of each of its block's targets.
fn add_predecessor(
    table: &mut Sequence<Sequence<usize>>,
    label: usize,
    targets: &[usize],
) -> Result<(), NoMemory>
    requires within { All (λ target. target < length table.old) targets.now }
    ensures len { OnOk result (length table.new ≡ length table.old) }
    ensures added { OnOk result ((next other : ℕ) → Contains (slice_index_or table.new next []) other ↔ (Contains (slice_index_or table.old next []) other ⊎ ((other ≡ label) × Contains targets.now next))) }
{
    for target in targets {
        push_new(table.get_mut(*target), label)?;
    }
    Ok(())
}

// Puts a label after others where it isn't the last of them: a block's targets come one after
// another.
fn push_new(labels: &mut Sequence<usize>, label: usize) -> Result<(), NoMemory>
    ensures { OnOk result ((other : ℕ) → Contains labels.new other ↔ (Contains labels.old other ⊎ (other ≡ label))) }
{
    let count = labels.len();
    if count > 0 && *labels.get(count - 1) == label {
        return Ok(());
    }
    labels.push(label)
}

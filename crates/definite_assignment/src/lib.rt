//! Which names every path from the entry of a graph of blocks assigns before it reaches a block.
//!
//! It promises that [`assigned_before`] keeps a name for a block exactly where each path to the
//! block assigns the name in a block that it leaves, and that otherwise some path doesn't: the
//! ground for "a definition must dominate its uses" (LLVM Language Reference, "Well-Formedness"),
//! where several blocks may assign. It knows blocks and names only as numbers. It uses
//! `block_paths` and `support`; `assigned_names`, which checks the uses of a function, uses it.
#![tactic(auto)]

ghost use Rattle.std.specs.Prelude.{◌≡◌, ◌<◌, ◌↔◌, ℕ, List, false, length, IfOk, IsTrue};
ghost use Rattle.std.specs.List.{All};
ghost use Rattle.ir_tree.specs.Paths.{IsAssignedBefore, IsUnassignedBefore};
ghost use Rattle.definite_assignment.specs.Sets.{AreRoomy, has};

mod name_columns;
mod name_set;
mod name_sets;
mod visiting_order;
mod words;
mod work;

use name_columns::{assigned_names, number_columns, renamed_all};
use name_set::NameSet;
pub use name_sets::NameSets;
use std::alloc::Global;
use support::{NoMemory, Sequence};
use visiting_order::visiting_order;
use work::Work;

/// For each block of a graph, the names that every path from block 0 to it assigns in a block that it
/// leaves. `successors` has the successors of each block, `assigns` the names that each assigns, all
/// below `names`. A block that no path reaches has every name. A name that a block's set lacks is
/// missed by some path to it.
///
/// A visit passes one block's names on to its successors, and costs a word for each 64 names that some
/// block assigns, and for each successor; a block is visited again only when its set became smaller. A
/// pass visits blocks in reverse postorder (Cooper, Harvey, Kennedy, "A Simple, Fast Dominance Algorithm",
/// 2001), so that a graph without cycles takes one pass, and one with loops about one more for each depth
/// of nesting (Kam and Ullman, "Global Data Flow Analysis and Iterative Algorithms", 1976). The order has
/// no part in what is returned: passes end when no block waits.
///
/// # Errors
/// Only out of memory.
pub fn assigned_before(
    alloc: Global,
    successors: &[Sequence<usize>],
    assigns: &[Sequence<usize>],
    names: usize,
) -> Result<NameSets, NoMemory>
    requires alike { length successors.now ≡ length assigns.now }
    requires within { All (All (λ next. next < length successors.now)) successors.now }
    requires names { All (All (λ name. name < names)) assigns.now }
    ensures room { IfOk result (λ sets. AreRoomy sets (length successors.now) names) }
    ensures exact { IfOk result (λ sets. (block name : ℕ) → block < length successors.now → name < names → IsTrue (has sets block name) ↔ IsAssignedBefore successors.now assigns.now block name) }
    ensures missed { IfOk result (λ sets. (block name : ℕ) → block < length successors.now → name < names → has sets block name ≡ false → IsUnassignedBefore successors.now assigns.now block name) }
{
    let is_assigned = assigned_names(alloc, assigns, names)?;
    let columns = number_columns(alloc, &is_assigned)?;
    let assigns = renamed_all(alloc, &columns.of_name, assigns)?;
    let sets = fixpoint(alloc, successors, &assigns, columns.count)?;
    Ok(NameSets::new(sets, columns.of_name))
}

/// The same, with a bit in each set for each name: the greatest sets of which none is cut by the
/// names that leave a block before it.
fn fixpoint(
    alloc: Global,
    successors: &[Sequence<usize>],
    assigns: &[Sequence<usize>],
    names: usize,
) -> Result<Sequence<NameSet>, NoMemory>
    requires alike { length successors.now ≡ length assigns.now }
    requires within { All (All (λ next. next < length successors.now)) successors.now }
    requires names { All (All (λ name. name < names)) assigns.now }
    ensures room { IfOk result (λ sets. AreRoomy sets (length successors.now) names) }
    ensures exact { IfOk result (λ sets. (block name : ℕ) → block < length successors.now → name < names → IsTrue (has sets block name) ↔ IsAssignedBefore successors.now assigns.now block name) }
    ensures missed { IfOk result (λ sets. (block name : ℕ) → block < length successors.now → name < names → has sets block name ≡ false → IsUnassignedBefore successors.now assigns.now block name) }
{
    if successors.is_empty() {
        return Ok(Sequence::from_vec(Vec::new(alloc)));
    }
    let order = visiting_order(alloc, successors)?;
    let mut work = Work::start(alloc, successors.len(), names)?;
    let mut leaving = NameSet::none(alloc, names)?;
    while work.pass(&order, successors, assigns, &mut leaving) {}
    Ok(work.sets)
}

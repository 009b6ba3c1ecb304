//! Which steps of a log its last step needs.

ghost use Rattle.std.specs.Prelude.{◌≡◌, ◌<◌, ◌∷◌, [], ℕ, IfOk, length};
ghost use Rattle.log_tidy.specs.Marks.{AreMarked, IsBelow, IsMarking};

use clause_log::Step;
use std::alloc::Global;
use support::{NoMemory, Sequence};

/// Marks the step of a number, if it is one: `count` clauses are numbered before the steps.
fn mark_number(used: &mut Sequence<bool>, count: u64, number: u64)
    ensures { IsMarking count (number ∷ []) used.old used.new }
{
    if number > count {
        let index = (number - count - 1) as usize;
        if index < used.len() {
            used.set(index, true);
        }
    }
}

/// Marks the steps of a chain.
fn mark(used: &mut Sequence<bool>, count: u64, chain: &[u64])
    ensures { IsMarking count chain.now used.old used.new }
{
    for number in chain {
        mark_number(used, count, *number);
    }
}

/// Marks the last step, each step of a marked step's chain, and no other.
pub fn marks(alloc: Global, count: u64, log: &[Step]) -> Result<Sequence<bool>, NoMemory>
    requires some { 0 < length log.now }
    requires sound { (i : ℕ) → i < length log.now → IsBelow count log.now i }
    ensures { IfOk result (AreMarked count log.now 0) }
{
    let mut flags = Vec::new(alloc);
    flags.resize(log.len(), false)?;
    let mut used = Sequence::from_vec(flags);
    used.set(log.len() - 1, true);
    for index in (0..log.len()).rev() {
        if *used.get(index) {
            mark(&mut used, count, log[index].chain.as_slice());
        }
    }
    Ok(used)
}

//! New numbers for the clauses of a chain.

ghost use Rattle.std.specs.Prelude.{◌≡◌, IfOk, map};
ghost use Rattle.log_tidy.specs.Numbers as spec;

use clause_log::Step;
use std::alloc::Global;
use support::{NoMemory, Sequence};

/// The new number of a clause. The first `count` clauses keep theirs, and the steps after them have
/// those of a table.
pub fn new_number(count: u64, numbers: &[u64], number: u64) -> u64
    ensures { result ≡ spec.new_number count numbers.now number }
{
    if number <= count {
        return number;
    }
    let index = (number - count - 1) as usize;
    if index < numbers.len() {
        numbers[index]
    } else {
        0
    }
}

/// A chain by the new numbers.
fn renumbered_chain(
    alloc: Global,
    count: u64,
    numbers: &[u64],
    chain: &[u64],
) -> Result<Sequence<u64>, NoMemory>
    ensures { IfOk result (λ r. r ≡ map (spec.new_number count numbers.now) chain.now) }
{
    let mut renumbered = Sequence::from_vec(Vec::new(alloc));
    for number in chain {
        renumbered.push(new_number(count, numbers, *number))?;
    }
    Ok(renumbered)
}

/// The step by new numbers.
pub fn renumbered_step(
    alloc: Global,
    count: u64,
    numbers: &[u64],
    step: &Step,
) -> Result<Step, NoMemory>
    ensures { IfOk result (λ r. r ≡ spec.renumbered_step count numbers.now step.now) }
{
    Ok(Step {
        chain: renumbered_chain(alloc, count, numbers, step.chain.as_slice())?,
        clause: step.clause.duplicate(alloc)?,
    })
}

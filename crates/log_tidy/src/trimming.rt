//! A log without the steps that it doesn't need.

ghost use Rattle.std.specs.Prelude.{◌≡◌, ◌≤◌, IfOk, length};
ghost use Rattle.clause_log.specs.Refutation.{Refutes};
ghost use Rattle.clause_search.specs.Outcome.{IsCareful};
ghost use Rattle.log_tidy.specs.Marks.{AreMarked};
ghost use Rattle.log_tidy.specs.Trimmed.{IsTrimmed};
ghost use Rattle.log_tidy.specs.Used.{AreUsed};

use crate::marking::marks;
use crate::numbering::renumbered_step;
use clause_lits::Clause;
use clause_log::{Log, Step};
use std::alloc::Global;
use support::{NoMemory, Sequence};

/// The log without the steps that no later step uses, its chains renumbered. The time is linear in
/// the log.
pub fn trim(alloc: Global, clauses: &[Clause], log: Log) -> Result<Log, NoMemory>
    requires { Refutes clauses.now log }
    ensures refutes { IfOk result (Refutes clauses.now) }
    ensures careful { IsCareful clauses.now log → IfOk result (IsCareful clauses.now) }
    ensures used { IfOk result (AreUsed clauses.now) }
    ensures shorter { IfOk result (λ r. length r ≤ length log) }
{
    let count = clauses.len() as u64;
    let used = marks(alloc, count, log.as_slice())?;
    marked_steps(alloc, clauses, &used, log.as_slice())
}

/// The marked steps, their chains renumbered.
fn marked_steps(
    alloc: Global,
    clauses: &[Clause],
    used: &Sequence<bool>,
    log: &[Step],
) -> Result<Log, NoMemory>
    requires refutes { Refutes clauses.now log.now }
    requires marked { AreMarked (length clauses.now) log.now 0 used.now }
    ensures { IfOk result (IsTrimmed clauses.now log.now) }
{
    let count = clauses.len() as u64;
    let mut numbers: Vec<u64> = Vec::new(alloc);
    let mut kept: Log = Sequence::from_vec(Vec::new(alloc));
    for (index, step) in log.iter().enumerate() {
        if *used.get(index) {
            kept.push(renumbered_step(alloc, count, &numbers, step)?)?;
        }
        numbers.push(count + kept.len() as u64)?;
    }
    Ok(kept)
}

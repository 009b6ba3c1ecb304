//! A careful log of one that isn't.

ghost use Rattle.std.specs.Prelude.{◌≡◌, [], Some, IfOk};
ghost use Rattle.clause_log.specs.Chain as spec;
ghost use Rattle.clause_log.specs.Members.{Has};
ghost use Rattle.clause_log.specs.Refutation.{Refutes};
ghost use Rattle.clause_search.specs.Outcome.{IsCareful};
ghost use Rattle.clause_search.specs.Searching.{standing};
ghost use Rattle.log_tidy.specs.Indexed.{IsIndexed};
ghost use Rattle.log_tidy.specs.Tidied.{AreStanding, IsAdded, IsEmptyAt, RefutesCarefully};
ghost use Rattle.log_tidy.specs.Used.{AreUsed};

use crate::index::Index;
use crate::linking::{alone, derived};
use crate::trimming::trim;
use clause_lits::Clause;
use clause_log::{Log, Step};
use std::alloc::Global;
use support::{NoMemory, Sequence};

/// A careful log of sound steps that end in the empty clause. A search that forgets clauses may
/// learn one again, or a weaker one: such a step is left out, and the steps whose chains name
/// it are resolved again from the clause that lies within it.
pub fn tidy(alloc: Global, clauses: &[Clause], log: Log) -> Result<Log, NoMemory>
    requires { Refutes clauses.now log }
    ensures refutes { IfOk result (Refutes clauses.now) }
    ensures careful { IfOk result (IsCareful clauses.now) }
    ensures used { IfOk result (AreUsed clauses.now) }
{
    let used = trim(alloc, clauses, log)?;
    let careful = resolved_again(alloc, clauses, used.as_slice())?;
    trim(alloc, clauses, careful)
}

/// The steps resolved again; or one step, if there is an empty clause.
fn resolved_again(alloc: Global, clauses: &[Clause], log: &[Step]) -> Result<Log, NoMemory>
    requires { Refutes clauses.now log.now }
    ensures { IfOk result (RefutesCarefully clauses.now) }
{
    match empty_clause(clauses) {
        Some(index) => {
            let mut kept = Sequence::from_vec(Vec::new(alloc));
            kept.push(alone(alloc, &clauses[index], index as u64 + 1)?)?;
            Ok(kept)
        }
        None => rederived(alloc, clauses, log),
    }
}

/// The index of an empty clause, if there is one.
fn empty_clause(clauses: &[Clause]) -> Option<usize>
    ensures { IsEmptyAt clauses.now result }
{
    for (index, clause) in clauses.iter().enumerate() {
        if clause.is_empty() {
            return Some(index);
        }
    }
    None
}

/// The index of the clauses, with room for this number of steps.
fn indexed(alloc: Global, clauses: &[Clause], steps: usize) -> Result<Index, NoMemory>
    requires { Has clauses.now [] → ⊥ }
    ensures { IfOk result (IsIndexed clauses.now) }
{
    let size = clauses.len().checked_add(steps).ok_or(NoMemory)?;
    if size >= MOST_SLOTS {
        return Err(NoMemory);
    }
    let mut index = Index::new(alloc, size + 1)?;
    for (place, clause) in clauses.iter().enumerate() {
        index.add(place as u64 + 1, clause)?;
    }
    Ok(index)
}

/// This number of clauses can't be stored.
const MOST_SLOTS: usize = 1 << 62;

/// Adds a step, if no earlier clause lies within its clause; the number of the one that does.
fn add(clauses: &[Clause], kept: &mut Log, index: &mut Index, step: Step) -> Result<u64, NoMemory>
    requires stands { AreStanding clauses.now kept.old index.old }
    requires sound { spec.chain_resolvent (standing clauses.now kept.old) step.chain ≡ Some step.clause }
    requires some { step.clause ≡ [] → ⊥ }
    ensures { IfOk result (IsAdded clauses.now kept.old kept.new index.new step.clause) }
{
    if let Some(number) = index.find(clauses, kept.as_slice(), &step.clause) {
        return Ok(number);
    }
    let number = clauses.len() as u64 + kept.len() as u64 + 1;
    index.add(number, &step.clause)?;
    kept.push(step)?;
    Ok(number)
}

/// The steps resolved again, each from what its clauses became, up to the first empty one.
fn rederived(alloc: Global, clauses: &[Clause], log: &[Step]) -> Result<Log, NoMemory>
    requires refutes { Refutes clauses.now log.now }
    requires some { Has clauses.now [] → ⊥ }
    ensures { IfOk result (RefutesCarefully clauses.now) }
{
    let mut kept: Log = Sequence::from_vec(Vec::new(alloc));
    let mut numbers: Vec<u64> = Vec::new(alloc);
    let mut index = indexed(alloc, clauses, log.len())?;
    for (place, step) in log.iter().enumerate() {
        let new = derived(
            alloc,
            clauses,
            &log[..place],
            kept.as_slice(),
            &numbers,
            step,
        )?;
        if new.clause.is_empty() {
            kept.push(new)?;
            return Ok(kept);
        }
        let number = add(clauses, &mut kept, &mut index, new)?;
        numbers.push(number)?;
    }
    unreachable!()
}

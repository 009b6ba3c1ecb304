//! The empty clause.

ghost use Rattle.std.specs.Prelude.{IfOk, length, []};
ghost use Rattle.clause_search.specs.Trail.{IsTrail};
ghost use Rattle.clause_search.specs.Findings.{IsFalseAt};
ghost use Rattle.clause_search.specs.Assigning.{AreImplied};
ghost use Rattle.clause_search.specs.Searching.{IsEmptyStep, standing};

use crate::looking::has;
use crate::trail::Trail;
use clause_lits::Clause;
use clause_log::{Step, clause_numbered, resolve};
use std::alloc::Global;
use support::{NoMemory, Sequence};

/// The step of the empty clause, from a conflict with no decision.
pub fn refute(
    alloc: Global,
    variables: u64,
    clauses: &[Clause],
    log: &[Step],
    trail: &Trail,
    number: u64,
) -> Result<Step, NoMemory>
    requires trail { IsTrail variables (standing clauses.now log.now) [] trail.now }
    requires conflict { IsFalseAt (standing clauses.now log.now) trail.now number }
    requires implied { AreImplied trail.now 0 (length trail.now) }
    ensures { IfOk result (IsEmptyStep (standing clauses.now log.now)) }
{
    let Some(start) = clause_numbered(clauses, log, number) else {
        unreachable!()
    };
    let mut chain = Sequence::from_vec(Vec::new(alloc));
    chain.push(number)?;
    let mut clause = start.duplicate(alloc)?;
    let mut place = trail.len();
    'back: while place > 0 {
        place -= 1;
        let entry = trail.get(place);
        if !has(&clause, entry.literal.opposite()) {
            continue 'back;
        }
        let Some(reason) = clause_numbered(clauses, log, entry.reason) else {
            unreachable!()
        };
        let Some(next) = resolve(alloc, &clause, reason)? else {
            unreachable!()
        };
        clause = next;
        chain.push(entry.reason)?;
    }
    Ok(Step { chain, clause })
}

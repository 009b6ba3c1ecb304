//! The first look at the clauses.

ghost use Rattle.std.specs.Prelude.{◌≡◌, ◌<◌, IfOk, Some, length, slice_get};
ghost use Rattle.clause_search.specs.Searching.{AreInRange};
ghost use Rattle.watch_solver.specs.Starts.{IsLookedAt, IsStart, IsStarted};

use crate::code::Code;
use crate::watches::{Pair, Watches};
use clause_lits::Clause;
use clause_search::{Entry, Trail};
use std::alloc::Global;
use support::NoMemory;

/// The state of the clauses before any decision.
#[derive(Drop)]
pub struct Start {
    /// The literals of the unit clauses, each once.
    pub trail: Trail,
    /// The first two literals of each clause that has two.
    pub watches: Watches,
    /// The number of a clause that is false, if there is one.
    pub conflict: Option<u64>,
}

/// Looks at a clause: its first two literals are watched, or its one literal is put on the trail.
/// The answer is whether it is false.
fn add_clause(
    variables: u64,
    clauses: &[Clause],
    index: usize,
    clause: &Clause,
    watches: &mut Watches,
    trail: &mut Trail,
) -> Result<bool, NoMemory>
    requires variables { variables < 2147483648 }
    requires count { length clauses.now < 4294967296 }
    requires started { IsStarted variables clauses.now index watches.old.pairs.items watches.old.lists.items trail.old }
    requires clause { slice_get clauses.now index ≡ Some clause.now }
    ensures { IfOk result (IsLookedAt variables clauses.now index watches.new.pairs.items watches.new.lists.items trail.new) }
{
    match clause.literals() {
        [] => Ok(true),
        [only] => {
            watches.add_none(Code::of(*only))?;
            if trail.stands(only.opposite()) {
                return Ok(true);
            }
            if trail.stands(*only) {
                return Ok(false);
            }
            trail.push(Entry {
                literal: *only,
                reason: index as u64 + 1,
            })?;
            Ok(false)
        }
        [first, second, ..] => {
            watches.add_pair(Pair {
                first: Code::of(*first),
                second: Code::of(*second),
            })?;
            Ok(false)
        }
    }
}

/// Looks at each clause once.
pub fn begin(alloc: Global, variables: u64, clauses: &[Clause]) -> Result<Start, NoMemory>
    requires variables { variables < 2147483648 }
    requires count { length clauses.now < 4294967296 }
    requires in_range { AreInRange variables clauses.now }
    ensures { IfOk result (IsStart variables clauses.now) }
{
    let mut trail = Trail::new(alloc);
    let mut watches = Watches::new(alloc, variables)?;
    for (index, clause) in clauses.iter().enumerate() {
        if add_clause(variables, clauses, index, clause, &mut watches, &mut trail)? {
            return Ok(Start {
                trail,
                watches,
                conflict: Some(index as u64 + 1),
            });
        }
    }
    Ok(Start {
        trail,
        watches,
        conflict: None,
    })
}

//! Unit propagation by watched literals.

ghost use Rattle.std.specs.Prelude.{◌≡◌, ◌<◌, ◌≤◌, ◌+◌, IfOk, OnOk, Some, length, slice_get, take};
ghost use Rattle.clause_search.specs.Ending.{left_of};
ghost use Rattle.clause_search.specs.Searching.{IsSearch, standing};
ghost use Rattle.clause_search.specs.Trail.{IsFalse};
ghost use Rattle.clause_lits.specs.Meaning.{opposite_of};
ghost use Rattle.watch_solver.specs.Codes.{lit_of};
ghost use Rattle.watch_solver.specs.Kept.{AreKept};
ghost use Rattle.watch_solver.specs.Walks.{IsPropagated, IsWatched};

use crate::code::Code;
use crate::verdict::{Verdict, look_at};
use crate::watches::{Watch, Watches};
use clause_lits::Clause;
use clause_log::Step;
use clause_search::{Entry, Trail};
use support::NoMemory;

/// Looks at the clauses that watch the literal that the entry at `done` made false, and puts what
/// they imply on the trail. The answer is the number of a clause that is false, if there is one.
fn visit(
    variables: u64,
    clauses: &[Clause],
    log: &[Step],
    watches: &mut Watches,
    trail: &mut Trail,
    done: usize,
) -> Result<Option<u64>, NoMemory>
    requires variables { variables < 2147483648 }
    requires search { IsSearch variables clauses.now log.now trail.old }
    requires watched { IsWatched variables (standing clauses.now log.now) watches.old.pairs.items watches.old.lists.items trail.old }
    requires kept { AreKept (standing clauses.now log.now) watches.old.pairs.items (take done trail.old) trail.old }
    requires within { done < length trail.old }
    ensures search { OnOk result (IsSearch variables clauses.now log.now trail.new) }
    ensures watched { OnOk result (IsWatched variables (standing clauses.now log.now) watches.new.pairs.items watches.new.lists.items trail.new) }
    ensures kept { IfOk result (IsPropagated (standing clauses.now log.now) watches.new.pairs.items trail.new (done + 1)) }
    ensures within { OnOk result (done < length trail.new) }
    ensures left { OnOk result (left_of variables trail.new ≤ left_of variables trail.old) }
{
    let falsified = Code::of(trail.get(done).literal.opposite());
    let mut place = 0;
    'walk: while let Some(watch) = watches.get(falsified, place) {
        match look_at(
            variables,
            clauses,
            log,
            watches.pairs.as_slice(),
            trail,
            falsified,
            watch,
        ) {
            Verdict::True(blocker) => {
                let clause = watch.clause;
                watches.set(falsified, place, Watch { clause, blocker });
                place += 1;
            }
            Verdict::Elsewhere => {
                watches.remove(falsified, place);
            }
            Verdict::Move(pair) => {
                watches.watch_pair(watch.clause, pair)?;
                watches.remove(falsified, place);
            }
            Verdict::Unit(literal) => {
                let reason = u64::from(watch.clause) + 1;
                trail.push(Entry { literal, reason })?;
                place += 1;
            }
            Verdict::False => return Ok(Some(u64::from(watch.clause) + 1)),
        }
    }
    Ok(None)
}

/// Puts what the clauses imply on the trail, until nothing more is implied or a clause is false,
/// whose number is the answer. The entries before `done` are those that were looked at before.
pub fn propagate(
    variables: u64,
    clauses: &[Clause],
    log: &[Step],
    watches: &mut Watches,
    trail: &mut Trail,
    done: usize,
) -> Result<Option<u64>, NoMemory>
    requires variables { variables < 2147483648 }
    requires search { IsSearch variables clauses.now log.now trail.old }
    requires watched { IsWatched variables (standing clauses.now log.now) watches.old.pairs.items watches.old.lists.items trail.old }
    requires kept { AreKept (standing clauses.now log.now) watches.old.pairs.items (take done trail.old) trail.old }
    ensures search { OnOk result (IsSearch variables clauses.now log.now trail.new) }
    ensures watched { OnOk result (IsWatched variables (standing clauses.now log.now) watches.new.pairs.items watches.new.lists.items trail.new) }
    ensures kept { IfOk result (IsPropagated (standing clauses.now log.now) watches.new.pairs.items trail.new (length trail.new)) }
    ensures left { OnOk result (left_of variables trail.new ≤ left_of variables trail.old) }
{
    let mut next = done;
    'queue: while next < trail.len() {
        if let Some(number) = visit(variables, clauses, log, watches, trail, next)? {
            return Ok(Some(number));
        }
        next += 1;
    }
    Ok(None)
}

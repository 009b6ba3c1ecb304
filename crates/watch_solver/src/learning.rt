//! What is done with a learned clause.

ghost use Rattle.std.specs.Prelude.{ℕ, ◌<◌, ◌≤◌, ◌+◌, ◌++◌, ◌∷◌, [], IfOk, List, OnOk, length, take};
ghost use Rattle.clause_lits.specs.declared.lit.Lit.{Lit};
ghost use Rattle.clause_log.specs.Members.{Has};
ghost use Rattle.clause_search.specs.Ending.{left_of};
ghost use Rattle.clause_search.specs.Learning.{IsLastDecision, IsLearned};
ghost use Rattle.clause_search.specs.Trail.{IsUnassigned, IsUnready};
ghost use Rattle.clause_search.specs.Searching.{IsSearch, standing};
ghost use Rattle.watch_solver.specs.Kept.{AreKept, AreLinked};
ghost use Rattle.watch_solver.specs.Walks.{IsAdded, IsRoomy, IsWatched};

use crate::code::Code;
use crate::free::free_literal;
use crate::watches::{Pair, Watches};
use clause_lits::{Clause, Lit};
use clause_log::{Log, Step};
use clause_search::{Entry, Learned, Trail, jump};
use support::NoMemory;

/// Has a learned clause watch its asserting literal and, if there is one, another one that isn't
/// false at any decision before the position.
fn watch_learned(
    watches: &mut Watches,
    trail: &Trail,
    place: usize,
    clause: &Clause,
    literal: Lit,
) -> Result<(), NoMemory>
    requires count { length watches.old.pairs.items < 4294967296 }
    requires room { IsRoomy watches.old.lists.items clause.now }
    requires has { Has clause.now literal }
    requires within { place ≤ length trail.now }
    requires fresh { IsUnassigned (take place trail.now) literal.variable }
    requires unready { IsUnready clause.now literal [] (take place trail.now) }
    ensures linked { OnOk result ((n : ℕ) (all : List (List Lit)) → AreLinked n all watches.old.pairs.items watches.old.lists.items → AreLinked n (all ++ clause.now ∷ []) watches.new.pairs.items watches.new.lists.items) }
    ensures added { OnOk result (IsAdded trail.now place clause.now watches.old.pairs.items watches.new.pairs.items) }
{
    let last = trail.decision_before(place).unwrap_or(0);
    let first = Code::of(literal);
    match free_literal(trail, last, clause, literal, 0) {
        Some(other) => {
            let second = Code::of(other);
            watches.add_pair(Pair { first, second })
        }
        None => watches.add_none(first),
    }
}

/// Adds the step of a learned clause, jumps back to the first decision at which all its literals
/// but one are false, and assigns that one there. The answer is that position, from which
/// propagation goes on.
pub fn learn(
    variables: u64,
    clauses: &[Clause],
    log: &mut Log,
    watches: &mut Watches,
    trail: &mut Trail,
    learned: Learned,
    low: usize,
) -> Result<usize, NoMemory>
    requires variables { variables < 2147483648 }
    requires count { length clauses.now + length log.old < 4294967296 }
    requires search { IsSearch variables clauses.now log.old trail.old }
    requires watched { IsWatched variables (standing clauses.now log.old) watches.old.pairs.items watches.old.lists.items trail.old }
    requires learned { IsLearned variables (standing clauses.now log.old) trail.old low learned }
    requires last { IsLastDecision trail.old low }
    ensures search { OnOk result (IsSearch variables clauses.now log.new trail.new) }
    ensures watched { OnOk result (IsWatched variables (standing clauses.now log.new) watches.new.pairs.items watches.new.lists.items trail.new) }
    ensures kept { IfOk result (λ done. AreKept (standing clauses.now log.new) watches.new.pairs.items (take done trail.new) trail.new) }
    ensures falls { OnOk result (left_of variables trail.new < left_of variables trail.old) }
{
    let Learned {
        chain,
        clause,
        literal,
    } = learned;
    let place = jump(trail, &clause, literal, low);
    watch_learned(watches, trail, place, &clause, literal)?;
    let reason = (clauses.len() + log.len()) as u64 + 1;
    trail.truncate(place);
    log.push(Step { chain, clause })?;
    trail.push(Entry { literal, reason })?;
    Ok(place)
}

//! The first clause that isn't settled.

ghost use Rattle.std.specs.Prelude.{◌≤◌};
ghost use Rattle.clause_search.specs.Findings.{IsFound, IsFoundBetween};
ghost use Rattle.clause_search.specs.Searching.{standing};
ghost use Rattle.clause_search.specs.Trail.{IsConsistent};

use clause_lits::Clause;
use clause_log::{Step, clause_numbered};
use clause_search::{Found, Look, Trail, look_at};

/// The first clause that isn't settled, from an index on and then from the start. A search that
/// goes on from the last unit propagates along a circuit in one pass.
pub fn find(clauses: &[Clause], log: &[Step], trail: &Trail, first: usize) -> Found
    requires { IsConsistent trail.now }
    ensures { IsFound (standing clauses.now log.now) trail.now result }
{
    let count = clauses.len() + log.len();
    let first = first.min(count);
    match find_between(clauses, log, trail, first, count) {
        Found::Nothing => find_between(clauses, log, trail, 0, first),
        Found::Unit(number, literal) => Found::Unit(number, literal),
        Found::Conflict(number) => Found::Conflict(number),
    }
}

/// The first clause that isn't settled, from one index up to another.
fn find_between(clauses: &[Clause], log: &[Step], trail: &Trail, from: usize, to: usize) -> Found
    requires consistent { IsConsistent trail.now }
    requires order { from ≤ to }
    ensures { IsFoundBetween (standing clauses.now log.now) trail.now from to result }
{
    for place in from..to {
        let number = place as u64 + 1;
        if let Some(clause) = clause_numbered(clauses, log, number) {
            match look_at(clause, trail) {
                Look::Settled => {}
                Look::Unit(literal) => return Found::Unit(number, literal),
                Look::False => return Found::Conflict(number),
            }
        }
    }
    Found::Nothing
}

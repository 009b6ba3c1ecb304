//! What becomes of a clause one of whose watched literals became false.

ghost use Rattle.std.specs.Prelude.{◌≡◌, ◌<◌, ◌≤◌, length};
ghost use Rattle.clause_search.specs.Searching.{AreInRange, standing};
ghost use Rattle.clause_search.specs.Trail.{IsConsistent, IsFalse};
ghost use Rattle.watch_solver.specs.Codes.{lit_of};
ghost use Rattle.watch_solver.specs.Kept.{IsWatch};
ghost use Rattle.watch_solver.specs.Verdicts.{IsOther, IsVerdict};

use crate::code::Code;
use crate::free::free_literal;
use crate::watches::{Pair, Watch};
use clause_lits::{Clause, Lit};
use clause_log::{Step, clause_numbered};
use clause_search::Trail;

/// What becomes of a clause one of whose watched literals became false.
#[derive(Clone, Copy, PartialEq, Eq, Debug)]
pub enum Verdict {
    /// This literal of it is true.
    True(Code),
    /// It doesn't watch the literal.
    Elsewhere,
    /// It can watch these two, the first of which isn't false.
    Move(Pair),
    /// All its literals but this one are false, and it isn't assigned.
    Unit(Lit),
    /// All its literals are false.
    False,
}

/// The other literal of the pair, if this is one of the two.
fn other_of(pair: Pair, code: Code) -> Option<Code>
    ensures { IsOther pair (lit_of code) result }
{
    if pair.first.is_same(code) {
        Some(pair.second)
    } else if pair.second.is_same(code) {
        Some(pair.first)
    } else {
        None
    }
}

/// What becomes of the clause of a watch of a literal that is false. The pairs are those of all
/// clauses.
pub fn look_at(
    variables: u64,
    clauses: &[Clause],
    log: &[Step],
    pairs: &[Pair],
    trail: &Trail,
    falsified: Code,
    watch: Watch,
) -> Verdict
    requires variables { variables < 2147483648 }
    requires in_range { AreInRange variables (standing clauses.now log.now) }
    requires watch { IsWatch (standing clauses.now log.now) pairs.now watch }
    requires trail { IsConsistent trail.now }
    requires falsified { IsFalse trail.now (lit_of falsified) }
    ensures { IsVerdict (standing clauses.now log.now) pairs.now trail.now (lit_of falsified) watch.clause result }
{
    if trail.stands(watch.blocker.literal()) {
        return Verdict::True(watch.blocker);
    }
    let index = watch.clause as usize;
    let Some(second) = other_of(pairs[index], falsified) else {
        return Verdict::Elsewhere;
    };
    let other = second.literal();
    if trail.stands(other) {
        return Verdict::True(second);
    }
    let Some(clause) = clause_numbered(clauses, log, u64::from(watch.clause) + 1) else {
        unreachable!()
    };
    let variable = falsified.literal().variable;
    match free_literal(trail, trail.len(), clause, other, variable) {
        Some(literal) => Verdict::Move(Pair {
            first: Code::of(literal),
            second,
        }),
        None => {
            if trail.stands(other.opposite()) {
                Verdict::False
            } else {
                Verdict::Unit(other)
            }
        }
    }
}

//! Literals that aren't false.

ghost use Rattle.std.specs.Prelude.{◌≡◌, ◌≤◌, ◌↔◌, IsTrue, length, take};
ghost use Rattle.watch_solver.specs.Free.{IsFree};

use clause_lits::{Clause, Lit};
use clause_search::Trail;

/// A clause with more literals than these is long.
const LONG: usize = 100;

/// Whether the two are the same.
fn is_same(a: Lit, b: Lit) -> bool
    ensures { IsTrue result ↔ (a ≡ b) }
{
    a.variable == b.variable && a.positive == b.positive
}

/// A literal of these, other than this one, that isn't false before the position, if there is one.
fn free_among(trail: &Trail, place: usize, literals: &[Lit], other: Lit) -> Option<Lit>
    requires { place ≤ length trail.now }
    ensures { IsFree (take place trail.now) literals.now other result }
{
    for literal in literals {
        if !is_same(*literal, other) && !trail.stands_before(place, literal.opposite()) {
            return Some(*literal);
        }
    }
    None
}

/// Where a look at the literals begins: at the variable, if they are many.
fn beginning(literals: &[Lit], variable: u64) -> usize
    ensures { result ≤ length literals.now }
{
    if literals.len() > LONG {
        literals.partition_point(|literal| literal.variable < variable)
    } else {
        0
    }
}

/// A literal of the clause, other than this one, that isn't false before the position, if there is
/// one. In a long clause the look begins at a variable: where the one of that variable just became
/// false, those before it mostly are.
pub fn free_literal(
    trail: &Trail,
    place: usize,
    clause: &Clause,
    other: Lit,
    variable: u64,
) -> Option<Lit>
    requires { place ≤ length trail.now }
    ensures { IsFree (take place trail.now) clause.now other result }
{
    let literals = clause.literals();
    let (front, rest) = literals.split_at(beginning(literals, variable));
    match free_among(trail, place, rest, other) {
        Some(literal) => Some(literal),
        None => free_among(trail, place, front, other),
    }
}

//! The state of a clause under a trail.

ghost use Rattle.std.specs.Prelude.{◌≡◌, ◌↔◌, ◌≤◌, IsTrue, length, take};
ghost use Rattle.std.specs.List.{list_any};
ghost use Rattle.clause_log.specs.Members.{Has};
ghost use Rattle.clause_search.specs.Looks.{IsLook};
ghost use Rattle.clause_search.specs.Trail.{FalseBut, IsConsistent, literal_eq};

use crate::trail::{Trail, is_same};
use clause_lits::{Clause, Lit};

/// The state of a clause under a trail.
#[derive(Clone, Copy, PartialEq, Eq, Debug)]
pub enum Look {
    /// A literal is true, or two aren't assigned.
    Settled,
    /// All literals but this one are false, and it isn't assigned.
    Unit(Lit),
    /// All literals are false.
    False,
}

/// The state of clauses under a trail.
#[derive(Clone, Copy, PartialEq, Eq, Debug)]
pub enum Found {
    /// Each is settled.
    Nothing,
    /// All literals of the clause of this number are false, but one that isn't assigned.
    Unit(u64, Lit),
    /// All literals of the clause of this number are false.
    Conflict(u64),
}

/// The state of the clause under the trail.
pub fn look_at(clause: &Clause, trail: &Trail) -> Look
    requires { IsConsistent trail.now }
    ensures { IsLook trail.now clause.now result }
{
    let mut free: Option<Lit> = None;
    for literal in clause.literals() {
        if trail.stands(*literal) {
            return Look::Settled;
        }
        if trail.stands(literal.opposite()) {
            continue;
        }
        if free.is_some() {
            return Look::Settled;
        }
        free = Some(*literal);
    }
    match free {
        Some(literal) => Look::Unit(literal),
        None => Look::False,
    }
}

/// Whether the literal is found in the list.
fn is_among(literals: &[Lit], literal: Lit) -> bool
    ensures { result ≡ list_any (λ k. literal_eq k literal) literals.now }
{
    literals.iter().any(|other| is_same(*other, literal))
}

/// Whether the literal is in the clause.
pub fn has(clause: &Clause, literal: Lit) -> bool
    ensures { IsTrue result ↔ Has clause.now literal }
{
    is_among(clause.literals(), literal)
}

/// Whether all literals of the clause but this one are false before the position.
pub fn is_false_but(trail: &Trail, place: usize, clause: &Clause, literal: Lit) -> bool
    requires { place ≤ length trail.now }
    ensures { IsTrue result ↔ FalseBut (take place trail.now) clause.now literal }
{
    for other in clause.literals() {
        if !is_same(*other, literal) && !trail.stands_before(place, other.opposite()) {
            return false;
        }
    }
    true
}

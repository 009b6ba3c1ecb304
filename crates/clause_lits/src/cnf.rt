//! Lists of clauses, and what makes them true.

ghost use Rattle.std.specs.Prelude.{◌≡◌, ◌<◌, ◌≤◌, ◌↔◌, All, IsTrue, length};
ghost use Rattle.clause_lits.specs.Meaning.{AreWithin, IsModel, values_of, lit_true, clause_true, clauses_true};

use crate::clause::Clause;
use crate::lit::Lit;
use support::Sequence;

/// Values of the variables: index `i` is that of variable `i + 1`.
pub type Assignment = Sequence<bool>;

/// Clauses over the variables 1 to `variables`, of which those up to `front` are the ordered ones.
#[derive(Drop)]
pub struct Cnf {
    pub variables: u64,
    pub clauses: Sequence<Clause>,
    pub front: u64,
    pub ghost front_within: { front ≤ variables },
    pub ghost clauses_within: { AreWithin variables clauses },
}

impl Cnf {
    /// Clauses over this number of variables. [`are_within`] is the test that they use no others.
    pub fn new(variables: u64, clauses: Sequence<Clause>, front: u64) -> Cnf
        requires front { front ≤ variables }
        requires within { AreWithin variables clauses }
        ensures variables { result.variables ≡ variables }
        ensures clauses { result.clauses ≡ clauses }
        ensures front { result.front ≡ front }
    {
        Cnf {
            variables,
            clauses,
            front,
        }
    }
}

/// Whether the clauses use only variables 1 to `variables`.
pub fn are_within(variables: u64, clauses: &[Clause]) -> bool
    ensures { IsTrue result ↔ AreWithin variables clauses.now }
{
    for clause in clauses {
        if !is_within(variables, clause.literals()) {
            return false;
        }
    }
    true
}

/// Whether the literals use only variables 1 to `variables`.
fn is_within(variables: u64, literals: &[Lit]) -> bool
    ensures { IsTrue result ↔ All (λ l. (0 < l.variable) × (l.variable ≤ variables)) literals.now }
{
    for literal in literals {
        if literal.variable == 0 || literal.variable > variables {
            return false;
        }
    }
    true
}

/// Whether the assignment makes a literal of each clause true.
pub fn holds(cnf: &Cnf, assignment: &Assignment) -> bool
    requires { length assignment.now ≡ cnf.now.variables }
    ensures { IsTrue result ↔ IsModel cnf.now.variables cnf.now.clauses assignment.now }
{
    all_true(cnf.clauses.as_slice(), assignment.as_slice())
}

/// Whether the assignment makes a literal of each clause true.
fn all_true(clauses: &[Clause], assignment: &[bool]) -> bool
    ensures { result ≡ clauses_true (values_of assignment.now) clauses.now }
{
    clauses.iter().all(|clause| is_true(clause, assignment))
}

/// Whether the assignment makes a literal of the clause true.
fn is_true(clause: &Clause, assignment: &[bool]) -> bool
    ensures { result ≡ clause_true (values_of assignment.now) clause.now }
{
    clause
        .literals()
        .iter()
        .any(|literal| lit_is_true(literal, assignment))
}

/// Whether the assignment makes the literal true.
fn lit_is_true(literal: &Lit, assignment: &[bool]) -> bool
    ensures { result ≡ lit_true (values_of assignment.now) literal.now }
{
    let place = literal.variable.saturating_sub(1) as usize;
    let value = if place < assignment.len() {
        assignment[place]
    } else {
        false
    };
    value == literal.positive
}

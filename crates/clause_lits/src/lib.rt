//! Literals, clauses, lists of clauses and assignments: what a SAT solver is asked and answers.
//!
//! A [`Clause`] is its list of literals, ordered by variable; a [`Cnf`] is a list of clauses over
//! the variables 1 to `variables`, as in DIMACS. It promises that [`holds`] is the model relation.
//! It uses `support`; circuits, logs and solvers use it.
#![tactic(auto)]

mod clause;
mod cnf;
mod lit;

pub use clause::{Clause, is_clause};
pub use cnf::{Assignment, Cnf, are_within, holds};
pub use lit::Lit;

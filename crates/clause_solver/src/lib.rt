//! A search for the least model of clauses, or for a log that refutes them.
//!
//! [`solve`] is conflict-driven clause learning whose propagation looks at each clause in turn, the
//! plain one that a faster search is held against. It promises that its answer is the least model on
//! the ordered variables, a refutation, or exactly as many learned clauses as it was allowed, none
//! of them subsumed by an earlier one. It uses `clause_search`; questions build on it.
#![tactic(auto)]

mod finding;
mod solver;

pub use clause_search::Answer;
pub use finding::find;
pub use solver::solve;

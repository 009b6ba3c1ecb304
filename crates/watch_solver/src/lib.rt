//! A search for the least model of clauses, or for a log that refutes them, by watched literals.
//!
//! [`solve`] is the search of `clause_solver`, with two watched literals for each clause (Chaff,
//! 2001): a clause is looked at only where one of them becomes false, and going back costs nothing.
//! It promises what that search promises: the least model on the ordered variables, a refutation,
//! or exactly as many learned clauses as it was allowed, none of them subsumed by an earlier one.
//! It uses `clause_search`, and `clause_solver` for numbers that its own lists can't hold;
//! questions build on it.
#![tactic(auto)]

mod code;
mod free;
mod learning;
mod propagation;
mod solver;
mod start;
mod verdict;
mod watches;

pub use clause_search::Answer;
pub use solver::solve;

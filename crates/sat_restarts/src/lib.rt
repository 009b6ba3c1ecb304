//! Guesses that are tried, and a search in order where none holds.
//!
//! Clauses that are hard in one order are often easy in another. So [`search`] has solvers with restarts,
//! activity and saved phases (`cdcl`) take turns, as in Chaff and MiniSat. What one guesses counts only once
//! it is tried: a model on the clauses, a log step by step (`step_ledger`). Where no guess holds, the clauses
//! are searched in order (`watch_solver`), under a limit by as many learned clauses as it allows. It promises
//! a model, a refutation or that many learned clauses; [`least`] makes of a model the least one on the ordered
//! variables. No contract says which order a guess has. It uses `cdcl`, `step_ledger`, `log_tidy` and
//! `watch_solver`; questions use it.
#![tactic(auto)]

mod asking;
mod attempts;
mod bits;
mod budget;
mod guessing;
mod leastness;
mod orders;
mod searching;

pub use budget::Budget;
pub use leastness::least;
pub use searching::{Searched, search};

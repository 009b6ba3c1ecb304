//! Logs with only the steps that they need.
//!
//! A search logs each clause that it learns, and a refutation uses a part of them. [`trim`] leaves
//! out the others, as DRAT-trim does (M. Heule, W. Hunt, N. Wetzler, "Trimming while checking
//! clausal proofs", 2013). A search that forgets clauses may learn one again, or a weaker one;
//! [`tidy`] makes of its log a careful one, in which no clause but the empty one includes an earlier
//! one. Both promise that the log still refutes, and that each step but the last is used by a later
//! one. It uses `clause_search`; questions use it.
#![tactic(auto)]

mod inclusion;
mod index;
mod linking;
mod marking;
mod numbering;
mod tidying;
mod trimming;

pub use numbering::renumbered_step;
pub use tidying::tidy;
pub use trimming::trim;

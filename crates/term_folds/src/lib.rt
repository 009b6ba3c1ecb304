//! Folds over terms: their values, their weights, their texts, and terms substituted for variables.
//!
//! Each is only its step at one term; `bv_terms` has the fold and its proof. They promise that
//! [`Evaluate`] gives the value of each term, [`Substitute`] a term of another store with the value
//! under the substituted assignment, and [`Weigh`] the number of nodes of the written-out tree,
//! capped at the greatest number of 64 bits. [`Print`] writes a term for a reader. It uses
//! `bv_terms`, and `known_values` for operations on numbers.
#![tactic(auto)]

mod evaluate;
mod print;
mod substitute;
mod weigh;

pub use evaluate::{Assigned, Evaluate};
pub use print::Print;
pub use substitute::Substitute;
pub use weigh::Weigh;

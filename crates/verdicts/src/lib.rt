//! What is judged of a pair of functions: which tapes of the source cover a point, how heavy a pair
//! is, and what a verdict is.
//!
//! It promises that a pair has at most one verdict, and that `correct` and `incorrect` mean what
//! refinement says. It builds on `points`, and on `lowering`, which makes of a function that is read the
//! one that is run.
#![tactic(auto)]

mod laws;
mod pair;
mod run_pair;
mod verdict;

pub use laws::{correct_holds, incorrect_fails, least_covers_are_plain, verdicts_are_one};
pub use pair::{Pair, has_same_signature};
pub use run_pair::{LoweredPair, RunPair};
pub use verdict::{Cause, Kept, Shown, Verdict};

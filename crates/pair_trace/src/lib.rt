//! A counterexample step by step: the runs of both sides, and how they differ.
//!
//! It promises that the traces are those of the runs that `replay` shows, the source's on the tape of
//! zeros, and that the difference is one that makes the target's outcome none that the source's
//! allows. It builds on `run_trace`; what prints a counterexample to a user builds on it.
#![tactic(auto)]

mod differences;
mod memory;
mod traces;

pub use differences::{Difference, difference_of};
pub use traces::{Traces, trace_pair};

//! Register allocation: a function whose names share slots, so that a run carries few values.
//!
//! A run has a register for each name of its function, and its terms carry all of them from block to
//! block. [`with_slots`] answers the function with its values in slots: names that are never needed at the
//! same time may share one (live ranges, as in a compiler's register allocation). It promises that the
//! function with slots has the runs of the one that it is given. It builds on `points` for the run,
//! on `run_terms` for what may be run as terms, and on `mem_terms` for the terms of an input.
#![tactic(auto)]

mod allocating;
mod checking;
mod colouring;
mod laws;
mod liveness;
mod naming;
mod occurrences;
mod phi_reads;
mod renaming;
mod rows;

pub use allocating::with_slots;
pub use checking::is_allocation;
pub use laws::allocations_keep_runs;
pub use renaming::function_in;

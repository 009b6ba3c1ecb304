//! Runs as terms: what a function does on every input and tape at once.
//!
//! It promises that under every assignment of the variables the terms of the outcome show the run of
//! the function on what the terms of the input and of the tape denote, within the bound on backward
//! jumps that the layers were made for. It is defined for functions that are well formed and
//! others, as the run is. It builds on `run_terms`, whose steps it takes copy by copy, `unroll` and
//! `mem_terms`; the questions of the circuit judge use it.
#![tactic(auto)]

mod beginning;
mod function_run;
mod passing;

pub use function_run::encode;

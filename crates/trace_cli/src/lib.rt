//! What the arguments of `tv_trace` ask for: two files, the name of a function, a
//! report that may have its counterexample, bounds and a budget.
//!
//! It promises that [`read_request`] gives exactly the request of `specs/Words`, or that there is
//! none. `clap` walks the arguments, and the numbers are read as `tv check` reads them. It builds on
//! `tv_cli`; `trace_run` uses it.
#![tactic(auto)]

mod command;
mod reading;

pub use reading::{Request, read_request};

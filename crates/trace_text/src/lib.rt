//! The text of a counterexample's two runs, for a person or a script to read.
//!
//! It promises one text for two traces (`specs/TraceText.antt`): each step on a line of its own, as
//! `ir_printer` prints it, then notes after ` ; `: the names that it read with their values, where it
//! accesses memory, the choices that it took, what it gave, and the reason. It builds on `pair_trace`
//! and `ir_printer`; `trace_run` writes what it gives.
#![tactic(auto)]

mod differences;
mod notes;
mod reasons;
mod runs;
mod steps;
mod values;

pub use runs::text_of;

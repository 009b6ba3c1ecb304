//! Explains the counterexample of one function: its row of the report, and both runs step by step.
//!
//! It promises, of [`run`], that what is written is the row that `tv check` reports of the function,
//! and, where that is `incorrect`, the runs of both sides at its point and a difference of their
//! outcomes that makes it a counterexample (`explained`), or, where a report is given, an incorrect row
//! that this report has and that both runs show; that each other status has its cause; and that no file
//! changes. It builds on `trace_cli`, `module_files`, `module_rows`, `row_points` and `trace_text`; the program
//! `tv_trace` is `run` over the system's files and output.
#![tactic(auto)]

mod explaining;
mod finding;
mod halt;
mod named;
mod reported;
mod top;

pub use top::run;

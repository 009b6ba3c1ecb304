//! What the arguments of a command line ask of the program.
//!
//! [`read_job`] reads them: `check` with two files and options, `log` with one file, or `make` with
//! options only. It promises the job that the arguments ask for, or that the command line is
//! rejected (`specs/Words`). `clap` walks them. It uses the bounds and budgets of `points`; the
//! program uses it, and `trace_cli` its parts.
#![tactic(auto)]

mod command;
mod number;
mod reading;

pub use command::{is_memory, name, option};
pub use reading::{Check, Job, Make, bounds_in, budget_in, read_job};

//! A run, step by step.
//!
//! [`trace`] runs a function on an input and a tape of choices, and shows each step: what it read,
//! what it gave, which words of the tape it took, and why it gave poison or was undefined behaviour.
//! It promises that the steps are those of the small-step meaning in `specs/Trace.antt`, from the
//! call to the end of the run that `points` defines, and that each reason is true. It builds on
//! `choice_interp`, whose steps it takes; what prints a run to a user builds on it.
#![tactic(auto)]

mod arguments;
mod blocks;
mod causes;
mod ends;
mod flags;
mod insts;
mod locations;
mod operands;
mod phis;
mod steps;
mod tracer;
mod tracing;

pub use operands::{end_operands, operands_of};
pub use steps::{Flag, Location, Reason, Site, Step, Trace};
pub use tracing::trace;

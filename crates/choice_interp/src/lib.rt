//! Runs of a function on an input, with choices from a tape.
//!
//! It promises that what it reports is the run that `points` defines, memory included. It builds on
//! `points` and `memory_access`; the judge by counting and whatever shows a counterexample use it.
//! [`interpret`] is one run; [`run_again`] runs by a [`Runner`], whose room is reused. The steps that
//! a run is made of are public too: `run_trace` takes them one by one.
#![tactic(auto)]

mod assigning;
mod blocks;
mod choosing;
mod ending;
mod entry;
mod flow;
mod memory_steps;
mod reading;
mod rerun;
mod returning;
mod room;
mod run;
mod runners;
mod stepping;
mod table;

pub use blocks::free_locals;
pub use ending::{Ending, runs_refine};
pub use entry::{argument_value, begin};
pub use flow::{Left, enter, entry_from, jump, leave};
pub use memory_steps::{access_of, take_index_values};
pub use reading::{is_poison, typed_value, typed_value_of, value_of};
pub use rerun::run_again;
pub use room::Room;
pub use run::{Ran, interpret, is_plain};
pub use runners::{Runner, runner_for};
pub use stepping::step;
pub use table::low_bits;

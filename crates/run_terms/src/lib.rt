//! The steps of a run as terms: what a block's instructions do to the state of a run, and where its
//! terminator leads.
//!
//! It promises that where the terms of a state denote a run's machine, those after a step denote
//! the machine after it, under every assignment of the variables; and that where a frontier says
//! which copy of a block a run is at or how it ended, the frontier after a block does so after the
//! block. It uses `unroll`, `mem_terms`, `inst_terms` and `access_terms`; `encoder` takes its
//! steps.
//!
//! - `state`: registers, memory and choices so far; `paths`: the tests on the way there; `setting`:
//!   what stays the same in a run.
//! - `instructions`, with `operands`, `choices`, `words` and `memory_steps`: a block's instructions.
//! - `terminators`, with `edges`, `phis` and `joining`: where the run goes on, and two states as one.
//! - `frontier` and `ending`: what is known of the copies ahead, and how the run ended.
#![tactic(auto)]

mod choices;
mod edges;
mod ending;
mod frontier;
mod instructions;
mod joining;
mod memory_steps;
mod operands;
mod paths;
mod phis;
mod setting;
mod state;
mod terminators;
mod words;

pub use edges::follow;
pub use ending::Ending;
pub use frontier::{Frontier, Leaving, take_entry};
pub use instructions::{and_not, step_all};
pub use paths::Test;
pub use setting::Setting;
pub use state::{RunMemory, RunState, Tally, assign};
pub use terminators::leave;

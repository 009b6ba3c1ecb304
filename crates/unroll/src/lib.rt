//! The blocks of a function copied once for each count of backward jumps, so that every jump leads
//! forward.
//!
//! It promises that a run through the copies, each once and in order, is the defined run. It builds
//! on `points`.
#![tactic(auto)]

mod copying;
mod laws;
mod layered;

pub use copying::layers;
pub use laws::layers_have_runs;
pub use layered::{BlockCopy, Edge, Layered};

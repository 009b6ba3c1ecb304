//! A board from which workers claim numbers: each number goes to one worker, once, and none is left out.
//! A worker may report a number as found, and others then pass over the numbers after it.
//!
//! It promises that for every schedule of the threads that hold its seats the numbers claimed are those
//! below some count, each once, and that each number passed over is after one that was found
//! ([`Board::close_with`]). A claim, a report and a look are one atomic step each: they allocate
//! nothing and never wait. It builds on `atomic_table`; the driver of pairs uses it.
#![tactic(auto)]

mod board;
mod laws;

pub use board::{Board, Hand, Seat};
pub use laws::{each_run_has_least_found, each_run_is_drawn};

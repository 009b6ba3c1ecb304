//! The verdict on a pair of functions by plain counting.
//!
//! It promises that its answer is the defined verdict. It builds on `choice_interp`, and goes
//! through points and tapes one after another, so its time grows with two to the power of their
//! bits. Tests hold the judge by questions against it.
#![tactic(auto)]

mod bench;
mod cells;
mod cover;
mod judge;
mod pointers;
mod round;
mod search;

pub use judge::slow;

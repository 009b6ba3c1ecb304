//! The functions of a point's tape that are tried for every point, and runs of the source on them.
//!
//! It promises that the words are those that `verdicts` defines, that a candidate that it finds covers
//! the point, and that it finds one where there is one. It builds on `choice_interp`; the judge by
//! counting uses it, and the question for a point, which takes candidates in as points need them.
#![tactic(auto)]

mod candidate;
mod running;
mod words;

pub use candidate::{Candidate, SHIFTS, templates_for};
pub use running::{Tries, allows, first_cover, run_target, tried_on, tries_for};

//! Refinement and the codes of points, as terms.
//!
//! A question of the circuit judge is a test of the numbers of a code. [`covered`] says where the
//! target's outcome is one that the source's allows, and [`well_point`] where the numbers are those
//! of a point: a code of the shape, with a tape that is plain. It promises that each is true exactly
//! there. It builds on `mem_terms`, and on `points` for what is refined and what is a code; the
//! questions about a pair use it.
#![tactic(auto)]

mod args;
mod bytes;
mod comparing;
mod covering;
mod places;
mod point;

pub use covering::covered;
pub use point::well_point;

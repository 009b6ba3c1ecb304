//! The point of a row that a report has.
//!
//! [`row_from`] finds a line of a report, and [`point_in`] reads the lines after it as a point. What is
//! read is a guess at what the report means: it promises only that the input is one of the function's
//! within the bounds. [`begins_with_row`] is the test that makes it more than a guess: whether what a
//! point shows is what the report has there. It builds on `points`; `trace_run` uses it.
#![tactic(auto)]

mod fits;
mod lines;
mod reading;
mod values;

pub use lines::{begins_with_row, row_from};
pub use reading::point_in;

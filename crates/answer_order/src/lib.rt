//! The least bits are the least numbers.
//!
//! A question to the solver is answered in bits, and the judge wants numbers: a point's or a
//! tape's, in the order of codes. [`numbers_of`] reads the bits of an answer as numbers of known
//! widths. It promises that the least bits that pass a test of these numbers give the least
//! numbers that pass it, and that no numbers pass where no bits do. It uses `sat_ask` for the order
//! of bits and `points` for the order of codes; the questions about a pair use it.
#![tactic(auto)]

mod laws;
mod reading;

pub use laws::{least_digits_are_least_numbers, no_digits_are_no_numbers};
pub use reading::numbers_of;

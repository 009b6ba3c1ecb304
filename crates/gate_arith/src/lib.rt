//! Numbers as lists of gates, most significant bit first.
//!
//! Each function makes the gates of one operation on binary numbers of a fixed width, as the circuits
//! of hardware do (ripple carry, barrel shifter, shift and add, restoring division). It promises
//! that the bits write the operation's number under all values of the inputs, and that the earlier
//! gates keep their values. It uses `gates`, and takes from `bv_terms` the definitions of the
//! operations; the bits of terms are made of it.
#![tactic(auto)]

mod bitwise;
mod comparisons;
mod parts;
mod places;
mod products;
mod quotients;
mod shifts;
mod sums;

pub use bitwise::{and, choose, inverse, or, xor};
pub use comparisons::{any, equal, less_signed};
pub use parts::{extended, joined, part, sign_extended};
pub use places::{constant, copies, inputs};
pub use products::product;
pub use quotients::{Division, divided};
pub use shifts::{shift_left, shift_right, shift_right_signed};
pub use sums::{Carried, difference, less, sum, sum_with_carry};

//! Terms read as sums of products, and what conditions say of each other.
//!
//! It promises that what a function answers of terms holds of their values under every assignment: the
//! number by which two terms differ (`differences`, over the sums of `expanding`), that two have no bit
//! in common, and whether a condition is true where another one is. It makes no terms. A rule of
//! `term_rules` asks it before it makes an operation. It uses `bv_terms`, and `known_values` for
//! operations on known numbers.
#![tactic(auto)]

mod complements;
mod conditions;
mod differences;
mod expanding;
mod facts;
mod monomials;
mod reading;

pub use complements::{are_apart, are_inverse, are_whole, left_of_and, left_of_or};
pub use conditions::{known_where_false, known_where_true};
pub use differences::known_difference;
pub use reading::{are_in_order, number, numbers, term};

//! The instruction table as terms: what each operation, comparison, cast and selection gives on
//! values that are terms.
//!
//! It promises that under every assignment of the variables the terms of a result denote what the
//! table of `points` gives on what the operands denote, at every width and for every flag, with no
//! premise that the instruction is well formed: numbers are read modulo the width. It builds on
//! `mem_terms`; runs as terms use it.
//!
//! Terms become gates, so each operation works at its own width, and only its result is widened to
//! the 64 bits of a value.
#![tactic(auto)]

mod binary_operations;
mod bitwise;
mod casts;
mod comparisons;
mod narrow;
mod products;
mod quotients;
mod room;
mod selection;
mod shifts;
mod signs;
mod sums;
mod undefined;

pub use binary_operations::{Computed, binary};
pub use casts::cast;
pub use comparisons::compare;
pub use selection::select;

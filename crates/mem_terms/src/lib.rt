//! What a run knows, as terms over bit vectors: values, arguments, given blocks, tapes and outcomes.
//!
//! What each denotes under an assignment of the variables is a function of the assignment, and each
//! call here promises what its term or value denotes under every one. It builds on `bv_terms` and
//! `term_rules`, and on `points` for the values and outcomes that are meant; the instruction table
//! as terms, and runs as terms, use it.
#![tactic(auto)]

mod blocks;
mod bytes;
mod given;
mod inputs;
mod integers;
mod numbers;
mod outcome;
mod truths;
mod values;

pub use blocks::{SymBlock, last_given_number};
pub use bytes::{SymByte, pick_byte, poison_byte};
pub use given::{arg_value, given_blocks, pick_block, pick_given};
pub use inputs::{ArgTerms, ByteTerms, InputTerms, TapeTerms};
pub use integers::{SymNumber, known_number, pick_number, poison_number};
pub use numbers::{equals, less, less_signed, number, pick, resize};
pub use outcome::OutcomeTerms;
pub use truths::{both, either, implies, negation, truth};
pub use values::{
    SymValue, as_address, as_number, integer_value, null_value, pick_value, pointer_value,
    poison_value,
};

//! Positions in a text: lines and columns.
//!
//! It promises that a [`Place`] that is moved over bytes is the position after them. It uses only
//! `std`; the lexer and whatever reports a position use it.
#![tactic(auto)]

mod place;

pub use place::Place;

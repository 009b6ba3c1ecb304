//! The law that a printed module reads back.
//!
//! It promises that the text of a module that some tokens spell is a module again, the same except
//! for the positions of its parts (`specs/ReadBack.antt`; `printed_modules_read_back`), and that
//! the pairs of `make` are such modules (`made_modules_are_printable`). It has no code of its own.
//! It uses `ir_printer` for the text and `ir_reader` for what a text is.
#![tactic(auto)]

mod laws;

pub use laws::{made_modules_are_printable, printed_modules_read_back};

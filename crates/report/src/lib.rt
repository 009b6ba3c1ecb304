//! Reports: the rows of two modules, their text, and the status that goes with them.
//!
//! It promises one text and one status for a list of rows, which are those of all functions or end at the
//! first incorrect one. What a row says is written in the order in which a compiler engineer reads a
//! counterexample: the input, what the source does, what the target does. It builds on `verdicts`,
//! `ir_tree` and `ir_naming`; the top call writes what it gives.
#![tactic(auto)]

mod counterexample;
mod laws;
mod row;
mod status;
mod text;
mod value_text;

pub use laws::{first_rows_are_the_first, rows_are_one};
pub use row::{Finding, Row, Side};
pub use status::status_of;
pub use text::{push_row, summary_of, text_of};

//! The rows of two modules: what is found of each function of the source, and of each function of the
//! target that the source does not define.
//!
//! It promises that the rows are those of the report, in its order: a pair of functions with one name and
//! one signature has the verdict of its own answer, and a function that can't be judged has the row that
//! says why, whether the pairs are judged by many workers ([`all_rows`]) or one after the other without
//! a thread ([`rows_in_turn`]). [`first_rows`] has them up to and with the first incorrect one. [`row_of`]
//! is the row of one function alone, and [`pair_named`] its pair.
//! It builds on `pair_driver` and `pair_judge`, which judge the pairs, and on `replay`, which shows a
//! counterexample; `tv_run` and `trace_run` use it.
#![tactic(auto)]

mod index;
mod one_row;
mod rows;

pub use one_row::{OneRow, pair_named, row_of};
pub use rows::{Judgements, all_rows, first_rows, rows_in_turn};

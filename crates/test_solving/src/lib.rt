//! Terms, circuits, clauses and questions with answers that are known.
//!
//! These are the tests of the crates from `bv_terms` to `sat_ask`: each operation on terms by
//! values from outside, as a number and as bits, what is simplified to one term or one gate, which
//! outcome covers which; the clauses of a circuit, clauses whose least model or refutation is known,
//! small drawn clauses against all assignments, logs that are checked, and questions about terms.
//! Terms and gates are written in postfix notation. What the contracts say for all values isn't
//! tried here. Nothing uses this crate.
#![tactic(auto)]

#[cfg(test)]
mod ask_tests;
#[cfg(test)]
mod clauses;
#[cfg(test)]
mod drawn_tests;
#[cfg(test)]
mod expecting;
#[cfg(test)]
mod fold_tests;
#[cfg(test)]
mod gate_tests;
#[cfg(test)]
mod gate_values;
#[cfg(test)]
mod guess_tests;
#[cfg(test)]
mod log_tests;
#[cfg(test)]
mod mem_term_tests;
#[cfg(test)]
mod mem_value_tests;
#[cfg(test)]
mod memory_outcome_tests;
#[cfg(test)]
mod pigeon_tests;
#[cfg(test)]
mod refine_tests;
#[cfg(test)]
mod restart_tests;
#[cfg(test)]
mod solver_tests;
#[cfg(test)]
mod term_tests;
#[cfg(test)]
mod term_values;
#[cfg(test)]
mod tidy_tests;
#[cfg(test)]
mod written_gates;
#[cfg(test)]
mod written_terms;

//! What an instruction and a run mean, by answers that are known.
//!
//! These are the tests of the crates from `byte_block` to `pair_costs`, of `inst_terms`, `run_trace`
//! and `slow_judge`: loads, stores and offsets by rows that `tools/memory_rows.py` computed; the
//! instruction table, whose answers `tools/instruction_sums.py` computed, asked of the interpreter
//! and of the terms; points and their codes, copies, runs with memory and without, the steps of runs
//! and their reasons, and unrolling; and verdicts by counting. Both scripts follow the text of the
//! LLVM Language Reference. No crate uses this one.
#![tactic(auto)]

#[cfg(test)]
mod access_calls;
#[cfg(test)]
mod access_rows;
#[cfg(test)]
mod access_tests;
#[cfg(test)]
mod by_interpreter;
#[cfg(test)]
mod by_terms;
#[cfg(test)]
mod code_tests;
#[cfg(test)]
mod difference_tests;
#[cfg(test)]
mod expecting;
#[cfg(test)]
mod functions;
#[cfg(test)]
mod instruction_tests;
#[cfg(test)]
mod instructions;
#[cfg(test)]
mod judge_rows;
#[cfg(test)]
mod judge_tests;
#[cfg(test)]
mod memory_rows;
#[cfg(test)]
mod memory_tests;
#[cfg(test)]
mod pairs;
#[cfg(test)]
mod reason_rows;
#[cfg(test)]
mod run_tests;
#[cfg(test)]
mod sums;
#[cfg(test)]
mod trace_tests;
#[cfg(test)]
mod unroll_tests;
#[cfg(test)]
mod words;

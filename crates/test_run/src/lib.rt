//! Pairs and what is answered of them, from one call of a judge to the whole program below `main`.
//!
//! [`both_verdicts`] asks the judge by questions and the judge by counting. It promises that each
//! answers its own definition's verdict, and the tests compare them. Others call `settle`, `replay`
//! and the printing of reports, and claim numbers from two threads. What the program answers where
//! workers, sinks and files are of a kind of their own is asked of `tv_run::run`, and traces of
//! `trace_run::run`; the readers of command lines (`tv_cli`), the files and sinks of `tv_io` and the
//! reader and writer of proof files (`proof_text`) have their own. Whole runs of the program over two
//! files are rows of `tools/testdata/rows`, which `tools/test` tries. No crate uses this one.
#![tactic(auto)]

#[cfg(test)]
mod asking;
#[cfg(test)]
mod both;
#[cfg(test)]
mod cli_tests;
#[cfg(test)]
mod cut_tests;
#[cfg(test)]
mod first_tests;
#[cfg(test)]
mod in_memory_tests;
#[cfg(test)]
mod io_tests;
#[cfg(test)]
mod large_tests;
#[cfg(test)]
mod log_tests;
#[cfg(test)]
mod make_tests;
#[cfg(test)]
mod outside_tests;
#[cfg(test)]
mod pairs;
#[cfg(test)]
mod proof_tests;
#[cfg(test)]
mod put_tests;
#[cfg(test)]
mod report_tests;
#[cfg(test)]
mod slot_tests;
#[cfg(test)]
mod trace_tests;
#[cfg(test)]
mod verdict_tests;
#[cfg(test)]
mod worker_tests;

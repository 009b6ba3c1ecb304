//! A search that guesses: conflict-driven clause learning with a heap of active variables, saved phases
//! and restarts.
//!
//! A [`Solver`] answers values, or that there are none, or that its budget is spent, and promises nothing
//! of them: a model is tried on the clauses, and each step of a log is resolved again (`step_ledger`) by
//! whoever asks, so a fault here costs time and never an answer. It is the search of MiniSat (N. Eén and
//! N. Sörensson, "An Extensible SAT-solver", 2003) with two watched literals a clause, learning of the
//! first unique implication point, activity of variables, phases saved between restarts, restarts by the
//! sequence of Luby and others, assumed literals, and variables that are resolved away before the search
//! goes on. Each learned clause is kept with the chain that resolves to it. Each loop is counted. It uses
//! `clause_lits` and `clause_log`; `sat_restarts` uses it.
#![tactic(auto)]

mod analysis;
mod begin;
mod clauses;
mod definitions;
mod elimination;
mod forgetting;
mod learning;
mod luby;
mod needed;
mod occurrences;
mod order;
mod patterns;
mod propagation;
mod search;
mod steps;
mod subsumption;
mod sweeping;
mod tables;
mod trail;
mod units;
mod watches;
mod windows;

pub use search::{Guessed, Solver};

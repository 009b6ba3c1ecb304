//! Logs that somebody proposes, resolved again.
//!
//! [`refutes`] says whether a log refutes clauses, exactly. So whoever makes a log, a search that only
//! guesses, need not be trusted. It uses `clause_log`; `sat_restarts` uses it.
#![tactic(auto)]

mod ledger;

pub use ledger::refutes;

//! Questions: which bits of its variables make a term true.
//!
//! [`ask`] answers the least bits, or that there are none, with clauses that ask the same question
//! and a log that refutes them, each of whose steps but the last is used by a later one; under a
//! limit it may also answer how far it came. It uses `bit_blast`, which makes the circuit, `gates`,
//! which makes the clauses, and `sat_restarts`, which searches them.
#![tactic(auto)]

mod asked;
mod cone;
mod question;
mod searching;

pub use asked::Asked;
pub use question::ask;
pub use searching::search;

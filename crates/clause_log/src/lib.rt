//! Logs of resolution steps, and their check.
//!
//! A [`Step`] is a clause and the chain of earlier clauses that it is resolved from; a [`Log`] is a
//! list of steps, as in RUP and LRAT proofs with their hints. It promises that [`check_log`] accepts
//! exactly the logs that refute, unless it runs out of memory, and that clauses which are refuted
//! have no model. It uses `clause_lits`; solvers, questions and proof texts use it.
#![tactic(auto)]

mod chains;
mod checking;
mod laws;
mod mark;
mod marks;
mod places;
mod resolver;
mod step;

pub use chains::{chain_resolvent, clause_numbered};
pub use checking::{LogFault, are_sound, check_log};
pub use laws::{refuted_has_no_model, resolvent_is_exact};
pub use resolver::resolve;
pub use step::{Cert, Log, Step};

//! Steps of a log, and a log with its clauses.

use clause_lits::{Clause, Cnf};
use support::Sequence;

/// A clause, and the numbers of the earlier clauses that it is resolved from. Clauses are numbered
/// from 1: the given ones that the log is about, and then those of the steps.
#[derive(Drop)]
pub struct Step {
    pub chain: Sequence<u64>,
    pub clause: Clause,
}

/// Steps, in order.
pub type Log = Sequence<Step>;

/// Clauses, and a log about them.
#[derive(Drop)]
pub struct Cert {
    pub cnf: Cnf,
    pub log: Log,
}

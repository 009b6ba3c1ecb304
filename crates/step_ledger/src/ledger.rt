//! Proposed logs.

ghost use Rattle.std.specs.Prelude.{◌↔◌, IfOk, IsTrue};
ghost use Rattle.clause_log.specs.Refutation.{EndsEmpty, Refutes};

use clause_lits::Clause;
use clause_log::{Step, are_sound};
use std::alloc::Global;
use support::NoMemory;

/// Whether there is a last step, and its clause is empty.
fn ends_empty(log: &[Step]) -> bool
    ensures { IsTrue result ↔ EndsEmpty log.now }
{
    match log.last() {
        Some(step) => step.clause.is_empty(),
        None => false,
    }
}

/// Whether a log refutes the clauses: each step is the resolvent of its chain of earlier clauses, and the
/// last one is empty.
pub fn refutes(alloc: Global, clauses: &[Clause], log: &[Step]) -> Result<bool, NoMemory>
    ensures { IfOk result (λ b. IsTrue b ↔ Refutes clauses.now log.now) }
{
    Ok(ends_empty(log) && are_sound(alloc, clauses, log)?)
}

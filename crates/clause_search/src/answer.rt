//! What a search ends in.

ghost use Rattle.std.specs.Prelude.{◌≡◌, ◌↔◌, IsTrue, Some};

use clause_lits::Assignment;
use clause_log::Log;

/// What a search ends in.
#[derive(Drop)]
pub enum Answer {
    /// A model, and no model is less on the ordered variables.
    Sat(Assignment),
    /// A log that refutes the clauses.
    Unsat(Log),
    /// A log of as many steps as the limit allows, none of them empty.
    Spent(Log),
}

/// Whether this number of steps is the limit.
pub fn is_spent(limit: Option<u64>, steps: u64) -> bool
    ensures { IsTrue result ↔ (limit ≡ Some steps) }
{
    match limit {
        Some(most) => most == steps,
        None => false,
    }
}

//! The least model, where a model is known.

ghost use Rattle.std.specs.Prelude.{IfOk};
ghost use Rattle.clause_lits.specs.Meaning.{IsModel};
ghost use Rattle.clause_search.specs.Outcome.{IsAnswer};

use crate::bits::least_by_bits;
use crate::budget::Budget;
use clause_lits::{Assignment, Cnf};
use clause_search::{Answer, is_spent};
use std::alloc::Global;
use support::{NoMemory, Sequence};
use watch_solver::solve;

/// The least model of clauses that have this model; or, under a limit, a log of as many steps as it
/// allows. The ordered variables are settled one by one, by guesses within the budget; where these fail,
/// the clauses are searched in order.
pub fn least(
    alloc: Global,
    cnf: &Cnf,
    widths: &[u32],
    values: Assignment,
    budget: Budget,
    limit: Option<u64>,
) -> Result<Answer, NoMemory>
    requires model { IsModel cnf.now.variables cnf.now.clauses values }
    ensures { IfOk result (IsAnswer cnf.now.variables cnf.now.front cnf.now.clauses limit) }
{
    match least_by_bits(alloc, cnf, widths, values, budget)? {
        Some(values) => Ok(Answer::Sat(values)),
        None => in_order(alloc, cnf, limit),
    }
}

/// The answer of a search in order; without a step where the limit is 0.
fn in_order(alloc: Global, cnf: &Cnf, limit: Option<u64>) -> Result<Answer, NoMemory>
    ensures { IfOk result (IsAnswer cnf.now.variables cnf.now.front cnf.now.clauses limit) }
{
    if is_spent(limit, 0) {
        return Ok(Answer::Spent(Sequence::from_vec(Vec::new(alloc))));
    }
    solve(alloc, cnf, limit)
}

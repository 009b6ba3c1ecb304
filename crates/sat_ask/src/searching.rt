//! The search for the least model.

ghost use Rattle.std.specs.Prelude.{◌<◌, IfOk, IfSome};
ghost use Rattle.clause_search.specs.Outcome.{IsAnswer};
ghost use Rattle.sat_ask.specs.Asks.{UsesEachStepOf};

use clause_lits::Cnf;
use clause_search::Answer;
use log_tidy::trim;
use sat_restarts::{Searched, least};
use std::alloc::Global;
use support::NoMemory;

/// The answer to which models the clauses have, whose ordered variables are words of these widths,
/// each most significant bit first. Guesses that are tried find whether there is a model; only if so is
/// the least one sought. A refutation has the steps that its end needs, and no others.
/// Under a limit all guesses together have as many conflicts, and where they fail a search in order
/// learns as many clauses: an answer that is spent has exactly these.
pub fn search(
    alloc: Global,
    cnf: &Cnf,
    widths: &[u32],
    limit: Option<u64>,
) -> Result<Answer, NoMemory>
    requires { IfSome limit (λ n. 0 < n) }
    ensures answer { IfOk result (IsAnswer cnf.now.variables cnf.now.front cnf.now.clauses limit) }
    ensures used { IfOk result (UsesEachStepOf cnf.now.clauses) }
{
    match sat_restarts::search(alloc, cnf, widths, limit)? {
        Searched::Model { values, budget } => least(alloc, cnf, widths, values, budget, limit),
        Searched::Refuted(log) => {
            let needed = trim(alloc, cnf.clauses.as_slice(), log)?;
            Ok(Answer::Unsat(needed))
        }
        Searched::Spent(log) => Ok(Answer::Spent(log)),
    }
}

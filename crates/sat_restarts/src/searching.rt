//! A model or a refutation: guessed, or by a search in order.

ghost use Rattle.std.specs.Prelude.{◌<◌, IfOk, IfSome};
ghost use Rattle.clause_search.specs.Outcome.{IsAnswer};
ghost use Rattle.sat_restarts.specs.Searched.{IsSearched};

use crate::budget::Budget;
use crate::guessing::guessed;
use clause_lits::{Assignment, Cnf};
use clause_log::Log;
use std::alloc::Global;
use support::NoMemory;
use watch_solver::{Answer, solve};

/// What a search ends in.
#[derive(Drop)]
pub enum Searched {
    /// Values that make the clauses true, and what guesses may still use.
    Model { values: Assignment, budget: Budget },
    /// A log that refutes the clauses.
    Refuted(Log),
    /// A log of as many steps as the limit allows, none of them empty.
    Spent(Log),
}

/// A model of the clauses, a log that refutes them, or a log of as many steps as the limit, at
/// least 1, allows. It is guessed, under a limit by as many conflicts at most; where no guess holds, the
/// clauses are searched in order. The ordered variables are words of these widths, each with its most
/// significant bit first, for the solver that takes the least significant bits first.
pub fn search(
    alloc: Global,
    cnf: &Cnf,
    widths: &[u32],
    limit: Option<u64>,
) -> Result<Searched, NoMemory>
    requires { IfSome limit (λ n. 0 < n) }
    ensures { IfOk result (IsSearched cnf.now.variables cnf.now.clauses limit) }
{
    let mut budget = Budget::new(limit);
    match guessed(alloc, cnf, widths, &mut budget)? {
        Some(found) => Ok(found),
        None => {
            let answer = solve(alloc, cnf, limit)?;
            Ok(answered(cnf, limit, answer, budget))
        }
    }
}

/// What a search in order answers.
fn answered(cnf: &Cnf, limit: Option<u64>, answer: Answer, budget: Budget) -> Searched
    requires { IsAnswer cnf.now.variables cnf.now.front cnf.now.clauses limit answer }
    ensures { IsSearched cnf.now.variables cnf.now.clauses limit result }
{
    match answer {
        Answer::Sat(values) => Searched::Model { values, budget },
        Answer::Unsat(log) => Searched::Refuted(log),
        Answer::Spent(log) => Searched::Spent(log),
    }
}

//! What a search that only guesses finds, where it holds.
//!
//! The search goes on where it stopped. Variables are resolved away only once it had some conflicts,
//! and equal gates looked for once it had some thousands, since that takes longer than most questions.

ghost use Rattle.std.specs.Prelude.{IfOk, IfSome, None};
ghost use Rattle.sat_restarts.specs.Searched.{IsSearched};

use crate::attempts::{Attempts, Guess};
use crate::budget::Budget;
use crate::searching::Searched;
use cdcl::{Guessed, Solver};
use clause_lits::{Assignment, Cnf, Lit, holds};
use clause_log::Log;
use log_tidy::tidy;
use std::alloc::Global;
use step_ledger::refutes;
use support::NoMemory;

/// How many conflicts come before variables are resolved away.
const FIRST_CONFLICTS: u64 = 50;

/// How many conflicts the search for equal gates may take.
const SWEEP_CONFLICTS: u64 = 24_000;

/// A model, if the values are one, with what is left of the budget.
fn model_of(cnf: &Cnf, values: Assignment, budget: Budget) -> Option<Searched>
    ensures { IfSome result (IsSearched cnf.now.variables cnf.now.clauses None) }
{
    if values.len() as u64 == cnf.variables && holds(cnf, &values) {
        Some(Searched::Model { values, budget })
    } else {
        None
    }
}

/// A careful refutation, if the log is one.
fn refutation_of(alloc: Global, cnf: &Cnf, log: Log) -> Result<Option<Searched>, NoMemory>
    ensures { IfOk result (λ found. IfSome found (IsSearched cnf.now.variables cnf.now.clauses None)) }
{
    let clauses = cnf.clauses.as_slice();
    if refutes(alloc, clauses, log.as_slice())? {
        let careful = tidy(alloc, clauses, log)?;
        Ok(Some(Searched::Refuted(careful)))
    } else {
        Ok(None)
    }
}

/// What the solver guesses under these assumptions by at most this many conflicts more: at first without
/// variables that are resolved away. The first `front` ones stay.
pub fn guess_under(
    front: u64,
    solver: &mut Solver,
    assumed: &[Lit],
    most: u64,
) -> Result<Guessed, NoMemory> {
    if solver.is_reduced() {
        return solver.solve(assumed, most);
    }
    let first = most.min(FIRST_CONFLICTS);
    match solver.solve(assumed, first)? {
        Guessed::Spent => {
            if first < most {
                solver.eliminate(front)?;
                solver.solve(assumed, most.wrapping_sub(first))
            } else {
                Ok(Guessed::Spent)
            }
        }
        found => Ok(found),
    }
}

/// A solver of the same clauses that has learned nothing but which gates are equal, and then resolved
/// variables away. The first `front` variables stay.
pub fn swept(front: u64, solver: &Solver) -> Result<Solver, NoMemory> {
    let mut anew = solver.renewed()?;
    anew.sweep(front, SWEEP_CONFLICTS)?;
    anew.eliminate(front)?;
    Ok(anew)
}

/// Puts such a solver in the place of this one, unless this one is such a one.
pub fn sweep_once(front: u64, solver: &mut Solver) -> Result<(), NoMemory> {
    if !solver.is_swept() {
        *solver = swept(front, solver)?;
    }
    Ok(())
}

/// What is guessed, if it holds.
fn tried(
    alloc: Global,
    cnf: &Cnf,
    guess: Guess,
    budget: Budget,
) -> Result<Option<Searched>, NoMemory>
    ensures { IfOk result (λ found. IfSome found (IsSearched cnf.now.variables cnf.now.clauses None)) }
{
    match guess {
        Guess::Model(values) => Ok(model_of(cnf, values, budget)),
        Guess::Refuted(log) => refutation_of(alloc, cnf, log),
        Guess::Nothing => Ok(None),
    }
}

/// A model of the clauses or a refutation, guessed within the budget and then tried; `None` where the
/// guess fails.
pub fn guessed(
    alloc: Global,
    cnf: &Cnf,
    widths: &[u32],
    budget: &mut Budget,
) -> Result<Option<Searched>, NoMemory>
    ensures { IfOk result (λ found. IfSome found (IsSearched cnf.now.variables cnf.now.clauses None)) }
{
    let mut attempts = Attempts::new(alloc);
    'turns: for _ in 0..u64::MAX {
        match attempts.guess(cnf, widths, budget)? {
            Guess::Nothing => {}
            guess => return tried(alloc, cnf, guess, *budget),
        }
        if budget.is_spent() {
            break;
        }
        attempts.advance();
    }
    Ok(None)
}

//! Searches of the same clauses that take turns.
//!
//! Clauses that are hard in one order are often easy in another. After a first solver a search in order has
//! a turn, which is quick where few clauses count something, as pigeons in holes, and from the second round
//! on another solver. That one begins with the first one's last values and with equal gates, which products and
//! divisions have; where conflicts are counted it begins with the first variables instead. Each solver goes on
//! where it stopped, and each round is longer than the one before. Nothing of a guess is promised.

use crate::budget::Budget;
use crate::guessing::{guess_under, swept};
use crate::orders::by_significance;
use cdcl::{Guessed, Solver};
use clause_lits::{Assignment, Cnf};
use clause_log::Log;
use std::alloc::Global;
use support::NoMemory;
use watch_solver::{Answer, solve};

/// How many conflicts the first turn has.
const FIRST_LENGTH: u64 = 3000;

/// A round is so many times as long as the one before.
const GROWTH: u64 = 2;

/// How many clauses a search in order learns in the first round, times how many clauses there are.
const FIRST_ORDERED: u64 = 1_000_000;

/// What is guessed of clauses.
#[derive(Drop)]
pub enum Guess {
    /// They have this model.
    Model(Assignment),
    /// They have none, by this log.
    Refuted(Log),
    Nothing,
}

/// Whose turn it is.
#[derive(Clone, Copy, PartialEq, Eq)]
enum Turn {
    First,
    InOrder,
    Second,
}

/// The solvers that had a turn, and whose turn it is.
pub struct Attempts {
    alloc: Global,
    first: Option<Solver>,
    second: Option<Solver>,
    turn: Turn,
    /// How many conflicts a turn of a solver has.
    length: u64,
    /// How many clauses a search in order learns, times how many there are.
    ordered: u64,
}

// Dropped by one call: a derived drop is written out at each return.
impl Drop for Attempts {
    fn drop(self) {
        let Attempts {
            alloc,
            first,
            second,
            turn,
            length,
            ordered,
        } = self;
    }
}

impl Attempts {
    /// No solver had a turn.
    pub fn new(alloc: Global) -> Attempts {
        Attempts {
            alloc,
            first: None,
            second: None,
            turn: Turn::First,
            length: FIRST_LENGTH,
            ordered: FIRST_ORDERED,
        }
    }

    /// What the search whose turn it is guesses.
    pub fn guess(
        &mut self,
        cnf: &Cnf,
        widths: &[u32],
        budget: &mut Budget,
    ) -> Result<Guess, NoMemory> {
        match self.turn {
            Turn::First => self.guess_first(cnf, widths, budget),
            Turn::InOrder => self.guess_in_order(cnf, budget),
            Turn::Second => self.guess_second(cnf, budget),
        }
    }

    /// What the first solver guesses, which begins with the least significant bits; nothing where there are
    /// too many variables.
    fn guess_first(
        &mut self,
        cnf: &Cnf,
        widths: &[u32],
        budget: &mut Budget,
    ) -> Result<Guess, NoMemory> {
        let most = budget.take(self.length);
        if self.first.is_none() {
            let order = by_significance(self.alloc, widths)?;
            self.first = Solver::of(self.alloc, cnf, &order)?;
        }
        match &mut self.first {
            Some(solver) => guess_by(cnf, solver, most),
            None => Ok(Guess::Nothing),
        }
    }

    /// What the second solver guesses.
    fn guess_second(&mut self, cnf: &Cnf, budget: &mut Budget) -> Result<Guess, NoMemory> {
        if self.second.is_none() {
            self.second = self.second_solver(cnf, budget)?;
        }
        let most = budget.take(self.length);
        match &mut self.second {
            Some(solver) => guess_by(cnf, solver, most),
            None => Ok(Guess::Nothing),
        }
    }

    /// The second solver before its first turn.
    fn second_solver(&self, cnf: &Cnf, budget: &Budget) -> Result<Option<Solver>, NoMemory> {
        match &self.first {
            Some(first) if !budget.is_limited() => Ok(Some(swept(cnf.front, first)?)),
            _ => Solver::of(self.alloc, cnf, &[]),
        }
    }

    /// What a search in order finds.
    fn guess_in_order(&mut self, cnf: &Cnf, budget: &mut Budget) -> Result<Guess, NoMemory> {
        let clauses = (cnf.clauses.len() as u64).max(1);
        let most = budget.take(self.ordered / clauses);
        if most == 0 {
            return Ok(Guess::Nothing);
        }
        Ok(match solve(self.alloc, cnf, Some(most))? {
            Answer::Sat(values) => Guess::Model(values),
            Answer::Unsat(log) => Guess::Refuted(log),
            Answer::Spent(_log) => Guess::Nothing,
        })
    }

    /// The next one's turn. Where each had one the next turns are longer; the second solver has none in the
    /// first round.
    pub fn advance(&mut self) {
        self.turn = match self.turn {
            Turn::First => Turn::InOrder,
            Turn::InOrder if self.length > FIRST_LENGTH => Turn::Second,
            Turn::InOrder | Turn::Second => {
                self.length = self.length.saturating_mul(GROWTH);
                self.ordered = self.ordered.saturating_mul(2);
                Turn::First
            }
        };
    }
}

/// What a solver guesses by at most this many conflicts more.
fn guess_by(cnf: &Cnf, solver: &mut Solver, most: u64) -> Result<Guess, NoMemory> {
    Ok(match guess_under(cnf.front, solver, &[], most)? {
        Guessed::Model(values) => Guess::Model(values),
        Guessed::None => Guess::Refuted(solver.take_needed(cnf.clauses.len() as u64)?),
        Guessed::Spent => Guess::Nothing,
    })
}

//! A solver that is asked for one bit after the other.

use crate::budget::Budget;
use crate::guessing::{guess_under, sweep_once};
use crate::orders::by_significance;
use cdcl::{Guessed, Solver};
use clause_lits::{Assignment, Clause, Cnf, Lit};
use clause_log::{Log, Step};
use smallvec::SmallVec;
use std::alloc::Global;
use support::{NoMemory, Sequence};

/// How often the solver goes on with a bit, each time for twice as many conflicts as before, from 1 on.
const MOST_TRIES: u32 = 15;

/// The solver looks for equal gates before it goes on for this many conflicts.
const SWEEP_LENGTH: u64 = 2048;

/// A solver, and the literals of the bits that are settled.
pub struct Asking {
    alloc: Global,
    front: u64,
    solver: Option<Solver>,
    assumed: Vec<Lit>,
    /// The number of the clause of each of these literals.
    numbers: Vec<u64>,
}

// Dropped by one call: a derived drop is written out at each return.
impl Drop for Asking {
    fn drop(self) {
        let Asking {
            alloc,
            front,
            solver,
            assumed,
            numbers,
        } = self;
    }
}

impl Asking {
    /// No bit is settled. The solver's first values are those of a model, but 0 for the ordered variables.
    pub fn new(
        alloc: Global,
        cnf: &Cnf,
        widths: &[u32],
        values: &Assignment,
    ) -> Result<Asking, NoMemory> {
        let first = by_significance(alloc, widths)?;
        let mut solver = Solver::of(alloc, cnf, &first)?;
        if let Some(solver) = &mut solver {
            solver.prefer(values.as_slice(), cnf.front)?;
        }
        Ok(Asking {
            alloc,
            front: cnf.front,
            solver,
            assumed: Vec::new(alloc),
            numbers: Vec::new(alloc),
        })
    }

    /// The next bit is settled, by the last one of this many clauses.
    pub fn settle(&mut self, positive: bool, clauses: usize) -> Result<(), NoMemory> {
        let literal = self.next_literal(positive);
        self.assumed.push(literal)?;
        self.numbers.push(clauses as u64)?;
        Ok(())
    }

    /// A literal of the next bit.
    fn next_literal(&self, positive: bool) -> Lit {
        Lit {
            variable: (self.assumed.len() as u64).saturating_add(1),
            positive,
        }
    }

    /// Whether the next bit can be 0, with the bits before as they are settled. Nothing of the answer is
    /// promised.
    pub fn ask(&mut self, budget: &mut Budget) -> Result<Guessed, NoMemory> {
        let zero = self.next_literal(false);
        self.assumed.push(zero)?;
        let guessed = self.guess(budget)?;
        self.assumed.pop();
        if let Guessed::Model(values) = &guessed
            && let Some(solver) = &mut self.solver
        {
            solver.prefer(values.as_slice(), self.front)?;
        }
        Ok(guessed)
    }

    /// What the solver guesses of the assumed literals.
    fn guess(&mut self, budget: &mut Budget) -> Result<Guessed, NoMemory> {
        let Some(solver) = &mut self.solver else {
            return Ok(Guessed::Spent);
        };
        let mut most = 1;
        for _ in 0..MOST_TRIES {
            if budget.is_spent() {
                break;
            }
            if most == SWEEP_LENGTH && !budget.is_limited() {
                sweep_once(self.front, solver)?;
            }
            let taken = budget.take(most);
            match guess_under(self.front, solver, self.assumed.as_slice(), taken)? {
                Guessed::Spent => {}
                found => return Ok(found),
            }
            most = most.saturating_mul(2);
        }
        Ok(Guessed::Spent)
    }

    /// The steps that the last answer needs, after this many clauses.
    pub fn take_steps(&mut self, clauses: usize) -> Result<Log, NoMemory> {
        match &mut self.solver {
            Some(solver) => solver.take_needed(clauses as u64),
            None => Ok(Sequence::from_vec(Vec::new(self.alloc))),
        }
    }

    /// The empty clause, from the last one of the steps after this many clauses, which has only opposites
    /// of assumed literals, and from the clauses of these literals. That of the next bit comes after the
    /// steps.
    pub fn refutation(&self, steps: &[Step], clauses: usize) -> Result<Log, NoMemory> {
        let last = (clauses as u64).saturating_add(steps.len() as u64);
        let mut chain = Sequence::from_vec(Vec::new(self.alloc));
        chain.push(last)?;
        if let Some(step) = steps.last() {
            for literal in step.clause.literals() {
                let index = literal.variable.saturating_sub(1) as usize;
                let next = last.saturating_add(1);
                chain.push(self.numbers.get(index).copied().unwrap_or(next))?;
            }
        }
        let mut log = Sequence::from_vec(Vec::new(self.alloc));
        log.push(Step {
            chain,
            clause: Clause::new(SmallVec::new(self.alloc)),
        })?;
        Ok(log)
    }
}

//! The least model bit by bit.
//!
//! One solver is asked for all bits: for each whether it can be 0, under the assumption that those before
//! are as they were settled. A model is tried. Where there is none, the steps of the solver are resolved
//! again and stay among the clauses, and the last one, whose literals are opposites of assumed ones, has
//! to be refuted by the clauses of these.

ghost use Rattle.std.specs.Prelude.{◌≡◌, ◌+◌, ◌++◌, ◌∷◌, [], ◌<◌, ◌≤◌, ◌-◌, IfOk, IfSome, IsTrue, OnOk, length, map, take};
ghost use Rattle.clause_lits.specs.Meaning.{IsModel};
ghost use Rattle.clause_log.specs.Refutation.{AreSound};
ghost use Rattle.clause_search.specs.Outcome.{IsLeast};
ghost use Rattle.clause_search.specs.Searching.{standing};
ghost use Rattle.sat_restarts.specs.Settled.{IsExtended, IsFound, IsSettled};

use crate::asking::Asking;
use crate::attempts::Guess;
use crate::budget::Budget;
use crate::guessing::guessed;
use crate::searching::Searched;
use cdcl::Guessed;
use clause_lits::{Assignment, Clause, Cnf, Lit, holds};
use clause_log::{Log, Step, are_sound};
use smallvec::SmallVec;
use std::alloc::Global;
use step_ledger::refutes;
use support::{NoMemory, Sequence};

/// A model, and clauses whose models are those that agree with it in the bits settled so far.
#[derive(Drop)]
struct Settled {
    cnf: Cnf,
    values: Assignment,
}

/// What is guessed of a bit as 0, and the clauses with those that were learned from them.
#[derive(Drop)]
struct Asked {
    cnf: Cnf,
    guess: Guess,
}

/// What is known of a bit as 0.
#[derive(Drop)]
enum Found {
    /// A model has it so.
    Model(Assignment),
    /// None has.
    Refuted,
    Nothing,
}

/// The least model on the ordered variables, from a model; `None` where the guesses fail within the budget.
/// With the bits before settled, a bit is 0 where a model has it so: the last model found, or one that is
/// found then.
pub fn least_by_bits(
    alloc: Global,
    cnf: &Cnf,
    widths: &[u32],
    values: Assignment,
    mut budget: Budget,
) -> Result<Option<Assignment>, NoMemory>
    requires { IsModel cnf.now.variables cnf.now.clauses values }
    ensures { IfOk result (λ r. IfSome r (IsLeast cnf.now.variables cnf.now.front cnf.now.clauses)) }
{
    let mut asking = Asking::new(alloc, cnf, widths, &values)?;
    let mut settled = Settled {
        cnf: duplicate(alloc, cnf)?,
        values,
    };
    for bit in 0..cnf.front {
        let Some(next) = settle(alloc, cnf, widths, &mut asking, settled, bit, &mut budget)? else {
            return Ok(None);
        };
        settled = next;
        let value = settled.values.as_slice().get(bit as usize);
        let positive = value.copied().unwrap_or(false);
        asking.settle(positive, settled.cnf.clauses.len())?;
    }
    Ok(Some(settled.values))
}

/// The same clauses over the same variables.
fn duplicate(alloc: Global, cnf: &Cnf) -> Result<Cnf, NoMemory>
    ensures variables { IfOk result (λ r. r.variables ≡ cnf.now.variables) }
    ensures clauses { IfOk result (λ r. r.clauses ≡ cnf.now.clauses) }
{
    let clauses = duplicates(alloc, cnf.clauses.as_slice())?;
    Ok(Cnf::new(cnf.variables, clauses, cnf.front))
}

/// The same clauses.
fn duplicates(alloc: Global, clauses: &[Clause]) -> Result<Sequence<Clause>, NoMemory>
    ensures { IfOk result (λ r. r ≡ clauses.now) }
{
    let mut all = Sequence::from_vec(Vec::new(alloc));
    for clause in clauses {
        all.push(clause.duplicate(alloc)?)?;
    }
    Ok(all)
}

/// Settles one more ordered variable: it is 0 where a model that agrees in the bits before has it
/// so. `None` where the guess fails.
fn settle(
    alloc: Global,
    question: &Cnf,
    widths: &[u32],
    asking: &mut Asking,
    settled: Settled,
    bit: u64,
    budget: &mut Budget,
) -> Result<Option<Settled>, NoMemory>
    requires settled { IsSettled question.now bit settled.cnf settled.values }
    requires within { bit < question.now.front }
    ensures { IfOk result (λ r. IfSome r (λ s. IsSettled question.now (bit + 1) s.cnf s.values)) }
{
    let Settled { cnf, values } = settled;
    let zero = Lit {
        variable: bit + 1,
        positive: false,
    };
    if !*values.get(bit as usize) {
        let zeroed = with_literal(alloc, cnf, zero)?;
        return Ok(Some(Settled {
            cnf: zeroed,
            values,
        }));
    }
    let asked = ask_next(alloc, asking, cnf, budget)?;
    let more = with_literal(alloc, asked.cnf, zero)?;
    match found_of(alloc, &more, widths, asked.guess, budget)? {
        Found::Model(values) => Ok(Some(Settled { cnf: more, values })),
        Found::Refuted => {
            let ones = with_literal(alloc, without_last(more), zero.opposite())?;
            Ok(Some(Settled { cnf: ones, values }))
        }
        Found::Nothing => Ok(None),
    }
}

/// What the solver guesses of the next bit as 0, and the clauses with the steps that it needs.
#[tactic(auto, using(crate::proofs::Settling::extended_none))]
fn ask_next(
    alloc: Global,
    asking: &mut Asking,
    cnf: Cnf,
    budget: &mut Budget,
) -> Result<Asked, NoMemory>
    ensures { IfOk result (λ r. IsExtended cnf r.cnf) }
{
    match asking.ask(budget)? {
        Guessed::Model(values) => Ok(Asked {
            cnf,
            guess: Guess::Model(values),
        }),
        Guessed::None => {
            let clauses = cnf.clauses.len();
            let steps = asking.take_steps(clauses)?;
            let log = asking.refutation(steps.as_slice(), clauses)?;
            let more = with_sound(alloc, cnf, steps)?;
            Ok(Asked {
                cnf: more,
                guess: Guess::Refuted(log),
            })
        }
        Guessed::Spent => Ok(Asked {
            cnf,
            guess: Guess::Nothing,
        }),
    }
}

/// What is known of the clauses: as it is guessed, if that holds, and else as other solvers guess.
fn found_of(
    alloc: Global,
    cnf: &Cnf,
    widths: &[u32],
    guess: Guess,
    budget: &mut Budget,
) -> Result<Found, NoMemory>
    ensures { IfOk result (IsFound cnf.now.variables cnf.now.clauses) }
{
    match guess {
        Guess::Model(values) => {
            if is_model(cnf, &values) {
                return Ok(Found::Model(values));
            }
        }
        Guess::Refuted(log) => {
            if refutes(alloc, cnf.clauses.as_slice(), log.as_slice())? {
                return Ok(Found::Refuted);
            }
        }
        Guess::Nothing => {}
    }
    match guessed(alloc, cnf, widths, budget)? {
        Some(Searched::Model { values, .. }) => Ok(Found::Model(values)),
        Some(Searched::Refuted(_log)) => Ok(Found::Refuted),
        Some(Searched::Spent(_log)) => Ok(Found::Nothing),
        None => Ok(Found::Nothing),
    }
}

/// Whether values are a model of the clauses.
fn is_model(cnf: &Cnf, values: &Assignment) -> bool
    ensures { IsTrue result → IsModel cnf.now.variables cnf.now.clauses values.now }
{
    values.len() as u64 == cnf.variables && holds(cnf, values)
}

/// The clauses with one more, of one literal.
fn with_literal(alloc: Global, cnf: Cnf, literal: Lit) -> Result<Cnf, NoMemory>
    requires counted { 0 < literal.variable }
    requires within { literal.variable ≤ cnf.variables }
    ensures variables { IfOk result (λ r. r.variables ≡ cnf.variables) }
    ensures clauses { IfOk result (λ r. r.clauses ≡ cnf.clauses ++ (literal ∷ []) ∷ []) }
{
    let mut literals = SmallVec::new(alloc);
    literals.push(literal)?;
    let Cnf {
        variables,
        mut clauses,
        front,
    } = cnf;
    clauses.push(Clause::new(literals))?;
    Ok(Cnf::new(variables, clauses, front))
}

/// The clauses without the last one.
fn without_last(cnf: Cnf) -> Cnf
    ensures variables { result.variables ≡ cnf.variables }
    ensures clauses { result.clauses ≡ take (length cnf.clauses - 1) cnf.clauses }
{
    let Cnf {
        variables,
        clauses,
        front,
    } = cnf;
    let mut clauses = clauses.into_vec();
    clauses.pop();
    Cnf::new(variables, Sequence::from_vec(clauses), front)
}

/// The clauses and those of the steps, if these are sound.
fn with_sound(alloc: Global, cnf: Cnf, steps: Log) -> Result<Cnf, NoMemory>
    ensures { IfOk result (IsExtended cnf) }
{
    if are_sound(alloc, cnf.clauses.as_slice(), steps.as_slice())? {
        let more = with_log(cnf, steps)?;
        Ok(more)
    } else {
        Ok(cnf)
    }
}

/// The clauses and those that were learned from them.
fn with_log(cnf: Cnf, learned: Log) -> Result<Cnf, NoMemory>
    requires { AreSound cnf.clauses learned }
    ensures variables { IfOk result (λ r. r.variables ≡ cnf.variables) }
    ensures clauses { IfOk result (λ r. r.clauses ≡ standing cnf.clauses learned) }
{
    let Cnf {
        variables,
        mut clauses,
        front,
    } = cnf;
    push_clauses(&mut clauses, learned)?;
    Ok(Cnf::new(variables, clauses, front))
}

/// Adds the clauses of the steps.
fn push_clauses(clauses: &mut Sequence<Clause>, steps: Log) -> Result<(), NoMemory>
    ensures { OnOk result (clauses.new ≡ clauses.old ++ map (λ s. s.clause) steps) }
{
    for step in steps.into_vec() {
        let Step { clause, .. } = step;
        clauses.push(clause)?;
    }
    Ok(())
}

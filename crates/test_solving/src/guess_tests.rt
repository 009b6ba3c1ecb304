//! The search that guesses, and the check of what it says.

use crate::clauses::{cnf, pigeons};
use cdcl::{Guessed, Solver};
use clause_lits::{Clause, Cnf, Lit, holds};
use clause_log::{Log, Step, are_sound};
use smallvec::SmallVec;
use std::alloc::Global;
use std::test::Fail;
use step_ledger::refutes;
use support::{NoMemory, Sequence};

/// Whether what is guessed is right, or `None` where nothing is.
fn is_right(
    alloc: Global,
    cnf: &Cnf,
    solver: &mut Solver,
    guessed: Guessed,
) -> Result<Option<bool>, NoMemory> {
    match guessed {
        Guessed::Model(values) => Ok(Some(
            values.len() as u64 == cnf.variables && holds(cnf, &values),
        )),
        Guessed::None => {
            let log = solver.take_needed(cnf.clauses.len() as u64)?;
            let is_right = refutes(alloc, cnf.clauses.as_slice(), log.as_slice())?;
            Ok(Some(is_right))
        }
        Guessed::Spent => Ok(None),
    }
}

/// Whether the guess of a solver within this many conflicts is right.
fn guess(
    alloc: Global,
    cnf: &Cnf,
    solver: &mut Solver,
    most: u64,
) -> Result<Option<bool>, NoMemory> {
    let guessed = solver.solve(&[], most)?;
    is_right(alloc, cnf, solver, guessed)
}

/// Whether a guess within this many conflicts is right.
fn is_guessed(alloc: Global, cnf: &Cnf, most: u64) -> Result<Option<bool>, NoMemory> {
    match Solver::of(alloc, cnf, &[])? {
        Some(mut solver) => guess(alloc, cnf, &mut solver, most),
        None => Ok(None),
    }
}

/// Whether a guess within this many conflicts is right for these numbers of pigeons and holes.
fn are_guessed(alloc: Global, count: i64, holes: i64, most: u64) -> Result<Option<bool>, NoMemory> {
    let clauses = pigeons(alloc, count, holes)?;
    is_guessed(alloc, &clauses, most)
}

/// Four pigeons fit into four holes, and seven not into six; three conflicts don't suffice to tell.
#[test]
fn pigeons_are_guessed(rt: HostRuntime) -> Result<(), Fail> {
    let alloc = rt.alloc();
    assert!(rt; are_guessed(alloc, 4, 4, 1000)? == Some(true));
    assert!(rt; are_guessed(alloc, 7, 6, 100_000)? == Some(true));
    assert!(rt; are_guessed(alloc, 7, 6, 3)?.is_none());
    Ok(())
}

/// Four variables, each the opposite of the one before.
fn opposites(alloc: Global) -> Result<Cnf, NoMemory> {
    cnf(
        alloc,
        4,
        1,
        &[&[1, 2], &[-1, -2], &[2, 3], &[-2, -3], &[3, 4], &[-3, -4]],
    )
}

/// Whether the guess of a solver is right once variables were resolved away.
fn guess_of_fewer(alloc: Global, cnf: &Cnf, solver: &mut Solver) -> Result<Option<bool>, NoMemory> {
    solver.eliminate(cnf.front)?;
    guess(alloc, cnf, solver, 1)
}

/// Whether what is guessed is right once variables were resolved away.
fn is_guessed_of_fewer(alloc: Global, cnf: &Cnf) -> Result<Option<bool>, NoMemory> {
    match Solver::of(alloc, cnf, &[])? {
        Some(mut solver) => guess_of_fewer(alloc, cnf, &mut solver),
        None => Ok(None),
    }
}

/// Variables that were resolved away have values that make the clauses true.
#[test]
fn variables_that_went_have_values(rt: HostRuntime) -> Result<(), Fail> {
    let alloc = rt.alloc();
    assert!(rt; is_guessed_of_fewer(alloc, &opposites(alloc)?)? == Some(true));
    Ok(())
}

/// Whether the clauses are found to have no model with this literal and the last variable, by sound steps
/// of which the last one has nothing but their opposites.
fn is_refused(alloc: Global, cnf: &Cnf, first: Lit) -> Result<bool, NoMemory> {
    let last = Lit {
        variable: cnf.variables,
        positive: true,
    };
    let Some(mut solver) = Solver::of(alloc, cnf, &[])? else {
        return Ok(false);
    };
    let Guessed::None = solver.solve(&[first, last], 1)? else {
        return Ok(false);
    };
    let log = solver.take_needed(cnf.clauses.len() as u64)?;
    let is_sound = are_sound(alloc, cnf.clauses.as_slice(), log.as_slice())?;
    let core = [first.opposite(), last.opposite()];
    Ok(match log.as_slice().last() {
        Some(step) => is_sound && step.clause.literals() == core.as_slice(),
        None => false,
    })
}

/// The first and the last of an even number of opposites are not both true, but may both be something
/// else.
#[test]
fn assumed_literals_are_refused(rt: HostRuntime) -> Result<(), Fail> {
    let alloc = rt.alloc();
    let clauses = opposites(alloc)?;
    let first = Lit {
        variable: 1,
        positive: true,
    };
    assert!(rt; is_refused(alloc, &clauses, first)?);
    assert!(rt; !is_refused(alloc, &clauses, first.opposite())?);
    Ok(())
}

/// A log of one step, the empty clause.
fn log_of(alloc: Global, chain: &[u64]) -> Result<Log, NoMemory> {
    let mut log = Sequence::from_vec(Vec::new(alloc));
    log.push(Step {
        chain: Sequence::from_vec(Vec::from_slice(alloc, chain)?),
        clause: Clause::new(SmallVec::new(alloc)),
    })?;
    Ok(log)
}

/// Whether the clauses `1` and `-1` are refuted by a log of this chain.
fn is_refuted(alloc: Global, chain: &[u64]) -> Result<bool, NoMemory> {
    let clauses = cnf(alloc, 1, 0, &[&[1], &[-1]])?;
    let log = log_of(alloc, chain)?;
    refutes(alloc, clauses.clauses.as_slice(), log.as_slice())
}

/// A step whose chain resolves to another clause, or to none, is not taken.
#[test]
fn wrong_steps_are_refused(rt: HostRuntime) -> Result<(), Fail> {
    let alloc = rt.alloc();
    assert!(rt; is_refuted(alloc, &[1, 2])?);
    assert!(rt; !is_refuted(alloc, &[1])?);
    assert!(rt; !is_refuted(alloc, &[1, 1])?);
    assert!(rt; !is_refuted(alloc, &[1, 3])?);
    Ok(())
}

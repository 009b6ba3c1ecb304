//! The solvers on small clauses.

use crate::clauses::{clause, cnf, pigeons};
use crate::expecting::expect;
use clause_lits::Cnf;
use clause_log::{Step, check_log};
use clause_search::Answer;
use std::alloc::Global;
use std::test::Fail;
use std::thread::Threads;
use support::NoMemory;

/// The two solvers of one contract.
#[derive(Clone, Copy)]
enum Solver {
    Clauses,
    Watches,
}

const SOLVERS: [Solver; 2] = [Solver::Clauses, Solver::Watches];

/// What a solver answers, within a limit that isn't 0.
fn solved(alloc: Global, solver: Solver, cnf: &Cnf, limit: u64) -> Result<Answer, NoMemory> {
    let limit = if limit == 0 { None } else { Some(limit) };
    match solver {
        Solver::Clauses => clause_solver::solve(alloc, cnf, limit),
        Solver::Watches => watch_solver::solve(alloc, cnf, limit),
    }
}

/// Whether these are the clauses of the steps.
pub fn are_steps(alloc: Global, steps: &[Step], rows: &[&[i64]]) -> Result<bool, NoMemory> {
    if steps.len() != rows.len() {
        return Ok(false);
    }
    for (step, row) in steps.iter().zip(rows.iter()) {
        if !step.clause.is_same(&clause(alloc, row)?) {
            return Ok(false);
        }
    }
    Ok(true)
}

/// Whether an answer is a refutation by these learned clauses.
fn is_refuted_by(alloc: Global, answer: &Answer, rows: &[&[i64]]) -> Result<bool, NoMemory> {
    match answer {
        Answer::Unsat(log) => are_steps(alloc, log.as_slice(), rows),
        Answer::Sat(_) | Answer::Spent(_) => Ok(false),
    }
}

/// Whether an answer is a limit that is spent on these learned clauses.
fn is_spent_on(alloc: Global, answer: &Answer, rows: &[&[i64]]) -> Result<bool, NoMemory> {
    match answer {
        Answer::Spent(log) => are_steps(alloc, log.as_slice(), rows),
        Answer::Sat(_) | Answer::Unsat(_) => Ok(false),
    }
}

/// Whether an answer is this model.
pub fn is_model(answer: &Answer, values: &[bool]) -> bool {
    match answer {
        Answer::Sat(model) => model.as_slice() == values,
        Answer::Unsat(_) | Answer::Spent(_) => false,
    }
}

/// Whether both solvers find this model.
fn find(alloc: Global, cnf: &Cnf, limit: u64, values: &[bool]) -> Result<bool, NoMemory> {
    for solver in SOLVERS {
        if !is_model(&solved(alloc, solver, cnf, limit)?, values) {
            return Ok(false);
        }
    }
    Ok(true)
}

/// Whether both solvers refute the clauses by these learned clauses.
fn refute_by(alloc: Global, cnf: &Cnf, limit: u64, rows: &[&[i64]]) -> Result<bool, NoMemory> {
    for solver in SOLVERS {
        let answer = solved(alloc, solver, cnf, limit)?;
        if !is_refuted_by(alloc, &answer, rows)? {
            return Ok(false);
        }
    }
    Ok(true)
}

/// Whether both solvers spend a limit of 1 on these learned clauses.
fn spend_on(alloc: Global, cnf: &Cnf, rows: &[&[i64]]) -> Result<bool, NoMemory> {
    for solver in SOLVERS {
        let answer = solved(alloc, solver, cnf, 1)?;
        if !is_spent_on(alloc, &answer, rows)? {
            return Ok(false);
        }
    }
    Ok(true)
}

/// Of the models of `1 2` the least on 1 and 2 is 0 1.
#[test]
fn the_least_model_is_found(rt: HostRuntime) -> Result<(), Fail> {
    let clauses = cnf(rt.alloc(), 2, 2, &[&[1, 2]])?;
    expect(find(rt.alloc(), &clauses, 1, &[false, true])?, "0 1")
}

/// No clauses over no variables have the empty model.
#[test]
fn no_clauses_have_the_empty_model(rt: HostRuntime) -> Result<(), Fail> {
    let clauses = cnf(rt.alloc(), 0, 0, &[])?;
    expect(find(rt.alloc(), &clauses, 0, &[])?, "the empty model")
}

/// The empty clause is refuted by one step.
#[test]
fn the_empty_clause_is_refuted(rt: HostRuntime) -> Result<(), Fail> {
    let clauses = cnf(rt.alloc(), 0, 0, &[&[]])?;
    expect(
        refute_by(rt.alloc(), &clauses, 0, &[&[]])?,
        "the empty clause",
    )
}

/// Three pigeons in two holes are refuted by one learned clause and the empty one, though the limit
/// is 1.
#[test]
fn three_pigeons_in_two_holes(rt: HostRuntime) -> Result<(), Fail> {
    let clauses = pigeons(rt.alloc(), 3, 2)?;
    expect(
        refute_by(rt.alloc(), &clauses, 1, &[&[-2], &[]])?,
        "-2 and the empty clause",
    )
}

/// Four pigeons in four holes: the least model has the first pigeon in the last hole, the second in
/// the one before, and so on.
pub const FOUR: [bool; 16] = [
    false, false, false, true, false, false, true, false, false, true, false, false, true, false,
    false, false,
];

#[test]
fn four_pigeons_in_four_holes(rt: HostRuntime) -> Result<(), Fail> {
    let clauses = pigeons(rt.alloc(), 4, 4)?;
    expect(
        find(rt.alloc(), &clauses, 0, &FOUR)?,
        "four pigeons in four holes",
    )
}

/// Whether a limit of one learned clause is spent.
fn is_spent(alloc: Global, solver: Solver, clauses: &Cnf) -> Result<bool, NoMemory> {
    match solved(alloc, solver, clauses, 1)? {
        Answer::Spent(_) => Ok(true),
        Answer::Sat(_) | Answer::Unsat(_) => Ok(false),
    }
}

/// Whether without a limit the clauses are refuted by a log that the checker accepts.
fn is_refuted(
    rt: &(impl Threads + Sync),
    alloc: Global,
    solver: Solver,
    clauses: &Cnf,
) -> Result<bool, NoMemory> {
    match solved(alloc, solver, clauses, 0)? {
        Answer::Unsat(log) => Ok(check_log(rt, alloc, clauses, &log).is_ok()),
        Answer::Sat(_) | Answer::Spent(_) => Ok(false),
    }
}

/// Whether both solvers spend a limit of one learned clause, and without a limit refute the clauses
/// by a log that the checker accepts.
fn refute(rt: &(impl Threads + Sync), alloc: Global, clauses: &Cnf) -> Result<bool, NoMemory> {
    for solver in SOLVERS {
        if !is_spent(alloc, solver, clauses)? || !is_refuted(rt, alloc, solver, clauses)? {
            return Ok(false);
        }
    }
    Ok(true)
}

#[test]
fn five_pigeons_in_four_holes(rt: HostRuntime) -> Result<(), Fail> {
    let clauses = pigeons(rt.alloc(), 5, 4)?;
    expect(
        refute(&rt, rt.alloc(), &clauses)?,
        "five pigeons in four holes",
    )
}

/// Whether both solvers learn `-5 9 12` first, and refute the clauses.
fn learn_and_refute(
    rt: &(impl Threads + Sync),
    alloc: Global,
    clauses: &Cnf,
) -> Result<bool, NoMemory> {
    Ok(spend_on(alloc, clauses, &[&[-5, 9, 12]])? && refute(rt, alloc, clauses)?)
}

/// Four pigeons in three holes: the first clause that is learned is `-5 9 12`.
#[test]
fn four_pigeons_in_three_holes(rt: HostRuntime) -> Result<(), Fail> {
    let clauses = pigeons(rt.alloc(), 4, 3)?;
    expect(
        learn_and_refute(&rt, rt.alloc(), &clauses)?,
        "four pigeons in three holes",
    )
}

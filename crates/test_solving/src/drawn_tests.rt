//! Small sets of clauses that look random, against all assignments.

use crate::clauses::{clause, over};
use crate::expecting::expect;
use crate::restart_tests::answer;
use clause_lits::{Clause, Cnf, holds};
use clause_log::check_log;
use clause_search::Answer;
use std::alloc::Global;
use std::test::Fail;
use std::thread::Threads;
use support::{NoMemory, Sequence};

/// How many variables each set has; all of them are ordered.
const VARIABLES: u64 = 8;

/// The next number of a fixed sequence that looks random.
fn draw(state: &mut u64) -> u64 {
    *state = state
        .wrapping_mul(6_364_136_223_846_793_005)
        .wrapping_add(1_442_695_040_888_963_407);
    *state >> 33
}

/// A clause in which each variable occurs with one chance in four.
fn drawn_clause(alloc: Global, state: &mut u64) -> Result<Clause, NoMemory> {
    let mut numbers = Vec::new(alloc);
    for variable in 1..=VARIABLES as i64 {
        match draw(state) % 8 {
            0 => numbers.push(variable)?,
            1 => numbers.push(variable.wrapping_neg())?,
            _ => {}
        }
    }
    clause(alloc, &numbers)
}

/// From 1 to 24 clauses.
fn drawn_cnf(alloc: Global, state: &mut u64) -> Result<Cnf, NoMemory> {
    let mut clauses = Sequence::from_vec(Vec::new(alloc));
    for _ in 0..=draw(state) % 24 {
        clauses.push(drawn_clause(alloc, state)?)?;
    }
    over(VARIABLES, VARIABLES, clauses)
}

/// The assignment whose values are the bits of a number, the most significant one first.
fn assignment(alloc: Global, number: u64) -> Result<Sequence<bool>, NoMemory> {
    let mut values = Sequence::from_vec(Vec::new(alloc));
    for place in 0..VARIABLES {
        values.push((number >> (VARIABLES - 1 - place)) % 2 == 1)?;
    }
    Ok(values)
}

/// The first of all assignments, in the order of their numbers, that is a model.
fn first_model(alloc: Global, cnf: &Cnf) -> Result<Option<Sequence<bool>>, NoMemory> {
    for number in 0..1 << VARIABLES {
        let values = assignment(alloc, number)?;
        if values.len() as u64 == cnf.variables && holds(cnf, &values) {
            return Ok(Some(values));
        }
    }
    Ok(None)
}

/// Whether the answer is the first model, or a log that the checker accepts where there is none.
fn is_right(
    rt: &(impl Threads + Sync),
    alloc: Global,
    cnf: &Cnf,
    answer: &Answer,
) -> Result<bool, NoMemory> {
    match (answer, first_model(alloc, cnf)?) {
        (Answer::Sat(model), Some(least)) => Ok(model.as_slice() == least.as_slice()),
        (Answer::Unsat(log), None) => Ok(check_log(rt, alloc, cnf, log) == Ok(())),
        _ => Ok(false),
    }
}

/// Whether what a search gives is right.
fn is_found(
    rt: &(impl Threads + Sync),
    alloc: Global,
    cnf: &Cnf,
    answer: Result<Answer, NoMemory>,
) -> Result<bool, NoMemory> {
    is_right(rt, alloc, cnf, &answer?)
}

/// Whether both solvers and searches in turn are right.
fn are_right(rt: &(impl Threads + Sync), alloc: Global, cnf: &Cnf) -> Result<bool, NoMemory> {
    Ok(
        is_found(rt, alloc, cnf, watch_solver::solve(alloc, cnf, None))?
            && is_found(rt, alloc, cnf, clause_solver::solve(alloc, cnf, None))?
            && is_found(rt, alloc, cnf, answer(alloc, cnf, 0))?,
    )
}

/// 300 sets of clauses, some of which have a model, have the answer that all assignments give.
#[test]
fn drawn_clauses_have_least_models(rt: HostRuntime) -> Result<(), Fail> {
    let mut state = 2;
    for _ in 0..300 {
        let question = drawn_cnf(rt.alloc(), &mut state)?;
        expect(
            are_right(&rt, rt.alloc(), &question)?,
            "a drawn set of clauses",
        )?;
    }
    Ok(())
}

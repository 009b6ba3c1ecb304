//! The search of a question, with a limit and without.

use crate::clauses::pigeons;
use crate::expecting::expect;
use crate::solver_tests::{FOUR, is_model};
use clause_lits::Cnf;
use clause_log::check_log;
use clause_search::Answer;
use sat_restarts::{Searched, least, search};
use std::alloc::Global;
use std::test::Fail;
use std::thread::Threads;
use support::NoMemory;

/// The answer of a search within a limit that isn't 0, and then of one for the least model, where the
/// first two variables are words.
pub fn answer(alloc: Global, cnf: &Cnf, limit: u64) -> Result<Answer, NoMemory> {
    let limit = if limit == 0 { None } else { Some(limit) };
    match search(alloc, cnf, &[1, 1], limit)? {
        Searched::Model { values, budget } => least(alloc, cnf, &[1, 1], values, budget, limit),
        Searched::Refuted(log) => Ok(Answer::Unsat(log)),
        Searched::Spent(log) => Ok(Answer::Spent(log)),
    }
}

/// Whether an answer is this number of learned clauses.
fn has_learned(answer: &Answer, count: usize) -> bool {
    match answer {
        Answer::Spent(log) => log.len() == count,
        Answer::Sat(_) | Answer::Unsat(_) => false,
    }
}

/// Whether the answer within a limit is the least model of four pigeons in four holes.
fn is_least(alloc: Global, cnf: &Cnf, limit: u64) -> Result<bool, NoMemory> {
    let found = answer(alloc, cnf, limit)?;
    Ok(is_model(&found, &FOUR))
}

/// Whether the answer within a limit of 1 is one learned clause or that model.
fn is_spent_or_least(alloc: Global, cnf: &Cnf) -> Result<bool, NoMemory> {
    let found = answer(alloc, cnf, 1)?;
    Ok(has_learned(&found, 1) || is_model(&found, &FOUR))
}

/// Whether the answers within no limit, one of 100 and one of 1 are the wanted ones.
fn are_least(alloc: Global, cnf: &Cnf) -> Result<bool, NoMemory> {
    Ok(is_least(alloc, cnf, 0)? && is_least(alloc, cnf, 100)? && is_spent_or_least(alloc, cnf)?)
}

/// From any model the bits one by one lead to the least; under a limit of 1 they don't get there, and a
/// search in order is spent or finds it.
#[test]
fn all_ways_lead_to_the_least(rt: HostRuntime) -> Result<(), Fail> {
    let clauses = pigeons(rt.alloc(), 4, 4)?;
    expect(
        are_least(rt.alloc(), &clauses)?,
        "all ways lead to the least",
    )
}

/// A limit of seven learned clauses is spent on six pigeons in five holes.
#[test]
fn a_limit_is_spent(rt: HostRuntime) -> Result<(), Fail> {
    let clauses = pigeons(rt.alloc(), 6, 5)?;
    let found = answer(rt.alloc(), &clauses, 7)?;
    expect(has_learned(&found, 7), "a limit is spent")
}

/// Whether the clauses are refuted by a log that the checker accepts.
fn is_refuted(rt: &(impl Threads + Sync), alloc: Global, cnf: &Cnf) -> Result<bool, NoMemory> {
    match answer(alloc, cnf, 0)? {
        Answer::Unsat(log) => Ok(check_log(rt, alloc, cnf, &log) == Ok(())),
        Answer::Sat(_) | Answer::Spent(_) => Ok(false),
    }
}

/// Nine pigeons in eight holes take more than the 2000 conflicts of the first turn, and the checker accepts
/// the log.
#[test]
fn nine_pigeons_are_refuted(rt: HostRuntime) -> Result<(), Fail> {
    let clauses = pigeons(rt.alloc(), 9, 8)?;
    expect(
        is_refuted(&rt, rt.alloc(), &clauses)?,
        "nine pigeons are refuted",
    )
}

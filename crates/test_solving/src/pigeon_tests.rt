//! Pigeons in holes as a question about one number, whose bits are the variables of the clauses.

ghost use Rattle.std.specs.Prelude.{IfOk, IfSome, ◌<◌};
ghost use Rattle.bv_terms.specs.Trees.{IsTerm};
ghost use Rattle.test_solving.specs.Over.{AreOver};

use crate::ask_tests::is_spent;
use crate::clauses::pigeons;
use crate::expecting::expect;
use bv_terms::{BinaryOp, TermId, Terms};
use clause_lits::{Clause, Cnf, Lit};
use clause_log::check_log;
use sat_ask::{Asked, ask};
use std::alloc::Global;
use std::test::Fail;
use std::thread::Threads;
use support::NoMemory;

/// A bit of the number of 12 bits, or its negation; variable 1 is the most significant one.
fn literal(terms: &mut Terms, lit: Lit) -> Result<TermId, NoMemory>
    requires { AreOver (record { number = 0; width = 12 }) terms.old }
    ensures over { IfOk result (λ _. AreOver (record { number = 0; width = 12 }) terms.new) }
    ensures bit { IfOk result (IsTerm terms.new 1) }
{
    let number = terms.variable(0, 12)?;
    if lit.variable < 1 || lit.variable > 12 {
        return Err(NoMemory);
    }
    let bit = terms.extract(number, 12 - lit.variable as u32, 1)?;
    if lit.positive {
        Ok(bit)
    } else {
        terms.not(bit)
    }
}

/// Two bits joined. An error where a term is none.
fn joined(terms: &mut Terms, op: BinaryOp, a: TermId, b: TermId) -> Result<TermId, NoMemory>
    requires { AreOver (record { number = 0; width = 12 }) terms.old }
    ensures over { IfOk result (λ _. AreOver (record { number = 0; width = 12 }) terms.new) }
{
    let count = terms.as_slice().len();
    if a.index >= count || b.index >= count {
        return Err(NoMemory);
    }
    if terms.width(a) != 1 || terms.width(b) != 1 {
        return Err(NoMemory);
    }
    terms.binary(op, a, b)
}

/// Whether one of a clause's literals is true.
fn clause_of(terms: &mut Terms, clause: &Clause) -> Result<TermId, NoMemory>
    requires { AreOver (record { number = 0; width = 12 }) terms.old }
    ensures over { IfOk result (λ _. AreOver (record { number = 0; width = 12 }) terms.new) }
{
    let mut any = terms.constant(0, 1)?;
    'literals: for lit in clause.literals() {
        let next = literal(terms, *lit)?;
        any = joined(terms, BinaryOp::Or, any, next)?;
    }
    Ok(any)
}

/// Whether all clauses are true.
fn goal_of(terms: &mut Terms, clauses: &[Clause]) -> Result<TermId, NoMemory>
    requires { AreOver (record { number = 0; width = 12 }) terms.old }
    ensures over { IfOk result (λ _. AreOver (record { number = 0; width = 12 }) terms.new) }
{
    let mut all = terms.constant(1, 1)?;
    'clauses: for clause in clauses {
        let next = clause_of(terms, clause)?;
        all = joined(terms, BinaryOp::And, all, next)?;
    }
    Ok(all)
}

/// Which number makes the goal true. An error where the goal is no bit.
fn asked(
    alloc: Global,
    terms: &mut Terms,
    goal: TermId,
    limit: Option<u64>,
) -> Result<Asked, NoMemory>
    requires over { AreOver (record { number = 0; width = 12 }) terms.old }
    requires limit { IfSome limit (λ n. 0 < n) }
{
    let number = terms.variable(0, 12)?;
    let count = terms.as_slice().len();
    if goal.index >= count || terms.width(goal) != 1 {
        return Err(NoMemory);
    }
    ask(alloc, terms, goal, &[number], limit)
}

/// Which number seats four pigeons in three holes.
fn seats(alloc: Global, limit: Option<u64>) -> Result<Asked, NoMemory>
    requires { IfSome limit (λ n. 0 < n) }
{
    let Cnf { clauses, .. } = pigeons(alloc, 4, 3)?;
    let mut terms = Terms::new(alloc);
    let goal = goal_of(&mut terms, clauses.as_slice())?;
    asked(alloc, &mut terms, goal, limit)
}

/// Whether there is no number, and the checker accepts the certificate, which orders its 12 bits.
fn is_refuted(rt: &(impl Threads + Sync), alloc: Global, asked: &Asked) -> bool {
    match asked {
        Asked::None(cert) => {
            cert.cnf.front == 12 && check_log(rt, alloc, &cert.cnf, &cert.log) == Ok(())
        }
        Asked::Least(_) | Asked::Spent(_) => false,
    }
}

/// Whether the answer within no limit is that there are no seats.
fn has_no_seats(rt: &(impl Threads + Sync), alloc: Global) -> Result<bool, NoMemory> {
    let asked = seats(alloc, None)?;
    Ok(is_refuted(rt, alloc, &asked))
}

/// Whether the answer within a limit of 1 is one learned clause, or that there are no seats.
fn is_spent_or_has_no_seats(rt: &(impl Threads + Sync), alloc: Global) -> Result<bool, NoMemory> {
    let asked = seats(alloc, Some(1))?;
    Ok(is_spent(&asked, 1) || is_refuted(rt, alloc, &asked))
}

/// Four pigeons have no seats in three holes. With a limit of 1 that is found, or one clause is
/// learned.
#[test]
fn four_pigeons_have_no_seats(rt: HostRuntime) -> Result<(), Fail> {
    let alloc = rt.alloc();
    assert!(rt; has_no_seats(&rt, alloc)?);
    expect(
        is_spent_or_has_no_seats(&rt, alloc)?,
        "none, or the limit is spent",
    )
}

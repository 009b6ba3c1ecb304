//! Clauses of literals as DIMACS writes them.

use clause_lits::{Clause, Cnf, Lit, are_within, is_clause};
use smallvec::SmallVec;
use std::alloc::Global;
use support::{NoMemory, Sequence};

/// The literal of a number other than 0.
fn literal(number: i64) -> Lit {
    Lit {
        variable: number.unsigned_abs(),
        positive: number > 0,
    }
}

/// A clause. An error where the numbers are no clause.
pub fn clause(alloc: Global, numbers: &[i64]) -> Result<Clause, NoMemory> {
    let mut literals = SmallVec::new(alloc);
    for number in numbers {
        literals.push(literal(*number))?;
    }
    if !is_clause(literals.as_slice()) {
        return Err(NoMemory);
    }
    Ok(Clause::new(literals))
}

/// Clauses over n variables, the first of which are ordered. An error where they are none.
pub fn over(variables: u64, front: u64, clauses: Sequence<Clause>) -> Result<Cnf, NoMemory> {
    if !are_within(variables, clauses.as_slice()) || front > variables {
        return Err(NoMemory);
    }
    Ok(Cnf::new(variables, clauses, front))
}

/// Clauses over n variables, the first of which are ordered. An error where the rows are none.
pub fn cnf(alloc: Global, variables: u64, front: u64, rows: &[&[i64]]) -> Result<Cnf, NoMemory> {
    let mut clauses = Sequence::from_vec(Vec::new(alloc));
    for row in rows {
        clauses.push(clause(alloc, row)?)?;
    }
    over(variables, front, clauses)
}

/// A pigeon, counted from 0, sits in one of the holes: its variables are the `holes` ones after
/// those of the pigeons before it.
fn seated(alloc: Global, pigeon: i64, holes: i64) -> Result<Clause, NoMemory> {
    let before = pigeon.wrapping_mul(holes);
    let mut seats = Vec::new(alloc);
    for hole in 1..=holes {
        seats.push(before.wrapping_add(hole))?;
    }
    clause(alloc, &seats)
}

/// A pigeon sits in no hole where one before it sits.
fn apart(
    alloc: Global,
    clauses: &mut Sequence<Clause>,
    pigeon: i64,
    holes: i64,
) -> Result<(), NoMemory> {
    let before = pigeon.wrapping_mul(holes);
    for taken in 0..before {
        let hole = taken.checked_rem(holes).unwrap_or(0);
        let own = before.wrapping_add(hole).wrapping_add(1);
        let other = taken.wrapping_add(1);
        clauses.push(clause(alloc, &[other.wrapping_neg(), own.wrapping_neg()])?)?;
    }
    Ok(())
}

/// These numbers of pigeons and of holes, no two pigeons in one hole.
pub fn pigeons(alloc: Global, pigeons: i64, holes: i64) -> Result<Cnf, NoMemory> {
    let mut clauses = Sequence::from_vec(Vec::new(alloc));
    for pigeon in 0..pigeons {
        clauses.push(seated(alloc, pigeon, holes)?)?;
        apart(alloc, &mut clauses, pigeon, holes)?;
    }
    let variables = pigeons.wrapping_mul(holes).unsigned_abs();
    over(variables, variables, clauses)
}

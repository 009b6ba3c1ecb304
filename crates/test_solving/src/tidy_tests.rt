//! Steps of a log that its end does not need.

use crate::clauses::{clause, cnf};
use crate::expecting::expect;
use crate::solver_tests::are_steps;
use clause_lits::Cnf;
use clause_log::{Log, Step, check_log};
use log_tidy::{tidy, trim};
use std::alloc::Global;
use std::test::Fail;
use std::thread::Threads;
use support::{NoMemory, Sequence};

/// A step with its chain and its clause.
type Row<'a> = (&'a [u64], &'a [i64]);

/// A log of these steps.
fn log_of(alloc: Global, rows: &[Row]) -> Result<Log, NoMemory> {
    let mut log = Sequence::from_vec(Vec::new(alloc));
    for row in rows {
        log.push(Step {
            chain: Sequence::from_vec(Vec::from_slice(alloc, row.0)?),
            clause: clause(alloc, row.1)?,
        })?;
    }
    Ok(log)
}

/// `1 2`, `1 -2`, `-1 2`, `-1 -2`, `1 2 3` and `-3`.
fn six(alloc: Global) -> Result<Cnf, NoMemory> {
    cnf(
        alloc,
        3,
        0,
        &[&[1, 2], &[1, -2], &[-1, 2], &[-1, -2], &[1, 2, 3], &[-3]],
    )
}

/// The log without its unused steps, if it refutes the clauses.
fn trimmed(
    rt: &(impl Threads + Sync),
    alloc: Global,
    question: &Cnf,
    log: Log,
) -> Result<Option<Log>, NoMemory> {
    match check_log(rt, alloc, question, &log) {
        Ok(()) => Ok(Some(trim(alloc, question.clauses.as_slice(), log)?)),
        Err(_) => Ok(None),
    }
}

/// A careful log of this one, if it refutes the clauses.
fn tidied(
    rt: &(impl Threads + Sync),
    alloc: Global,
    question: &Cnf,
    log: Log,
) -> Result<Option<Log>, NoMemory> {
    match check_log(rt, alloc, question, &log) {
        Ok(()) => Ok(Some(tidy(alloc, question.clauses.as_slice(), log)?)),
        Err(_) => Ok(None),
    }
}

/// Whether the log has these clauses and refutes.
fn is_log(
    rt: &(impl Threads + Sync),
    alloc: Global,
    question: &Cnf,
    log: &Option<Log>,
    rows: &[&[i64]],
) -> Result<bool, NoMemory> {
    match log {
        Some(log) => Ok(
            are_steps(alloc, log.as_slice(), rows)?
                && check_log(rt, alloc, question, log) == Ok(()),
        ),
        None => Ok(false),
    }
}

/// Of five steps the second is used by none, and the chains of those after it name new numbers.
#[test]
fn unused_steps_are_left_out(rt: HostRuntime) -> Result<(), Fail> {
    let alloc = rt.alloc();
    let question = six(alloc)?;
    let log = log_of(
        alloc,
        &[
            (&[1, 2], &[1]),
            (&[1, 3], &[2]),
            (&[3, 7], &[2]),
            (&[4, 7], &[-2]),
            (&[9, 10], &[]),
        ],
    )?;
    let short = trimmed(&rt, alloc, &question, log)?;
    expect(
        is_log(&rt, alloc, &question, &short, &[&[1], &[2], &[-2], &[]])?,
        "unused steps are left out",
    )
}

/// The second step, `1 3`, is learned though `1` is there: `1` takes its place, the step `2 3`
/// after it becomes `2`, and the last one needs no `-3`.
#[test]
fn weaker_steps_are_left_out(rt: HostRuntime) -> Result<(), Fail> {
    let alloc = rt.alloc();
    let question = six(alloc)?;
    let log = log_of(
        alloc,
        &[
            (&[1, 2], &[1]),
            (&[5, 2], &[1, 3]),
            (&[3, 8], &[2, 3]),
            (&[4, 7], &[-2]),
            (&[9, 10, 6], &[]),
        ],
    )?;
    let short = tidied(&rt, alloc, &question, log)?;
    expect(
        is_log(&rt, alloc, &question, &short, &[&[1], &[2], &[-2], &[]])?,
        "weaker steps are left out",
    )
}

//! Logs.

use crate::clauses::cnf;
use crate::expecting::expect;
use clause_lits::Clause;
use clause_log::{Log, LogFault, Step, check_log};
use smallvec::SmallVec;
use std::alloc::Global;
use std::test::Fail;
use std::thread::Threads;
use support::{NoMemory, Sequence};

/// A log of one step, the empty clause, or of none where the chain is empty.
fn log_of(alloc: Global, chain: &[u64]) -> Result<Log, NoMemory> {
    let mut log = Sequence::from_vec(Vec::new(alloc));
    if !chain.is_empty() {
        log.push(Step {
            chain: Sequence::from_vec(Vec::from_slice(alloc, chain)?),
            clause: Clause::new(SmallVec::new(alloc)),
        })?;
    }
    Ok(log)
}

/// Whether the clauses `1` and `-1` are refuted by a log of this chain; otherwise its first step is
/// reported.
fn is_refuted(
    rt: &(impl Threads + Sync),
    alloc: Global,
    chain: &[u64],
) -> Result<Option<bool>, NoMemory> {
    let clauses = cnf(alloc, 1, 0, &[&[1], &[-1]])?;
    match check_log(rt, alloc, &clauses, &log_of(alloc, chain)?) {
        Ok(()) => Ok(Some(true)),
        Err(LogFault::BadStep { index: 0 }) => Ok(Some(false)),
        Err(_) => Ok(None),
    }
}

/// The clauses `1` and `-1` are refuted by the chain `1 2`, and neither by the chain `1` nor by an
/// empty log.
#[test]
fn a_log_is_checked(rt: HostRuntime) -> Result<(), Fail> {
    assert!(rt; is_refuted(&rt, rt.alloc(), &[1, 2])? == Some(true));
    assert!(rt; is_refuted(&rt, rt.alloc(), &[1])? == Some(false));
    expect(
        is_refuted(&rt, rt.alloc(), &[])? == Some(false),
        "a log is checked",
    )
}

//! The check of a log, its steps in parallel.

ghost use Rattle.std.specs.Prelude.{◌≡◌, ◌<◌, ◌↔◌, ℕ, IfOk, IfErr, OnOk, IsTrue, IfSome, length, slice_get};
ghost use Rattle.clause_log.specs.Refutation.{AreSound, EndsEmpty, IsSoundAt, Refutes};
ghost use Rattle.clause_log.specs.Verdicts.{AreVerdicts};
ghost use Rattle.clause_log.specs.Reported.{IsReported};

use crate::chains::mark_resolvent;
use crate::marks::Marks;
use crate::places::Places;
use crate::step::{Log, Step};
use clause_lits::{Clause, Cnf};
use rayon::prelude::*;
use std::alloc::{AllocError, Global};
use std::thread::Threads;
use support::NoMemory;
use thiserror::Error;

/// Why a log is not accepted.
#[derive(Debug, Drop, PartialEq, Eq, Error)]
pub enum LogFault {
    #[error("out of memory")]
    NoMemory,
    /// The least step, counted from 0, that isn't the resolvent of its chain of earlier clauses, or
    /// the log's length where all are and the last one isn't empty or there is none.
    #[error("bad step {index}")]
    BadStep { index: usize },
}

impl From<AllocError> for LogFault {
    ghost use Rattle.std.specs.Prelude.{◌≡◌};
    ghost use Rattle.clause_log.specs.declared.checking.LogFault.TheVariants.{NoMemory};

    ghost from_gives = { λ _ fault. fault ≡ NoMemory };

    fn from(_error: AllocError) -> LogFault {
        LogFault::NoMemory
    }
}

/// Checks that each step is the resolvent of its chain of earlier clauses, and the last one empty.
/// The steps are checked in parallel, and the answer is that of one loop over them. Each step takes
/// time in the length of its chain's clauses and of its own, times the logarithm of the number of
/// variables where these are far greater than the clauses are long.
pub fn check_log(
    rt: &(impl Threads + Sync),
    alloc: Global,
    cnf: &Cnf,
    log: &Log,
) -> Result<(), LogFault>
    ensures ok { OnOk result (Refutes cnf.now.clauses log.now) }
    ensures err { IfErr result (IsReported cnf.now.clauses log.now) }
{
    let clauses = cnf.clauses.as_slice();
    let steps = log.as_slice();
    let places = Places::of(alloc, clauses)?;
    let verdicts = verdicts(rt, alloc, &places, clauses, steps)?;
    first_fault(clauses, steps, &verdicts)
}

/// Whether the step at each index is sound.
fn verdicts(
    rt: &(impl Threads + Sync),
    alloc: Global,
    places: &Places,
    clauses: &[Clause],
    log: &[Step],
) -> Result<Vec<Result<bool, NoMemory>>, AllocError>
    ensures { IfOk result (λ v. AreVerdicts clauses.now log.now v.items) }
{
    (0..log.len())
        .into_par_iter()
        .map_init(
            || Marks::new(alloc, places.room()),
            |marks: &mut Marks, i: usize| -> Result<bool, NoMemory>
                ensures { IfOk result (λ b. IsTrue b ↔ IsSoundAt clauses.entry.now log.entry.now i) }
            { is_sound_at(marks, places, clauses, log, i) },
        )
        .collect(rt, alloc)
}

/// Whether each step is the resolvent of its chain of earlier clauses. The steps are checked one after the
/// other, each in the time that [`check_log`] says.
pub fn are_sound(alloc: Global, clauses: &[Clause], log: &[Step]) -> Result<bool, NoMemory>
    ensures { IfOk result (λ b. IsTrue b ↔ AreSound clauses.now log.now) }
{
    let places = Places::of(alloc, clauses)?;
    let mut marks = Marks::new(alloc, places.room());
    for index in 0..log.len() {
        if !is_sound_at(&mut marks, &places, clauses, log, index)? {
            return Ok(false);
        }
    }
    Ok(true)
}

/// Whether the step is the resolvent of its chain of earlier clauses.
fn is_sound_at(
    marks: &mut Marks,
    places: &Places,
    clauses: &[Clause],
    log: &[Step],
    index: usize,
) -> Result<bool, NoMemory>
    ensures { IfOk result (λ b. IsTrue b ↔ IsSoundAt clauses.now log.now index) }
{
    let Some(step) = log.get(index) else {
        return Ok(false);
    };
    if mark_resolvent(marks, places, clauses, &log[..index], step.chain.as_slice())? {
        Ok(marks.are_of(places, &step.clause))
    } else {
        Ok(false)
    }
}

/// The first fault among the verdicts on the steps, or that of a log whose last clause isn't empty.
fn first_fault(
    clauses: &[Clause],
    log: &[Step],
    verdicts: &[Result<bool, NoMemory>],
) -> Result<(), LogFault>
    requires { AreVerdicts clauses.now log.now verdicts.now }
    ensures ok { OnOk result (Refutes clauses.now log.now) }
    ensures err { IfErr result (IsReported clauses.now log.now) }
{
    for (index, verdict) in verdicts.iter().enumerate() {
        match verdict {
            Ok(true) => {}
            Ok(false) => return Err(LogFault::BadStep { index }),
            Err(_) => return Err(LogFault::NoMemory),
        }
    }
    if ends_empty(log) {
        Ok(())
    } else {
        Err(LogFault::BadStep { index: log.len() })
    }
}

/// Whether there is a last step, and its clause is empty.
fn ends_empty(log: &[Step]) -> bool
    ensures { IsTrue result ↔ EndsEmpty log.now }
{
    match log.last() {
        Some(step) => step.clause.is_empty(),
        None => false,
    }
}

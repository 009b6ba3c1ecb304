//! The search.

ghost use Rattle.std.specs.Prelude.{◌<◌, ◌≤◌, [], IfOk, IfSome, List, length};
ghost use Rattle.clause_lits.specs.declared.lit.Lit.{Lit};
ghost use Rattle.clause_log.specs.Refutation.{Refutes};
ghost use Rattle.clause_search.specs.Assigning.{AreImplied};
ghost use Rattle.clause_search.specs.Findings.{IsFalseAt};
ghost use Rattle.clause_search.specs.Outcome.{IsAnswer, IsCareful};
ghost use Rattle.clause_search.specs.Searching.{AreInRange, IsSearch, standing};
ghost use Rattle.clause_search.specs.Trail.{IsTrail};
ghost use Rattle.watch_solver.specs.Decided.{IsDecided};
ghost use Rattle.watch_solver.specs.Kept.{AreKept};
ghost use Rattle.watch_solver.specs.Walks.{IsWatched};

use crate::learning::learn;
use crate::propagation::propagate;
use crate::start::{Start, begin};
use crate::watches::Watches;
use clause_lits::{Clause, Cnf, Lit};
use clause_log::Log;
use clause_search::{Answer, Entry, Trail, analyze, is_spent, next_variable, refute, values};
use std::alloc::Global;
use support::{NoMemory, Sequence};

/// A literal's code is below twice this number.
const MOST_VARIABLES: u64 = 1 << 31;

/// A watch names a clause by an index below this.
const MOST_CLAUSES: usize = 1 << 32;

/// The least model of the clauses on the ordered variables, or a log that refutes them, or one of
/// as many steps as the limit, at least 1, allows. It decides the least unassigned variable as 0,
/// propagates fully before each decision, and learns the clause of the first unique implication
/// point. A conflict without decisions ends in `Unsat`, even where the limit is reached.
pub fn solve(alloc: Global, cnf: &Cnf, limit: Option<u64>) -> Result<Answer, NoMemory>
    requires { IfSome limit (λ n. 0 < n) }
    ensures { IfOk result (IsAnswer cnf.now.variables cnf.now.front cnf.now.clauses limit) }
{
    let clauses = cnf.clauses.as_slice();
    if cnf.variables < MOST_VARIABLES
        && clauses.len() < MOST_CLAUSES
        && let Some(answer) = search(alloc, cnf.variables, cnf.front, clauses, limit)?
    {
        return Ok(answer);
    }
    clause_solver::solve(alloc, cnf, limit)
}

/// The search over clauses whose variables are in range, or `None` where there are more clauses
/// than a watch can name.
fn search(
    alloc: Global,
    variables: u64,
    front: u64,
    clauses: &[Clause],
    limit: Option<u64>,
) -> Result<Option<Answer>, NoMemory>
    requires variables { variables < 2147483648 }
    requires count { length clauses.now < 4294967296 }
    requires front { front ≤ variables }
    requires in_range { AreInRange variables clauses.now }
    ensures { IfOk result (λ r. IfSome r (IsAnswer variables front clauses.now limit)) }
{
    let Start {
        trail,
        watches,
        conflict,
    } = begin(alloc, variables, clauses)?;
    match conflict {
        Some(number) => {
            let log = Sequence::from_vec(Vec::new(alloc));
            let log = refuted(alloc, variables, clauses, log, &trail, number)?;
            Ok(Some(Answer::Unsat(log)))
        }
        None => search_from(alloc, variables, front, clauses, limit, watches, trail),
    }
}

/// The search from a trail with no decision, on which only the watched literals of the clauses are
/// left to propagate.
fn search_from(
    alloc: Global,
    variables: u64,
    front: u64,
    clauses: &[Clause],
    limit: Option<u64>,
    mut watches: Watches,
    mut trail: Trail,
) -> Result<Option<Answer>, NoMemory>
    requires variables { variables < 2147483648 }
    requires count { length clauses.now < 4294967296 }
    requires front { front ≤ variables }
    requires in_range { AreInRange variables clauses.now }
    requires search { IsSearch variables clauses.now [] trail }
    requires watched { IsWatched variables (standing clauses.now []) watches.pairs.items watches.lists.items trail }
    requires kept { AreKept (standing clauses.now []) watches.pairs.items [] trail }
    ensures { IfOk result (λ r. IfSome r (IsAnswer variables front clauses.now limit)) }
{
    let mut log: Log = Sequence::from_vec(Vec::new(alloc));
    let mut done = 0;
    'search: loop {
        let steps = log.as_slice();
        let Some(number) = propagate(variables, clauses, steps, &mut watches, &mut trail, done)?
        else {
            done = trail.len();
            if decide(variables, &mut trail)? {
                continue 'search;
            }
            return Ok(Some(Answer::Sat(values(alloc, &trail, variables)?)));
        };
        let Some(low) = trail.last_decision() else {
            let log = refuted(alloc, variables, clauses, log, &trail, number)?;
            return Ok(Some(Answer::Unsat(log)));
        };
        if is_spent(limit, log.len() as u64) {
            return Ok(Some(Answer::Spent(log)));
        }
        if MOST_CLAUSES - clauses.len() <= log.len() {
            return Ok(None);
        }
        let steps = log.as_slice();
        let learned = analyze(alloc, variables, clauses, steps, &trail, number, low)?;
        done = learn(
            variables,
            clauses,
            &mut log,
            &mut watches,
            &mut trail,
            learned,
            low,
        )?;
    }
}

/// Decides the least variable that isn't assigned as 0. The answer is whether there was one.
fn decide(variables: u64, trail: &mut Trail) -> Result<bool, NoMemory>
    requires { (clauses : List (List Lit)) × IsTrail variables clauses [] trail.old }
    ensures { IfOk result (IsDecided variables trail.old trail.new) }
{
    let Some(variable) = next_variable(trail, variables) else {
        return Ok(false);
    };
    trail.push(Entry {
        literal: Lit {
            variable,
            positive: false,
        },
        reason: 0,
    })?;
    Ok(true)
}

/// The log with the step of the empty clause, from a conflict with no decision.
fn refuted(
    alloc: Global,
    variables: u64,
    clauses: &[Clause],
    mut log: Log,
    trail: &Trail,
    number: u64,
) -> Result<Log, NoMemory>
    requires search { IsSearch variables clauses.now log trail.now }
    requires conflict { IsFalseAt (standing clauses.now log) trail.now number }
    requires implied { AreImplied trail.now 0 (length trail.now) }
    ensures { IfOk result (λ all. Refutes clauses.now all × IsCareful clauses.now all) }
{
    let step = refute(alloc, variables, clauses, log.as_slice(), trail, number)?;
    log.push(step)?;
    Ok(log)
}

//! The search.

ghost use Rattle.std.specs.Prelude.{◌<◌, ◌≤◌, IfOk, IfSome};
ghost use Rattle.clause_search.specs.Outcome.{IsAnswer};
ghost use Rattle.clause_search.specs.Searching.{AreInRange};

use crate::finding::find;
use clause_lits::{Clause, Cnf, Lit};
use clause_log::Log;
use clause_search::{Answer, Entry, Found, Trail, is_spent, learn, next_variable, refute, values};
use std::alloc::Global;
use support::{NoMemory, Sequence};

/// The least model of the clauses on the ordered variables, or a log that refutes them, or one of
/// as many steps as the limit, at least 1, allows. It decides the least unassigned variable as 0,
/// propagates fully before each decision, and learns the clause of the first unique implication
/// point. A conflict without decisions ends in `Unsat`, even where the limit is reached.
pub fn solve(alloc: Global, cnf: &Cnf, limit: Option<u64>) -> Result<Answer, NoMemory>
    requires { IfSome limit (λ n. 0 < n) }
    ensures { IfOk result (IsAnswer cnf.now.variables cnf.now.front cnf.now.clauses limit) }
{
    search(
        alloc,
        cnf.variables,
        cnf.front,
        cnf.clauses.as_slice(),
        limit,
    )
}

/// The search over clauses whose variables are in range.
fn search(
    alloc: Global,
    variables: u64,
    front: u64,
    clauses: &[Clause],
    limit: Option<u64>,
) -> Result<Answer, NoMemory>
    requires front { front ≤ variables }
    requires in_range { AreInRange variables clauses.now }
    ensures { IfOk result (IsAnswer variables front clauses.now limit) }
{
    let mut log: Log = Sequence::from_vec(Vec::new(alloc));
    let mut trail = Trail::new(alloc);
    let mut first = 0;
    'search: loop {
        match find(clauses, log.as_slice(), &trail, first) {
            Found::Unit(number, literal) => {
                first = number as usize;
                trail.push(Entry {
                    literal,
                    reason: number,
                })?;
            }
            Found::Nothing => {
                let Some(variable) = next_variable(&trail, variables) else {
                    return Ok(Answer::Sat(values(alloc, &trail, variables)?));
                };
                trail.push(Entry {
                    literal: Lit {
                        variable,
                        positive: false,
                    },
                    reason: 0,
                })?;
            }
            Found::Conflict(number) => {
                let Some(low) = trail.last_decision() else {
                    let step = refute(alloc, variables, clauses, log.as_slice(), &trail, number)?;
                    log.push(step)?;
                    return Ok(Answer::Unsat(log));
                };
                if is_spent(limit, log.len() as u64) {
                    return Ok(Answer::Spent(log));
                }
                learn(alloc, variables, clauses, &mut log, &mut trail, number, low)?;
            }
        }
    }
}

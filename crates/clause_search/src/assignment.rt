//! Which variables a trail assigns.

ghost use Rattle.std.specs.Prelude.{List, [], IfOk};
ghost use Rattle.clause_lits.specs.declared.lit.Lit.{Lit};
ghost use Rattle.clause_search.specs.Trail.{IsTrail};
ghost use Rattle.clause_search.specs.Assigning.{IsNextVariable, TellsAll};

use crate::trail::Trail;
use clause_lits::{Assignment, Lit};
use std::alloc::Global;
use support::{NoMemory, Sequence};

/// The least variable that isn't assigned. Those up to the last decision are, since each decision
/// was the least, so the scan begins there.
pub fn next_variable(trail: &Trail, variables: u64) -> Option<u64>
    requires { (clauses : List (List Lit)) × IsTrail variables clauses [] trail.now }
    ensures { IsNextVariable variables trail.now result }
{
    let first = match trail.last_decision() {
        Some(place) => trail.get(place).literal.variable,
        None => 0,
    };
    for index in first..variables {
        if !trail.is_assigned(index + 1) {
            return Some(index + 1);
        }
    }
    None
}

/// The values that the trail gives.
pub fn values(alloc: Global, trail: &Trail, variables: u64) -> Result<Assignment, NoMemory>
    ensures { IfOk result (TellsAll variables trail.now) }
{
    let mut all = Sequence::from_vec(Vec::new(alloc));
    for index in 0..variables {
        all.push(trail.stands(Lit {
            variable: index + 1,
            positive: true,
        }))?;
    }
    Ok(all)
}

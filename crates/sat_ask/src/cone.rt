//! The terms that a goal is made of.

ghost use Rattle.std.specs.Prelude.{◌≡◌, ◌<◌, IfOk, length, slice_set, true};
ghost use Rattle.bv_terms.specs.Trees.{IsWithin};
ghost use Rattle.bit_blast.specs.Written.{operands};
ghost use Rattle.sat_ask.specs.Cones.{IsCone, marked};

use bv_terms::{Term, TermId, Terms};
use std::alloc::Global;
use support::NoMemory;

/// Marks a term.
fn mark(used: &mut [bool], a: TermId)
    requires { a.index < length used.old }
    ensures { used.new ≡ slice_set used.old a.index true }
{
    used[a.index] = true;
}

/// Marks the terms that a term names.
fn mark_operands(used: &mut [bool], term: &Term)
    requires { IsWithin (length used.old) term.now }
    ensures { used.new ≡ marked used.old (operands term.now) }
{
    match *term {
        Term::Constant { .. } | Term::Variable { .. } => {}
        Term::Not { a, .. }
        | Term::Extract { a, .. }
        | Term::Zext { a, .. }
        | Term::Sext { a, .. } => mark(used, a),
        Term::Binary(_, a, b, _) => {
            mark(used, a);
            mark(used, b);
        }
        Term::Ite { c, a, b, .. } => {
            mark(used, c);
            mark(used, a);
            mark(used, b);
        }
        Term::Concat { high, low, .. } => {
            mark(used, high);
            mark(used, low);
        }
    }
}

/// For each term whether the goal is made of it.
pub fn cone_of(alloc: Global, terms: &Terms, goal: TermId) -> Result<Vec<bool>, NoMemory>
    requires { goal.index < length terms.now }
    ensures { IfOk result (λ r. IsCone terms.now goal 0 r.items) }
{
    let all = terms.as_slice();
    let mut used = Vec::new(alloc);
    used.resize(all.len(), false)?;
    mark(&mut used, goal);
    for place in (0..all.len()).rev() {
        if used[place] {
            mark_operands(&mut used, &all[place]);
        }
    }
    Ok(used)
}

//! The resolvent of a chain.

ghost use Rattle.std.specs.Prelude.{◌≡◌, ◌++◌, [], IfOk, IsTrue, List, None, Some, false, option_copied, map, length};
ghost use Rattle.clause_lits.specs.declared.lit.Lit.{Lit};
ghost use Rattle.clause_log.specs.Chain as spec;
ghost use Rattle.clause_log.specs.Marking.{AreMarks};

use crate::marks::{Clashes, Marks};
use crate::places::Places;
use crate::resolver::resolve;
use crate::step::Step;
use clause_lits::Clause;
use std::alloc::Global;
use support::NoMemory;

/// The clause of a number: those of the list come first, and then those of the steps.
pub fn clause_numbered<'a>(
    clauses: &'a [Clause],
    steps: &'a [Step],
    number: u64,
) -> Option<&'a Clause>
    ensures { option_copied result ≡ spec.clause_numbered (clauses.now ++ map (λ s. s.clause) steps.now) number }
{
    if number == 0 {
        return None;
    }
    let place = (number - 1) as usize;
    if place < clauses.len() {
        clauses.get(place)
    } else {
        let step = steps.get(place - clauses.len())?;
        Some(&step.clause)
    }
}

/// The resolvent of a chain of clauses, or `None` where there is none.
pub fn chain_resolvent(
    alloc: Global,
    clauses: &[Clause],
    steps: &[Step],
    chain: &[u64],
) -> Result<Option<Clause>, NoMemory>
    ensures { IfOk result (λ r. r ≡ spec.chain_resolvent (clauses.now ++ map (λ s. s.clause) steps.now) chain.now) }
{
    let [first, rest @ ..] = chain else {
        return Ok(None);
    };
    let Some(start) = clause_numbered(clauses, steps, *first) else {
        return Ok(None);
    };
    let mut current = start.duplicate(alloc)?;
    for number in rest {
        let Some(next) = clause_numbered(clauses, steps, *number) else {
            return Ok(None);
        };
        match resolve(alloc, &current, next)? {
            Some(resolvent) => current = resolvent,
            None => return Ok(None),
        }
    }
    Ok(Some(current))
}

/// Whether a chain of clauses has a resolvent, which is then marked. It fails if a variable has no
/// place.
pub fn mark_resolvent(
    marks: &mut Marks,
    places: &Places,
    clauses: &[Clause],
    steps: &[Step],
    chain: &[u64],
) -> Result<bool, NoMemory>
    ensures some { IfOk result (λ b. IsTrue b → (c : List Lit) × AreMarks places.now marks.new c
        × (spec.chain_resolvent (clauses.now ++ map (λ s. s.clause) steps.now) chain.now ≡ Some c)) }
    ensures none { IfOk result (λ b. b ≡ false → spec.chain_resolvent (clauses.now ++ map (λ s. s.clause) steps.now) chain.now ≡ None) }
{
    let [first, rest @ ..] = chain else {
        return Ok(false);
    };
    let Some(start) = clause_numbered(clauses, steps, *first) else {
        return Ok(false);
    };
    marks.begin()?;
    marks.join(places, start)?;
    for number in rest {
        let Some(next) = clause_numbered(clauses, steps, *number) else {
            return Ok(false);
        };
        match marks.join(places, next)? {
            Clashes::One => {}
            Clashes::Zero | Clashes::Several => return Ok(false),
        }
    }
    Ok(true)
}

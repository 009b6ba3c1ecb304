//! A step resolved again from what its clauses became.

ghost use Rattle.std.specs.Prelude.{◌≡◌, [], ◌∷◌, ℕ, List, Some, IfOk, IsTrue, length};
ghost use Rattle.clause_lits.specs.declared.lit.Lit.{Lit};
ghost use Rattle.clause_log.specs.Chain as spec;
ghost use Rattle.clause_log.specs.Members.{Has};
ghost use Rattle.clause_search.specs.Searching.{standing};
ghost use Rattle.log_tidy.specs.Linked.{AreParts, AreSame, AreShorter, IsDerived, IsNumbered, IsResolved, Resolve};
ghost use Rattle.log_tidy.specs.Numbers as table;

use crate::inclusion::includes;
use crate::numbering::{new_number, renumbered_step};
use clause_lits::Clause;
use clause_log::{Step, clause_numbered, resolve};
use std::alloc::Global;
use support::{NoMemory, Sequence};

/// The clause of a number that has one.
fn clause_at<'a>(clauses: &'a [Clause], steps: &'a [Step], number: u64) -> &'a Clause
    requires { IsNumbered (standing clauses.now steps.now) number }
    ensures { spec.clause_numbered (standing clauses.now steps.now) number ≡ Some result.now }
{
    let Some(clause) = clause_numbered(clauses, steps, number) else {
        unreachable!()
    };
    clause
}

/// The step whose chain is only this clause.
pub fn alone(alloc: Global, clause: &Clause, number: u64) -> Result<Step, NoMemory>
    ensures { IfOk result (λ r. r ≡ record { chain = number ∷ []; clause = clause.now }) }
{
    let mut chain = Sequence::from_vec(Vec::new(alloc));
    chain.push(number)?;
    Ok(Step {
        chain,
        clause: clause.duplicate(alloc)?,
    })
}

/// The current step with one more link. `whole` is the resolvent of two clauses that the current
/// one and `next` lie within: the link is left out, or the chain begins anew with `next`, where that
/// one is within `whole`; else the two are resolved.
fn linked(
    alloc: Global,
    whole: &Clause,
    current: Step,
    next: &Clause,
    number: u64,
) -> Result<Step, NoMemory>
    requires { AreParts whole.now current.clause next.now }
    ensures { (cs : List (List Lit)) → spec.chain_resolvent cs current.chain ≡ Some current.clause →
        spec.clause_numbered cs number ≡ Some next.now → IfOk result (IsDerived cs whole.now) }
{
    if includes(whole, &current.clause) {
        return Ok(current);
    }
    if includes(whole, next) {
        return alone(alloc, next, number);
    }
    resolved(alloc, current, next, number)
}

/// The step resolved with one more clause.
fn resolved(alloc: Global, step: Step, next: &Clause, number: u64) -> Result<Step, NoMemory>
    requires { Resolve step.clause next.now }
    ensures { IfOk result (IsResolved step next.now number) }
{
    let Step { mut chain, clause } = step;
    let Some(clause) = resolve(alloc, &clause, next)? else {
        unreachable!()
    };
    chain.push(number)?;
    Ok(Step { chain, clause })
}

/// Whether each clause of a chain is still the same.
fn are_same(
    clauses: &[Clause],
    earlier: &[Step],
    kept: &[Step],
    numbers: &[u64],
    chain: &[u64],
) -> bool
    requires numbered { (n : ℕ) → Has chain.now n → IsNumbered (standing clauses.now earlier.now) n }
    requires shorter { AreShorter (table.new_number (length clauses.now) numbers.now)
        (standing clauses.now earlier.now) (standing clauses.now kept.now) }
    ensures { IsTrue result → AreSame (table.new_number (length clauses.now) numbers.now)
        (standing clauses.now earlier.now) (standing clauses.now kept.now) chain.now }
{
    let count = clauses.len() as u64;
    for number in chain {
        let clause = clause_at(clauses, earlier, *number);
        let other = clause_at(clauses, kept, new_number(count, numbers, *number));
        if !other.is_same(clause) {
            return false;
        }
    }
    true
}

/// A step of the log resolved again from what its clauses became.
pub fn derived(
    alloc: Global,
    clauses: &[Clause],
    earlier: &[Step],
    kept: &[Step],
    numbers: &[u64],
    step: &Step,
) -> Result<Step, NoMemory>
    requires sound { spec.chain_resolvent (standing clauses.now earlier.now) step.now.chain ≡ Some step.now.clause }
    requires shorter { AreShorter (table.new_number (length clauses.now) numbers.now)
        (standing clauses.now earlier.now) (standing clauses.now kept.now) }
    ensures { IfOk result (IsDerived (standing clauses.now kept.now) step.now.clause) }
{
    if are_same(clauses, earlier, kept, numbers, step.chain.as_slice()) {
        return renumbered_step(alloc, clauses.len() as u64, numbers, step);
    }
    resolved_anew(alloc, clauses, earlier, kept, numbers, step)
}

/// A step whose chain is resolved again, link by link.
fn resolved_anew(
    alloc: Global,
    clauses: &[Clause],
    earlier: &[Step],
    kept: &[Step],
    numbers: &[u64],
    step: &Step,
) -> Result<Step, NoMemory>
    requires sound { spec.chain_resolvent (standing clauses.now earlier.now) step.now.chain ≡ Some step.now.clause }
    requires shorter { AreShorter (table.new_number (length clauses.now) numbers.now)
        (standing clauses.now earlier.now) (standing clauses.now kept.now) }
    ensures { IfOk result (IsDerived (standing clauses.now kept.now) step.now.clause) }
{
    let count = clauses.len() as u64;
    let [first, rest @ ..] = step.chain.as_slice() else {
        unreachable!()
    };
    let mut whole = clause_at(clauses, earlier, *first).duplicate(alloc)?;
    let begin = new_number(count, numbers, *first);
    let mut current = alone(alloc, clause_at(clauses, kept, begin), begin)?;
    for number in rest {
        let before = clause_at(clauses, earlier, *number);
        let Some(resolvent) = resolve(alloc, &whole, before)? else {
            unreachable!()
        };
        let other = new_number(count, numbers, *number);
        let next = clause_at(clauses, kept, other);
        current = linked(alloc, &resolvent, current, next, other)?;
        whole = resolvent;
    }
    Ok(current)
}

//! What is learned from a conflict.

ghost use Rattle.std.specs.Prelude.{ℕ, ◌≡◌, ◌≤◌, ◌<◌, ◌++◌, ◌↔◌, List, [], IfOk, OnOk, length, take};
ghost use Rattle.clause_lits.specs.declared.lit.Lit.{Lit as SpecLit};
ghost use Rattle.clause_lits.specs.Meaning.{IsClause};
ghost use Rattle.clause_log.specs.Members.{Has};
ghost use Rattle.clause_search.specs.Trail.{FalseBut, IsAssigned, IsTrail, IsUnready};
ghost use Rattle.clause_search.specs.Findings.{IsFalseAt};
ghost use Rattle.clause_search.specs.Learning.{IsDecisionAt, IsLastDecision, IsLearned};
ghost use Rattle.clause_search.specs.Marking.{AreMarked, IsCounted, IsSpread, opposites_at};
ghost use Rattle.clause_search.specs.Searching.{IsSearch, standing};
ghost use Rattle.clause_search.specs.Ending.{left_of};

use crate::marks::Marks;
use crate::trail::{Entry, Trail, is_same};
use clause_lits::{Clause, Lit};
use clause_log::{Log, Step, clause_numbered};
use smallvec::SmallVec;
use std::alloc::Global;
use support::{NoMemory, Sequence};

/// A clause with the chain that gives it, and its one literal of the last decision level.
#[derive(Drop)]
pub struct Learned {
    pub chain: Sequence<u64>,
    pub clause: Clause,
    pub literal: Lit,
}

/// The clause of the first unique implication point: the first point on the way back from the
/// conflict where exactly one literal of the clause is of the last decision level.
pub fn analyze(
    alloc: Global,
    variables: u64,
    clauses: &[Clause],
    log: &[Step],
    trail: &Trail,
    number: u64,
    low: usize,
) -> Result<Learned, NoMemory>
    requires trail { IsTrail variables (standing clauses.now log.now) [] trail.now }
    requires conflict { IsFalseAt (standing clauses.now log.now) trail.now number }
    requires last { IsLastDecision trail.now low }
    ensures { IfOk result (IsLearned variables (standing clauses.now log.now) trail.now low) }
{
    let Some(start) = clause_numbered(clauses, log, number) else {
        unreachable!()
    };
    let mut chain = Sequence::from_vec(Vec::new(alloc));
    chain.push(number)?;
    let mut marks = Marks::new(alloc, trail.len())?;
    mark_clause(&mut marks, trail, low, start)?;
    let mut place = trail.len();
    'back: loop {
        place -= 1;
        if !marks.marked[place] {
            continue 'back;
        }
        let entry = trail.get(place);
        if marks.late == 1 {
            let literal = entry.literal.opposite();
            let clause = clause_at(alloc, trail, marks.early.as_slice(), literal)?;
            return Ok(Learned {
                chain,
                clause,
                literal,
            });
        }
        let Some(reason) = clause_numbered(clauses, log, entry.reason) else {
            unreachable!()
        };
        mark_clause(&mut marks, trail, low, reason)?;
        marks.unmark(low, place);
        chain.push(entry.reason)?;
    }
}

/// Marks the entries of the variables of a clause.
fn mark_clause(
    marks: &mut Marks,
    trail: &Trail,
    low: usize,
    clause: &Clause,
) -> Result<(), NoMemory>
    requires long { length marks.old.marked.items ≡ length trail.now }
    requires counted { IsCounted low marks.old }
    requires assigned { (l : SpecLit) → Has clause.now l → IsAssigned trail.now l.variable }
    ensures long { OnOk result (length marks.new.marked.items ≡ length trail.now) }
    ensures counted { OnOk result (IsCounted low marks.new) }
    ensures marked { OnOk result ((ls : List SpecLit) → AreMarked trail.now ls marks.old.marked.items → AreMarked trail.now (ls ++ clause.now) marks.new.marked.items) }
    ensures clause { IsClause clause.now }
{
    for literal in clause.literals() {
        let Some(place) = trail.place_of(literal.variable) else {
            unreachable!()
        };
        marks.mark(low, place)?;
    }
    Ok(())
}

/// The literal, and the opposites of those at the positions.
fn literals_at(
    alloc: Global,
    trail: &Trail,
    places: &[usize],
    literal: Lit,
) -> Result<SmallVec<Lit, 4>, NoMemory>
    requires { (p : ℕ) → Has places.now p → p < length trail.now }
    ensures { IfOk result (λ r. r.items ≡ opposites_at trail.now literal places.now) }
{
    let mut literals = SmallVec::new(alloc);
    literals.push(literal)?;
    for place in places {
        literals.push(trail.get(*place).literal.opposite())?;
    }
    Ok(literals)
}

/// The clause of the literal and the opposites of those at the positions.
fn clause_at(
    alloc: Global,
    trail: &Trail,
    places: &[usize],
    literal: Lit,
) -> Result<Clause, NoMemory>
    requires { (c : List SpecLit) × IsSpread trail.now literal places.now c }
    ensures { IfOk result (λ r. (c : List SpecLit) → IsSpread trail.now literal places.now c → r ≡ c) }
{
    let mut literals = literals_at(alloc, trail, places, literal)?;
    literals
        .as_mut_slice()
        .sort_unstable_by_key(|literal| literal.variable);
    Ok(Clause::new(literals))
}

/// The first index up to which all literals of the clause but this one are false.
fn place_past(trail: &Trail, clause: &Clause, literal: Lit) -> usize
    requires { FalseBut trail.now clause.now literal }
    ensures { (n : ℕ) → FalseBut (take n trail.now) clause.now literal ↔ (result ≤ n) }
{
    let mut past = 0;
    for other in clause.literals() {
        if is_same(*other, literal) {
            continue;
        }
        let Some(place) = trail.place_of(other.variable) else {
            unreachable!()
        };
        if place < past {
            continue;
        }
        past = place + 1;
    }
    past
}

/// The first decision at which all literals of the clause but this one are false.
pub fn jump(trail: &Trail, clause: &Clause, literal: Lit, low: usize) -> usize
    requires decision { IsDecisionAt trail.now low }
    requires unit { FalseBut (take low trail.now) clause.now literal }
    ensures within { result ≤ low }
    ensures decision { IsDecisionAt trail.now result }
    ensures unit { FalseBut (take result trail.now) clause.now literal }
    ensures first { IsUnready clause.now literal [] (take result trail.now) }
{
    let past = place_past(trail, clause, literal);
    let mut place = low;
    'down: while let Some(earlier) = trail.decision_before(place) {
        if earlier < past {
            break 'down;
        }
        place = earlier;
    }
    place
}

/// Learns from a conflict after a decision: adds the step of the learned clause, jumps back to the
/// first decision at which all its literals but one are false, and assigns that one there. Out of
/// memory the step or the literal may be missing, and the log and the trail still are a search's.
pub fn learn(
    alloc: Global,
    variables: u64,
    clauses: &[Clause],
    log: &mut Log,
    trail: &mut Trail,
    number: u64,
    low: usize,
) -> Result<(), NoMemory>
    requires search { IsSearch variables clauses.now log.old trail.old }
    requires conflict { IsFalseAt (standing clauses.now log.old) trail.old number }
    requires last { IsLastDecision trail.old low }
    ensures search { IsSearch variables clauses.now log.new trail.new }
    ensures falls { OnOk result (left_of variables trail.new < left_of variables trail.old) }
{
    let Learned {
        chain,
        clause,
        literal,
    } = analyze(
        alloc,
        variables,
        clauses,
        log.as_slice(),
        trail,
        number,
        low,
    )?;
    let place = jump(trail, &clause, literal, low);
    let reason = (clauses.len() + log.as_slice().len()) as u64 + 1;
    trail.truncate(place);
    log.push(Step { chain, clause })?;
    trail.push(Entry { literal, reason })?;
    Ok(())
}

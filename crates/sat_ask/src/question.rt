//! Questions to the solver.

ghost use Rattle.std.specs.Prelude.{◌≡◌, ◌<◌, [], All, IfOk, IfSome, IsTrue, List, OnOk, length, map, true};
ghost use Rattle.bv_terms.specs.Tree.{Tree};
ghost use Rattle.bv_terms.specs.Trees.{IsFit, IsTerm, IsWithin, tree_of};
ghost use Rattle.bit_blast.specs.Bits.{AreBits, AreStanding};
ghost use Rattle.bit_blast.specs.Table.{Follows};
ghost use Rattle.bit_blast.specs.Written.{HasVariable};
ghost use Rattle.sat_ask.specs.Asks.{AreSmall, Asks, HasSmallNumbers, IsAsked, IsFound, UsesEachStep};
ghost use Rattle.sat_ask.specs.Cones.{AreKnown, IsGoal};
ghost use Rattle.sat_ask.specs.Questions.{AreDifferent, HasAll, IsVariable, digit_count, goal_test, variables_of};

use crate::asked::Asked;
use crate::cone::cone_of;
use crate::searching::search;
use bit_blast::Blast;
use bv_terms::{Term, TermId, Terms, Variable};
use clause_lits::Cnf;
use clause_log::Cert;
use clause_search::Answer;
use gates::{GateId, to_cnf};
use std::alloc::Global;
use support::{NoMemory, Sequence};

/// The least bits of the variables in `order` that make the goal, of width 1, true, those of each
/// variable most significant first; or that none do, or how far a limit of learned clauses, at
/// least 1, went, each with clauses that ask exactly this. `order` names each variable of the goal,
/// and no variable twice. The bits of its variables are the ordered variables of the clauses, even
/// where the goal does not have the variable; besides them only the goal's terms have gates. The
/// numbers of variables and of clauses and steps are below 2^62; more is out of memory.
pub fn ask(
    alloc: Global,
    terms: &Terms,
    goal: TermId,
    order: &[TermId],
    limit: Option<u64>,
) -> Result<Asked, NoMemory>
    requires goal { IsTerm terms.now 1 goal }
    requires order { All (IsVariable terms.now) order.now }
    requires different { AreDifferent order.now }
    requires all { HasAll terms.now goal order.now }
    requires limit { IfSome limit (λ n. 0 < n) }
    ensures asked { IfOk result (IsAsked (goal_test terms.now goal order.now) (digit_count (variables_of terms.now order.now)) limit) }
    // A refutation has no step but the last that no later step is resolved from.
    ensures used { IfOk result UsesEachStep }
{
    let asked = searched(alloc, terms, goal, order, limit)?;
    if are_small(&asked) {
        Ok(asked)
    } else {
        Err(NoMemory)
    }
}

/// The answer, whatever the numbers in it.
fn searched(
    alloc: Global,
    terms: &Terms,
    goal: TermId,
    order: &[TermId],
    limit: Option<u64>,
) -> Result<Asked, NoMemory>
    requires goal { IsTerm terms.now 1 goal }
    requires order { All (IsVariable terms.now) order.now }
    requires different { AreDifferent order.now }
    requires all { HasAll terms.now goal order.now }
    requires limit { IfSome limit (λ n. 0 < n) }
    ensures found { IfOk result (IsFound (goal_test terms.now goal order.now) (digit_count (variables_of terms.now order.now)) limit) }
    ensures used { IfOk result UsesEachStep }
{
    let cnf = clauses_of(alloc, terms, goal, order)?;
    let widths = widths_of(alloc, terms, order)?;
    match search(alloc, &cnf, &widths, limit)? {
        Answer::Sat(places) => {
            let front = cnf.front as usize;
            let digits = Vec::from_slice(alloc, &places.as_slice()[..front])?;
            Ok(Asked::Least(digits))
        }
        Answer::Unsat(log) => Ok(Asked::None(Cert { cnf, log })),
        Answer::Spent(log) => Ok(Asked::Spent(Cert { cnf, log })),
    }
}

/// The numbers of variables, and of clauses and steps together, are below this.
const MOST_NUMBERS: usize = 1 << 62;

/// Whether the numbers of an answer are below 2^62.
fn are_small(asked: &Asked) -> bool
    ensures { IsTrue result → AreSmall asked.now }
{
    match asked {
        Asked::Least(_) => true,
        Asked::None(cert) => has_small_numbers(cert),
        Asked::Spent(cert) => has_small_numbers(cert),
    }
}

fn has_small_numbers(cert: &Cert) -> bool
    ensures { IsTrue result → HasSmallNumbers cert.now }
{
    let clauses = cert.cnf.clauses.len();
    cert.cnf.variables < MOST_NUMBERS as u64
        && clauses < MOST_NUMBERS
        && cert.log.len() < MOST_NUMBERS - clauses
}

/// The widths of the variables among terms.
fn widths_of(alloc: Global, terms: &Terms, order: &[TermId]) -> Result<Vec<u32>, NoMemory> {
    let mut widths = Vec::new(alloc);
    for name in order {
        if let Some(Term::Variable { width, .. }) = terms.as_slice().get(name.index) {
            widths.push(*width)?;
        }
    }
    Ok(widths)
}

/// Clauses that ask which bits of the variables in `order` make the goal true.
fn clauses_of(alloc: Global, terms: &Terms, goal: TermId, order: &[TermId]) -> Result<Cnf, NoMemory>
    requires goal { IsTerm terms.now 1 goal }
    requires order { All (IsVariable terms.now) order.now }
    requires different { AreDifferent order.now }
    requires all { HasAll terms.now goal order.now }
    ensures { IfOk result (Asks (goal_test terms.now goal order.now) (digit_count (variables_of terms.now order.now))) }
{
    let mut blast = Blast::new(alloc);
    clauses_by(alloc, terms, goal, order, &mut blast)
}

/// The same clauses, by gates that are made in an empty `blast`.
fn clauses_by(
    alloc: Global,
    terms: &Terms,
    goal: TermId,
    order: &[TermId],
    blast: &mut Blast,
) -> Result<Cnf, NoMemory>
    requires goal { IsTerm terms.now 1 goal }
    requires order { All (IsVariable terms.now) order.now }
    requires different { AreDifferent order.now }
    requires all { HasAll terms.now goal order.now }
    requires empty { blast.old.table ≡ [] }
    ensures { IfOk result (Asks (goal_test terms.now goal order.now) (digit_count (variables_of terms.now order.now))) }
{
    add_all(terms, order, blast)?;
    let out = goal_gate(alloc, terms, goal, blast)?;
    let front = blast.inputs()?;
    let cnf = to_cnf(alloc, blast.circuit(), out, &front)?;
    Ok(cnf)
}

/// Inputs for variables, in order.
fn add_all(terms: &Terms, order: &[TermId], blast: &mut Blast) -> Result<(), NoMemory>
    requires empty { blast.old.table ≡ [] }
    requires order { All (IsVariable terms.now) order.now }
    requires different { AreDifferent order.now }
    ensures { OnOk result (map (λ e. e.0) blast.new.table ≡ variables_of terms.now order.now) }
{
    for a in order {
        if let Term::Variable { number, width } = terms.as_slice()[a.index] {
            blast.add(Variable { number, width })?;
        }
    }
    Ok(())
}

/// The bits of a term of the goal, or none of another.
fn bits_of(
    alloc: Global,
    blast: &mut Blast,
    used: bool,
    term: &Term,
    done: &[Sequence<GateId>],
) -> Result<Sequence<GateId>, NoMemory>
    requires within { IsWithin (length done.now) term.now }
    requires stood { used ≡ true → (trees : List Tree) × AreStanding blast.old.gates blast.old.table trees done.now term.now × IsFit trees term.now }
    requires known { used ≡ true → HasVariable blast.old.table term.now }
    ensures stands { (trees : List Tree) → used ≡ true → AreStanding blast.old.gates blast.old.table trees done.now term.now → IsFit trees term.now →
        IfOk result (AreBits blast.new.gates blast.new.table (tree_of trees term.now)) }
    ensures follows { Follows blast.old blast.new }
    ensures table { blast.new.table ≡ blast.old.table }
{
    if used {
        blast.term(term, done)
    } else {
        Ok(Sequence::from_vec(Vec::new(alloc)))
    }
}

/// The gate of a goal whose variables have inputs.
fn goal_gate(
    alloc: Global,
    terms: &Terms,
    goal: TermId,
    blast: &mut Blast,
) -> Result<GateId, NoMemory>
    requires goal { IsTerm terms.now 1 goal }
    requires known { AreKnown blast.old.table terms.now goal }
    ensures gate { IfOk result (IsGoal blast.new.gates blast.new.table terms.now goal) }
    ensures table { OnOk result (blast.new.table ≡ blast.old.table) }
{
    let used = cone_of(alloc, terms, goal)?;
    let mut bits: Vec<Sequence<GateId>> = Vec::new(alloc);
    for (place, term) in terms.as_slice().iter().enumerate() {
        let digits = bits_of(alloc, blast, used[place], term, &bits)?;
        bits.push(digits)?;
    }
    Ok(*bits[goal.index].get(0))
}

//! The goals of the two questions.

ghost use Rattle.std.specs.Prelude.{◌≡◌, ◌∷◌, ◌&&◌, [], IfOk, length};
ghost use Rattle.verdicts.specs.Trail.{IsPoint};
ghost use Rattle.bv_terms.specs.Trees.{IsTerm, Keeps, Tests, bit_at};
ghost use Rattle.mem_terms.specs.Inputs.{AreWords, words_at};
ghost use Rattle.refine_terms.specs.Deciding.{Decides};
ghost use Rattle.refine_terms.specs.Numbers.{IsInputOf, IsTapeOf, numbers_at};
ghost use Rattle.pair_questions.specs.Candidates.{AreTapes, IsTrial, Narrows, input_in, none_allows, outcome_in, tapes_at, words_of_each};
ghost use Rattle.pair_questions.specs.PointTermsOf.{ArePointTerms};
ghost use Rattle.pair_questions.specs.Questions.{IsCovering, IsMissed};
ghost use Rattle.pair_questions.specs.Subjects.{IsOfTarget, IsSubject};
ghost use Rattle.verdicts.specs.Pair.{layout_of};

use crate::candidates::candidate_tapes;
use crate::encodable::Encodable;
use crate::known::known_input;
use crate::point_terms::PointTerms;
use crate::subject::Subject;
use crate::tapes::known;
use bv_terms::{TermId, Terms};
use candidate_runs::Candidate;
use mem_terms::{InputTerms, OutcomeTerms, TapeTerms, both, negation};
use points::{Bounds, Layout, Point};
use refine_terms::{covered, well_point};
use std::alloc::Global;
use support::NoMemory;

/// What tapes of the source are tried for: an input, and the target's outcome on it.
#[derive(Clone, Copy)]
struct Trial<'t> {
    source: &'t Encodable<'t>,
    bounds: &'t Bounds,
    layout: &'t Layout,
    input: &'t InputTerms,
    target: &'t OutcomeTerms,
}

/// True where the goal is and the source's run on this tape doesn't allow the target's outcome.
fn and_uncovered(
    alloc: Global,
    trial: &Trial,
    candidate: &TapeTerms,
    goal: TermId,
    terms: &mut Terms,
) -> Result<TermId, NoMemory>
    requires trial { IsTrial terms.old trial.now }
    requires words { AreWords terms.old candidate.now.words }
    requires goal { IsTerm terms.old 1 goal }
    ensures made { IfOk result (Narrows trial.now terms.old terms.new goal (λ v. words_at v terms.old candidate.now.words ∷ [])) }
    ensures kept { Keeps terms.old terms.new }
{
    let source = trial.source.encode(
        alloc,
        trial.bounds,
        trial.layout,
        trial.input,
        candidate,
        terms,
    )?;
    let is_covered = covered(&source, trial.target, terms)?;
    let is_uncovered = negation(terms, is_covered)?;
    let id = both(terms, goal, is_uncovered)?;
    Ok(id)
}

/// True where the goal is and on none of the candidates the source's run allows the target's
/// outcome.
fn and_none(
    alloc: Global,
    trial: &Trial,
    candidates: &[TapeTerms],
    goal: TermId,
    terms: &mut Terms,
) -> Result<TermId, NoMemory>
    requires trial { IsTrial terms.old trial.now }
    requires candidates { AreTapes terms.old candidates.now }
    requires goal { IsTerm terms.old 1 goal }
    ensures made { IfOk result (Narrows trial.now terms.old terms.new goal (λ v. tapes_at v terms.old candidates.now)) }
    ensures kept { Keeps terms.old terms.new }
{
    let mut goal = goal;
    for candidate in candidates {
        goal = and_uncovered(alloc, trial, candidate, goal, terms)?;
    }
    Ok(goal)
}

/// True where the goal is and on this tape the source's run doesn't allow the target's outcome.
pub fn and_no_tape(
    alloc: Global,
    subject: &Subject,
    of: &PointTerms,
    tape: &[u64],
    goal: TermId,
    terms: &mut Terms,
) -> Result<TermId, NoMemory>
    requires subject { IsSubject subject.now }
    requires terms { ArePointTerms subject.now terms.old of.now }
    requires goal { IsTerm terms.old 1 goal }
    ensures made { IfOk result (λ id. Tests terms.new id (λ v. bit_at v terms.old goal && none_allows subject.now.pair.now.source subject.now.bounds.now
        (input_in (layout_of subject.now.pair.now subject.now.bounds.now) v terms.old of.now.input) (outcome_in (layout_of subject.now.pair.now subject.now.bounds.now) v terms.old of.now.target) (tape.now ∷ []))) }
    ensures kept { Keeps terms.old terms.new }
{
    let candidate = known(alloc, tape, terms)?;
    let trial = Trial {
        source: &subject.source,
        bounds: subject.bounds,
        layout: &subject.shape.layout,
        input: &of.input,
        target: &of.target,
    };
    let id = and_uncovered(alloc, &trial, &candidate, goal, terms)?;
    Ok(id)
}

/// The outcome of the target's run.
pub fn target_run(
    alloc: Global,
    subject: &Subject,
    input: &InputTerms,
    tape: &TapeTerms,
    terms: &mut Terms,
) -> Result<OutcomeTerms, NoMemory>
    requires subject { IsSubject subject.now }
    requires input { IsInputOf subject.now.shape terms.old input.now }
    requires words { AreWords terms.old tape.now.words }
    ensures made { IfOk result (IsOfTarget subject.now.pair.now subject.now.bounds.now terms.new input.now tape.now) }
    ensures kept { Keeps terms.old terms.new }
{
    let outcome = subject.target.encode(
        alloc,
        subject.bounds,
        &subject.shape.layout,
        input,
        tape,
        terms,
    )?;
    Ok(outcome)
}

/// True where the numbers of the terms are the code of a point.
pub fn is_point(
    subject: &Subject,
    input: &InputTerms,
    tape: &TapeTerms,
    target: &OutcomeTerms,
    terms: &mut Terms,
) -> Result<TermId, NoMemory>
    requires subject { IsSubject subject.now }
    requires input { IsInputOf subject.now.shape terms.old input.now }
    requires tape { IsTapeOf subject.now.shape terms.old tape.now }
    requires target { IsOfTarget subject.now.pair.now subject.now.bounds.now terms.old input.now tape.now target.now }
    ensures made { IfOk result (λ id. Decides terms.new id (λ v. IsMissed subject.now.pair.now subject.now.bounds.now [] [] (numbers_at v terms.old input.now tape.now))) }
    ensures kept { Keeps terms.old terms.new }
{
    well_point(&subject.shape, input, tape, target, terms)
}

/// True where the goal is and on none of the tapes of these candidates the source's run allows the
/// target's outcome.
pub fn and_no_candidate(
    alloc: Global,
    subject: &Subject,
    of: &PointTerms,
    candidates: &[Candidate],
    goal: TermId,
    terms: &mut Terms,
) -> Result<TermId, NoMemory>
    requires subject { IsSubject subject.now }
    requires terms { ArePointTerms subject.now terms.old of.now }
    requires goal { IsTerm terms.old 1 goal }
    ensures made { IfOk result (λ id. Tests terms.new id (λ v. bit_at v terms.old goal && none_allows subject.now.pair.now.source subject.now.bounds.now
        (input_in (layout_of subject.now.pair.now subject.now.bounds.now) v terms.old of.now.input) (outcome_in (layout_of subject.now.pair.now subject.now.bounds.now) v terms.old of.now.target)
        (words_of_each subject.now.need (words_at v terms.old of.now.numbers) (words_at v terms.old of.now.tape.words) candidates.now))) }
    ensures kept { Keeps terms.old terms.new }
{
    let tapes = candidate_tapes(
        alloc,
        candidates,
        of.numbers.as_slice(),
        of.tape.words.as_slice(),
        subject.need as usize,
        terms,
    )?;
    let trial = Trial {
        source: &subject.source,
        bounds: subject.bounds,
        layout: &subject.shape.layout,
        input: &of.input,
        target: &of.target,
    };
    let id = and_none(alloc, &trial, tapes.as_slice(), goal, terms)?;
    Ok(id)
}

/// True where the words of the terms are a tape of the source that covers the point.
pub fn covering(
    alloc: Global,
    subject: &Subject,
    point: &Point,
    tape: &TapeTerms,
    terms: &mut Terms,
) -> Result<TermId, NoMemory>
    requires subject { IsSubject subject.now }
    requires point { IsPoint subject.now.pair.now subject.now.bounds.now point.now }
    requires words { AreWords terms.old tape.now.words }
    requires count { length tape.now.words ≡ subject.now.need }
    ensures made { IfOk result (λ id. Decides terms.new id (λ v. IsCovering subject.now.pair.now subject.now.bounds.now point.now (words_at v terms.old tape.now.words))) }
    ensures kept { Keeps terms.old terms.new }
{
    terms.values_fit();
    let input = known_input(alloc, &subject.shape, point, terms)?;
    let choices = known(alloc, point.tape.as_slice(), terms)?;
    let target = target_run(alloc, subject, &input, &choices, terms)?;
    let source = subject.source.encode(
        alloc,
        subject.bounds,
        &subject.shape.layout,
        &input,
        tape,
        terms,
    )?;
    let id = covered(&source, &target, terms)?;
    Ok(id)
}

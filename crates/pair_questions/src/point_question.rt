//! The question for a point that the tapes so far don't cover.

ghost use Rattle.std.specs.Prelude.{◌≡◌, ◌++◌, ◌∷◌, ◌<◌, [], IfOk, IfSome, IsFalse, IsTrue, List, OnOk, length};
ghost use Rattle.candidate_runs.specs.Candidates.{NoneCovers};
ghost use Rattle.candidate_runs.specs.declared.candidate.Candidate.{Candidate};
ghost use Rattle.pair_questions.specs.Orders.{IsOrder};
ghost use Rattle.pair_questions.specs.PointQuestions.{IsPointQuestion, IsQuestionOf};
ghost use Rattle.pair_questions.specs.PointTermsOf.{ArePointTerms};
ghost use Rattle.pair_questions.specs.Questions.{IsFoundCode, IsFoundMissed, IsFoundPoint, point_widths};
ghost use Rattle.pair_questions.specs.Shapes.{input_ids};
ghost use Rattle.pair_questions.specs.Subjects.{IsSubject};
ghost use Rattle.verdicts.specs.Trail.{IsPoint};

use crate::asking::{least_numbers, widths_of};
use crate::found::Found;
use crate::goals::{and_no_candidate, and_no_tape, is_point, target_run};
use crate::inputs::{input_variables, tape_variables};
use crate::point_terms::PointTerms;
use crate::subject::Subject;
use crate::tapes::integer_words;
use bv_terms::{TermId, Terms};
use candidate_runs::{Candidate, SHIFTS, templates_for, tried_on};
use points::{Point, point_of};
use std::alloc::Global;
use support::{NoMemory, Sequence};

/// Terms with a goal that is true where the numbers of the variables are the code of a point that
/// no candidate of the goal and no excluded tape covers. The terms and the goal grow with each.
pub struct PointQuestion {
    /// The excluded tapes.
    pub tapes: Sequence<Sequence<u64>>,
    /// How many clauses an answer may learn, where there is a limit.
    pub limit: Option<u64>,
    terms: Terms,
    /// The variables in the order of a code, and how many bits each has.
    order: Sequence<TermId>,
    widths: Sequence<u32>,
    of: PointTerms,
    goal: TermId,
    /// The candidates that are not in the goal.
    left: Vec<Candidate>,
}

// Dropped by one call: a derived drop is written out at each return.
impl Drop for PointQuestion {
    fn drop(self) {
        let PointQuestion {
            tapes,
            limit,
            terms,
            order,
            widths,
            of,
            goal,
            left,
        } = self;
    }
}

/// The terms of a point, whose variables are in the order of a code.
fn point_terms(
    alloc: Global,
    subject: &Subject,
    terms: &mut Terms,
    order: &mut Vec<TermId>,
) -> Result<PointTerms, NoMemory>
    requires subject { IsSubject subject.now }
    requires no_terms { terms.old ≡ [] }
    requires no_order { order.old.items ≡ [] }
    ensures terms { IfOk result (ArePointTerms subject.now terms.new) }
    ensures order { OnOk result (IsOrder terms.new order.new.items (point_widths subject.now.pair.now subject.now.bounds.now)) }
    ensures ids { IfOk result (λ of. order.new.items ≡ input_ids of.input ++ of.tape.words) }
{
    let input = input_variables(alloc, &subject.shape, terms, order)?;
    let tape = tape_variables(alloc, subject.shape.words, terms, order)?;
    let target = target_run(alloc, subject, &input, &tape, terms)?;
    let numbers = integer_words(alloc, input.args.as_slice(), terms)?;
    Ok(PointTerms {
        input,
        tape,
        numbers,
        target,
    })
}

impl PointQuestion {
    /// The question for any point, covered or not.
    fn for_any(alloc: Global, subject: &Subject, limit: Option<u64>) -> Result<Self, NoMemory>
        requires subject { IsSubject subject.now }
        ensures question { IfOk result (IsQuestionOf subject.now []) }
        ensures none { IfOk result (λ question. question.tapes ≡ []) }
        ensures limit { IfOk result (λ question. question.limit ≡ limit) }
        ensures left { IfOk result (λ question. question.left.items ≡ []) }
    {
        let mut terms = Terms::new(alloc);
        let mut order = Vec::new(alloc);
        let of = point_terms(alloc, subject, &mut terms, &mut order)?;
        let widths = widths_of(alloc, &terms, order.as_slice())?;
        let goal = is_point(subject, &of.input, &of.tape, &of.target, &mut terms)?;
        Ok(PointQuestion {
            tapes: Sequence::from_vec(Vec::new(alloc)),
            limit,
            terms,
            order: Sequence::from_vec(order),
            widths: Sequence::from_vec(widths),
            of,
            goal,
            left: Vec::new(alloc),
        })
    }

    /// The question that excludes no tape but the candidates. Its goal has the shifts, and where
    /// there is a limit all candidates, since what is learned has to be of the whole question.
    pub fn new(alloc: Global, subject: &Subject, limit: Option<u64>) -> Result<Self, NoMemory>
        requires subject { IsSubject subject.now }
        requires limit { IfSome limit (λ n. 0 < n) }
        ensures question { IfOk result (IsPointQuestion subject.now) }
        ensures none { IfOk result (λ question. question.tapes ≡ []) }
        ensures limit { IfOk result (λ question. question.limit ≡ limit) }
    {
        let templates = templates_for(alloc, subject.shape.parameters.as_slice())?;
        let mut question = PointQuestion::for_any(alloc, subject, limit)?;
        question.join(alloc, subject, &SHIFTS)?;
        if limit.is_some() {
            question.join(alloc, subject, templates.as_slice())?;
            return Ok(question);
        }
        question.left = templates;
        Ok(question)
    }

    /// Brings more candidates into the goal.
    fn join(
        &mut self,
        alloc: Global,
        subject: &Subject,
        candidates: &[Candidate],
    ) -> Result<(), NoMemory>
        requires subject { IsSubject subject.now }
        requires question { (front : List Candidate) × IsQuestionOf subject.now front self.old }
        ensures question { OnOk result ((front : List Candidate) → IsQuestionOf subject.now front self.old → IsQuestionOf subject.now (front ++ candidates.now) self.new) }
        ensures tapes { self.new.tapes ≡ self.old.tapes }
        ensures limit { self.new.limit ≡ self.old.limit }
        ensures left { self.new.left ≡ self.old.left }
    {
        self.goal = and_no_candidate(
            alloc,
            subject,
            &self.of,
            candidates,
            self.goal,
            &mut self.terms,
        )?;
        Ok(())
    }

    /// Excludes one more tape of the source.
    pub fn exclude(
        &mut self,
        alloc: Global,
        subject: &Subject,
        tape: Sequence<u64>,
    ) -> Result<(), NoMemory>
        requires subject { IsSubject subject.now }
        requires question { IsPointQuestion subject.now self.old }
        ensures question { OnOk result (IsPointQuestion subject.now self.new) }
        ensures more { OnOk result (self.new.tapes ≡ self.old.tapes ++ tape ∷ []) }
        ensures limit { self.new.limit ≡ self.old.limit }
    {
        self.goal = and_no_tape(
            alloc,
            subject,
            &self.of,
            tape.as_slice(),
            self.goal,
            &mut self.terms,
        )?;
        self.tapes.push(tape)?;
        Ok(())
    }

    /// The code of the least point of the goal.
    fn least_code(&self, alloc: Global, subject: &Subject) -> Result<Found<Sequence<u64>>, NoMemory>
        requires subject { IsSubject subject.now }
        requires question { IsPointQuestion subject.now self.now }
        ensures { (question : IsPointQuestion subject.now self.now) → IfOk result (IsFoundCode subject.now.pair.now subject.now.bounds.now subject.now.shape question.front self.now.tapes self.now.limit) }
    {
        self.terms.as_slice();
        least_numbers(
            alloc,
            &self.terms,
            self.goal,
            self.order.as_slice(),
            self.widths.as_slice(),
            self.limit,
        )
    }

    /// The least point of the goal.
    fn least_missed(&self, alloc: Global, subject: &Subject) -> Result<Found<Point>, NoMemory>
        requires subject { IsSubject subject.now }
        requires question { IsPointQuestion subject.now self.now }
        ensures { (question : IsPointQuestion subject.now self.now) → IfOk result (IsFoundMissed subject.now.pair.now subject.now.bounds.now question.front self.now.tapes self.now.limit) }
    {
        match self.least_code(alloc, subject)? {
            Found::Least(code) => {
                let point = point_of(alloc, code.as_slice(), &subject.shape)?;
                Ok(Found::Least(point))
            }
            Found::None(cert) => Ok(Found::None(cert)),
            Found::Spent(cert) => Ok(Found::Spent(cert)),
        }
    }

    /// Brings a candidate into the goal that covers the point and was left out of it, if there is one.
    fn widen(&mut self, alloc: Global, subject: &Subject, point: &Point) -> Result<bool, NoMemory>
        requires subject { IsSubject subject.now }
        requires question { IsPointQuestion subject.now self.old }
        ensures widened { IfOk result (λ widened. IsTrue widened → IsPointQuestion subject.now self.new × (length self.new.left.items < length self.old.left.items)) }
        ensures none { IfOk result (λ widened. IsFalse widened → NoneCovers subject.now.pair.now subject.now.bounds.now point.now self.old.left.items × (self.new ≡ self.old)) }
        ensures tapes { self.new.tapes ≡ self.old.tapes }
        ensures limit { self.new.limit ≡ self.old.limit }
    {
        if self.left.is_empty() {
            return Ok(false);
        }
        let left = self.left.as_slice();
        let need = subject.need as usize;
        match tried_on(alloc, subject.pair, subject.bounds, point, left, need)? {
            Some(i) => {
                let candidate = self.left.remove(i);
                self.join(alloc, subject, &[candidate]).and(Ok(true))
            }
            None => Ok(false),
        }
    }

    /// The least point that neither a candidate nor an excluded tape covers. Where the goal has a
    /// point that a candidate outside the goal covers, that candidate joins the goal, which is
    /// asked again.
    pub fn least(&mut self, alloc: Global, subject: &Subject) -> Result<Found<Point>, NoMemory>
        requires subject { IsSubject subject.now }
        requires question { IsPointQuestion subject.now self.old }
        ensures found { IfOk result (IsFoundPoint subject.now.pair.now subject.now.bounds.now self.new.tapes self.new.limit) }
        ensures question { OnOk result (IsPointQuestion subject.now self.new) }
        ensures tapes { self.new.tapes ≡ self.old.tapes }
        ensures limit { self.new.limit ≡ self.old.limit }
    {
        loop {
            match self.least_missed(alloc, subject)? {
                Found::Least(point) => {
                    if !self.widen(alloc, subject, &point)? {
                        return Ok(Found::Least(point));
                    }
                }
                Found::None(cert) => return Ok(Found::None(cert)),
                Found::Spent(cert) => return Ok(Found::Spent(cert)),
            }
        }
    }

    /// The excluded tapes, where the question is over.
    pub fn into_tapes(self) -> Sequence<Sequence<u64>>
        ensures { result ≡ self.tapes }
    {
        let PointQuestion {
            tapes,
            limit,
            terms,
            order,
            widths,
            of,
            goal,
            left,
        } = self;
        tapes
    }
}

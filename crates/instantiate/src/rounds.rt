//! The trail of points and tapes, and its rounds.

ghost use Rattle.std.specs.Prelude.{◌≡◌, ◌<◌, IfOk, IfSome};
ghost use Rattle.points.specs.declared.point.Budget.{Budget};
ghost use Rattle.verdicts.specs.Covers.{IsLeastCover};
ghost use Rattle.verdicts.specs.Trail.{IsLeastUncovered};
ghost use Rattle.pair_questions.specs.Subjects.{IsSubject};
ghost use Rattle.instantiate.specs.Rounds.{IsRound, IsTrail, kept_in};
ghost use Rattle.instantiate.specs.Settling.{limit_of};

use clause_log::Cert;
use pair_questions::{Found, PointQuestion, Subject, least_cover};
use points::{Budget, Point, copy_point};
use std::alloc::Global;
use support::{NoMemory, Sequence};
use verdicts::{Cause, Kept, Verdict};

/// How a trail ends: the verdict, and what shows its last question answered.
#[derive(Drop)]
pub struct End {
    pub verdict: Verdict,
    pub cert: Option<Cert>,
}

/// The points so far, and the question for the next one, which excludes the tapes so far.
pub struct Trail {
    pub question: PointQuestion,
    pub points: Vec<Point>,
}

// Dropped by one call: a derived drop is written out at each return.
impl Drop for Trail {
    fn drop(self) {
        let Trail { question, points } = self;
    }
}

/// The most clauses that a question may learn, where there is a limit.
fn limit_in(budget: &Budget) -> Option<u64>
    ensures value { result ≡ limit_of budget.now.conflicts }
    ensures positive { IfSome result (λ n. 0 < n) }
{
    if budget.conflicts == 0 {
        None
    } else {
        Some(budget.conflicts)
    }
}

impl Trail {
    /// The trail without a point. The only error is out of memory.
    pub fn new(alloc: Global, subject: &Subject, budget: &Budget) -> Result<Trail, NoMemory>
        requires { IsSubject subject.now }
        ensures { IfOk result (IsTrail subject.now budget.now) }
    {
        let question = PointQuestion::new(alloc, subject, limit_in(budget))?;
        Ok(Trail {
            question,
            points: Vec::new(alloc),
        })
    }

    /// The point is on the trail with its tape, unless the tape is one too many.
    fn take(
        &mut self,
        alloc: Global,
        subject: &Subject,
        budget: &Budget,
        point: Point,
        tape: Sequence<u64>,
    ) -> Result<Option<End>, NoMemory>
        requires subject { IsSubject subject.now }
        requires trail { IsTrail subject.now budget.now self.old }
        requires least { IsLeastUncovered subject.now.pair.now subject.now.bounds.now self.old.question.tapes point }
        requires cover { IsLeastCover subject.now.pair.now subject.now.bounds.now point tape }
        ensures { IfOk result (IsRound subject.now budget.now self.old self.new) }
    {
        self.points.push(point)?;
        if self.question.tapes.len() as u64 == budget.rounds {
            return Ok(Some(End {
                verdict: Verdict::Unknown(Cause::Rounds),
                cert: None,
            }));
        }
        self.question.exclude(alloc, subject, tape)?;
        Ok(None)
    }

    /// The point is on the trail with the least tape that covers it. The trail ends where there is
    /// none, where the limit is spent, and where the tape is one too many.
    fn answer(
        &mut self,
        alloc: Global,
        subject: &Subject,
        budget: &Budget,
        point: Point,
    ) -> Result<Option<End>, NoMemory>
        requires subject { IsSubject subject.now }
        requires trail { IsTrail subject.now budget.now self.old }
        requires least { IsLeastUncovered subject.now.pair.now subject.now.bounds.now self.old.question.tapes point }
        ensures { IfOk result (IsRound subject.now budget.now self.old self.new) }
    {
        match least_cover(alloc, subject, &point, limit_in(budget))? {
            Found::Least(tape) => self.take(alloc, subject, budget, point, tape),
            Found::None(cert) => {
                let last = copy_point(alloc, &point)?;
                self.points.push(point)?;
                Ok(Some(End {
                    verdict: Verdict::Incorrect(last),
                    cert: Some(cert),
                }))
            }
            Found::Spent(cert) => {
                self.points.push(point)?;
                Ok(Some(End {
                    verdict: Verdict::Unknown(Cause::Conflicts),
                    cert: Some(cert),
                }))
            }
        }
    }

    /// Asks both questions once. The trail ends where every point is covered, where no tape covers the
    /// least point that is not, where the limit is spent, and where a tape would be one too many; else
    /// it has one more point and one more tape. The only error is out of memory.
    pub fn round(
        &mut self,
        alloc: Global,
        subject: &Subject,
        budget: &Budget,
    ) -> Result<Option<End>, NoMemory>
        requires subject { IsSubject subject.now }
        requires trail { IsTrail subject.now budget.now self.old }
        ensures { IfOk result (IsRound subject.now budget.now self.old self.new) }
    {
        match self.question.least(alloc, subject)? {
            Found::Least(point) => self.answer(alloc, subject, budget, point),
            Found::None(cert) => Ok(Some(End {
                verdict: Verdict::Correct,
                cert: Some(cert),
            })),
            Found::Spent(cert) => Ok(Some(End {
                verdict: Verdict::Unknown(Cause::Conflicts),
                cert: Some(cert),
            })),
        }
    }

    /// Its tapes and points.
    pub fn into_kept(self) -> Kept
        ensures { result ≡ kept_in self }
    {
        let Trail { question, points } = self;
        Kept {
            tapes: question.into_tapes(),
            points: Sequence::from_vec(points),
        }
    }
}

//! The verdict on a pair.

ghost use Rattle.std.specs.Prelude.{◌≡◌, IfOk};
ghost use Rattle.ir_tree.specs.Limits.{IsWithinLimits};
ghost use Rattle.lowering.specs.Lowered.{CanBeLowered};
ghost use Rattle.points.specs.Range.{AreInRange};
ghost use Rattle.instantiate.specs.Settling.{IsSettled, IsTold};
ghost use Rattle.pair_questions.specs.Subjects.{IsSubject};
ghost use Rattle.verdicts.specs.Pair.{run_pair};

use crate::rounds::{End, Trail};
use crate::settled::Settled;
use pair_costs::weight;
use pair_questions::Subject;
use points::{Bounds, Budget};
use std::alloc::Global;
use support::{NoMemory, Sequence};
use verdicts::{Cause, Kept, LoweredPair, Pair, Verdict};

/// The verdict that ends a trail, with what is kept of the trail.
fn settled(kept: Kept, end: End) -> Settled
    ensures { result ≡ record { verdict = end.verdict; kept = kept; cert = end.cert } }
{
    Settled {
        verdict: end.verdict,
        kept,
        cert: end.cert,
    }
}

/// The verdict on a pair that is not too heavy.
fn grow(alloc: Global, subject: &Subject, budget: &Budget) -> Result<Settled, NoMemory>
    requires { IsSubject subject.now }
    ensures { IfOk result (IsTold subject.now.pair.now subject.now.bounds.now budget.now) }
{
    let mut trail = Trail::new(alloc, subject, budget)?;
    loop {
        if let Some(end) = trail.round(alloc, subject, budget)? {
            return Ok(settled(trail.into_kept(), end));
        }
    }
}

/// The verdict on a pair that is not too heavy, of its functions as they are run.
fn told_of(
    alloc: Global,
    pair: &Pair,
    bounds: &Bounds,
    budget: &Budget,
) -> Result<Settled, NoMemory>
    requires source_run { CanBeLowered pair.now.source }
    requires target_run { CanBeLowered pair.now.target }
    requires in_range { AreInRange bounds.now budget.now }
    ensures { IfOk result (IsTold (run_pair pair.now) bounds.now budget.now) }
{
    let lowered = LoweredPair::new(alloc, pair)?;
    let run = lowered.run_pair();
    let subject = Subject::new(alloc, &run, bounds)?;
    grow(alloc, &subject, budget)
}

/// The verdict on a pair of functions, with the trail that led to it. Each round asks for the least
/// point that neither a candidate nor a tape of the trail covers, and then for the least
/// tape of the source that covers it, as in counterexample-guided instantiation of quantifiers; the
/// two quantifiers are those of refinement as Alive2 defines it (PLDI 2021). `correct` and
/// `incorrect` come with a refutation of the last question. `unknown weight` is the answer, before
/// anything is asked, exactly where the weight is above the budget's. `unknown rounds` is the
/// answer where one more tape would be one too many. `unknown conflicts` is the answer only under a
/// limit, which is not 0, with what was learned of the next question.
pub fn settle(
    alloc: Global,
    pair: &Pair,
    bounds: &Bounds,
    budget: &Budget,
) -> Result<Settled, NoMemory>
    requires source_limits { IsWithinLimits pair.now.source }
    requires target_limits { IsWithinLimits pair.now.target }
    requires source_run { CanBeLowered pair.now.source }
    requires target_run { CanBeLowered pair.now.target }
    requires in_range { AreInRange bounds.now budget.now }
    ensures { IfOk result (IsSettled pair.now bounds.now budget.now) }
{
    if budget.weight < weight(alloc, pair, bounds)? {
        return Ok(Settled {
            verdict: Verdict::Unknown(Cause::Weight),
            kept: Kept {
                tapes: Sequence::from_vec(Vec::new(alloc)),
                points: Sequence::from_vec(Vec::new(alloc)),
            },
            cert: None,
        });
    }
    told_of(alloc, pair, bounds, budget)
}

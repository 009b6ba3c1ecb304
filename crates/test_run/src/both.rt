//! A pair judged by counting and by questions.

ghost use Rattle.std.specs.Prelude.{IfOk};
ghost use Rattle.ir_reader.specs.Judgeable.{IsJudgeable};
ghost use Rattle.points.specs.Range.{AreInRange};
ghost use Rattle.verdicts.specs.Trail.{IsVerdict};
ghost use Rattle.pair_judge.specs.Answers.{IsAnswer};

use pair_driver::{Judge, Judged};
use pair_judge::Real;
use points::{Bounds, Budget};
use slow_judge::slow;
use std::alloc::Global;
use support::NoMemory;
use verdicts::{Pair, Verdict};

/// The answers of two judges on one pair.
#[derive(Drop)]
pub struct Both {
    /// By questions to the solver.
    pub asked: Judged,
    /// By counting.
    pub counted: Verdict,
}

/// The answer of the judge by questions and the verdict by counting.
pub fn both_verdicts(
    alloc: Global,
    pair: &Pair,
    bounds: &Bounds,
    budget: &Budget,
) -> Result<Both, NoMemory>
    requires source { IsJudgeable pair.now.source }
    requires target { IsJudgeable pair.now.target }
    requires in_range { AreInRange bounds.now budget.now }
    ensures asked { IfOk result (λ both. IsAnswer pair.now bounds.now budget.now both.asked) }
    ensures counted { IfOk result (λ both. IsVerdict pair.now bounds.now budget.now both.counted) }
{
    let judge = Real {
        bounds: *bounds,
        budget: *budget,
    };
    let asked = judge.judge(alloc, pair)?;
    let counted = slow(alloc, pair, bounds, budget)?;
    Ok(Both { asked, counted })
}

//! The judge of the program.

ghost use Rattle.points.specs.Range.{AreInRange};

use instantiate::settle;
use pair_driver::{Judge, Judged};
use points::{Bounds, Budget};
use std::alloc::Global;
use support::NoMemory;
use verdicts::Pair;

/// The judge of pairs within bounds and a budget.
#[derive(Clone, Copy, Debug, PartialEq, Eq)]
pub struct Real {
    pub bounds: Bounds,
    pub budget: Budget,
    ghost in_range: { AreInRange bounds budget },
}

impl Judge for Real {
    ghost use Rattle.pair_judge.specs.Answers.{CanBeJudged, IsAnswer};

    ghost takes = { λ judge pair. CanBeJudged pair };

    ghost allows = { λ judge pair answer. IsAnswer pair judge.bounds judge.budget answer };

    fn judge(&self, alloc: Global, pair: &Pair) -> Result<Judged, NoMemory> {
        let settled = settle(alloc, pair, &self.bounds, &self.budget)?;
        Ok(Judged {
            verdict: settled.verdict,
            kept: settled.kept,
            cert: settled.cert,
        })
    }
}

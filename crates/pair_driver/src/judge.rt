ghost use Rattle.std.specs.Prelude.{IfOk};
ghost use Rattle.verdicts.specs.Pair.{Functions};
ghost use Rattle.pair_driver.specs.declared.judged.Judged.{Judged};

use crate::judged::Judged;
use std::alloc::Global;
use support::NoMemory;
use verdicts::Pair;

/// A judge of pairs, which many workers may ask.
pub trait Judge: Sync {
    // The pairs that it takes.
    ghost takes: { Self → Functions → Type 0 };
    // What it may answer of a pair.
    ghost allows: { Self → Functions → Judged → Type 0 };

    /// The answer on a pair.
    fn judge(&self, alloc: Global, pair: &Pair) -> Result<Judged, NoMemory>
        requires { takes self.now pair.now }
        ensures { IfOk result (allows self.now pair.now) };
}

//! How two outcomes differ.

ghost use Rattle.std.specs.Prelude.{◌≡◌, true, MatchOption};
ghost use Rattle.points.specs.Refines.{returned_allows, is_refined};
ghost use Rattle.pair_trace.specs.Differences.{IsReturnDifference, IsDifference};

use crate::memory::memory_difference;
use byte_block::Value;
use points::{Outcome, returned_is_allowed};

/// How the target's outcome differs from the source's.
#[derive(Clone, Copy, Debug, PartialEq, Eq)]
pub enum Difference {
    /// The target is undefined behaviour, and the source returns.
    Undefined,
    /// The target returns poison, and the source another value.
    MorePoisonous,
    /// They return different values.
    Value,
    /// They leave different numbers of blocks.
    Blocks,
    /// The blocks at this index have different names or sizes.
    Block { index: usize },
    /// A byte of the blocks at this index is different, the first of the block that is.
    Byte { index: usize, byte: usize },
}

fn return_difference(source: Option<Value>, target: Option<Value>) -> Option<Difference>
    ensures { MatchOption result (returned_allows source target ≡ true) (IsReturnDifference source target) }
{
    if returned_is_allowed(source, target) {
        return None;
    }
    match target {
        Some(Value::Poison) => Some(Difference::MorePoisonous),
        _ => Some(Difference::Value),
    }
}

/// Why the source's outcome does not allow the target's; `None` where it does.
pub fn difference_of(source: &Outcome, target: &Outcome) -> Option<Difference>
    ensures { MatchOption result (is_refined source.now target.now ≡ true) (IsDifference source.now target.now) }
{
    match (source, target) {
        (_, Outcome::Beyond) | (Outcome::Ub | Outcome::Beyond, _) => None,
        (Outcome::Return(..), Outcome::Ub) => Some(Difference::Undefined),
        (Outcome::Return(s, m), Outcome::Return(t, n)) => match return_difference(*s, *t) {
            Some(difference) => Some(difference),
            None => memory_difference(m.as_slice(), n.as_slice()),
        },
    }
}

//! How a run ends, and whether one end allows another.

ghost use Rattle.std.specs.Prelude.{◌≡◌};
ghost use Rattle.points.specs.Refines.{is_refined};
ghost use Rattle.choice_interp.specs.Ran.{outcome_of};

use byte_block::{Memory, Value};
use points::{Outcome, blocks_are_allowed, returned_is_allowed};

/// How a run ends, without the memory that it leaves.
#[derive(Clone, Copy, Debug, PartialEq, Eq)]
pub enum Ending {
    Return(Option<Value>),
    Ub,
    Beyond,
}

impl Ending {
    /// The outcome of a run that leaves this memory.
    pub fn with_memory(self, memory: Memory) -> Outcome
        ensures { result ≡ outcome_of self memory }
    {
        match self {
            Ending::Return(value) => Outcome::Return(value, memory),
            Ending::Ub => Outcome::Ub,
            Ending::Beyond => Outcome::Beyond,
        }
    }
}

/// Whether the source's run, which ended so and left this memory, allows the target's.
pub fn runs_refine(
    source: Ending,
    source_memory: &Memory,
    target: Ending,
    target_memory: &Memory,
) -> bool
    ensures { result ≡ is_refined (outcome_of source source_memory.now) (outcome_of target target_memory.now) }
{
    match (source, target) {
        (_, Ending::Beyond) | (Ending::Ub | Ending::Beyond, _) => true,
        (Ending::Return(_), Ending::Ub) => false,
        (Ending::Return(s), Ending::Return(t)) => {
            returned_is_allowed(s, t)
                && blocks_are_allowed(source_memory.as_slice(), target_memory.as_slice())
        }
    }
}

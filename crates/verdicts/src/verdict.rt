use points::{Outcome, Point};
use support::Sequence;

/// What was spent where there is no verdict.
#[derive(Clone, Copy, Debug, PartialEq, Eq)]
pub enum Cause {
    Weight,
    Rounds,
    Conflicts,
}

/// Whether the target refines the source within the bounds.
#[derive(Drop)]
pub enum Verdict {
    Correct,
    /// The least point that no choices of the source cover.
    Incorrect(Point),
    Unknown(Cause),
}

/// The tapes of the source that were added on the way to a verdict, and the points that they were
/// added for, in order. The last point may have no tape.
#[derive(Drop)]
pub struct Kept {
    pub tapes: Sequence<Sequence<u64>>,
    pub points: Sequence<Point>,
}

/// What a counterexample shows: the target's outcome on the point, the source's outcome on the tape
/// of zeros, and how many words the target read.
#[derive(Drop)]
pub struct Shown {
    pub target: Outcome,
    pub source: Outcome,
    pub read: u64,
}

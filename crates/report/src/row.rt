use ir_tree::{Name, Refused};
use points::Point;
use verdicts::{Cause, Shown};

/// Which of two modules.
#[derive(Clone, Copy, Debug, PartialEq, Eq)]
pub enum Side {
    Source,
    Target,
}

/// What is found of a function.
#[derive(Drop)]
pub enum Finding {
    /// Within the bounds each run of the target refines some run of the source.
    Correct,
    /// The least point that no choices of the source cover, and what each side does there.
    Incorrect { point: Point, shown: Shown },
    /// The verdict's weight, rounds or conflicts were spent.
    Unknown(Cause),
    /// The function of this side is not accepted.
    Refused { side: Side, refused: Refused },
    /// The return type or the parameter types differ.
    Signature,
    /// The target has no function of the name.
    Missing,
    /// The source has no function of the name.
    Extra,
}

/// A row of a report: a function's name, and what is found of it.
#[derive(Drop)]
pub struct Row {
    pub name: Name,
    pub finding: Finding,
}

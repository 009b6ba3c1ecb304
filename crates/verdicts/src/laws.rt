ghost use Rattle.verdicts.specs.Laws.{CorrectHolds, IncorrectFails, LeastCoversArePlain, VerdictsAreOne};

/// The least tape that covers a point is plain for the source's run.
pub fn least_covers_are_plain()
    ensures { LeastCoversArePlain }
{}

/// Where the verdict on two functions that the reader accepts is correct, each run of the target is one
/// that a run of the source allows, on every input within the bounds and for choices of any length. The
/// runs are those of the functions as they are read, each use of a register that carries undef sampled.
pub fn correct_holds()
    ensures { CorrectHolds }
{}

/// Where the verdict is incorrect, no run of the source allows the target's run at its point, and some
/// run allows it at each smaller point.
pub fn incorrect_fails()
    ensures { IncorrectFails }
{}

/// A pair has at most one verdict.
pub fn verdicts_are_one()
    ensures { VerdictsAreOne }
{}

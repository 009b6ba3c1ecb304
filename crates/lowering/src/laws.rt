//! What is promised of a lowered function.

ghost use Rattle.lowering.specs.Laws.{AcceptedCanBeLowered, SamplesArePresent};

/// A function that the reader accepts has the runs of its lowered one: the same outcome and the same
/// choices, on every input and every tape.
pub fn samples_are_present()
    ensures { SamplesArePresent }
{}

/// A function that the reader accepts can be lowered, and its lowered one can be run.
pub fn accepted_can_be_lowered()
    ensures { AcceptedCanBeLowered }
{}

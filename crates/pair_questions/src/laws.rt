//! Variables in the order of a code leave no input out.

ghost use Rattle.pair_questions.specs.Assignments.{InputsHaveAssignments};

/// The questions leave no input out: for each input within the bounds and each tape of the target
/// there is an assignment of the question's variables under which its terms denote them.
pub fn inputs_have_assignments()
    ensures { InputsHaveAssignments }
{}

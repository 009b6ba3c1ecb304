//! What the judge answers is what a report may say.

ghost use Rattle.pair_judge.specs.Laws.{AnswersAreVerdicts};

/// An answer's verdict is the defined one, except where the limit on conflicts was spent.
pub fn answers_are_verdicts()
    ensures { AnswersAreVerdicts }
{}

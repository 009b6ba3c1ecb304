ghost use Rattle.claim_board.specs.Board.{EachRunHasLeastFound, EachRunIsDrawn};

/// Each run of a board hands each number to one seat, once.
pub fn each_run_is_drawn()
    ensures { EachRunIsDrawn }
{}

/// Each run of a board keeps the least number found, and passes over only numbers above it.
pub fn each_run_has_least_found()
    ensures { EachRunHasLeastFound }
{}

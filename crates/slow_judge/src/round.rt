//! One round of the judge: the least point that the tapes so far do not cover, and a tape for it.

ghost use Rattle.std.specs.Prelude.{◌≡◌, MatchOption, IfOk};
ghost use Rattle.points.specs.Tapes.{need_of, widest_choice};
ghost use Rattle.pair_costs.specs.Small.{AreSmall};
ghost use Rattle.candidate_runs.specs.Candidates.{AreRunnable};
ghost use Rattle.slow_judge.specs.Search.{IsReady, IsFound, IsEnd, HasAdded};

use crate::bench::Bench;
use crate::search::{Tape, least_cover, least_uncovered};
use points::{Bounds, Budget, Point};
use std::alloc::Global;
use support::{NoMemory, Sequence};
use verdicts::{Cause, RunPair, Verdict};

/// What a round finds.
#[derive(Drop)]
pub enum Round {
    /// The tapes so far cover every point.
    Correct,
    /// No tape covers this point, the least one that the tapes so far do not cover.
    Incorrect(Point),
    /// This is the least tape that covers the least point that the tapes so far do not cover.
    Covered(Sequence<u64>),
}

/// What the round after these tapes finds.
pub fn next_round(
    alloc: Global,
    pair: &RunPair,
    bounds: &Bounds,
    of_source: Tape,
    of_target: Tape,
    tapes: &[Sequence<u64>],
    bench: &mut Bench,
) -> Result<Round, NoMemory>
    requires pair { AreRunnable pair.now }
    requires small { AreSmall bounds.now }
    requires source_words { of_source.words ≡ need_of bounds.now.turns pair.now.source }
    requires source_width { of_source.width.bits ≡ widest_choice pair.now.source }
    requires target_words { of_target.words ≡ need_of bounds.now.turns pair.now.target }
    requires target_width { of_target.width.bits ≡ widest_choice pair.now.target }
    requires ready { IsReady pair.now bounds.now bench.old }
    ensures found { IfOk result (IsFound pair.now bounds.now tapes.now) }
    ensures ready { IsReady pair.now bounds.now bench.new }
{
    let point = match least_uncovered(alloc, pair, bounds, of_target, tapes, bench)? {
        Some(point) => point,
        None => return Ok(Round::Correct),
    };
    match least_cover(alloc, pair, bounds, of_source, &point, bench)? {
        Some(tape) => Ok(Round::Covered(tape)),
        None => Ok(Round::Incorrect(point)),
    }
}

/// Adds the tape that a round found. The answer is the verdict where there is none, or where the
/// tape is one too many.
pub fn add_tape(
    budget: &Budget,
    tapes: &mut Vec<Sequence<u64>>,
    found: Round,
) -> Result<Option<Verdict>, NoMemory>
    ensures { IfOk result (λ verdict. MatchOption verdict
        (HasAdded budget.now tapes.old.items found tapes.new.items)
        (IsEnd budget.now tapes.old.items found)) }
{
    match found {
        Round::Correct => Ok(Some(Verdict::Correct)),
        Round::Incorrect(point) => Ok(Some(Verdict::Incorrect(point))),
        Round::Covered(tape) => {
            if tapes.len() as u64 == budget.rounds {
                return Ok(Some(Verdict::Unknown(Cause::Rounds)));
            }
            tapes.push(tape)?;
            Ok(None)
        }
    }
}

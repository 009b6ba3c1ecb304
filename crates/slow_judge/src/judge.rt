//! The verdict by counting.

ghost use Rattle.std.specs.Prelude.{◌≡◌, IfOk};
ghost use Rattle.ir_tree.specs.Limits.{IsWithinLimits};
ghost use Rattle.lowering.specs.Lowered.{CanBeLowered};
ghost use Rattle.points.specs.Range.{AreInRange};
ghost use Rattle.points.specs.Tapes.{need_of, widest_choice};
ghost use Rattle.verdicts.specs.Pair.{run_pair};
ghost use Rattle.verdicts.specs.Trail.{IsVerdict};
ghost use Rattle.pair_costs.specs.Small.{AreSmall};
ghost use Rattle.candidate_runs.specs.Candidates.{AreRunnable};
ghost use Rattle.slow_judge.specs.Search.{IsReady, HasTrail};

use crate::bench::Bench;
use crate::round::{add_tape, next_round};
use crate::search::Tape;
use candidate_runs::{templates_for, tries_for};
use choice_interp::runner_for;
use pair_costs::{need, weight, widest_of};
use points::{Bounds, Budget};
use std::alloc::Global;
use support::{NoMemory, Sequence};
use verdicts::{Cause, LoweredPair, Pair, RunPair, Verdict};

fn bench_for(alloc: Global, pair: &RunPair, bounds: &Bounds, need: usize) -> Result<Bench, NoMemory>
    requires { need ≡ need_of bounds.now.turns pair.now.source }
    ensures { IfOk result (IsReady pair.now bounds.now) }
{
    Ok(Bench {
        source: tries_for(alloc, pair, bounds, need)?,
        target: runner_for(alloc, pair.target())?,
        templates: templates_for(alloc, pair.target().parameters.as_slice())?,
    })
}

/// The verdict on a pair that is not too heavy, by rounds with this bench.
fn grow(
    alloc: Global,
    pair: &RunPair,
    bounds: &Bounds,
    budget: &Budget,
    of_source: Tape,
    of_target: Tape,
    bench: &mut Bench,
) -> Result<Verdict, NoMemory>
    requires pair { AreRunnable pair.now }
    requires small { AreSmall bounds.now }
    requires source_words { of_source.words ≡ need_of bounds.now.turns pair.now.source }
    requires source_width { of_source.width.bits ≡ widest_choice pair.now.source }
    requires target_words { of_target.words ≡ need_of bounds.now.turns pair.now.target }
    requires target_width { of_target.width.bits ≡ widest_choice pair.now.target }
    requires ready { IsReady pair.now bounds.now bench.old }
    ensures { IfOk result (HasTrail pair.now bounds.now budget.now) }
{
    let mut tapes: Vec<Sequence<u64>> = Vec::new(alloc);
    loop {
        let found = next_round(
            alloc,
            pair,
            bounds,
            of_source,
            of_target,
            tapes.as_slice(),
            bench,
        )?;
        if let Some(verdict) = add_tape(budget, &mut tapes, found)? {
            return Ok(verdict);
        }
    }
}

/// The verdict on a pair that is not too heavy, by rounds.
fn found_by_rounds(
    alloc: Global,
    pair: &RunPair,
    bounds: &Bounds,
    budget: &Budget,
    of_source: Tape,
    of_target: Tape,
) -> Result<Verdict, NoMemory>
    requires pair { AreRunnable pair.now }
    requires small { AreSmall bounds.now }
    requires source_words { of_source.words ≡ need_of bounds.now.turns pair.now.source }
    requires source_width { of_source.width.bits ≡ widest_choice pair.now.source }
    requires target_words { of_target.words ≡ need_of bounds.now.turns pair.now.target }
    requires target_width { of_target.width.bits ≡ widest_choice pair.now.target }
    ensures { IfOk result (HasTrail pair.now bounds.now budget.now) }
{
    let mut bench = bench_for(alloc, pair, bounds, of_source.words)?;
    grow(
        alloc, pair, bounds, budget, of_source, of_target, &mut bench,
    )
}

/// The verdict on the functions of a pair that is not too heavy, as they are run.
fn found_of(
    alloc: Global,
    run: &RunPair,
    bounds: &Bounds,
    budget: &Budget,
) -> Result<Verdict, NoMemory>
    requires pair { AreRunnable run.now }
    requires small { AreSmall bounds.now }
    ensures { IfOk result (HasTrail run.now bounds.now budget.now) }
{
    let of_source = Tape {
        words: need(run.source(), bounds.turns)? as usize,
        width: widest_of(run.source()),
    };
    let of_target = Tape {
        words: need(run.target(), bounds.turns)? as usize,
        width: widest_of(run.target()),
    };
    found_by_rounds(alloc, run, bounds, budget, of_source, of_target)
}

/// The verdict on a pair that is not too heavy.
fn found(alloc: Global, pair: &Pair, bounds: &Bounds, budget: &Budget) -> Result<Verdict, NoMemory>
    requires source_run { CanBeLowered pair.now.source }
    requires target_run { CanBeLowered pair.now.target }
    requires in_range { AreInRange bounds.now budget.now }
    ensures { IfOk result (HasTrail (run_pair pair.now) bounds.now budget.now) }
{
    let lowered = LoweredPair::new(alloc, pair)?;
    found_of(alloc, &lowered.run_pair(), bounds, budget)
}

/// The verdict on a pair. Its time grows with two to the power of the pair's bits, and with all given
/// blocks of the bounds where one of the functions has pointers.
pub fn slow(
    alloc: Global,
    pair: &Pair,
    bounds: &Bounds,
    budget: &Budget,
) -> Result<Verdict, NoMemory>
    requires source_limits { IsWithinLimits pair.now.source }
    requires target_limits { IsWithinLimits pair.now.target }
    requires source_run { CanBeLowered pair.now.source }
    requires target_run { CanBeLowered pair.now.target }
    requires in_range { AreInRange bounds.now budget.now }
    ensures { IfOk result (IsVerdict pair.now bounds.now budget.now) }
{
    if budget.weight < weight(alloc, pair, bounds)? {
        return Ok(Verdict::Unknown(Cause::Weight));
    }
    found(alloc, pair, bounds, budget)
}

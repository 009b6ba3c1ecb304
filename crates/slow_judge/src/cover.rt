//! Whether some tape of the source covers a point.

ghost use Rattle.std.specs.Prelude.{◌≡◌, ◌↔◌, IsTrue, IfOk, length};
ghost use Rattle.choice_interp.specs.Runners.{IsRunner};
ghost use Rattle.points.specs.Run.{run_of};
ghost use Rattle.points.specs.Tapes.{need_of};
ghost use Rattle.candidate_runs.specs.Candidates.{AreRunnable, DoesEnd};
ghost use Rattle.verdicts.specs.Covers.{covers, some_covers, tried};
ghost use Rattle.slow_judge.specs.Search.{IsReady, IsUncovered};

use crate::bench::Bench;
use byte_block::Memory;
use candidate_runs::{SHIFTS, allows, first_cover, run_target};
use choice_interp::{Ending, Runner, is_plain};
use points::{Bounds, Point};
use support::{NoMemory, Sequence};
use verdicts::RunPair;

/// Whether one of the tapes covers the point, on which the target's run ended so.
fn some_allows(
    pair: &RunPair,
    bounds: &Bounds,
    point: &Point,
    tapes: &[Sequence<u64>],
    target: Ending,
    memory: &Memory,
    runner: &mut Runner,
) -> Result<bool, NoMemory>
    requires pair { AreRunnable pair.now }
    requires ready { IsRunner pair.now.source runner.old }
    requires target { DoesEnd pair.now bounds.now point.now target memory.now }
    ensures value { IfOk result (λ holds. holds ≡ some_covers pair.now bounds.now point.now tapes.now) }
    ensures ready { IsRunner pair.now.source runner.new }
{
    for tape in tapes {
        if allows(pair, bounds, point, tape.as_slice(), target, memory, runner)? {
            return Ok(true);
        }
    }
    Ok(false)
}

/// Whether one of the candidates covers the point, on which the target's run ended so.
fn some_candidate_allows(
    pair: &RunPair,
    bounds: &Bounds,
    point: &Point,
    target: Ending,
    bench: &mut Bench,
) -> Result<bool, NoMemory>
    requires pair { AreRunnable pair.now }
    requires ready { IsReady pair.now bounds.now bench.old }
    requires args { length point.now.input.args ≡ length pair.now.target.parameters }
    requires target { DoesEnd pair.now bounds.now point.now target bench.old.target.machine.memory }
    ensures value { IfOk result (λ holds. holds ≡ some_covers pair.now bounds.now point.now (tried pair.now bounds.now point.now)) }
    ensures ready { IsReady pair.now bounds.now bench.new }
    ensures target { bench.new.target ≡ bench.old.target }
{
    let memory = &bench.target.machine.memory;
    let tries = &mut bench.source;
    if first_cover(pair, bounds, point, &SHIFTS, target, memory, tries)?.is_some() {
        return Ok(true);
    }
    let templates = bench.templates.as_slice();
    let found = first_cover(pair, bounds, point, templates, target, memory, tries)?;
    Ok(found.is_some())
}

/// Whether the source covers the point with the tape.
pub fn is_cover(
    pair: &RunPair,
    bounds: &Bounds,
    point: &Point,
    tape: &[u64],
    bench: &mut Bench,
) -> Result<bool, NoMemory>
    requires pair { AreRunnable pair.now }
    requires ready { IsReady pair.now bounds.now bench.old }
    ensures value { IfOk result (λ holds. holds ≡ covers pair.now bounds.now point.now tape.now) }
    ensures ready { IsReady pair.now bounds.now bench.new }
{
    let target = run_target(pair, bounds, point, &mut bench.target)?;
    let holds = allows(
        pair,
        bounds,
        point,
        tape,
        target,
        &bench.target.machine.memory,
        &mut bench.source.runner,
    )?;
    Ok(holds)
}

/// Whether the point's tape is plain and neither a candidate nor one of the tapes covers the point.
pub fn is_uncovered(
    pair: &RunPair,
    bounds: &Bounds,
    tapes: &[Sequence<u64>],
    point: &Point,
    bench: &mut Bench,
) -> Result<bool, NoMemory>
    requires pair { AreRunnable pair.now }
    requires ready { IsReady pair.now bounds.now bench.old }
    requires args { length point.now.input.args ≡ length pair.now.target.parameters }
    ensures value { IfOk result (λ holds. IsTrue holds ↔ IsUncovered pair.now bounds.now tapes.now point.now) }
    ensures ready { IsReady pair.now bounds.now bench.new }
{
    let target = run_target(pair, bounds, point, &mut bench.target)?;
    if !is_plain(point.tape.as_slice(), bench.target.machine.taken.as_slice()) {
        return Ok(false);
    }
    if some_candidate_allows(pair, bounds, point, target, bench)? {
        return Ok(false);
    }
    Ok(!some_allows(
        pair,
        bounds,
        point,
        tapes,
        target,
        &bench.target.machine.memory,
        &mut bench.source.runner,
    )?)
}

//! Whether the source's run on a candidate allows the target's run.

ghost use Rattle.std.specs.Prelude.{◌≡◌, IfOk, MatchOption, OnOk};
ghost use Rattle.choice_interp.specs.Runners.{IsRunner};
ghost use Rattle.points.specs.Run.{run_of};
ghost use Rattle.points.specs.Tapes.{need_of};
ghost use Rattle.verdicts.specs.Covers.{covers, integers};
ghost use Rattle.candidate_runs.specs.Candidates.{AreRunnable, AreTries, DoesEnd, CoversAt, NoneCovers, tape_of};

use crate::candidate::Candidate;
use crate::words::{write_integers, write_words};
use byte_block::Memory;
use choice_interp::{Ending, Runner, run_again, runner_for, runs_refine};
use points::{Bounds, Point};
use std::alloc::Global;
use support::{NoMemory, Sequence};
use verdicts::RunPair;

/// What tries of the source reuse: its runner, and room for the numbers of a point's integer
/// arguments and for one tape.
pub struct Tries {
    pub runner: Runner,
    numbers: Vec<u64>,
    tape: Sequence<u64>,
}

// Dropped by one call: a derived drop is written out at each return.
impl Drop for Tries {
    fn drop(self) {
        let Tries {
            runner,
            numbers,
            tape,
        } = self;
    }
}

/// Room for tries of the pair's source, whose tapes have this many words.
pub fn tries_for(
    alloc: Global,
    pair: &RunPair,
    bounds: &Bounds,
    need: usize,
) -> Result<Tries, NoMemory>
    requires { need ≡ need_of bounds.now.turns pair.now.source }
    ensures { IfOk result (AreTries pair.now bounds.now) }
{
    Ok(Tries {
        runner: runner_for(alloc, pair.source())?,
        numbers: Vec::new(alloc),
        tape: Sequence::from_vec(vec![in alloc; 0; need]?),
    })
}

/// How the target's run on the point ends.
pub fn run_target(
    pair: &RunPair,
    bounds: &Bounds,
    point: &Point,
    runner: &mut Runner,
) -> Result<Ending, NoMemory>
    requires pair { AreRunnable pair.now }
    requires ready { IsRunner pair.now.target runner.old }
    ensures end { IfOk result (λ ending. DoesEnd pair.now bounds.now point.now ending runner.new.machine.memory) }
    ensures taken { OnOk result ((run_of pair.now.target bounds.now point.now.input point.now.tape).taken ≡ runner.new.machine.taken) }
    ensures ready { IsRunner pair.now.target runner.new }
{
    let ending = run_again(
        runner,
        pair.target(),
        bounds,
        &point.input,
        point.tape.as_slice(),
    )?;
    Ok(ending)
}

/// Whether the source's run on the tape allows the target's run on the point, which ended so
/// and left this memory.
#[tactic(auto, using(crate::proofs::Covering::covers_at))]
pub fn allows(
    pair: &RunPair,
    bounds: &Bounds,
    point: &Point,
    tape: &[u64],
    target: Ending,
    memory: &Memory,
    runner: &mut Runner,
) -> Result<bool, NoMemory>
    requires pair { AreRunnable pair.now }
    requires ready { IsRunner pair.now.source runner.old }
    requires target { DoesEnd pair.now bounds.now point.now target memory.now }
    ensures value { IfOk result (λ holds. holds ≡ covers pair.now bounds.now point.now tape.now) }
    ensures ready { IsRunner pair.now.source runner.new }
{
    let source = run_again(runner, pair.source(), bounds, &point.input, tape)?;
    Ok(runs_refine(source, &runner.machine.memory, target, memory))
}

/// Whether the candidate covers the point, whose integer arguments have the numbers that were
/// written.
fn candidate_allows(
    pair: &RunPair,
    bounds: &Bounds,
    point: &Point,
    candidate: Candidate,
    target: Ending,
    memory: &Memory,
    tries: &mut Tries,
) -> Result<bool, NoMemory>
    requires pair { AreRunnable pair.now }
    requires ready { AreTries pair.now bounds.now tries.old }
    requires numbers { tries.old.numbers.items ≡ integers pair.now.target.parameters point.now.input.args }
    requires target { DoesEnd pair.now bounds.now point.now target memory.now }
    ensures value { IfOk result (λ holds. holds ≡ covers pair.now bounds.now point.now (tape_of pair.now bounds.now point.now candidate)) }
    ensures ready { AreTries pair.now bounds.now tries.new }
    ensures numbers { tries.new.numbers ≡ tries.old.numbers }
{
    write_words(
        &mut tries.tape,
        candidate,
        tries.numbers.as_slice(),
        point.tape.as_slice(),
    );
    allows(
        pair,
        bounds,
        point,
        tries.tape.as_slice(),
        target,
        memory,
        &mut tries.runner,
    )
}

/// The index of a candidate that covers the point, on which the target's run ended so and left this
/// memory; `None` where none of them does.
pub fn first_cover(
    pair: &RunPair,
    bounds: &Bounds,
    point: &Point,
    candidates: &[Candidate],
    target: Ending,
    memory: &Memory,
    tries: &mut Tries,
) -> Result<Option<usize>, NoMemory>
    requires pair { AreRunnable pair.now }
    requires ready { AreTries pair.now bounds.now tries.old }
    requires target { DoesEnd pair.now bounds.now point.now target memory.now }
    ensures found { IfOk result (λ found. MatchOption found (NoneCovers pair.now bounds.now point.now candidates.now) (CoversAt pair.now bounds.now point.now candidates.now)) }
    ensures ready { AreTries pair.now bounds.now tries.new }
{
    write_integers(
        &mut tries.numbers,
        pair.target().parameters.as_slice(),
        point.input.args.as_slice(),
    )?;
    for i in 0..candidates.len() {
        if candidate_allows(pair, bounds, point, candidates[i], target, memory, tries)? {
            return Ok(Some(i));
        }
    }
    Ok(None)
}

/// The index of a candidate that covers the point, `None` where none of them does. A tape of the
/// source has this many words.
pub fn tried_on(
    alloc: Global,
    pair: &RunPair,
    bounds: &Bounds,
    point: &Point,
    candidates: &[Candidate],
    need: usize,
) -> Result<Option<usize>, NoMemory>
    requires pair { AreRunnable pair.now }
    requires need { need ≡ need_of bounds.now.turns pair.now.source }
    ensures { IfOk result (λ found. MatchOption found (NoneCovers pair.now bounds.now point.now candidates.now) (CoversAt pair.now bounds.now point.now candidates.now)) }
{
    let mut tries = tries_for(alloc, pair, bounds, need)?;
    let mut runner = runner_for(alloc, pair.target())?;
    let target = run_target(pair, bounds, point, &mut runner)?;
    first_cover(
        pair,
        bounds,
        point,
        candidates,
        target,
        &runner.machine.memory,
        &mut tries,
    )
}

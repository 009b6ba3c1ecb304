ghost use Rattle.std.specs.Prelude.{◌≡◌, ◌+◌, ◌*◌, ◌^◌, ◌<◌, ◌≤◌, false, length, slice_index_or, take, IfOk};
ghost use Rattle.std.specs.List.{AllByRecursion, AllZip};
ghost use Rattle.verdicts.specs.Pair.{Functions};
ghost use Rattle.pair_driver.specs.Draws.{StopsAtFirst};
ghost use Rattle.pair_driver.specs.Incorrect.{is_incorrect};

use crate::gate::Gate;
use crate::judge::Judge;
use crate::judged::Judged;
use crate::share::{run_all, run_first};
use crate::tasks::Tasks;
use std::alloc::Global;
use std::thread::Threads;
use support::NoMemory;
use verdicts::{Pair, Verdict};

/// The pairs that a judge has to judge, each after it has passed the gate.
#[derive(Drop)]
struct Batch<'b, J: Judge, G: Gate> {
    judge: &'b J,
    gate: &'b G,
    pairs: &'b [Pair<'b>],
}

impl<'b, J: Judge, G: Gate> Tasks for Batch<'b, J, G> {
    ghost use Rattle.std.specs.Prelude.{false, length, slice_index_or};
    ghost use Rattle.std.specs.List.{AllByRecursion};
    ghost use Rattle.verdicts.specs.Pair.{Functions};

    ghost ready = { λ batch. AllByRecursion (J.takes batch.judge.now) batch.pairs.now };

    ghost count = { λ batch. length batch.pairs.now };

    ghost allows = { λ batch i judged. (d : Functions) → J.allows batch.judge.now (slice_index_or batch.pairs.now i d) judged };

    ghost ending = { λ _ _. false };

    fn len(&self) -> u64 {
        self.pairs.len() as u64
    }

    fn run(&self, alloc: Global, number: u64) -> Result<Judged, NoMemory> {
        self.gate.pass(number);
        self.judge.judge(alloc, &self.pairs[number as usize])
    }

    fn ends(&self, _judged: &Judged) -> bool {
        false
    }
}

/// The pairs of a batch, up to the first one that is incorrect.
#[derive(Drop)]
struct Search<'b, J: Judge, G: Gate> {
    batch: Batch<'b, J, G>,
}

impl<'b, J: Judge, G: Gate> Tasks for Search<'b, J, G> {
    ghost use Rattle.std.specs.Prelude.{length, slice_index_or};
    ghost use Rattle.std.specs.List.{AllByRecursion};
    ghost use Rattle.verdicts.specs.Pair.{Functions};
    ghost use Rattle.pair_driver.specs.Incorrect.{is_incorrect};

    ghost ready = { λ search. AllByRecursion (J.takes search.batch.judge.now) search.batch.pairs.now };

    ghost count = { λ search. length search.batch.pairs.now };

    ghost allows = { λ search i judged. (d : Functions) → J.allows search.batch.judge.now (slice_index_or search.batch.pairs.now i d) judged };

    ghost ending = { λ _ judged. is_incorrect judged };

    fn len(&self) -> u64 {
        self.batch.len()
    }

    fn run(&self, alloc: Global, number: u64) -> Result<Judged, NoMemory> {
        self.batch.run(alloc, number)
    }

    fn ends(&self, judged: &Judged) -> bool {
        matches!(judged.verdict, Verdict::Incorrect(_))
    }
}

/// How many of these workers there is a pair for, and at least one: a thread that finds no pair left costs
/// more than a small pair.
fn needed(workers: u64, count: usize) -> u64
    requires some_worker { 0 < workers }
    requires fits { workers * (count + 1) < 2 ^ 64 }
    ensures some_worker { 0 < result }
    ensures few { result ≤ workers }
    ensures fits { result * (count + 1) < 2 ^ 64 }
{
    workers.min(count as u64).max(1)
}

/// Judges all pairs by `workers` workers, and answers the judgements in the order of the pairs.
///
/// Each worker claims the next pair when it is free, so one pair that takes long does not hold the
/// others; no more are started than there are pairs. Before a pair is judged it passes the gate, by its index. Where a thread can't be started its
/// work is done by the caller. `NoMemory` where some worker ran out of memory.
pub fn drive<J: Judge, G: Gate, R: Threads + Sync>(
    rt: &R,
    alloc: Global,
    judge: &J,
    gate: &G,
    pairs: &[Pair],
    workers: u64,
) -> Result<Vec<Judged>, NoMemory>
    requires some_worker { 0 < workers }
    requires fits { workers * (length pairs.now + 1) < 2 ^ 64 }
    requires taken { AllByRecursion (J.takes judge.now) pairs.now }
    ensures { IfOk result (λ answers. AllZip (J.allows judge.now) pairs.now answers.items) }
{
    let batch = Batch { judge, gate, pairs };
    let workers = needed(workers, pairs.len());
    let answers = run_all(rt, alloc, &batch, workers)?;
    Ok(answers)
}

/// Judges the pairs up to the first incorrect one by `workers` workers, and answers the judgements in the
/// order of the pairs: all of them where none is incorrect.
///
/// A worker that finds an incorrect pair reports it, and all workers pass over the pairs after it. How many
/// of these were judged before depends on the schedule; their judgements are dropped. `NoMemory` where some
/// worker ran out of memory, also on such a pair.
pub fn drive_first<J: Judge, G: Gate, R: Threads + Sync>(
    rt: &R,
    alloc: Global,
    judge: &J,
    gate: &G,
    pairs: &[Pair],
    workers: u64,
) -> Result<Vec<Judged>, NoMemory>
    requires some_worker { 0 < workers }
    requires fits { workers * (length pairs.now + 1) < 2 ^ 64 }
    requires taken { AllByRecursion (J.takes judge.now) pairs.now }
    ensures allowed { IfOk result (λ answers. AllZip (J.allows judge.now) (take (length answers.items) pairs.now) answers.items) }
    // No answer but the last is incorrect, and one is where there are fewer answers than pairs.
    ensures stops { IfOk result (λ answers. StopsAtFirst is_incorrect (length pairs.now) answers.items) }
{
    let search = Search {
        batch: Batch { judge, gate, pairs },
    };
    let workers = needed(workers, pairs.len());
    let answers = run_first(rt, alloc, &search, workers)?;
    Ok(answers)
}

/// Judges all pairs one after the other on the caller's thread, and answers the judgements in the order
/// of the pairs. It starts no thread. `NoMemory` where a pair ran out of memory; the pairs after it are
/// not judged.
pub fn judge_all<J: Judge>(
    alloc: Global,
    judge: &J,
    pairs: &[Pair],
) -> Result<Vec<Judged>, NoMemory>
    requires taken { AllByRecursion (J.takes judge.now) pairs.now }
    ensures { IfOk result (λ answers. AllZip (J.allows judge.now) pairs.now answers.items) }
{
    let mut answers = Vec::new(alloc);
    for pair in pairs {
        answers.push(judge.judge(alloc, pair)?)?;
    }
    Ok(answers)
}

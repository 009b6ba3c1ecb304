ghost use Rattle.std.specs.Prelude.{◌≡◌, ◌+◌, ◌*◌, ◌^◌, ◌<◌, false, All, IfOk, vec_len};
ghost use Rattle.std.specs.Thread.{IsSync};
ghost use Rattle.pair_driver.specs.Draws.{AreFirst, AreRun, IsFresh, IsGroup};
ghost use Rattle.pair_driver.specs.declared.judged.Judged.{Judged};

use crate::desks::{Desk, desks_for};
use crate::judged::Judged;
use crate::place::place;
use crate::tasks::Tasks;
use crate::work::work_at;
use claim_board::Board;
use std::alloc::Global;
use std::thread::{Threads, join};
use support::NoMemory;

/// Runs all tasks by `workers` workers, and answers in the order of the tasks. No answer ends the run.
pub fn run_all<T: Tasks, R: Threads + Sync>(
    rt: &R,
    alloc: Global,
    tasks: &T,
    workers: u64,
) -> Result<Vec<Judged>, NoMemory>
    requires some_worker { 0 < workers }
    requires fits { workers * (T.count tasks.now + 1) < 2 ^ 64 }
    requires ready { T.ready tasks.now }
    requires endless { (judged : Judged) → T.ending tasks.now judged ≡ false }
    ensures { IfOk result (λ answers. AreRun (T.allows tasks.now) (T.count tasks.now) answers.items) }
{
    let answers = run_first(rt, alloc, tasks, workers)?;
    Ok(answers)
}

/// Runs tasks by `workers` workers, and answers in the order of the tasks, up to the first answer that
/// ends the run.
///
/// Each worker claims the next task when it is free, so one task that takes long does not hold the
/// others. Nothing is shared between workers but the board. Where a thread can't be started its work is
/// done by the caller. `NoMemory` where some task ran out of memory; that worker claims all tasks that are
/// left, so that the others end with the task that they are at.
pub fn run_first<T: Tasks, R: Threads + Sync>(
    rt: &R,
    alloc: Global,
    tasks: &T,
    workers: u64,
) -> Result<Vec<Judged>, NoMemory>
    requires some_worker { 0 < workers }
    requires fits { workers * (T.count tasks.now + 1) < 2 ^ 64 }
    requires ready { T.ready tasks.now }
    ensures { IfOk result (λ answers. AreFirst (T.allows tasks.now) (T.ending tasks.now) (T.count tasks.now) answers.items) }
{
    let count = tasks.len();
    let (board, seat) = Board::new(alloc, count, workers)?;
    let desks = desks_for(alloc, &board, seat, count, workers)?;
    let Desk { seat, answers } = share(rt, alloc, &board, tasks, desks, workers)?;
    board.close_with(seat);
    let placed = place(alloc, tasks, count as usize, answers)?;
    Ok(placed)
}

/// Runs the tasks by a worker for each desk: the last one's on a thread of its own, beside the others.
#[cycle(shares)]
fn share<T: Tasks, R: Threads + Sync>(
    rt: &R,
    alloc: Global,
    board: &Board,
    tasks: &T,
    mut desks: Vec<Desk>,
    workers: u64,
) -> Result<Desk, NoMemory>
    requires ready { T.ready tasks.now }
    requires some_worker { 0 < workers }
    requires each { vec_len desks ≡ workers }
    requires fresh { All (IsFresh board.now (T.count tasks.now)) desks.items }
    ensures { IfOk result (IsGroup board.now (T.allows tasks.now) (T.ending tasks.now) (T.count tasks.now) workers) }
{
    let Some(desk) = desks.pop() else {
        unreachable!()
    };
    if workers == 1 {
        return work_at(alloc, board, tasks, desk);
    }
    let others = workers - 1;
    let (mine, theirs) = join(
        rt,
        || -> Result<Desk, NoMemory>
            requires { T.ready tasks.now × IsFresh board.now (T.count tasks.now) desk }
            ensures { IfOk result (IsGroup board.entry.now (T.allows tasks.entry.now) (T.ending tasks.entry.now) (T.count tasks.entry.now) 1) }
        { work_at(alloc, board, tasks, desk) },
        || -> Result<Desk, NoMemory>
            requires { IsSync R.row × T.ready tasks.now × (0 < others) × (vec_len desks ≡ others) × All (IsFresh board.now (T.count tasks.now)) desks.items }
            ensures { IfOk result (IsGroup board.entry.now (T.allows tasks.entry.now) (T.ending tasks.entry.now) (T.count tasks.entry.now) others) }
        { share(rt, alloc, board, tasks, desks, others) },
    );
    merged(board, tasks, mine?, theirs?, others)
}

/// What a worker and a group of workers bring back, as what one group does.
fn merged<T: Tasks>(
    board: &Board,
    tasks: &T,
    mine: Desk,
    theirs: Desk,
    others: u64,
) -> Result<Desk, NoMemory>
    requires mine { IsGroup board.now (T.allows tasks.now) (T.ending tasks.now) (T.count tasks.now) 1 mine }
    requires theirs { IsGroup board.now (T.allows tasks.now) (T.ending tasks.now) (T.count tasks.now) others theirs }
    ensures { IfOk result (IsGroup board.now (T.allows tasks.now) (T.ending tasks.now) (T.count tasks.now) (1 + others)) }
{
    let Desk {
        mut seat,
        mut answers,
    } = mine;
    let Desk {
        seat: other_seat,
        answers: mut other_answers,
    } = theirs;
    board.join(&mut seat, other_seat);
    answers.append(&mut other_answers)?;
    Ok(Desk { seat, answers })
}

ghost use Rattle.std.specs.Prelude.{◌≡◌, ◌+◌, ◌<◌, ◌≤◌, ◌++◌, ◌∷◌, [], if◌then◌else◌, Contains, IfOk, OnOk, vec_len, vec_capacity};
ghost use Rattle.claim_board.specs.Board.{with_found, with_passed};
ghost use Rattle.claim_board.specs.Seats.{IsSeatOf, hand_of, items_of};
ghost use Rattle.pair_driver.specs.Draws.{HasEnded, IsClaiming, IsFresh, IsGroup};

use crate::desks::Desk;
use crate::place::Answer;
use crate::tasks::Tasks;
use claim_board::{Board, Seat};
use std::alloc::Global;
use support::NoMemory;

/// A worker from its first claim to its last, and what it brings back.
pub fn work_at<T: Tasks>(
    alloc: Global,
    board: &Board,
    tasks: &T,
    mut desk: Desk,
) -> Result<Desk, NoMemory>
    requires ready { T.ready tasks.now }
    requires fresh { IsFresh board.now (T.count tasks.now) desk }
    ensures { IfOk result (IsGroup board.now (T.allows tasks.now) (T.ending tasks.now) (T.count tasks.now) 1) }
{
    work(alloc, board, tasks, &mut desk)?;
    Ok(desk)
}

/// Claims tasks and runs them until none is left. It passes over a task that is after one whose answer
/// ends the run.
///
/// Where a task is out of memory the worker claims what is left and runs none of it, so that the others
/// end with the task that they are at. Its own list has room for all answers.
fn work<T: Tasks>(alloc: Global, board: &Board, tasks: &T, desk: &mut Desk) -> Result<(), NoMemory>
    requires ready { T.ready tasks.now }
    requires fresh { IsFresh board.now (T.count tasks.now) desk.old }
    ensures done { OnOk result (IsGroup board.now (T.allows tasks.now) (T.ending tasks.now) (T.count tasks.now) 1 desk.new) }
    // Whatever it answers, no task is left.
    ensures ended { HasEnded (T.count tasks.now) (hand_of desk.new.seat) }
{
    let count = tasks.len();
    'draws: loop {
        let number = board.claim(&mut desk.seat);
        if number >= count {
            return Ok(());
        }
        if passes_over(board, &mut desk.seat, number) {
            continue;
        }
        let Ok(judged) = tasks.run(alloc, number) else {
            claim_the_rest(board, &mut desk.seat, count);
            return Err(NoMemory);
        };
        report(board, &mut desk.seat, number, tasks.ends(&judged));
        keep(&mut desk.answers, Answer { number, judged });
    }
}

/// Whether the task is after one whose answer ends the run. The seat then passes it over.
fn passes_over(board: &Board, seat: &mut Seat, number: u64) -> bool
    requires seat { IsSeatOf board.now seat.old }
    requires item { number < items_of board.now }
    requires drawn { Contains (hand_of seat.old).drawn number }
    ensures passed { hand_of seat.new ≡ with_passed result number (hand_of seat.old) }
    ensures seat { IsSeatOf board.now seat.new }
{
    board.look(seat, number) < number
}

/// Reports the task where its answer ends the run.
fn report(board: &Board, seat: &mut Seat, number: u64, ends: bool)
    requires seat { IsSeatOf board.now seat.old }
    requires item { number < items_of board.now }
    requires drawn { Contains (hand_of seat.old).drawn number }
    requires once { ¬ Contains (hand_of seat.old).found number }
    ensures found { hand_of seat.new ≡ (if ends then with_found number (hand_of seat.old) else hand_of seat.old) }
    ensures seat { IsSeatOf board.now seat.new }
{
    if ends {
        board.found(seat, number);
    }
}

/// Claims until no task is left.
fn claim_the_rest(board: &Board, seat: &mut Seat, count: u64)
    requires seat { IsSeatOf board.now seat.old }
    requires claiming { IsClaiming count (hand_of seat.old) }
    ensures { HasEnded count (hand_of seat.new) }
{
    'rest: loop {
        let number = board.claim(seat);
        if number >= count {
            return;
        }
    }
}

/// Adds an answer to a list that has room for it.
fn keep(answers: &mut Vec<Answer>, answer: Answer)
    requires { vec_len answers.old < vec_capacity answers.old }
    ensures kept { answers.new.items ≡ answers.old.items ++ answer ∷ [] }
    ensures room { vec_capacity answers.old ≤ vec_capacity answers.new }
{
    match answers.push(answer) {
        Ok(()) => {}
        Err(_) => unreachable!(),
    }
}

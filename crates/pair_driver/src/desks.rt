ghost use Rattle.std.specs.Prelude.{◌≡◌, ◌+◌, ◌-◌, ◌*◌, ◌^◌, ◌<◌, ◌≤◌, [], All, IfOk, vec_len};
ghost use Rattle.claim_board.specs.Board.{hand};
ghost use Rattle.claim_board.specs.Seats.{IsSeatOf, hand_of, items_of};
ghost use Rattle.pair_driver.specs.Draws.{IsFresh};

use crate::place::Answer;
use claim_board::{Board, Seat};
use std::alloc::Global;
use support::NoMemory;

/// What a worker has to itself: its seat at the board, and its list of answers.
#[derive(Drop)]
pub struct Desk {
    pub seat: Seat,
    pub answers: Vec<Answer>,
}

/// A desk for each worker, out of the seat of all. Each list has room for an answer to every task, so
/// that no worker asks for memory of its own once tasks are claimed.
pub fn desks_for(
    alloc: Global,
    board: &Board,
    mut seat: Seat,
    count: u64,
    workers: u64,
) -> Result<Vec<Desk>, NoMemory>
    requires some_worker { 0 < workers }
    requires fits { workers * (count + 1) < 2 ^ 64 }
    requires items { items_of board.now ≡ count }
    requires seat { IsSeatOf board.now seat }
    requires fresh { hand_of seat ≡ hand [] [] [] (workers * (count + 1)) }
    ensures workers { IfOk result (λ desks. vec_len desks ≡ workers) }
    ensures fresh { IfOk result (λ desks. All (IsFresh board.now count) desks.items) }
{
    let mut desks = Vec::with_capacity(alloc, workers as usize)?;
    'made: for _ in 0..workers {
        let desk = desk_for(alloc, board, &mut seat, count)?;
        desks.push(desk)?;
    }
    Ok(desks)
}

/// A desk with one worker's part of the seat.
fn desk_for(alloc: Global, board: &Board, seat: &mut Seat, count: u64) -> Result<Desk, NoMemory>
    requires room { count + 1 < 2 ^ 64 }
    requires items { items_of board.now ≡ count }
    requires seat { IsSeatOf board.now seat.old }
    requires enough { count + 1 ≤ (hand_of seat.old).allowance }
    ensures fresh { IfOk result (IsFresh board.now count) }
    ensures kept { hand_of seat.new ≡ hand (hand_of seat.old).drawn (hand_of seat.old).found (hand_of seat.old).passed ((hand_of seat.old).allowance - (count + 1)) }
    ensures seat { IsSeatOf board.now seat.new }
{
    let own = board.split(seat, count + 1);
    let answers = Vec::with_capacity(alloc, count as usize)?;
    Ok(Desk { seat: own, answers })
}

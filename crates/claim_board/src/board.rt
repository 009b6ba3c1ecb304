ghost use Rattle.std.specs.Prelude.{◌≡◌, ℕ, ◌+◌, ◌-◌, ◌*◌, ◌^◌, ◌<◌, ◌≤◌, [], ◌∷◌, ◌++◌, length, nat_lt, All, Any, Contains, IfOk};
ghost use Rattle.claim_board.specs.Board.{hand, with_found, with_passed, times, once_below, HasRun};
ghost use Rattle.claim_board.specs.Drawing.{IsRunning, claimed, looked, reported};

use atomic_table::{Join, Play, Split, Table, TableRule};
use std::alloc::Global;
use std::collections::LinkedList;
use std::marker::{Brand, PhantomData};
use support::NoMemory;

/// What a seat has drawn, found and passed over, and how many draws are left to it. No value of it is
/// made.
#[derive(Drop)]
pub struct Hand {
    pub drawn: LinkedList<u64>,
    pub found: LinkedList<u64>,
    pub passed: LinkedList<u64>,
    pub allowance: u64,
}

/// The right to draw, and the proof of what was drawn. It has no bytes.
pub type Seat = atomic_table::Seat<(), Hand>;

/// How many items there are, and all allowances at the start.
#[derive(Drop)]
struct Limits {
    items: u64,
    total: u64,
}

struct Drawing;

impl TableRule<(), Hand, Limits> for Drawing {
    ghost holds = { IsRunning };

    ghost first = { λ limits. hand [] [] [] limits.total };
}

impl Play<(), Hand> for Drawing {
    ghost then = { claimed };
}

struct Finding;

impl Play<(), Hand> for Finding {
    ghost then = { reported };
}

// The number that a look is for.
trait Looked {
    ghost number: { ℕ };
}

impl Looked for Brand {
    ghost number = { 0 };
}

struct Looking<N: Looked>(PhantomData<N>);

impl<N: Looked> Play<(), Hand> for Looking<N> {
    ghost then = { looked N.number };
}

// The part of an allowance that a split gives away.
trait Part {
    ghost part: { ℕ };
}

impl Part for Brand {
    ghost part = { 0 };
}

struct Cut<P: Part>(PhantomData<P>);

impl<P: Part> Split<Hand> for Cut<P> {
    ghost left = { λ v. hand v.drawn v.found v.passed (v.allowance - P.part) };

    ghost right = { λ _. hand [] [] [] P.part };
}

struct Merge;

impl Join<Hand> for Merge {
    ghost both = { λ u v. hand (u.drawn ++ v.drawn) (u.found ++ v.found) (u.passed ++ v.passed) (u.allowance + v.allowance) };

    ghost spent = { hand [] [] [] 0 };
}

/// Hands out the numbers from 0 on, and keeps the least number found: n, the number of items, where
/// none was found.
#[derive(Drop)]
pub struct Board {
    table: Table<(), Hand, Limits, Drawing, Global>,
    ghost two_words: { table.shared.table_id.words ≡ 2 },
    ghost no_slot: { table.shared.table_id.slots ≡ 0 },
}

impl Board {
    ghost use Rattle.claim_board.specs.Seats.{IsSeatOf, hand_of, items_of, total_of};

    /// A board and its first seat, which has the whole allowance.
    pub fn new(alloc: Global, n: u64, workers: u64) -> Result<(Board, Seat), NoMemory>
        requires some_worker { 0 < workers }
        requires fits { workers * (n + 1) < 2 ^ 64 }
        ensures total { IfOk result (λ made. total_of made.0 ≡ workers * (n + 1)) }
        ensures items { IfOk result (λ made. items_of made.0 ≡ n) }
        ensures seat { IfOk result (λ made. IsSeatOf made.0 made.1 × (hand_of made.1 ≡ hand [] [] [] (workers * (n + 1)))) }
    {
        let limits = Limits {
            items: n,
            total: workers * (n + 1),
        };
        match Table::of_words(alloc, &[0, n], &limits) {
            Ok((table, seat)) => Ok((Board { table }, seat)),
            Err(_) => Err(NoMemory),
        }
    }

    /// Draws the next number. It allocates nothing and never waits.
    pub fn claim(&self, seat: &mut Seat) -> u64
        requires seat { IsSeatOf self.now seat.old }
        requires allowance { 0 < (hand_of seat.old).allowance }
        ensures above { All (λ x. x < result) (hand_of seat.old).drawn }
        ensures drawn { hand_of seat.new ≡ hand ((hand_of seat.old).drawn ++ result ∷ []) (hand_of seat.old).found (hand_of seat.old).passed ((hand_of seat.old).allowance - 1) }
        ensures seat { IsSeatOf self.now seat.new }
    {
        self.table.shared.fetch_add::<Drawing>(seat, 0, 1)
    }

    /// Reports a number of the seat as found. It allocates nothing and never waits.
    pub fn found(&self, seat: &mut Seat, number: u64)
        requires seat { IsSeatOf self.now seat.old }
        requires item { number < items_of self.now }
        requires drawn { Contains (hand_of seat.old).drawn number }
        requires once { ¬ Contains (hand_of seat.old).found number }
        ensures found { hand_of seat.new ≡ with_found number (hand_of seat.old) }
        ensures seat { IsSeatOf self.now seat.new }
    {
        self.table.shared.fetch_min::<Finding>(seat, 1, number);
    }

    /// Looks up the least number found so far, for a number of the seat: where it is below the number,
    /// the seat passes the number over. It is at most each number that the seat has found. It allocates
    /// nothing and never waits.
    pub fn look(&self, seat: &mut Seat, number: u64) -> u64
        requires seat { IsSeatOf self.now seat.old }
        requires item { number < items_of self.now }
        requires drawn { Contains (hand_of seat.old).drawn number }
        ensures least { All (λ k. result ≤ k) (hand_of seat.old).found }
        ensures passed { hand_of seat.new ≡ with_passed (nat_lt result number) number (hand_of seat.old) }
        ensures seat { IsSeatOf self.now seat.new }
    {
        self.look_for::<Brand>(seat, number)
    }

    fn look_for<N: Looked>(&self, seat: &mut Seat, number: u64) -> u64
        requires number { number ≡ N.number }
        requires seat { IsSeatOf self.now seat.old }
        requires item { number < items_of self.now }
        requires drawn { Contains (hand_of seat.old).drawn number }
        ensures least { All (λ k. result ≤ k) (hand_of seat.old).found }
        ensures passed { hand_of seat.new ≡ with_passed (nat_lt result number) number (hand_of seat.old) }
        ensures seat { IsSeatOf self.now seat.new }
    {
        self.table.shared.load::<Looking<N>>(seat, 1)
    }

    /// A new seat with a part of the allowance.
    pub fn split(&self, seat: &mut Seat, allowance: u64) -> Seat
        requires seat { IsSeatOf self.now seat.old }
        requires enough { allowance ≤ (hand_of seat.old).allowance }
        ensures given { IsSeatOf self.now result × (hand_of result ≡ hand [] [] [] allowance) }
        ensures kept { hand_of seat.new ≡ hand (hand_of seat.old).drawn (hand_of seat.old).found (hand_of seat.old).passed ((hand_of seat.old).allowance - allowance) }
        ensures seat { IsSeatOf self.now seat.new }
    {
        self.cut::<Brand>(seat, allowance)
    }

    fn cut<P: Part>(&self, seat: &mut Seat, allowance: u64) -> Seat
        requires part { allowance ≡ P.part }
        requires seat { IsSeatOf self.now seat.old }
        requires enough { allowance ≤ (hand_of seat.old).allowance }
        ensures given { IsSeatOf self.now result × (hand_of result ≡ hand [] [] [] allowance) }
        ensures kept { hand_of seat.new ≡ hand (hand_of seat.old).drawn (hand_of seat.old).found (hand_of seat.old).passed ((hand_of seat.old).allowance - allowance) }
        ensures seat { IsSeatOf self.now seat.new }
    {
        self.table.shared.split_seat::<Cut<P>>(seat)
    }

    /// Gives the first seat what the other holds.
    pub fn join(&self, seat: &mut Seat, other: Seat)
        requires seat { IsSeatOf self.now seat.old }
        requires other { IsSeatOf self.now other }
        ensures both { hand_of seat.new ≡ hand ((hand_of seat.old).drawn ++ (hand_of other).drawn) ((hand_of seat.old).found ++ (hand_of other).found) ((hand_of seat.old).passed ++ (hand_of other).passed) ((hand_of seat.old).allowance + (hand_of other).allowance) }
        ensures seat { IsSeatOf self.now seat.new }
    {
        self.table.shared.join_seat::<Merge>(seat, other);
    }

    /// Ends the board, and gives how many numbers were drawn.
    pub fn close_with(self, seat: Seat) -> u64
        requires { IsSeatOf self seat }
        // The moves up to here are a run of the board, in which the seat holds what it shows.
        ensures run { HasRun (items_of self) (total_of self) result (hand_of seat) }
        ensures below { All (λ x. x < result) (hand_of seat).drawn }
        ensures within { result + (hand_of seat).allowance ≤ total_of self }
        // A seat with all that there is has drawn each number below the count, once, and no other.
        ensures all { length (hand_of seat).drawn + (hand_of seat).allowance ≡ total_of self → (x : ℕ) → times x (hand_of seat).drawn ≡ once_below x result }
        // And each number that it passed over is after one that it found.
        ensures passed { length (hand_of seat).drawn + (hand_of seat).allowance ≡ total_of self → All (λ x. Any (λ k. k < x) (hand_of seat).found) (hand_of seat).passed }
    {
        let Board { table } = self;
        let closed = table.close_with(seat);
        let count = closed.word(0);
        closed.free();
        count
    }
}

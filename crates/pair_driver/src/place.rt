ghost use Rattle.std.specs.Prelude.{◌≡◌, ℕ, ◌<◌, None, All, IfOk, IsSome, Some, map, replicate, slice_set, vec_len};
ghost use Rattle.pair_driver.specs.Draws.{AreFilled, ArePlaced, AreUnique, IsFirstEnd, IsReached, StopsAtFirst, slot_ends};

use crate::judged::Judged;
use crate::tasks::Tasks;
use std::alloc::Global;
use std::mem;
use support::NoMemory;

/// What a worker says of the pair of a number.
#[derive(Drop)]
pub struct Answer {
    pub number: u64,
    pub judged: Judged,
}

/// Puts each answer at the index of its number, up to the first one that ends the run.
pub fn place<T: Tasks>(
    alloc: Global,
    tasks: &T,
    count: usize,
    answers: Vec<Answer>,
) -> Result<Vec<Judged>, NoMemory>
    requires inside { All (λ a. a.number < count) answers.items }
    requires unique { AreUnique answers.items }
    requires each { (x : ℕ) → x < count → IsReached (T.ending tasks.now) answers.items x }
    ensures stops { IfOk result (λ placed. StopsAtFirst (T.ending tasks.now) count placed.items) }
    ensures placed { IfOk result (λ placed. ArePlaced answers.items placed.items) }
{
    let mut slots = empty_slots(alloc, count)?;
    fill(&mut slots, answers);
    let end = first_end(tasks, slots.as_slice());
    slots.truncate(end);
    let placed = take_all(alloc, slots)?;
    Ok(placed)
}

/// How many slots there are up to and with the first whose answer ends the run.
fn first_end<T: Tasks>(tasks: &T, slots: &[Option<Judged>]) -> usize
    ensures { IsFirstEnd (T.ending tasks.now) slots.now result }
{
    'ends: for index in 0..slots.len() {
        if is_end(tasks, &slots[index]) {
            return index + 1;
        }
    }
    slots.len()
}

fn is_end<T: Tasks>(tasks: &T, slot: &Option<Judged>) -> bool
    ensures { result ≡ slot_ends (T.ending tasks.now) slot.now }
{
    match slot {
        None => false,
        Some(judged) => tasks.ends(judged),
    }
}

fn empty_slots(alloc: Global, count: usize) -> Result<Vec<Option<Judged>>, NoMemory>
    ensures { IfOk result (λ slots. slots.items ≡ replicate count None) }
{
    let mut slots = Vec::with_capacity(alloc, count)?;
    'empty: for _ in 0..count {
        slots.push(None)?;
    }
    Ok(slots)
}

// Moves each answer into the slot of its number.
fn fill(slots: &mut Vec<Option<Judged>>, answers: Vec<Answer>)
    requires inside { All (λ a. a.number < vec_len slots.old) answers.items }
    requires empty { slots.old.items ≡ replicate (vec_len slots.old) None }
    ensures len { vec_len slots.new ≡ vec_len slots.old }
    ensures filled { AreFilled answers.items slots.new.items }
{
    'filled: for answer in answers {
        put(slots, answer);
    }
}

fn put(slots: &mut Vec<Option<Judged>>, answer: Answer)
    requires { answer.number < vec_len slots.old }
    ensures len { vec_len slots.new ≡ vec_len slots.old }
    ensures put { slots.new.items ≡ slice_set slots.old.items answer.number (Some answer.judged) }
{
    let Answer { number, judged } = answer;
    let _ = mem::replace(&mut slots[number as usize], Some(judged));
}

fn take_all(alloc: Global, slots: Vec<Option<Judged>>) -> Result<Vec<Judged>, NoMemory>
    requires { All (λ slot. IsSome slot) slots.items }
    ensures { IfOk result (λ placed. map (λ judged. Some judged) placed.items ≡ slots.items) }
{
    let mut placed = Vec::with_capacity(alloc, slots.len())?;
    'taken: for slot in slots {
        placed.push(slot.unwrap())?;
    }
    Ok(placed)
}

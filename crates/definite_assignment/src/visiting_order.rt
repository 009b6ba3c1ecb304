//! The order in which a pass of the search visits the blocks.

ghost use Rattle.std.specs.Prelude.{◌+◌, ◌≡◌, ◌<◌, ℕ, length, IfOk, OnOk};
ghost use Rattle.std.specs.List.{All, Contains};
ghost use Rattle.definite_assignment.specs.Order.{block_of};

use std::alloc::Global;
use support::{NoMemory, Sequence};

/// What a depth-first search still has to do: enter a block, or leave one whose successors it has
/// visited.
#[derive(Clone, Copy)]
pub enum Step {
    Enter(usize),
    Leave(usize),
}

/// Enters some blocks next, the last one first.
fn enter_all(steps: &mut Vec<Step>, blocks: &[usize]) -> Result<(), NoMemory>
    ensures long { OnOk result (length steps.new.items ≡ length steps.old.items + length blocks.now) }
    ensures within { (most : ℕ) → All (λ step. block_of step < most) steps.old.items → All (λ block. block < most) blocks.now → OnOk result (All (λ step. block_of step < most) steps.new.items) }
{
    for block in blocks {
        steps.push(Step::Enter(*block))?;
    }
    Ok(())
}

/// The blocks that are reachable from block 0, in postorder: each after those that a depth-first
/// search enters from it. The stack of the search is a list, so a long path takes no deep
/// recursion.
fn postorder(alloc: Global, successors: &[Sequence<usize>]) -> Result<Vec<usize>, NoMemory>
    requires some { 0 < length successors.now }
    requires within { All (All (λ next. next < length successors.now)) successors.now }
    ensures { IfOk result (λ order. All (λ block. block < length successors.now) order.items) }
{
    let mut order = Vec::new(alloc);
    let mut is_entered = vec![in alloc; false; successors.len()]?;
    let mut steps = Vec::new(alloc);
    steps.push(Step::Enter(0))?;
    while let Some(step) = steps.pop() {
        match step {
            Step::Enter(block) => {
                if !is_entered[block] {
                    is_entered[block] = true;
                    steps.push(Step::Leave(block))?;
                    enter_all(&mut steps, successors[block].as_slice())?;
                }
            }
            Step::Leave(block) => order.push(block)?,
        }
    }
    Ok(order)
}

/// The blocks in reverse postorder, so that a block comes before its successors except where an
/// edge goes back, and then all blocks, so that none is left out.
pub fn visiting_order(alloc: Global, successors: &[Sequence<usize>]) -> Result<Vec<usize>, NoMemory>
    requires some { 0 < length successors.now }
    requires within { All (All (λ next. next < length successors.now)) successors.now }
    ensures within { IfOk result (λ order. All (λ block. block < length successors.now) order.items) }
    ensures every { IfOk result (λ order. (block : ℕ) → block < length successors.now → Contains order.items block) }
{
    let mut order = postorder(alloc, successors)?;
    order.reverse();
    for block in 0..successors.len() {
        order.push(block)?;
    }
    Ok(order)
}

//! The search: the sets so far, and the blocks whose sets must still be passed on to their
//! successors.

ghost use Rattle.std.specs.Prelude.{◌≡◌, ◌<◌, ◌-◌, [], ◌∷◌, length, slice_set, slice_index_or, replicate, IfOk, true, false};
ghost use Rattle.std.specs.List.{All};
ghost use Rattle.definite_assignment.specs.Work.{IsSearch, IsSpread, first_sets, is_waiting, rest_of, state_of};

use crate::name_set::NameSet;
use std::alloc::Global;
use support::{NoMemory, Sequence};

/// The sets so far, and for each block whether it waits.
#[derive(Drop)]
pub struct Work {
    pub sets: Sequence<NameSet>,
    pub is_waiting: Vec<bool>,
}

fn first_sets(alloc: Global, blocks: usize, names: usize) -> Result<Sequence<NameSet>, NoMemory>
    requires { 0 < blocks }
    ensures { IfOk result (λ sets. sets ≡ first_sets (blocks - 1) names) }
{
    let mut sets = Sequence::from_vec(Vec::new(alloc));
    sets.push(NameSet::none(alloc, names)?)?;
    for _block in 1..blocks {
        sets.push(NameSet::every(alloc, names)?)?;
    }
    Ok(sets)
}

impl Work {
    /// The search at its start: the entry, whose set is empty, waits; all other sets are full.
    pub fn start(alloc: Global, blocks: usize, names: usize) -> Result<Work, NoMemory>
        requires { 0 < blocks }
        ensures sets { IfOk result (λ work. work.sets ≡ first_sets (blocks - 1) names) }
        ensures marks { IfOk result (λ work. work.is_waiting.items ≡ slice_set (replicate blocks false) 0 true) }
    {
        let sets = first_sets(alloc, blocks, names)?;
        let mut is_waiting = vec![in alloc; false; blocks]?;
        is_waiting[0] = true;
        Ok(Work { sets, is_waiting })
    }

    /// Cuts a block's set down to the names that leave one before it. If the set became smaller, the
    /// block waits.
    fn cut(&mut self, next: usize, leaving: &NameSet)
        requires within { next < length self.old.sets }
        requires marks { length self.old.is_waiting.items ≡ length self.old.sets }
        requires alike { length (slice_index_or self.old.sets next []) ≡ length leaving.now }
        ensures { IsSpread (state_of self.old) (state_of self.new) (next ∷ []) leaving.now }
    {
        if self.sets.get_mut(next).cut(leaving) {
            self.is_waiting[next] = true;
        }
    }

    /// Passes the names that leave a block on to its successors.
    fn spread(&mut self, nexts: &[usize], leaving: &NameSet)
        requires within { All (λ next. next < length self.old.sets) nexts.now }
        requires marks { length self.old.is_waiting.items ≡ length self.old.sets }
        requires alike { All (λ next. length (slice_index_or self.old.sets next []) ≡ length leaving.now) nexts.now }
        ensures { IsSpread (state_of self.old) (state_of self.new) nexts.now leaving.now }
    {
        for next in nexts {
            self.cut(*next, leaving);
        }
    }

    /// Lets a block wait no longer, and passes on the names that leave it. `leaving` is room for
    /// them.
    fn visit(
        &mut self,
        block: usize,
        successors: &[Sequence<usize>],
        assigns: &[Sequence<usize>],
        leaving: &mut NameSet,
    )
        requires block { block < length successors.now }
        requires alike { length successors.now ≡ length assigns.now }
        requires within { All (All (λ next. next < length successors.now)) successors.now }
        requires names { All (All (λ name. name < length leaving.old)) assigns.now }
        requires search { IsSearch successors.now assigns.now (length leaving.old) (state_of self.old) }
        ensures search { IsSearch successors.now assigns.now (length leaving.new) (state_of self.new) }
        ensures room { length leaving.new ≡ length leaving.old }
        ensures rest { is_waiting (state_of self.old) block ≡ true → rest_of (state_of self.new) < rest_of (state_of self.old) }
    {
        self.is_waiting[block] = false;
        leaving.fill(self.sets.get(block), assigns[block].as_slice());
        self.spread(successors[block].as_slice(), leaving);
    }

    /// Visits each block of a list that waits when it is reached, and returns whether one did.
    pub fn pass(
        &mut self,
        order: &[usize],
        successors: &[Sequence<usize>],
        assigns: &[Sequence<usize>],
        leaving: &mut NameSet,
    ) -> bool
        requires blocks { All (λ block. block < length successors.now) order.now }
        requires alike { length successors.now ≡ length assigns.now }
        requires within { All (All (λ next. next < length successors.now)) successors.now }
        requires names { All (All (λ name. name < length leaving.old)) assigns.now }
        requires search { IsSearch successors.now assigns.now (length leaving.old) (state_of self.old) }
        ensures search { IsSearch successors.now assigns.now (length leaving.new) (state_of self.new) }
        ensures room { length leaving.new ≡ length leaving.old }
        ensures rest { result ≡ true → rest_of (state_of self.new) < rest_of (state_of self.old) }
        ensures quiet { result ≡ false → All (λ block. is_waiting (state_of self.new) block ≡ false) order.now }
    {
        let mut visited = false;
        for block in order {
            if self.is_waiting[*block] {
                self.visit(*block, successors, assigns, leaving);
                visited = true;
            }
        }
        visited
    }
}

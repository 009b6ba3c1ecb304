//! Marks on the entries of a trail.

ghost use Rattle.std.specs.Prelude.{ℕ, ◌≡◌, ◌<◌, ◌≤◌, IfOk, IsTrue, OnOk, false, length, slice_index_or, slice_set, true};
ghost use Rattle.clause_search.specs.Marking.{IsCounted};

use std::alloc::Global;
use support::NoMemory;

/// Marks on the entries of a trail, some of them before a position and some from there on.
#[derive(Drop)]
pub struct Marks {
    /// Whether the entry at each position is marked.
    pub marked: Vec<bool>,
    /// How many are marked from that position on.
    pub late: usize,
    /// The positions of those before it.
    pub early: Vec<usize>,
}

impl Marks {
    /// No marks on this number of entries.
    pub fn new(alloc: Global, count: usize) -> Result<Marks, NoMemory>
        ensures counted { IfOk result (λ marks. (low : ℕ) → IsCounted low marks) }
        ensures long { IfOk result (λ marks. length marks.marked.items ≡ count) }
        ensures none { IfOk result (λ marks. (i : ℕ) → slice_index_or marks.marked.items i false ≡ false) }
    {
        Ok(Marks {
            marked: vec![in alloc; false; count]?,
            late: 0,
            early: Vec::new(alloc),
        })
    }

    /// Marks the entry at a position.
    pub fn mark(&mut self, low: usize, place: usize) -> Result<(), NoMemory>
        requires within { place < length self.old.marked.items }
        requires counted { IsCounted low self.old }
        ensures counted { OnOk result (IsCounted low self.new) }
        ensures marked { OnOk result (self.new.marked.items ≡ slice_set self.old.marked.items place true) }
    {
        if self.marked[place] {
            return Ok(());
        }
        self.marked[place] = true;
        if place < low {
            self.early.push(place)?;
            return Ok(());
        }
        self.late += 1;
        Ok(())
    }

    /// Takes the mark from the entry at a position that isn't before `low`.
    pub fn unmark(&mut self, low: usize, place: usize)
        requires marked { IsTrue (slice_index_or self.old.marked.items place false) }
        requires late { low ≤ place }
        requires within { place < length self.old.marked.items }
        requires counted { IsCounted low self.old }
        ensures counted { IsCounted low self.new }
        ensures marked { self.new.marked.items ≡ slice_set self.old.marked.items place false }
    {
        self.marked[place] = false;
        self.late -= 1;
    }
}

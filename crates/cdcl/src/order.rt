//! Which variable is decided next: the most active one, by a heap.

use crate::tables::{at, count, put, short, zeros};
use std::alloc::Global;
use support::NoMemory;

/// What the first conflict adds to a variable's score.
const FIRST_RISE: u64 = 1 << 24;

/// Each conflict adds more than the one before, by this part of it.
const RISE_PART: u64 = 19;

/// Scores are divided by `1 << DIVIDED` once a conflict would add more than this.
const MOST_RISE: u64 = 1 << 52;

const DIVIDED: u32 = 32;

/// The place of a variable that may not be in the heap.
const BARRED: u32 = u32::MAX;

/// No path in a heap is longer.
const MOST_DEPTH: u32 = 32;

/// Variables in a heap by their scores, the greatest first.
pub struct Order {
    heap: Vec<u32>,
    /// Where each variable is in the heap, counted from 1; 0 where it isn't in it.
    places: Vec<u32>,
    scores: Vec<u64>,
    /// The score of each variable before a conflict, which is little beside what one adds.
    firsts: Vec<u32>,
    rise: u64,
}

// Dropped by one call: a derived drop is written out at each return.
impl Drop for Order {
    fn drop(self) {
        let Order {
            heap,
            places,
            scores,
            firsts,
            rise,
        } = self;
    }
}

impl Order {
    /// No variables in the heap; these are their first scores.
    pub fn new(alloc: Global, firsts: Vec<u32>) -> Result<Order, NoMemory> {
        let mut scores = Vec::with_capacity(alloc, firsts.len())?;
        for first in &firsts {
            scores.push(*first as u64)?;
        }
        Ok(Order {
            heap: Vec::new(alloc),
            places: zeros(alloc, firsts.len())?,
            scores,
            firsts,
            rise: FIRST_RISE,
        })
    }

    /// The same of this many variables, but with the greatest variable first and with no variable let into
    /// the heap.
    pub fn barred(alloc: Global, variables: usize) -> Result<Order, NoMemory> {
        let mut firsts = zeros(alloc, variables)?;
        for index in 0..variables {
            put(&mut firsts, short(index), short(index));
        }
        let mut order = Order::new(alloc, firsts)?;
        for place in order.places.iter_mut() {
            *place = BARRED;
        }
        Ok(order)
    }

    /// The variables' first scores.
    pub fn firsts(&self, alloc: Global) -> Result<Vec<u32>, NoMemory> {
        Ok(Vec::from_slice(alloc, &self.firsts)?)
    }

    /// Puts variables into the heap, with their first scores.
    pub fn admit(&mut self, variables: &[u32]) -> Result<(), NoMemory> {
        self.rise = FIRST_RISE;
        for variable in variables {
            put(&mut self.places, *variable, 0);
            let first = at(&self.firsts, *variable) as u64;
            if let Some(cell) = self.scores.get_mut(*variable as usize) {
                *cell = first;
            }
            self.insert(*variable)?;
        }
        Ok(())
    }

    /// Empties the heap; these variables are no longer let into it.
    pub fn bar(&mut self, variables: &[u32]) {
        self.heap.clear();
        for variable in variables {
            put(&mut self.places, *variable, BARRED);
        }
    }

    fn score(&self, variable: u32) -> u64 {
        self.scores.get(variable as usize).copied().unwrap_or(0)
    }

    /// Puts a variable at an index of the heap.
    fn place(&mut self, index: u32, variable: u32) {
        put(&mut self.heap, index, variable);
        put(&mut self.places, variable, index.wrapping_add(1));
    }

    /// Moves a variable up from an index.
    fn rise_from(&mut self, index: u32, variable: u32) {
        let score = self.score(variable);
        let mut here = index;
        for _ in 0..MOST_DEPTH {
            if here == 0 {
                break;
            }
            let parent = here.wrapping_sub(1) / 2;
            let above = at(&self.heap, parent);
            if self.score(above) >= score {
                break;
            }
            self.place(here, above);
            here = parent;
        }
        self.place(here, variable);
    }

    /// The index of the child that comes first, of the variable at an index.
    fn first_child(&self, index: u32) -> u32 {
        let left = index.wrapping_mul(2).wrapping_add(1);
        let right = left.wrapping_add(1);
        let is_right = right < count(&self.heap)
            && self.score(at(&self.heap, right)) > self.score(at(&self.heap, left));
        if is_right { right } else { left }
    }

    /// Moves a variable down from the top.
    fn sink(&mut self, variable: u32) {
        let score = self.score(variable);
        let mut here = 0;
        for _ in 0..MOST_DEPTH {
            let child = self.first_child(here);
            if child >= count(&self.heap) {
                break;
            }
            let below = at(&self.heap, child);
            if score >= self.score(below) {
                break;
            }
            self.place(here, below);
            here = child;
        }
        self.place(here, variable);
    }

    /// Puts a variable into the heap, if it isn't there.
    pub fn insert(&mut self, variable: u32) -> Result<(), NoMemory> {
        if at(&self.places, variable) == 0 {
            let index = count(&self.heap);
            self.heap.push(variable)?;
            self.rise_from(index, variable);
        }
        Ok(())
    }

    /// Takes the first variable from the heap.
    pub fn pop(&mut self) -> Option<u32> {
        let first = self.heap.first().copied()?;
        let last = self.heap.pop()?;
        put(&mut self.places, first, 0);
        if !self.heap.is_empty() {
            self.sink(last);
        }
        Some(first)
    }

    /// A variable took part in a conflict.
    pub fn bump(&mut self, variable: u32) {
        let score = self.score(variable).saturating_add(self.rise);
        if let Some(cell) = self.scores.get_mut(variable as usize) {
            *cell = score;
        }
        let index = at(&self.places, variable).wrapping_sub(1);
        if index < count(&self.heap) {
            self.rise_from(index, variable);
        }
    }

    /// Later conflicts count more.
    pub fn end_conflict(&mut self) {
        self.rise = self.rise.saturating_add(self.rise / RISE_PART);
        if self.rise > MOST_RISE {
            self.rise >>= DIVIDED;
            for score in self.scores.iter_mut() {
                *score >>= DIVIDED;
            }
        }
    }
}

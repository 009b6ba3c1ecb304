//! Which clauses watch which literals.
//!
//! Each clause watches two of its literals, which come first in it. With a watch stands another literal
//! of the clause: where that one is true the clause isn't looked at, and a clause of two literals never
//! is (N. Sörensson and N. Eén, "MiniSat 2.1", 2008).

use crate::tables::byte_at;
use std::alloc::Global;
use std::mem;
use support::NoMemory;

/// The bit of a watch whose clause has two literals.
const SHORT: u32 = 1 << 31;

/// A clause that watches a literal.
#[derive(Clone, Copy)]
pub struct Watch {
    /// Where the literals of the clause begin, and its bit.
    clause: u32,
    /// Another literal of the clause.
    pub other: u32,
}

impl Watch {
    /// The watch of a clause whose literals begin here, which are two or more, with another of them.
    pub fn new(begin: u32, is_short: bool, other: u32) -> Watch {
        let bit = if is_short { SHORT } else { 0 };
        Watch {
            clause: begin | bit,
            other,
        }
    }

    /// Where the literals of the clause begin.
    pub fn begin(self) -> u32 {
        self.clause & !SHORT
    }

    /// Whether the clause has two literals.
    pub fn is_short(self) -> bool {
        self.clause >= SHORT
    }
}

/// The watches of each literal.
#[derive(Drop)]
pub struct Watches {
    alloc: Global,
    lists: Vec<Vec<Watch>>,
}

impl Watches {
    /// No watches, of this many literals.
    pub fn new(alloc: Global, literals: usize) -> Result<Watches, NoMemory> {
        let mut lists = Vec::new(alloc);
        for _ in 0..literals {
            lists.push(Vec::new(alloc))?;
        }
        Ok(Watches { alloc, lists })
    }

    /// Takes all watches away.
    pub fn clear(&mut self) {
        for list in self.lists.iter_mut() {
            list.clear();
        }
    }

    /// Takes the list of a literal, which has none then.
    pub fn take(&mut self, literal: u32) -> Vec<Watch> {
        let none = Vec::new(self.alloc);
        match self.lists.get_mut(literal as usize) {
            Some(list) => mem::replace(list, none),
            None => none,
        }
    }

    /// Gives a literal a list in the place of its own.
    pub fn give(&mut self, literal: u32, watches: Vec<Watch>) {
        if let Some(list) = self.lists.get_mut(literal as usize) {
            *list = watches;
        }
    }

    /// Adds a watch to those of a literal.
    pub fn add(&mut self, literal: u32, watch: Watch) -> Result<(), NoMemory> {
        if let Some(list) = self.lists.get_mut(literal as usize) {
            list.push(watch)?;
        }
        Ok(())
    }

    /// Takes the watches of the clauses away whose first literals' places are marked by 1.
    pub fn forget(&mut self, marks: &[u8]) {
        for list in self.lists.iter_mut() {
            list.retain(|watch| byte_at(marks, watch.begin()) == 0);
        }
    }
}

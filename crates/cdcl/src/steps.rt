//! The chains of the clauses that were learned, in one flat list.
//!
//! A step's literals are those of its clause, so a step of a log is made only where one is asked for.

use std::alloc::Global;
use support::NoMemory;

/// The numbers of the clauses that each step is resolved from.
pub struct Chains {
    numbers: Vec<u32>,
    /// Where the numbers of each chain end.
    ends: Vec<usize>,
}

// Dropped by one call: a derived drop is written out at each return.
impl Drop for Chains {
    fn drop(self) {
        let Chains { numbers, ends } = self;
    }
}

impl Chains {
    /// No steps.
    pub fn new(alloc: Global) -> Chains {
        Chains {
            numbers: Vec::new(alloc),
            ends: Vec::new(alloc),
        }
    }

    /// Adds the chain of a step.
    pub fn add(&mut self, chain: &[u32]) -> Result<(), NoMemory> {
        self.numbers.extend_from_slice(chain)?;
        self.ends.push(self.numbers.len())?;
        Ok(())
    }

    /// How many steps there are.
    pub fn len(&self) -> usize {
        self.ends.len()
    }

    /// The chain of the step at an index; empty where there is none.
    pub fn chain(&self, index: usize) -> &[u32] {
        let end = self.ends.get(index).copied().unwrap_or(0);
        let before = index.wrapping_sub(1);
        let begin = self.ends.get(before).copied().unwrap_or(0);
        match self.numbers.get(begin..end) {
            Some(chain) => chain,
            None => &[],
        }
    }
}

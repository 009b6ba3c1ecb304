//! A learned clause becomes one of the search's, and a step of its log.

use crate::analysis::Learned;
use crate::search::Solver;
use crate::tables::put_byte;
use crate::trail::variable_of;
use std::alloc::Global;
use support::NoMemory;

/// A list of a few numbers.
pub fn chain_of(alloc: Global, numbers: &[u32]) -> Result<Vec<u32>, NoMemory> {
    Ok(Vec::from_slice(alloc, numbers)?)
}

impl Solver {
    /// Adds a clause that was learned, and its step; its number. It is not watched.
    pub fn keep(&mut self, learned: &Learned) -> Result<u32, NoMemory> {
        self.add_step(&learned.literals, &learned.chain)
    }

    /// Adds a clause that is resolved from this chain, and its step; its number. It is not watched.
    pub fn add_step(&mut self, literals: &[u32], chain: &[u32]) -> Result<u32, NoMemory> {
        let number = self.clauses.add(literals)?;
        self.chains.add(chain)?;
        Ok(number)
    }

    /// Learns from a clause that is false, after a decision: goes back to the last level at which all
    /// literals but one of what is learned are false, and makes that one true.
    pub fn learn(&mut self, conflict: u32) -> Result<(), NoMemory> {
        let mut learned = self.analyze(conflict)?;
        let levels = self.count_levels(&learned.literals);
        let level = self.level_behind(&mut learned.literals);
        self.go_back(level)?;
        let first = learned.literals.first().copied();
        let is_long = learned.literals.len() > 1;
        let number = self.keep(&learned)?;
        if is_long {
            self.watch(number)?;
            self.rate(number, levels)?;
        }
        if let Some(first) = first {
            self.trail.assign(first, number)?;
        }
        self.order.end_conflict();
        Ok(())
    }

    /// The last level of the literals after the first one, of which one comes to the second place.
    fn level_behind(&self, literals: &mut [u32]) -> u32 {
        let mut last = 0;
        for index in 1..literals.len() {
            let level = self.trail.level_of(variable_of(literals[index]));
            if level > last {
                last = level;
                literals.swap(1, index);
            }
        }
        last
    }

    /// Takes back what came after a level. The variables keep their values as phases.
    pub fn go_back(&mut self, level: u32) -> Result<(), NoMemory> {
        if self.trail.level() <= level {
            return Ok(());
        }
        let length = self.trail.length_before(level.wrapping_add(1));
        for _ in length..self.trail.len() {
            if let Some(literal) = self.trail.pop() {
                let variable = variable_of(literal);
                put_byte(&mut self.phases, variable, (literal & 1) as u8);
                self.order.insert(variable)?;
            }
        }
        self.trail.forget_decisions(level);
        self.head = length;
        Ok(())
    }
}

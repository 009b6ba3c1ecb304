//! Learned clauses that the search no longer looks at (G. Audemard and L. Simon, "Predicting Learnt Clauses
//! Quality in Modern SAT Solvers", 2009).
//!
//! A clause whose literals had few levels when it was learned is of use more often. One that is forgotten
//! is watched no more. Its step stays, since others may need it.

use crate::search::Solver;
use crate::tables::{at, put, put_byte};
use crate::trail::variable_of;
use support::NoMemory;

/// A search with fewer learned clauses forgets none.
pub const FIRST_MOST: usize = 20_000;

/// Each time it forgets some it may have this many more before the next time.
const MORE: usize = 2_000;

/// A learned clause, and how many levels its literals had.
#[derive(Clone, Copy)]
pub struct Rated {
    number: u32,
    levels: u32,
}

impl Rated {
    /// Clauses with less are kept longer: those of few levels, and of these the last ones.
    fn rank(self) -> u64 {
        (self.levels as u64) << 32 | u32::MAX.wrapping_sub(self.number) as u64
    }
}

impl Solver {
    /// How many levels these literals have, which are false.
    pub fn count_levels(&mut self, literals: &[u32]) -> u32 {
        self.stamp = self.stamp.wrapping_add(1);
        let mut count: u32 = 0;
        for literal in literals {
            let level = self.trail.level_of(variable_of(*literal));
            if at(&self.stamps, level) != self.stamp {
                put(&mut self.stamps, level, self.stamp);
                count = count.wrapping_add(1);
            }
        }
        count
    }

    /// A clause was learned whose literals had this many levels.
    pub fn rate(&mut self, number: u32, levels: u32) -> Result<(), NoMemory> {
        self.rated.push(Rated { number, levels })?;
        Ok(())
    }

    /// Forgets half of the learned clauses where there are many. Nothing is decided.
    pub fn forget_some(&mut self) -> Result<(), NoMemory> {
        if self.rated.len() < self.most_rated {
            return Ok(());
        }
        self.rated.sort_unstable_by_key(|rated| rated.rank());
        let kept = self.rated.len() / 2;
        let mut forgotten = vec![in self.alloc; 0; self.clauses.end()]?;
        for rated in self.rated.iter().skip(kept) {
            let begin = self.clauses.span(rated.number).begin;
            put_byte(&mut forgotten, begin, 1);
        }
        self.rated.truncate(kept);
        self.watches.forget(&forgotten);
        self.most_rated = self.most_rated.saturating_add(MORE);
        Ok(())
    }
}

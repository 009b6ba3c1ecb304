//! The steps that the last one needs.
//!
//! A search learns much that its answer does not rest on, and each step that is handed out is resolved
//! again.

use crate::search::Solver;
use crate::tables::{at, byte_at, put, put_byte, short};
use crate::trail::variable_of;
use clause_lits::{Clause, Lit, is_clause};
use clause_log::{Log, Step};
use smallvec::SmallVec;
use support::{NoMemory, Sequence};

impl Solver {
    /// The last step and those that it needs, but for those that were taken before. They are numbered on
    /// from this many clauses, and their chains name the given clauses and the steps that were taken by
    /// these numbers.
    pub fn take_needed(&mut self, clauses: u64) -> Result<Log, NoMemory> {
        let needed = self.needed()?;
        self.taken.resize(needed.len(), 0)?;
        let mut log = Sequence::from_vec(Vec::new(self.alloc));
        for index in 0..needed.len() {
            if byte_at(&needed, short(index)) == 1 {
                self.take_step(&mut log, index)?;
                let number = short(log.len()).wrapping_add(short(clauses as usize));
                put(&mut self.taken, short(index), number);
            }
        }
        Ok(log)
    }

    /// 1 for each step that the last one needs and that was not taken.
    fn needed(&self) -> Result<Vec<u8>, NoMemory> {
        let mut needed = vec![in self.alloc; 0; self.chains.len()]?;
        put_byte(&mut needed, short(self.chains.len()).wrapping_sub(1), 1);
        for index in (0..self.chains.len()).rev() {
            if byte_at(&needed, short(index)) == 1 {
                self.need_chain(&mut needed, index);
            }
        }
        Ok(needed)
    }

    /// The steps that the chain of one names are needed, but for those that were taken.
    fn need_chain(&self, needed: &mut [u8], index: usize) {
        for number in self.chains.chain(index) {
            if *number > self.given {
                let earlier = number.wrapping_sub(self.given).wrapping_sub(1);
                if at(&self.taken, earlier) == 0 {
                    put_byte(needed, earlier, 1);
                }
            }
        }
    }

    /// Adds a step to those that are taken, if its clause has no variable twice.
    fn take_step(&self, log: &mut Log, index: usize) -> Result<(), NoMemory> {
        let number = self.given.wrapping_add(short(index)).wrapping_add(1);
        if let Some(clause) = self.clause_of(number)? {
            let chain = self.taken_chain(self.chains.chain(index))?;
            log.push(Step { chain, clause })?;
        }
        Ok(())
    }

    /// The clause with a number, or `None` where a variable is in it twice.
    fn clause_of(&self, number: u32) -> Result<Option<Clause>, NoMemory> {
        let mut named: SmallVec<Lit, 4> = SmallVec::new(self.alloc);
        let span = self.clauses.span(number);
        for place in span.begin..span.end {
            let literal = self.clauses.literal(place);
            named.push(Lit {
                variable: variable_of(literal) as u64,
                positive: literal & 1 == 0,
            })?;
        }
        named
            .as_mut_slice()
            .sort_unstable_by_key(|literal| literal.variable);
        if is_clause(named.as_slice()) {
            Ok(Some(Clause::new(named)))
        } else {
            Ok(None)
        }
    }

    /// A chain by the numbers of the steps that were taken.
    fn taken_chain(&self, chain: &[u32]) -> Result<Sequence<u64>, NoMemory> {
        let mut numbers = Vec::with_capacity(self.alloc, chain.len())?;
        for number in chain {
            let new = if *number > self.given {
                let earlier = number.wrapping_sub(self.given).wrapping_sub(1);
                at(&self.taken, earlier)
            } else {
                *number
            };
            numbers.push(new as u64)?;
        }
        Ok(Sequence::from_vec(numbers))
    }
}

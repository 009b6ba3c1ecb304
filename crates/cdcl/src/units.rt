//! What follows without a decision, in the clauses before the search: a true literal removes its clauses,
//! and a false one is resolved away.

use crate::learning::chain_of;
use crate::search::Solver;
use crate::trail::{opposite, variable_of};
use std::alloc::Global;
use support::NoMemory;

impl Solver {
    /// Adds a step for each literal of the trail whose reason has other literals: the clause of it alone.
    pub fn name_units(&mut self) -> Result<(), NoMemory> {
        for place in 0..self.trail.len() {
            let literal = self.trail.literal(place);
            let reason = self.trail.reason_of(variable_of(literal));
            if self.clauses.length(reason) > 1 {
                let chain = self.reasons_of(reason, literal)?;
                let unit = self.add_step(&[literal], &chain)?;
                self.trail.explain(literal, unit);
            }
        }
        Ok(())
    }

    /// A clause, and the reasons of its literals but one.
    fn reasons_of(&self, number: u32, one: u32) -> Result<Vec<u32>, NoMemory> {
        let mut chain = chain_of(self.alloc, &[number])?;
        let span = self.clauses.span(number);
        for place in span.begin..span.end {
            let literal = self.clauses.literal(place);
            if literal != one {
                chain.push(self.trail.reason_of(variable_of(literal)))?;
            }
        }
        Ok(chain)
    }

    /// Clears the clauses of the literals of the trail that weren't cleared before.
    pub fn clear_units(&mut self) -> Result<(), NoMemory> {
        for _ in 0..u32::MAX {
            if self.cleared >= self.trail.len() || self.conflict > 0 {
                break;
            }
            let literal = self.trail.literal(self.cleared);
            self.cleared = self.cleared.wrapping_add(1);
            self.remove_all(literal);
            let reason = self.trail.reason_of(variable_of(literal));
            self.shorten_all(opposite(literal), reason)?;
        }
        Ok(())
    }

    /// Removes the clauses with a literal.
    pub fn remove_all(&mut self, literal: u32) {
        let mut link = self.occurrences.first(literal);
        for _ in 0..self.occurrences.most() {
            if link == 0 {
                break;
            }
            let number = self.occurrences.owner(link);
            self.occurrences.remove(&self.clauses, number);
            link = self.occurrences.after(link);
        }
    }

    /// Resolves a literal away in each clause with it, by the clause of its opposite alone.
    fn shorten_all(&mut self, literal: u32, unit: u32) -> Result<(), NoMemory> {
        let mut link = self.occurrences.first(literal);
        for _ in 0..self.occurrences.most() {
            if link == 0 {
                break;
            }
            let number = self.occurrences.owner(link);
            if self.occurrences.is_live(number) {
                self.shorten(number, literal, unit)?;
            }
            link = self.occurrences.after(link);
        }
        Ok(())
    }

    /// Resolves a literal of a clause away, by a clause whose other literals it has.
    pub fn shorten(&mut self, number: u32, literal: u32, by: u32) -> Result<(), NoMemory> {
        let literals = self.without(number, literal)?;
        self.occurrences.remove(&self.clauses, number);
        let chain = chain_of(self.alloc, &[number, by])?;
        self.add_part(&literals, &chain)
    }

    /// The literals of a clause.
    pub fn literals_of(&self, number: u32) -> Result<Vec<u32>, NoMemory> {
        self.without(number, u32::MAX)
    }

    /// The literals of a clause but one.
    fn without(&self, number: u32, one: u32) -> Result<Vec<u32>, NoMemory> {
        let mut literals = Vec::new(self.alloc);
        let span = self.clauses.span(number);
        for place in span.begin..span.end {
            let literal = self.clauses.literal(place);
            if literal != one {
                literals.push(literal)?;
            }
        }
        Ok(literals)
    }

    /// Adds a clause that is resolved from this chain to those before the search.
    pub fn add_part(&mut self, literals: &[u32], chain: &[u32]) -> Result<(), NoMemory> {
        let number = self.add_step(literals, chain)?;
        self.work = self.work.saturating_sub(literals.len() as u64);
        match literals {
            [] => self.conflict = number,
            [only] => self.force(*only, number)?,
            _ => {
                self.occurrences.add(&self.clauses, number)?;
                self.queue.push(number)?;
            }
        }
        Ok(())
    }
}

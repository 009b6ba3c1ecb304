//! Clauses that others make superfluous, or shorter by one literal (N. Eén and A. Biere, "Effective
//! Preprocessing in SAT through Variable and Clause Elimination", 2005).

use crate::search::Solver;
use crate::tables::{byte_at, put_byte};
use crate::trail::opposite;
use support::NoMemory;

/// Longer clauses are not tried on others.
const MOST_LITERALS: u32 = 20;

/// A clause is not tried on more others.
const MOST_OTHERS: u32 = 1000;

/// What a clause does to another one.
#[derive(Clone, Copy)]
enum Effect {
    Nothing,
    /// All of its literals are in the other one.
    Includes,
    /// All but one are, and the opposite of that one is this literal.
    Shortens(u32),
}

impl Solver {
    /// Tries the clauses of the queue on the others.
    pub fn subsume_all(&mut self) -> Result<(), NoMemory> {
        for _ in 0..u32::MAX {
            if self.work == 0 || self.conflict > 0 {
                break;
            }
            let Some(number) = self.queue.pop() else {
                break;
            };
            if self.occurrences.is_live(number) && self.clauses.length(number) <= MOST_LITERALS {
                self.subsume_by(number)?;
                self.clear_units()?;
            }
        }
        Ok(())
    }

    /// Tries a clause on the others, which have one of its literals or the opposite.
    fn subsume_by(&mut self, number: u32) -> Result<(), NoMemory> {
        let literal = self.rarest(number);
        if self.occurrences_of(literal) <= MOST_OTHERS {
            self.mark_all(number, 1);
            self.subsume_in(number, literal)?;
            self.subsume_in(number, opposite(literal))?;
            self.mark_all(number, 0);
        }
        Ok(())
    }

    /// How many clauses have the variable of a literal.
    fn occurrences_of(&self, literal: u32) -> u32 {
        self.occurrences
            .count(literal)
            .wrapping_add(self.occurrences.count(opposite(literal)))
    }

    /// The literal of a clause whose variable is in the fewest clauses.
    fn rarest(&self, number: u32) -> u32 {
        let span = self.clauses.span(number);
        let mut rarest = self.clauses.literal(span.begin);
        for place in span.begin..span.end {
            let literal = self.clauses.literal(place);
            if self.occurrences_of(literal) < self.occurrences_of(rarest) {
                rarest = literal;
            }
        }
        rarest
    }

    /// Marks the literals of a clause, or takes their marks away.
    pub fn mark_all(&mut self, number: u32, mark: u8) {
        let span = self.clauses.span(number);
        for place in span.begin..span.end {
            put_byte(&mut self.marks, self.clauses.literal(place), mark);
        }
    }

    /// Whether a literal is marked.
    pub fn is_marked(&self, literal: u32) -> bool {
        byte_at(&self.marks, literal) == 1
    }

    /// Tries a clause, whose literals are marked, on those with a literal.
    fn subsume_in(&mut self, number: u32, literal: u32) -> Result<(), NoMemory> {
        let mut link = self.occurrences.first(literal);
        for _ in 0..self.occurrences.most() {
            if link == 0 || self.conflict > 0 || !self.occurrences.is_live(number) {
                break;
            }
            let other = self.occurrences.owner(link);
            self.work = self.work.saturating_sub(1);
            if other != number && self.occurrences.is_live(other) {
                self.try_on(number, other)?;
            }
            link = self.occurrences.after(link);
        }
        Ok(())
    }

    /// Tries a clause, whose literals are marked, on another one.
    fn try_on(&mut self, number: u32, other: u32) -> Result<(), NoMemory> {
        match self.effect(number, other) {
            Effect::Nothing => Ok(()),
            Effect::Includes => {
                self.occurrences.remove(&self.clauses, other);
                Ok(())
            }
            Effect::Shortens(literal) => self.shorten(other, literal, number),
        }
    }

    /// What a clause, whose literals are marked, does to another one.
    fn effect(&mut self, number: u32, other: u32) -> Effect {
        let length = self.clauses.length(number);
        let whole = self.clauses.length(other);
        if whole < length || !self.occurrences.may_include(number, other) {
            return Effect::Nothing;
        }
        self.work = self.work.saturating_sub(whole as u64);
        self.compared(length, other)
    }

    /// What a clause of this length, whose literals are marked, does to another one.
    fn compared(&self, length: u32, other: u32) -> Effect {
        let mut same: u32 = 0;
        let mut turned: u32 = 0;
        let mut last = 0;
        let span = self.clauses.span(other);
        for place in span.begin..span.end {
            let literal = self.clauses.literal(place);
            if self.is_marked(literal) {
                same = same.wrapping_add(1);
            } else if self.is_marked(opposite(literal)) {
                turned = turned.wrapping_add(1);
                last = literal;
            }
        }
        if same == length {
            Effect::Includes
        } else if turned == 1 && same.wrapping_add(1) == length {
            Effect::Shortens(last)
        } else {
            Effect::Nothing
        }
    }
}

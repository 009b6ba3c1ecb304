//! Clauses in one flat list.
//!
//! A literal is twice its variable, and one more where it is negative. Clauses are numbered from 1: the
//! given ones, and then those that were learned. The two watched literals of a clause come first, and before
//! them its number, how many they are and where the search for another one to watch goes on (I. Gent,
//! "Optimal Implementation of Watched Literals and More General Techniques", 2013), so that a search that looks
//! at a clause finds all in one place.

use crate::tables::{at, count, put};
use std::alloc::Global;
use support::NoMemory;

/// Clauses by their numbers.
pub struct Clauses {
    /// Of each clause its number, where a search in it goes on, how many literals it has, and these.
    cells: Vec<u32>,
    /// Where the literals of each clause begin.
    begins: Vec<u32>,
}

// Dropped by one call: a derived drop is written out at each return.
impl Drop for Clauses {
    fn drop(self) {
        let Clauses { cells, begins } = self;
    }
}

/// Where the literals of a clause are.
#[derive(Clone, Copy)]
pub struct Span {
    pub begin: u32,
    pub end: u32,
}

/// How many cells come before the literals of a clause.
const HEAD: usize = 3;

impl Clauses {
    /// No clauses.
    pub fn new(alloc: Global) -> Result<Clauses, NoMemory> {
        let mut begins = Vec::new(alloc);
        begins.push(0)?;
        Ok(Clauses {
            cells: Vec::new(alloc),
            begins,
        })
    }

    /// Adds a clause; its number.
    pub fn add(&mut self, literals: &[u32]) -> Result<u32, NoMemory> {
        let number = count(&self.begins);
        self.cells.push(number)?;
        let begin = count(&self.cells).wrapping_add(2);
        self.cells.push(begin.wrapping_add(2))?;
        self.cells.push(count(literals))?;
        self.begins.push(begin)?;
        self.cells.extend_from_slice(literals)?;
        Ok(number)
    }

    /// Whether more clauses and literals still have numbers of 31 bits.
    pub fn has_room(&self) -> bool {
        self.cells.len() < MOST
    }

    /// How many clauses there are.
    pub fn count(&self) -> u32 {
        count(&self.begins).wrapping_sub(1)
    }

    /// How many literals they have together.
    pub fn size(&self) -> usize {
        let heads = self.begins.len().saturating_mul(HEAD);
        self.cells.len().saturating_sub(heads)
    }

    /// Places of literals are at most this.
    pub fn end(&self) -> usize {
        self.cells.len()
    }

    /// How many literals a clause has.
    pub fn length(&self, number: u32) -> u32 {
        let span = self.span(number);
        span.end.wrapping_sub(span.begin)
    }

    /// Where the literals of a clause are.
    pub fn span(&self, number: u32) -> Span {
        self.span_at(at(&self.begins, number))
    }

    /// Where the literals of a clause are that begin here.
    pub fn span_at(&self, begin: u32) -> Span {
        let length = at(&self.cells, begin.wrapping_sub(1));
        Span {
            begin,
            end: begin.wrapping_add(length),
        }
    }

    /// The number of the clause whose literals begin here.
    pub fn number_at(&self, begin: u32) -> u32 {
        at(&self.cells, begin.wrapping_sub(3))
    }

    /// The place where a search in the clause goes on whose literals begin here.
    pub fn goes_on_at(&self, begin: u32) -> u32 {
        at(&self.cells, begin.wrapping_sub(2))
    }

    /// Notes where it goes on.
    pub fn go_on_at(&mut self, begin: u32, place: u32) {
        put(&mut self.cells, begin.wrapping_sub(2), place);
    }

    /// The literals from one place up to another.
    pub fn literals(&self, begin: u32, end: u32) -> &[u32] {
        match self.cells.get(begin as usize..end as usize) {
            Some(literals) => literals,
            None => &[],
        }
    }

    /// The literal at a place.
    pub fn literal(&self, place: u32) -> u32 {
        at(&self.cells, place)
    }

    /// Exchanges the literals at two places.
    pub fn swap(&mut self, a: u32, b: u32) {
        let first = at(&self.cells, a);
        let second = at(&self.cells, b);
        put(&mut self.cells, a, second);
        put(&mut self.cells, b, first);
    }
}

/// Places of literals are below this, and numbers of clauses.
const MOST: usize = 1 << 31;

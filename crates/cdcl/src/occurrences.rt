//! Which clauses have which literals: for each literal a linked list of the places where it occurs.
//!
//! A link is a place in the flat list of literals, counted from 1; 0 is no link. A clause that was
//! removed stays in the lists, and no longer counts.

use crate::clauses::Clauses;
use crate::tables::{at, byte_at, put, put_byte, zeros};
use crate::trail::variable_of;
use std::alloc::Global;
use support::NoMemory;

/// The occurrences of each literal.
pub struct Occurrences {
    /// The first link of each literal.
    first: Vec<u32>,
    /// The link after each one.
    next: Vec<u32>,
    /// The clause of each link.
    owners: Vec<u32>,
    /// How many clauses that count have each literal.
    counts: Vec<u32>,
    /// 1 for a clause that counts.
    live: Vec<u8>,
    /// For each clause a bit for each of its variables, by the variable's number modulo 64.
    signatures: Vec<u64>,
}

// Dropped by one call: a derived drop is written out at each return.
impl Drop for Occurrences {
    fn drop(self) {
        let Occurrences {
            first,
            next,
            owners,
            counts,
            live,
            signatures,
        } = self;
    }
}

impl Occurrences {
    /// No occurrences, of this many literals.
    pub fn new(alloc: Global, literals: usize) -> Result<Occurrences, NoMemory> {
        Ok(Occurrences {
            first: zeros(alloc, literals)?,
            next: Vec::new(alloc),
            owners: Vec::new(alloc),
            counts: zeros(alloc, literals)?,
            live: Vec::new(alloc),
            signatures: Vec::new(alloc),
        })
    }

    /// Adds a clause that comes after those that were added before.
    pub fn add(&mut self, clauses: &Clauses, number: u32) -> Result<(), NoMemory> {
        let span = clauses.span(number);
        self.make_room(number, span.end)?;
        let mut signature = 0;
        for place in span.begin..span.end {
            let literal = clauses.literal(place);
            let link = place.wrapping_add(1);
            let before = at(&self.first, literal);
            let count = at(&self.counts, literal);
            put(&mut self.next, link, before);
            put(&mut self.owners, link, number);
            put(&mut self.first, literal, link);
            put(&mut self.counts, literal, count.wrapping_add(1));
            signature |= 1 << (variable_of(literal) & 63);
        }
        put_byte(&mut self.live, number, 1);
        if let Some(cell) = self.signatures.get_mut(number as usize) {
            *cell = signature;
        }
        Ok(())
    }

    /// Room for a clause of this number and the links up to this one.
    fn make_room(&mut self, number: u32, link: u32) -> Result<(), NoMemory> {
        let links = (link as usize).saturating_add(1);
        let numbers = (number as usize).saturating_add(1);
        if self.next.len() < links {
            self.next.resize(links, 0)?;
            self.owners.resize(links, 0)?;
        }
        if self.live.len() < numbers {
            self.live.resize(numbers, 0)?;
            self.signatures.resize(numbers, 0)?;
        }
        Ok(())
    }

    /// Removes a clause.
    pub fn remove(&mut self, clauses: &Clauses, number: u32) {
        if !self.is_live(number) {
            return;
        }
        put_byte(&mut self.live, number, 0);
        let span = clauses.span(number);
        for place in span.begin..span.end {
            let literal = clauses.literal(place);
            let count = at(&self.counts, literal).wrapping_sub(1);
            put(&mut self.counts, literal, count);
        }
    }

    /// Whether a clause counts.
    pub fn is_live(&self, number: u32) -> bool {
        byte_at(&self.live, number) == 1
    }

    /// How many clauses that count have a literal.
    pub fn count(&self, literal: u32) -> u32 {
        at(&self.counts, literal)
    }

    /// Whether no variable of the first clause is missing in the second, as far as signatures show.
    pub fn may_include(&self, part: u32, whole: u32) -> bool {
        self.signature(part) & !self.signature(whole) == 0
    }

    fn signature(&self, number: u32) -> u64 {
        self.signatures.get(number as usize).copied().unwrap_or(0)
    }

    /// The first link of a literal.
    pub fn first(&self, literal: u32) -> u32 {
        at(&self.first, literal)
    }

    /// The link after one.
    pub fn after(&self, link: u32) -> u32 {
        at(&self.next, link)
    }

    /// The clause of a link.
    pub fn owner(&self, link: u32) -> u32 {
        at(&self.owners, link)
    }

    /// How many links there may be in a list.
    pub fn most(&self) -> usize {
        self.next.len()
    }

    /// Takes the clauses that were removed out of the list of a literal.
    pub fn compact(&mut self, literal: u32) {
        let mut link = self.first(literal);
        let mut last = 0;
        put(&mut self.first, literal, 0);
        for _ in 0..self.most() {
            if link == 0 {
                break;
            }
            let after = self.after(link);
            if self.is_live(self.owner(link)) {
                self.append(literal, last, link);
                last = link;
            }
            link = after;
        }
    }

    /// Puts a link after the last one of a literal's list.
    fn append(&mut self, literal: u32, last: u32, link: u32) {
        if last == 0 {
            put(&mut self.first, literal, link);
        } else {
            put(&mut self.next, last, link);
        }
        put(&mut self.next, link, 0);
    }
}

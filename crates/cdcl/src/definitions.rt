//! The clauses that define each gate: those of which its variable is the greatest.

use crate::clauses::Clauses;
use crate::tables::{at, byte_at, put, put_byte, zeros};
use crate::trail::variable_of;
use std::alloc::Global;
use support::NoMemory;

/// A gate has clauses that make it true and clauses that make it false.
const BOTH: u8 = 3;

/// For each variable a linked list of the clauses that make it true. Their other variables are those
/// that the gate depends on.
pub struct Definitions {
    /// The first clause of each variable; 0 for none.
    first: Vec<u32>,
    /// The clause after each one.
    next: Vec<u32>,
    /// 1 for a variable that has clauses that make it true, plus 2 where it has others.
    kinds: Vec<u8>,
}

// Dropped by one call: a derived drop is written out at each return.
impl Drop for Definitions {
    fn drop(self) {
        let Definitions { first, next, kinds } = self;
    }
}

/// The literal of a clause whose variable is the greatest.
fn greatest(clauses: &Clauses, number: u32) -> u32 {
    let span = clauses.span(number);
    let mut greatest = 0;
    for place in span.begin..span.end {
        greatest = clauses.literal(place).max(greatest);
    }
    greatest
}

impl Definitions {
    /// The definitions of variables after the first `front` ones, among the first `given` clauses. There
    /// are this many variables and 0.
    pub fn of(
        alloc: Global,
        variables: usize,
        clauses: &Clauses,
        given: u32,
        front: u64,
    ) -> Result<Definitions, NoMemory> {
        let mut definitions = Definitions {
            first: zeros(alloc, variables)?,
            next: zeros(alloc, (given as usize).saturating_add(1))?,
            kinds: vec![in alloc; 0; variables]?,
        };
        for number in 1..given.wrapping_add(1) {
            let literal = greatest(clauses, number);
            if clauses.length(number) > 1 && variable_of(literal) as u64 > front {
                definitions.add(literal, number);
            }
        }
        Ok(definitions)
    }

    /// Adds a clause whose greatest literal is this one.
    fn add(&mut self, literal: u32, number: u32) {
        let variable = variable_of(literal);
        let kind = byte_at(&self.kinds, variable);
        if literal & 1 == 0 {
            let before = at(&self.first, variable);
            put(&mut self.next, number, before);
            put(&mut self.first, variable, number);
            put_byte(&mut self.kinds, variable, kind | 1);
        } else {
            put_byte(&mut self.kinds, variable, kind | 2);
        }
    }

    /// Whether a variable is a gate's.
    pub fn is_gate(&self, variable: u32) -> bool {
        byte_at(&self.kinds, variable) == BOTH
    }

    /// The first clause that makes a gate true; 0 for none.
    pub fn first(&self, variable: u32) -> u32 {
        at(&self.first, variable)
    }

    /// The clause after one; 0 for none.
    pub fn after(&self, number: u32) -> u32 {
        at(&self.next, number)
    }

    /// How many clauses there may be in a list.
    pub fn most(&self) -> usize {
        self.next.len()
    }
}

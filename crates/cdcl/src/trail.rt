//! The literals that are true, in the order in which they became so.

use crate::tables::{at, byte_at, count, put, put_byte, zeros};
use std::alloc::Global;
use support::NoMemory;

/// The opposite of a literal.
pub fn opposite(literal: u32) -> u32 {
    literal ^ 1
}

/// The variable of a literal.
pub fn variable_of(literal: u32) -> u32 {
    literal >> 1
}

/// The literals that are true, and by variable their levels, reasons and places.
pub struct Trail {
    /// 1 for a literal that is true, else 0.
    values: Vec<u8>,
    literals: Vec<u32>,
    levels: Vec<u32>,
    /// The number of the clause that made it true; 0 for a decision.
    reasons: Vec<u32>,
    places: Vec<u32>,
    /// How long the trail was at each decision.
    decisions: Vec<u32>,
}

// Dropped by one call: a derived drop is written out at each return.
impl Drop for Trail {
    fn drop(self) {
        let Trail {
            values,
            literals,
            levels,
            reasons,
            places,
            decisions,
        } = self;
    }
}

impl Trail {
    /// No literals, of this many variables and 0.
    pub fn new(alloc: Global, variables: usize) -> Result<Trail, NoMemory> {
        Ok(Trail {
            values: vec![in alloc; 0; variables.saturating_mul(2)]?,
            literals: Vec::new(alloc),
            levels: zeros(alloc, variables)?,
            reasons: zeros(alloc, variables)?,
            places: zeros(alloc, variables)?,
            decisions: Vec::new(alloc),
        })
    }

    /// Whether a literal is true.
    pub fn is_true(&self, literal: u32) -> bool {
        byte_at(&self.values, literal) == 1
    }

    /// Whether a literal is false.
    pub fn is_false(&self, literal: u32) -> bool {
        byte_at(&self.values, opposite(literal)) == 1
    }

    /// Whether a literal has no value.
    pub fn is_open(&self, literal: u32) -> bool {
        !self.is_true(literal) && !self.is_false(literal)
    }

    /// How many literals are true.
    pub fn len(&self) -> u32 {
        count(&self.literals)
    }

    /// The literal at an index of the trail.
    pub fn literal(&self, index: u32) -> u32 {
        at(&self.literals, index)
    }

    /// The level of a variable: how many decisions there were when it got its value.
    pub fn level_of(&self, variable: u32) -> u32 {
        at(&self.levels, variable)
    }

    /// The number of the clause that gave a variable its value; 0 for a decision.
    pub fn reason_of(&self, variable: u32) -> u32 {
        at(&self.reasons, variable)
    }

    /// The index of a variable's literal on the trail.
    pub fn place_of(&self, variable: u32) -> u32 {
        at(&self.places, variable)
    }

    /// How many decisions there are.
    pub fn level(&self) -> u32 {
        count(&self.decisions)
    }

    /// Makes a literal true, for this reason.
    pub fn assign(&mut self, literal: u32, reason: u32) -> Result<(), NoMemory> {
        let variable = variable_of(literal);
        let level = self.level();
        let place = self.len();
        put_byte(&mut self.values, literal, 1);
        put(&mut self.levels, variable, level);
        put(&mut self.reasons, variable, reason);
        put(&mut self.places, variable, place);
        self.literals.push(literal)?;
        Ok(())
    }

    /// Gives a literal that is true another reason.
    pub fn explain(&mut self, literal: u32, reason: u32) {
        put(&mut self.reasons, variable_of(literal), reason);
    }

    /// Begins a level with no literal.
    pub fn begin_level(&mut self) -> Result<(), NoMemory> {
        let length = self.len();
        self.decisions.push(length)?;
        Ok(())
    }

    /// Decides a literal.
    pub fn decide(&mut self, literal: u32) -> Result<(), NoMemory> {
        self.begin_level()?;
        self.assign(literal, 0)
    }

    /// How long the trail was before the decision of a level, from 1 on.
    pub fn length_before(&self, level: u32) -> u32 {
        at(&self.decisions, level.wrapping_sub(1))
    }

    /// Takes the last literal from the trail.
    pub fn pop(&mut self) -> Option<u32> {
        let literal = self.literals.pop()?;
        put_byte(&mut self.values, literal, 0);
        Some(literal)
    }

    /// Forgets the decisions after a level.
    pub fn forget_decisions(&mut self, level: u32) {
        self.decisions.truncate(level as usize);
    }
}

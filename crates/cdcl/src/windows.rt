//! The variables next below two, which alone are decided where the two are compared.

use crate::search::Solver;
use crate::sweeping::Sweep;
use crate::tables::{at, put, zeros};
use crate::trail::variable_of;
use std::alloc::Global;
use support::NoMemory;

/// A window has at most this many variables.
const MOST_VARIABLES: usize = 300;

/// Some variables, the greatest first.
#[derive(Drop)]
pub struct Window {
    pub variables: Vec<u32>,
    /// The number of the last window for which each variable was marked.
    stamps: Vec<u32>,
    number: u32,
}

impl Window {
    /// No variables of this many.
    pub fn new(alloc: Global, variables: usize) -> Result<Window, NoMemory> {
        Ok(Window {
            variables: Vec::new(alloc),
            stamps: zeros(alloc, variables)?,
            number: 0,
        })
    }

    /// Marks a variable.
    fn mark(&mut self, variable: u32) {
        put(&mut self.stamps, variable, self.number);
    }

    fn is_marked(&self, variable: u32) -> bool {
        at(&self.stamps, variable) == self.number
    }
}

impl Solver {
    /// Makes a window of a variable, an earlier one, and those that they depend on.
    pub fn open_window(
        &self,
        sweep: &mut Sweep,
        variable: u32,
        first: u32,
    ) -> Result<(), NoMemory> {
        sweep.window.variables.clear();
        sweep.window.number = sweep.window.number.wrapping_add(1);
        sweep.window.mark(variable);
        sweep.window.mark(first);
        for next in (1..variable.wrapping_add(1)).rev() {
            if sweep.window.variables.len() >= MOST_VARIABLES {
                break;
            }
            if sweep.window.is_marked(next) {
                sweep.window.variables.push(next)?;
                self.mark_operands(sweep, next);
            }
        }
        Ok(())
    }

    /// Marks the variables that a gate depends on.
    fn mark_operands(&self, sweep: &mut Sweep, variable: u32) {
        if !sweep.definitions.is_gate(variable) {
            return;
        }
        let mut number = sweep.definitions.first(variable);
        for _ in 0..sweep.definitions.most() {
            if number == 0 {
                break;
            }
            self.mark_clause(sweep, number);
            number = sweep.definitions.after(number);
        }
    }

    /// Marks the variables of a clause that have no value.
    fn mark_clause(&self, sweep: &mut Sweep, number: u32) {
        let span = self.clauses.span(number);
        for place in span.begin..span.end {
            let literal = self.clauses.literal(place);
            if self.trail.is_open(literal) {
                sweep.window.mark(variable_of(literal));
            }
        }
    }
}

//! Gates that are equal (A. Kuehlmann, "Dynamic Transition Relation Simplification for Bounded Property
//! Checking", 2004).
//!
//! Gates with the same values in many assignments are compared from the inputs on: a search for values
//! that tell them apart, with few conflicts and with decisions only among the variables next below them.
//! Where there are none, two clauses say that the gates are equal. They are steps like others.

use crate::definitions::Definitions;
use crate::luby::Luby;
use crate::order::Order;
use crate::patterns::Patterns;
use crate::search::{Course, Solver};
use crate::tables::short;
use crate::trail::opposite;
use crate::windows::Window;
use std::mem;
use support::NoMemory;

/// How many patterns come before the first comparison.
const FIRST_PATTERNS: u32 = 32;

/// A gate is compared with at most this many others.
const MOST_TRIES: u32 = 20;

/// Conflicts of a search for values that tell two gates apart.
const PAIR_CONFLICTS: u64 = 30;

/// Watches that are looked at for each conflict, at most.
const LOOKS: u64 = 5000;

/// What is known of gates.
pub struct Sweep {
    pub definitions: Definitions,
    pub patterns: Patterns,
    pub window: Window,
    /// The last step and the last look.
    most_steps: u64,
    most_looks: u64,
}

// Dropped by one call: a derived drop is written out at each return.
impl Drop for Sweep {
    fn drop(self) {
        let Sweep {
            definitions,
            patterns,
            window,
            most_steps,
            most_looks,
        } = self;
    }
}

impl Solver {
    /// Finds gates after the first `front` variables that are equal, opposite or constant, by at most this
    /// many conflicts. Nothing of it is promised. The variables must not have been resolved away.
    pub fn sweep(&mut self, front: u64, most: u64) -> Result<(), NoMemory> {
        self.go_back(0)?;
        self.is_swept = true;
        self.conflict = self.next_conflict()?;
        if self.conflict > 0 || self.is_reduced {
            return Ok(());
        }
        let mut sweep = self.new_sweep(front, most)?;
        let order = Order::barred(self.alloc, self.removed.len())?;
        let before = mem::replace(&mut self.order, order);
        let phases = Vec::from_slice(self.alloc, &self.phases)?;
        self.add_patterns(&mut sweep);
        self.sweep_all(&mut sweep)?;
        self.order = before;
        self.phases = phases;
        self.luby = Luby::new();
        Ok(())
    }

    /// Whether equal gates were looked for.
    pub fn is_swept(&self) -> bool {
        self.is_swept
    }

    /// Nothing but the definitions is known.
    fn new_sweep(&self, front: u64, most: u64) -> Result<Sweep, NoMemory> {
        let alloc = self.alloc;
        let variables = self.removed.len();
        Ok(Sweep {
            definitions: Definitions::of(alloc, variables, &self.clauses, self.given, front)?,
            patterns: Patterns::new(alloc, variables)?,
            window: Window::new(alloc, variables)?,
            most_steps: (self.chains.len() as u64).saturating_add(most),
            most_looks: self.looks.saturating_add(most.saturating_mul(LOOKS)),
        })
    }

    /// Whether the sweep ends.
    fn is_done(&self, sweep: &Sweep) -> bool {
        self.conflict > 0
            || self.chains.len() as u64 >= sweep.most_steps
            || self.looks >= sweep.most_looks
            || !self.clauses.has_room()
    }

    /// The first patterns.
    fn add_patterns(&mut self, sweep: &mut Sweep) {
        for _ in 0..FIRST_PATTERNS {
            self.add_pattern(sweep);
        }
    }

    /// A pattern by the values on the trail; where there are none, by random ones.
    fn add_pattern(&mut self, sweep: &mut Sweep) {
        for index in 1..self.removed.len() {
            let variable = short(index);
            let word = if sweep.definitions.is_gate(variable) {
                self.gate_word(sweep, variable)
            } else {
                self.input_word(sweep, variable)
            };
            sweep.patterns.set(variable, word);
        }
        sweep.patterns.end();
        self.looks = self.looks.saturating_add(self.clauses.size() as u64);
    }

    /// A word for an input: its value, in some assignments the other one, or a random word.
    fn input_word(&self, sweep: &mut Sweep, variable: u32) -> u64 {
        let positive = variable.wrapping_mul(2);
        if self.trail.is_open(positive) {
            return sweep.patterns.any_word();
        }
        let word = if self.trail.is_true(positive) {
            u64::MAX
        } else {
            0
        };
        if self.trail.level_of(variable) == 0 {
            word
        } else {
            word ^ sweep.patterns.few()
        }
    }

    /// The word of a gate, where those of the variables before it are known.
    fn gate_word(&self, sweep: &Sweep, variable: u32) -> u64 {
        let positive = variable.wrapping_mul(2);
        let mut word = 0;
        let mut number = sweep.definitions.first(variable);
        for _ in 0..sweep.definitions.most() {
            if number == 0 {
                break;
            }
            word |= self.forced_word(sweep, number, positive);
            number = sweep.definitions.after(number);
        }
        word
    }

    /// Where the literals of a clause are false but for this one.
    fn forced_word(&self, sweep: &Sweep, number: u32, one: u32) -> u64 {
        let mut word = u64::MAX;
        let span = self.clauses.span(number);
        for place in span.begin..span.end {
            let literal = self.clauses.literal(place);
            if literal != one {
                word &= sweep.patterns.literal_word(opposite(literal));
            }
        }
        word
    }

    /// Compares the gates from the inputs on.
    fn sweep_all(&mut self, sweep: &mut Sweep) -> Result<(), NoMemory> {
        for index in 1..self.removed.len() {
            if self.is_done(sweep) {
                break;
            }
            let variable = short(index);
            if sweep.definitions.is_gate(variable) {
                self.sweep_gate(sweep, variable)?;
            }
        }
        Ok(())
    }

    /// Compares a gate with the first variable of the same signature, until one is equal or that is not
    /// found out.
    fn sweep_gate(&mut self, sweep: &mut Sweep, variable: u32) -> Result<(), NoMemory> {
        for _ in 0..MOST_TRIES {
            if !self.is_left(variable) {
                break;
            }
            let Some(first) = sweep.patterns.first_like(variable) else {
                break;
            };
            self.open_window(sweep, variable, first)?;
            let course = self.compare(sweep, variable, first)?;
            if course != Course::Full || sweep.patterns.first_like(variable) == Some(first) {
                break;
            }
        }
        Ok(())
    }

    /// Compares two variables; the first one may be 0, which is false.
    fn compare(
        &mut self,
        sweep: &mut Sweep,
        variable: u32,
        first: u32,
    ) -> Result<Course, NoMemory> {
        let here = sweep.patterns.false_literal(variable);
        if first == 0 {
            return self.compare_under(sweep, &[here]);
        }
        let there = sweep.patterns.false_literal(first);
        let course = self.compare_under(sweep, &[here, opposite(there)])?;
        if course != Course::None || self.conflict > 0 {
            return Ok(course);
        }
        self.compare_under(sweep, &[opposite(here), there])
    }

    /// Searches the window under assumptions. Values are a pattern; where there are none, the clause that
    /// says so is kept.
    fn compare_under(&mut self, sweep: &mut Sweep, assumed: &[u32]) -> Result<Course, NoMemory> {
        self.order.admit(&sweep.window.variables)?;
        let course = self.run(assumed, PAIR_CONFLICTS)?;
        if course == Course::Full {
            self.add_pattern(sweep);
        }
        self.order.bar(&sweep.window.variables);
        self.go_back(0)?;
        if course == Course::None && self.conflict == 0 {
            self.keep_equality()?;
        }
        Ok(course)
    }

    /// The last clause, of two literals, stays one of the search's.
    fn keep_equality(&mut self) -> Result<(), NoMemory> {
        let number = self.clauses.count();
        if self.clauses.length(number) == 2 {
            self.watch(number)?;
            self.equalities.push(number)?;
        }
        Ok(())
    }
}

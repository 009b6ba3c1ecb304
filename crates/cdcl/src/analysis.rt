//! What is learned from a conflict: the clause of the first unique implication point (J. Marques-Silva
//! and K. Sakallah, "GRASP", 1996), without the literals whose reasons are covered by the others (N.
//! Sörensson and A. Biere, "Minimizing Learned Clauses", 2009), and the chain that resolves to it.

use crate::search::Solver;
use crate::tables::{at, byte_at, put, put_byte, short};
use crate::trail::{opposite, variable_of};
use std::alloc::Global;
use support::NoMemory;

/// A clause, and the numbers of the clauses that it is resolved from.
#[derive(Drop)]
pub struct Learned {
    pub chain: Vec<u32>,
    /// The literal of the last level comes first.
    pub literals: Vec<u32>,
}

/// A conflict on the way back.
#[derive(Drop)]
struct Walk {
    chain: Vec<u32>,
    /// The literals of earlier levels.
    early: Vec<u32>,
    /// How many marked literals of the last level are left.
    open: u32,
}

impl Walk {
    /// No clause yet.
    fn new(alloc: Global) -> Walk {
        Walk {
            chain: Vec::new(alloc),
            early: Vec::new(alloc),
            open: 0,
        }
    }
}

impl Solver {
    /// Whether a variable is marked.
    fn is_seen(&self, variable: u32) -> bool {
        byte_at(&self.seen, variable) == 1
    }

    /// Resolves with a clause: its literals that weren't seen are marked.
    fn meet(&mut self, walk: &mut Walk, number: u32) -> Result<(), NoMemory> {
        walk.chain.push(number)?;
        let span = self.clauses.span(number);
        for place in span.begin..span.end {
            let literal = self.clauses.literal(place);
            let variable = variable_of(literal);
            if !self.is_seen(variable) {
                put_byte(&mut self.seen, variable, 1);
                self.marked.push(variable)?;
                self.order.bump(variable);
                if self.trail.level_of(variable) == self.trail.level() {
                    walk.open = walk.open.wrapping_add(1);
                } else {
                    walk.early.push(literal)?;
                }
            }
        }
        Ok(())
    }

    /// What is learned from a clause that is false, after a decision.
    pub fn analyze(&mut self, conflict: u32) -> Result<Learned, NoMemory> {
        let mut walk = Walk::new(self.alloc);
        self.meet(&mut walk, conflict)?;
        let point = self.implication_point(&mut walk)?;
        let Walk {
            mut chain,
            early,
            ..
        } = walk;
        let mut literals = Vec::new(self.alloc);
        literals.push(opposite(point))?;
        self.take_uncovered(&mut chain, early, &mut literals)?;
        self.forget_marks();
        Ok(Learned { chain, literals })
    }

    /// Goes back over the trail to the first point where one literal of the last level is left.
    fn implication_point(&mut self, walk: &mut Walk) -> Result<u32, NoMemory> {
        for place in (0..self.trail.len()).rev() {
            let literal = self.trail.literal(place);
            let variable = variable_of(literal);
            if self.is_seen(variable) {
                if walk.open <= 1 {
                    return Ok(literal);
                }
                let reason = self.trail.reason_of(variable);
                self.meet(walk, reason)?;
                walk.open = walk.open.wrapping_sub(1);
            }
        }
        Ok(0)
    }

    /// Adds the literals of earlier levels, but resolves those away whose reasons have no other
    /// literals than those that are marked, the last ones first.
    fn take_uncovered(
        &self,
        chain: &mut Vec<u32>,
        mut early: Vec<u32>,
        literals: &mut Vec<u32>,
    ) -> Result<(), NoMemory> {
        let mut covered: usize = 0;
        for index in 0..early.len() {
            let literal = at(&early, short(index));
            let reason = self.trail.reason_of(variable_of(literal));
            if reason > 0 && self.is_covered(reason) {
                put(&mut early, short(covered), literal);
                covered = covered.wrapping_add(1);
            } else {
                literals.push(literal)?;
            }
        }
        early.truncate(covered);
        early.sort_unstable_by_key(|literal| {
            u32::MAX.wrapping_sub(self.trail.place_of(variable_of(*literal)))
        });
        for literal in early.iter() {
            chain.push(self.trail.reason_of(variable_of(*literal)))?;
        }
        Ok(())
    }

    /// Whether each literal of a clause is marked.
    fn is_covered(&self, number: u32) -> bool {
        let span = self.clauses.span(number);
        for place in span.begin..span.end {
            if !self.is_seen(variable_of(self.clauses.literal(place))) {
                return false;
            }
        }
        true
    }

    /// Takes all marks away.
    fn forget_marks(&mut self) {
        for variable in self.marked.iter() {
            put_byte(&mut self.seen, *variable, 0);
        }
        self.marked.clear();
    }

    /// The empty clause, from a clause that is false without a decision.
    pub fn refutation(&mut self, conflict: u32) -> Result<Learned, NoMemory> {
        let literals = Vec::new(self.alloc);
        self.traced(conflict, literals)
    }

    /// The clause of a literal's opposite and of opposites of decisions, where an assumed literal is false.
    pub fn refuse(&mut self, literal: u32) -> Result<(), NoMemory> {
        let reason = self.trail.reason_of(variable_of(literal));
        let mut literals = Vec::new(self.alloc);
        literals.push(opposite(literal))?;
        put_byte(&mut self.seen, variable_of(literal), 1);
        let learned = self.traced(reason, literals)?;
        put_byte(&mut self.seen, variable_of(literal), 0);
        let is_short = learned.literals.len() == 1;
        let number = self.keep(&learned)?;
        if is_short {
            self.go_back(0)?;
            self.force(opposite(literal), number)?;
        }
        Ok(())
    }

    /// Resolves the literals of a clause away that have reasons, and takes those that were decided.
    fn traced(&mut self, number: u32, mut literals: Vec<u32>) -> Result<Learned, NoMemory> {
        let mut walk = Walk::new(self.alloc);
        self.meet(&mut walk, number)?;
        for place in (0..self.trail.len()).rev() {
            let literal = self.trail.literal(place);
            let variable = variable_of(literal);
            if byte_at(&self.seen, variable) == 1 && literals.first().copied() != Some(literal) {
                let reason = self.trail.reason_of(variable);
                if reason > 0 {
                    self.meet(&mut walk, reason)?;
                } else {
                    literals.push(opposite(literal))?;
                }
            }
        }
        self.forget_marks();
        let Walk { chain, .. } = walk;
        Ok(Learned { chain, literals })
    }
}

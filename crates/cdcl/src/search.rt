//! The search.

use crate::begin::code_of;
use crate::clauses::Clauses;
use crate::forgetting::Rated;
use crate::luby::Luby;
use crate::occurrences::Occurrences;
use crate::order::Order;
use crate::steps::Chains;
use crate::tables::{byte_at, put_byte, short};
use crate::trail::Trail;
use crate::watches::Watches;
use clause_lits::{Assignment, Lit};
use std::alloc::Global;
use support::{NoMemory, Sequence};

/// What a solver guesses.
#[derive(Drop)]
pub enum Guessed {
    /// Values that make each clause true, and each assumed literal.
    Model(Assignment),
    /// There are none: the last step's clause has only opposites of assumed literals.
    None,
    /// Neither of them within the budget.
    Spent,
}

/// Conflicts between two restarts, times a number of Luby's sequence.
const RESTART_UNIT: u64 = 100;

/// Clauses, and how far the search for a model of them is. It goes on where it stopped.
pub struct Solver {
    pub(crate) alloc: Global,
    pub(crate) clauses: Clauses,
    pub(crate) watches: Watches,
    pub(crate) trail: Trail,
    pub(crate) order: Order,
    /// The last value of each variable: 1 for false.
    pub(crate) phases: Vec<u8>,
    /// 1 for a variable that is marked.
    pub(crate) seen: Vec<u8>,
    /// The variables that are marked.
    pub(crate) marked: Vec<u32>,
    /// How many literals of the trail are propagated.
    pub(crate) head: u32,
    /// The number of a clause that is false without a decision, or 0.
    pub(crate) conflict: u32,
    /// How many clauses were given.
    pub(crate) given: u32,
    /// The clauses before the search, once variables are resolved away.
    pub(crate) occurrences: Occurrences,
    /// The clauses before the search that were not tried on others.
    pub(crate) queue: Vec<u32>,
    /// 1 for a literal that is marked.
    pub(crate) marks: Vec<u8>,
    /// 1 for a variable that was resolved away.
    pub(crate) removed: Vec<u8>,
    /// The variables that were resolved away, in this order.
    pub(crate) eliminated: Vec<u32>,
    /// How many literals of the trail are cleared out of the clauses before the search.
    pub(crate) cleared: u32,
    /// How many more literals may be looked at before the search.
    pub(crate) work: u64,
    /// How many watches were looked at.
    pub(crate) looks: u64,
    /// The learned clauses that may be forgotten.
    pub(crate) rated: Vec<Rated>,
    /// Once there are this many of them, some are forgotten.
    pub(crate) most_rated: usize,
    /// The number of the last clause for which each level was counted.
    pub(crate) stamps: Vec<u32>,
    pub(crate) stamp: u32,
    /// The numbers of the clauses that make gates equal.
    pub(crate) equalities: Vec<u32>,
    /// Whether equal gates were looked for.
    pub(crate) is_swept: bool,
    /// Whether variables were tried, to resolve them away.
    pub(crate) is_reduced: bool,
    pub(crate) luby: Luby,
    /// The chains of the clauses that were learned.
    pub(crate) chains: Chains,
    /// The number of each step that was taken, among the clauses of who took it; 0 for others.
    pub(crate) taken: Vec<u32>,
}

// Dropped by one call: a derived drop is written out at each return.
impl Drop for Solver {
    fn drop(self) {
        let Solver {
            alloc,
            clauses,
            watches,
            trail,
            order,
            phases,
            seen,
            marked,
            head,
            conflict,
            given,
            occurrences,
            queue,
            marks,
            removed,
            eliminated,
            cleared,
            work,
            looks,
            rated,
            most_rated,
            stamps,
            stamp,
            equalities,
            is_swept,
            is_reduced,
            luby,
            chains,
            taken,
        } = self;
    }
}

/// How far the search is.
#[derive(Clone, Copy, PartialEq, Eq)]
pub enum Course {
    GoesOn,
    /// Each variable has a value.
    Full,
    /// There is no model under what is assumed.
    None,
}

impl Solver {
    /// Values that make the clauses and these literals true, by at most this many conflicts more; or that
    /// there are none. Nothing of the answer is promised.
    pub fn solve(&mut self, assumed: &[Lit], most: u64) -> Result<Guessed, NoMemory> {
        let mut literals = Vec::new(self.alloc);
        for literal in assumed {
            literals.push(code_of(*literal))?;
        }
        self.go_back(0)?;
        let course = self.run(&literals, most)?;
        Ok(match course {
            Course::Full => Guessed::Model(self.values()?),
            Course::None => Guessed::None,
            Course::GoesOn => Guessed::Spent,
        })
    }

    /// Searches on, for at most this many conflicts.
    pub fn run(&mut self, assumed: &[u32], most: u64) -> Result<Course, NoMemory> {
        let mut left = most;
        for _ in 0..u64::MAX {
            let length = self.luby.next().saturating_mul(RESTART_UNIT).min(left);
            let course = self.run_on(assumed, length)?;
            if course != Course::GoesOn {
                return Ok(course);
            }
            left = left.wrapping_sub(length);
            if left == 0 || !self.clauses.has_room() {
                break;
            }
            self.go_back(0)?;
            self.forget_some()?;
        }
        Ok(Course::GoesOn)
    }

    /// Propagates, learns and decides, up to a number of conflicts or to a value for each variable.
    fn run_on(&mut self, assumed: &[u32], conflicts: u64) -> Result<Course, NoMemory> {
        let mut left = conflicts;
        for _ in 0..u64::MAX {
            let conflict = self.next_conflict()?;
            let course = if conflict > 0 {
                left = left.saturating_sub(1);
                self.meet_conflict(conflict)?
            } else {
                self.decide_next(assumed)?
            };
            if course != Course::GoesOn || left == 0 {
                return Ok(course);
            }
        }
        Ok(Course::GoesOn)
    }

    /// The number of a clause that is false once what follows is true, or 0.
    pub fn next_conflict(&mut self) -> Result<u32, NoMemory> {
        if self.conflict > 0 {
            return Ok(self.conflict);
        }
        self.propagate()
    }

    /// Learns from a clause that is false.
    fn meet_conflict(&mut self, conflict: u32) -> Result<Course, NoMemory> {
        if self.trail.level() == 0 {
            let learned = self.refutation(conflict)?;
            self.conflict = self.keep(&learned)?;
            return Ok(Course::None);
        }
        self.learn(conflict)?;
        Ok(Course::GoesOn)
    }

    /// Decides the next literal: first those that are assumed.
    fn decide_next(&mut self, assumed: &[u32]) -> Result<Course, NoMemory> {
        for _ in 0..assumed.len() {
            let Some(literal) = assumed.get(self.trail.level() as usize).copied() else {
                break;
            };
            if self.trail.is_false(literal) {
                self.refuse(literal)?;
                return Ok(Course::None);
            }
            if self.trail.is_open(literal) {
                self.trail.decide(literal)?;
                return Ok(Course::GoesOn);
            }
            self.trail.begin_level()?;
        }
        self.decide_free()
    }

    /// Decides the next variable.
    fn decide_free(&mut self) -> Result<Course, NoMemory> {
        for _ in 0..u32::MAX {
            let Some(variable) = self.order.pop() else {
                break;
            };
            if self.is_left(variable) {
                let phase = byte_at(&self.phases, variable) as u32;
                self.trail
                    .decide(variable.wrapping_mul(2).wrapping_add(phase))?;
                return Ok(Course::GoesOn);
            }
        }
        Ok(Course::Full)
    }

    /// The values of all variables, those that were resolved away among them.
    fn values(&mut self) -> Result<Assignment, NoMemory> {
        self.extend_model()?;
        let mut values = Sequence::from_vec(Vec::new(self.alloc));
        for index in 1..self.removed.len() {
            values.push(self.trail.is_true(short(index).wrapping_mul(2)))?;
        }
        Ok(values)
    }

    /// The first variables are decided as false next, and the others as in these values.
    pub fn prefer(&mut self, values: &[bool], front: u64) -> Result<(), NoMemory> {
        self.go_back(0)?;
        for (index, value) in values.iter().enumerate() {
            let is_false = (index as u64) < front || !*value;
            let phase = if is_false { 1 } else { 0 };
            put_byte(&mut self.phases, short(index).wrapping_add(1), phase);
        }
        Ok(())
    }
}

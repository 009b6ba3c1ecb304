//! Variables that are resolved away before the search (N. Eén and A. Biere, "Effective Preprocessing in
//! SAT through Variable and Clause Elimination", 2005).
//!
//! A variable goes where the clauses that its own resolve to are no more than these were. Each of them is
//! a step of two clauses, so a log has nothing else than resolution chains. The ordered variables stay.

use crate::learning::chain_of;
use crate::search::Solver;
use crate::tables::{at, byte_at, put_byte, short};
use crate::trail::opposite;
use support::NoMemory;

/// How often all variables are tried.
const MOST_ROUNDS: u32 = 6;

/// Another round comes only where one variable of this many went.
const ROUND_PART: usize = 100;

/// A variable with more pairs of clauses stays.
const MOST_PAIRS: u64 = 400;

/// A variable that has more clauses with either sign stays.
const MOST_OCCURRENCES: u32 = 12;

/// A variable stays where a clause would be longer.
const MOST_LENGTH: u32 = 20;

/// Literals that are looked at for each one of the clauses, at most.
const WORK: u64 = 200;

impl Solver {
    /// Resolves variables after the first `front` ones away. The search goes on with the clauses that are
    /// left, and without those that it learned.
    pub fn eliminate(&mut self, front: u64) -> Result<(), NoMemory> {
        self.go_back(0)?;
        self.is_reduced = true;
        self.conflict = self.next_conflict()?;
        if self.conflict == 0 {
            self.name_units()?;
            self.gather()?;
            self.clear_units()?;
            self.subsume_all()?;
            self.eliminate_all(front)?;
            self.watch_again()?;
        }
        Ok(())
    }

    /// Whether variables were tried already.
    pub fn is_reduced(&self) -> bool {
        self.is_reduced
    }

    /// Takes the given clauses of several literals together.
    fn gather(&mut self) -> Result<(), NoMemory> {
        self.work = (self.clauses.size() as u64).saturating_mul(WORK);
        for number in 1..self.given.wrapping_add(1) {
            if self.clauses.length(number) > 1 {
                self.occurrences.add(&self.clauses, number)?;
                self.queue.push(number)?;
            }
        }
        self.gather_equalities()
    }

    /// Takes the clauses that make gates equal to the given ones.
    fn gather_equalities(&mut self) -> Result<(), NoMemory> {
        for index in 0..self.equalities.len() {
            let number = at(&self.equalities, short(index));
            self.occurrences.add(&self.clauses, number)?;
            self.queue.push(number)?;
        }
        Ok(())
    }

    /// Tries all variables after the first `front` ones, some times.
    fn eliminate_all(&mut self, front: u64) -> Result<(), NoMemory> {
        let first = (front as usize).saturating_add(1);
        for _ in 0..MOST_ROUNDS {
            let before = self.eliminated.len();
            self.eliminate_each(first)?;
            self.subsume_all()?;
            let more = self.eliminated.len().saturating_sub(before);
            if self.work == 0 || more < self.removed.len() / ROUND_PART {
                break;
            }
        }
        Ok(())
    }

    /// Tries the variables from `first` on, those with the fewest pairs of clauses first.
    fn eliminate_each(&mut self, first: usize) -> Result<(), NoMemory> {
        let candidates = self.candidates(first)?;
        for candidate in candidates {
            if self.work == 0 || self.conflict > 0 {
                break;
            }
            let variable = short(candidate as usize) ^ u32::MAX;
            self.try_variable(variable)?;
            self.clear_units()?;
        }
        Ok(())
    }

    /// The variables from `first` on that have few pairs of clauses, as numbers that say how many.
    fn candidates(&self, first: usize) -> Result<Vec<u64>, NoMemory> {
        let mut candidates = Vec::new(self.alloc);
        for index in first..self.removed.len() {
            let variable = short(index);
            let positive = variable.wrapping_mul(2);
            let pairs = (self.occurrences.count(positive) as u64).saturating_mul(
                self.occurrences.count(opposite(positive)) as u64,
            );
            if pairs <= MOST_PAIRS && self.is_left(variable) {
                candidates.push(pairs << 32 | (variable ^ u32::MAX) as u64)?;
            }
        }
        candidates.sort_unstable();
        Ok(candidates)
    }

    /// Whether a variable has no value and was not resolved away.
    pub fn is_left(&self, variable: u32) -> bool {
        byte_at(&self.removed, variable) == 0 && self.trail.is_open(variable.wrapping_mul(2))
    }

    /// Resolves a variable away where that makes no more clauses.
    fn try_variable(&mut self, variable: u32) -> Result<(), NoMemory> {
        let positive = variable.wrapping_mul(2);
        let negative = opposite(positive);
        let a = self.occurrences.count(positive);
        let b = self.occurrences.count(negative);
        if !self.is_left(variable) || (a > MOST_OCCURRENCES && b > MOST_OCCURRENCES) {
            return Ok(());
        }
        let left = self.clauses_with(positive)?;
        let right = self.clauses_with(negative)?;
        if self.is_gain(&left, &right, positive) {
            self.resolve_all(&left, &right, positive)?;
            self.remove_all(positive);
            self.remove_all(negative);
            put_byte(&mut self.removed, variable, 1);
            self.eliminated.push(variable)?;
        }
        Ok(())
    }

    /// The clauses with a literal.
    fn clauses_with(&mut self, literal: u32) -> Result<Vec<u32>, NoMemory> {
        self.occurrences.compact(literal);
        let mut numbers = Vec::new(self.alloc);
        let mut link = self.occurrences.first(literal);
        for _ in 0..self.occurrences.most() {
            if link == 0 {
                break;
            }
            numbers.push(self.occurrences.owner(link))?;
            link = self.occurrences.after(link);
        }
        Ok(numbers)
    }

    /// Whether two lists of clauses, with a literal and with its opposite, resolve to no more clauses than
    /// they are, and to no long one.
    fn is_gain(&mut self, left: &[u32], right: &[u32], literal: u32) -> bool {
        let most = left.len().saturating_add(right.len());
        let mut count: usize = 0;
        for number in left.iter() {
            self.mark_all(*number, 1);
            let more = self.count_resolvents(*number, right, literal);
            self.mark_all(*number, 0);
            match more {
                Some(more) => count = count.saturating_add(more),
                None => return false,
            }
            if count > most {
                return false;
            }
        }
        true
    }

    /// How many clauses one, whose literals are marked, resolves to by a literal with others; `None` where
    /// one of them is too long.
    fn count_resolvents(&mut self, number: u32, right: &[u32], literal: u32) -> Option<usize> {
        let mut count: usize = 0;
        let length = self.clauses.length(number);
        for other in right.iter() {
            self.work = self.work.saturating_sub(self.clauses.length(*other) as u64);
            if let Some(more) = self.new_literals(*other, literal) {
                if length.wrapping_add(more) > MOST_LENGTH.wrapping_add(1) {
                    return None;
                }
                count = count.saturating_add(1);
            }
        }
        Some(count)
    }

    /// How many literals a clause with the opposite of a literal has besides it and those that are marked;
    /// `None` where the opposite of another one is marked.
    fn new_literals(&self, number: u32, literal: u32) -> Option<u32> {
        let mut count: u32 = 0;
        let span = self.clauses.span(number);
        for place in span.begin..span.end {
            let here = self.clauses.literal(place);
            if self.is_marked(opposite(here)) {
                if here != opposite(literal) {
                    return None;
                }
            } else if !self.is_marked(here) {
                count = count.wrapping_add(1);
            }
        }
        Some(count)
    }

    /// Adds what the clauses of two lists, with a literal and with its opposite, resolve to.
    fn resolve_all(&mut self, left: &[u32], right: &[u32], literal: u32) -> Result<(), NoMemory> {
        for number in left.iter() {
            self.mark_all(*number, 1);
            self.resolve_each(*number, right, literal)?;
            self.mark_all(*number, 0);
        }
        Ok(())
    }

    /// Adds what a clause, whose literals are marked, resolves to by a literal with others.
    fn resolve_each(&mut self, number: u32, right: &[u32], literal: u32) -> Result<(), NoMemory> {
        for other in right.iter() {
            if self.conflict == 0 && self.new_literals(*other, literal).is_some() {
                let literals = self.resolvent(number, *other, literal)?;
                let chain = chain_of(self.alloc, &[number, *other])?;
                self.add_part(&literals, &chain)?;
            }
        }
        Ok(())
    }

    /// The resolvent of a clause, whose literals are marked, by a literal with another one.
    fn resolvent(&self, number: u32, other: u32, literal: u32) -> Result<Vec<u32>, NoMemory> {
        let mut literals = Vec::new(self.alloc);
        let span = self.clauses.span(number);
        for place in span.begin..span.end {
            let here = self.clauses.literal(place);
            if here != literal {
                literals.push(here)?;
            }
        }
        self.take_new(&mut literals, other, literal)?;
        Ok(literals)
    }

    /// Adds the literals of a clause that are not marked and not the opposite of a literal.
    fn take_new(&self, literals: &mut Vec<u32>, other: u32, literal: u32) -> Result<(), NoMemory> {
        let span = self.clauses.span(other);
        for place in span.begin..span.end {
            let here = self.clauses.literal(place);
            if here != opposite(literal) && !self.is_marked(here) {
                literals.push(here)?;
            }
        }
        Ok(())
    }

    /// Watches the clauses that are left, and no others.
    fn watch_again(&mut self) -> Result<(), NoMemory> {
        self.watches.clear();
        self.rated.clear();
        for number in 1..self.clauses.count().wrapping_add(1) {
            if self.occurrences.is_live(number) {
                self.watch(number)?;
            }
        }
        self.head = self.trail.len();
        Ok(())
    }

    /// Gives the variables that were resolved away values that make their clauses true, where each other
    /// variable has one.
    pub fn extend_model(&mut self) -> Result<(), NoMemory> {
        for index in (0..self.eliminated.len()).rev() {
            let variable = self.eliminated.get(index).copied().unwrap_or(0);
            let positive = variable.wrapping_mul(2);
            let is_needed = self.is_needed(positive);
            let literal = if is_needed {
                positive
            } else {
                opposite(positive)
            };
            if self.trail.is_open(literal) {
                self.trail.assign(literal, 0)?;
            }
        }
        Ok(())
    }

    /// Whether a clause with a literal has no other literal that is true.
    fn is_needed(&self, literal: u32) -> bool {
        let mut link = self.occurrences.first(literal);
        for _ in 0..self.occurrences.most() {
            if link == 0 {
                break;
            }
            if !self.has_true(self.occurrences.owner(link)) {
                return true;
            }
            link = self.occurrences.after(link);
        }
        false
    }

    /// Whether a clause has a literal that is true.
    fn has_true(&self, number: u32) -> bool {
        let span = self.clauses.span(number);
        for place in span.begin..span.end {
            if self.trail.is_true(self.clauses.literal(place)) {
                return true;
            }
        }
        false
    }
}

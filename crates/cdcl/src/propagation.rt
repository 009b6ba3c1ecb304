//! Unit propagation by two watched literals a clause.

use crate::clauses::Span;
use crate::search::Solver;
use crate::tables::short;
use crate::trail::opposite;
use crate::watches::Watch;
use support::NoMemory;

/// What becomes of a watch whose literal is false.
enum Visit {
    Stays(Watch),
    /// Another literal is watched in its place.
    Moves,
    /// Its clause is false.
    Fails(Watch),
}

impl Solver {
    /// Makes true what follows from the trail; the number of a clause that is false, or 0.
    pub fn propagate(&mut self) -> Result<u32, NoMemory> {
        for _ in 0..u32::MAX {
            if self.head >= self.trail.len() {
                break;
            }
            let literal = self.trail.literal(self.head);
            self.head = self.head.wrapping_add(1);
            let conflict = self.visit_all(opposite(literal))?;
            if conflict > 0 {
                return Ok(conflict);
            }
        }
        Ok(0)
    }

    /// Looks at the clauses that watch a literal, which became false; the number of one that is false,
    /// or 0.
    fn visit_all(&mut self, literal: u32) -> Result<u32, NoMemory> {
        let mut watches = self.watches.take(literal);
        let mut kept: u32 = 0;
        let mut conflict = 0;
        for index in 0..watches.len() {
            let Some(watch) = watches.get(index).copied() else {
                break;
            };
            let left = if conflict > 0 {
                Some(watch)
            } else {
                match self.visit(literal, watch)? {
                    Visit::Stays(watch) => Some(watch),
                    Visit::Moves => None,
                    Visit::Fails(watch) => {
                        conflict = self.clauses.number_at(watch.begin());
                        Some(watch)
                    }
                }
            };
            if let Some(watch) = left
                && let Some(cell) = watches.get_mut(kept as usize)
            {
                *cell = watch;
                kept = kept.wrapping_add(1);
            }
        }
        self.looks = self.looks.wrapping_add(watches.len() as u64);
        watches.truncate(kept as usize);
        self.watches.give(literal, watches);
        Ok(conflict)
    }

    /// Looks at a watch whose literal became false: its clause is true, or has another literal to watch,
    /// or its other watched literal follows.
    fn visit(&mut self, literal: u32, watch: Watch) -> Result<Visit, NoMemory> {
        if self.trail.is_true(watch.other) {
            return Ok(Visit::Stays(watch));
        }
        if watch.is_short() {
            return self.follow(watch);
        }
        let span = self.clauses.span_at(watch.begin());
        let second = span.begin.wrapping_add(1);
        if self.clauses.literal(span.begin) == literal {
            self.clauses.swap(span.begin, second);
        }
        let watch = Watch::new(span.begin, false, self.clauses.literal(span.begin));
        if self.trail.is_true(watch.other) {
            return Ok(Visit::Stays(watch));
        }
        let Some(place) = self.replacement(span) else {
            return self.follow(watch);
        };
        let next = self.clauses.literal(place);
        self.clauses.swap(second, place);
        self.clauses.go_on_at(span.begin, place);
        self.watches.add(next, watch)?;
        Ok(Visit::Moves)
    }

    /// The other watched literal follows where it has no value.
    fn follow(&mut self, watch: Watch) -> Result<Visit, NoMemory> {
        if self.trail.is_false(watch.other) {
            return Ok(Visit::Fails(watch));
        }
        let number = self.clauses.number_at(watch.begin());
        self.trail.assign(watch.other, number)?;
        Ok(Visit::Stays(watch))
    }

    /// The place of a literal that isn't watched and not false, from where the last search stopped on.
    fn replacement(&self, span: Span) -> Option<u32> {
        let from = self.clauses.goes_on_at(span.begin);
        match self.open_literal(from, span.end) {
            Some(place) => Some(place),
            None => self.open_literal(span.begin.wrapping_add(2), from),
        }
    }

    /// The first place of a literal that isn't false, from one place up to another.
    fn open_literal(&self, begin: u32, end: u32) -> Option<u32> {
        let literals = self.clauses.literals(begin, end);
        let index = literals
            .iter()
            .position(|literal| !self.trail.is_false(*literal))?;
        Some(begin.wrapping_add(short(index)))
    }

    /// Watches the literals at the first two places of a clause.
    pub fn watch(&mut self, number: u32) -> Result<(), NoMemory> {
        let span = self.clauses.span(number);
        let is_short = span.end.wrapping_sub(span.begin) == 2;
        let first = self.clauses.literal(span.begin);
        let second = self.clauses.literal(span.begin.wrapping_add(1));
        self.watches
            .add(first, Watch::new(span.begin, is_short, second))?;
        self.watches
            .add(second, Watch::new(span.begin, is_short, first))
    }
}

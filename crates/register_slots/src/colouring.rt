//! Slots for names, by linear scan: a name has a slot from the first position where it is live to the
//! last one, and then the slot is free for another.

ghost use Rattle.std.specs.Prelude.{◌≡◌, length};

use crate::liveness::Definition;
use crate::occurrences::{Occurrence, Span};
use crate::rows::row_at;
use std::alloc::Global;
use support::{NoMemory, Sequence};

/// The positions from the first to the last where a name is live.
#[derive(Clone, Copy)]
struct Range {
    first: usize,
    last: usize,
}

fn widened(range: Option<Range>, position: usize) -> Range {
    match range {
        Some(Range { first, last }) => Range {
            first: first.min(position),
            last: last.max(position),
        },
        None => Range {
            first: position,
            last: position,
        },
    }
}

fn cover(ranges: &mut [Option<Range>], name: usize, position: usize) {
    if name < ranges.len() {
        ranges[name] = Some(widened(ranges[name], position));
    }
}

fn cover_occurrences(ranges: &mut [Option<Range>], occurrences: &[Occurrence]) {
    for occurrence in occurrences {
        cover(ranges, occurrence.name, occurrence.point.position);
    }
}

fn is_own_phi(definitions: &[Option<Definition>], name: usize, block: usize) -> bool {
    match definitions.get(name) {
        Some(Some(definition)) => definition.by_phi && definition.block == block,
        Some(None) | None => false,
    }
}

/// A name that is live at the entry of a block is live there, and at the end of each predecessor if it
/// is no phi's. `before` is the end of the last predecessor.
fn cover_block(
    ranges: &mut [Option<Range>],
    definitions: &[Option<Definition>],
    block: usize,
    entry: usize,
    before: Option<usize>,
    names: &[usize],
) {
    for name in names {
        cover(ranges, *name, entry);
        if let Some(before) = before {
            if !is_own_phi(definitions, *name, block) {
                cover(ranges, *name, before);
            }
        }
    }
}

fn end_of_last(spans: &[Span], blocks: &[usize]) -> Option<usize> {
    let last = blocks.last()?;
    let span = spans.get(*last)?;
    Some(span.end)
}

/// What the ranges are computed from.
#[derive(Clone, Copy)]
pub struct LiveRanges<'a> {
    pub spans: &'a [Span],
    pub predecessors: &'a [Sequence<usize>],
    pub definitions: &'a [Option<Definition>],
    pub occurrences: &'a [Occurrence],
    pub lives: &'a [Sequence<usize>],
}

fn ranges_of(alloc: Global, live: &LiveRanges) -> Result<Vec<Option<Range>>, NoMemory> {
    let mut ranges = vec![in alloc; None; live.definitions.len()]?;
    cover_occurrences(&mut ranges, live.occurrences);
    for (block, span) in live.spans.iter().enumerate() {
        let before = end_of_last(live.spans, row_at(live.predecessors, block));
        let names = row_at(live.lives, block);
        cover_block(
            &mut ranges,
            live.definitions,
            block,
            span.entry,
            before,
            names,
        );
    }
    Ok(ranges)
}

/// A position where a name's range begins or ends.
#[derive(Clone, Copy)]
struct Event {
    position: usize,
    name: usize,
}

/// Where the ranges begin, in order.
fn beginnings(alloc: Global, ranges: &[Option<Range>]) -> Result<Vec<Event>, NoMemory> {
    let mut events = Vec::new(alloc);
    for (name, range) in ranges.iter().enumerate() {
        if let Some(range) = range {
            events.push(Event {
                position: range.first,
                name,
            })?;
        }
    }
    events.sort_by_key(|event| event.position)?;
    Ok(events)
}

/// Where the ranges end, in order. A range of one position ends at the next one, so that names that
/// begin together differ.
fn endings(alloc: Global, ranges: &[Option<Range>]) -> Result<Vec<Event>, NoMemory> {
    let mut events = Vec::new(alloc);
    for (name, range) in ranges.iter().enumerate() {
        if let Some(range) = range {
            events.push(Event {
                position: range.last.max(range.first.saturating_add(1)),
                name,
            })?;
        }
    }
    events.sort_by_key(|event| event.position)?;
    Ok(events)
}

/// The slots of names, and how many slots there are.
#[derive(Drop)]
pub struct Slots {
    /// For each name its slot.
    pub of: Vec<usize>,
    pub count: usize,
}

/// A scan of the ranges in order.
#[derive(Drop)]
struct Scan {
    slots: Slots,
    free: Vec<usize>,
    endings: Vec<Event>,
    /// How many ranges have ended.
    ended: usize,
}

impl Scan {
    /// Frees the slots of the ranges that end at a position or before it.
    fn free_until(&mut self, position: usize) -> Result<(), NoMemory> {
        while self.ended < self.endings.len() {
            let ending = self.endings[self.ended];
            if ending.position > position {
                return Ok(());
            }
            if let Some(slot) = self.slots.of.get(ending.name) {
                self.free.push(*slot)?;
            }
            self.ended += 1;
        }
        Ok(())
    }

    /// Gives a name a free slot, or else a new one.
    fn take(&mut self, name: usize) {
        let slot = match self.free.pop() {
            Some(slot) => slot,
            None => self.slots.add(),
        };
        if name < self.slots.of.len() {
            self.slots.of[name] = slot;
        }
    }
}

impl Slots {
    fn add(&mut self) -> usize {
        let slot = self.count;
        self.count = self.count.saturating_add(1);
        slot
    }
}

/// Slots for the names of these ranges, as few as the ranges allow. A name that does not occur has the
/// first one.
///
/// # Errors
/// Out of memory.
pub fn slots_for(alloc: Global, live: &LiveRanges) -> Result<Slots, NoMemory> {
    let ranges = ranges_of(alloc, live)?;
    let mut scan = Scan {
        slots: Slots {
            of: vec![in alloc; 0; ranges.len()]?,
            count: 0,
        },
        free: Vec::new(alloc),
        endings: endings(alloc, &ranges)?,
        ended: 0,
    };
    for beginning in &beginnings(alloc, &ranges)? {
        scan.free_until(beginning.position)?;
        scan.take(beginning.name);
    }
    let Scan { slots, .. } = scan;
    Ok(slots)
}

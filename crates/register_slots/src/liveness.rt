//! Which names are needed at the entry of each block, after its phis.
//!
//! From each read of a name a walk goes backwards over the predecessors, to the block that gives the
//! name its value or to one where the name is already known to be live.

ghost use Rattle.std.specs.Prelude.{◌≡◌, ◌+◌, vec_len, IfOk, IsTrue};

use crate::occurrences::{Kind, Occurrence};
use crate::rows::{empty_rows, push_at, row_at};
use ir_tree::{Function, successors};
use std::alloc::Global;
use support::{NoMemory, Sequence};

/// The block that gives a name its value, where the name is no parameter.
#[derive(Clone, Copy)]
pub struct Definition {
    pub block: usize,
    /// Whether one of the block's phis does.
    pub by_phi: bool,
}

/// For each block those that may be left for it, in text order.
pub fn predecessors_of(alloc: Global, f: &Function) -> Result<Sequence<Sequence<usize>>, NoMemory> {
    let graph = successors(alloc, f)?;
    let mut rows = empty_rows(alloc, graph.len())?;
    for (at, nexts) in graph.as_slice().iter().enumerate() {
        push_to_each(&mut rows, nexts.as_slice(), at)?;
    }
    Ok(rows)
}

fn push_to_each(
    rows: &mut Sequence<Sequence<usize>>,
    nexts: &[usize],
    at: usize,
) -> Result<(), NoMemory> {
    for next in nexts {
        push_at(rows, *next, at)?;
    }
    Ok(())
}

/// For each of `names` names the block that gives it its value, if there is one.
pub fn definitions_of(
    alloc: Global,
    names: usize,
    occurrences: &[Occurrence],
) -> Result<Vec<Option<Definition>>, NoMemory> {
    let mut definitions = vec![in alloc; None; names]?;
    for occurrence in occurrences {
        note(&mut definitions, *occurrence);
    }
    Ok(definitions)
}

fn note(definitions: &mut [Option<Definition>], occurrence: Occurrence) {
    if occurrence.name < definitions.len() {
        let block = occurrence.point.block;
        match occurrence.kind {
            Kind::Phi => {
                definitions[occurrence.name] = Some(Definition {
                    block,
                    by_phi: true,
                });
            }
            Kind::Result => {
                definitions[occurrence.name] = Some(Definition {
                    block,
                    by_phi: false,
                });
            }
            Kind::Parameter | Kind::Read => {}
        }
    }
}

/// For each of `names` names the blocks where it is read.
fn reads_of(
    alloc: Global,
    names: usize,
    occurrences: &[Occurrence],
) -> Result<Sequence<Sequence<usize>>, NoMemory> {
    let mut reads = empty_rows(alloc, names)?;
    for occurrence in occurrences {
        match occurrence.kind {
            Kind::Read => {
                push_at(&mut reads, occurrence.name, occurrence.point.block)?;
            }
            Kind::Parameter | Kind::Phi | Kind::Result => {}
        }
    }
    Ok(reads)
}

/// The blocks that a walk has still to visit.
#[derive(Drop)]
struct Worklist {
    waiting: Vec<usize>,
    /// How many more blocks may be added.
    left: usize,
}

impl Worklist {
    /// Adds blocks; false where they are too many.
    fn add(&mut self, blocks: &[usize]) -> Result<bool, NoMemory>
        ensures { IfOk result (λ added. IsTrue added → self.new.left + vec_len self.new.waiting ≡ self.old.left + vec_len self.old.waiting) }
    {
        match self.left.checked_sub(blocks.len()) {
            Some(left) => {
                self.waiting.extend_from_slice(blocks)?;
                self.left = left;
                Ok(true)
            }
            None => Ok(false),
        }
    }
}

/// The names that are live at the entry of each block, as far as they are found.
#[derive(Drop)]
struct LiveNames {
    rows: Sequence<Sequence<usize>>,
    /// The last name of each row.
    last: Vec<Option<usize>>,
}

impl LiveNames {
    /// Puts a name into the row of a block that needs it. Answers whether the name comes from the
    /// block's predecessors, and no where that was known.
    fn put(
        &mut self,
        name: usize,
        definition: Option<Definition>,
        block: usize,
    ) -> Result<bool, NoMemory> {
        if self.last.get(block).copied() == Some(Some(name)) {
            return Ok(false);
        }
        match definition {
            Some(Definition { block: own, by_phi }) if own == block => {
                if by_phi {
                    self.push(name, block)?;
                }
                Ok(false)
            }
            Some(_) | None => {
                self.push(name, block)?;
                Ok(true)
            }
        }
    }

    fn push(&mut self, name: usize, block: usize) -> Result<(), NoMemory> {
        if block < self.last.len() {
            self.last[block] = Some(name);
        }
        push_at(&mut self.rows, block, name)?;
        Ok(())
    }
}

/// Puts a name into the rows of all blocks that need it, from those where it is read; false where the
/// rows would become too long.
fn follow(
    live: &mut LiveNames,
    work: &mut Worklist,
    predecessors: &[Sequence<usize>],
    name: usize,
    definition: Option<Definition>,
    reads: &[usize],
) -> Result<bool, NoMemory> {
    if !work.add(reads)? {
        return Ok(false);
    }
    while let Some(block) = work.waiting.pop() {
        if live.put(name, definition, block)? {
            if !work.add(row_at(predecessors, block))? {
                return Ok(false);
            }
        }
    }
    Ok(true)
}

/// How many visits each block and each occurrence of a name allows.
const VISITS_EACH: usize = 32;

/// How many visits even a small function allows.
const VISITS_AT_LEAST: usize = 65_536;

/// The most blocks that the walks of a function visit in total. So the lists are never quadratic.
fn most_visits(occurrences: usize, blocks: usize) -> usize {
    let size = occurrences.saturating_add(blocks);
    size.saturating_mul(VISITS_EACH)
        .saturating_add(VISITS_AT_LEAST)
}

/// For each block the names that are needed at its entry, after its phis; none where these lists are
/// much longer than the function.
///
/// # Errors
/// Out of memory.
pub fn live_names(
    alloc: Global,
    predecessors: &[Sequence<usize>],
    definitions: &[Option<Definition>],
    occurrences: &[Occurrence],
) -> Result<Option<Sequence<Sequence<usize>>>, NoMemory> {
    let reads = reads_of(alloc, definitions.len(), occurrences)?;
    let reads = reads.as_slice();
    let blocks = predecessors.len();
    let mut live = LiveNames {
        rows: empty_rows(alloc, blocks)?,
        last: vec![in alloc; None; blocks]?,
    };
    let mut work = Worklist {
        waiting: Vec::new(alloc),
        left: most_visits(occurrences.len(), blocks),
    };
    for (name, definition) in definitions.iter().enumerate() {
        let reads = row_at(reads, name);
        if !follow(&mut live, &mut work, predecessors, name, *definition, reads)? {
            return Ok(None);
        }
    }
    let LiveNames { rows, last: _ } = live;
    Ok(Some(rows))
}

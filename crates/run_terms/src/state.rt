//! A run so far.

ghost use Rattle.std.specs.Prelude.{◌≡◌, ◌≤◌, IfOk, slice_set, take, length};

use crate::paths::Test;
use bv_terms::TermId;
use mem_terms::{SymBlock, SymValue};
use std::alloc::Global;
use support::{NoMemory, Sequence};

/// Which choices a run has made.
#[derive(Clone, Copy, Debug, PartialEq, Eq)]
pub struct Tally {
    /// How many words of the tape they took, in 64 bits.
    pub read: TermId,
    /// Whether each of them is the word of the tape at its index.
    pub fits: TermId,
}

/// The memory of a run: the given blocks, and after them those that its allocas made.
#[derive(Drop)]
pub struct RunMemory {
    pub blocks: Sequence<SymBlock>,
    /// How many blocks are given.
    pub given: usize,
}

/// The state of a run at a point of the function, if the run comes there.
pub struct RunState {
    /// Whether the run is there, and its behaviour still defined.
    pub alive: TermId,
    /// Tests that hold in each run that comes there, in the order in which they are met.
    pub path: Sequence<Test>,
    /// The values of the names, by their numbers.
    pub registers: Sequence<SymValue>,
    pub memory: RunMemory,
    pub tally: Tally,
    /// No run that comes there has read more words.
    pub words_bound: usize,
}

// Dropped by one call: a derived drop is written out at each return.
impl Drop for RunState {
    fn drop(self) {
        let RunState {
            alive,
            path,
            registers,
            memory,
            tally,
            words_bound,
        } = self;
    }
}

impl RunMemory {
    /// A copy of the memory.
    pub fn copy(&self, alloc: Global) -> Result<RunMemory, NoMemory>
        ensures { IfOk result (λ m. m ≡ self.now) }
    {
        let blocks = copy_blocks(alloc, self.blocks.as_slice())?;
        Ok(RunMemory {
            blocks,
            given: self.given,
        })
    }

    /// The given blocks.
    pub fn given(&self) -> &[SymBlock]
        requires { self.now.given ≤ length self.now.blocks }
        ensures { result.now ≡ take self.now.given self.now.blocks }
    {
        &self.blocks.as_slice()[..self.given]
    }
}

/// The same blocks.
pub fn copy_blocks(alloc: Global, blocks: &[SymBlock]) -> Result<Sequence<SymBlock>, NoMemory>
    ensures { IfOk result (λ copy. copy ≡ blocks.now) }
{
    let mut copy = Vec::new(alloc);
    for block in blocks {
        copy.push(copy_block(alloc, block)?)?;
    }
    Ok(Sequence::from_vec(copy))
}

fn copy_block(alloc: Global, block: &SymBlock) -> Result<SymBlock, NoMemory>
    ensures { IfOk result (λ b. b ≡ block.now) }
{
    Ok(SymBlock {
        number: block.number,
        exists: block.exists,
        size: block.size,
        align: block.align,
        places: Sequence::from_vec(block.places.as_slice().to_vec(alloc)?),
    })
}

/// Gives a name its value. A name that there is no register for is left out.
pub fn assign(registers: &mut Sequence<SymValue>, name: usize, value: SymValue)
    ensures { registers.new ≡ slice_set registers.old name value }
{
    if name < registers.len() {
        registers.set(name, value);
    }
}

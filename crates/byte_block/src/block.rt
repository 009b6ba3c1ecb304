ghost use Rattle.std.specs.Prelude.{◌≡◌, IfOk};

use crate::value::{BlockName, Byte};
use std::alloc::Global;
use support::{NoMemory, Sequence};

/// A block: its size and its alignment in bytes, and its contents. What is past the size is no byte
/// of the block; a given block has room there, so that its size may change in place.
#[derive(Drop)]
pub struct MemoryBlock {
    pub name: BlockName,
    pub size: u64,
    pub align: u64,
    pub places: Sequence<Byte>,
}

/// The blocks of a run, in order.
pub type Memory = Sequence<MemoryBlock>;

/// A copy of the blocks.
pub fn copy_memory(alloc: Global, memory: &Memory) -> Result<Memory, NoMemory>
    ensures { IfOk result (λ copy. copy ≡ memory.now) }
{
    let mut blocks = Vec::new(alloc);
    for block in memory.as_slice() {
        blocks.push(copy_block(alloc, block)?)?;
    }
    Ok(Sequence::from_vec(blocks))
}

fn copy_block(alloc: Global, block: &MemoryBlock) -> Result<MemoryBlock, NoMemory>
    ensures { IfOk result (λ copy. copy ≡ block.now) }
{
    Ok(MemoryBlock {
        name: block.name,
        size: block.size,
        align: block.align,
        places: Sequence::from_vec(block.places.as_slice().to_vec(alloc)?),
    })
}

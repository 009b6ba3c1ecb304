ghost use Rattle.std.specs.Prelude.{◌≡◌, ◌<◌};
ghost use Rattle.std.specs.List.{position_from};
ghost use Rattle.memory_access.specs.Blocks.{equal_names, equal_pointers, names, block_bytes};

use byte_block::{BlockName, Byte, MemoryBlock, Ptr};

/// Whether two names are those of one block, or both null.
pub fn is_equal_name(a: BlockName, b: BlockName) -> bool
    ensures { result ≡ equal_names a b }
{
    match (a, b) {
        (BlockName::Null, BlockName::Null) => true,
        (BlockName::Given(i), BlockName::Given(j)) => i == j,
        (BlockName::Local(turn, place), BlockName::Local(other_turn, other_place)) => {
            turn == other_turn && place == other_place
        }
        _ => false,
    }
}

/// Whether two pointers have the same block and the same offset.
pub fn is_equal_pointer(p: Ptr, q: Ptr) -> bool
    ensures { result ≡ equal_pointers p q }
{
    is_equal_name(p.block, q.block) && p.offset == q.offset
}

/// Whether the name is that of the block; null names none.
fn is_named(name: BlockName, block: &MemoryBlock) -> bool
    ensures { result ≡ names name block.now }
{
    match name {
        BlockName::Null => false,
        BlockName::Given(_) | BlockName::Local(..) => is_equal_name(name, block.name),
    }
}

/// The index of the first block that a name names.
pub fn index_named(blocks: &[MemoryBlock], name: BlockName) -> Option<usize>
    ensures { result ≡ position_from (names name) 0 blocks.now }
{
    for (i, block) in blocks.iter().enumerate() {
        if is_named(name, block) {
            return Some(i);
        }
    }
    None
}

/// The bytes of a block: its contents below its size.
pub fn bytes_in(block: &MemoryBlock) -> &[Byte]
    ensures { result.now ≡ block_bytes block.now }
{
    let places = block.places.as_slice();
    if block.size < places.len() as u64 {
        &places[..block.size as usize]
    } else {
        places
    }
}

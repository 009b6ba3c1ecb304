//! The blocks that a run leaves: the local ones are freed.

ghost use Rattle.std.specs.Prelude.{◌≡◌};
ghost use Rattle.std.specs.List.{filter};
ghost use Rattle.points.specs.Run.{is_given_name, is_given};

use byte_block::{BlockName, Memory};
use std::alloc::Global;
use std::mem;
use support::Sequence;

fn is_given_name(name: BlockName) -> bool
    ensures { result ≡ is_given_name name }
{
    match name {
        BlockName::Null | BlockName::Local(..) => false,
        BlockName::Given(_) => true,
    }
}

/// Frees the local blocks. It allocates nothing.
pub fn free_locals(alloc: Global, memory: &mut Memory)
    ensures { memory.new ≡ filter is_given memory.old }
{
    let none = Sequence::from_vec(Vec::new(alloc));
    let mut blocks = mem::replace(memory, none).into_vec();
    blocks.retain(|block| is_given_name(block.name));
    *memory = Sequence::from_vec(blocks);
}

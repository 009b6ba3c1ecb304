//! How many bytes the block has that a number names.

ghost use Rattle.std.specs.Prelude.{◌≡◌, ◌&&◌, IfOk, cond, length};
ghost use Rattle.memory_access.specs.Blocks.{block_size, bytes_named, names};
ghost use Rattle.bv_terms.specs.Trees.{IsTerm, Keeps, bit_at, term_at};
ghost use Rattle.mem_terms.specs.Values.{IsNaming, Reading};
ghost use Rattle.mem_terms.specs.Memory.{AreSymBlocks, IsSymBlock, block_at, memory_at};

use crate::named::{is_named, is_never};
use crate::places::size_of;
use bv_terms::{TermId, Terms};
use mem_terms::{SymBlock, number, pick};
use support::NoMemory;

/// The size of the block if it is named, and that of a later block if not.
fn size_with(
    terms: &mut Terms,
    b: &SymBlock,
    block: TermId,
    later: TermId,
) -> Result<TermId, NoMemory>
    requires b { IsSymBlock terms.old b.now }
    requires block { IsTerm terms.old 64 block }
    requires later { IsTerm terms.old 64 later }
    ensures made { IfOk result (IsTerm terms.new 64) }
    ensures stands { IfOk result (λ id. (r : Reading) → IsNaming r.name → term_at r.v terms.new id ≡ cond (bit_at r.v terms.old b.now.exists && names (r.name (term_at r.v terms.old block)) (block_at r terms.old b.now))
        (block_size (block_at r terms.old b.now)) (term_at r.v terms.old later)) }
    ensures kept { Keeps terms.old terms.new }
{
    let named = is_named(terms, block, b)?;
    if is_never(terms, named) {
        return Ok(later);
    }
    let here = size_of(terms, b)?;
    pick(terms, named, here, later)
}

/// How many bytes the first block has that the number names; 0 where it names none.
pub fn size_named(terms: &mut Terms, memory: &[SymBlock], block: TermId) -> Result<TermId, NoMemory>
    requires memory { AreSymBlocks terms.old memory.now }
    requires block { IsTerm terms.old 64 block }
    ensures made { IfOk result (IsTerm terms.new 64) }
    ensures stands { IfOk result (λ id. (r : Reading) → IsNaming r.name → term_at r.v terms.new id ≡ length (bytes_named (memory_at r terms.old memory.now) (r.name (term_at r.v terms.old block)))) }
    ensures kept { Keeps terms.old terms.new }
{
    let mut size = number(terms, 0)?;
    let mut i = memory.len();
    while 0 < i {
        i -= 1;
        size = size_with(terms, &memory[i], block, size)?;
    }
    Ok(size)
}

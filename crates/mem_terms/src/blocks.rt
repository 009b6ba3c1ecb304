//! Blocks of memory.

ghost use Rattle.std.specs.Prelude.{◌≡◌, ◌+◌};
ghost use Rattle.mem_terms.specs.Values.{first_local};

use crate::bytes::SymByte;
use bv_terms::TermId;
use support::Sequence;

/// A block that exists in some runs. Its alignment and how many bytes it has room for are known,
/// its size may not be.
#[derive(Drop)]
pub struct SymBlock {
    /// Its number, from 1.
    pub number: u64,
    /// Whether it was made.
    pub exists: TermId,
    /// In bytes, in 64 bits.
    pub size: TermId,
    pub align: u64,
    pub places: Sequence<SymByte>,
}

/// The last number of a given block, where n are given: the numbers of local blocks follow it. It is
/// 7 at least, so that no number of 3 bits names a local block.
pub fn last_given_number(given: u64) -> u64
    ensures { first_local given ≡ result + 1 }
{
    if given < 8 { 7 } else { given }
}

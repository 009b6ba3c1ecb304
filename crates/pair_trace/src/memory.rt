//! How the blocks that two runs leave differ.

ghost use Rattle.std.specs.Prelude.{◌≡◌, ◌≢◌, true, length, MatchOption};
ghost use Rattle.points.specs.Refines.{byte_allows, pairs_pass, block_allows, blocks_allow};
ghost use Rattle.pair_trace.specs.Differences.{IsOtherByte, IsBlockDifference, IsMemoryDifference};

use crate::differences::Difference;
use byte_block::{Byte, MemoryBlock};
use memory_access::{bytes_in, is_equal_name};
use points::byte_is_allowed;

/// The index of the first byte that the source's does not allow.
fn other_byte(source: &[Byte], target: &[Byte]) -> Option<usize>
    requires { length source.now ≡ length target.now }
    ensures { MatchOption result (pairs_pass byte_allows source.now target.now ≡ true) (IsOtherByte source.now target.now) }
{
    for (i, s) in source.iter().enumerate() {
        if !byte_is_allowed(*s, target[i]) {
            return Some(i);
        }
    }
    None
}

/// How two blocks differ, the one at this index of the memories.
fn block_difference(index: usize, source: &MemoryBlock, target: &MemoryBlock) -> Option<Difference>
    ensures { MatchOption result (block_allows source.now target.now ≡ true) (IsBlockDifference index source.now target.now) }
{
    if !is_equal_name(source.name, target.name) || source.size != target.size {
        return Some(Difference::Block { index });
    }
    let (s, t) = (bytes_in(source), bytes_in(target));
    if s.len() != t.len() {
        return Some(Difference::Block { index });
    }
    match other_byte(s, t) {
        Some(byte) => Some(Difference::Byte { index, byte }),
        None => None,
    }
}

/// How the blocks that the target leaves differ from those that the source does.
pub fn memory_difference(source: &[MemoryBlock], target: &[MemoryBlock]) -> Option<Difference>
    ensures { MatchOption result (blocks_allow source.now target.now ≡ true) (IsMemoryDifference source.now target.now) }
{
    if source.len() != target.len() {
        return Some(Difference::Blocks);
    }
    for (i, s) in source.iter().enumerate() {
        if let Some(difference) = block_difference(i, s, &target[i]) {
            return Some(difference);
        }
    }
    None
}

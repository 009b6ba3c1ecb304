//! Room that runs reuse.

use byte_block::Value;
use memory_access::Index;
use std::alloc::Global;
use support::Sequence;

/// Room that runs reuse: for the values of a block's phis, and for the indices of a
/// `getelementptr`. Blocks and bytes are taken from the allocator.
#[derive(Drop)]
pub struct Room {
    pub alloc: Global,
    pub phis: Sequence<Value>,
    pub indices: Sequence<Index>,
}

use support::Sequence;

/// Where a jump of a copy leads.
#[derive(Clone, Copy, Debug, PartialEq, Eq)]
pub enum Edge {
    /// To the copy with this number, which comes later.
    Copy(usize),
    /// It is one backward jump too many.
    Beyond,
    /// To a label that no block has.
    Nowhere,
}

/// A copy of a block, for one count of backward jumps.
#[derive(Drop)]
pub struct BlockCopy {
    /// How many backward jumps a run has taken that comes to it.
    pub turn: u64,
    /// The index of the block in the function, from 0.
    pub block: usize,
    /// Where each label leads that the block may jump to, in the order of its terminator.
    pub edges: Sequence<Edge>,
}

/// The copies of a function's blocks, all blocks in text order for each count of backward jumps, so
/// that each jump leads to a copy that comes later. A copy's number is its index.
#[derive(Drop)]
pub struct Layered {
    /// The most backward jumps that a run may take.
    pub turns: u64,
    pub copies: Sequence<BlockCopy>,
}

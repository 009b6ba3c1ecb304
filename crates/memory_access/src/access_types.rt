use byte_block::Value;
use tv_num::Width;

/// What a load reads or a store writes.
#[derive(Clone, Copy, Debug, PartialEq, Eq)]
pub enum Access {
    /// An integer of this width, in the fewest bytes that hold it, the least significant first.
    Int(Width),
    /// A pointer, in 8 bytes.
    Pointer,
}

/// What a load gives.
#[derive(Clone, Copy, Debug, PartialEq, Eq)]
pub enum Loaded {
    /// Undefined behaviour.
    Ub,
    Done(Value),
}

/// How a store ends.
#[derive(Clone, Copy, Debug, PartialEq, Eq)]
pub enum Stored {
    /// Undefined behaviour.
    Ub,
    Done,
}

/// Which block of memory.
#[derive(Clone, Copy, Debug, PartialEq, Eq)]
pub enum BlockName {
    /// The block that no access may use.
    Null,
    /// A block that the caller gives, by its number from 1.
    Given(u64),
    /// A block of the run's own: how many backward jumps were taken when it was made, and the index
    /// of its `alloca` among the function's instructions, from 0. It is dead after the run.
    Local(u64, u64),
}

/// An address: a block and an offset in bytes, modulo 2^64.
#[derive(Clone, Copy, Debug, PartialEq, Eq)]
pub struct Ptr {
    pub block: BlockName,
    pub offset: u64,
}

/// A value of a register (LLVM Language Reference, "Poison Values").
#[derive(Clone, Copy, Debug, PartialEq, Eq)]
pub enum Value {
    Num(u64),
    Poison,
    Ptr(Ptr),
}

/// A byte of memory: bits, or the part of a pointer with this index from 0 to 7. A bit of the mask
/// is poison, and is 0 in the number (LLVM Language Reference, "Poison Values"; Alive2's memory
/// model, CAV 2021, keeps a mask of such bits in each byte too).
#[derive(Clone, Copy, Debug, PartialEq, Eq)]
pub enum Byte {
    Bits { number: u8, mask: u8 },
    Part(Ptr, u8),
}

//! A run as a list of steps, and the reasons of these.

use byte_block::{Ptr, Value};
use points::Outcome;
use support::Sequence;

/// What a step is of: the parameter with this index, or in a block the phi or the instruction with
/// this index, from 0, or the terminator.
#[derive(Clone, Copy, Debug, PartialEq, Eq)]
pub enum Site {
    Parameter(usize),
    Phi(usize),
    Inst(usize),
    Terminator,
    /// The block is to be entered, and the function has no such block. No function that the reader
    /// accepts leads there.
    NoBlock,
}

/// A flag of an instruction that makes its result poison (LLVM Language Reference, "Binary
/// Operations", "Conversion Operations", "icmp Instruction", "getelementptr Instruction").
#[derive(Clone, Copy, Debug, PartialEq, Eq)]
pub enum Flag {
    /// `nuw`
    NoUnsignedWrap,
    /// `nsw`
    NoSignedWrap,
    /// `exact`
    Exact,
    /// `disjoint`
    Disjoint,
    /// `nneg`
    NonNegative,
    /// `samesign`
    SameSign,
    /// `inbounds`
    Inbounds,
}

/// Why a step gives poison of operands that are not, or is the end of the run.
#[derive(Clone, Copy, Debug, PartialEq, Eq)]
pub enum Reason {
    /// The result is poison by this flag: without flags it would not be.
    Flag(Flag),
    /// The amount of a shift is the width or more.
    ShiftPastWidth,
    /// An operand is written `poison` or `undef`.
    PoisonOperand,
    /// The bytes that are loaded are not a value of the type: one of them is poison, or they are of
    /// a value of another type.
    LoadedPoison,
    /// A phi has no entry for the block that was left.
    NoEntry,
    /// The argument is null, and the parameter is `nonnull`.
    NullArgument,
    /// The argument is poison, and the parameter is `noundef`.
    PoisonArgument,
    DivisionByZero,
    PoisonDivisor,
    /// The quotient of the least number by -1 is out of range.
    DivisionOverflow,
    /// The dividend is poison, which might be the least number, and the divisor is -1.
    PoisonDividend,
    /// The address is poison.
    PoisonAddress,
    /// The address is in the block of null.
    NullAddress,
    /// The memory has no block of the address's name.
    DeadBlock,
    /// The access goes past the end of the block.
    PastEnd,
    /// The block's alignment is less than the access's, or the offset is no multiple of it.
    Misaligned,
    /// A branch or a switch on poison.
    PoisonCondition,
    /// `unreachable`.
    Unreachable,
    /// The value that is returned is poison or undef, and the return is `noundef`.
    PoisonReturn,
    /// The jump is one backward jump more than the bound allows.
    TooManyJumps,
    /// The function has no block of the label.
    MissingBlock,
}

/// Where a load or a store goes, and how many bytes it has.
#[derive(Clone, Copy, Debug, PartialEq, Eq)]
pub struct Location {
    pub pointer: Ptr,
    pub bytes: u64,
}

/// A step of a run.
#[derive(Drop)]
pub struct Step {
    /// The index of its block in text order; 0 for a parameter.
    pub block: usize,
    /// How many backward jumps were taken before it.
    pub turn: u64,
    pub site: Site,
    /// What its operands read, in text order: a number is cut to the width at which it is used, and
    /// a value of another type than the operand's is poison. A parameter has one, its argument; a
    /// phi has the one of the block that was left.
    pub operands: Sequence<Value>,
    /// What its name reads afterwards; of a `ret` the value that is returned.
    pub result: Option<Value>,
    /// The words of the tape that it took.
    pub taken: Sequence<u64>,
    /// The index of the block that a terminator leads to.
    pub to: Option<usize>,
    /// Where a load or a store of a pointer goes.
    pub location: Option<Location>,
    pub reason: Option<Reason>,
}

/// The steps of a run, its outcome, and how many words of the tape it read.
#[derive(Drop)]
pub struct Trace {
    pub steps: Sequence<Step>,
    pub outcome: Outcome,
    pub read: u64,
}

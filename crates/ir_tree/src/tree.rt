use crate::name::Name;
use crate::names::Names;
use support::Sequence;
use text_places::Place;
use tv_num::Width;

/// A type of a value (LLVM Language Reference, "Integer Type", "Pointer Type").
#[derive(Clone, Copy, Debug, PartialEq, Eq)]
pub enum IrType {
    Int(Width),
    Ptr,
}

/// What is written where a value is used. A local name goes by its number in the function's names;
/// a literal is wrapped to its type's width.
#[derive(Clone, Copy, Debug, PartialEq, Eq)]
pub enum Operand {
    Local(usize),
    Number(u64),
    /// The pointer `null`.
    Null,
    Poison,
    /// Any value of the type, another at each use (LLVM Language Reference, "Undefined Values").
    /// It may occur only in `freeze` and `ret`.
    Undef,
}

/// Which results of a wrapping operation are poison: those that wrap as unsigned numbers, and those
/// that wrap as signed ones.
#[derive(Clone, Copy, Debug, PartialEq, Eq)]
pub struct Flags {
    pub nuw: bool,
    pub nsw: bool,
}

/// An operation on two integers of one width (LLVM Language Reference, "Binary Operations",
/// "Bitwise Binary Operations"), in the order of the instruction table.
#[derive(Clone, Copy, Debug, PartialEq, Eq)]
pub enum Op {
    Add(Flags),
    Sub(Flags),
    Mul(Flags),
    UnsignedDiv { exact: bool },
    UnsignedRem,
    SignedDiv { exact: bool },
    SignedRem,
    ShiftLeft(Flags),
    LogicalShiftRight { exact: bool },
    ArithmeticShiftRight { exact: bool },
    And,
    Or { disjoint: bool },
    Xor,
}

/// How two integers are compared (LLVM Language Reference, "icmp Instruction").
#[derive(Clone, Copy, Debug, PartialEq, Eq)]
pub enum Predicate {
    Equal,
    NotEqual,
    UnsignedGreater,
    UnsignedGreaterOrEqual,
    UnsignedLess,
    UnsignedLessOrEqual,
    SignedGreater,
    SignedGreaterOrEqual,
    SignedLess,
    SignedLessOrEqual,
}

/// A change of an integer's width (LLVM Language Reference, "Conversion Operations").
#[derive(Clone, Copy, Debug, PartialEq, Eq)]
pub enum Cast {
    /// The low bits.
    Truncate(Flags),
    /// Zeros before the number; with `nneg` a negative one gives poison.
    ZeroExtend { non_negative: bool },
    /// Copies of the sign before the number.
    SignExtend,
}

/// An operand after its type.
#[derive(Clone, Copy, Debug, PartialEq, Eq)]
pub struct TypedOperand {
    pub of_type: IrType,
    pub operand: Operand,
}

/// A type of an object in memory: an element, or nested arrays of elements. The outermost array's
/// length comes first; a single element has none (LLVM Language Reference, "Array Type").
#[derive(Drop)]
pub struct MemoryType {
    pub lengths: Sequence<u64>,
    pub element: IrType,
}

/// An index of a `getelementptr`: a number of this width.
#[derive(Clone, Copy, Debug, PartialEq, Eq)]
pub struct GepIndex {
    pub width: Width,
    pub operand: Operand,
}

/// An instruction; `into` is the number of the name that gets the result.
#[derive(Drop)]
pub enum Inst {
    Binary {
        into: usize,
        op: Op,
        width: Width,
        left: Operand,
        right: Operand,
    },
    /// The result has one bit; the operands have the width. With `samesign` operands of different
    /// signs give poison.
    Icmp {
        into: usize,
        predicate: Predicate,
        same_sign: bool,
        width: Width,
        left: Operand,
        right: Operand,
    },
    Cast {
        into: usize,
        cast: Cast,
        from: Width,
        operand: Operand,
        to: Width,
    },
    /// The condition has one bit.
    Select {
        into: usize,
        condition: Operand,
        if_true: TypedOperand,
        if_false: TypedOperand,
    },
    Freeze {
        into: usize,
        of_type: IrType,
        operand: Operand,
    },
    /// A block of memory for one object, which is freed at the return; `number` is the
    /// instruction's own among those of the function, from 0 ("alloca Instruction").
    Alloca {
        into: usize,
        number: usize,
        of_type: MemoryType,
        align: u64,
    },
    /// "load Instruction".
    Load {
        into: usize,
        of_type: IrType,
        pointer: Operand,
        align: u64,
    },
    /// "store Instruction". It has no result.
    Store {
        value: TypedOperand,
        pointer: Operand,
        align: u64,
    },
    /// An address: the base, plus a number of objects of the type, and then of elements of the
    /// array that was entered ("getelementptr Instruction"). `nuw` occurs only with `inbounds`.
    GetElementPtr {
        into: usize,
        inbounds: bool,
        nuw: bool,
        of_type: MemoryType,
        base: Operand,
        indices: Sequence<GepIndex>,
    },
}

/// What a phi takes where the block of a label was left: an operand, and the label's number.
#[derive(Clone, Copy, Debug, PartialEq, Eq)]
pub struct PhiEntry {
    pub operand: Operand,
    pub from: usize,
}

/// A phi: its result gets the operand of the block that was left (LLVM Language Reference, "phi
/// Instruction"). All phis of a block read their operands before one result is assigned.
#[derive(Drop)]
pub struct Phi {
    pub into: usize,
    pub of_type: IrType,
    pub entries: Sequence<PhiEntry>,
}

/// A case of a switch: a literal after its own type, wrapped to that type's width, and the number
/// of the label that it leads to.
#[derive(Clone, Copy, Debug, PartialEq, Eq)]
pub struct Case {
    pub width: Width,
    pub value: u64,
    pub to: usize,
}

/// How a block ends (LLVM Language Reference, "Terminator Instructions"). Blocks go by the numbers
/// of their labels.
#[derive(Drop)]
pub enum Terminator {
    /// `ret`, with nothing for `ret void`.
    Return(Option<TypedOperand>),
    /// `br label`.
    Branch {
        to: usize,
    },
    /// `br i1`: the condition has one bit.
    CondBranch {
        condition: Operand,
        if_true: usize,
        if_false: usize,
    },
    /// `switch`: the case whose number is the operand's, or the default.
    Switch {
        width: Width,
        operand: Operand,
        default: usize,
        cases: Sequence<Case>,
    },
    /// `unreachable`.
    Unreachable,
}

/// A block: the number of its label among the function's names, its phis and its other instructions
/// in order, and how it ends. An entry without a label has the name that the language gives it.
pub struct Block {
    pub label: usize,
    pub phis: Sequence<Phi>,
    pub insts: Sequence<Inst>,
    pub terminator: Terminator,
}

// Dropped by one call: a derived drop is written out at each return.
impl Drop for Block {
    fn drop(self) {
        let Block {
            label,
            phis,
            insts,
            terminator,
        } = self;
    }
}

/// A parameter: its type, whether it is `noundef` and `nonnull`, and the number of its name (LLVM
/// Language Reference, "Parameter Attributes").
#[derive(Clone, Copy, Debug, PartialEq, Eq)]
pub struct Parameter {
    pub of_type: IrType,
    pub no_undef: bool,
    pub non_null: bool,
    pub name: usize,
}

/// A function with a body; `returns` is nothing for `void`, `returns_no_undef` says that the return
/// is `noundef`, and the first block is the entry. Parameters, labels and results share one table of
/// names.
pub struct Function {
    pub name: Name,
    pub returns: Option<IrType>,
    pub returns_no_undef: bool,
    pub parameters: Sequence<Parameter>,
    pub blocks: Sequence<Block>,
    pub names: Names,
    /// The line and column of each of its types, names, literals and labels, in text order. They
    /// are no part of what the function does.
    pub places: Sequence<Place>,
}

// Dropped by one call: a derived drop is written out at each return.
impl Drop for Function {
    fn drop(self) {
        let Function {
            name,
            returns,
            returns_no_undef,
            parameters,
            blocks,
            names,
            places,
        } = self;
    }
}

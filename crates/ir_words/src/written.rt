// The parts of a function as it is written: names are where the text has them, and each type, name, literal
// and label has its position.
use crate::boxed::Boxed;
use ir_tree::{Cast, IrType, MemoryType, Name, Op, Predicate};
use support::Sequence;
use text_places::Place;
use tv_num::Width;

#[derive(Drop)]
pub struct WrittenName {
    pub name: Name,
    pub at: Place,
}

/// An integer type.
#[derive(Clone, Copy)]
pub struct WrittenIntType {
    pub width: Width,
    pub at: Place,
}

/// A type of a value.
#[derive(Clone, Copy)]
pub struct WrittenType {
    pub of_type: IrType,
    pub at: Place,
}

#[derive(Drop)]
pub enum WrittenValue {
    Local(Name),
    /// A literal, wrapped to the width that is written before it.
    Literal(u64),
    /// `null`.
    Null,
    Poison,
    Undef,
}

#[derive(Drop)]
pub struct WrittenOperand {
    pub value: WrittenValue,
    pub at: Place,
}

/// An operand after its type.
#[derive(Drop)]
pub struct WrittenTyped {
    pub of_type: WrittenType,
    pub operand: WrittenOperand,
}

/// The type of a function or after `ret`, or nothing for `void`.
#[derive(Clone, Copy)]
pub struct WrittenReturnType {
    pub of_type: Option<IrType>,
    pub at: Place,
}

/// A parameter, with an optional name.
#[derive(Drop)]
pub struct WrittenParameter {
    pub of_type: WrittenType,
    pub no_undef: bool,
    pub non_null: bool,
    pub name: Option<WrittenName>,
}

/// The parameters before the last one, and the last one so far.
#[derive(Drop)]
pub struct WrittenParameters {
    pub before: Sequence<WrittenParameter>,
    pub last: WrittenParameter,
}

/// A type of an object in memory, at the position of its element.
#[derive(Drop)]
pub struct WrittenObject {
    pub of_type: MemoryType,
    pub at: Place,
}

/// An instruction that an alignment may follow.
#[derive(Drop)]
pub enum WrittenAccess {
    /// `number` is the instruction's own among those of the function, from 0.
    Alloca {
        into: WrittenName,
        number: usize,
        of_type: WrittenObject,
    },
    Load {
        into: WrittenName,
        of_type: WrittenType,
        pointer: WrittenTyped,
    },
    Store {
        value: WrittenTyped,
        pointer: WrittenTyped,
    },
}

/// An index of a `getelementptr`.
#[derive(Drop)]
pub struct WrittenIndex {
    pub of_type: WrittenIntType,
    pub operand: WrittenOperand,
}

#[derive(Drop)]
pub struct WrittenGep {
    pub into: WrittenName,
    pub flags: GepFlags,
    pub of_type: Boxed<WrittenObject>,
    pub base: Boxed<WrittenTyped>,
    pub indices: Sequence<WrittenIndex>,
}

/// The flags of a `getelementptr`.
#[derive(Clone, Copy)]
pub struct GepFlags {
    pub inbounds: bool,
    pub nuw: bool,
}

/// The flags of a `getelementptr`, and the lengths of the arrays that are open after them, the
/// outermost first.
#[derive(Drop)]
pub struct WrittenArrays {
    pub flags: GepFlags,
    pub lengths: Sequence<u64>,
}

#[derive(Drop)]
pub enum WrittenInst {
    Binary {
        into: WrittenName,
        op: Op,
        of_type: WrittenIntType,
        left: WrittenOperand,
        right: WrittenOperand,
    },
    Icmp {
        into: WrittenName,
        predicate: Predicate,
        same_sign: bool,
        of_type: WrittenIntType,
        left: WrittenOperand,
        right: WrittenOperand,
    },
    Cast {
        into: WrittenName,
        cast: Cast,
        from: WrittenIntType,
        operand: WrittenOperand,
        to: WrittenIntType,
    },
    /// The position is that of the condition's type.
    Select {
        into: WrittenName,
        bit: Place,
        condition: WrittenOperand,
        if_true: Boxed<WrittenTyped>,
        if_false: Boxed<WrittenTyped>,
    },
    Freeze {
        into: WrittenName,
        value: WrittenTyped,
    },
    /// The alignment is the type's own where none is written.
    Access {
        access: Boxed<WrittenAccess>,
        align: u64,
    },
    GetElementPtr(WrittenGep),
}

/// What a phi takes where a block was left: an operand, and the block's label.
#[derive(Drop)]
pub struct WrittenEntry {
    pub operand: WrittenOperand,
    pub from: WrittenName,
}

#[derive(Drop)]
pub struct WrittenPhi {
    pub into: WrittenName,
    pub of_type: WrittenType,
    pub entries: Sequence<WrittenEntry>,
}

/// A line of a block, as far as it is read.
#[derive(Drop)]
pub enum WrittenLine {
    Label(WrittenName),
    /// A record; what is in it is ignored.
    Record,
    /// A phi, to which entries may be added.
    Entries(WrittenPhi),
    /// An instruction that an alignment may follow.
    Access(Boxed<WrittenAccess>),
    /// A `getelementptr`, to which indices may be added.
    Indices(WrittenGep),
    /// A phi with attachments.
    Phi(WrittenPhi),
    /// An instruction that only attachments may follow.
    Inst(Boxed<WrittenInst>),
}

/// A block so far: its label, if it has one, its phis and its other instructions. `is_new` says that
/// nothing comes before, so that a label may follow, and `room` how many more instructions the
/// function may have.
#[derive(Drop)]
pub struct WrittenLines {
    pub label: Option<WrittenName>,
    pub phis: Sequence<WrittenPhi>,
    pub insts: Sequence<Boxed<WrittenInst>>,
    pub is_new: bool,
    pub room: usize,
}

/// What `ret` gives.
#[derive(Drop)]
pub enum WrittenReturn {
    /// `void` at its position.
    Void(Place),
    Value(WrittenTyped),
}

/// A literal, wrapped to the width that is written before it.
#[derive(Clone, Copy)]
pub struct WrittenLiteral {
    pub value: u64,
    pub at: Place,
}

/// A case of a switch: a literal after its type, and the label that it leads to.
#[derive(Drop)]
pub struct WrittenCase {
    pub of_type: WrittenIntType,
    pub literal: WrittenLiteral,
    pub to: WrittenName,
}

/// How a block ends.
#[derive(Drop)]
pub enum WrittenTerminator {
    Return(WrittenReturn),
    Branch(WrittenName),
    /// The position is that of the condition's type.
    CondBranch {
        bit: Place,
        condition: WrittenOperand,
        if_true: WrittenName,
        if_false: WrittenName,
    },
    Switch {
        of_type: WrittenIntType,
        operand: WrittenOperand,
        default: WrittenName,
        cases: Sequence<WrittenCase>,
    },
    Unreachable,
}

/// What follows the label of a block.
#[derive(Drop)]
pub struct WrittenBody {
    pub phis: Sequence<WrittenPhi>,
    pub insts: Sequence<Boxed<WrittenInst>>,
    pub terminator: Boxed<WrittenTerminator>,
}

/// A block after the entry.
#[derive(Drop)]
pub struct WrittenBlock {
    pub label: WrittenName,
    pub body: WrittenBody,
}

/// The blocks of a function so far: the entry, with its label, if it has one, and the others. `room`
/// says how many more instructions the function may have.
#[derive(Drop)]
pub struct WrittenBlocks {
    pub label: Option<WrittenName>,
    pub entry: WrittenBody,
    pub others: Sequence<WrittenBlock>,
    pub room: usize,
}

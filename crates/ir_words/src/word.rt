// What one token means: the word of an instruction, a flag, what begins a line or goes on with a
// header.
ghost use Rattle.std.specs.Prelude.{◌≡◌};
ghost use Rattle.std.specs.Str.{bytes_eq};
ghost use Rattle.ir_words.specs.Words as spec;

use crate::written::WrittenName;
use ir_lexer::{Kind, Token};
use ir_tree::{Flags, Op, Predicate};

/// An operation with the flags `nuw` and `nsw`.
#[derive(Clone, Copy)]
pub enum WrapWord {
    Add,
    Sub,
    Mul,
    ShiftLeft,
}

/// An operation with the flag `exact`.
#[derive(Clone, Copy)]
pub enum ExactWord {
    UnsignedDiv,
    SignedDiv,
    LogicalShiftRight,
    ArithmeticShiftRight,
}

/// What the word of an instruction names, in the order of the instruction table.
#[derive(Clone, Copy)]
pub enum Opcode {
    Wrapping(WrapWord),
    Exact(ExactWord),
    /// An operation without flags.
    Plain(Op),
    Or,
    Icmp,
    Truncate,
    ZeroExtend,
    SignExtend,
    Select,
    Freeze,
}

/// An optional flag before a type or a comparison.
#[derive(Clone, Copy)]
pub enum Flag {
    Exact,
    Disjoint,
    NonNegative,
    SameSign,
}

/// What follows the name of a result: the word of a phi, of an instruction that an alignment
/// or indices may follow, or of another instruction.
#[derive(Clone, Copy)]
pub enum LineWord {
    Phi,
    Alloca,
    Load,
    GetElementPtr,
    Inst(Opcode),
}

/// The word of the last instruction of a block.
#[derive(Clone, Copy)]
pub enum TerminatorWord {
    Return,
    Branch,
    Switch,
    Unreachable,
}

/// What begins a line of a block: a label, the name of an instruction's result, the word `store`, or
/// the word of a record.
#[derive(Drop)]
pub enum LineStart {
    Label(WrittenName),
    Inst(WrittenName),
    Store,
    Record,
}

/// What goes on with a parameter: `noundef`, `nonnull`, an extension, its name, or the comma before
/// the next.
#[derive(Drop)]
pub enum ParameterPart {
    NoUndef,
    NonNull,
    Extension,
    Name(WrittenName),
    Next,
}

/// What follows the parameters: a word or a number of attributes, `comdat`, the mark before
/// its name, or `!dbg`.
#[derive(Clone, Copy)]
pub enum HeaderPart {
    Attribute,
    Comdat,
    Opening,
    Debug,
}

fn are_same(text: &[u8], word: &[u8]) -> bool
    ensures { result ≡ bytes_eq text.now word.now }
{
    text == word
}

/// Whether a text is this word or mark. Most that differ do so in the first byte or the length, so
/// that all bytes are compared only where these agree. A comparison that is written out makes the check of the
/// function around it take longer, twice to five times as long.
pub fn is_spelled(text: &[u8], word: &[u8]) -> bool
    ensures { result ≡ bytes_eq text.now word.now }
{
    match (text, word) {
        ([byte], [other]) => *byte == *other,
        ([first, ..], [other, ..]) => {
            *first == *other && text.len() == word.len() && are_same(text, word)
        }
        _ => text.is_empty() && word.is_empty(),
    }
}

/// Whether a token is this word.
pub fn is_word(token: &Token, word: &[u8]) -> bool
    ensures { result ≡ spec.is_word_of token.now.kind token.now.text word.now }
{
    token.kind() == Kind::Word && is_spelled(token.text(), word)
}

/// Whether a token is this mark.
pub fn is_mark(token: &Token, mark: &[u8]) -> bool
    ensures { result ≡ spec.is_mark_of token.now.kind token.now.text mark.now }
{
    token.kind() == Kind::Mark && is_spelled(token.text(), mark)
}

/// The operation with these flags.
pub fn wrapping_op(word: WrapWord, flags: Flags) -> Op
    ensures { result ≡ spec.wrapping_op word flags }
{
    match word {
        WrapWord::Add => Op::Add(flags),
        WrapWord::Sub => Op::Sub(flags),
        WrapWord::Mul => Op::Mul(flags),
        WrapWord::ShiftLeft => Op::ShiftLeft(flags),
    }
}

/// The operation with this flag.
pub fn exact_op(word: ExactWord, exact: bool) -> Op
    ensures { result ≡ spec.exact_op word exact }
{
    match word {
        ExactWord::UnsignedDiv => Op::UnsignedDiv { exact },
        ExactWord::SignedDiv => Op::SignedDiv { exact },
        ExactWord::LogicalShiftRight => Op::LogicalShiftRight { exact },
        ExactWord::ArithmeticShiftRight => Op::ArithmeticShiftRight { exact },
    }
}

fn flagged_word(text: &[u8]) -> Option<Opcode>
    ensures { result ≡ spec.flagged_word text.now }
{
    if is_spelled(text, b"add".as_slice()) {
        Some(Opcode::Wrapping(WrapWord::Add))
    } else if is_spelled(text, b"sub".as_slice()) {
        Some(Opcode::Wrapping(WrapWord::Sub))
    } else if is_spelled(text, b"mul".as_slice()) {
        Some(Opcode::Wrapping(WrapWord::Mul))
    } else if is_spelled(text, b"udiv".as_slice()) {
        Some(Opcode::Exact(ExactWord::UnsignedDiv))
    } else if is_spelled(text, b"sdiv".as_slice()) {
        Some(Opcode::Exact(ExactWord::SignedDiv))
    } else if is_spelled(text, b"shl".as_slice()) {
        Some(Opcode::Wrapping(WrapWord::ShiftLeft))
    } else if is_spelled(text, b"lshr".as_slice()) {
        Some(Opcode::Exact(ExactWord::LogicalShiftRight))
    } else if is_spelled(text, b"ashr".as_slice()) {
        Some(Opcode::Exact(ExactWord::ArithmeticShiftRight))
    } else {
        None
    }
}

fn plain_word(text: &[u8]) -> Option<Opcode>
    ensures { result ≡ spec.plain_word text.now }
{
    if is_spelled(text, b"urem".as_slice()) {
        Some(Opcode::Plain(Op::UnsignedRem))
    } else if is_spelled(text, b"srem".as_slice()) {
        Some(Opcode::Plain(Op::SignedRem))
    } else if is_spelled(text, b"and".as_slice()) {
        Some(Opcode::Plain(Op::And))
    } else if is_spelled(text, b"or".as_slice()) {
        Some(Opcode::Or)
    } else if is_spelled(text, b"xor".as_slice()) {
        Some(Opcode::Plain(Op::Xor))
    } else {
        None
    }
}

fn cast_word(text: &[u8]) -> Option<Opcode>
    ensures { result ≡ spec.cast_word text.now }
{
    if is_spelled(text, b"trunc".as_slice()) {
        Some(Opcode::Truncate)
    } else if is_spelled(text, b"zext".as_slice()) {
        Some(Opcode::ZeroExtend)
    } else if is_spelled(text, b"sext".as_slice()) {
        Some(Opcode::SignExtend)
    } else {
        None
    }
}

fn other_word(text: &[u8]) -> Option<Opcode>
    ensures { result ≡ spec.other_word text.now }
{
    if is_spelled(text, b"icmp".as_slice()) {
        Some(Opcode::Icmp)
    } else if is_spelled(text, b"select".as_slice()) {
        Some(Opcode::Select)
    } else if is_spelled(text, b"freeze".as_slice()) {
        Some(Opcode::Freeze)
    } else {
        None
    }
}

fn opcode_named(text: &[u8]) -> Option<Opcode>
    ensures { result ≡ spec.opcode_named text.now }
{
    if let Some(opcode) = flagged_word(text) {
        return Some(opcode);
    }
    if let Some(opcode) = plain_word(text) {
        return Some(opcode);
    }
    if let Some(opcode) = cast_word(text) {
        return Some(opcode);
    }
    other_word(text)
}

// The instruction that the token names, if it names one.
fn opcode_of(token: &Token) -> Option<Opcode>
    ensures { result ≡ spec.opcode_of token.now.kind token.now.text }
{
    match token.kind() {
        Kind::Word => opcode_named(token.text()),
        _ => None,
    }
}

fn memory_word(text: &[u8]) -> Option<LineWord>
    ensures { result ≡ spec.memory_word text.now }
{
    if is_spelled(text, b"alloca".as_slice()) {
        Some(LineWord::Alloca)
    } else if is_spelled(text, b"load".as_slice()) {
        Some(LineWord::Load)
    } else if is_spelled(text, b"getelementptr".as_slice()) {
        Some(LineWord::GetElementPtr)
    } else {
        None
    }
}

fn memory_word_of(token: &Token) -> Option<LineWord>
    ensures { result ≡ spec.memory_word_of token.now.kind token.now.text }
{
    match token.kind() {
        Kind::Word => memory_word(token.text()),
        _ => None,
    }
}

/// What the token names after the name of a result, if it names an instruction; a phi only where
/// one is allowed.
pub fn line_word_of(token: &Token, phi_too: bool) -> Option<LineWord>
    ensures { result ≡ spec.line_word_of phi_too token.now.kind token.now.text }
{
    if phi_too && is_word(token, b"phi".as_slice()) {
        return Some(LineWord::Phi);
    }
    if let Some(word) = memory_word_of(token) {
        return Some(word);
    }
    match opcode_of(token) {
        Some(opcode) => Some(LineWord::Inst(opcode)),
        None => None,
    }
}

fn terminator_named(text: &[u8]) -> Option<TerminatorWord>
    ensures { result ≡ spec.terminator_named text.now }
{
    if is_spelled(text, b"ret".as_slice()) {
        Some(TerminatorWord::Return)
    } else if is_spelled(text, b"br".as_slice()) {
        Some(TerminatorWord::Branch)
    } else if is_spelled(text, b"switch".as_slice()) {
        Some(TerminatorWord::Switch)
    } else if is_spelled(text, b"unreachable".as_slice()) {
        Some(TerminatorWord::Unreachable)
    } else {
        None
    }
}

/// The last instruction of a block that the token names, if it names one.
pub fn terminator_of(token: &Token) -> Option<TerminatorWord>
    ensures { result ≡ spec.terminator_of token.now.kind token.now.text }
{
    match token.kind() {
        Kind::Word => terminator_named(token.text()),
        _ => None,
    }
}

fn predicate_named(text: &[u8]) -> Option<Predicate>
    ensures { result ≡ spec.predicate_named text.now }
{
    if is_spelled(text, b"eq".as_slice()) {
        Some(Predicate::Equal)
    } else if is_spelled(text, b"ne".as_slice()) {
        Some(Predicate::NotEqual)
    } else if is_spelled(text, b"ugt".as_slice()) {
        Some(Predicate::UnsignedGreater)
    } else if is_spelled(text, b"uge".as_slice()) {
        Some(Predicate::UnsignedGreaterOrEqual)
    } else if is_spelled(text, b"ult".as_slice()) {
        Some(Predicate::UnsignedLess)
    } else if is_spelled(text, b"ule".as_slice()) {
        Some(Predicate::UnsignedLessOrEqual)
    } else if is_spelled(text, b"sgt".as_slice()) {
        Some(Predicate::SignedGreater)
    } else if is_spelled(text, b"sge".as_slice()) {
        Some(Predicate::SignedGreaterOrEqual)
    } else if is_spelled(text, b"slt".as_slice()) {
        Some(Predicate::SignedLess)
    } else if is_spelled(text, b"sle".as_slice()) {
        Some(Predicate::SignedLessOrEqual)
    } else {
        None
    }
}

/// The comparison that the token names, if it names one.
pub fn predicate_of(token: &Token) -> Option<Predicate>
    ensures { result ≡ spec.predicate_of token.now.kind token.now.text }
{
    match token.kind() {
        Kind::Word => predicate_named(token.text()),
        _ => None,
    }
}

fn is_linkage(text: &[u8]) -> bool
    ensures { result ≡ spec.is_linkage text.now }
{
    is_spelled(text, b"private".as_slice())
        || is_spelled(text, b"internal".as_slice())
        || is_spelled(text, b"external".as_slice())
        || is_spelled(text, b"available_externally".as_slice())
        || is_spelled(text, b"linkonce".as_slice())
        || is_spelled(text, b"weak".as_slice())
        || is_spelled(text, b"linkonce_odr".as_slice())
        || is_spelled(text, b"weak_odr".as_slice())
}

fn is_visibility(text: &[u8]) -> bool
    ensures { result ≡ spec.is_visibility text.now }
{
    is_spelled(text, b"default".as_slice())
        || is_spelled(text, b"hidden".as_slice())
        || is_spelled(text, b"protected".as_slice())
        || is_spelled(text, b"dso_local".as_slice())
        || is_spelled(text, b"ccc".as_slice())
        || is_spelled(text, b"fastcc".as_slice())
        || is_spelled(text, b"zeroext".as_slice())
        || is_spelled(text, b"signext".as_slice())
}

fn prefix_named(text: &[u8], so_far: bool) -> Option<bool>
    ensures { result ≡ spec.prefix_named text.now so_far }
{
    if is_spelled(text, b"noundef".as_slice()) {
        return Some(true);
    }
    if is_linkage(text) || is_visibility(text) {
        return Some(so_far);
    }
    None
}

/// Whether `noundef` is among a return type's words so far and this one, if it is allowed there.
pub fn prefix_of(token: &Token, so_far: bool) -> Option<bool>
    ensures { result ≡ spec.prefix_of token.now.kind token.now.text so_far }
{
    match token.kind() {
        Kind::Word => prefix_named(token.text(), so_far),
        _ => None,
    }
}

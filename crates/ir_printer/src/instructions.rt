//! Instructions on integers, and the words and flags of all.

ghost use Rattle.std.specs.Prelude.{◌≡◌, ◌∷◌, ◌++◌, [], OnOk, codes};
ghost use Rattle.token_text.specs.Pieces.{text_of};
ghost use Rattle.ir_printer.specs.Pieces.{comma, space, typed_pieces, word};
ghost use Rattle.ir_printer.specs.Instructions.{cast_pieces, flag_pieces, inst_pieces, op_pieces, operand_pieces, predicate_text, result_pieces, word_if};
ghost use Rattle.ir_tree.specs.declared.tree.Inst.TheVariants as of;

use crate::accesses::{push_alloca, push_gep, push_load, push_store};
use crate::pieces::{
    push_comma, push_local_at, push_operand, push_spaced_type, push_token, push_typed, push_width,
    push_word,
};
use ir_tree::{Cast, Flags, Inst, Names, Op, Operand, Predicate, TypedOperand};
use support::NoMemory;
use tv_num::Width;

/// An optional word.
pub fn push_word_if(out: &mut Vec<u8>, is_said: bool, text: &[u8]) -> Result<(), NoMemory>
    ensures { OnOk result (out.new.items ≡ out.old.items ++ text_of (word_if is_said text.now)) }
{
    if is_said {
        push_word(out, text)?;
    }
    Ok(())
}

fn push_flags(out: &mut Vec<u8>, flags: Flags) -> Result<(), NoMemory>
    ensures { OnOk result (out.new.items ≡ out.old.items ++ text_of (flag_pieces flags)) }
{
    push_word_if(out, flags.nuw, b"nuw")?;
    push_word_if(out, flags.nsw, b"nsw")
}

/// A word and its flags.
fn push_flagged(out: &mut Vec<u8>, text: &[u8], flags: Flags) -> Result<(), NoMemory>
    ensures { OnOk result (out.new.items ≡ out.old.items ++ (space ++ text.now ++ text_of (flag_pieces flags))) }
{
    push_word(out, text)?;
    push_flags(out, flags)
}

/// A word, and an optional other one.
fn push_word_and(
    out: &mut Vec<u8>,
    text: &[u8],
    is_said: bool,
    other: &[u8],
) -> Result<(), NoMemory>
    ensures { OnOk result (out.new.items ≡ out.old.items ++ (space ++ text.now ++ text_of (word_if is_said other.now))) }
{
    push_word(out, text)?;
    push_word_if(out, is_said, other)
}

/// The word of an operation, with its flags.
fn push_op(out: &mut Vec<u8>, op: Op) -> Result<(), NoMemory>
    ensures { OnOk result (out.new.items ≡ out.old.items ++ text_of (op_pieces op)) }
{
    match op {
        Op::Add(flags) => push_flagged(out, b"add", flags),
        Op::Sub(flags) => push_flagged(out, b"sub", flags),
        Op::Mul(flags) => push_flagged(out, b"mul", flags),
        Op::UnsignedDiv { exact } => push_word_and(out, b"udiv", exact, b"exact"),
        Op::UnsignedRem => push_word(out, b"urem"),
        Op::SignedDiv { exact } => push_word_and(out, b"sdiv", exact, b"exact"),
        Op::SignedRem => push_word(out, b"srem"),
        Op::ShiftLeft(flags) => push_flagged(out, b"shl", flags),
        Op::LogicalShiftRight { exact } => push_word_and(out, b"lshr", exact, b"exact"),
        Op::ArithmeticShiftRight { exact } => push_word_and(out, b"ashr", exact, b"exact"),
        Op::And => push_word(out, b"and"),
        Op::Or { disjoint } => push_word_and(out, b"or", disjoint, b"disjoint"),
        Op::Xor => push_word(out, b"xor"),
    }
}

fn predicate_word(predicate: Predicate) -> &'static [u8]
    ensures { result.now ≡ predicate_text predicate }
{
    match predicate {
        Predicate::Equal => b"eq",
        Predicate::NotEqual => b"ne",
        Predicate::UnsignedGreater => b"ugt",
        Predicate::UnsignedGreaterOrEqual => b"uge",
        Predicate::UnsignedLess => b"ult",
        Predicate::UnsignedLessOrEqual => b"ule",
        Predicate::SignedGreater => b"sgt",
        Predicate::SignedGreaterOrEqual => b"sge",
        Predicate::SignedLess => b"slt",
        Predicate::SignedLessOrEqual => b"sle",
    }
}

/// The word of a cast, with its flags.
fn push_cast_word(out: &mut Vec<u8>, cast: Cast) -> Result<(), NoMemory>
    ensures { OnOk result (out.new.items ≡ out.old.items ++ text_of (cast_pieces cast)) }
{
    match cast {
        Cast::Truncate(flags) => push_flagged(out, b"trunc", flags),
        Cast::ZeroExtend { non_negative } => push_word_and(out, b"zext", non_negative, b"nneg"),
        Cast::SignExtend => push_word(out, b"sext"),
    }
}

/// On a line of its own, the name of the result and `=`.
pub fn push_result(out: &mut Vec<u8>, names: &Names, into: usize) -> Result<(), NoMemory>
    ensures { OnOk result (out.new.items ≡ out.old.items ++ text_of (result_pieces names.now into)) }
{
    push_local_at(out, b"\n  ", names, into)?;
    push_token(out, b" ", b"=")
}

/// Two operands after their type.
fn push_operands(
    out: &mut Vec<u8>,
    names: &Names,
    width: Width,
    left: Operand,
    right: Operand,
) -> Result<(), NoMemory>
    ensures { OnOk result (out.new.items ≡ out.old.items ++ text_of (operand_pieces names.now width left right)) }
{
    push_width(out, width)?;
    push_operand(out, names, left)?;
    push_comma(out)?;
    push_operand(out, names, right)
}

fn push_binary(
    out: &mut Vec<u8>,
    names: &Names,
    into: usize,
    op: Op,
    width: Width,
    left: Operand,
    right: Operand,
) -> Result<(), NoMemory>
    ensures { OnOk result (out.new.items ≡ out.old.items ++ text_of (inst_pieces names.now (of.Binary into op width left right))) }
{
    push_result(out, names, into)?;
    push_op(out, op)?;
    push_operands(out, names, width, left, right)
}

/// The words of a comparison.
fn push_comparison(out: &mut Vec<u8>, predicate: Predicate, same_sign: bool) -> Result<(), NoMemory>
    ensures { OnOk result (out.new.items ≡ out.old.items ++ (space ++ codes "icmp" ++ text_of (word_if same_sign (codes "samesign")) ++ (space ++ predicate_text predicate))) }
{
    push_word_and(out, b"icmp", same_sign, b"samesign")?;
    push_word(out, predicate_word(predicate))
}

fn push_cast(
    out: &mut Vec<u8>,
    names: &Names,
    into: usize,
    cast: Cast,
    from: Width,
    operand: Operand,
    to: Width,
) -> Result<(), NoMemory>
    ensures { OnOk result (out.new.items ≡ out.old.items ++ text_of (inst_pieces names.now (of.Cast into cast from operand to))) }
{
    push_result(out, names, into)?;
    push_cast_word(out, cast)?;
    push_width(out, from)?;
    push_operand(out, names, operand)?;
    push_word(out, b"to")?;
    push_width(out, to)
}

fn push_select(
    out: &mut Vec<u8>,
    names: &Names,
    into: usize,
    condition: Operand,
    if_true: TypedOperand,
    if_false: TypedOperand,
) -> Result<(), NoMemory>
    ensures { OnOk result (out.new.items ≡ out.old.items ++ text_of (inst_pieces names.now (of.Select into condition if_true if_false))) }
{
    push_result(out, names, into)?;
    push_word(out, b"select")?;
    push_word(out, b"i1")?;
    push_operand(out, names, condition)?;
    push_arms(out, names, if_true, if_false)?;
    Ok(())
}

/// The two values of a `select`, each after a comma.
fn push_arms(
    out: &mut Vec<u8>,
    names: &Names,
    if_true: TypedOperand,
    if_false: TypedOperand,
) -> Result<(), NoMemory>
    ensures { OnOk result (out.new.items ≡ out.old.items ++ text_of (comma ∷ (typed_pieces names.now if_true ++ comma ∷ typed_pieces names.now if_false))) }
{
    push_comma(out)?;
    push_typed(out, names, if_true)?;
    push_comma(out)?;
    push_typed(out, names, if_false)?;
    Ok(())
}

/// The result of a `getelementptr`, its word and its flags.
fn push_gep_word(
    out: &mut Vec<u8>,
    names: &Names,
    into: usize,
    inbounds: bool,
    nuw: bool,
) -> Result<(), NoMemory>
    ensures { OnOk result (out.new.items ≡ out.old.items
        ++ text_of (result_pieces names.now into ++ word space (codes "getelementptr") ∷ (word_if inbounds (codes "inbounds") ++ word_if nuw (codes "nuw")))) }
{
    push_result(out, names, into)?;
    push_word_and(out, b"getelementptr", inbounds, b"inbounds")?;
    push_word_if(out, nuw, b"nuw")?;
    Ok(())
}

/// An instruction on a line of its own.
pub fn push_inst(out: &mut Vec<u8>, names: &Names, inst: &Inst) -> Result<(), NoMemory>
    ensures { OnOk result (out.new.items ≡ out.old.items ++ text_of (inst_pieces names.now inst.now)) }
{
    match inst {
        Inst::Binary {
            into,
            op,
            width,
            left,
            right,
        } => push_binary(out, names, *into, *op, *width, *left, *right),
        Inst::Icmp {
            into,
            predicate,
            same_sign,
            width,
            left,
            right,
        } => {
            push_result(out, names, *into)?;
            push_comparison(out, *predicate, *same_sign)?;
            push_operands(out, names, *width, *left, *right)
        }
        Inst::Cast {
            into,
            cast,
            from,
            operand,
            to,
        } => push_cast(out, names, *into, *cast, *from, *operand, *to),
        Inst::Select {
            into,
            condition,
            if_true,
            if_false,
        } => push_select(out, names, *into, *condition, *if_true, *if_false),
        Inst::Freeze {
            into,
            of_type,
            operand,
        } => {
            push_result(out, names, *into)?;
            push_word(out, b"freeze")?;
            push_spaced_type(out, *of_type)?;
            push_operand(out, names, *operand)
        }
        Inst::Alloca {
            into,
            number: _,
            of_type,
            align,
        } => push_alloca(out, names, *into, of_type, *align),
        Inst::Load {
            into,
            of_type,
            pointer,
            align,
        } => push_load(out, names, *into, *of_type, *pointer, *align),
        Inst::Store {
            value,
            pointer,
            align,
        } => push_store(out, names, *value, *pointer, *align),
        Inst::GetElementPtr {
            into,
            inbounds,
            nuw,
            of_type,
            base,
            indices,
        } => {
            push_gep_word(out, names, *into, *inbounds, *nuw)?;
            push_gep(out, names, of_type, *base, indices.as_slice())?;
            Ok(())
        }
    }
}

//! Instructions on memory.

ghost use Rattle.std.specs.Prelude.{◌≡◌, ◌∷◌, ◌++◌, [], OnOk};
ghost use Rattle.std.specs.List.{flat_map};
ghost use Rattle.ir_tree.specs.declared.tree.Inst.TheVariants as of;
ghost use Rattle.token_text.specs.Pieces.{text_of};
ghost use Rattle.ir_printer.specs.Pieces.{array_pieces, closing_pieces, comma, object_pieces, pointer_pieces};
ghost use Rattle.ir_printer.specs.Instructions.{align_pieces, index_pieces, inst_pieces};

use crate::instructions::push_result;
use crate::pieces::{
    push_comma, push_digits, push_number, push_operand, push_pointer, push_spaced_type, push_token,
    push_typed, push_width, push_word,
};
use ir_tree::{GepIndex, IrType, MemoryType, Names, Operand, TypedOperand};
use support::NoMemory;

/// An array's opening mark, its length and `x`, for each array.
#[tactic(auto, using(crate::proofs::Texts::texts))]
fn push_arrays(out: &mut Vec<u8>, lengths: &[u64]) -> Result<(), NoMemory>
    ensures { OnOk result (out.new.items ≡ out.old.items ++ text_of (array_pieces lengths.now)) }
{
    for length in lengths {
        push_array(out, *length)?;
    }
    Ok(())
}

fn push_array(out: &mut Vec<u8>, length: u64) -> Result<(), NoMemory>
    ensures { OnOk result (out.new.items ≡ out.old.items ++ text_of (array_pieces (length ∷ []))) }
{
    push_token(out, b" ", b"[")?;
    push_digits(out, length)?;
    push_word(out, b"x")
}

/// The closing marks of these arrays.
#[tactic(auto, using(crate::proofs::Texts::texts))]
fn push_closing(out: &mut Vec<u8>, lengths: &[u64]) -> Result<(), NoMemory>
    ensures { OnOk result (out.new.items ≡ out.old.items ++ text_of (closing_pieces lengths.now)) }
{
    for length in lengths {
        out.extend_from_slice(b"]")?;
    }
    Ok(())
}

/// A type of an object in memory.
fn push_object(out: &mut Vec<u8>, of_type: &MemoryType) -> Result<(), NoMemory>
    ensures { OnOk result (out.new.items ≡ out.old.items ++ text_of (object_pieces of_type.now)) }
{
    push_arrays(out, of_type.lengths.as_slice())?;
    push_spaced_type(out, of_type.element)?;
    push_closing(out, of_type.lengths.as_slice())
}

fn push_align(out: &mut Vec<u8>, align: u64) -> Result<(), NoMemory>
    ensures { OnOk result (out.new.items ≡ out.old.items ++ text_of (align_pieces align)) }
{
    push_comma(out)?;
    push_word(out, b"align")?;
    push_number(out, align)
}

/// An alloca of one object with its alignment, on a line of its own. Its number is not printed.
pub fn push_alloca(
    out: &mut Vec<u8>,
    names: &Names,
    into: usize,
    of_type: &MemoryType,
    align: u64,
) -> Result<(), NoMemory>
    ensures { OnOk result (out.new.items ≡ out.old.items ++ text_of (inst_pieces names.now (of.Alloca into 0 of_type.now align))) }
{
    push_result(out, names, into)?;
    push_word(out, b"alloca")?;
    push_object(out, of_type)?;
    push_align(out, align)
}

/// A load with its alignment, on a line of its own.
pub fn push_load(
    out: &mut Vec<u8>,
    names: &Names,
    into: usize,
    of_type: IrType,
    pointer: Operand,
    align: u64,
) -> Result<(), NoMemory>
    ensures { OnOk result (out.new.items ≡ out.old.items ++ text_of (inst_pieces names.now (of.Load into of_type pointer align))) }
{
    push_result(out, names, into)?;
    push_word(out, b"load")?;
    push_spaced_type(out, of_type)?;
    push_comma(out)?;
    push_pointer(out, names, pointer)?;
    push_align(out, align)
}

/// A store with its alignment, on a line of its own.
pub fn push_store(
    out: &mut Vec<u8>,
    names: &Names,
    value: TypedOperand,
    pointer: Operand,
    align: u64,
) -> Result<(), NoMemory>
    ensures { OnOk result (out.new.items ≡ out.old.items ++ text_of (inst_pieces names.now (of.Store value pointer align))) }
{
    push_token(out, b"\n  ", b"store")?;
    push_typed(out, names, value)?;
    push_comma(out)?;
    push_pointer(out, names, pointer)?;
    push_align(out, align)
}

/// What follows the flags of a `getelementptr`.
pub fn push_gep(
    out: &mut Vec<u8>,
    names: &Names,
    of_type: &MemoryType,
    base: Operand,
    indices: &[GepIndex],
) -> Result<(), NoMemory>
    ensures { OnOk result (out.new.items ≡ out.old.items
        ++ text_of (object_pieces of_type.now ++ comma ∷ (pointer_pieces names.now base ++ flat_map (index_pieces names.now) indices.now))) }
{
    push_object(out, of_type)?;
    push_comma(out)?;
    push_pointer(out, names, base)?;
    push_indices(out, names, indices)
}

#[tactic(auto, using(crate::proofs::Texts::texts))]
fn push_indices(out: &mut Vec<u8>, names: &Names, indices: &[GepIndex]) -> Result<(), NoMemory>
    ensures { OnOk result (out.new.items ≡ out.old.items ++ text_of (flat_map (index_pieces names.now) indices.now)) }
{
    for index in indices {
        push_index(out, names, *index)?;
    }
    Ok(())
}

fn push_index(out: &mut Vec<u8>, names: &Names, index: GepIndex) -> Result<(), NoMemory>
    ensures { OnOk result (out.new.items ≡ out.old.items ++ text_of (index_pieces names.now index)) }
{
    push_comma(out)?;
    push_width(out, index.width)?;
    push_operand(out, names, index.operand)
}

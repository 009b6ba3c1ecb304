//! Tokens of names, types and operands.

ghost use Rattle.std.specs.Prelude.{◌≡◌, ◌∷◌, ◌++◌, [], OnOk};
ghost use Rattle.std.specs.Fmt.{decimal};
ghost use Rattle.ir_naming.specs.Naming.{name_text};
ghost use Rattle.token_text.specs.Pieces.{piece_text, text_of};
ghost use Rattle.ir_printer.specs.Pieces as spec;
ghost use Rattle.ir_printer.specs.Pieces.{global, label, local, name_in, operand_piece, pointer_pieces, space, target, type_text, typed_pieces, width_text};

use ir_naming::push_name;
use ir_tree::{IrType, Name, Names, Operand, TypedOperand};
use itoa::Buffer;
use support::NoMemory;
use tv_num::Width;

/// A token after these blanks.
pub fn push_token(out: &mut Vec<u8>, gap: &[u8], text: &[u8]) -> Result<(), NoMemory>
    ensures { OnOk result (out.new.items ≡ out.old.items ++ (gap.now ++ text.now)) }
{
    out.extend_from_slice(gap)?;
    out.extend_from_slice(text)?;
    Ok(())
}

/// A word after a space.
pub fn push_word(out: &mut Vec<u8>, text: &[u8]) -> Result<(), NoMemory>
    ensures { OnOk result (out.new.items ≡ out.old.items ++ (space ++ text.now)) }
{
    push_token(out, b" ", text)
}

/// A number in decimal digits.
pub fn push_digits(out: &mut Vec<u8>, n: u64) -> Result<(), NoMemory>
    ensures { OnOk result (out.new.items ≡ out.old.items ++ decimal n) }
{
    let mut digits = Buffer::new();
    out.extend_from_slice(digits.format(n).as_bytes())?;
    Ok(())
}

/// A number after a space.
pub fn push_number(out: &mut Vec<u8>, n: u64) -> Result<(), NoMemory>
    ensures { OnOk result (out.new.items ≡ out.old.items ++ (space ++ decimal n)) }
{
    out.extend_from_slice(b" ")?;
    push_digits(out, n)
}

/// A comma, with no space before it.
pub fn push_comma(out: &mut Vec<u8>) -> Result<(), NoMemory>
    ensures { OnOk result (out.new.items ≡ out.old.items ++ piece_text spec.comma) }
{
    out.extend_from_slice(b",")?;
    Ok(())
}

// ---- names

/// The name of a number in the table; the empty name where the table has none.
fn push_name_of(out: &mut Vec<u8>, names: &Names, n: usize) -> Result<(), NoMemory>
    ensures { OnOk result (out.new.items ≡ out.old.items ++ name_text (name_in names.now n)) }
{
    match names.get(n) {
        Some(name) => push_name(out, name),
        None => {
            out.extend_from_slice(b"\"\"")?;
            Ok(())
        }
    }
}

/// A local name after these blanks.
pub fn push_local_at(out: &mut Vec<u8>, gap: &[u8], names: &Names, n: usize) -> Result<(), NoMemory>
    ensures { OnOk result (out.new.items ≡ out.old.items ++ piece_text (local gap.now (name_in names.now n))) }
{
    out.extend_from_slice(gap)?;
    out.extend_from_slice(b"%")?;
    push_name_of(out, names, n)
}

/// A local name after a space.
pub fn push_local(out: &mut Vec<u8>, names: &Names, n: usize) -> Result<(), NoMemory>
    ensures { OnOk result (out.new.items ≡ out.old.items ++ piece_text (local space (name_in names.now n))) }
{
    push_local_at(out, b" ", names, n)
}

/// A function's name after a space.
pub fn push_global(out: &mut Vec<u8>, name: &Name) -> Result<(), NoMemory>
    ensures { OnOk result (out.new.items ≡ out.old.items ++ piece_text (global space name.now)) }
{
    out.extend_from_slice(b" @")?;
    push_name(out, name)
}

/// A block's label on a line of its own.
pub fn push_label(out: &mut Vec<u8>, names: &Names, n: usize) -> Result<(), NoMemory>
    ensures { OnOk result (out.new.items ≡ out.old.items ++ piece_text (label (name_in names.now n))) }
{
    out.extend_from_slice(b"\n")?;
    push_name_of(out, names, n)?;
    out.extend_from_slice(b":")?;
    Ok(())
}

/// A block where it is jumped to.
pub fn push_target(out: &mut Vec<u8>, names: &Names, n: usize) -> Result<(), NoMemory>
    ensures { OnOk result (out.new.items ≡ out.old.items ++ text_of (target names.now n)) }
{
    push_word(out, b"label")?;
    push_local(out, names, n)
}

// ---- types

/// An integer type after a space.
pub fn push_width(out: &mut Vec<u8>, width: Width) -> Result<(), NoMemory>
    ensures { OnOk result (out.new.items ≡ out.old.items ++ (space ++ width_text width)) }
{
    out.extend_from_slice(b" i")?;
    push_digits(out, width.bits() as u64)
}

/// A type without blanks before it.
pub fn push_type(out: &mut Vec<u8>, of_type: IrType) -> Result<(), NoMemory>
    ensures { OnOk result (out.new.items ≡ out.old.items ++ type_text of_type) }
{
    match of_type {
        IrType::Int(width) => {
            out.extend_from_slice(b"i")?;
            push_digits(out, width.bits() as u64)?;
        }
        IrType::Ptr => out.extend_from_slice(b"ptr")?,
    }
    Ok(())
}

/// A type after a space.
pub fn push_spaced_type(out: &mut Vec<u8>, of_type: IrType) -> Result<(), NoMemory>
    ensures { OnOk result (out.new.items ≡ out.old.items ++ (space ++ type_text of_type)) }
{
    out.extend_from_slice(b" ")?;
    push_type(out, of_type)
}

// ---- operands

/// An operand after a space.
pub fn push_operand(out: &mut Vec<u8>, names: &Names, operand: Operand) -> Result<(), NoMemory>
    ensures { OnOk result (out.new.items ≡ out.old.items ++ piece_text (operand_piece names.now operand)) }
{
    match operand {
        Operand::Local(n) => push_local(out, names, n),
        Operand::Number(n) => push_number(out, n),
        Operand::Null => push_word(out, b"null"),
        Operand::Poison => push_word(out, b"poison"),
        Operand::Undef => push_word(out, b"undef"),
    }
}

/// A type and an operand of it.
pub fn push_typed(out: &mut Vec<u8>, names: &Names, typed: TypedOperand) -> Result<(), NoMemory>
    ensures { OnOk result (out.new.items ≡ out.old.items ++ text_of (typed_pieces names.now typed)) }
{
    push_spaced_type(out, typed.of_type)?;
    push_operand(out, names, typed.operand)
}

/// `ptr` and an operand.
pub fn push_pointer(out: &mut Vec<u8>, names: &Names, pointer: Operand) -> Result<(), NoMemory>
    ensures { OnOk result (out.new.items ≡ out.old.items ++ text_of (pointer_pieces names.now pointer)) }
{
    push_word(out, b"ptr")?;
    push_operand(out, names, pointer)
}

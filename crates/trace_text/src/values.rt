//! Values of types.

ghost use Rattle.std.specs.Prelude.{◌≡◌, ◌++◌, false, codes, OnOk};
ghost use Rattle.std.specs.Fmt.{digits};
ghost use Rattle.trace_text.specs.TraceText.{negative_text, wide_text, number_text, turn_text, block_text, pointer_text, value_text, result_text};

use byte_block::{BlockName, Ptr, Value};
use ir_printer::push_digits;
use ir_tree::IrType;
use std::alloc::Global;
use support::NoMemory;
use tv_num::Width;

/// What a number of the width is in two's complement, where that is negative.
fn push_negative(out: &mut Vec<u8>, width: Width, n: u64) -> Result<(), NoMemory>
    ensures { OnOk result (out.new.items ≡ out.old.items ++ negative_text width.bits n) }
{
    if width.half() <= n && (n as u128) < width.end() {
        out.extend_from_slice(b"-")?;
        push_digits(out, (width.end() - n as u128) as u64)?;
        out.extend_from_slice(b", ")?;
    }
    Ok(())
}

fn push_hex(alloc: Global, out: &mut Vec<u8>, n: u64) -> Result<(), NoMemory>
    ensures { OnOk result (out.new.items ≡ out.old.items ++ (codes "0x" ++ digits 16 false n)) }
{
    let text = format!(in alloc; "0x{n:x}")?;
    out.extend_from_slice(text.as_bytes())?;
    Ok(())
}

fn push_wide(alloc: Global, out: &mut Vec<u8>, width: Width, n: u64) -> Result<(), NoMemory>
    ensures { OnOk result (out.new.items ≡ out.old.items ++ wide_text width.bits n) }
{
    push_digits(out, n)?;
    out.extend_from_slice(b" (")?;
    push_negative(out, width, n)?;
    push_hex(alloc, out, n)?;
    out.extend_from_slice(b")")?;
    Ok(())
}

fn push_number(alloc: Global, out: &mut Vec<u8>, of_type: IrType, n: u64) -> Result<(), NoMemory>
    ensures { OnOk result (out.new.items ≡ out.old.items ++ number_text of_type n) }
{
    match of_type {
        IrType::Int(width) if width.bits() == 1 => push_digits(out, n),
        IrType::Int(width) => push_wide(alloc, out, width, n),
        IrType::Ptr => push_digits(out, n),
    }
}

fn push_turn(out: &mut Vec<u8>, turn: u64) -> Result<(), NoMemory>
    ensures { OnOk result (out.new.items ≡ out.old.items ++ turn_text turn) }
{
    if turn != 0 {
        out.extend_from_slice(b".turn")?;
        push_digits(out, turn)?;
    }
    Ok(())
}

/// The name of a block.
pub fn push_block(out: &mut Vec<u8>, block: BlockName) -> Result<(), NoMemory>
    ensures { OnOk result (out.new.items ≡ out.old.items ++ block_text block) }
{
    match block {
        BlockName::Null => {
            out.extend_from_slice(b"null")?;
            Ok(())
        }
        BlockName::Given(number) => {
            out.extend_from_slice(b"given")?;
            push_digits(out, number)
        }
        BlockName::Local(turn, number) => {
            out.extend_from_slice(b"local")?;
            push_digits(out, number)?;
            push_turn(out, turn)
        }
    }
}

/// A pointer: its block and its offset.
pub fn push_pointer(out: &mut Vec<u8>, pointer: Ptr) -> Result<(), NoMemory>
    ensures { OnOk result (out.new.items ≡ out.old.items ++ pointer_text pointer) }
{
    push_block(out, pointer.block)?;
    out.extend_from_slice(b"+")?;
    push_digits(out, pointer.offset)
}

/// A value of a type.
pub fn push_value(
    alloc: Global,
    out: &mut Vec<u8>,
    of_type: IrType,
    value: Value,
) -> Result<(), NoMemory>
    ensures { OnOk result (out.new.items ≡ out.old.items ++ value_text of_type value) }
{
    match value {
        Value::Num(n) => push_number(alloc, out, of_type, n),
        Value::Poison => {
            out.extend_from_slice(b"poison")?;
            Ok(())
        }
        Value::Ptr(pointer) => push_pointer(out, pointer),
    }
}

/// A value of a type, where there is one.
pub fn push_result(
    alloc: Global,
    out: &mut Vec<u8>,
    of_type: IrType,
    given: Option<Value>,
) -> Result<(), NoMemory>
    ensures { OnOk result (out.new.items ≡ out.old.items ++ result_text of_type given) }
{
    match given {
        Some(value) => push_value(alloc, out, of_type, value),
        None => Ok(()),
    }
}

ghost use Rattle.std.specs.Prelude.{◌≡◌, ◌++◌, ◌<◌, nat_lt, if◌then◌else◌, [], take, OnOk};
ghost use Rattle.std.specs.Fmt.{decimal};
ghost use Rattle.std.specs.List.{flat_map};
ghost use Rattle.report.specs.Text.{given_text, pointer_text, value_text, bits_text, byte_text, spaced_byte, bytes_line, block_line, block_lines, newline};

use byte_block::{BlockName, Byte, MemoryBlock, Ptr, Value};
use ir_naming::push_hex_byte;
use std::alloc::Global;
use support::NoMemory;

pub(crate) fn push_number(alloc: Global, out: &mut Vec<u8>, n: u64) -> Result<(), NoMemory>
    ensures { OnOk result (out.new.items ≡ out.old.items ++ decimal n) }
{
    let digits = n.to_string(alloc)?;
    out.extend_from_slice(digits.as_bytes())?;
    Ok(())
}

fn push_pointer(alloc: Global, out: &mut Vec<u8>, pointer: Ptr) -> Result<(), NoMemory>
    ensures { OnOk result (out.new.items ≡ out.old.items ++ pointer_text pointer) }
{
    match pointer.block {
        BlockName::Null => {
            out.extend_from_slice(b"null+")?;
            push_number(alloc, out, pointer.offset)
        }
        BlockName::Given(number) => push_given(alloc, out, number, pointer.offset),
        BlockName::Local(_, _) => {
            out.extend_from_slice(b"dead")?;
            Ok(())
        }
    }
}

fn push_given(alloc: Global, out: &mut Vec<u8>, number: u64, offset: u64) -> Result<(), NoMemory>
    ensures { OnOk result (out.new.items ≡ out.old.items ++ given_text number offset) }
{
    out.extend_from_slice(b"given")?;
    push_number(alloc, out, number)?;
    out.extend_from_slice(b"+")?;
    push_number(alloc, out, offset)
}

pub(crate) fn push_value(alloc: Global, out: &mut Vec<u8>, value: Value) -> Result<(), NoMemory>
    ensures { OnOk result (out.new.items ≡ out.old.items ++ value_text value) }
{
    match value {
        Value::Num(n) => push_number(alloc, out, n),
        Value::Poison => {
            out.extend_from_slice(b"poison")?;
            Ok(())
        }
        Value::Ptr(pointer) => push_pointer(alloc, out, pointer),
    }
}

fn push_bits(out: &mut Vec<u8>, number: u8, mask: u8) -> Result<(), NoMemory>
    ensures { OnOk result (out.new.items ≡ out.old.items ++ bits_text number mask) }
{
    if mask == 0 {
        return push_hex_byte(out, number, b'a');
    }
    if mask == u8::MAX {
        out.extend_from_slice(b"--")?;
        return Ok(());
    }
    push_hex_byte(out, number, b'a')?;
    out.extend_from_slice(b"~")?;
    push_hex_byte(out, mask, b'a')
}

fn push_byte(alloc: Global, out: &mut Vec<u8>, byte: Byte) -> Result<(), NoMemory>
    ensures { OnOk result (out.new.items ≡ out.old.items ++ byte_text byte) }
{
    match byte {
        Byte::Bits { number, mask } => push_bits(out, number, mask),
        Byte::Part(pointer, place) => push_part(alloc, out, pointer, place),
    }
}

fn push_part(alloc: Global, out: &mut Vec<u8>, pointer: Ptr, place: u8) -> Result<(), NoMemory>
    ensures { OnOk result (out.new.items ≡ out.old.items ++ byte_text (Byte.Part pointer place)) }
{
    push_pointer(alloc, out, pointer)?;
    out.extend_from_slice(b"/")?;
    push_number(alloc, out, u64::from(place))
}

fn push_bytes(alloc: Global, out: &mut Vec<u8>, bytes: &[Byte]) -> Result<(), NoMemory>
    ensures { OnOk result (out.new.items ≡ out.old.items ++ flat_map spaced_byte bytes.now) }
{
    for byte in bytes {
        push_spaced_byte(alloc, out, *byte)?;
    }
    Ok(())
}

fn push_spaced_byte(alloc: Global, out: &mut Vec<u8>, byte: Byte) -> Result<(), NoMemory>
    ensures { OnOk result (out.new.items ≡ out.old.items ++ spaced_byte byte) }
{
    out.extend_from_slice(b" ")?;
    push_byte(alloc, out, byte)
}

fn push_bytes_line(
    alloc: Global,
    out: &mut Vec<u8>,
    label: &[u8],
    number: u64,
    bytes: &[Byte],
) -> Result<(), NoMemory>
    ensures { OnOk result (out.new.items ≡ out.old.items ++ bytes_line label.now number bytes.now) }
{
    out.extend_from_slice(label)?;
    push_number(alloc, out, number)?;
    out.extend_from_slice(b" =")?;
    push_bytes(alloc, out, bytes)?;
    out.extend_from_slice(b"\n")?;
    Ok(())
}

fn bytes_of(block: &MemoryBlock) -> &[Byte]
    ensures { result.now ≡ take block.now.size block.now.places }
{
    let places = block.places.as_slice();
    let count = places.len().min(block.size as usize);
    &places[..count]
}

fn push_block(
    alloc: Global,
    out: &mut Vec<u8>,
    label: &[u8],
    block: &MemoryBlock,
) -> Result<(), NoMemory>
    ensures { OnOk result (out.new.items ≡ out.old.items ++ block_line label.now block.now) }
{
    match block.name {
        BlockName::Given(number) if block.size > 0 => {
            push_bytes_line(alloc, out, label, number, bytes_of(block))
        }
        BlockName::Null | BlockName::Given(_) | BlockName::Local(_, _) => Ok(()),
    }
}

pub(crate) fn push_blocks(
    alloc: Global,
    out: &mut Vec<u8>,
    label: &[u8],
    blocks: &[MemoryBlock],
) -> Result<(), NoMemory>
    ensures { OnOk result (out.new.items ≡ out.old.items ++ block_lines label.now blocks.now) }
{
    for block in blocks {
        push_block(alloc, out, label, block)?;
    }
    Ok(())
}

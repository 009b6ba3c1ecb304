//! How two outcomes differ.

ghost use Rattle.std.specs.Prelude.{◌≡◌, ◌++◌, OnOk, slice_get};
ghost use Rattle.trace_text.specs.TraceText.{block_named, block_left, difference_text, difference_line};

use crate::values::push_block;
use byte_block::MemoryBlock;
use ir_printer::push_digits;
use pair_trace::Difference;
use points::Outcome;
use support::NoMemory;

fn push_block_at(out: &mut Vec<u8>, blocks: &[MemoryBlock], index: usize) -> Result<(), NoMemory>
    ensures { OnOk result (out.new.items ≡ out.old.items ++ block_named index (slice_get blocks.now index)) }
{
    match blocks.get(index) {
        Some(block) => push_block(out, block.name),
        None => {
            out.extend_from_slice(b"block ")?;
            push_digits(out, index as u64)
        }
    }
}

/// The block at an index of the memory that a run leaves.
fn push_block_left(out: &mut Vec<u8>, left: &Outcome, index: usize) -> Result<(), NoMemory>
    ensures { OnOk result (out.new.items ≡ out.old.items ++ block_left left.now index) }
{
    match left {
        Outcome::Return(_, memory) => push_block_at(out, memory.as_slice(), index),
        Outcome::Ub | Outcome::Beyond => push_block_at(out, &[], index),
    }
}

fn push_byte(out: &mut Vec<u8>, source: &Outcome, index: usize, byte: usize) -> Result<(), NoMemory>
    ensures { OnOk result (out.new.items ≡ out.old.items ++ difference_text source.now (Difference.Byte index byte)) }
{
    out.extend_from_slice(b"byte ")?;
    push_digits(out, byte as u64)?;
    out.extend_from_slice(b" of ")?;
    push_block_left(out, source, index)
}

fn push_words(out: &mut Vec<u8>, source: &Outcome, difference: Difference) -> Result<(), NoMemory>
    ensures { OnOk result (out.new.items ≡ out.old.items ++ difference_text source.now difference) }
{
    match difference {
        Difference::Undefined => {
            out.extend_from_slice(b"the target is undefined behaviour, and the source returns")?;
        }
        Difference::MorePoisonous => {
            out.extend_from_slice(b"the target returns poison, and the source another value")?;
        }
        Difference::Value => out.extend_from_slice(b"they return different values")?,
        Difference::Blocks => out.extend_from_slice(b"they leave different numbers of blocks")?,
        Difference::Block { index } => {
            push_block_left(out, source, index)?;
            out.extend_from_slice(b" has another size")?;
        }
        Difference::Byte { index, byte } => push_byte(out, source, index, byte)?,
    }
    Ok(())
}

/// The line of a difference; the source's outcome names its blocks.
pub fn push_difference(
    out: &mut Vec<u8>,
    source: &Outcome,
    difference: Difference,
) -> Result<(), NoMemory>
    ensures { OnOk result (out.new.items ≡ out.old.items ++ difference_line source.now difference) }
{
    out.extend_from_slice(b"difference: ")?;
    push_words(out, source, difference)?;
    out.extend_from_slice(b"\n")?;
    Ok(())
}

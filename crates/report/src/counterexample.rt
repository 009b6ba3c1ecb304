ghost use Rattle.std.specs.Prelude.{◌≡◌, ◌++◌, take, OnOk};
ghost use Rattle.report.specs.Text.{value_text, arg_lines, choice_lines, returned_text, returned_lines, outcome_lines, point_lines, shown_lines, sentence};

use crate::value_text::{push_blocks, push_number, push_value};
use byte_block::{MemoryBlock, Value};
use points::{Outcome, Point};
use std::alloc::Global;
use support::NoMemory;
use verdicts::Shown;

/// The point, what the source does there, and what the target does.
pub(crate) fn push_shown(
    alloc: Global,
    out: &mut Vec<u8>,
    point: &Point,
    shown: &Shown,
) -> Result<(), NoMemory>
    ensures { OnOk result (out.new.items ≡ out.old.items ++ shown_lines point.now shown.now) }
{
    push_point(alloc, out, point, shown.read)?;
    push_outcome(alloc, out, b"  source ", &shown.source)?;
    push_outcome(alloc, out, b"  target ", &shown.target)
}

fn push_point(alloc: Global, out: &mut Vec<u8>, point: &Point, read: u64) -> Result<(), NoMemory>
    ensures { OnOk result (out.new.items ≡ out.old.items ++ point_lines point.now read) }
{
    push_args(alloc, out, point.input.args.as_slice())?;
    push_blocks(alloc, out, b"  block ", point.input.blocks.as_slice())?;
    push_choices(alloc, out, words_read(point.tape.as_slice(), read))
}

fn words_read(tape: &[u64], read: u64) -> &[u64]
    ensures { result.now ≡ take read tape.now }
{
    let count = tape.len().min(read as usize);
    &tape[..count]
}

fn push_args(alloc: Global, out: &mut Vec<u8>, args: &[Value]) -> Result<(), NoMemory>
    ensures { OnOk result (out.new.items ≡ out.old.items ++ arg_lines 0 args.now) }
{
    for (place, arg) in args.iter().enumerate() {
        out.extend_from_slice(b"  arg ")?;
        push_number(alloc, out, place as u64)?;
        out.extend_from_slice(b" = ")?;
        push_value(alloc, out, *arg)?;
        out.extend_from_slice(b"\n")?;
    }
    Ok(())
}

fn push_choices(alloc: Global, out: &mut Vec<u8>, words: &[u64]) -> Result<(), NoMemory>
    ensures { OnOk result (out.new.items ≡ out.old.items ++ choice_lines 0 words.now) }
{
    for (place, word) in words.iter().enumerate() {
        out.extend_from_slice(b"  choice ")?;
        push_number(alloc, out, place as u64)?;
        out.extend_from_slice(b" = ")?;
        push_number(alloc, out, *word)?;
        out.extend_from_slice(b"\n")?;
    }
    Ok(())
}

fn push_outcome(
    alloc: Global,
    out: &mut Vec<u8>,
    label: &[u8],
    outcome: &Outcome,
) -> Result<(), NoMemory>
    ensures { OnOk result (out.new.items ≡ out.old.items ++ outcome_lines label.now outcome.now) }
{
    match outcome {
        Outcome::Return(value, blocks) => {
            push_returned(alloc, out, label, *value, blocks.as_slice())
        }
        Outcome::Ub => push_sentence(out, label, b"ub"),
        Outcome::Beyond => push_sentence(out, label, b"beyond"),
    }
}

fn push_sentence(out: &mut Vec<u8>, label: &[u8], words: &[u8]) -> Result<(), NoMemory>
    ensures { OnOk result (out.new.items ≡ out.old.items ++ sentence label.now words.now) }
{
    out.extend_from_slice(label)?;
    out.extend_from_slice(words)?;
    out.extend_from_slice(b"\n")?;
    Ok(())
}

fn push_returned_line(
    alloc: Global,
    out: &mut Vec<u8>,
    label: &[u8],
    value: Option<Value>,
) -> Result<(), NoMemory>
    ensures { OnOk result (out.new.items ≡ out.old.items ++ sentence label.now (returned_text value)) }
{
    let Some(value) = value else {
        return push_sentence(out, label, b"returns void");
    };
    out.extend_from_slice(label)?;
    out.extend_from_slice(b"returns ")?;
    push_value(alloc, out, value)?;
    out.extend_from_slice(b"\n")?;
    Ok(())
}

fn push_returned(
    alloc: Global,
    out: &mut Vec<u8>,
    label: &[u8],
    value: Option<Value>,
    blocks: &[MemoryBlock],
) -> Result<(), NoMemory>
    ensures { OnOk result (out.new.items ≡ out.old.items ++ returned_lines label.now value blocks.now) }
{
    let mut block_label = Vec::from_slice(alloc, label)?;
    block_label.extend_from_slice(b"block ")?;
    push_returned_line(alloc, out, label, value)?;
    push_blocks(alloc, out, block_label.as_slice(), blocks)
}

//! What is noted after a step.

ghost use Rattle.std.specs.Prelude.{◌≡◌, ◌++◌, codes, OnOk};
ghost use Rattle.std.specs.Fmt.{decimal};
ghost use Rattle.trace_text.specs.TraceText.{operand_note, operand_notes, bytes_text, location_note, choice_notes, reason_note, because, result_notes, note, notes};

use crate::reasons::reason_words;
use crate::values::{push_pointer, push_value};
use byte_block::Value;
use ir_printer::{push_digits, push_local_at};
use ir_tree::{IrType, Names, Operand, TypedOperand};
use run_trace::{Location, Reason, Step};
use std::alloc::Global;
use support::NoMemory;

/// A name that was read, and its value.
fn push_operand(
    alloc: Global,
    out: &mut Vec<u8>,
    names: &Names,
    typed: TypedOperand,
    value: Value,
) -> Result<(), NoMemory>
    ensures { OnOk result (out.new.items ≡ out.old.items ++ operand_note names.now typed.of_type typed.operand value) }
{
    match typed.operand {
        Operand::Local(n) => {
            push_local_at(out, b" ; ", names, n)?;
            out.extend_from_slice(b" = ")?;
            push_value(alloc, out, typed.of_type, value)
        }
        Operand::Number(_) | Operand::Null | Operand::Poison | Operand::Undef => Ok(()),
    }
}

/// Each name among the operands.
fn push_operands(
    alloc: Global,
    out: &mut Vec<u8>,
    names: &Names,
    operands: &[TypedOperand],
    values: &[Value],
) -> Result<(), NoMemory>
    ensures { OnOk result (out.new.items ≡ out.old.items ++ operand_notes names.now operands.now values.now) }
{
    let mut operands = operands;
    let mut values = values;
    'operands: while let [operand, more_operands @ ..] = operands {
        let [value, more_values @ ..] = values else {
            return Ok(());
        };
        push_operand(alloc, out, names, *operand, *value)?;
        operands = more_operands;
        values = more_values;
    }
    Ok(())
}

fn push_bytes(out: &mut Vec<u8>, bytes: u64) -> Result<(), NoMemory>
    ensures { OnOk result (out.new.items ≡ out.old.items ++ bytes_text bytes) }
{
    push_digits(out, bytes)?;
    if bytes == 1 {
        out.extend_from_slice(b" byte at ")?;
    } else {
        out.extend_from_slice(b" bytes at ")?;
    }
    Ok(())
}

/// Where a load or a store goes.
fn push_location(out: &mut Vec<u8>, location: Option<Location>) -> Result<(), NoMemory>
    ensures { OnOk result (out.new.items ≡ out.old.items ++ location_note location) }
{
    let Some(location) = location else {
        return Ok(());
    };
    out.extend_from_slice(b" ; ")?;
    push_bytes(out, location.bytes)?;
    push_pointer(out, location.pointer)
}

/// The choices that were taken, the first with this index.
fn push_choices(out: &mut Vec<u8>, first: u64, words: &[u64]) -> Result<(), NoMemory>
    ensures { OnOk result (out.new.items ≡ out.old.items ++ choice_notes first words.now) }
{
    let mut index = first;
    for word in words {
        push_choice(out, index, *word)?;
        index = index.saturating_add(1);
    }
    Ok(())
}

fn push_choice(out: &mut Vec<u8>, index: u64, word: u64) -> Result<(), NoMemory>
    ensures { OnOk result (out.new.items ≡ out.old.items ++ note (codes "choice " ++ decimal index ++ codes " = " ++ decimal word)) }
{
    out.extend_from_slice(b" ; choice ")?;
    push_digits(out, index)?;
    out.extend_from_slice(b" = ")?;
    push_digits(out, word)
}

/// What was read, accessed and chosen.
pub fn push_notes(
    alloc: Global,
    out: &mut Vec<u8>,
    names: &Names,
    operands: &[TypedOperand],
    first: u64,
    step: &Step,
) -> Result<(), NoMemory>
    ensures { OnOk result (out.new.items ≡ out.old.items ++ notes names.now operands.now first step.now) }
{
    push_operands(alloc, out, names, operands, step.operands.as_slice())?;
    push_location(out, step.location)?;
    push_choices(out, first, step.taken.as_slice())
}

/// The reason, where there is one.
pub fn push_reason(out: &mut Vec<u8>, reason: Option<Reason>) -> Result<(), NoMemory>
    ensures { OnOk result (out.new.items ≡ out.old.items ++ reason_note reason) }
{
    if let Some(reason) = reason {
        out.extend_from_slice(b" ; ")?;
        out.extend_from_slice(reason_words(reason))?;
    }
    Ok(())
}

fn push_because(out: &mut Vec<u8>, reason: Option<Reason>) -> Result<(), NoMemory>
    ensures { OnOk result (out.new.items ≡ out.old.items ++ because reason) }
{
    if let Some(reason) = reason {
        out.extend_from_slice(b": ")?;
        out.extend_from_slice(reason_words(reason))?;
    }
    Ok(())
}

/// The result, where there is one, and the reason.
pub fn push_result_notes(
    alloc: Global,
    out: &mut Vec<u8>,
    of_type: Option<IrType>,
    step: &Step,
) -> Result<(), NoMemory>
    ensures { OnOk result (out.new.items ≡ out.old.items ++ result_notes of_type step.now.result step.now.reason) }
{
    let Some(of_type) = of_type else {
        return push_reason(out, step.reason);
    };
    let Some(value) = step.result else {
        return push_reason(out, step.reason);
    };
    out.extend_from_slice(b" ; gives ")?;
    push_value(alloc, out, of_type, value)?;
    push_because(out, step.reason)
}

//! Choices from the tape (LLVM Language Reference, "freeze Instruction", "Undefined Values").

ghost use Rattle.std.specs.Prelude.{◌≡◌, ◌+◌, ◌%◌, IfOk, OnOk, length, slice_index};
ghost use Rattle.std.specs.List.{list_any};
ghost use Rattle.memory_access.specs.Blocks.{names};
ghost use Rattle.points.specs.Run.{next_word, block_number, given_or_null, choice_of, with_taken, frozen};
ghost use Rattle.byte_block.specs.declared.value.BlockName.TheVariants.{Given};

use crate::assigning::assign;
use crate::table::low_bits;
use byte_block::{BlockName, MemoryBlock, Ptr, Value};
use ir_tree::IrType;
use points::Machine;
use support::NoMemory;

/// A word of the tape; past its end it is 0.
fn word_at(tape: &[u64], i: usize) -> u64
    ensures { result ≡ slice_index tape.now i }
{
    tape.get(i).copied().unwrap_or(0)
}

/// The tape's word after the next one.
fn second_word(tape: &[u64], read: usize) -> u64
    ensures { result ≡ slice_index tape.now (read + 1) }
{
    if read < tape.len() {
        word_at(tape, read + 1)
    } else {
        0
    }
}

fn is_given_as(block: &MemoryBlock, n: u64) -> bool
    ensures { result ≡ names (Given n) block.now }
{
    match block.name {
        BlockName::Null | BlockName::Local(..) => false,
        BlockName::Given(number) => n == number,
    }
}

fn has_given(memory: &[MemoryBlock], n: u64) -> bool
    ensures { result ≡ list_any (names (Given n)) memory.now }
{
    for block in memory {
        if is_given_as(block, n) {
            return true;
        }
    }
    false
}

/// The given block with this number from 1 on; null where the memory has none.
fn given_or_null(memory: &[MemoryBlock], n: u64) -> BlockName
    ensures { result ≡ given_or_null memory.now n }
{
    if 0 < n && has_given(memory, n) {
        BlockName::Given(n)
    } else {
        BlockName::Null
    }
}

fn block_number(name: BlockName) -> u64
    ensures { result ≡ block_number name }
{
    match name {
        BlockName::Null | BlockName::Local(..) => 0,
        BlockName::Given(n) => n,
    }
}

/// Takes two words for a pointer: the low 16 bits of the first are a given block's number, and the
/// second is the offset.
fn choose_pointer(machine: &mut Machine, tape: &[u64]) -> Result<Value, NoMemory>
    ensures value { IfOk result (λ value. value ≡ (choice_of IrType.Ptr tape.now machine.old).value) }
    ensures taken { OnOk result (machine.new ≡ with_taken machine.old (choice_of IrType.Ptr tape.now machine.old)) }
    ensures registers { machine.new.registers ≡ machine.old.registers }
    ensures memory { machine.new.memory ≡ machine.old.memory }
    ensures turn { machine.new.turn ≡ machine.old.turn }
{
    let read = machine.taken.len();
    let block = given_or_null(machine.memory.as_slice(), word_at(tape, read) % 65536);
    let offset = second_word(tape, read);
    machine.taken.push(block_number(block))?;
    machine.taken.push(offset)?;
    Ok(Value::Ptr(Ptr { block, offset }))
}

/// Takes the tape's next words for a value of the type: an integer is one, cut to the width.
pub fn choose(machine: &mut Machine, of_type: IrType, tape: &[u64]) -> Result<Value, NoMemory>
    ensures value { IfOk result (λ value. value ≡ (choice_of of_type tape.now machine.old).value) }
    ensures taken { OnOk result (machine.new ≡ with_taken machine.old (choice_of of_type tape.now machine.old)) }
    ensures registers { machine.new.registers ≡ machine.old.registers }
    ensures memory { machine.new.memory ≡ machine.old.memory }
    ensures turn { machine.new.turn ≡ machine.old.turn }
{
    match of_type {
        IrType::Int(width) => {
            let choice = low_bits(word_at(tape, machine.taken.len()), width);
            machine.taken.push(choice)?;
            Ok(Value::Num(choice))
        }
        IrType::Ptr => {
            let value = choose_pointer(machine, tape)?;
            Ok(value)
        }
    }
}

/// Gives a name the frozen value: poison becomes a choice.
pub fn freeze(
    machine: &mut Machine,
    into: usize,
    of_type: IrType,
    value: Value,
    tape: &[u64],
) -> Result<(), NoMemory>
    ensures value { OnOk result (machine.new ≡ frozen tape.now machine.old into of_type value) }
    ensures registers { length machine.new.registers ≡ length machine.old.registers }
    ensures memory { machine.new.memory ≡ machine.old.memory }
    ensures turn { machine.new.turn ≡ machine.old.turn }
{
    match value {
        Value::Poison => {
            let choice = choose(machine, of_type, tape)?;
            assign(machine, into, choice);
        }
        Value::Num(_) | Value::Ptr(_) => assign(machine, into, value),
    }
    Ok(())
}

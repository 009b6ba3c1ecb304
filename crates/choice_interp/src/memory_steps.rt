//! The instructions on memory (LLVM Language Reference, "Memory Access and Addressing Operations").

ghost use Rattle.std.specs.Prelude.{◌≡◌, ◌<◌, ◌≤◌, OnOk, IsFalse, Some, None, if◌then◌else◌, All, length};
ghost use Rattle.ir_tree.specs.Limits.{HasSmallArrays};
ghost use Rattle.ir_tree.specs.Types.{object_size};
ghost use Rattle.memory_access.specs.Accesses.{load_result, store_result, after_store};
ghost use Rattle.memory_access.specs.Offsets.{IndexFits};
ghost use Rattle.points.specs.Run.{operand_value, typed_operand_value, access_of, allocated, loaded, stored, index_value, index_values};

use crate::assigning::assign;
use crate::reading::{cut, typed_value_of, value_of};
use byte_block::{BlockName, Ptr, Value};
use ir_tree::{GepIndex, IrType, MemoryType, Operand, TypedOperand, indexed_size};
use memory_access::{Access, Index, Loaded, Stored, alloca, load, store};
use points::Machine;
use std::alloc::Global;
use support::{NoMemory, Sequence};

/// What a load reads, or a store writes, of a type.
pub fn access_of(of_type: IrType) -> Access
    ensures { result ≡ access_of of_type }
{
    match of_type {
        IrType::Int(width) => Access::Int(width),
        IrType::Ptr => Access::Pointer,
    }
}

/// "alloca Instruction". The block is named by the count of backward jumps so far and its number.
pub fn allocate(
    machine: &mut Machine,
    alloc: Global,
    into: usize,
    number: usize,
    of_type: &MemoryType,
    align: u64,
) -> Result<(), NoMemory>
    requires { object_size of_type.now ≤ 64 }
    ensures value { OnOk result (machine.new ≡ allocated machine.old into number of_type.now align) }
    ensures registers { length machine.new.registers ≡ length machine.old.registers }
    ensures turn { machine.new.turn ≡ machine.old.turn }
{
    let block = BlockName::Local(machine.turn, number as u64);
    let size = indexed_size(of_type, 0);
    alloca(alloc, &mut machine.memory, block, size, align)?;
    assign(machine, into, Value::Ptr(Ptr { block, offset: 0 }));
    Ok(())
}

/// "load Instruction". False is undefined behaviour, and the machine is then as before.
pub fn load_into(
    machine: &mut Machine,
    into: usize,
    of_type: IrType,
    pointer: Operand,
    align: u64,
) -> bool
    requires { 0 < align }
    ensures goes { loaded machine.old into (load_result machine.old.memory (operand_value machine.old.registers pointer) (access_of of_type) align)
        ≡ (if result then Some machine.new else None) }
    ensures stays { IsFalse result → machine.new ≡ machine.old }
    ensures registers { length machine.new.registers ≡ length machine.old.registers }
    ensures memory { machine.new.memory ≡ machine.old.memory }
    ensures turn { machine.new.turn ≡ machine.old.turn }
{
    let at = value_of(machine.registers.as_slice(), pointer);
    match load(&machine.memory, at, access_of(of_type), align) {
        Loaded::Done(value) => {
            assign(machine, into, value);
            true
        }
        Loaded::Ub => false,
    }
}

/// "store Instruction". False is undefined behaviour, and the machine is then as before.
pub fn store_at(machine: &mut Machine, value: TypedOperand, pointer: Operand, align: u64) -> bool
    requires { 0 < align }
    ensures goes { let at = operand_value machine.old.registers pointer in
        stored machine.old (after_store machine.old.memory (typed_operand_value machine.old.registers value) (access_of value.of_type) at align)
        (store_result machine.old.memory (access_of value.of_type) at align)
        ≡ (if result then Some machine.new else None) }
    ensures stays { IsFalse result → machine.new ≡ machine.old }
    ensures registers { machine.new.registers ≡ machine.old.registers }
    ensures turn { machine.new.turn ≡ machine.old.turn }
{
    let at = value_of(machine.registers.as_slice(), pointer);
    let written = typed_value_of(machine.registers.as_slice(), value);
    match store(
        &mut machine.memory,
        written,
        access_of(value.of_type),
        at,
        align,
    ) {
        Stored::Done => true,
        Stored::Ub => false,
    }
}

/// The index of a `getelementptr` with this number.
fn index_value(registers: &[Value], of_type: &MemoryType, n: usize, index: GepIndex) -> Index
    requires { HasSmallArrays of_type.now.lengths of_type.now.element }
    ensures value { result ≡ index_value registers.now of_type.now n index }
    ensures fits { IndexFits result }
{
    Index {
        value: cut(value_of(registers, index.operand), index.width),
        width: index.width,
        scale: indexed_size(of_type, n),
    }
}

/// What the indices of a `getelementptr` read. `values` is room for them; it grows where it is too
/// small.
pub fn take_index_values(
    values: &mut Sequence<Index>,
    registers: &[Value],
    of_type: &MemoryType,
    indices: &[GepIndex],
) -> Result<(), NoMemory>
    requires { HasSmallArrays of_type.now.lengths of_type.now.element }
    ensures value { OnOk result (values.new ≡ index_values registers.now of_type.now 0 indices.now) }
    ensures fits { OnOk result (All IndexFits values.new) }
{
    values.clear();
    for (n, index) in indices.iter().enumerate() {
        values.push(index_value(registers, of_type, n, *index))?;
    }
    Ok(())
}

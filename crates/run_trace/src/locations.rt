//! Where loads and stores go, and why they may not.

ghost use Rattle.std.specs.Prelude.{◌≡◌, ◌≢◌, ◌⊎◌, ◌≤◌, ℕ, false, Some, None, IfSome, IfNone};
ghost use Rattle.memory_access.specs.Blocks.{names, block_named};
ghost use Rattle.memory_access.specs.Bytes.{access_size};
ghost use Rattle.memory_access.specs.Accesses.{admits, is_defined};
ghost use Rattle.run_trace.specs.Operands.{location_at, location_of};
ghost use Rattle.run_trace.specs.Reasons.{IsPastEnd, IsMisaligned, IsAccessCause};

use crate::steps::{Location, Reason};
use byte_block::{BlockName, MemoryBlock, Ptr, Value};
use choice_interp::{access_of, value_of};
use ir_tree::Inst;
use memory_access::{Access, bytes_in, is_equal_name};
use points::Machine;

/// How many bytes an access has.
pub fn access_size(access: Access) -> u64
    ensures value { result ≡ access_size access }
    ensures most { result ≤ 8 }
{
    match access {
        Access::Int(width) => (width.bits() as u64 + 7) / 8,
        Access::Pointer => 8,
    }
}

fn location_at(address: Value, bytes: u64) -> Option<Location>
    ensures { result ≡ location_at address bytes }
{
    match address {
        Value::Ptr(pointer) => Some(Location { pointer, bytes }),
        Value::Num(_) | Value::Poison => None,
    }
}

/// Where a load or a store goes; `None` for any other instruction, and where the address is poison.
pub fn location_of(machine: &Machine, inst: &Inst) -> Option<Location>
    ensures { result ≡ location_of inst.now machine.now }
{
    let registers = machine.registers.as_slice();
    match inst {
        Inst::Load {
            of_type,
            pointer,
            ..
        } => location_at(
            value_of(registers, *pointer),
            access_size(access_of(*of_type)),
        ),
        Inst::Store { value, pointer, .. } => location_at(
            value_of(registers, *pointer),
            access_size(access_of(value.of_type)),
        ),
        Inst::Binary { .. } | Inst::Icmp { .. } | Inst::Cast { .. } | Inst::Select { .. } => None,
        Inst::Freeze { .. } | Inst::Alloca { .. } | Inst::GetElementPtr { .. } => None,
    }
}

fn is_named(block: &MemoryBlock, name: BlockName) -> bool
    ensures { result ≡ names name block.now }
{
    match name {
        BlockName::Null => false,
        BlockName::Given(_) | BlockName::Local(..) => is_equal_name(name, block.name),
    }
}

fn block_named(blocks: &[MemoryBlock], name: BlockName) -> Option<&MemoryBlock>
    ensures found { IfSome result (λ block. block_named blocks.now name ≡ Some block.now) }
    ensures none { IfNone result (block_named blocks.now name ≡ None) }
{
    for block in blocks {
        if is_named(block, name) {
            return Some(block);
        }
    }
    None
}

/// Why a block does not admit an access.
fn block_cause(block: &MemoryBlock, offset: u64, bytes: u64) -> Reason
    requires { bytes ≤ 8 }
    ensures past { result ≡ Reason.PastEnd → IsPastEnd offset bytes block.now }
    ensures aligned { (align : ℕ) → admits (Some block.now) offset bytes align ≡ false → result ≢ Reason.PastEnd → IsMisaligned offset align block.now }
    ensures kinds { (result ≡ Reason.PastEnd) ⊎ (result ≡ Reason.Misaligned) }
{
    if offset as u128 + bytes as u128 > bytes_in(block).len() as u128 {
        Reason::PastEnd
    } else {
        Reason::Misaligned
    }
}

fn pointer_cause(blocks: &[MemoryBlock], pointer: Ptr, bytes: u64) -> Reason
    requires { bytes ≤ 8 }
    ensures { (align : ℕ) → is_defined blocks.now (Value.Ptr pointer) bytes align ≡ false → IsAccessCause result blocks.now (Value.Ptr pointer) bytes align }
{
    if pointer.block == BlockName::Null {
        return Reason::NullAddress;
    }
    match block_named(blocks, pointer.block) {
        Some(block) => block_cause(block, pointer.offset, bytes),
        None => Reason::DeadBlock,
    }
}

/// Why an access of this many bytes at an address is undefined behaviour, where it is.
pub fn access_cause(blocks: &[MemoryBlock], address: Value, bytes: u64) -> Reason
    requires { bytes ≤ 8 }
    ensures { (align : ℕ) → is_defined blocks.now address bytes align ≡ false → IsAccessCause result blocks.now address bytes align }
{
    match address {
        Value::Ptr(pointer) => pointer_cause(blocks, pointer, bytes),
        Value::Num(_) | Value::Poison => Reason::PoisonAddress,
    }
}

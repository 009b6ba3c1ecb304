ghost use Rattle.std.specs.Prelude.{◌≡◌, ◌+◌, ◌<◌, ◌≤◌, length, take, drop, if◌then◌else◌, OnOk, OnErr, ◌++◌, ◌∷◌, []};
ghost use Rattle.memory_access.specs.Blocks.{block_bytes};
ghost use Rattle.memory_access.specs.Bytes.{access_size, value_bytes, value_of_bytes};
ghost use Rattle.memory_access.specs.Accesses.{admits, load_result, store_result, after_store, after_alloca};

use crate::access_types::{Access, Loaded, Stored};
use crate::blocks::{bytes_in, index_named};
use crate::byte_values::{byte_of, size_of, value_of};
use byte_block::{BlockName, Byte, Memory, MemoryBlock, Value};
use std::alloc::Global;
use support::{NoMemory, Sequence};

/// Whether a block admits an access of this many bytes at an offset: the bytes are its own, and it
/// and the offset are aligned.
fn is_admitted(block: &MemoryBlock, offset: u64, size: usize, align: u64) -> bool
    requires { 0 < align }
    ensures { result ≡ admits (Some block.now) offset size align }
{
    let end = offset as u128 + size as u128;
    end <= bytes_in(block).len() as u128 && align <= block.align && offset % align == 0
}

/// What an access of the block gives at an offset.
fn load_in(block: &MemoryBlock, offset: u64, access: Access, align: u64) -> Loaded
    requires { 0 < align }
    ensures { let n = access_size access in result ≡ (if admits (Some block.now) offset n align
        then Loaded.Done (value_of_bytes access (take n (drop offset (block_bytes block.now))))
        else Loaded.Ub) }
{
    let size = size_of(access);
    if !is_admitted(block, offset, size, align) {
        return Loaded::Ub;
    }
    let from = offset as usize;
    Loaded::Done(value_of(access, &bytes_in(block)[from..from + size]))
}

/// What a load gives (LLVM Language Reference, "load Instruction"): undefined behaviour where the
/// address does not point to that many bytes of a block, aligned to `align`; otherwise the value
/// of the bytes. It is poison where not all bytes of an integer are numbers, or the bytes of a
/// pointer are not the parts of one in order.
pub fn load(memory: &Memory, at: Value, access: Access, align: u64) -> Loaded
    requires { 0 < align }
    ensures { result ≡ load_result memory.now at access align }
{
    let Value::Ptr(pointer) = at else {
        return Loaded::Ub;
    };
    match index_named(memory.as_slice(), pointer.block) {
        Some(i) => load_in(memory.get(i), pointer.offset, access, align),
        None => Loaded::Ub,
    }
}

/// Overwrites the bytes from an index on with the bytes of a value.
fn write_value(places: &mut Sequence<Byte>, from: usize, value: Value, access: Access)
    requires { from + access_size access ≤ length places.old }
    ensures { let bytes = value_bytes access value in
        places.new ≡ take from places.old ++ (bytes ++ drop (from + length bytes) places.old) }
{
    let size = size_of(access);
    let room = places.len() - from;
    prove!(size <= room);
    for k in 0..size {
        places.set(from + k, byte_of(value, access, k));
    }
}

/// Stores a value (LLVM Language Reference, "store Instruction"): undefined behaviour where a load
/// would be, and the memory is then as it was; otherwise the bytes at the address are those of the
/// value, and all else is as it was. A value of another kind than the access is stored as poison.
/// It allocates nothing.
pub fn store(memory: &mut Memory, value: Value, access: Access, at: Value, align: u64) -> Stored
    requires { 0 < align }
    ensures outcome { result ≡ store_result memory.old access at align }
    ensures after { memory.new ≡ after_store memory.old value access at align }
{
    let Value::Ptr(pointer) = at else {
        return Stored::Ub;
    };
    let i = match index_named(memory.as_slice(), pointer.block) {
        Some(i) => i,
        None => return Stored::Ub,
    };
    if !is_admitted(memory.get(i), pointer.offset, size_of(access), align) {
        return Stored::Ub;
    }
    let block = memory.get_mut(i);
    write_value(&mut block.places, pointer.offset as usize, value, access);
    Stored::Done
}

/// Makes a block of poison bytes after the others (LLVM Language Reference, "alloca Instruction").
/// `size` and `align` are in bytes. When out of memory, the memory is as it was.
pub fn alloca(
    alloc: Global,
    memory: &mut Memory,
    name: BlockName,
    size: u64,
    align: u64,
) -> Result<(), NoMemory>
    ensures ok { OnOk result (memory.new ≡ after_alloca memory.old name size align) }
    ensures err { OnErr result (memory.new ≡ memory.old) }
{
    let poison = Byte::Bits {
        number: 0,
        mask: u8::MAX,
    };
    let places = Sequence::from_vec(vec![in alloc; poison; size as usize]?);
    memory.push(MemoryBlock {
        name,
        size,
        align,
        places,
    })
}

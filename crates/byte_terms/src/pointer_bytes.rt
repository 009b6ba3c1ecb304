//! Pointers and their parts.

ghost use Rattle.std.specs.Prelude.{◌≡◌, ◌<◌, ◌&&◌, IfOk, cond, length, nat_eq, replicate};
ghost use Rattle.byte_block.specs.declared.value.Byte.TheVariants.{Bits, Part};
ghost use Rattle.memory_access.specs.declared.access_types.Access.TheVariants.{Pointer};
ghost use Rattle.memory_access.specs.Bytes as meant;
ghost use Rattle.bv_terms.specs.Trees.{IsTerm, Keeps, Tests, bit_at, term_at};
ghost use Rattle.mem_terms.specs.Values.{IsNaming, IsSymValue, Reading, value_at};
ghost use Rattle.mem_terms.specs.Memory.{AreSymBytes, IsSymByte, byte_at, places_at};

use crate::byte_fields::has_value;
use bv_terms::{TermId, Terms};
use mem_terms::{SymByte, SymValue, both, equals, negation, truth};
use std::alloc::Global;
use support::{NoMemory, Sequence};
use term_rules::constant;

/// A part of a pointer where the condition is true, else a byte whose bits are all poison.
fn pointer_part(
    terms: &mut Terms,
    is_part: TermId,
    block: TermId,
    offset: TermId,
    place: usize,
) -> Result<SymByte, NoMemory>
    requires is_part { IsTerm terms.old 1 is_part }
    requires block { IsTerm terms.old 64 block }
    requires offset { IsTerm terms.old 64 offset }
    requires place { place < 8 }
    ensures made { IfOk result (IsSymByte terms.new) }
    ensures stands { IfOk result (λ b. (r : Reading)
        → byte_at r terms.new b ≡ cond (bit_at r.v terms.old is_part) (Part (record { block = r.name (term_at r.v terms.old block); offset = term_at r.v terms.old offset }) place) (Bits 0 255)) }
    ensures kept { Keeps terms.old terms.new }
{
    let mask = constant(terms, 255, 8)?;
    let number = constant(terms, 0, 8)?;
    let part = constant(terms, place as u128, 3)?;
    Ok(SymByte {
        is_part,
        mask,
        number,
        block,
        offset,
        part,
    })
}

/// The parts of a pointer where the condition is true, else as many bytes whose bits are all poison.
fn pointer_parts(
    alloc: Global,
    terms: &mut Terms,
    is_part: TermId,
    block: TermId,
    offset: TermId,
) -> Result<Sequence<SymByte>, NoMemory>
    requires is_part { IsTerm terms.old 1 is_part }
    requires block { IsTerm terms.old 64 block }
    requires offset { IsTerm terms.old 64 offset }
    ensures made { IfOk result (AreSymBytes terms.new) }
    ensures stands { IfOk result (λ bytes. (r : Reading)
        → places_at r terms.new bytes ≡ cond (bit_at r.v terms.old is_part) (meant.parts_from (record { block = r.name (term_at r.v terms.old block); offset = term_at r.v terms.old offset }) 0 8) (replicate 8 (Bits 0 255))) }
    ensures kept { Keeps terms.old terms.new }
{
    let mut bytes = Vec::new(alloc);
    for place in 0..8 {
        let byte = pointer_part(terms, is_part, block, offset, place)?;
        bytes.push(byte)?;
    }
    Ok(Sequence::from_vec(bytes))
}

/// The bytes that a value is stored as where a pointer is.
pub fn pointer_bytes(
    alloc: Global,
    terms: &mut Terms,
    value: SymValue,
) -> Result<Sequence<SymByte>, NoMemory>
    requires { IsSymValue terms.old value }
    ensures made { IfOk result (AreSymBytes terms.new) }
    ensures stands { IfOk result (λ bytes. (r : Reading) → places_at r terms.new bytes ≡ meant.value_bytes Pointer (value_at r terms.old value)) }
    ensures kept { Keeps terms.old terms.new }
{
    let is_defined = negation(terms, value.poison)?;
    let is_part = both(terms, is_defined, value.is_pointer)?;
    let bytes = pointer_parts(alloc, terms, is_part, value.block, value.number)?;
    Ok(bytes)
}

/// True where the byte's pointer is this one.
fn is_same_pointer(
    terms: &mut Terms,
    block: TermId,
    offset: TermId,
    byte: SymByte,
) -> Result<TermId, NoMemory>
    requires block { IsTerm terms.old 64 block }
    requires offset { IsTerm terms.old 64 offset }
    requires byte { IsSymByte terms.old byte }
    ensures made { IfOk result (λ id. Tests terms.new id (λ v. nat_eq (term_at v terms.old block) (term_at v terms.old byte.block) && nat_eq (term_at v terms.old offset) (term_at v terms.old byte.offset))) }
    ensures kept { Keeps terms.old terms.new }
{
    let same_block = equals(terms, block, byte.block)?;
    let same_offset = equals(terms, offset, byte.offset)?;
    let is_same = both(terms, same_block, same_offset)?;
    Ok(is_same)
}

/// True where the byte is this part of the pointer.
fn is_part(
    terms: &mut Terms,
    block: TermId,
    offset: TermId,
    place: usize,
    byte: SymByte,
) -> Result<TermId, NoMemory>
    requires block { IsTerm terms.old 64 block }
    requires offset { IsTerm terms.old 64 offset }
    requires place { place < 8 }
    requires byte { IsSymByte terms.old byte }
    ensures made { IfOk result (IsTerm terms.new 1) }
    ensures stands { IfOk result (λ id. (r : Reading) → IsNaming r.name
        → bit_at r.v terms.new id ≡ meant.is_part_of (record { block = r.name (term_at r.v terms.old block); offset = term_at r.v terms.old offset }) place (byte_at r terms.old byte)) }
    ensures kept { Keeps terms.old terms.new }
{
    let same_pointer = is_same_pointer(terms, block, offset, byte)?;
    let same_place = has_value(terms, byte.part, 3, place as u128)?;
    let is_same = both(terms, same_pointer, same_place)?;
    let is_part = both(terms, byte.is_part, is_same)?;
    Ok(is_part)
}

/// True where the bytes are the parts 0 to 7 of the pointer, in order.
fn are_parts(
    terms: &mut Terms,
    block: TermId,
    offset: TermId,
    bytes: &[SymByte],
) -> Result<TermId, NoMemory>
    requires block { IsTerm terms.old 64 block }
    requires offset { IsTerm terms.old 64 offset }
    requires bytes { AreSymBytes terms.old bytes.now }
    requires count { length bytes.now ≡ 8 }
    ensures made { IfOk result (IsTerm terms.new 1) }
    ensures stands { IfOk result (λ id. (r : Reading) → IsNaming r.name
        → bit_at r.v terms.new id ≡ meant.are_parts (record { block = r.name (term_at r.v terms.old block); offset = term_at r.v terms.old offset }) 0 (places_at r terms.old bytes.now)) }
    ensures kept { Keeps terms.old terms.new }
{
    let mut are_parts = truth(terms, true)?;
    for (i, byte) in bytes.iter().enumerate() {
        let here = is_part(terms, block, offset, i, *byte)?;
        are_parts = both(terms, are_parts, here)?;
    }
    Ok(are_parts)
}

/// The pointer that the bytes are read as, or poison.
pub fn pointer_of_bytes(terms: &mut Terms, bytes: &[SymByte]) -> Result<SymValue, NoMemory>
    requires bytes { AreSymBytes terms.old bytes.now }
    requires count { length bytes.now ≡ 8 }
    ensures made { IfOk result (IsSymValue terms.new) }
    ensures stands { IfOk result (λ s. (r : Reading) → IsNaming r.name → value_at r terms.new s ≡ meant.value_of_bytes Pointer (places_at r terms.old bytes.now)) }
    ensures kept { Keeps terms.old terms.new }
{
    let first = bytes[0];
    let are_parts = are_parts(terms, first.block, first.offset, bytes)?;
    let poison = negation(terms, are_parts)?;
    let is_pointer = truth(terms, true)?;
    Ok(SymValue {
        poison,
        is_pointer,
        block: first.block,
        number: first.offset,
    })
}

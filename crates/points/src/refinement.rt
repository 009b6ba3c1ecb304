ghost use Rattle.std.specs.Prelude.{◌≡◌, take};
ghost use Rattle.memory_access.specs.Blocks.{block_bytes};
ghost use Rattle.memory_access.specs.Bytes.{defined_bits};
ghost use Rattle.points.specs.Refines.{same_pointer, value_allows, byte_allows, pairs_pass, block_allows, blocks_allow, returned_allows, is_refined};

use crate::outcome::Outcome;
use byte_block::{BlockName, Byte, MemoryBlock, Ptr, Value};
use memory_access::{bytes_in, defined_bits, is_equal_name};

/// Whether the source's outcome allows the target's. A run past the bounds allows and is allowed
/// everything, undefined behaviour of the source allows everything, and poison allows every value
/// (Alive2, PLDI 2021). Pointers to local blocks are dead, and all dead ones are equal.
pub fn refines(source: &Outcome, target: &Outcome) -> bool
    ensures { result ≡ is_refined source.now target.now }
{
    match (source, target) {
        (_, Outcome::Beyond) | (Outcome::Ub | Outcome::Beyond, _) => true,
        (Outcome::Return(..), Outcome::Ub) => false,
        (Outcome::Return(s, m), Outcome::Return(t, n)) => {
            returned_is_allowed(*s, *t) && blocks_are_allowed(m.as_slice(), n.as_slice())
        }
    }
}

/// Whether what the source returns allows what the target does, a value or nothing.
pub fn returned_is_allowed(source: Option<Value>, target: Option<Value>) -> bool
    ensures { result ≡ returned_allows source target }
{
    match (source, target) {
        (None, None) => true,
        (Some(s), Some(t)) => value_is_allowed(s, t),
        _ => false,
    }
}

fn value_is_allowed(source: Value, target: Value) -> bool
    ensures { result ≡ value_allows source target }
{
    match (source, target) {
        (Value::Poison, _) => true,
        (Value::Num(a), Value::Num(b)) => a == b,
        (Value::Ptr(p), Value::Ptr(q)) => is_same_pointer(p, q),
        _ => false,
    }
}

fn is_same_pointer(p: Ptr, q: Ptr) -> bool
    ensures { result ≡ same_pointer p.block p.offset q.block q.offset }
{
    match (p.block, q.block) {
        (BlockName::Local(..), BlockName::Local(..)) => true,
        (name, other) => is_equal_name(name, other) && p.offset == q.offset,
    }
}

/// Whether a byte that the source leaves allows the target's: a poison bit allows both bits, and a
/// byte of which all bits are poison allows every byte.
pub fn byte_is_allowed(source: Byte, target: Byte) -> bool
    ensures { result ≡ byte_allows source target }
{
    match (source, target) {
        (Byte::Bits { number, mask }, Byte::Bits { number: n, mask: m }) => {
            defined_bits(m, mask) == 0 && defined_bits(number, mask) == defined_bits(n, mask)
        }
        (Byte::Bits { mask, .. }, Byte::Part(..)) => mask == u8::MAX,
        (Byte::Part(p, i), Byte::Part(q, j)) => is_same_pointer(p, q) && i == j,
        (Byte::Part(..), Byte::Bits { .. }) => false,
    }
}

fn bytes_are_allowed(source: &[Byte], target: &[Byte]) -> bool
    ensures { result ≡ pairs_pass byte_allows source.now target.now }
{
    if source.len() != target.len() {
        return false;
    }
    for (i, s) in source.iter().enumerate() {
        if !byte_is_allowed(*s, target[i]) {
            return false;
        }
    }
    true
}

fn block_is_allowed(source: &MemoryBlock, target: &MemoryBlock) -> bool
    ensures { result ≡ block_allows source.now target.now }
{
    is_equal_name(source.name, target.name)
        && source.size == target.size
        && bytes_are_allowed(bytes_in(source), bytes_in(target))
}

/// Whether the blocks that the source leaves allow those that the target does.
pub fn blocks_are_allowed(source: &[MemoryBlock], target: &[MemoryBlock]) -> bool
    ensures { result ≡ blocks_allow source.now target.now }
{
    if source.len() != target.len() {
        return false;
    }
    for (i, s) in source.iter().enumerate() {
        if !block_is_allowed(s, &target[i]) {
            return false;
        }
    }
    true
}

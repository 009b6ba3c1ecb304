ghost use Rattle.std.specs.Prelude.{◌≡◌, ◌-◌, ◌^◌, length, pos, neg_ℤ, ◌+ℤ◌, ◌≤ℤ◌, ◌≤◌, true, All, MatchOption};
ghost use Rattle.std.specs.List.{list_any, list_all};
ghost use Rattle.tv_num.specs.Width.{wrapped};
ghost use Rattle.memory_access.specs.Blocks.{bytes_named};
ghost use Rattle.memory_access.specs.Offsets.{IndexFits, signed_index, scaled, is_index, is_nonzero, is_negative, last_sum, is_outside, leaves_block, gep_result};

use crate::blocks::{bytes_in, index_named};
use byte_block::{BlockName, Memory, Ptr, Value};
use tv_num::{Width, signed};

/// How many offsets there are.
const OFFSETS: i128 = 1 << 64;

/// An index of a getelementptr: a number of this width in two's complement, or poison, and how many
/// bytes it counts for.
#[derive(Clone, Copy, Debug, PartialEq, Eq)]
pub struct Index {
    pub value: Value,
    pub width: Width,
    pub scale: u64,
}

/// The index in two's complement; 0 where it is no number.
fn signed_of_index(index: &Index) -> i64
    requires { IndexFits index.now }
    ensures { result ≡ signed_index index.now }
{
    match index.value {
        Value::Num(number) => signed(number, index.width),
        Value::Poison | Value::Ptr(_) => 0,
    }
}

/// What an index adds to the offset. Its sum with an offset of 64 bits does not overflow.
fn scaled_index(index: &Index) -> i128
    requires { IndexFits index.now }
    ensures value { result ≡ scaled index.now }
    ensures low { neg_ℤ (pos (2 ^ 127 - 2 ^ 63)) ≤ℤ result }
    ensures high { result ≤ℤ pos (2 ^ 127 - 2 ^ 64) }
{
    signed_of_index(index) as i128 * index.scale as i128
}

fn are_numbers(indices: &[Index]) -> bool
    ensures { result ≡ list_all is_index indices.now }
{
    for index in indices {
        if !matches!(index.value, Value::Num(_)) {
            return false;
        }
    }
    true
}

/// Whether some index isn't 0.
fn has_nonzero(indices: &[Index]) -> bool
    requires { All IndexFits indices.now }
    ensures { result ≡ list_any is_nonzero indices.now }
{
    for index in indices {
        if signed_of_index(index) != 0 {
            return true;
        }
    }
    false
}

fn has_negative(indices: &[Index]) -> bool
    requires { All IndexFits indices.now }
    ensures { result ≡ list_any is_negative indices.now }
{
    for index in indices {
        if signed_of_index(index) < 0 {
            return true;
        }
    }
    false
}

/// Whether a sum is neither an offset in a block of this size nor that of its end.
fn is_past(size: u64, sum: i128) -> bool
    ensures { result ≡ is_outside size sum }
{
    sum < 0 || (size as i128) < sum
}

/// The exact sum after an index, if it is inside 0 to the size.
fn next_sum(size: u64, sum: u64, index: &Index) -> Option<u64>
    requires { IndexFits index.now }
    ensures { let exact = pos sum +ℤ scaled index.now in
        MatchOption result (is_outside size exact ≡ true) (λ next. (next ≤ size) × (pos next ≡ exact)) }
{
    let next = sum as i128 + scaled_index(index);
    if is_past(size, next) {
        None
    } else {
        Some(next as u64)
    }
}

/// Whether the base offset or a partial sum is outside 0 to the size. The exact sum is kept only
/// while it is inside.
fn leaves(size: u64, offset: u64, indices: &[Index]) -> bool
    requires { All IndexFits indices.now }
    ensures { result ≡ leaves_block size offset indices.now }
{
    if size < offset {
        return true;
    }
    let mut sum = offset;
    for index in indices {
        match next_sum(size, sum, index) {
            Some(next) => sum = next,
            None => return true,
        }
    }
    false
}

/// The offset after an index, modulo 2^64.
fn moved_offset(offset: u64, index: &Index) -> u64
    requires { IndexFits index.now }
    ensures { result ≡ wrapped 64 (pos offset +ℤ scaled index.now) }
{
    (offset as i128 + scaled_index(index)).rem_euclid(OFFSETS) as u64
}

/// The offset after all indices, modulo 2^64.
fn offset_after(offset: u64, indices: &[Index]) -> u64
    requires { All IndexFits indices.now }
    ensures { result ≡ wrapped 64 (last_sum (pos offset) indices.now) }
{
    let mut sum = offset;
    for index in indices {
        sum = moved_offset(sum, index);
    }
    sum
}

/// How many bytes the block of this name has; 0 where there is none.
fn size_named(memory: &Memory, name: BlockName) -> u64
    ensures { result ≡ length (bytes_named memory.now name) }
{
    match index_named(memory.as_slice(), name) {
        Some(i) => bytes_in(memory.get(i)).len() as u64,
        None => 0,
    }
}

/// Where a getelementptr leads (LLVM Language Reference, "getelementptr Instruction"): the base
/// moved by each index times its scale in bytes, modulo 2^64. It is poison where the base is no
/// pointer or an index no number; with `inbounds`, where some index isn't 0 and the base offset or
/// an exact partial sum is outside 0 to the size of the base's block; with `nuw`, where an index is
/// negative. A number among the indices is one of its width.
pub fn gep(memory: &Memory, base: Value, indices: &[Index], inbounds: bool, nuw: bool) -> Value
    requires { All IndexFits indices.now }
    ensures { result ≡ gep_result memory.now base indices.now inbounds nuw }
{
    let Value::Ptr(pointer) = base else {
        return Value::Poison;
    };
    let is_poison = !are_numbers(indices)
        || (inbounds
            && has_nonzero(indices)
            && leaves(size_named(memory, pointer.block), pointer.offset, indices))
        || (nuw && has_negative(indices));
    if is_poison {
        return Value::Poison;
    }
    Value::Ptr(Ptr {
        block: pointer.block,
        offset: offset_after(pointer.offset, indices),
    })
}

ghost use Rattle.std.specs.Prelude.{◌≡◌, ◌<◌, ◌≤◌, ◌-◌, ◌*◌, ◌/◌, ◌%◌, ◌^◌, length, min, slice_get};
ghost use Rattle.memory_access.specs.Bytes.{access_size, defined_bits, value_bytes, number_of_bytes, number_or_poison, are_parts, is_part_of, pointer_or_poison, value_of_bytes};

use crate::access_types::Access;
use crate::blocks::is_equal_pointer;
use byte_block::{Byte, Ptr, Value};
use tv_num::Width;

/// How many bytes an access has.
pub fn size_of(access: Access) -> usize
    ensures value { result ≡ access_size access }
    ensures most { result ≤ 8 }
{
    match access {
        Access::Int(width) => (width.bits() as usize + 7) / 8,
        Access::Pointer => 8,
    }
}

/// The byte of a number at an index, from the least significant one on.
fn number_byte(number: u64, k: usize) -> u8
    requires { k < 8 }
    ensures { result ≡ number / 2 ^ (8 * k) % 256 }
{
    (number >> (8 * k) & 255) as u8
}

/// The byte at an index of those whose low bits, this many, are poison.
fn poison_byte(bits: usize, k: usize) -> Byte
    requires { k < 8 }
    ensures { result ≡ Byte.Bits 0 (2 ^ min (bits - 8 * k) 8 - 1) }
{
    let above = bits.saturating_sub(8 * k);
    let mask = if above < 8 { (1 << above) - 1 } else { u8::MAX };
    Byte::Bits { number: 0, mask }
}

/// The bits of a byte's number that are not in the mask.
pub fn defined_bits(number: u8, mask: u8) -> u8
    ensures { result ≡ defined_bits number mask }
{
    number & (u8::MAX - mask)
}

/// The byte at an index of those that a value is stored as. A value of the other kind is stored as
/// poison.
pub fn byte_of(value: Value, access: Access, k: usize) -> Byte
    requires { k < access_size access }
    ensures { slice_get (value_bytes access value) k ≡ Some result }
{
    match access {
        Access::Int(width) => match value {
            Value::Num(number) => Byte::Bits {
                number: number_byte(number, k),
                mask: 0,
            },
            Value::Poison | Value::Ptr(_) => poison_byte(width.bits() as usize, k),
        },
        Access::Pointer => match value {
            Value::Ptr(pointer) => Byte::Part(pointer, k as u8),
            Value::Num(_) | Value::Poison => poison_byte(64, k),
        },
    }
}

/// The number whose bytes these are, the least significant first, if none is a part of a pointer or
/// has a bit that is poison.
#[tactic(auto, unfolding(crate::specs::Bytes::number_of_bytes))]
fn number_in(bytes: &[Byte]) -> Option<u64>
    requires { length bytes.now ≤ 8 }
    ensures { result ≡ number_of_bytes bytes.now }
{
    let mut number = 0u64;
    for i in (0..bytes.len()).rev() {
        match bytes[i] {
            Byte::Bits { number: byte, mask } => {
                if mask != 0 {
                    return None;
                }
                number = byte as u64 + 256 * number;
            }
            Byte::Part(..) => return None,
        }
    }
    Some(number)
}

/// A number that has the width; any other is poison.
fn number_of_width(width: Width, number: Option<u64>) -> Value
    ensures { result ≡ number_or_poison width.bits number }
{
    match number {
        Some(number) if (number as u128) < width.end() => Value::Num(number),
        Some(_) | None => Value::Poison,
    }
}

/// Whether the bytes are the parts 0 to 7 of a pointer, in order.
#[tactic(auto, unfolding(crate::specs::Bytes::are_parts))]
fn is_whole(pointer: Ptr, bytes: &[Byte]) -> bool
    ensures { result ≡ are_parts pointer 0 bytes.now }
{
    for (i, byte) in bytes.iter().enumerate() {
        if !is_part(pointer, i, *byte) {
            return false;
        }
    }
    bytes.len() == 8
}

/// Whether the byte is the part of the pointer with this number.
fn is_part(pointer: Ptr, number: usize, byte: Byte) -> bool
    ensures { result ≡ is_part_of pointer number byte }
{
    match byte {
        Byte::Part(other, part) => is_equal_pointer(pointer, other) && part as usize == number,
        Byte::Bits { .. } => false,
    }
}

/// The pointer whose parts the bytes are; poison if there is none.
fn pointer_in(bytes: &[Byte]) -> Value
    ensures { result ≡ pointer_or_poison bytes.now }
{
    if bytes.is_empty() {
        return Value::Poison;
    }
    match bytes[0] {
        Byte::Part(pointer, _) => {
            if is_whole(pointer, bytes) {
                Value::Ptr(pointer)
            } else {
                Value::Poison
            }
        }
        Byte::Bits { .. } => Value::Poison,
    }
}

/// The value that the bytes of an access are read as.
pub fn value_of(access: Access, bytes: &[Byte]) -> Value
    requires { length bytes.now ≤ 8 }
    ensures { result ≡ value_of_bytes access bytes.now }
{
    match access {
        Access::Int(width) => number_of_width(width, number_in(bytes)),
        Access::Pointer => pointer_in(bytes),
    }
}

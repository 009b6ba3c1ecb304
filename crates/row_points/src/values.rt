//! Numbers, values and bytes as a report writes them.

ghost use Rattle.std.specs.Prelude.{◌<◌, IfSome};

use crate::lines::split_at_byte;
use byte_block::{BlockName, Byte, Ptr, Value};
use std::alloc::Global;
use std::str;
use support::NoMemory;

/// A number.
pub fn number_in(digits: &[u8]) -> Option<u64> {
    let text = str::from_utf8(digits).ok()?;
    text.parse::<u64>().ok()
}

/// The block of a pointer, `null` or `given1`.
fn block_name_in(text: &[u8]) -> Option<BlockName> {
    if text == b"null".as_slice() {
        return Some(BlockName::Null);
    }
    Some(BlockName::Given(number_in(text.strip_prefix(b"given")?)?))
}

/// A pointer, `given1+0`.
fn pointer_in(text: &[u8]) -> Option<Ptr> {
    let (block, offset) = split_at_byte(b'+', text)?;
    Some(Ptr {
        block: block_name_in(block)?,
        offset: number_in(offset)?,
    })
}

/// A value.
pub fn value_in(text: &[u8]) -> Option<Value> {
    if text == b"poison".as_slice() {
        return Some(Value::Poison);
    }
    match pointer_in(text) {
        Some(pointer) => Some(Value::Ptr(pointer)),
        None => Some(Value::Num(number_in(text)?)),
    }
}

/// The number of a hexadecimal digit in lower case.
fn hex_digit(digit: u8) -> Option<u8>
    ensures { IfSome result (λ n. n < 16) }
{
    match digit {
        b'0'..=b'9' => Some(digit - b'0'),
        b'a'..=b'f' => Some(digit - b'a' + 10),
        _ => None,
    }
}

/// The number of two hexadecimal digits.
fn hex_byte(high: u8, low: u8) -> Option<u8> {
    Some(hex_digit(high)? * 16 + hex_digit(low)?)
}

/// Bits of which some, but not all, are poison: their number and their mask have no bit in common.
fn bits_in(number: u8, mask: u8) -> Option<Byte> {
    if mask == 0 || mask == u8::MAX || number & mask != 0 {
        return None;
    }
    Some(Byte::Bits { number, mask })
}

/// A part of a pointer, `given1+0/7`.
fn part_in(text: &[u8]) -> Option<Byte> {
    let (pointer, part) = split_at_byte(b'/', text)?;
    let part = str::from_utf8(part).ok()?;
    Some(Byte::Part(pointer_in(pointer)?, part.parse::<u8>().ok()?))
}

/// A byte: `00` to `ff`, `--` if all bits are poison, `0f~30` if those of a mask are, or a part of a
/// pointer.
fn byte_in(text: &[u8]) -> Option<Byte> {
    match text {
        [b'-', b'-'] => Some(Byte::Bits {
            number: 0,
            mask: u8::MAX,
        }),
        [high, low] => Some(Byte::Bits {
            number: hex_byte(*high, *low)?,
            mask: 0,
        }),
        [high, low, b'~', mask_high, mask_low] => {
            bits_in(hex_byte(*high, *low)?, hex_byte(*mask_high, *mask_low)?)
        }
        _ => part_in(text),
    }
}

/// Bytes, with a space between two.
pub fn bytes_in(alloc: Global, text: &[u8]) -> Result<Option<Vec<Byte>>, NoMemory> {
    let mut bytes = Vec::new(alloc);
    let mut rest = text;
    while let Some((word, after)) = split_at_byte(b' ', rest) {
        let Some(byte) = byte_in(word) else {
            return Ok(None);
        };
        bytes.push(byte)?;
        rest = after;
    }
    let Some(byte) = byte_in(rest) else {
        return Ok(None);
    };
    bytes.push(byte)?;
    Ok(Some(bytes))
}

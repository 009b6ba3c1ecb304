//! What the words of a row say.

use byte_block::{BlockName, Byte, Ptr, Value};
use memory_access::Access;
use std::alloc::Global;
use std::test::Fail;
use tv_num::Width;

/// A number: decimal digits, or hexadecimal ones after `0x`.
fn number_in(word: &str) -> Option<u64> {
    match word.strip_prefix("0x") {
        Some(digits) => u64::from_str_radix(digits, 16).ok(),
        None => word.parse::<u64>().ok(),
    }
}

/// The name of a block, as `null`, `given1` or `local0.2`.
pub fn name_in(word: &str) -> Option<BlockName> {
    if word == "null" {
        return Some(BlockName::Null);
    }
    if let Some(number) = word.strip_prefix("given") {
        return Some(BlockName::Given(number_in(number)?));
    }
    let (turn, place) = word.strip_prefix("local")?.split_once(".")?;
    Some(BlockName::Local(number_in(turn)?, number_in(place)?))
}

/// A pointer, as `null+5` or `given1+8`.
fn pointer_in(word: &str) -> Option<Ptr> {
    let (name, offset) = word.split_once("+")?;
    Some(Ptr {
        block: name_in(name)?,
        offset: number_in(offset)?,
    })
}

/// A value: `poison`, a number or a pointer.
pub fn value_in(word: &str) -> Option<Value> {
    if word == "poison" {
        return Some(Value::Poison);
    }
    match pointer_in(word) {
        Some(pointer) => Some(Value::Ptr(pointer)),
        None => Some(Value::Num(number_in(word)?)),
    }
}

/// Bits: two hexadecimal digits, and after a tilde two of those that are poison.
fn bits_in(word: &str) -> Option<Byte> {
    let (number, mask) = match word.split_once("~") {
        Some((number, mask)) => (number, u8::from_str_radix(mask, 16).ok()?),
        None => (word, 0),
    };
    let number = u8::from_str_radix(number, 16).ok()?;
    Some(Byte::Bits { number, mask })
}

/// A byte: `--` where all bits are poison, bits, or a pointer and its part, as `given1+4/0`.
pub fn byte_in(word: &str) -> Option<Byte> {
    if word == "--" {
        return Some(Byte::Bits {
            number: 0,
            mask: u8::MAX,
        });
    }
    match word.split_once("/") {
        Some((pointer, part)) => Some(Byte::Part(pointer_in(pointer)?, part.parse::<u8>().ok()?)),
        None => bits_in(word),
    }
}

/// The width of an integer type, as `i32`.
pub fn width_in(word: &str) -> Option<Width> {
    let bits = word.strip_prefix("i")?.parse::<u32>().ok()?;
    if 1 <= bits && bits <= 64 {
        Some(Width::of(bits))
    } else {
        None
    }
}

/// An access: `ptr` or an integer type.
pub fn access_in(word: &str) -> Option<Access> {
    if word == "ptr" {
        Some(Access::Pointer)
    } else {
        Some(Access::Int(width_in(word)?))
    }
}

/// The numbers of a text.
pub fn numbers_in(alloc: Global, text: &str) -> Result<Vec<u64>, Fail> {
    let mut numbers = Vec::new(alloc);
    for word in text.split_whitespace() {
        numbers.push(number_in(word).ok_or("a number")?)?;
    }
    Ok(numbers)
}

/// What follows the name of a row: two fields and the rest.
pub fn fields_in(line: &str) -> Option<(&str, &str, &str)> {
    let (_, fields) = line.split_once(" | ")?;
    let (first, fields) = fields.split_once(" | ")?;
    let (second, rest) = fields.split_once(" | ")?;
    Some((first, second, rest))
}

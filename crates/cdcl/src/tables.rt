//! Tables of small numbers. What lies past the end of one reads as 0, and is not written.

use std::alloc::Global;
use support::NoMemory;

/// A table of zeros.
pub fn zeros(alloc: Global, count: usize) -> Result<Vec<u32>, NoMemory> {
    let table = vec![in alloc; 0; count]?;
    Ok(table)
}

/// The number at an index.
pub fn at(table: &[u32], index: u32) -> u32 {
    table.get(index as usize).copied().unwrap_or(0)
}

/// Writes the number at an index.
pub fn put(table: &mut [u32], index: u32, number: u32) {
    if let Some(cell) = table.get_mut(index as usize) {
        *cell = number;
    }
}

/// The bytes at an index.
pub fn byte_at(table: &[u8], index: u32) -> u8 {
    table.get(index as usize).copied().unwrap_or(0)
}

/// Writes the byte at an index.
pub fn put_byte(table: &mut [u8], index: u32, byte: u8) {
    if let Some(cell) = table.get_mut(index as usize) {
        *cell = byte;
    }
}

/// A number of at most 32 bits; a greater one is cut.
pub fn short(number: usize) -> u32 {
    (number & u32::MAX as usize) as u32
}

/// How many entries there are.
pub fn count(table: &[u32]) -> u32 {
    short(table.len())
}

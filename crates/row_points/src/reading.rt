//! The point that the lines of a row show.

ghost use Rattle.std.specs.Prelude.{◌<◌, IfOk, IfSome, length};
ghost use Rattle.points.specs.Code.{ArgsFit, BlocksFit};

use crate::fits::{are_args, are_blocks};
use crate::lines::split_at_byte;
use crate::values::{bytes_in, number_in, value_in};
use byte_block::{BlockName, Byte, MemoryBlock, Value};
use ir_tree::Parameter;
use points::{Input, Layout, Point};
use std::alloc::Global;
use support::{NoMemory, Sequence};

/// A line with a number and what is shown of it, `  arg 0 = 28`, and what comes after the line.
#[derive(Clone, Copy)]
struct Numbered<'r> {
    number: u64,
    shown: &'r [u8],
    after: &'r [u8],
}

/// The first line of a text, where it has this label.
fn numbered_in<'r>(text: &'r [u8], label: &[u8]) -> Option<Numbered<'r>>
    ensures { IfSome result (λ line. length line.after.now < length text.now) }
{
    let (line, after) = split_at_byte(b'\n', text)?;
    let (number, rest) = split_at_byte(b' ', line.strip_prefix(label)?)?;
    Some(Numbered {
        number: number_in(number)?,
        shown: rest.strip_prefix(b"= ")?,
        after,
    })
}

/// The arguments that a text begins with, and the rest of the text.
fn args_in(alloc: Global, text: &[u8]) -> Result<Option<(Vec<Value>, &[u8])>, NoMemory> {
    let mut args = Vec::new(alloc);
    let mut rest = text;
    while let Some(line) = numbered_in(rest, b"  arg ") {
        let Some(value) = value_in(line.shown) else {
            return Ok(None);
        };
        args.push(value)?;
        rest = line.after;
    }
    Ok(Some((args, rest)))
}

/// The bytes of the given block of this number, and the rest of the text. A block with no line has no
/// bytes.
fn contents_in(
    alloc: Global,
    text: &[u8],
    number: u64,
) -> Result<Option<(Vec<Byte>, &[u8])>, NoMemory> {
    match numbered_in(text, b"  block ") {
        Some(line) if line.number == number => match bytes_in(alloc, line.shown)? {
            Some(bytes) => Ok(Some((bytes, line.after))),
            None => Ok(None),
        },
        _ => Ok(Some((Vec::new(alloc), text))),
    }
}

/// The given block of this number that has these bytes, with room for as many as the layout says.
fn block_with(number: u64, bytes: Vec<Byte>, layout: &Layout) -> Result<MemoryBlock, NoMemory> {
    let size = bytes.len() as u64;
    let mut places = bytes;
    for _place in size..layout.bytes {
        places.push(Byte::Bits { number: 0, mask: 0 })?;
    }
    Ok(MemoryBlock {
        name: BlockName::Given(number),
        size,
        align: 16,
        places: Sequence::from_vec(places),
    })
}

/// The given blocks that a text begins with, and the rest of the text.
fn blocks_in<'r>(
    alloc: Global,
    text: &'r [u8],
    layout: &Layout,
) -> Result<Option<(Vec<MemoryBlock>, &'r [u8])>, NoMemory> {
    let mut blocks = Vec::new(alloc);
    let mut rest = text;
    for place in 0..layout.blocks {
        let Some((bytes, after)) = contents_in(alloc, rest, place + 1)? else {
            return Ok(None);
        };
        blocks.push(block_with(place + 1, bytes, layout)?)?;
        rest = after;
    }
    Ok(Some((blocks, rest)))
}

/// The choices that a text begins with.
fn choices_in(alloc: Global, text: &[u8]) -> Result<Option<Vec<u64>>, NoMemory> {
    let mut words = Vec::new(alloc);
    let mut rest = text;
    while let Some(line) = numbered_in(rest, b"  choice ") {
        let Some(word) = number_in(line.shown) else {
            return Ok(None);
        };
        words.push(word)?;
        rest = line.after;
    }
    Ok(Some(words))
}

/// What the lines after the first one of a row show.
fn point_after(alloc: Global, row: &[u8], layout: &Layout) -> Result<Option<Point>, NoMemory> {
    let Some((_, text)) = split_at_byte(b'\n', row) else {
        return Ok(None);
    };
    let Some((args, text)) = args_in(alloc, text)? else {
        return Ok(None);
    };
    let Some((blocks, text)) = blocks_in(alloc, text, layout)? else {
        return Ok(None);
    };
    let Some(words) = choices_in(alloc, text)? else {
        return Ok(None);
    };
    let args = Sequence::from_vec(args);
    let blocks = Sequence::from_vec(blocks);
    Ok(Some(Point {
        input: Input { args, blocks },
        tape: Sequence::from_vec(words),
    }))
}

/// The point that a row shows, where its input is one of these parameters and this layout. The
/// choices after those that the row shows are 0.
///
/// # Errors
/// Only out of memory.
pub fn point_in(
    alloc: Global,
    row: &[u8],
    parameters: &[Parameter],
    layout: &Layout,
) -> Result<Option<Point>, NoMemory>
    ensures args { IfOk result (λ found. IfSome found (λ p. ArgsFit layout.now parameters.now p.input.args)) }
    ensures given { IfOk result (λ found. IfSome found (λ p. BlocksFit layout.now 1 p.input.blocks)) }
{
    let Some(point) = point_after(alloc, row, layout)? else {
        return Ok(None);
    };
    if !are_args(point.input.args.as_slice(), parameters, layout) {
        return Ok(None);
    }
    if !are_blocks(point.input.blocks.as_slice(), layout) {
        return Ok(None);
    }
    Ok(Some(point))
}

//! The calls of the rows.

ghost use Rattle.std.specs.Prelude.{◌<◌, All, IfOk, IfSome};
ghost use Rattle.memory_access.specs.Offsets.{IndexFits};

use crate::words::{access_in, byte_in, name_in, value_in, width_in};
use byte_block::{BlockName, Byte, Memory, MemoryBlock, Value};
use memory_access::{Index, Loaded, Stored, gep, load, store};
use std::alloc::Global;
use std::test::Fail;
use support::Sequence;
use tv_num::wrap;

/// The words of a text.
fn words_of(alloc: Global, text: &str) -> Result<Vec<&str>, Fail> {
    let mut words = Vec::new(alloc);
    for word in text.split_whitespace() {
        words.push(word)?;
    }
    Ok(words)
}

fn push_bytes(bytes: &mut Vec<Byte>, text: &str) -> Result<(), Fail> {
    for word in text.split_whitespace() {
        bytes.push(byte_in(word).ok_or("a byte")?)?;
    }
    Ok(())
}

fn bytes_of(alloc: Global, text: &str) -> Result<Vec<Byte>, Fail> {
    let mut bytes = Vec::new(alloc);
    push_bytes(&mut bytes, text)?;
    Ok(bytes)
}

/// A block's name and its alignment, and what follows them.
fn head_of(text: &str) -> Option<(BlockName, u64, &str)> {
    let (name, rest) = text.split_once(" ")?;
    let (align, rest) = rest.split_once(" ")?;
    Some((name_in(name)?, align.parse::<u64>().ok()?, rest))
}

/// The block of a line: a name, an alignment, bytes, a bar, and what is past the size.
fn block_of(alloc: Global, line: &str) -> Result<MemoryBlock, Fail> {
    let (front, further) = line.split_once("|").ok_or("a bar")?;
    let (name, align, bytes) = head_of(front).ok_or("a name and an alignment")?;
    let mut places = bytes_of(alloc, bytes)?;
    let size = places.len() as u64;
    push_bytes(&mut places, further)?;
    Ok(MemoryBlock {
        name,
        size,
        align,
        places: Sequence::from_vec(places),
    })
}

/// A block for each line.
pub fn memory_of(alloc: Global, text: &str) -> Result<Memory, Fail> {
    let mut blocks = Vec::new(alloc);
    for line in text.lines() {
        blocks.push(block_of(alloc, line)?)?;
    }
    Ok(Sequence::from_vec(blocks))
}

fn align_in(word: &str) -> Option<u64>
    ensures { IfSome result (λ align. 0 < align) }
{
    let align = word.parse::<u64>().ok()?;
    if align == 0 { None } else { Some(align) }
}

/// Whether a load of these words gives this answer, or `None` where they are none.
fn gives(memory: &Memory, words: &[&str], answer: &str) -> Option<bool> {
    let [access, align, at] = words else {
        return None;
    };
    let access = access_in(access)?;
    let align = align_in(align)?;
    let at = value_in(at)?;
    let wanted = if answer == "ub" {
        Loaded::Ub
    } else {
        Loaded::Done(value_in(answer)?)
    };
    Some(load(memory, at, access, align) == wanted)
}

/// Whether the load of a row gives this answer.
pub fn is_loaded(alloc: Global, memory: &Memory, call: &str, answer: &str) -> Result<bool, Fail> {
    let words = words_of(alloc, call)?;
    let is_given = gives(memory, words.as_slice(), answer).ok_or("a load")?;
    Ok(is_given)
}

/// Whether the contents of the first block are these bytes.
fn has_bytes(alloc: Global, memory: &Memory, bytes: &str) -> Result<bool, Fail> {
    let wanted = bytes_of(alloc, bytes)?;
    Ok(match memory.as_slice().first() {
        Some(block) => block.places.as_slice() == wanted.as_slice(),
        None => false,
    })
}

/// Whether a store of these words ends so, or `None` where they are none.
fn ends(memory: &mut Memory, words: &[&str], outcome: &str) -> Option<bool> {
    let [access, align, at, value] = words else {
        return None;
    };
    let access = access_in(access)?;
    let align = align_in(align)?;
    let at = value_in(at)?;
    let value = value_in(value)?;
    let wanted = if outcome == "ub" {
        Stored::Ub
    } else {
        Stored::Done
    };
    Some(store(memory, value, access, at, align) == wanted)
}

/// Whether the store of a row ends as this answer says, and leaves these bytes.
pub fn is_stored(
    alloc: Global,
    memory: &mut Memory,
    call: &str,
    answer: &str,
) -> Result<bool, Fail> {
    let (outcome, bytes) = answer.split_once(" ").ok_or("an outcome")?;
    let words = words_of(alloc, call)?;
    let is_ended = ends(memory, words.as_slice(), outcome).ok_or("a store")?;
    Ok(is_ended && has_bytes(alloc, memory, bytes)?)
}

/// An index: its type, its value and its scale.
fn index_of(kind: &str, value: &str, scale: &str) -> Option<Index>
    ensures { IfSome result (λ index. IndexFits index) }
{
    let width = width_in(kind)?;
    let value = match value_in(value)? {
        Value::Num(number) => Value::Num(wrap(number as u128, width)),
        Value::Poison | Value::Ptr(_) => Value::Poison,
    };
    let scale = scale.parse::<u64>().ok()?;
    Some(Index {
        value,
        width,
        scale,
    })
}

fn indices_of(alloc: Global, words: &[&str]) -> Result<Vec<Index>, Fail>
    ensures { IfOk result (λ indices. All IndexFits indices.items) }
{
    let mut indices = Vec::new(alloc);
    for i in 0..words.len() / 3 {
        let index = index_of(words[3 * i], words[3 * i + 1], words[3 * i + 2]);
        indices.push(index.ok_or("an index")?)?;
    }
    Ok(indices)
}

/// Whether a getelementptr of these words and indices leads to this answer, or `None` where they are none.
fn leads(memory: &Memory, flags: &str, base: &str, indices: &[Index], answer: &str) -> Option<bool>
    requires { All IndexFits indices.now }
{
    let inbounds = flags.starts_with("inbounds");
    let nuw = flags.ends_with("nuw");
    let base = value_in(base)?;
    let wanted = value_in(answer)?;
    Some(gep(memory, base, indices, inbounds, nuw) == wanted)
}

/// Whether the getelementptr of a row leads to this answer.
pub fn is_moved(alloc: Global, memory: &Memory, call: &str, answer: &str) -> Result<bool, Fail> {
    let words = words_of(alloc, call)?;
    let [flags, base, rest @ ..] = words.as_slice() else {
        return Ok(false);
    };
    let indices = indices_of(alloc, rest)?;
    let is_led = leads(memory, flags, base, indices.as_slice(), answer).ok_or("an address")?;
    Ok(is_led)
}

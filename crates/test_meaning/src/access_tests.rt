//! Loads, stores and offsets, by rows computed outside.

use crate::access_calls::{is_loaded, is_moved, is_stored, memory_of};
use crate::access_rows::{BLOCKS, LOADS, OFFSETS, STORES};
use crate::expecting::expect;
use byte_block::{BlockName, Memory, Ptr, Value};
use memory_access::{Access, Loaded, Stored, alloca, load, store};
use std::test::Fail;
use tv_num::Width;

#[test]
fn loads_give_the_values(rt: HostRuntime) -> Result<(), Fail> {
    let alloc = rt.alloc();
    let memory = memory_of(alloc, BLOCKS)?;
    for line in LOADS.lines() {
        if let Some((call, answer)) = line.split_once(" = ") {
            expect(is_loaded(alloc, &memory, call, answer)?, line)?;
        }
    }
    Ok(())
}

#[test]
fn stores_leave_the_bytes(rt: HostRuntime) -> Result<(), Fail> {
    let alloc = rt.alloc();
    for line in STORES.lines() {
        if let Some((call, answer)) = line.split_once(" = ") {
            let mut memory = memory_of(alloc, BLOCKS)?;
            expect(is_stored(alloc, &mut memory, call, answer)?, line)?;
        }
    }
    Ok(())
}

#[test]
fn indices_lead_to_the_offsets(rt: HostRuntime) -> Result<(), Fail> {
    let alloc = rt.alloc();
    let memory = memory_of(alloc, BLOCKS)?;
    for line in OFFSETS.lines() {
        if let Some((call, answer)) = line.split_once(" = ") {
            expect(is_moved(alloc, &memory, call, answer)?, line)?;
        }
    }
    Ok(())
}

const NAME: BlockName = BlockName::Local(1, 7);

/// The last byte of a block of five bytes.
const LAST: Value = Value::Ptr(Ptr {
    block: NAME,
    offset: 4,
});

const END: Value = Value::Ptr(Ptr {
    block: NAME,
    offset: 5,
});

/// Whether the block of five bytes, aligned to 4, is poison, and takes a byte.
fn is_poison(memory: &mut Memory) -> bool {
    let byte = Access::Int(Width::of(8));
    load(memory, LAST, byte, 4) == Loaded::Done(Value::Poison)
        && load(memory, END, byte, 1) == Loaded::Ub
        && load(memory, LAST, byte, 8) == Loaded::Ub
        && store(memory, Value::Num(9), byte, LAST, 4) == Stored::Done
        && load(memory, LAST, byte, 1) == Loaded::Done(Value::Num(9))
}

#[test]
fn an_alloca_is_a_block_of_poison(rt: HostRuntime) -> Result<(), Fail> {
    let mut memory = memory_of(rt.alloc(), BLOCKS)?;
    let is_absent = load(&memory, LAST, Access::Int(Width::of(8)), 1) == Loaded::Ub;
    alloca(rt.alloc(), &mut memory, NAME, 5, 4)?;
    expect(
        is_absent && is_poison(&mut memory),
        "an alloca is a block of poison",
    )
}

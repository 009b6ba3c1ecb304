//! A sink that fails in mid-stream, and a shelf that returns what was put on it.

use std::collections::BTreeMap;
use std::test::Fail;
use tv_io::{FailingSink, MemoryShelf, Shelf, Size, write_whole};

#[test]
fn a_sink_fails_at_its_second_call(rt: HostRuntime) -> Result<(), Fail> {
    let alloc = rt.alloc();
    let fails = vec![in alloc; 2]?;
    let mut sink = FailingSink::new(alloc, 100, 10, fails)?;
    let written = write_whole(&mut sink, b"tv 2 turns 4 blocks 2");
    if written.is_err() && sink.sink.bytes.as_slice() == b"tv 2 turns".as_slice() {
        Ok(())
    } else {
        Err(Fail::new("other bytes"))
    }
}

#[test]
fn a_shelf_gives_back_what_was_put(rt: HostRuntime) -> Result<(), Fail> {
    let alloc = rt.alloc();
    let mut shelf = MemoryShelf::new(BTreeMap::new(alloc));
    shelf.put(alloc, "a", b"text")?;
    let mut into = Vec::new(alloc);
    let whole = shelf.fetch("a", 4, &mut into)?;
    let is_text = into.as_slice() == b"text".as_slice();
    let longer = shelf.fetch("a", 3, &mut into)?;
    let is_there = shelf.fetch("b", 3, &mut into).is_ok();
    if whole == Size::Whole && is_text && longer == Size::Longer && !is_there {
        Ok(())
    } else {
        Err(Fail::new("another file"))
    }
}

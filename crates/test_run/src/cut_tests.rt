//! Modules that are cut short: the fault of each prefix of a module's text.

use crate::asking::{shelf_of, written};
use std::alloc::Global;
use std::test::*;
use std::thread::Threads;
use support::NoMemory;
use text_places::Place;

/// A module of one function.
const INCREMENT: &str = "define i8 @f(i8 %x) {\n  %r = add i8 %x, 1\n  ret i8 %r\n}\n";

/// The bytes before the mark that closes the function.
const BEFORE_CLOSING: usize = 54;

/// The bytes of the word `define`.
const HEAD: usize = 6;

/// The position directly after a text.
fn position_after(text: &[u8]) -> Place {
    let mut place = Place::start();
    for byte in text {
        place = match *byte {
            b'\n' => Place {
                line: place.line.saturating_add(1),
                column: 1,
            },
            _ => Place {
                line: place.line,
                column: place.column.saturating_add(1),
            },
        };
    }
    place
}

/// The line of a fault at the end of a text.
fn fault_after(alloc: Global, text: &[u8], why: &str) -> Result<String, NoMemory> {
    let Place { line, column } = position_after(text);
    Ok(format!(in alloc; "A:{line}:{column}: {why}\n")?)
}

/// The line of the fault of a module that is cut off before its function is closed.
fn fault_of_cut(alloc: Global, text: &[u8]) -> Result<String, NoMemory> {
    match text {
        [before @ .., b'%'] => fault_after(alloc, before, "no token"),
        [before @ .., b'@'] => fault_after(alloc, before, "no token"),
        _ if text.len() < HEAD => fault_after(alloc, b"", "no item"),
        _ => fault_after(alloc, text, "text ends"),
    }
}

/// Fails where `check A B` does not refuse the first bytes of the module with the line of its fault.
fn is_refused<R: AllocGlobal + Threads + Sync>(rt: &R, end: usize) -> Result<(), Fail> {
    let text = INCREMENT.as_bytes().get(..end).unwrap_or(b"");
    let line = fault_of_cut(rt.alloc(), text)?;
    let mut shelf = shelf_of(rt.alloc(), text, INCREMENT.as_bytes())?;
    let (bytes, status) = written(rt, &mut shelf, "tv check A B")?;
    if status == 9 && bytes.as_slice() == line.as_bytes() {
        Ok(())
    } else {
        Err(Fail::new(format_args!("status {status} for {line}")))
    }
}

#[test]
fn each_prefix_of_a_module_has_its_fault(rt: HostRuntime) -> Result<(), Fail> {
    for end in 1..BEFORE_CLOSING + 1 {
        is_refused(&rt, end)?;
    }
    Ok(())
}

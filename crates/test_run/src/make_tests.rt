//! The command `make`: a pair of modules from a seed, judged.

use crate::asking::{shelf_of, written, written_until};
use std::test::*;
use std::thread::Threads;

/// What a command line writes.
fn made<R: AllocGlobal + Threads + Sync>(rt: &R, line: &str) -> Result<Vec<u8>, Fail> {
    let mut shelf = shelf_of(rt.alloc(), b"", b"")?;
    let (bytes, _) = written(rt, &mut shelf, line)?;
    Ok(bytes)
}

#[test]
fn what_is_made_does_not_depend_on_the_number_of_workers(rt: HostRuntime) -> Result<(), Fail> {
    let one = made(&rt, "tv make --seed 7 --functions 64 --insts 4 --workers 1")?;
    let two = made(&rt, "tv make --seed 7 --functions 64 --insts 4 --workers 2")?;
    let many = made(
        &rt,
        "tv make --seed 7 --functions 64 --insts 4 --workers 64",
    )?;
    if one.len() > 0 && one.as_slice() == two.as_slice() && one.as_slice() == many.as_slice() {
        Ok(())
    } else {
        Err(Fail::new("other reports"))
    }
}

/// A sink that takes ten bytes a call and fails at the second one.
#[test]
fn a_sink_that_fails_keeps_a_prefix(rt: HostRuntime) -> Result<(), Fail> {
    let mut shelf = shelf_of(rt.alloc(), b"", b"")?;
    let line = "tv make --functions 1 --insts 1";
    let (bytes, status) = written_until(&rt, &mut shelf, line, 2)?;
    if status == 7 && bytes.as_slice() == b"tv 2 turns".as_slice() {
        Ok(())
    } else {
        Err(Fail::new(format_args!("status {status}")))
    }
}

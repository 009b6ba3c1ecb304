//! Proof files of reports, and what `log` says of proof files.
//!
//! The clauses and steps are worked out by hand. A file that `check` wrote is checked by `log`, which
//! must find each part verified.

use crate::asking::{files_of, shelf_of, written};
use std::alloc::Global;
use std::test::*;
use std::thread::Threads;
use support::NoMemory;
use tv_io::{FailingShelf, Shelf};

const SOURCE: &str = "define i8 @f(i8 %x) {
  %r = add i8 %x, %x
  ret i8 %r
}
define i8 @g(i8 %x) {
  %r = add i8 %x, 1
  ret i8 %r
}
define void @h() {
  ret void
}
";

const TARGET: &str = "define i8 @g(i8 %x) {
  %r = add nsw i8 %x, 1
  ret i8 %r
}
define i8 @f(i8 %x) {
  %r = shl i8 %x, 1
  ret i8 %r
}
";

/// Fails where `check` gives another status for two files, or `log` says something else of the proof
/// file that it wrote.
fn is_verified<R: AllocGlobal + Threads + Sync>(
    rt: &R,
    source: &str,
    target: &str,
    status: u8,
    output: &str,
) -> Result<(), Fail> {
    let mut shelf = shelf_of(rt.alloc(), source.as_bytes(), target.as_bytes())?;
    let (_, answer) = written(rt, &mut shelf, "tv check A B --proof P")?;
    let (bytes, checked) = written(rt, &mut shelf, "tv log P")?;
    if answer == status && checked == 0 && bytes.as_slice() == output.as_bytes() {
        Ok(())
    } else {
        Err(Fail::new(format_args!("{answer} and {checked} for\n{output}")))
    }
}

#[test]
fn proof_files_of_reports_are_verified(rt: HostRuntime) -> Result<(), Fail> {
    let output = "@f correct verified\n@g incorrect verified\nverified 2 bad 0\n";
    is_verified(&rt, SOURCE, TARGET, 1, output)?;
    is_verified(&rt, "", "", 0, "verified 0 bad 0\n")
}

/// Both files are read before the proof file is written, so it may be one of them.
#[test]
fn without_functions_a_proof_file_is_its_head(rt: HostRuntime) -> Result<(), Fail> {
    let alloc = rt.alloc();
    let mut shelf = shelf_of(alloc, b"", b"")?;
    let (_, answer) = written(&rt, &mut shelf, "tv check A B --proof=B")?;
    let mut text = Vec::new(alloc);
    let fetched = shelf.fetch("B", 1_000, &mut text).is_ok();
    let head =
        b"tvproof 2\nturns 4 blocks 2 bytes 8 rounds 64 conflicts 0 weight 100000\n".as_slice();
    if answer == 0 && fetched && text.as_slice() == head {
        Ok(())
    } else {
        Err(Fail::new(format_args!("status {answer}")))
    }
}

/// A shelf with the files A and B of one function, of which one call fails.
fn failing_shelf(alloc: Global, call: u64) -> Result<FailingShelf, NoMemory> {
    let module = b"define i8 @f(i8 %x) {\n  ret i8 %x\n}\n";
    let files = files_of(alloc, module, module)?;
    Ok(FailingShelf::new(files, vec![in alloc; call]?))
}

/// Fails where a run whose shelf fails at a call has another status or output.
fn is_failed<R: AllocGlobal + Threads + Sync>(
    rt: &R,
    call: u64,
    output: &str,
    status: u8,
) -> Result<(), Fail> {
    let mut shelf = failing_shelf(rt.alloc(), call)?;
    let (bytes, answer) = written(rt, &mut shelf, "tv check A B --proof P")?;
    if answer == status && bytes.as_slice() == output.as_bytes() {
        Ok(())
    } else {
        Err(Fail::new(format_args!("status {answer} where call {call} fails")))
    }
}

#[test]
fn the_first_failing_call_gives_the_status(rt: HostRuntime) -> Result<(), Fail> {
    is_failed(&rt, 1, "cannot read A\n", 5)?;
    is_failed(&rt, 2, "cannot read B\n", 5)?;
    is_failed(&rt, 3, "cannot write P\n", 7)
}

//! Files and texts in memory, by the calls that need no shelf and no sink.

use crate::asking::{arguments_of, asked_in, files_of};
use points::{Bounds, Budget};
use std::test::*;
use tv_run::{check_texts, run_in_memory};

const REPORT: &str = "tv 2 turns 4 blocks 2 bytes 8 rounds 64 conflicts 0 weight 100000
@f correct
correct 1 incorrect 0 unknown 0 refused 0 signature 0 missing 0 extra 0
";

#[test]
fn files_in_memory_have_their_report(rt: HostRuntime) -> Result<(), Fail> {
    let module = b"define i8 @f(i8 %x) {\n  ret i8 %x\n}\n";
    let arguments = arguments_of(rt.alloc(), "tv check A B")?;
    let files = files_of(rt.alloc(), module, module)?;
    let checked = run_in_memory(&rt, arguments.as_slice(), files, 1_000)?;
    let is_written = checked.written.as_slice() == REPORT.as_bytes();
    if checked.status == 0 && checked.answers.len() == 1 && is_written {
        Ok(())
    } else {
        Err(Fail::new("another report"))
    }
}

const TEXTS: &str = "\
two functions are judged in turn
tv check source target --turns 2
--- A
define i8 @f(i8 %x) {
  ret i8 %x
}
define i8 @g(i8 %x) {
  ret i8 %x
}
--- B
define i8 @f(i8 %x) {
  ret i8 %x
}
define i8 @g(i8 %x) {
  ret i8 0
}
--- 1
tv 2 turns 2 blocks 2 bytes 8 rounds 64 conflicts 0 weight 100000
@f correct
@g incorrect
  arg 0 = 1
  source returns 1
  target returns 0
correct 1 incorrect 1 unknown 0 refused 0 signature 0 missing 0 extra 0
=== the source is no module
tv check source target --turns 2
--- A
ret i8 0
--- B
--- 9
source:1:1: no item
=== the target is no module
tv check source target --turns 2
--- A
--- B
define i8 @f(i8 %x) {
  ret i8\
--- 9
target:2:9: text ends
";

/// Fails where the check of two texts gives another status or output.
fn is_checked<R: AllocGlobal>(rt: &R, row: &str) -> Result<(), Fail> {
    let asked = asked_in(row).ok_or("a row")?;
    let bounds = Bounds {
        turns: 2,
        blocks: 2,
        bytes: 8,
    };
    let budget = Budget {
        rounds: 64,
        conflicts: 0,
        weight: 100_000,
    };
    let (source, target) = (asked.source.as_bytes(), asked.target.as_bytes());
    let checked = check_texts(rt.alloc(), source, target, &bounds, &budget)?;
    let is_written = checked.written.as_slice() == asked.output.as_bytes();
    if checked.status == asked.status && is_written {
        Ok(())
    } else {
        Err(Fail::new(format_args!("status {} for\n{}", checked.status, asked.source)))
    }
}

#[test]
fn texts_have_their_report(rt: HostRuntime) -> Result<(), Fail> {
    for row in TEXTS.split("=== ") {
        is_checked(&rt, row)?;
    }
    Ok(())
}

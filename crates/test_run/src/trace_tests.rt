//! Counterexamples step by step, with values worked out by hand.

use crate::asking::{Asked, arguments_of, asked_in, files_of};
use std::alloc::Global;
use std::test::*;
use support::NoMemory;
use trace_run::run;
use tv_io::{MemoryShelf, MemorySink};

/// A row, and the report that it has at its end after `--- R`, if it has one.
fn parted(row: &str) -> (&str, Option<&str>) {
    match row.split_once("--- R\n") {
        Some((row, report)) => (row, Some(report)),
        None => (row, None),
    }
}

/// A shelf with the files A and B, and R with the report.
fn shelf_with(alloc: Global, asked: &Asked, report: Option<&str>) -> Result<MemoryShelf, NoMemory> {
    let mut files = files_of(alloc, asked.source.as_bytes(), asked.target.as_bytes())?;
    if let Some(report) = report {
        let bytes = Vec::from_slice(alloc, report.as_bytes())?;
        files.insert(String::from_str(alloc, "R")?, bytes)?;
    }
    Ok(MemoryShelf::new(files))
}

/// Fails where `run` gives another status or output.
fn is_explained(alloc: Global, asked: &Asked, report: Option<&str>) -> Result<(), Fail> {
    let mut shelf = shelf_with(alloc, asked, report)?;
    let arguments = arguments_of(alloc, asked.line)?;
    let mut out = MemorySink::new(alloc, 4_000)?;
    let status = run(alloc, arguments.as_slice(), &mut shelf, &mut out);
    if status == asked.status && out.bytes.as_slice() == asked.output.as_bytes() {
        Ok(())
    } else {
        Err(Fail::new(format_args!("{}: status {status} for\n{}", asked.line, asked.source)))
    }
}

/// Fails at the first row to which `run` gives another answer. `=== ` separates two rows.
fn are_explained(alloc: Global, rows: &str) -> Result<(), Fail> {
    for row in rows.split("=== ") {
        let (row, report) = parted(row);
        is_explained(alloc, &asked_in(row).ok_or("a row")?, report)?;
    }
    Ok(())
}

const INCORRECT: &str = "\
28 + 100 is the first signed overflow of 8 bits
tv_trace A B --function f
--- A
define i8 @f(i8 %x) {
entry:
  %s = add i8 %x, 100
  ret i8 %s
}
--- B
define i8 @f(i8 %x) {
entry:
  %s = add nsw i8 %x, 100
  ret i8 %s
}
--- 1
@f incorrect
  arg 0 = 28
  source returns 128
  target returns poison
source, on the choices 0 (one of its runs)
  %x = 28 (0x1c)
entry:
  %s = add i8 %x, 100 ; %x = 28 (0x1c) ; gives 128 (-128, 0x80)
  ret i8 %s ; %s = 128 (-128, 0x80)
  returns 128 (-128, 0x80)
target, on the choices of the counterexample
  %x = 28 (0x1c)
entry:
  %s = add nsw i8 %x, 100 ; %x = 28 (0x1c) ; gives poison: nsw
  ret i8 %s ; %s = poison
  returns poison
difference: the target returns poison, and the source another value
=== the choice 1 is the least that is not 0
tv_trace A B --function f
--- A
define i8 @f() {
entry:
  ret i8 0
}
--- B
define i8 @f() {
entry:
  %c = freeze i8 poison
  ret i8 %c
}
--- 1
@f incorrect
  choice 0 = 1
  source returns 0
  target returns 1
source, on the choices 0 (one of its runs)
entry:
  ret i8 0
  returns 0 (0x0)
target, on the choices of the counterexample
entry:
  %c = freeze i8 poison ; choice 0 = 1 ; gives 1 (0x1)
  ret i8 %c ; %c = 1 (0x1)
  returns 1 (0x1)
difference: they return different values
=== another byte is stored
tv_trace --function f A B
--- A
define void @f(ptr %p) {
entry:
  store i8 1, ptr %p
  ret void
}
--- B
define void @f(ptr %p) {
entry:
  store i8 2, ptr %p
  ret void
}
--- 1
@f incorrect
  arg 0 = given1+0
  block 1 = 00
  source returns void
  source block 1 = 01
  target returns void
  target block 1 = 02
source, on the choices 0 (one of its runs)
  %p = given1+0
entry:
  store i8 1, ptr %p, align 1 ; %p = given1+0 ; 1 byte at given1+0
  ret void
  returns void
target, on the choices of the counterexample
  %p = given1+0
entry:
  store i8 2, ptr %p, align 1 ; %p = given1+0 ; 1 byte at given1+0
  ret void
  returns void
difference: byte 0 of given1
=== a loop that goes round once more than is right
tv_trace A B --function f --turns 2
--- A
define i8 @f() {
entry:
  ret i8 1
}
--- B
define i8 @f() {
entry:
  br label %head
head:
  %i = phi i8 [ 0, %entry ], [ %j, %head ]
  %j = add i8 %i, 1
  %c = icmp ult i8 %j, 2
  br i1 %c, label %head, label %done
done:
  ret i8 %j
}
--- 1
@f incorrect
  source returns 1
  target returns 2
source, on the choices 0 (one of its runs)
entry:
  ret i8 1
  returns 1 (0x1)
target, on the choices of the counterexample
entry:
  br label %head
head:
  %i = phi i8 [ 0, %entry ], [ %j, %head ] ; gives 0 (0x0)
  %j = add i8 %i, 1 ; %i = 0 (0x0) ; gives 1 (0x1)
  %c = icmp ult i8 %j, 2 ; %j = 1 (0x1) ; gives 1
  br i1 %c, label %head, label %done ; %c = 1
head:
  %i = phi i8 [ 0, %entry ], [ %j, %head ] ; gives 1 (0x1)
  %j = add i8 %i, 1 ; %i = 1 (0x1) ; gives 2 (0x2)
  %c = icmp ult i8 %j, 2 ; %j = 2 (0x2) ; gives 0
  br i1 %c, label %head, label %done ; %c = 0
done:
  ret i8 %j ; %j = 2 (0x2)
  returns 2 (0x2)
difference: they return different values
=== a branch on poison
tv_trace A B --function f
--- A
define i8 @f() {
entry:
  ret i8 0
}
--- B
define i8 @f() {
entry:
  %c = icmp eq i8 poison, 0
  br i1 %c, label %a, label %a
a:
  ret i8 0
}
--- 1
@f incorrect
  source returns 0
  target ub
source, on the choices 0 (one of its runs)
entry:
  ret i8 0
  returns 0 (0x0)
target, on the choices of the counterexample
entry:
  %c = icmp eq i8 poison, 0 ; gives poison: an operand is written poison or undef
  br i1 %c, label %a, label %a ; %c = poison ; undefined behaviour: a branch on poison
  undefined behaviour
difference: the target is undefined behaviour, and the source returns
";

#[test]
fn both_runs_are_shown(rt: HostRuntime) -> Result<(), Fail> {
    are_explained(rt.alloc(), INCORRECT)
}

const OTHERS: &str = "\
a function that refines has no runs to show
tv_trace A B --function f
--- A
define i8 @f(i8 %x) {
  ret i8 %x
}
--- B
define i8 @f(i8 %x) {
  ret i8 %x
}
--- 0
@f correct
=== a function that the target lacks
tv_trace A B --function f
--- A
define i8 @f(i8 %x) {
  ret i8 %x
}
--- B
--- 3
@f missing
=== a name that the source lacks
tv_trace A B --function g
--- A
define i8 @f(i8 %x) {
  ret i8 %x
}
--- B
--- 10
no function g in A
=== no name
tv_trace A B
--- A
--- B
--- 4
words refused
=== no module
tv_trace A B --function f
--- A
?
--- B
--- 9
A:1:1: no token
";

#[test]
fn other_answers_have_their_line(rt: HostRuntime) -> Result<(), Fail> {
    are_explained(rt.alloc(), OTHERS)
}

const REPORTED: &str = "\
the report has the row: nothing is judged, since the pair weighs more than 1
tv_trace A B --function f --report R --weight 1
--- A
define i8 @f(i8 %x) {
entry:
  %s = add i8 %x, 100
  ret i8 %s
}
--- B
define i8 @f(i8 %x) {
entry:
  %s = add nsw i8 %x, 100
  ret i8 %s
}
--- 1
@f incorrect
  arg 0 = 28
  source returns 128
  target returns poison
source, on the choices 0 (one of its runs)
  %x = 28 (0x1c)
entry:
  %s = add i8 %x, 100 ; %x = 28 (0x1c) ; gives 128 (-128, 0x80)
  ret i8 %s ; %s = 128 (-128, 0x80)
  returns 128 (-128, 0x80)
target, on the choices of the counterexample
  %x = 28 (0x1c)
entry:
  %s = add nsw i8 %x, 100 ; %x = 28 (0x1c) ; gives poison: nsw
  ret i8 %s ; %s = poison
  returns poison
difference: the target returns poison, and the source another value
--- R
tv 2 turns 4 blocks 2 bytes 8 rounds 64 conflicts 0 weight 100000
@e correct
@f incorrect
  arg 0 = 28
  source returns 128
  target returns poison
correct 1 incorrect 1 unknown 0 refused 0 signature 0 missing 0 extra 0
=== the report has a greater counterexample
tv_trace A B --function f --report R --weight 1
--- A
define i8 @f(i8 %x) {
entry:
  %s = add i8 %x, 100
  ret i8 %s
}
--- B
define i8 @f(i8 %x) {
entry:
  %s = add nsw i8 %x, 100
  ret i8 %s
}
--- 1
@f incorrect
  arg 0 = 29
  source returns 129
  target returns poison
source, on the choices 0 (one of its runs)
  %x = 29 (0x1d)
entry:
  %s = add i8 %x, 100 ; %x = 29 (0x1d) ; gives 129 (-127, 0x81)
  ret i8 %s ; %s = 129 (-127, 0x81)
  returns 129 (-127, 0x81)
target, on the choices of the counterexample
  %x = 29 (0x1d)
entry:
  %s = add nsw i8 %x, 100 ; %x = 29 (0x1d) ; gives poison: nsw
  ret i8 %s ; %s = poison
  returns poison
difference: the target returns poison, and the source another value
--- R
tv 2 turns 4 blocks 2 bytes 8 rounds 64 conflicts 0 weight 100000
@e correct
@f incorrect
  arg 0 = 29
  source returns 129
  target returns poison
correct 1 incorrect 1 unknown 0 refused 0 signature 0 missing 0 extra 0
=== the runs show another outcome than the report
tv_trace A B --function f --report R
--- A
define i8 @f(i8 %x) {
entry:
  %s = add i8 %x, 100
  ret i8 %s
}
--- B
define i8 @f(i8 %x) {
entry:
  %s = add nsw i8 %x, 100
  ret i8 %s
}
--- 1
@f incorrect
  arg 0 = 28
  source returns 128
  target returns poison
source, on the choices 0 (one of its runs)
  %x = 28 (0x1c)
entry:
  %s = add i8 %x, 100 ; %x = 28 (0x1c) ; gives 128 (-128, 0x80)
  ret i8 %s ; %s = 128 (-128, 0x80)
  returns 128 (-128, 0x80)
target, on the choices of the counterexample
  %x = 28 (0x1c)
entry:
  %s = add nsw i8 %x, 100 ; %x = 28 (0x1c) ; gives poison: nsw
  ret i8 %s ; %s = poison
  returns poison
difference: the target returns poison, and the source another value
--- R
tv 2 turns 4 blocks 2 bytes 8 rounds 64 conflicts 0 weight 100000
@e correct
@f incorrect
  arg 0 = 29
  source returns 130
  target returns poison
correct 1 incorrect 1 unknown 0 refused 0 signature 0 missing 0 extra 0
=== the report has a line more than the runs show
tv_trace A B --function f --report R
--- A
define i8 @f(i8 %x) {
entry:
  %s = add i8 %x, 100
  ret i8 %s
}
--- B
define i8 @f(i8 %x) {
entry:
  %s = add nsw i8 %x, 100
  ret i8 %s
}
--- 1
@f incorrect
  arg 0 = 28
  source returns 128
  target returns poison
source, on the choices 0 (one of its runs)
  %x = 28 (0x1c)
entry:
  %s = add i8 %x, 100 ; %x = 28 (0x1c) ; gives 128 (-128, 0x80)
  ret i8 %s ; %s = 128 (-128, 0x80)
  returns 128 (-128, 0x80)
target, on the choices of the counterexample
  %x = 28 (0x1c)
entry:
  %s = add nsw i8 %x, 100 ; %x = 28 (0x1c) ; gives poison: nsw
  ret i8 %s ; %s = poison
  returns poison
difference: the target returns poison, and the source another value
--- R
tv 2 turns 4 blocks 2 bytes 8 rounds 64 conflicts 0 weight 100000
@e correct
@f incorrect
  arg 0 = 29
  source returns 129
  target returns poison
  target block 1 = 00
correct 1 incorrect 1 unknown 0 refused 0 signature 0 missing 0 extra 0
=== the source allows what the target does there
tv_trace A B --function f --report R
--- A
define i8 @f(i8 %x) {
entry:
  %s = add i8 %x, 100
  ret i8 %s
}
--- B
define i8 @f(i8 %x) {
entry:
  %s = add nsw i8 %x, 100
  ret i8 %s
}
--- 1
@f incorrect
  arg 0 = 28
  source returns 128
  target returns poison
source, on the choices 0 (one of its runs)
  %x = 28 (0x1c)
entry:
  %s = add i8 %x, 100 ; %x = 28 (0x1c) ; gives 128 (-128, 0x80)
  ret i8 %s ; %s = 128 (-128, 0x80)
  returns 128 (-128, 0x80)
target, on the choices of the counterexample
  %x = 28 (0x1c)
entry:
  %s = add nsw i8 %x, 100 ; %x = 28 (0x1c) ; gives poison: nsw
  ret i8 %s ; %s = poison
  returns poison
difference: the target returns poison, and the source another value
--- R
tv 2 turns 4 blocks 2 bytes 8 rounds 64 conflicts 0 weight 100000
@e correct
@f incorrect
  arg 0 = 1
  source returns 101
  target returns 101
correct 1 incorrect 1 unknown 0 refused 0 signature 0 missing 0 extra 0
=== no argument of the type is so large
tv_trace A B --function f --report R
--- A
define i8 @f(i8 %x) {
entry:
  %s = add i8 %x, 100
  ret i8 %s
}
--- B
define i8 @f(i8 %x) {
entry:
  %s = add nsw i8 %x, 100
  ret i8 %s
}
--- 1
@f incorrect
  arg 0 = 28
  source returns 128
  target returns poison
source, on the choices 0 (one of its runs)
  %x = 28 (0x1c)
entry:
  %s = add i8 %x, 100 ; %x = 28 (0x1c) ; gives 128 (-128, 0x80)
  ret i8 %s ; %s = 128 (-128, 0x80)
  returns 128 (-128, 0x80)
target, on the choices of the counterexample
  %x = 28 (0x1c)
entry:
  %s = add nsw i8 %x, 100 ; %x = 28 (0x1c) ; gives poison: nsw
  ret i8 %s ; %s = poison
  returns poison
difference: the target returns poison, and the source another value
--- R
tv 2 turns 4 blocks 2 bytes 8 rounds 64 conflicts 0 weight 100000
@e correct
@f incorrect
  arg 0 = 285
  source returns 129
  target returns poison
correct 1 incorrect 1 unknown 0 refused 0 signature 0 missing 0 extra 0
=== the row is not at the beginning of a line
tv_trace A B --function f --report R
--- A
define i8 @f(i8 %x) {
entry:
  %s = add i8 %x, 100
  ret i8 %s
}
--- B
define i8 @f(i8 %x) {
entry:
  %s = add nsw i8 %x, 100
  ret i8 %s
}
--- 1
@f incorrect
  arg 0 = 28
  source returns 128
  target returns poison
source, on the choices 0 (one of its runs)
  %x = 28 (0x1c)
entry:
  %s = add i8 %x, 100 ; %x = 28 (0x1c) ; gives 128 (-128, 0x80)
  ret i8 %s ; %s = 128 (-128, 0x80)
  returns 128 (-128, 0x80)
target, on the choices of the counterexample
  %x = 28 (0x1c)
entry:
  %s = add nsw i8 %x, 100 ; %x = 28 (0x1c) ; gives poison: nsw
  ret i8 %s ; %s = poison
  returns poison
difference: the target returns poison, and the source another value
--- R
 @f incorrect
  arg 0 = 29
  source returns 129
  target returns poison
=== the report has another row of the function
tv_trace A B --function f --report R
--- A
define i8 @f(i8 %x) {
entry:
  %s = add i8 %x, 100
  ret i8 %s
}
--- B
define i8 @f(i8 %x) {
entry:
  %s = add nsw i8 %x, 100
  ret i8 %s
}
--- 1
@f incorrect
  arg 0 = 28
  source returns 128
  target returns poison
source, on the choices 0 (one of its runs)
  %x = 28 (0x1c)
entry:
  %s = add i8 %x, 100 ; %x = 28 (0x1c) ; gives 128 (-128, 0x80)
  ret i8 %s ; %s = 128 (-128, 0x80)
  returns 128 (-128, 0x80)
target, on the choices of the counterexample
  %x = 28 (0x1c)
entry:
  %s = add nsw i8 %x, 100 ; %x = 28 (0x1c) ; gives poison: nsw
  ret i8 %s ; %s = poison
  returns poison
difference: the target returns poison, and the source another value
--- R
tv 2 turns 4 blocks 2 bytes 8 rounds 64 conflicts 0 weight 100000
@e correct
@f correct
correct 1 incorrect 1 unknown 0 refused 0 signature 0 missing 0 extra 0
=== a report of one row, with a block and a choice
tv_trace A B --function f --report R --weight 1
--- A
define void @f(ptr %p) {
entry:
  store i8 1, ptr %p
  ret void
}
--- B
define void @f(ptr %p) {
entry:
  %c = freeze i8 poison
  store i8 %c, ptr %p
  ret void
}
--- 1
@f incorrect
  arg 0 = given1+1
  block 1 = 0f --
  choice 0 = 255
  source returns void
  source block 1 = 0f 01
  target returns void
  target block 1 = 0f ff
source, on the choices 0 (one of its runs)
  %p = given1+1
entry:
  store i8 1, ptr %p, align 1 ; %p = given1+1 ; 1 byte at given1+1
  ret void
  returns void
target, on the choices of the counterexample
  %p = given1+1
entry:
  %c = freeze i8 poison ; choice 0 = 255 ; gives 255 (-1, 0xff)
  store i8 %c, ptr %p, align 1 ; %c = 255 (-1, 0xff) ; %p = given1+1 ; 1 byte at given1+1
  ret void
  returns void
difference: byte 1 of given1
--- R
@f incorrect
  arg 0 = given1+1
  block 1 = 0f --
  choice 0 = 255
  source returns void
  source block 1 = 0f 01
  target returns void
  target block 1 = 0f ff
=== no file of the name
tv_trace A B --function f --report S
--- A
define i8 @f(i8 %x) {
entry:
  %s = add i8 %x, 100
  ret i8 %s
}
--- B
define i8 @f(i8 %x) {
entry:
  %s = add nsw i8 %x, 100
  ret i8 %s
}
--- 5
cannot read S
--- R
=== the report is read first, and a file that is no module is refused as ever
tv_trace A B --function f --report R
--- A
?
--- B
--- 9
A:1:1: no token
--- R
";

#[test]
fn a_report_gives_the_point(rt: HostRuntime) -> Result<(), Fail> {
    are_explained(rt.alloc(), REPORTED)
}

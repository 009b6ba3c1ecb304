//! Functions of several blocks: which are read, and why and where others are refused.
use crate::answers::{answer, are_answered};
use std::alloc::Global;
use std::test::Fail;

/// Functions that are read.
const SEVERAL_BLOCKS: &str = "\
read: one block
define i8 @f(i8 %x) { entry: ret i8 %x }

read: a jump
define i8 @f(i8 %x) {
  br label %a
a:
  ret i8 %x
}

read: a number as a label
define i8 @f(i8 %0) {
  br label %2
2:
  ret i8 %0
}

read: a condition
define i8 @f(i1 %c, i8 %x) {
entry:
  br i1 %c, label %a, label %b, !prof !1
a:
  ret i8 %x
b:
  ret i8 0
}

read: a literal as a condition
define void @f() { br i1 true, label %a, label %a, !dbg !1, !llvm.loop !2 a: ret void, !dbg !3 }

read: a switch
define i8 @f(i8 %x) {
  switch i8 %x, label %a [
    i8 1, label %b
    i8 -1, label %b
  ], !prof !4
a:
  ret i8 0
b:
  unreachable
}

read: a switch without cases
define i8 @f(i8 %x) { switch i8 %x, label %a [ ] a: ret i8 %x }

read: a switch of one bit
define i8 @f(i1 %x) { switch i1 %x, label %a [ i1 true, label %b ] a: ret i8 0 b: ret i8 1 }

read: a phi
define i8 @f(i1 %c, i8 %x) {
  br i1 %c, label %a, label %b
a:
  br label %b
b:
  %r = phi i8 [ %x, %0 ], [ 7, %a ], !dbg !1
  ret i8 %r
}

read: phis and records
define i8 @f(i8 %x) {
e:
  br label %a
a:
  #dbg_value(i8 %x, !1, !2)
  %r = phi i8 [ %x, %e ]
  #dbg_value(i8 %x, !1, !2)
  %s = phi i8 [ poison, %e ], !dbg !1, !dbg !2
 %t = add i8 %r, %s
  ret i8 %t
}

read: a loop
define i8 @f(i8 %n) {
  br label %h
h:
  %i = phi i8 [ 0, %0 ], [ %j, %h ]
  %j = add i8 %i, 1
  %c = icmp ult i8 %j, %n
  br i1 %c, label %h, label %e
e:
  ret i8 %j
}

read: quoted labels
define void @f() { br label %\"a b\" \"a b\": unreachable }

read: a block that no jump enters
define void @f() { ret void a: ret void }";

#[test]
fn several_blocks(rt: HostRuntime) -> Result<(), Fail> {
    are_answered(rt.alloc(), SEVERAL_BLOCKS)
}

/// Jumps, and what may follow them.
const JUMPS: &str = "\
Unsupported@1:29: an operand without a type
define void @f() { br label a a: ret void }

Unsupported@1:23: no jump
define void @f() { br %a a: ret void }

Syntax@1:23: a number as a jump
define void @f() { br 1 a: ret void }

Unsupported@1:28: a condition of eight bits
define void @f(i8 %x) { br i8 %x, label %a, label %a a: ret void }

Limit@1:28: a condition of no width
define void @f(i8 %x) { br i65 %x, label %a, label %a a: ret void }

Unsupported@1:26: undef as a condition
define void @f() { br i1 undef, label %a, label %a a: ret void }

Syntax@1:44: one label after a condition
define void @f(i1 %c) { br i1 %c, label %a a: ret void }

Syntax@1:35: a name in the place of the word label
define void @f(i1 %c) { br i1 %c, %a, label %a a: ret void }";

#[test]
fn jumps(rt: HostRuntime) -> Result<(), Fail> {
    are_answered(rt.alloc(), JUMPS)
}

/// Switches and their cases.
const SWITCHES: &str = "\
Unsupported@1:32: a switch on a name
define void @f(i8 %x) { switch %x, label %a [ ] a: ret void }

Unsupported@1:50: a name where a case begins
define void @f(i8 %x) { switch i8 %x, label %a [ %x, label %a ] a: ret void }

Limit@1:50: a width past the limit where a case begins
define void @f(i8 %x) { switch i8 %x, label %a [ i65 1, label %a ] a: ret void }

Unsupported@1:53: a case of poison
define void @f(i8 %x) { switch i8 %x, label %a [ i8 poison, label %a ] a: ret void }

Syntax@1:53: a case of a name
define void @f(i8 %x) { switch i8 %x, label %a [ i8 %x, label %a ] a: ret void }

Unsupported@1:53: a truth value of eight bits
define void @f(i8 %x) { switch i8 %x, label %a [ i8 true, label %a ] a: ret void }

Limit@1:53: a case past its range
define void @f(i8 %x) { switch i8 %x, label %a [ i8 256, label %a ] a: ret void }

Syntax@1:64: cases by commas
define void @f(i8 %x) { switch i8 %x, label %a [ i8 1, label %a, i8 2, label %a ] a: ret void }";

#[test]
fn switches(rt: HostRuntime) -> Result<(), Fail> {
    are_answered(rt.alloc(), SWITCHES)
}

/// Where a block begins and ends.
const CUTS: &str = "\
Syntax@1:35: a block without a last instruction
define void @f() { br label %a a: }

Syntax@1:41: a label in the middle of a block
define i8 @f(i8 %x) { %r = add i8 %x, 1 a: ret i8 %r }

Unsupported@1:29: a second block without a label
define void @f() { ret void unreachable }

Unsupported@1:29: a record after the last instruction
define void @f() { ret void #dbg_value(i8 1) a: ret void }

Syntax@1:35: two labels
define void @f() { br label %a a: b: ret void }

Unsupported@1:32: a flag after the last instruction
define void @f() { unreachable nuw }

Syntax@1:34: an attachment after a label
define void @f() { br label %a a:, !dbg !1 ret void }";

#[test]
fn cuts(rt: HostRuntime) -> Result<(), Fail> {
    are_answered(rt.alloc(), CUTS)
}

/// Phis and their entries.
const PHIS: &str = "\
Unsupported@1:64: a phi after an instruction
define i8 @f(i8 %x) { e: br label %a a: %r = add i8 %x, 1 %s = phi i8 [ %x, %e ] ret i8 %s }

Unsupported@1:53: a phi without entries
define i8 @f(i8 %x) { e: br label %a a: %s = phi i8 ret i8 %s }

Syntax@1:50: a phi of no type
define i8 @f(i8 %x) { e: br label %a a: %s = phi [ %x, %e ] ret i8 %s }

Unsupported@1:55: undef in a phi
define i8 @f(i8 %x) { e: br label %a a: %s = phi i8 [ undef, %e ] ret i8 %s }

Unsupported@1:59: a label with its word in a phi
define i8 @f(i8 %x) { e: br label %a a: %s = phi i8 [ %x, label %e ] ret i8 %s }

Syntax@1:74: an entry after an attachment
define i8 @f(i8 %x) { e: br label %a a: %s = phi i8 [ %x, %e ], !dbg !1, [ %x, %e ] ret i8 %s }

Unsupported@1:65: nothing after the comma of a phi
define i8 @f(i8 %x) { e: br label %a a: %s = phi i8 [ %x, %e ], ret i8 %s }

Unsupported@1:65: an attachment of no name after a phi
define i8 @f(i8 %x) { e: br label %a a: %s = phi i8 [ %x, %e ], !foo !1 ret i8 %s }";

#[test]
fn phis(rt: HostRuntime) -> Result<(), Fail> {
    are_answered(rt.alloc(), PHIS)
}

/// Names, types, edges and assignments, each reason after the earlier ones.
const TESTED: &str = "\
NameTwice@1:47: a label twice
define void @f() { br label %a a: br label %b a: ret void b: ret void }

NameTwice@1:32: a label that is the entry's
define void @f() { br label %a 0: ret void a: ret void }

NameUnknown@1:29: a jump to no block
define void @f() { br label %a }

NameUnknown@1:34: a jump to a value
define void @f(i8 %x) { br label %x }

TypeClash@1:50: a case of another type
define void @f(i8 %x) { switch i8 %x, label %a [ i16 1, label %a ] a: ret void }

TypeClash@1:69: two equal cases
define void @f(i8 %x) { switch i8 %x, label %a [ i8 -1, label %a i8 255, label %a ] a: ret void }

PhiEdges@1:41: a phi of another block
define i8 @f(i8 %x) { e: br label %a a: %s = phi i8 [ %x, %a ] ret i8 %s }

PhiEdges@1:32: a jump to the entry
define void @f() { e: br label %e }

Unassigned@1:94: a name that one path doesn't assign
define i8 @f(i1 %c) { br i1 %c, label %a, label %b a: %r = add i8 1, 1 br label %b b: ret i8 %r }";

#[test]
fn tested(rt: HostRuntime) -> Result<(), Fail> {
    are_answered(rt.alloc(), TESTED)
}

/// A function with a switch of n cases, all equal.
fn switch_of(alloc: Global, cases: usize) -> Result<String, Fail> {
    let mut text = String::new(alloc);
    text.push_str("define void @f(i8 %x) { switch i8 %x, label %a [ ")?;
    for _ in 0..cases {
        text.push_str("i8 1, label %a ")?;
    }
    text.push_str("] a: ret void }")?;
    Ok(text)
}

fn is_switch_answered(alloc: Global, cases: usize, want: &str) -> Result<(), Fail> {
    let text = switch_of(alloc, cases)?;
    let found = answer(alloc, text.as_bytes())?;
    if found.as_str() == want {
        Ok(())
    } else {
        Err(Fail::new(format_args!("{found} for {cases} cases")))
    }
}

/// As many cases as a switch may have, which are refused for being equal, and one more.
#[test]
fn cases_up_to_the_limit(rt: HostRuntime) -> Result<(), Fail> {
    is_switch_answered(rt.alloc(), 256, "TypeClash@1:68")?;
    is_switch_answered(rt.alloc(), 257, "Limit@1:3890")
}

//! Whole modules, and how each is refused.

use crate::answers::are_answered;
use crate::expecting::expect;
use crate::made_functions::function_of;
use ir_reader::read;
use ir_tree::{Function, Inst, Operand};
use std::test::Fail;
use text_places::Place;

/// A token that cannot occur there: a word, a metadata, hash or global name, a float, a hexadecimal
/// number, a string, a mark of another form, or a local name where a type begins, is unsupported.
const WORDS: &str = "\
Unsupported@2:8
define i8 @f(i8 %x) {
  %r = va_arg ptr %x, i8
  ret i8 %r }

Unsupported@2:3
define i8 @f(i8 %x) {
  call void @g()
  ret i8 %x }

Unsupported@2:12
define i8 @f(i8 %x) {
  %r = add %x %x, 1
  ret i8 %r }

Unsupported@2:19
define i8 @f(i8 %x) {
  %r = add i8 %x, 1.5
  ret i8 %r }

Unsupported@2:19
define i8 @f(i8 %x) {
  %r = add i8 %x, 0x12
  ret i8 %r }

Unsupported@2:12
define i8 @f(i8 %x) {
  %r = add <2 x i8> %x, 1
  ret i8 %r }

Unsupported@2:15
define i8 @f(i8 %x) {
  %r = add i8 @g, 1
  ret i8 %r }

Unsupported@2:6
define i8 @f(i8 %x) {
  %r add i8 %x, 1
  ret i8 %r }

Unsupported@1:21
define i8 @f(i8 %x, ...) { ret i8 %x }

Unsupported@1:8
define { i8 } @f(i8 %x) { ret i8 %x }

Unsupported@1:8
define %t @f(i8 %x) { ret i8 %x }

Unsupported@1:14
define i8 @f(%t %x) { ret i8 %x }

Unsupported@1:27
define i8 @f(i8 %x) { ret %x }

Unsupported@1:33
define i8 @f(i8 %x) { ret i8 %x ret i8 %x }

Unsupported@1:8
define float @f(float %x) { ret float %x }";

#[test]
fn words(rt: HostRuntime) -> Result<(), Fail> {
    are_answered(rt.alloc(), WORDS)
}

/// Any other token, and the closing mark.
const MISTAKES: &str = "\
Syntax@1:23
define void @f() { a: b: ret void }

Syntax@1:41
define i8 @f(i8 %x) { %r = freeze i8 %x a: ret i8 %r }

Syntax@1:17
define i8 @f(i8,) { ret i8 0 }

Syntax@1:25
define i8 @f() nounwind ($c) { ret i8 0 }

Syntax@1:30
define i8 @f(i8 %x) { #dbg_(), !dbg !1 ret i8 %x }

Syntax@1:31
define i8 @f(i8 %x) { #dbg_() a: ret i8 %x }

Syntax@3:1
define i8 @f(i8 %x) {
  %r = add i8 %x
}

Syntax@1:33
define i8 @f(i8 %x) { ret i8 %x %x }

Syntax@1:33
define i8 @f(i8 %x) { ret i8 %x 7 }

Syntax@1:18
define i8 @f() { }

Syntax@1:25
define i8 @f() { ret i8 }";

#[test]
fn mistakes(rt: HostRuntime) -> Result<(), Fail> {
    are_answered(rt.alloc(), MISTAKES)
}

/// Widths, literals and parameters past their limits.
const LIMITS: &str = "\
Limit@1:39
define i8 @f(i8 %x) { %r = xor i8 %x, -129 ret i8 %r }

Limit@1:25
define i8 @f() { ret i8 256 }

Limit@1:8
define i65 @f() { ret i65 0 }

Limit@1:8
define i00 @f() { ret i65 0 }

Limit@1:25
define i1 @f() { ret i1 2 }

Limit@1:35
define i8 @f(i8 %x) { %r = select i65 %x, i8 %x, i8 1 ret i8 %r }

Limit@1:148
define i8 @f(i8 %p0, i8 %p1, i8 %p2, i8 %p3, i8 %p4, i8 %p5, i8 %p6, i8 %p7, i8 %p8, i8 %p9, i8 \
    %p10, i8 %p11, i8 %p12, i8 %p13, i8 %p14, i8 %p15, i8 %p16) { ret i8 %p0 }";

#[test]
fn limits(rt: HostRuntime) -> Result<(), Fail> {
    are_answered(rt.alloc(), LIMITS)
}

/// Forms with a flag, an attribute or an attachment that they do not have.
const FORMS: &str = "\
Unsupported@1:14
define i8 @f(void %x) { ret i8 0 }

Unsupported@1:33
define i1 @f(i8 %x) { %r = icmp lt i8 %x, 1 ret i1 %r }

Unsupported@1:31
define i8 @f() { %r = udiv i8 undef, 1 ret i8 %r }

Unsupported@1:25
define i8 @f() { ret i8 true }

Unsupported@1:36
define i8 @f(i8 %x) { %r = shl nuw nuw i8 %x, 1 ret i8 %r }

Unsupported@1:33
define i8 @f(i8 %x) { %r = urem exact i8 %x, 1 ret i8 %r }

Unsupported@1:32
define i8 @f(i8 %x) { %r = and disjoint i8 %x, 1 ret i8 %r }

Unsupported@1:38
define i4 @f(i8 %x) { %r = trunc nsw nuw i8 %x to i4 ret i4 %r }

Unsupported@1:33
define i9 @f(i8 %x) { %r = sext nneg i8 %x to i9 ret i9 %r }

Unsupported@1:35
define i8 @f(i8 %x) { %r = select i8 %x, i8 %x, i8 1 ret i8 %r }

Unsupported@1:35
define i8 @f(i8 %x) { %r = select %x, i8 %x, i8 1 ret i8 %r }

Unsupported@1:17
define i8 @f(i8 nonnull %x) { ret i8 %x }

Unsupported@1:20
define i8 @f(i8 %x noundef) { ret i8 %x }

Unsupported@1:8
define inline i8 @f() { ret i8 0 }

Unsupported@1:16
define i8 @f() #-1 { ret i8 0 }

Unsupported@1:16
define i8 @f() !prof !1 { ret i8 0 }

Unsupported@1:21
define i8 @f() !dbg !x { ret i8 0 }

Unsupported@1:16
define i8 @f() gc \"a\" { ret i8 0 }

Unsupported@1:42
define i8 @f(i8 %x) { %r = freeze i8 %x, !foo !1 ret i8 %r }

Unsupported@1:42
define i8 @f(i8 %x) { %r = freeze i8 %x, align 1 ret i8 %r }

Unsupported@1:39
define i8 @f(i8 %x) { ret i8 %x, !dbg !-1 }

Unsupported@1:34
define i8 @f(i8 %x) { #dbg_value ret i8 %x }

Unsupported@1:23
define i8 @f(i8 %x) { #dbg() ret i8 %x }";

#[test]
fn forms(rt: HostRuntime) -> Result<(), Fail> {
    are_answered(rt.alloc(), FORMS)
}

/// Names that are defined twice or not at all.
const NAMES: &str = "\
NameTwice@1:23
define i8 @f(i8 %0) { %1 = add i8 %0, 1 ret i8 %1 }

NameTwice@1:23
define i8 @f(i8 %x) { %0 = add i8 %x, 1 ret i8 %0 }

NameTwice@1:23
define i8 @f(i8 %9) { %10 = add i8 %9, 1 ret i8 %10 }

NameUnknown@1:35
define i8 @f(i8 %x) { %r = add i8 %s, 1 ret i8 %r }

NameTwice@1:23
define i8 @f(i8 %x) { x: ret i8 %x }

NameUnknown@1:33
define i8 @f(i8 %x) { a: ret i8 %a }

NameTwice@1:27
define i8 @f(i8 %0) { 01: %1 = add i8 %0, 1 ret i8 %1 }

NameUnknown@1:31
define i8 @f(i8, i8) { ret i8 %2 }

NameTwice@1:21
define i8 @f(i8, i8 %0) { ret i8 %0 }

NameTwice@3:3
define i8 @f(i8 %x) {
  %r = add i8 %s, 1
  %r = add i16 %x, 1
  ret void }

NameUnknown@3:15
define i8 @f(i8 %x) {
  %r = add i16 %x, 1
  %s = add i8 %t, 1
  ret void }";

#[test]
fn names(rt: HostRuntime) -> Result<(), Fail> {
    are_answered(rt.alloc(), NAMES)
}

/// Types other than those that are required, and names without a value yet.
const TYPES: &str = "\
TypeClash@1:24
define void @f() { ret i8 0 }

TypeClash@1:22
define i8 @f() { ret void }

TypeClash@1:54
define i8 @f(i8 %x) { %r = icmp sle i8 %x, -1 ret i8 %r }

TypeClash@1:43
define i8 @f(i8 %x) { %r = trunc i8 %x to i8 ret i8 %r }

TypeClash@1:42
define i9 @f(i8 %x) { %r = sext i8 %x to i7 ret i9 %r }

TypeClash@1:56
define i8 @f(i1 %c, i8 %x) { %r = select i1 %c, i8 %x, i9 1 ret i8 %r }

TypeClash@3:16
define i8 @f(i8 %x) {
  %r = add i8 %r, 1
  %s = add i16 %x, 1
  ret i8 %r }

Unassigned@2:19
define i8 @f(i8 %x) {
  %r = add i8 %x, %s
  %s = add i8 %x, 1
  ret i8 %r }

Unassigned@2:15
define i8 @f(i8 %x) {
  %r = add i8 %r, 1
  ret i8 %r }";

#[test]
fn types(rt: HostRuntime) -> Result<(), Fail> {
    are_answered(rt.alloc(), TYPES)
}

/// Functions that are read.
const FUNCTIONS: &str = "\
read
define i8 @f(i8 %x) { %r = xor i8 %x, -128 ret i8 %r }

read
define i08 @f() { ret i8 255 }

read
define i8 @f(i8 %0) { %2 = add i8 %0, 1 ret i8 %2 }

read
define i8 @f(i8 %05) { ret i8 %5 }

read
define void @f() { ret void }

read
define void @f() { entry: ret void }

read
define i8 @f(i8 %0) { a: %1 = add i8 %0, 1 ret i8 %1 }

read
define i1 @f(i8 %x) { %r = icmp sle i8 %x, -1 ret i1 %r }

read
define i8 @f() { %r = freeze i8 undef ret i8 %r }

read
define i8 @f() { %r = add i8 poison, 1 ret i8 undef }

read
define i1 @f() { %r = xor i1 true, false ret i1 %r }

read
define i8 @f(i8 %x) { %r = add nsw nuw i8 %x, 1 ret i8 %r }

read
define i8 @f(i8 %x) { %r = udiv exact i8 %x, 1 ret i8 %r }

read
define i8 @f(i8 %x) { %r = or disjoint i8 %x, 1 ret i8 %r }

read
define i1 @f(i8 %x) { %r = icmp samesign ult i8 %x, 1 ret i1 %r }

read
define i4 @f(i8 %x) { %r = trunc nuw nsw i8 %x to i4 ret i4 %r }

read
define i9 @f(i8 %x) { %r = zext nneg i8 %x to i9 ret i9 %r }

read
define i8 @f(i1 %c, i8 %x) { %r = select i1 %c, i8 %x, i8 1 ret i8 %r }

read
define i8 @f(i8 noundef zeroext signext zeroext %x) { ret i8 %x }

read
define i8 @f(i8, i8 %3, i8) { ret i8 %4 }

read
define internal noundef zeroext i8 @f() { ret i8 0 }

read
define i8 @f() unnamed_addr #0 comdat($c) comdat nounwind !dbg !7 { ret i8 0 }

read
define i8 @f(i8 %x) { %r = freeze i8 %x, !dbg !1, !prof !2 ret i8 %r, !llvm.loop !3 }

read
define i8 @f(i8 %x) { #dbg_value(i8 %x, !{[1]}, (2)) %r = freeze i8 %x #dbg_declare() ret i8 %r }

read
define i8 @f(i8 %p0, i8 %p1, i8 %p2, i8 %p3, i8 %p4, i8 %p5, i8 %p6, i8 %p7, i8 %p8, i8 %p9, i8 \
    %p10, i8 %p11, i8 %p12, i8 %p13, i8 %p14, i8 %p15) { ret i8 %p0 }";

#[test]
fn functions(rt: HostRuntime) -> Result<(), Fail> {
    are_answered(rt.alloc(), FUNCTIONS)
}

/// Where a text is no tokens or no items.
const FAULTS: &str = "\
no-token@1:27
define i8 @f() { ret i8 0 ?

no-item@1:3
  ret

no-item@1:35
define i8 @f(i8 %x) { ret i8 %x } }

bracket@2:18
define i8 @f(i8 %x) {
  %r = add i8 %x ]

name-twice@1:40
define i8 @05() { ret i8 0 } define i8 @5() { ret i8 0 }

data-layout@1:21
target datalayout = \"E-m:e\"

nothing
; nothing

text-ends@2:1
define i8 @f() {\n";

#[test]
fn faults(rt: HostRuntime) -> Result<(), Fail> {
    are_answered(rt.alloc(), FAULTS)
}

/// Where the first instruction of a function puts its result, and its operands.
fn first_inst(function: &Function) -> Option<(usize, Operand, Operand)> {
    match function
        .blocks
        .as_slice()
        .first()?
        .insts
        .as_slice()
        .first()?
    {
        Inst::Binary {
            into,
            left,
            right,
            ..
        } => Some((*into, *left, *right)),
        Inst::Icmp { .. } | Inst::Cast { .. } | Inst::Select { .. } | Inst::Freeze { .. } => None,
        Inst::Alloca { .. } | Inst::Load { .. } => None,
        Inst::Store { .. } | Inst::GetElementPtr { .. } => None,
    }
}

#[test]
fn numbers_of_names(rt: HostRuntime) -> Result<(), Fail> {
    let text = "define i8 @f(i8 %x) {\n  %r = sub i8 %x, 1\n  ret i8 %r\n}";
    let module = read(rt.alloc(), text.as_bytes())?;
    let first = match module.entries.as_slice() {
        [entry] => match &entry.function {
            Ok(function) => first_inst(function),
            Err(_) => None,
        },
        _ => None,
    };
    let expected = Some((2, Operand::Local(0), Operand::Number(1)));
    expect(first == expected, "numbers of names")
}

/// A function whose names are numbered has the position of `%r`, after those of its type, its name,
/// its parameter's type and name, and its brace.
#[test]
fn positions_of_parts(rt: HostRuntime) -> Result<(), Fail> {
    let text = "define i8 @f(i8 %x) {\n  %r = sub i8 %x, 1\n  ret i8 %r\n}";
    let function = function_of(rt.alloc(), text)?;
    let place = function.places.as_slice().get(5).copied();
    expect(
        place == Some(Place { line: 2, column: 3 }),
        "positions of parts",
    )
}

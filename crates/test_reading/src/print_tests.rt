//! Modules as they are printed. The texts were written by hand from the forms of the LLVM Language
//! Reference; LLVM's own parser takes them (`tools/test`), before LLVM 20 without `samesign`.

use crate::expecting::expect;
use ir_printer::{make, print};
use ir_reader::read;
use std::alloc::Global;
use std::test::*;

/// A text that is read, and what is printed of it.
struct Row {
    name: &'static str,
    text: &'static str,
    printed: &'static str,
}

const INTEGERS: &str = "define noundef i8 @integers(i8 noundef %x, i1 %c) {\nentry:\n  \
     %a = add i8 %x, 255\n  %b = sub nuw i8 %a, 0\n  %d = mul nuw nsw i8 %b, %a\n  \
     %e = udiv exact i8 %d, 3\n  %f = sdiv i8 %e, 2\n  %g = urem i8 %f, 7\n  \
     %h = srem i8 %g, 5\n  %i = shl nsw i8 %h, 1\n  %j = lshr exact i8 %i, 1\n  \
     %k = ashr i8 %j, 1\n  %l = and i8 %k, 15\n  %m = or disjoint i8 %l, 16\n  \
     %n = xor i8 %m, 1\n  %o = icmp samesign ult i8 %n, 9\n  %p = trunc nuw nsw i8 %n to i4\n  \
     %q = zext nneg i4 %p to i8\n  %r = sext i4 %p to i8\n  %s = select i1 %c, i8 %q, i8 poison\n  \
     %t = freeze i8 undef\n  ret i8 %s\n}\n";

const JUMPS: &str = "define void @jumps(i8 %x) {\nentry:\n  br label %loop\nloop:\n  \
     %i = phi i8 [ 0, %entry ], [ %j, %loop ]\n  %j = add i8 %i, 1\n  %c = icmp slt i8 %j, %x\n  \
     br i1 %c, label %loop, label %next\nnext:\n  \
     switch i8 %x, label %none [ i8 3, label %a i8 4, label %none ]\na:\n  unreachable\nnone:\n  \
     ret void\n}\n";

const MEMORY: &str = "define ptr @memory(ptr nonnull %p, ptr %q) {\nentry:\n  \
     %a = alloca [4 x [2 x i16]], align 8\n  %l = load i32, ptr %p, align 2\n  \
     store ptr null, ptr %a, align 1\n  %g = getelementptr inbounds nuw [3 x i8], ptr %q, i64 1, i8 2\n  \
     %h = getelementptr i8, ptr %g, i32 %l\n  ret ptr %h\n}\n";

const WIDTHS: &str = "define void @widths(ptr %p) {\nentry:\n  %l = load i1, ptr %p\n  \
     store i24 66051, ptr %p\n  %a = alloca [3 x i5]\n  %g = getelementptr i48, ptr %p, i64 1\n  \
     ret void\n}\n";

const ALIGNED_WIDTHS: &str = "define void @widths(ptr %p) {\nentry:\n  \
     %l = load i1, ptr %p, align 1\n  store i24 66051, ptr %p, align 4\n  \
     %a = alloca [3 x i5], align 1\n  %g = getelementptr i48, ptr %p, i64 1\n  ret void\n}\n";

const ROWS: [Row; 8] = [
    Row {
        name: "no function",
        text: "; nothing\n",
        printed: "",
    },
    Row {
        name: "integers",
        text: INTEGERS,
        printed: INTEGERS,
    },
    Row {
        name: "jumps",
        text: JUMPS,
        printed: JUMPS,
    },
    Row {
        name: "memory",
        text: MEMORY,
        printed: MEMORY,
    },
    Row {
        name: "widths in memory",
        text: WIDTHS,
        printed: ALIGNED_WIDTHS,
    },
    Row {
        name: "names that are not written",
        text: "define i8 @0(i8, i8 signext %3) { %5 = add i8 %0, %3, !dbg !1 ret i8 %5 }",
        printed: "define i8 @0(i8 %0, i8 %3) {\n4:\n  %5 = add i8 %0, %3\n  ret i8 %5\n}\n",
    },
    Row {
        name: "names in quotes, literals, alignments",
        text: "define dso_local i1 @\"a b\"() local_unnamed_addr #0 {\n\"5\":\n  %\"\\01\" = load i64, ptr null\n  ret i1 true\n}",
        printed: "define i1 @\"a b\"() {\n\"5\":\n  %\"\\01\" = load i64, ptr null, align 8\n  ret i1 1\n}\n",
    },
    Row {
        name: "two functions, and other items",
        text: "define void @f() { ret void }\ndeclare void @x()\ndefine i4 @g() { ret i4 -1 }",
        printed: "define void @f() {\n0:\n  ret void\n}\n\ndefine i4 @g() {\n0:\n  ret i4 15\n}\n",
    },
];

fn is_printed(alloc: Global, row: &Row) -> Result<bool, Fail> {
    let module = read(alloc, row.text.as_bytes())?;
    let text = print(alloc, &module)?;
    Ok(text.as_slice() == row.printed.as_bytes())
}

#[test]
fn modules_are_printed(rt: HostRuntime) -> Result<(), Fail> {
    for row in &ROWS {
        expect(is_printed(rt.alloc(), row)?, row.name)?;
    }
    Ok(())
}

const SOURCE: &str = "define i8 @m0(i8 %a, i8 %b) {\nentry:\n  %r0 = or i8 %a, %b\n  \
     %r1 = sub i8 %r0, %a\n  ret i8 %r1\n}\n\n\
     define i8 @m1(i8 %a, i8 %b) {\nentry:\n  %r0 = and i8 %a, %b\n  \
     %r1 = xor i8 %a, %r0\n  ret i8 %r1\n}\n";

const TARGET: &str = "define i8 @m0(i8 %a, i8 %b) {\nentry:\n  %r0 = or i8 %b, %a\n  \
     %r1 = sub i8 %a, %r0\n  ret i8 %r1\n}\n\n\
     define i8 @m1(i8 %a, i8 %b) {\nentry:\n  %r0 = and i8 %b, %a\n  \
     %r1 = xor i8 %r0, %a\n  ret i8 %r1\n}\n";

/// The pair of seed 1, whose draws were worked out outside.
#[test]
fn a_pair_is_made(rt: HostRuntime) -> Result<(), Fail> {
    let (source, target) = make(rt.alloc(), 1, 2, 2)?;
    let source = print(rt.alloc(), &source)?;
    let target = print(rt.alloc(), &target)?;
    assert!(rt; source.as_slice() == SOURCE.as_bytes());
    expect(target.as_slice() == TARGET.as_bytes(), "a pair is made")
}

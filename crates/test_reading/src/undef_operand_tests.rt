//! Where undef may be an operand, and where a name that carries it may be used (LLVM Language
//! Reference, "Undefined Values").
use crate::answers::are_answered;
use std::test::Fail;

/// Operands that may be undef.
const ALLOWED: &str = "\
read: each operation that does not divide
define i8 @f(i8 %x) {
  %a = add nuw nsw i8 undef, %x
  %b = sub i8 %a, undef
  %c = mul i8 undef, 3
  %d = shl i8 %b, undef
  %e = lshr exact i8 undef, 1
  %g = ashr i8 %e, undef
  %h = and i8 undef, %d
  %i = or disjoint i8 undef, undef
  %j = xor i8 %h, undef
  ret i8 %j
}

read: a comparison
define i1 @f(i8 %x) { %r = icmp samesign ult i8 undef, %x %s = icmp eq i8 %x, undef ret i1 %r }

read: casts
define i9 @f() { %r = trunc nuw i8 undef to i4 %s = zext nneg i8 undef to i9 %t = sext i8 \
    undef to i9 ret i9 %t }

read: a select of integers
define i8 @f(i1 %c, i8 %x) { %r = select i1 undef, i8 undef, i8 %x %s = select i1 %c, i8 %x, \
    i8 undef ret i8 %s }

read: a select of pointers without undef
define ptr @f(i1 %c, ptr %p) { %r = select i1 %c, ptr %p, ptr null ret ptr %r }

read: a freeze and a return
define ptr @f() { %r = freeze i8 undef %s = freeze ptr undef ret ptr undef }";

#[test]
fn undef_may_be_an_operand(rt: HostRuntime) -> Result<(), Fail> {
    are_answered(rt.alloc(), ALLOWED)
}

/// Operands that may not, and arms of a select on undef that are no integers.
const REFUSED: &str = "\
Unsupported@1:40: a divisor
define i8 @f(i8 %x) { %r = udiv i8 %x, undef ret i8 %r }

Unsupported@1:42: a dividend
define i8 @f(i8 %x) { %r = sdiv exact i8 undef, %x ret i8 %r }

Unsupported@1:36: an unsigned remainder
define i8 @f(i8 %x) { %r = urem i8 undef, %x ret i8 %r }

Unsupported@1:40: a signed remainder
define i8 @f(i8 %x) { %r = srem i8 %x, undef ret i8 %r }

Unsupported@1:55: the first arm of a select of pointers
define ptr @f(i1 %c, ptr %p) { %r = select i1 %c, ptr undef, ptr %p ret ptr %r }

Unsupported@1:63: the second arm
define ptr @f(i1 %c, ptr %p) { %r = select i1 %c, ptr %p, ptr undef ret ptr %r }

Unsupported@1:47: ptr in the first arm after undef as the condition
define ptr @f(ptr %p) { %r = select i1 undef, ptr %p, ptr %p ret ptr %r }

Unsupported@1:52: ptr in the second arm
define i8 @f(ptr %p) { %r = select i1 undef, i8 1, ptr %p ret i8 %r }

Limit@1:40: a width past the limit in an arm after undef
define i8 @f() { %r = select i1 undef, i65 1, i8 1 ret i8 %r }

Unsupported@1:45: a name where the type of an arm begins
define i8 @f(i8 %x) { %r = select i1 undef, %x, i8 1 ret i8 %r }

Syntax@1:45: a number where it begins
define i8 @f(i8 %x) { %r = select i1 undef, 1, i8 1 ret i8 %r }

Unsupported@1:55: a phi
define i8 @f(i8 %x) { e: br label %a a: %s = phi i8 [ undef, %e ] ret i8 %s }

Unsupported@1:30: a switch
define void @f() { switch i8 undef, label %a [ ] a: ret void }

Unsupported@1:53: a case
define void @f(i8 %x) { switch i8 %x, label %a [ i8 undef, label %a ] a: ret void }

Unsupported@1:35: a value that is stored
define void @f(ptr %p) { store i8 undef, ptr %p ret void }

Unsupported@1:42: a pointer that is stored to
define void @f(i8 %x) { store i8 %x, ptr undef ret void }

Unsupported@1:51: a base
define ptr @f(i8 %x) { %r = getelementptr i8, ptr undef, i8 %x ret ptr %r }

Unsupported@1:59: an index
define ptr @f(ptr %p) { %r = getelementptr i8, ptr %p, i8 undef ret ptr %r }

TypeClash@1:59: arms of two types, where the second may be undef
define ptr @f(i1 %c, ptr %p) { %r = select i1 %c, ptr %p, i8 undef ret ptr %r }

TypeClash@1:50: arms of two integer types after undef
define i8 @f() { %r = select i1 undef, i8 undef, i9 undef ret i8 %r }";

#[test]
fn undef_may_not_be_an_operand(rt: HostRuntime) -> Result<(), Fail> {
    are_answered(rt.alloc(), REFUSED)
}

/// Uses of names that carry undef.
const USES: &str = "\
UndefUse@1:77: a phi
define i8 @f(i8 %x) { e: %a = and i8 %x, undef br label %b b: %s = phi i8 [ %a, %e ] ret i8 %s }

UndefUse@1:57: a branch
define void @f(i8 %x) { %a = icmp eq i8 undef, %x br i1 %a, label %b, label %b b: ret void }

UndefUse@1:56: a switch
define void @f(i8 %x) { %a = or i8 %x, undef switch i8 %a, label %b [ ] b: ret void }

UndefUse@1:62: a divisor
define i8 @f(i8 %x) { %a = and i8 %x, undef %b = udiv i8 %x, %a ret i8 %b }

UndefUse@1:72: a select of pointers
define i8 @f(i8 %x, ptr %p) { %a = icmp eq i8 %x, undef %b = select i1 %a, ptr %p, ptr null %c \
    = load i8, ptr %b ret i8 %c }

UndefUse@1:76: a value that is stored
define void @f(i8 %x, ptr %p) { %a = select i1 undef, i8 %x, i8 0 store i8 %a, ptr %p ret void }

UndefUse@1:88: an index
define ptr @f(i8 %x, ptr %p) { %a = xor i8 undef, %x %b = getelementptr i8, ptr %p, i8 %a ret \
    ptr %b }

UndefUse@1:83: a return of noundef
define noundef i4 @f(i8 %x) { %a = add i8 %x, undef %b = trunc i8 %a to i4 ret i4 %b }

UndefUse@1:138: 65 leaves
define i8 @f() { %b = add i8 undef, undef %c = add i8 %b, %b %d = add i8 %c, %c %e = add i8 \
    %d, %d %g = add i8 %e, %e %h = add i8 %g, %g %i = add i8 %h, undef ret i8 %i }

Unassigned@1:77: a name without a value first
define i8 @f(i8 %x) { %a = and i8 %x, undef %b = udiv i8 %x, %a %c = add i8 %d, %a %d = add i8 \
    %x, 1 ret i8 %c }";

#[test]
fn a_name_that_carries_undef_is_refused(rt: HostRuntime) -> Result<(), Fail> {
    are_answered(rt.alloc(), USES)
}

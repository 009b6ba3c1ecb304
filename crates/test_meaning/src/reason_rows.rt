//! Rows of reasons: the argument, the steps that have a reason with their reasons, and the function.

/// One for each reason, and steps that have none.
pub const REASONS: &str = "\
255 | Inst(0) Flag(NoUnsignedWrap) | \
    define i8 @f(i8 %x) { %r = add nuw i8 %x, 1 ret i8 %r }
127 | Inst(0) Flag(NoSignedWrap) | \
    define i8 @f(i8 %x) { %r = add nsw nuw i8 %x, 1 ret i8 %r }
127 | none | \
    define i8 @f(i8 %x) { %r = add nuw i8 %x, 1 ret i8 %r }
0 | Inst(0) Flag(NoUnsignedWrap) | \
    define i8 @f(i8 %x) { %r = sub nuw i8 %x, 1 ret i8 %r }
64 | Inst(0) Flag(NoSignedWrap) | \
    define i8 @f(i8 %x) { %r = mul nsw i8 %x, 2 ret i8 %r }
8 | Inst(0) ShiftPastWidth | \
    define i8 @f(i8 %x) { %r = shl nuw nsw i8 1, %x ret i8 %r }
7 | Inst(0) Flag(NoSignedWrap) | \
    define i8 @f(i8 %x) { %r = shl nsw i8 1, %x ret i8 %r }
1 | Inst(0) Flag(Exact) | \
    define i8 @f(i8 %x) { %r = lshr exact i8 3, %x ret i8 %r }
9 | Inst(0) ShiftPastWidth | \
    define i8 @f(i8 %x) { %r = ashr exact i8 3, %x ret i8 %r }
7 | Inst(0) Flag(Exact) | \
    define i8 @f(i8 %x) { %r = udiv exact i8 %x, 2 ret i8 %r }
1 | Inst(0) Flag(Disjoint) | \
    define i8 @f(i8 %x) { %r = or disjoint i8 %x, 1 ret i8 %r }
200 | Inst(0) Flag(NonNegative) | \
    define i16 @f(i8 %x) { %r = zext nneg i8 %x to i16 ret i16 %r }
16 | Inst(0) Flag(NoUnsignedWrap) | \
    define i4 @f(i8 %x) { %r = trunc nuw i8 %x to i4 ret i4 %r }
200 | Inst(0) Flag(SameSign) | \
    define i1 @f(i8 %x) { %r = icmp samesign ult i8 %x, 1 ret i1 %r }
2 | Inst(1) Flag(Inbounds) | \
    define ptr @f(i64 %x) { %p = alloca i8, align 1 \
    %q = getelementptr inbounds i8, ptr %p, i64 %x ret ptr %q }
1 | Inst(2) Flag(NoUnsignedWrap) | \
    define ptr @f(i64 %x) { %p = alloca i16, align 2 \
    %q = getelementptr inbounds i8, ptr %p, i64 %x \
    %r = getelementptr inbounds nuw i8, ptr %q, i64 -1 ret ptr %r }
1 | Inst(0) PoisonOperand | \
    define i8 @f(i8 %x) { %r = add i8 %x, poison ret i8 %r }
1 | Inst(0) PoisonOperand | \
    define i8 @f(i1 %x) { %r = select i1 %x, i8 poison, i8 1 ret i8 %r }
0 | none | \
    define i8 @f(i1 %x) { %r = select i1 %x, i8 poison, i8 1 ret i8 %r }
poison | none | \
    define i8 @f(i8 %x) { %r = add nuw i8 %x, 1 ret i8 %r }
poison | none | \
    define i8 @f(i8 %x) { %a = freeze i8 %x %r = add nuw i8 %a, 1 ret i8 %r }
1 | Terminator PoisonOperand | \
    define i8 @f(i8 %x) { ret i8 poison }
1 | none | \
    define i8 @f(i8 %x) { ret i8 undef }
1 | Phi(0) PoisonOperand | \
    define i8 @f(i8 %x) { br label %l l: %r = phi i8 [ poison, %0 ] ret i8 %r }
1 | Inst(1) LoadedPoison | \
    define i8 @f(i8 %x) { %p = alloca i8, align 1 %r = load i8, ptr %p, align 1 ret i8 %r }
0 | Inst(0) DivisionByZero | \
    define i8 @f(i8 %x) { %r = udiv i8 1, %x ret i8 %r }
0 | Inst(0) DivisionByZero | \
    define i8 @f(i8 %x) { %r = srem i8 1, %x ret i8 %r }
poison | Inst(0) PoisonDivisor | \
    define i8 @f(i8 %x) { %r = udiv i8 1, %x ret i8 %r }
128 | Inst(0) DivisionOverflow | \
    define i8 @f(i8 %x) { %r = sdiv i8 %x, -1 ret i8 %r }
poison | Inst(0) PoisonDividend | \
    define i8 @f(i8 %x) { %r = sdiv i8 %x, -1 ret i8 %r }
poison | Inst(0) PoisonAddress | \
    define i8 @f(ptr %x) { %r = load i8, ptr %x, align 1 ret i8 %r }
null+0 | Inst(0) NullAddress | \
    define i8 @f(ptr %x) { %r = load i8, ptr %x, align 1 ret i8 %r }
given1+0 | Inst(0) DeadBlock | \
    define i8 @f(ptr %x) { store i8 1, ptr %x, align 1 ret i8 1 }
1 | Inst(1) PastEnd | \
    define i8 @f(i8 %x) { %p = alloca i8, align 1 store i16 1, ptr %p, align 1 ret i8 1 }
1 | Inst(1) Misaligned | \
    define i8 @f(i8 %x) { %p = alloca i16, align 1 store i16 1, ptr %p, align 2 ret i8 1 }
poison | Terminator PoisonCondition | \
    define i8 @f(i1 %x) { br i1 %x, label %a, label %b a: ret i8 1 b: ret i8 2 }
poison | Terminator PoisonCondition | \
    define i8 @f(i8 %x) { switch i8 %x, label %a [ i8 1, label %b ] a: ret i8 1 b: ret i8 2 }
1 | Terminator Unreachable | \
    define i8 @f(i8 %x) { unreachable }
poison | Terminator PoisonReturn | \
    define noundef i8 @f(i8 %x) { ret i8 %x }
poison | Parameter(0) PoisonArgument | \
    define i8 @f(i8 noundef %x) { ret i8 %x }
null+0 | Parameter(0) NullArgument | \
    define ptr @f(ptr nonnull %x) { ret ptr %x }
1 | Terminator TooManyJumps | \
    define i8 @f(i8 %x) { br label %l l: br label %l }
";

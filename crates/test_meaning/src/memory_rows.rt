//! Rows of runs with memory. Their answers were worked out by hand from the LLVM Language Reference.
//!
//! A row of a function is its name, the argument, how the run ends, and the function. The block 1
//! has the bytes 1 to 8 and is aligned to 16 bytes.

/// Loads and stores.
pub const ACCESSES: &str = "\
the first byte is the least significant one | given1+0 | 0x04030201 | \
    define i32 @f(ptr %x) { %a = load i32, ptr %x, align 4 ret i32 %a }
the last two bytes | given1+0 | 0x0807 | \
    define i16 @f(ptr %x) { \
    %a = getelementptr i8, ptr %x, i64 6 \
    %b = load i16, ptr %a, align 2 ret i16 %b }
one byte past the end | given1+0 | ub | \
    define i16 @f(ptr %x) { \
    %a = getelementptr i8, ptr %x, i64 7 \
    %b = load i16, ptr %a, align 1 ret i16 %b }
a store one byte past the end | given1+0 | ub | \
    define ptr @f(ptr %x) { \
    %a = getelementptr i8, ptr %x, i64 5 \
    store i32 0, ptr %a, align 1 ret ptr %x }
an offset that is not aligned | given1+0 | ub | \
    define i32 @f(ptr %x) { \
    %a = getelementptr i8, ptr %x, i64 2 \
    %b = load i32, ptr %a, align 4 ret i32 %b }
the same offset at half the alignment | given1+0 | 0x06050403 | \
    define i32 @f(ptr %x) { \
    %a = getelementptr i8, ptr %x, i64 2 \
    %b = load i32, ptr %a, align 2 ret i32 %b }
a block that is not aligned | given1+0 | ub | \
    define ptr @f(ptr %x) { \
    %a = alloca [8 x i8], align 4 \
    store i64 5, ptr %a, align 8 ret ptr %x }
the same block at its alignment | given1+0 | 5 | \
    define i64 @f(ptr %x) { \
    %a = alloca [8 x i8], align 4 \
    store i64 5, ptr %a, align 4 \
    %b = load i64, ptr %a, align 4 ret i64 %b }
a number is stored with its low byte first | given1+0 | 0x34 | \
    define i8 @f(ptr %x) { \
    store i16 4660, ptr %x, align 2 \
    %a = load i8, ptr %x, align 1 ret i8 %a }
what a store leaves as it was | given1+0 | 0x04031234 | \
    define i32 @f(ptr %x) { \
    store i16 4660, ptr %x, align 2 \
    %a = load i32, ptr %x, align 4 ret i32 %a }
a store of poison | given1+0 | poison | \
    define i8 @f(ptr %x) { \
    store i16 poison, ptr %x, align 2 \
    %a = getelementptr i8, ptr %x, i64 1 \
    %b = load i8, ptr %a, align 1 ret i8 %b }
bytes of a number and poison | given1+0 | poison | \
    define i16 @f(ptr %x) { \
    store i8 poison, ptr %x, align 1 \
    %a = load i16, ptr %x, align 2 ret i16 %a }
memory that was not stored to | given1+0 | poison | \
    define i32 @f(ptr %x) { \
    %a = alloca [4 x i8], align 4 \
    %b = load i32, ptr %a, align 4 ret i32 %b }
a pointer that was stored | given1+0 | given1+3 | \
    define ptr @f(ptr %x) { \
    %a = alloca [12 x i8], align 8 \
    %b = getelementptr i8, ptr %x, i64 3 \
    store ptr %b, ptr %a, align 8 \
    %c = load ptr, ptr %a, align 8 ret ptr %c }
parts of two pointers | given1+0 | poison | \
    define ptr @f(ptr %x) { \
    %a = alloca [12 x i8], align 8 \
    store ptr %x, ptr %a, align 8 \
    %b = getelementptr i8, ptr %a, i64 4 \
    store ptr %x, ptr %b, align 4 \
    %c = load ptr, ptr %a, align 8 ret ptr %c }
parts of a pointer as a number | given1+0 | poison | \
    define i64 @f(ptr %x) { \
    %a = alloca [8 x i8], align 8 \
    store ptr %x, ptr %a, align 8 \
    %b = load i64, ptr %a, align 8 ret i64 %b }
null is no address | given1+0 | ub | \
    define i8 @f(ptr %x) { %a = load i8, ptr null, align 1 ret i8 %a }
";

/// Indices of `getelementptr`.
pub const MOVES: &str = "\
inbounds to the end | given1+0 | given1+8 | \
    define ptr @f(ptr %x) { %a = getelementptr inbounds i8, ptr %x, i64 8 ret ptr %a }
inbounds past the end | given1+0 | poison | \
    define ptr @f(ptr %x) { %a = getelementptr inbounds i8, ptr %x, i64 9 ret ptr %a }
past the end | given1+0 | given1+9 | \
    define ptr @f(ptr %x) { %a = getelementptr i8, ptr %x, i64 9 ret ptr %a }
an index has a sign | given1+0 | 4 | \
    define i8 @f(ptr %x) { \
    %a = getelementptr i8, ptr %x, i64 4 \
    %b = getelementptr inbounds i8, ptr %a, i8 255 \
    %c = load i8, ptr %b, align 1 ret i8 %c }
255 at a greater width is no negative index | given1+0 | given1+255 | \
    define ptr @f(ptr %x) { %a = getelementptr i8, ptr %x, i16 255 ret ptr %a }
before the block | given1+0 | given1+18446744073709551615 | \
    define ptr @f(ptr %x) { %a = getelementptr i8, ptr %x, i8 255 ret ptr %a }
inbounds before the block | given1+0 | poison | \
    define ptr @f(ptr %x) { %a = getelementptr inbounds i8, ptr %x, i8 255 ret ptr %a }
offsets wrap | given1+0 | 3 | \
    define i8 @f(ptr %x) { \
    %a = getelementptr i8, ptr %x, i64 18446744073709551615 \
    %b = getelementptr i8, ptr %a, i64 3 \
    %c = load i8, ptr %b, align 1 ret i8 %c }
a negative index with nuw | given1+0 | poison | \
    define ptr @f(ptr %x) { \
    %a = getelementptr i8, ptr %x, i64 4 \
    %b = getelementptr inbounds nuw i8, ptr %a, i8 255 ret ptr %b }
from null | given1+0 | null+5 | \
    define ptr @f(ptr %x) { %a = getelementptr i8, ptr null, i64 5 ret ptr %a }
inbounds from null | given1+0 | poison | \
    define ptr @f(ptr %x) { %a = getelementptr inbounds i8, ptr null, i64 5 ret ptr %a }
";

/// What the attributes of a parameter do.
pub const ENTRIES: &str = "\
null | null+0 | null+0 | define ptr @f(ptr %x) { ret ptr %x }
null for nonnull | null+0 | poison | define ptr @f(ptr nonnull %x) { ret ptr %x }
null for both | null+0 | ub | define ptr @f(ptr noundef nonnull %x) { ret ptr %x }
null for noundef | null+0 | null+0 | define ptr @f(ptr noundef %x) { ret ptr %x }
an offset from null for both | null+8 | null+8 | define ptr @f(ptr noundef nonnull %x) { ret ptr %x }
a block for both | given1+0 | given1+0 | define ptr @f(ptr noundef nonnull %x) { ret ptr %x }
poison for nonnull | poison | poison | define ptr @f(ptr nonnull %x) { ret ptr %x }
poison for noundef | poison | ub | define ptr @f(ptr noundef %x) { ret ptr %x }
";

/// A block that is passed twice, stores 6 and then 7 to its own `alloca`, and keeps the address of
/// the first pass.
pub const TURNS: &str = "\
the byte of the first pass | poison | 6 | \
    define i8 @f(ptr %x) { \
    e: br label %l \
    l: %p = phi ptr [ null, %e ], [ %a, %l ] \
    %n = phi i8 [ 6, %e ], [ 7, %l ] \
    %a = alloca [1 x i8], align 1 \
    store i8 %n, ptr %a, align 1 \
    %c = icmp eq i8 %n, 7 br i1 %c, label %r, label %l \
    r: %b = load i8, ptr %p, align 1 ret i8 %b }
the byte of the second pass | poison | 7 | \
    define i8 @f(ptr %x) { \
    e: br label %l \
    l: %p = phi ptr [ null, %e ], [ %a, %l ] \
    %n = phi i8 [ 6, %e ], [ 7, %l ] \
    %a = alloca [1 x i8], align 1 \
    store i8 %n, ptr %a, align 1 \
    %c = icmp eq i8 %n, 7 br i1 %c, label %r, label %l \
    r: %b = load i8, ptr %a, align 1 ret i8 %b }
";

/// Two functions whose one choice is a pointer.
pub const CHOOSERS: &str = "\
define ptr @f(ptr %x) { %a = freeze ptr poison ret ptr %a }
define ptr @f(ptr %x) { ret ptr undef }
";

/// Whether a tape holds exactly the choice, what is chosen, and the tape. There are the given
/// blocks 1 and 2.
pub const CHOICES: &str = "\
plain null+0:
plain null+9: 0 9
plain given1+5: 1 5
plain given2+18446744073709551615: 2 18446744073709551615
other null+5: 3 5
other given1+5: 65537 5
other given1+5: 1 5 1
";

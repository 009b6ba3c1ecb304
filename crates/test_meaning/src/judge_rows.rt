//! Rows of pairs with memory. Their verdicts were worked out by hand from the LLVM Language
//! Reference.

/// Why the verdict is so; how many bytes each of two given blocks has at most; the verdict, with the
/// argument and the choices of a counterexample; a module of the source and the target.
///
/// All offsets of null come before the pointers to the given blocks, so no pair here reaches them;
/// and a pair whose points are all gone through has no pointer parameter and given blocks of no
/// bytes.
pub const PAIRS: &str = "\
a load gives what was stored | 0 | correct | \
    define i8 @s(i8 %x) { \
    %a = alloca [1 x i8], align 1 \
    store i8 %x, ptr %a, align 1 \
    %b = load i8, ptr %a, align 1 ret i8 %b } \
    define i8 @t(i8 %x) { ret i8 %x }
a store to a block that nothing reads before the return frees it | 0 | correct | \
    define i8 @s(i8 %x) { \
    %a = alloca [1 x i8], align 1 \
    store i8 %x, ptr %a, align 1 ret i8 %x } \
    define i8 @t(i8 %x) { ret i8 %x }
a load gives what was stored last | 0 | incorrect 1: | \
    define i8 @s(i8 %x) { \
    %a = alloca [1 x i8], align 1 \
    store i8 %x, ptr %a, align 1 \
    store i8 0, ptr %a, align 1 \
    %b = load i8, ptr %a, align 1 ret i8 %b } \
    define i8 @t(i8 %x) { ret i8 %x }
two stores to the same byte stay in order | 0 | incorrect 1: | \
    define i8 @s(i8 %x) { \
    %a = alloca [2 x i8], align 2 \
    store i16 0, ptr %a, align 2 \
    store i8 %x, ptr %a, align 1 \
    %b = load i8, ptr %a, align 1 ret i8 %b } \
    define i8 @t(i8 %x) { \
    %a = alloca [2 x i8], align 2 \
    store i8 %x, ptr %a, align 1 \
    store i16 0, ptr %a, align 2 \
    %b = load i8, ptr %a, align 1 ret i8 %b }
two stores of the same byte go in any order | 0 | correct | \
    define i8 @s(i8 %x) { \
    %a = alloca [2 x i8], align 2 \
    store i16 0, ptr %a, align 2 \
    store i8 0, ptr %a, align 1 \
    %b = load i8, ptr %a, align 1 ret i8 %b } \
    define i8 @t(i8 %x) { \
    %a = alloca [2 x i8], align 2 \
    store i8 0, ptr %a, align 1 \
    store i16 0, ptr %a, align 2 \
    %b = load i8, ptr %a, align 1 ret i8 %b }
a store at another byte leaves this one as it was, which is poison | 1 | incorrect 0: | \
    define i8 @s(i8 %x) { \
    %a = alloca [2 x i8], align 1 \
    store i8 %x, ptr %a, align 1 \
    %c = load i8, ptr %a, align 1 ret i8 %c } \
    define i8 @t(i8 %x) { \
    %a = alloca [2 x i8], align 1 \
    %b = getelementptr i8, ptr %a, i64 1 \
    store i8 %x, ptr %b, align 1 \
    %c = load i8, ptr %a, align 1 ret i8 %c }
a store at a greater alignment than the block has is undefined behaviour | 1 | incorrect 0: | \
    define i8 @s(i8 %x) { \
    %a = alloca [2 x i8], align 1 \
    store i16 0, ptr %a, align 1 ret i8 %x } \
    define i8 @t(i8 %x) { \
    %a = alloca [2 x i8], align 1 \
    store i16 0, ptr %a, align 2 ret i8 %x }
a store may ask for less alignment | 0 | correct | \
    define i8 @s(i8 %x) { \
    %a = alloca [2 x i8], align 1 \
    store i16 0, ptr %a, align 2 ret i8 %x } \
    define i8 @t(i8 %x) { \
    %a = alloca [2 x i8], align 1 \
    store i16 0, ptr %a, align 1 ret i8 %x }
after the return the address of an alloca is dead, whatever its size was | 0 | correct | \
    define ptr @s(i8 %x) { %a = alloca [1 x i8], align 1 ret ptr %a } \
    define ptr @t(i8 %x) { %a = alloca [2 x i8], align 2 ret ptr %a }
a dead address is not null | 1 | incorrect 0: | \
    define ptr @s(i8 %x) { \
    %a = alloca [1 x i8], align 1 \
    %b = getelementptr i8, ptr %a, i64 2 ret ptr %b } \
    define ptr @t(i8 %x) { ret ptr null }
an inbounds getelementptr out of the block is poison | 0 | correct | \
    define ptr @s(i8 %x) { \
    %a = alloca [1 x i8], align 1 \
    %b = getelementptr inbounds i8, ptr %a, i64 2 ret ptr %b } \
    define ptr @t(i8 %x) { ret ptr null }
a frozen poison pointer may be any pointer | 0 | correct | \
    define ptr @s(i8 %x) { %a = freeze ptr poison ret ptr %a } \
    define ptr @t(i8 %x) { %a = getelementptr i8, ptr null, i64 1 ret ptr %a }
a frozen poison pointer need not be null | 1 | incorrect 0: 0 1 | \
    define ptr @s(i8 %x) { ret ptr null } \
    define ptr @t(i8 %x) { %a = freeze ptr poison ret ptr %a }
a store to null is undefined behaviour, which may become anything | 0 | correct | \
    define i8 @s(i8 %x) { store i8 %x, ptr null, align 1 ret i8 %x } \
    define i8 @t(i8 %x) { ret i8 3 }
no store to null may be added | 1 | incorrect 0: | \
    define i8 @s(i8 %x) { ret i8 %x } \
    define i8 @t(i8 %x) { store i8 %x, ptr null, align 1 ret i8 %x }
a byte of an alloca that was not stored is poison, which may become anything | 0 | correct | \
    define i8 @s(i8 %x) { \
    %a = alloca [1 x i8], align 1 \
    %b = load i8, ptr %a, align 1 ret i8 %b } \
    define i8 @t(i8 %x) { ret i8 %x }
no byte may become one that was not stored | 1 | incorrect 0: | \
    define i8 @s(i8 %x) { ret i8 %x } \
    define i8 @t(i8 %x) { \
    %a = alloca [1 x i8], align 1 \
    %b = load i8, ptr %a, align 1 ret i8 %b }
a load past the end of the block is undefined behaviour | 0 | correct | \
    define i8 @s(i8 %x) { \
    %a = alloca [1 x i8], align 1 \
    %b = getelementptr i8, ptr %a, i64 1 \
    %c = load i8, ptr %b, align 1 ret i8 %c } \
    define i8 @t(i8 %x) { ret i8 %x }
a pointer moved is another one | 1 | incorrect null+0: | \
    define ptr @s(ptr %x) { ret ptr %x } \
    define ptr @t(ptr %x) { %a = getelementptr i8, ptr %x, i64 1 ret ptr %a }
a parameter does not become nonnull: null is poison there, and the source returns it | 1 | \
    incorrect null+0: | \
    define ptr @s(ptr %x) { ret ptr %x } \
    define ptr @t(ptr nonnull %x) { ret ptr %x }
";

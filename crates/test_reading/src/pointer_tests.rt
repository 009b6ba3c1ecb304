//! Functions with pointers and memory, with what the reader answers.
use crate::answers::are_answered;
use std::test::Fail;

const POINTERS: &str = "\
read: an integer has no nonnull
define ptr @f(ptr nonnull noundef %p) { ret ptr %p }

Unsupported@1:19
define void @f(i8 nonnull %p) { ret void }

read
define ptr @f(i1 %c, ptr %p) { a: br label %b b: %q = phi ptr [ null, %a ] %r = select i1 %c, ptr \
    %q, ptr poison %s = freeze ptr undef ret ptr undef }

Syntax@1:27: a number is no pointer
define ptr @f() { ret ptr 0 }

Unsupported@1:25
define i8 @f() { ret i8 null }

TypeClash@1:32
define ptr @f(i8 %x) { ret ptr %x }

Unsupported@1:33
define i8 @f(ptr %p) { %r = add ptr %p, %p ret i8 0 }

Unsupported@1:37
define i1 @f(ptr %p) { %r = icmp eq ptr %p, %p ret i1 %r }";

#[test]
fn pointers(rt: HostRuntime) -> Result<(), Fail> {
    are_answered(rt.alloc(), POINTERS)
}

const LOADS_AND_STORES: &str = "\
read
define void @f(ptr %p, i8 %x, i64 %i) { %a = load i8, ptr %p %b = load i64, ptr %p, align 4096 %c \
    = load ptr, ptr null, !dbg !0 store i8 %x, ptr %p store ptr null, ptr %p, align 1, !dbg !0 \
    ret void }

read: every width is one of memory
define void @f(ptr %p, i8 %x, i64 %i) { %a = load i1, ptr %p %b = load i63, ptr %p, align \
    4096 store i24 16777215, ptr %p store i1 true, ptr %p, align 8 ret void }

Limit@1:51: no type has this width
define void @f(ptr %p, i8 %x, i64 %i) { %a = load i65, ptr %p ret void }

Limit@1:51
define void @f(ptr %p, i8 %x, i64 %i) { %a = load i0, ptr %p ret void }

Unsupported@1:51: types of no value
define void @f(ptr %p, i8 %x, i64 %i) { %a = load float, ptr %p ret void }

Unsupported@1:51
define void @f(ptr %p, i8 %x, i64 %i) { %a = load <2 x i8>, ptr %p ret void }

Unsupported@1:51
define void @f(ptr %p, i8 %x, i64 %i) { %a = load void, ptr %p ret void }

Unsupported@1:51
define void @f(ptr %p, i8 %x, i64 %i) { %a = load label, ptr %p ret void }

Unsupported@1:51
define void @f(ptr %p, i8 %x, i64 %i) { %a = load %x, ptr %p ret void }

Limit@1:55
define void @f(ptr %p, i8 %x, i64 %i) { %a = load i8, i65 %p ret void }

Unsupported@1:55
define void @f(ptr %p, i8 %x, i64 %i) { %a = load i8, i8 %p ret void }

Unsupported@1:55
define void @f(ptr %p, i8 %x, i64 %i) { %a = load i8, %p ret void }

Syntax@1:59
define void @f(ptr %p, i8 %x, i64 %i) { %a = load i8, ptr 0 ret void }

Unsupported@1:59
define void @f(ptr %p, i8 %x, i64 %i) { %a = load i8, ptr undef ret void }

Unsupported@1:51
define void @f(ptr %p, i8 %x, i64 %i) { %a = load volatile i8, ptr %p ret void }

Limit@1:69: alignments
define void @f(ptr %p, i8 %x, i64 %i) { %a = load i8, ptr %p, align 3 ret void }

Limit@1:69
define void @f(ptr %p, i8 %x, i64 %i) { %a = load i8, ptr %p, align 8192 ret void }

Limit@1:69
define void @f(ptr %p, i8 %x, i64 %i) { %a = load i8, ptr %p, align -4 ret void }

Limit@1:69
define void @f(ptr %p, i8 %x, i64 %i) { %a = load i8, ptr %p, align 99999999999999999999 ret void }

Syntax@1:69
define void @f(ptr %p, i8 %x, i64 %i) { %a = load i8, ptr %p, align %x ret void }

Unsupported@1:72
define void @f(ptr %p, i8 %x, i64 %i) { %a = load i8, ptr %p, align 1, align 1 ret void }

Unsupported@1:72
define void @f(ptr %p, i8 %x, i64 %i) { %a = load i8, ptr %p, !dbg !0, align 1 ret void }

Unsupported@1:63
define void @f(ptr %p, i8 %x, i64 %i) { %a = load i8, ptr %p, !tbaa !0 ret void }

Unsupported@1:46: a store has no result
define void @f(ptr %p, i8 %x, i64 %i) { %a = store i8 %x, ptr %p ret void }

Limit@1:50
define void @f(ptr %p, i8 %x, i64 %i) { store i8 256, ptr %p ret void }

Limit@1:51
define void @f(ptr %p, i8 %x, i64 %i) { store i24 16777216, ptr %p ret void }

Limit@1:47
define void @f(ptr %p, i8 %x, i64 %i) { store i65 0, ptr %p ret void }

Unsupported@1:47
define void @f(ptr %p, i8 %x, i64 %i) { store float %x, ptr %p ret void }

TypeClash@1:51
define void @f(ptr %p, i8 %x, i64 %i) { store i16 %x, ptr %p ret void }

TypeClash@1:58
define void @f(ptr %p, i8 %x, i64 %i) { store i8 %x, ptr %x ret void }

Unsupported@1:68: no phi behind a store
define void @f(ptr %p) { a: br label %b b: store i8 0, ptr %p %r = phi i8 [ 0, %a ] ret void }";

#[test]
fn loads_and_stores(rt: HostRuntime) -> Result<(), Fail> {
    are_answered(rt.alloc(), LOADS_AND_STORES)
}

const ALLOCAS: &str = "\
read
define void @f(ptr %p, i8 %x, i64 %i) { %a = alloca i8 %b = alloca [ 8 x ptr ], align 16 %c = \
    alloca [ 2 x [ 4 x i64 ] ], !dbg !0 ret void }

read
define void @f(ptr %p, i8 %x, i64 %i) { %a = alloca [ 0 x [ 2000000 x i8 ] ] ret void }

Limit@1:60
define void @f(ptr %p, i8 %x, i64 %i) { %a = alloca [ 65 x i8 ] ret void }

Limit@1:65
define void @f(ptr %p, i8 %x, i64 %i) { %a = alloca [ 2 x [ 5 x i64 ] ] ret void }

Limit@1:55
define void @f(ptr %p, i8 %x, i64 %i) { %a = alloca [ 18446744073709551616 x i8 ] ret void }

Limit@1:55
define void @f(ptr %p, i8 %x, i64 %i) { %a = alloca [ -1 x i8 ] ret void }

Syntax@1:55
define void @f(ptr %p, i8 %x, i64 %i) { %a = alloca [ %x x i8 ] ret void }

Unsupported@1:57
define void @f(ptr %p, i8 %x, i64 %i) { %a = alloca [ 2 y i8 ] ret void }

Limit@1:59
define void @f(ptr %p, i8 %x, i64 %i) { %a = alloca [ 2 x i65 ] ret void }

Limit@1:53
define void @f(ptr %p, i8 %x, i64 %i) { %a = alloca i65 ret void }

Unsupported@1:53
define void @f(ptr %p, i8 %x, i64 %i) { %a = alloca float ret void }

read: an element takes its alignment's bytes
define void @f(ptr %p, i8 %x, i64 %i) { %a = alloca [ 16 x i24 ] %b = alloca [ 64 x i1 ] ret void }

Limit@1:60
define void @f(ptr %p, i8 %x, i64 %i) { %a = alloca [ 17 x i24 ] ret void }

Limit@1:60
define void @f(ptr %p, i8 %x, i64 %i) { %a = alloca [ 65 x i1 ] ret void }

bracket@1:71
define void @f(ptr %p, i8 %x, i64 %i) { %a = alloca [ 2 x i8 ret void }

Limit@1:101
define void @f(ptr %p, i8 %x, i64 %i) { %a = alloca [ 1 x [ 1 x [ 1 x [ 1 x [ 1 x [ 1 x [ 1 x [ 1 \
    x [ 1 x i8 ] ] ] ] ] ] ] ] ] ret void }

Unsupported@1:57
define void @f(ptr %p, i8 %x, i64 %i) { %a = alloca i8, i32 2 ret void }

Unsupported@1:53
define void @f(ptr %p, i8 %x, i64 %i) { %a = alloca %x ret void }";

#[test]
fn allocas(rt: HostRuntime) -> Result<(), Fail> {
    are_answered(rt.alloc(), ALLOCAS)
}

const ADDRESSES: &str = "\
read
define void @f(ptr %p, i8 %x, i64 %i) { %a = getelementptr i8, ptr %p %b = getelementptr inbounds \
    nuw [ 4 x [ 2 x i8 ] ], ptr %a, i8 %x, i64 -1, i1 true, !dbg !0 ret void }

Unsupported@1:60
define void @f(ptr %p, i8 %x, i64 %i) { %a = getelementptr nuw i8, ptr %p ret void }

Unsupported@1:69
define void @f(ptr %p, i8 %x, i64 %i) { %a = getelementptr inbounds inbounds i8, ptr %p ret void }

Unsupported@1:60
define void @f(ptr %p, i8 %x, i64 %i) { %a = getelementptr nusw i8, ptr %p ret void }

Limit@1:78: each array has its own limit
define void @f(ptr %p, i8 %x, i64 %i) { %a = getelementptr [ 0 x [ 1048577 x i8 ] ], ptr %p ret \
    void }

read
define void @f(ptr %p, i8 %x, i64 %i) { %a = getelementptr [ 2 x [ 524288 x i8 ] ], ptr %p ret \
    void }

read
define void @f(ptr %p, i8 %x, i64 %i) { %a = getelementptr [ 131072 x i48 ], ptr %p ret void }

Limit@1:71
define void @f(ptr %p, i8 %x, i64 %i) { %a = getelementptr [ 131073 x i48 ], ptr %p ret void }

Limit@1:60
define void @f(ptr %p, i8 %x, i64 %i) { %a = getelementptr i65, ptr %p ret void }

Unsupported@1:60
define void @f(ptr %p, i8 %x, i64 %i) { %a = getelementptr float, ptr %p ret void }

TypeClash@1:84: indices
define void @f(ptr %p, i8 %x, i64 %i) { %a = getelementptr i8, ptr %p, i64 %i, i64 0 ret void }

TypeClash@1:100
define void @f(ptr %p, i8 %x, i64 %i) { %a = getelementptr [ 2 x i8 ], ptr %p, i64 %i, i64 %i, \
    i64 %i ret void }

Limit@1:72
define void @f(ptr %p, i8 %x, i64 %i) { %a = getelementptr i8, ptr %p, i65 0 ret void }

Unsupported@1:72
define void @f(ptr %p, i8 %x, i64 %i) { %a = getelementptr i8, ptr %p, %i ret void }

Unsupported@1:72
define void @f(ptr %p, i8 %x, i64 %i) { %a = getelementptr i8, ptr %p, ptr null ret void }

TypeClash@1:75
define void @f(ptr %p, i8 %x, i64 %i) { %a = getelementptr i8, ptr %p, i8 %i ret void }

Unsupported@1:81
define void @f(ptr %p, i8 %x, i64 %i) { %a = getelementptr i8, ptr %p, !dbg !0, i64 0 ret void }

Syntax@1:72
define void @f(ptr %p, i8 %x, i64 %i) { %a = getelementptr i8, ptr %p, 0 ret void }

Unsupported@1:64
define void @f(ptr %p, i8 %x, i64 %i) { %a = getelementptr i8, i64 %i ret void }";

#[test]
fn addresses(rt: HostRuntime) -> Result<(), Fail> {
    are_answered(rt.alloc(), ADDRESSES)
}

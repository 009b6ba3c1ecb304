//! Functions that use a name before it is assigned, with the position of the first such use.
//!
//! In a diamond `l` forks to `m`, which assigns `%d`, and to `n`, and both lead to `p`. In a loop
//! `l` leads to `m`, which forks to itself and to `p`.
use crate::answers::are_answered;
use std::test::Fail;

const ASSIGNED: &str = "\
read: a chain
define i8 @f(i8 %a) { l: %c = and i8 %a, %a %d = and i8 %c, %a ret i8 %d }

read: a parameter
define i8 @f(i8 %a) { l: ret i8 %a }

read: each side of a diamond
define i8 @f(i8 %a) { l: br i1 true, label %m, label %n m: %d = and i8 %a, %a br label %p n: br \
    label %p p: %c = phi i8 [ %d, %m ], [ %a, %n ] ret i8 %c }

read: a loop
define i8 @f(i8 %a) { l: br label %m m: %c = phi i8 [ %a, %l ], [ %d, %m ] %d = and i8 %c, %c br \
    i1 true, label %m, label %p p: ret i8 %d }

read: a phi that uses itself
define i8 @f(i8 %a) { l: br label %m m: %c = phi i8 [ %a, %l ], [ %c, %m ] %d = and i8 %c, %a br \
    i1 true, label %m, label %p p: ret i8 %d }

read: where no path comes
define i8 @f(i8 %a) { l: br label %p m: %d = and i8 %d, %a br label %p p: ret i8 %a }";

#[test]
fn assigned_names_pass(rt: HostRuntime) -> Result<(), Fail> {
    are_answered(rt.alloc(), ASSIGNED)
}

const TOO_EARLY: &str = "\
Unassigned@1:42: a later result, on the right
define i8 @f(i8 %a) { l: %c = and i8 %a, %d %d = and i8 %c, %d ret i8 %d }

Unassigned@1:57: its own result, on the left
define i8 @f(i8 %a) { l: %c = and i8 %a, %a %d = and i8 %d, %d ret i8 %d }

Unassigned@1:151: one side of a diamond
define i8 @f(i8 %a) { l: br i1 true, label %m, label %n m: %d = and i8 %a, %a br label %p n: br \
    label %p p: %c = phi i8 [ %a, %m ], [ %a, %n ] ret i8 %d }

Unassigned@1:135: the other side's operand
define i8 @f(i8 %a) { l: br i1 true, label %m, label %n m: %d = and i8 %a, %a br label %p n: br \
    label %p p: %c = phi i8 [ %a, %m ], [ %d, %n ] ret i8 %c }

Unassigned@1:55: a phi's own result at the first turn
define i8 @f(i8 %a) { l: br label %m m: %c = phi i8 [ %c, %l ], [ %a, %m ] %d = and i8 %c, %a br \
    i1 true, label %m, label %p p: ret i8 %d }

Unassigned@1:88: a result of the turn before
define i8 @f(i8 %a) { l: br label %m m: %c = phi i8 [ %a, %l ], [ %a, %m ] %d = and i8 %d, %a br \
    i1 true, label %m, label %p p: ret i8 %d }

Unassigned@1:82: a name of a block that no path comes to
define i8 @f(i8 %a) { l: br label %p m: %d = and i8 %d, %a br label %p p: ret i8 %d }";

#[test]
fn the_first_early_use_is_reported(rt: HostRuntime) -> Result<(), Fail> {
    are_answered(rt.alloc(), TOO_EARLY)
}

//! Uses of names that carry undef.
use crate::undef_functions::function_in;
use ir_tree::{CheckFault, Function, are_numbered, sites_of};
use std::alloc::Global;
use std::test::Fail;
use undef_uses::check_undef;

/// What the check answers to a function.
fn answer(alloc: Global, f: &Function) -> Result<String, Fail> {
    let list = sites_of(alloc, f)?;
    if !are_numbered(list.all.as_slice(), f.names.len()) {
        return Err(Fail::from("a name without a number"));
    }
    match check_undef(alloc, f) {
        Ok(()) => Ok(String::from_str(alloc, "read")?),
        Err(CheckFault::Refused(refused)) => {
            Ok(format!(in alloc; "UndefUse@{}:{}", refused.line, refused.column)?)
        }
        Err(CheckFault::NoMemory) => Err(Fail::from("out of memory")),
    }
}

/// Fails where the check gives another answer to the text of a row. The row's first line is the
/// answer, and after `: ` what the row is about; the text follows.
fn is_answered(alloc: Global, row: &str) -> Result<(), Fail> {
    let (head, text) = row.split_once("\n").ok_or("an answer and a text")?;
    let want = match head.split_once(": ") {
        Some((want, _)) => want,
        None => head,
    };
    let function = function_in(alloc, text)?;
    let found = answer(alloc, &function)?;
    if found.as_str() == want {
        Ok(())
    } else {
        Err(Fail::new(format_args!("{row}: {found}")))
    }
}

fn are_answered(alloc: Global, rows: &str) -> Result<(), Fail> {
    for row in rows.split("\n\n") {
        is_answered(alloc, row)?;
    }
    Ok(())
}

const ALLOWED: &str = "\
read: a return and a freeze
define i8 @f(i8 %a) { l: %c = and i8 %a, poison %d = freeze i8 %c ret i8 %c }

read: what freeze gives carries none
define i8 @f(i8 %a) { l: %c = and i8 %a, poison %d = freeze i8 %c %e = udiv i8 %a, %d ret i8 %e \
    }

read: operands that are no names
define i8 @f(i8 %a) { l: %c = udiv i8 %a, poison %d = select i1 poison, i8 %c, i8 %a ret i8 %d }

read: 64 leaves
define i8 @f(i8 %a) { l: %b = add i8 poison, poison %c = add i8 %b, %b %d = add i8 %c, %c %e = \
    add i8 %d, %d %g = add i8 %e, %e %h = add i8 %g, %g ret i8 %h }

read: a circle that carries none
define i8 @f(i8 %a) { l: ret i8 %a m: %c = and i8 %d, %a %d = and i8 %c, %a br label %n n: %e = \
    udiv i8 %a, %c ret i8 %e }

read: what is loaded carries none
define i8 @f(ptr %p) { l: %c = load i8, ptr %p, align 1 %d = udiv i8 %c, 3 ret i8 %d }";

#[test]
fn undef_may_be_carried(rt: HostRuntime) -> Result<(), Fail> {
    are_answered(rt.alloc(), ALLOWED)
}

const CHOICES: &str = "\
UndefUse@1:78: a phi
define i8 @f(i8 %a) { l: %c = and i8 %a, poison br label %m m: %d = phi i8 [ %c, %l ] ret i8 %d \
    }

UndefUse@1:59: a branch
define i8 @f(i8 %a) { l: %c = icmp eq i8 %a, poison br i1 %c, label %m, label %n m: br label %n \
    n: ret i8 %a }

UndefUse@1:59: a switch
define i8 @f(i8 %a) { l: %c = and i8 %a, poison switch i8 %c, label %m [ i8 1, label %n ] m: br \
    label %n n: ret i8 %a }

UndefUse@1:64: a return of noundef
define noundef i8 @f(i8 %a) { l: %c = and i8 %a, poison ret i8 %c }

UndefUse@1:66: a divisor
define i8 @f(i8 %a) { l: %c = and i8 %a, poison %d = udiv i8 %a, %c ret i8 %d }

UndefUse@1:62: a dividend
define i8 @f(i8 %a) { l: %c = and i8 %a, poison %d = sdiv i8 %c, %a ret i8 %d }

UndefUse@1:66: an unsigned remainder
define i8 @f(i8 %a) { l: %c = and i8 %a, poison %d = urem i8 %a, %c ret i8 %d }

UndefUse@1:66: a signed remainder
define i8 @f(i8 %a) { l: %c = and i8 %a, poison %d = srem i8 %a, %c ret i8 %d }";

#[test]
fn no_block_and_no_division_depends_on_undef(rt: HostRuntime) -> Result<(), Fail> {
    are_answered(rt.alloc(), CHOICES)
}

const POINTERS: &str = "\
UndefUse@1:91: a pointer that is loaded from
define i8 @f(ptr %p, ptr %q) { l: %c = select i1 poison, ptr %p, ptr %q %d = load i8, ptr %c, \
    align 1 ret i8 %d }

UndefUse@1:68: a value that is stored
define void @f(i8 %a, ptr %p) { l: %c = and i8 %a, poison store i8 %c, ptr %p, align 1 ret void \
    }

UndefUse@1:91: a pointer that is stored to
define void @f(i8 %a, ptr %p) { l: %c = select i1 poison, ptr %p, ptr %p store i8 %a, ptr %c, \
    align 1 ret void }

UndefUse@1:92: an index
define ptr @f(i8 %a, ptr %p) { l: %c = and i8 %a, poison %d = getelementptr i8, ptr %p, i8 %c \
    ret ptr %d }

UndefUse@1:100: a base
define ptr @f(i8 %a, ptr %p) { l: %c = select i1 poison, ptr %p, ptr %p %d = getelementptr i8, \
    ptr %c, i8 %a ret ptr %d }

UndefUse@1:77: the condition of a select of pointers
define ptr @f(i8 %a, ptr %p) { l: %c = icmp eq i8 %a, poison %d = select i1 %c, ptr %p, ptr \
    null ret ptr %d }

UndefUse@1:106: an arm of a select of pointers
define ptr @f(i1 %a, ptr %p) { l: %c = select i1 poison, ptr %p, ptr null %d = select i1 %a, \
    ptr %p, ptr %c ret ptr %d }";

#[test]
fn no_access_depends_on_undef(rt: HostRuntime) -> Result<(), Fail> {
    are_answered(rt.alloc(), POINTERS)
}

const CARRIED: &str = "\
UndefUse@1:146: through each kind
define i8 @f(i8 %a) { l: %b = icmp ult i8 poison, %a %c = zext i1 %b to i8 %d = select i1 true, \
    i8 %c, i8 %a %e = xor i8 %d, %a %g = udiv i8 %a, %e ret i8 %g }

UndefUse@1:62: the first use in the text
define i8 @f(i8 %a) { l: %b = and i8 %a, poison %c = udiv i8 %b, %a %d = udiv i8 %c, %b ret i8 \
    %d }

UndefUse@1:148: 65 leaves
define i8 @f(i8 %a) { l: %b = add i8 poison, poison %c = add i8 %b, %b %d = add i8 %c, %c %e = \
    add i8 %d, %d %g = add i8 %e, %e %h = add i8 %g, %g %i = add i8 %h, poison ret i8 %i }

UndefUse@1:39: a circle that is fed
define i8 @f(i8 %a) { l: ret i8 %a m: %c = and i8 %d, %a %d = and i8 %c, poison ret i8 %d }

UndefUse@1:56: a use before the undef that it carries
define i8 @f(i8 %a) { l: ret i8 %a m: %b = udiv i8 %a, %c %c = and i8 %d, %a %d = and i8 %a, \
    poison ret i8 %b }";

#[test]
fn undef_is_carried_to_a_use(rt: HostRuntime) -> Result<(), Fail> {
    are_answered(rt.alloc(), CARRIED)
}

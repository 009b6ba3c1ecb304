//! Functions that break a rule of names, types or phis, with the reason and the position of the
//! first site that does.
use crate::answers::are_answered;
use std::test::Fail;

const DEFINED_TWICE: &str = "\
NameTwice@1:25: two parameters
define i8 @f(i8 %a, i16 %a) { l: ret i8 poison }

NameTwice@1:31: a label
define i8 @f(i8 %a, i16 %b) { a: ret i8 poison }

NameTwice@1:34: a result
define i8 @f(i8 %a, i16 %b) { l: %b = and i8 %a, %a ret i8 %a }

NameTwice@1:53: two results, after a name that is unknown
define i8 @f(i8 %a, i16 %b) { l: %c = and i8 %d, %a %c = and i8 %a, %a ret i8 %a }";

#[test]
fn a_name_is_defined_once(rt: HostRuntime) -> Result<(), Fail> {
    are_answered(rt.alloc(), DEFINED_TWICE)
}

const UNKNOWN: &str = "\
NameUnknown@1:50: on the right
define i8 @f(i8 %a, i16 %b) { l: %c = and i8 %a, %d ret i8 %a }

NameUnknown@1:46: a label as a value
define i8 @f(i8 %a, i16 %b) { l: %c = and i8 %l, %d ret i8 %a }

NameUnknown@1:41: in a return
define i8 @f(i8 %a, i16 %b) { l: ret i8 %d }";

#[test]
fn a_name_that_is_used_is_known(rt: HostRuntime) -> Result<(), Fail> {
    are_answered(rt.alloc(), UNKNOWN)
}

const OTHER_TYPE: &str = "\
TypeClash@1:50: a wider one
define i8 @f(i8 %a, i16 %b) { l: %c = and i8 %a, %b ret i8 %a }

TypeClash@1:47: a narrower one
define i8 @f(i8 %a, i16 %b) { l: %c = and i16 %a, %b ret i8 %a }

TypeClash@1:73: a comparison has one bit
define i8 @f(i8 %a, i16 %b) { l: %c = icmp eq i8 %a, %a %d = and i8 %a, %c ret i8 %a }

TypeClash@1:41: in a return
define i8 @f(i8 %a, i16 %b) { l: ret i8 %b }";

#[test]
fn a_name_is_used_at_its_type(rt: HostRuntime) -> Result<(), Fail> {
    are_answered(rt.alloc(), OTHER_TYPE)
}

const LAST_TYPE: &str = "\
TypeClash@1:53: zext to its width
define i8 @f(i8 %a, i16 %b) { l: %c = zext i8 %a to i8 ret i8 %a }

TypeClash@1:54: sext to less
define i8 @f(i8 %a, i16 %b) { l: %c = sext i16 %b to i8 ret i8 %a }

TypeClash@1:55: trunc to its width
define i8 @f(i8 %a, i16 %b) { l: %c = trunc i16 %b to i16 ret i8 %a }

TypeClash@1:62: two arms
define i8 @f(i8 %a, i16 %b) { l: %c = select i1 true, i8 %a, i16 %b ret i8 %a }

TypeClash@1:38: another return
define i8 @f(i8 %a, i16 %b) { l: ret i16 %b }

TypeClash@1:38: no return
define i8 @f(i8 %a, i16 %b) { l: ret void }";

#[test]
fn the_last_type_must_fit(rt: HostRuntime) -> Result<(), Fail> {
    are_answered(rt.alloc(), LAST_TYPE)
}

const LABELS: &str = "\
NameUnknown@1:113: no label
define i8 @f(i8 %a, i16 %b) { l: br i1 true, label %m, label %n m: br label %n n: %c = phi i8 [ \
    %a, %l ], [ %a, %d ] ret i8 %a }

NameUnknown@1:113: a value as a label
define i8 @f(i8 %a, i16 %b) { l: br i1 true, label %m, label %n m: br label %n n: %c = phi i8 [ \
    %a, %l ], [ %a, %a ] ret i8 %a }

NameUnknown@1:109: a label as a value
define i8 @f(i8 %a, i16 %b) { l: br i1 true, label %m, label %n m: br label %n n: %c = phi i8 [ \
    %a, %l ], [ %m, %m ] ret i8 %a }

NameUnknown@1:77: a jump to no label
define i8 @f(i8 %a, i16 %b) { l: br i1 true, label %m, label %n m: br label %d n: %c = phi i8 [ \
    %a, %l ] ret i8 %a }";

#[test]
fn labels_are_no_values(rt: HostRuntime) -> Result<(), Fail> {
    are_answered(rt.alloc(), LABELS)
}

const CASES: &str = "\
TypeClash@1:59: a wider case
define i8 @f(i8 %a, i16 %b) { l: switch i8 %a, label %m [ i16 1, label %n i8 2, label %n ] m: br \
    label %n n: %c = phi i8 [ %a, %l ], [ %a, %m ] ret i8 %a }

TypeClash@1:77: one number twice
define i8 @f(i8 %a, i16 %b) { l: switch i8 %a, label %m [ i8 1, label %n i8 1, label %n ] m: br \
    label %n n: %c = phi i8 [ %a, %l ], [ %a, %m ] ret i8 %a }

TypeClash@1:78: one number of 8 bits twice
define i8 @f(i8 %a, i16 %b) { l: switch i8 %a, label %m [ i8 -1, label %n i8 255, label %n ] m: \
    br label %n n: %c = phi i8 [ %a, %l ], [ %a, %m ] ret i8 %a }";

#[test]
fn cases_have_the_type_of_the_switch_and_differ(rt: HostRuntime) -> Result<(), Fail> {
    are_answered(rt.alloc(), CASES)
}

const PREDECESSORS: &str = "\
PhiEdges@1:83: one is missing
define i8 @f(i8 %a, i16 %b) { l: br i1 true, label %m, label %n m: br label %n n: %c = phi i8 [ \
    %a, %l ] ret i8 %a }

PhiEdges@1:83: a stranger
define i8 @f(i8 %a, i16 %b) { l: br i1 true, label %m, label %n m: br label %n n: %c = phi i8 [ \
    %a, %l ], [ 3, %m ], [ 3, %n ] ret i8 %a }

PhiEdges@1:83: two operands
define i8 @f(i8 %a, i16 %b) { l: br i1 true, label %m, label %n m: br label %n n: %c = phi i8 [ \
    3, %m ], [ %a, %l ], [ 4, %m ] ret i8 %a }

PhiEdges@1:77: a jump to the entry
define i8 @f(i8 %a, i16 %b) { l: br i1 true, label %m, label %n m: br label %l n: %c = phi i8 [ \
    %a, %l ] ret i8 %a }";

#[test]
fn a_phi_has_its_predecessors(rt: HostRuntime) -> Result<(), Fail> {
    are_answered(rt.alloc(), PREDECESSORS)
}

const RIGHT: &str = "\
read: instructions
define i8 @f(i8 %a, i16 %b) { l: %c = sext i8 %a to i16 %d = and i16 %c, %b ret i8 %a }

read: a fork
define i8 @f(i8 %a, i16 %b) { l: br i1 true, label %m, label %n m: br label %n n: %c = phi i8 [ \
    3, %m ], [ %a, %l ] ret i8 %a }

read: one operand twice
define i8 @f(i8 %a, i16 %b) { l: br i1 true, label %m, label %n m: br label %n n: %c = phi i8 [ \
    -1, %m ], [ %a, %l ], [ 255, %m ] ret i8 %a }

read: a switch
define i8 @f(i8 %a, i16 %b) { l: switch i8 %a, label %m [ i8 1, label %n i8 2, label %n ] m: br \
    label %n n: %c = phi i8 [ %a, %l ], [ %a, %m ] ret i8 %a }";

#[test]
fn what_is_right_passes(rt: HostRuntime) -> Result<(), Fail> {
    are_answered(rt.alloc(), RIGHT)
}

//! What the steps of a run show: each kind of reason, and all that the steps of a loop show.

ghost use Rattle.points.specs.Runnable.{IsRunnable};

use crate::expecting::expect;
use crate::functions::function_of;
use crate::reason_rows::REASONS;
use crate::words::value_in;
use byte_block::Value;
use ir_tree::Function;
use points::{Bounds, Input};
use run_trace::{Step, Trace, trace};
use std::alloc::{AllocError, Global};
use std::test::Fail;
use support::{NoMemory, Sequence};

const BOUNDS: Bounds = Bounds {
    turns: 2,
    blocks: 0,
    bytes: 0,
};

/// Counts down from the argument, by a choice at each turn, and stores the sum of the choices.
const LOOP: &str = "\
define i8 @f(i8 %x) {
  %p = alloca i8, align 1
  br label %l
l:
  %n = phi i8 [ %x, %0 ], [ %m, %l ]
  %c = freeze i8 poison
  store i8 %c, ptr %p, align 1
  %m = sub i8 %n, 1
  %z = icmp eq i8 %m, 0
  br i1 %z, label %e, label %l
e:
  ret i8 %c
}
";

/// The block, the backward jumps so far, the site, the operands, the result, the words of the tape,
/// the block that it leads to, and where it stores.
const STEPS: &str = "\
0 0 Parameter(0) [Num(2)] Some(Num(2)) [] None None
0 0 Inst(0) [] Some(Ptr(Ptr { block: Local(0, 0), offset: 0 })) [] None None
0 0 Terminator [] None [] Some(1) None
1 0 Phi(0) [Num(2)] Some(Num(2)) [] None None
1 0 Inst(0) [Poison] Some(Num(7)) [7] None None
1 0 Inst(1) [Num(7), Ptr(Ptr { block: Local(0, 0), offset: 0 })] None [] None \
Some(Location { pointer: Ptr { block: Local(0, 0), offset: 0 }, bytes: 1 })
1 0 Inst(2) [Num(2), Num(1)] Some(Num(1)) [] None None
1 0 Inst(3) [Num(1), Num(0)] Some(Num(0)) [] None None
1 0 Terminator [Num(0)] None [] Some(1) None
1 1 Phi(0) [Num(1)] Some(Num(1)) [] None None
1 1 Inst(0) [Poison] Some(Num(1)) [1] None None
1 1 Inst(1) [Num(1), Ptr(Ptr { block: Local(0, 0), offset: 0 })] None [] None \
Some(Location { pointer: Ptr { block: Local(0, 0), offset: 0 }, bytes: 1 })
1 1 Inst(2) [Num(1), Num(1)] Some(Num(0)) [] None None
1 1 Inst(3) [Num(0), Num(0)] Some(Num(1)) [] None None
1 1 Terminator [Num(1)] None [] Some(2) None
2 1 Terminator [Num(1)] Some(Num(1)) [] None None
";

fn input_of(alloc: Global, arg: Value) -> Result<Input, NoMemory> {
    Ok(Input {
        args: Sequence::from_vec(vec![in alloc; arg; 1]?),
        blocks: Sequence::from_vec(Vec::new(alloc)),
    })
}

/// The trace of a function on an argument and a tape, with two backward jumps at most.
fn trace_on(alloc: Global, f: &Function, arg: Value, tape: &[u64]) -> Result<Trace, NoMemory>
    requires { IsRunnable f.now }
{
    let input = input_of(alloc, arg)?;
    trace(alloc, f, &BOUNDS, &input, tape)
}

/// The trace of the function of a text.
fn trace_of(alloc: Global, text: &str, arg: &str, tape: &[u64]) -> Result<Trace, Fail> {
    let arg = value_in(arg).ok_or("an argument")?;
    let f = function_of(alloc, text)?;
    let traced = trace_on(alloc, &f, arg, tape)?;
    Ok(traced)
}

fn reason_line(alloc: Global, step: &Step) -> Result<String, AllocError> {
    match step.reason {
        Some(reason) => format!(in alloc; "{:?} {:?}", step.site, reason),
        None => Ok(String::new(alloc)),
    }
}

/// The steps that have a reason, one after another, or `none`.
fn reasons_of(alloc: Global, steps: &[Step]) -> Result<String, AllocError> {
    let mut text = String::new(alloc);
    for step in steps {
        text.push_str(&reason_line(alloc, step)?)?;
    }
    if text.is_empty() {
        text.push_str("none")?;
    }
    Ok(text)
}

fn holds(alloc: Global, row: &str) -> Result<bool, Fail> {
    let (arg, rest) = row.split_once(" | ").ok_or("an argument")?;
    let (reasons, text) = rest.split_once(" | ").ok_or("reasons")?;
    let traced = trace_of(alloc, text, arg, &[])?;
    let found = reasons_of(alloc, traced.steps.as_slice())?;
    Ok(found.as_str() == reasons)
}

#[test]
fn each_reason_is_given_where_it_is_one(rt: HostRuntime) -> Result<(), Fail> {
    for row in REASONS.lines() {
        expect(holds(rt.alloc(), row)?, row)?;
    }
    Ok(())
}

fn values_of(alloc: Global, step: &Step) -> Result<String, AllocError> {
    let operands = step.operands.as_slice();
    let taken = step.taken.as_slice();
    format!(in alloc; "{:?} {:?} {:?}", operands, step.result, taken)
}

fn step_line(alloc: Global, step: &Step) -> Result<String, AllocError> {
    let values = values_of(alloc, step)?;
    let place = format!(in alloc; "{} {} {:?}", step.block, step.turn, step.site)?;
    format!(in alloc; "{place} {values} {:?} {:?}", step.to, step.location)
}

fn are_shown(alloc: Global, steps: &[Step]) -> Result<bool, AllocError> {
    let mut text = String::new(alloc);
    for step in steps {
        text.push_str(&step_line(alloc, step)?)?;
        text.push_str("\n")?;
    }
    Ok(text.as_str() == STEPS)
}

#[test]
fn a_loop_shows_its_steps(rt: HostRuntime) -> Result<(), Fail> {
    let traced = trace_of(rt.alloc(), LOOP, "2", &[7, 257])?;
    let is_shown = are_shown(rt.alloc(), traced.steps.as_slice())?;
    expect(is_shown && traced.read == 2, "the steps of a loop")
}

//! How the outcomes of two runs differ. The block 1 has one byte, which is 0.

ghost use Rattle.std.specs.List.{AllByRecursion};
ghost use Rattle.ir_reader.specs.Judgeable.{IsJudgeable, IsJudgeableEntry};

use crate::expecting::expect;
use crate::pairs::pair_in;
use crate::words::value_in;
use byte_block::{BlockName, Byte, MemoryBlock, Value};
use ir_reader::read;
use ir_tree::Module;
use pair_trace::{difference_of, trace_pair};
use points::{Bounds, Input, Point};
use std::alloc::Global;
use std::test::Fail;
use support::{NoMemory, Sequence};
use verdicts::Pair;

const BOUNDS: Bounds = Bounds {
    turns: 0,
    blocks: 1,
    bytes: 1,
};

/// The argument, the difference, and the pair.
const ROWS: &str = "\
1 | None | \
    define i8 @f(i8 %x) { ret i8 poison } \
    define i8 @g(i8 %x) { ret i8 %x }
1 | Some(Value) | \
    define i8 @f(i8 %x) { ret i8 %x } \
    define i8 @g(i8 %x) { %r = add i8 %x, 1 ret i8 %r }
1 | Some(MorePoisonous) | \
    define i8 @f(i8 %x) { ret i8 %x } \
    define i8 @g(i8 %x) { %r = shl i8 %x, 8 ret i8 %r }
1 | Some(Undefined) | \
    define i8 @f(i8 %x) { ret i8 %x } \
    define i8 @g(i8 %x) { unreachable }
given1+0 | Some(Byte { index: 0, byte: 0 }) | \
    define void @f(ptr %x) { ret void } \
    define void @g(ptr %x) { store i8 1, ptr %x, align 1 ret void }
";

fn input_of(alloc: Global, arg: Value) -> Result<Input, NoMemory> {
    let block = MemoryBlock {
        name: BlockName::Given(1),
        size: 1,
        align: 16,
        places: Sequence::from_vec(vec![in alloc; Byte::Bits { number: 0, mask: 0 }; 1]?),
    };
    let mut blocks = Sequence::from_vec(Vec::new(alloc));
    blocks.push(block)?;
    Ok(Input {
        args: Sequence::from_vec(vec![in alloc; arg; 1]?),
        blocks,
    })
}

/// How the outcomes of a pair's runs at a point differ.
fn difference_at(alloc: Global, pair: &Pair, point: &Point) -> Result<String, Fail>
    requires source { IsJudgeable pair.now.source }
    requires target { IsJudgeable pair.now.target }
{
    let traces = trace_pair(alloc, pair, &BOUNDS, point)?;
    let found = difference_of(&traces.source.outcome, &traces.target.outcome);
    let text = format!(in alloc; "{:?}", found)?;
    Ok(text)
}

/// How the outcomes of a pair's runs on an argument differ.
fn difference(alloc: Global, pair: &Pair, arg: Value) -> Result<String, Fail>
    requires source { IsJudgeable pair.now.source }
    requires target { IsJudgeable pair.now.target }
{
    let point = Point {
        input: input_of(alloc, arg)?,
        tape: Sequence::from_vec(Vec::new(alloc)),
    };
    difference_at(alloc, pair, &point)
}

/// Whether the outcomes of the runs of a module's pair differ so.
fn differ(alloc: Global, module: &Module, arg: Value, wanted: &str) -> Result<bool, Fail>
    requires { AllByRecursion IsJudgeableEntry module.now.entries }
{
    let pair = pair_in(module).ok_or("a pair")?;
    let found = difference(alloc, &pair, arg)?;
    Ok(found.as_str() == wanted)
}

fn holds(alloc: Global, row: &str) -> Result<bool, Fail> {
    let (arg, rest) = row.split_once(" | ").ok_or("an argument")?;
    let (wanted, text) = rest.split_once(" | ").ok_or("a difference")?;
    let arg = value_in(arg).ok_or("an argument")?;
    let module = read(alloc, text.as_bytes()).ok().ok_or("a module")?;
    differ(alloc, &module, arg, wanted)
}

#[test]
fn outcomes_differ_so(rt: HostRuntime) -> Result<(), Fail> {
    for row in ROWS.lines() {
        expect(holds(rt.alloc(), row)?, row)?;
    }
    Ok(())
}

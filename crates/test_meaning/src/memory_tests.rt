//! Runs of functions with pointers and memory.

ghost use Rattle.points.specs.Runnable.{IsRunnable};
ghost use Rattle.choice_interp.specs.Runners.{IsRunner};

use crate::expecting::expect;
use crate::functions::{function_of, returns, run};
use crate::memory_rows::{ACCESSES, CHOICES, CHOOSERS, ENTRIES, MOVES, TURNS};
use crate::words::{fields_in, numbers_in, value_in};
use byte_block::{BlockName, Byte, Memory, MemoryBlock, Ptr, Value};
use choice_interp::{Ending, Ran, Runner, runner_for, runs_refine};
use ir_tree::Function;
use points::{Bounds, Input, Outcome, refines};
use std::alloc::Global;
use std::test::Fail;
use support::{NoMemory, Sequence};

const BOUNDS: Bounds = Bounds {
    turns: 2,
    blocks: 2,
    bytes: 8,
};

const FIRST: Value = Value::Ptr(Ptr {
    block: BlockName::Given(1),
    offset: 0,
});

/// A byte without poison.
fn number_byte(number: u8) -> Byte {
    Byte::Bits { number, mask: 0 }
}

/// A given block with these bytes, and room for two more.
fn given_block(alloc: Global, number: u64, bytes: &[u8]) -> Result<MemoryBlock, NoMemory> {
    let mut places = Vec::new(alloc);
    for byte in bytes {
        places.push(number_byte(*byte))?;
    }
    places.push(number_byte(9))?;
    places.push(number_byte(9))?;
    Ok(MemoryBlock {
        name: BlockName::Given(number),
        size: bytes.len() as u64,
        align: 16,
        places: Sequence::from_vec(places),
    })
}

fn two_blocks(alloc: Global) -> Result<Memory, NoMemory> {
    let mut blocks = Vec::new(alloc);
    blocks.push(given_block(alloc, 1, &[1, 2, 3, 4, 5, 6, 7, 8])?)?;
    blocks.push(given_block(alloc, 2, &[250, 251])?)?;
    Ok(Sequence::from_vec(blocks))
}

fn input_of(alloc: Global, arg: Value) -> Result<Input, NoMemory> {
    Ok(Input {
        args: Sequence::from_vec(vec![in alloc; arg; 1]?),
        blocks: two_blocks(alloc)?,
    })
}

/// The run of a text's function on an argument and the two blocks.
fn run_on(alloc: Global, text: &str, arg: Value, tape: &[u64]) -> Result<Ran, Fail> {
    let input = input_of(alloc, arg)?;
    run(alloc, text, &BOUNDS, &input, tape)
}

/// Whether an outcome is undefined behaviour or a value, as a row says.
fn is_outcome(outcome: &Outcome, wanted: &str) -> bool {
    match outcome {
        Outcome::Return(Some(value), memory) => {
            value_in(wanted) == Some(*value) && memory.len() == 2
        }
        Outcome::Ub => wanted == "ub",
        _ => false,
    }
}

fn holds(alloc: Global, line: &str) -> Result<bool, Fail> {
    let (arg, wanted, text) = fields_in(line).ok_or("a row")?;
    let arg = value_in(arg).ok_or("an argument")?;
    let ran = run_on(alloc, text, arg, &[])?;
    Ok(ran.read == 0 && is_outcome(&ran.outcome, wanted))
}

/// Fails at the first line that does not hold.
fn hold(alloc: Global, lines: &str) -> Result<(), Fail> {
    for line in lines.lines() {
        expect(holds(alloc, line)?, line)?;
    }
    Ok(())
}

#[test]
fn loads_and_stores_of_a_run(rt: HostRuntime) -> Result<(), Fail> {
    hold(rt.alloc(), ACCESSES)
}

#[test]
fn moves_of_a_run(rt: HostRuntime) -> Result<(), Fail> {
    hold(rt.alloc(), MOVES)
}

#[test]
fn attributes_of_a_pointer_parameter(rt: HostRuntime) -> Result<(), Fail> {
    hold(rt.alloc(), ENTRIES)
}

#[test]
fn each_turn_has_a_block_of_its_own(rt: HostRuntime) -> Result<(), Fail> {
    hold(rt.alloc(), TURNS)
}

/// Whether a run on a tape of two words gives the wanted choice.
fn chooses(alloc: Global, text: &str, choice: &str, tape: &[u64]) -> Result<bool, Fail> {
    let (kind, wanted) = choice.split_once(" ").ok_or("a choice")?;
    let ran = run_on(alloc, text, Value::Poison, tape)?;
    let is_plain = kind == "plain";
    Ok(ran.read == 2 && ran.plain == is_plain && is_outcome(&ran.outcome, wanted))
}

fn is_chosen(alloc: Global, text: &str, line: &str) -> Result<bool, Fail> {
    let (choice, tape) = line.split_once(":").ok_or("a tape")?;
    let tape = numbers_in(alloc, tape)?;
    chooses(alloc, text, choice, tape.as_slice())
}

/// A frozen poison pointer and a returned undef one are the same two words.
#[test]
fn a_pointer_choice_is_two_words(rt: HostRuntime) -> Result<(), Fail> {
    for text in CHOOSERS.lines() {
        for line in CHOICES.lines() {
            expect(is_chosen(rt.alloc(), text, line)?, line)?;
        }
    }
    Ok(())
}

const ONE: &str = "define ptr @f(ptr %x) {
  %a = alloca [4 x i8], align 4
  store ptr %a, ptr %x, align 8
  ret ptr %a
}";

const OTHER: &str = "define ptr @f(ptr %x) {
  %c = alloca [1 x i8], align 1
  %b = alloca [8 x i8], align 8
  %a = getelementptr i8, ptr %b, i64 3
  store ptr %a, ptr %x, align 8
  ret ptr %a
}";

const KEPT: &str = "define ptr @f(ptr %x) {
  ret ptr %x
}";

/// Whether a run of the target is one that the source allows.
fn run_refines(alloc: Global, source: &str, target: &str) -> Result<bool, Fail> {
    let source = run_on(alloc, source, FIRST, &[])?;
    let target = run_on(alloc, target, FIRST, &[])?;
    Ok(refines(&source.outcome, &target.outcome))
}

/// Pointers to freed blocks are equal, also in the bytes of a given block, whatever block and offset
/// they had.
#[test]
fn pointers_to_freed_blocks_are_equal(rt: HostRuntime) -> Result<(), Fail> {
    for (source, target, wanted) in [
        (ONE, OTHER, true),
        (OTHER, ONE, true),
        (ONE, KEPT, false),
        (KEPT, ONE, false),
    ] {
        let refines = run_refines(rt.alloc(), source, target)?;
        expect(refines == wanted, source)?;
    }
    Ok(())
}

/// Returns the first byte of the block 1 after storing 9 there.
const OVERWRITING: &str = "define i8 @f(ptr %x) {
  %a = load i8, ptr %x, align 1
  store i8 9, ptr %x, align 1
  %b = alloca [4 x i8], align 4
  ret i8 %a
}";

fn first_byte(memory: &Memory) -> Option<Byte> {
    let block = memory.as_slice().first()?;
    block.places.as_slice().first().copied()
}

/// Whether a run of that function leaves 9 instead of the byte that was given.
fn is_overwritten(left: &Memory, given: &Memory) -> bool {
    let ending = Ending::Return(Some(Value::Num(1)));
    first_byte(left) == Some(number_byte(9))
        && runs_refine(ending, left, ending, left)
        && !runs_refine(ending, left, ending, given)
}

/// Whether a run by this runner begins with the given blocks, and leaves another byte.
fn begins(runner: &mut Runner, f: &Function, input: &Input) -> Result<bool, NoMemory>
    requires ready { IsRunner f.now runner.old }
    requires runnable { IsRunnable f.now }
    ensures ready { IsRunner f.now runner.new }
{
    let is_returned = returns(runner, f, &BOUNDS, input, &[], 1)?;
    Ok(is_returned && is_overwritten(&runner.machine.memory, &input.blocks))
}

fn begins_again(runner: &mut Runner, f: &Function, input: &Input) -> Result<bool, NoMemory>
    requires ready { IsRunner f.now runner.old }
    requires runnable { IsRunnable f.now }
{
    let first = begins(runner, f, input)?;
    let second = begins(runner, f, input)?;
    Ok(first && second)
}

fn begins_twice(alloc: Global, f: &Function, input: &Input) -> Result<bool, NoMemory>
    requires { IsRunnable f.now }
{
    let mut runner = runner_for(alloc, f)?;
    begins_again(&mut runner, f, input)
}

/// Whether both of two runs in turn on the first block begin with the given blocks.
fn begins_on_first(alloc: Global, f: &Function) -> Result<bool, NoMemory>
    requires { IsRunnable f.now }
{
    let input = input_of(alloc, FIRST)?;
    begins_twice(alloc, f, &input)
}

#[test]
fn a_run_begins_with_the_given_blocks(rt: HostRuntime) -> Result<(), Fail> {
    let f = function_of(rt.alloc(), OVERWRITING)?;
    expect(
        begins_on_first(rt.alloc(), &f)?,
        "a run begins with the given blocks",
    )
}

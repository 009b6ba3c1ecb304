//! Verdicts of the judge by counting on pairs with pointers and memory.

ghost use Rattle.std.specs.List.{AllByRecursion};
ghost use Rattle.ir_reader.specs.Judgeable.{IsJudgeableEntry};

use crate::expecting::expect;
use crate::judge_rows::PAIRS;
use crate::pairs::pair_in;
use crate::words::{fields_in, numbers_in, value_in};
use ir_reader::read;
use ir_tree::Module;
use points::{Bounds, Budget, Point};
use slow_judge::slow;
use std::alloc::Global;
use std::test::Fail;
use verdicts::Verdict;

const BUDGET: Budget = Budget {
    rounds: 15,
    conflicts: 0,
    weight: 100_000,
};

/// The verdict on a module's pair within these bounds.
fn verdict(alloc: Global, module: &Module, bounds: &Bounds) -> Result<Verdict, Fail>
    requires { AllByRecursion IsJudgeableEntry module.now.entries }
{
    let pair = pair_in(module).ok_or("a pair of one signature")?;
    if bounds.turns > 64 || bounds.blocks > 4 || bounds.bytes > 32 {
        return Err(Fail::from("bounds in their ranges"));
    }
    let verdict = slow(alloc, &pair, bounds, &BUDGET)?;
    Ok(verdict)
}

/// Whether a point has this argument, these choices, and given blocks of no bytes.
fn is_point(alloc: Global, point: &Point, arg: &str, tape: &str) -> Result<bool, Fail> {
    let arg = value_in(arg).ok_or("an argument")?;
    let tape = numbers_in(alloc, tape)?;
    Ok(
        point.input.args.as_slice() == [arg].as_slice()
            && point.input.blocks.as_slice().iter().all(|b| b.size == 0)
            && point.tape.as_slice() == tape.as_slice(),
    )
}

/// Whether a verdict is `correct`, or the one with this counterexample.
fn is_wanted(alloc: Global, verdict: &Verdict, wanted: &str) -> Result<bool, Fail> {
    match (verdict, wanted.split_once(":")) {
        (Verdict::Correct, None) => Ok(wanted == "correct"),
        (Verdict::Incorrect(point), Some((arg, tape))) => {
            is_point(
                alloc,
                point,
                arg.strip_prefix("incorrect ").unwrap_or(""),
                tape,
            )
        }
        _ => Ok(false),
    }
}

/// The verdict on the pair of a text within these bounds.
fn verdict_on(alloc: Global, pair: &str, bounds: &Bounds) -> Result<Verdict, Fail> {
    let module = read(alloc, pair.as_bytes()).ok().ok_or("a module")?;
    verdict(alloc, &module, bounds)
}

fn holds(alloc: Global, line: &str) -> Result<bool, Fail> {
    let (bytes, wanted, pair) = fields_in(line).ok_or("a row")?;
    let bounds = Bounds {
        turns: 0,
        blocks: 2,
        bytes: bytes.parse::<u64>()?,
    };
    let verdict = verdict_on(alloc, pair, &bounds)?;
    is_wanted(alloc, &verdict, wanted)
}

#[test]
fn verdicts_on_pairs_with_memory(rt: HostRuntime) -> Result<(), Fail> {
    for line in PAIRS.lines() {
        expect(holds(rt.alloc(), line)?, line)?;
    }
    Ok(())
}

/// A run may make five choices, of which the source returns the first.
const CHOICE: &str =
    "define i4 @s() { %a = freeze i4 poison ret i4 %a } define i4 @t() { ret i4 3 }";

const NO_BLOCK: Bounds = Bounds {
    turns: 4,
    blocks: 0,
    bytes: 8,
};

#[test]
fn a_choice_is_found_where_no_block_is_given(rt: HostRuntime) -> Result<(), Fail> {
    let verdict = verdict_on(rt.alloc(), CHOICE, &NO_BLOCK)?;
    expect(is_wanted(rt.alloc(), &verdict, "correct")?, CHOICE)
}

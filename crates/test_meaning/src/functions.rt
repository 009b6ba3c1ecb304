//! Functions that the tests hold as text, and their runs.

ghost use Rattle.std.specs.Prelude.{IfOk};
ghost use Rattle.points.specs.Runnable.{IsRunnable};
ghost use Rattle.choice_interp.specs.Runners.{IsRunner};

use byte_block::Value;
use choice_interp::{Ending, Ran, Runner, interpret, run_again};
use ir_reader::read;
use ir_tree::{Entry, Function, is_within_limits};
use points::{Bounds, Input};
use std::alloc::Global;
use std::test::Fail;
use support::NoMemory;

/// The function of a text that has one.
#[tactic(auto, using(points::proofs::Runnable::runnable))]
pub fn function_of(alloc: Global, text: &str) -> Result<Function, Fail>
    ensures { IfOk result IsRunnable }
{
    let Ok(module) = read(alloc, text.as_bytes()) else {
        return Err(Fail::from("no module"));
    };
    let mut entries = module.entries.into_vec();
    let Entry { function, .. } = entries.pop().ok_or("no function")?;
    match function {
        Ok(function) if is_within_limits(&function) => Ok(function),
        _ => Err(Fail::from("no function that is read")),
    }
}

/// The run of a text's function.
pub fn run(
    alloc: Global,
    text: &str,
    bounds: &Bounds,
    input: &Input,
    tape: &[u64],
) -> Result<Ran, Fail> {
    let f = function_of(alloc, text)?;
    let ran = interpret(alloc, &f, bounds, input, tape)?;
    Ok(ran)
}

/// Whether one more run by a runner returns a number and takes the whole tape.
pub fn returns(
    runner: &mut Runner,
    f: &Function,
    bounds: &Bounds,
    input: &Input,
    tape: &[u64],
    number: u64,
) -> Result<bool, NoMemory>
    requires ready { IsRunner f.now runner.old }
    requires runnable { IsRunnable f.now }
    ensures ready { IsRunner f.now runner.new }
{
    let ending = run_again(runner, f, bounds, input, tape)?;
    let is_returned = ending == Ending::Return(Some(Value::Num(number)));
    Ok(is_returned && runner.machine.taken.as_slice() == tape)
}

//! One run, its outcome, and whether an outcome says nothing of memory that was not given.

ghost use Rattle.std.specs.Prelude.{◌≡◌, ◌↔◌, IsTrue, IfOk, ℕ, slice_index};
ghost use Rattle.points.specs.Runnable.{IsRunnable};
ghost use Rattle.points.specs.Run.{run_of};
ghost use Rattle.choice_interp.specs.Ran.{Shows, run_with};

use crate::ending::Ending;
use crate::rerun::run_again;
use crate::runners::{Runner, runner_for};
use ir_tree::Function;
use points::{Bounds, Input, Machine, Outcome};
use std::alloc::Global;
use support::NoMemory;

/// How a run ended, how many words of the tape it read, and whether the tape is exactly the choices
/// that it took: each word that was read is below its choice's bound, and each other one is 0.
#[derive(Drop)]
pub struct Ran {
    pub outcome: Outcome,
    pub read: u64,
    pub plain: bool,
}

/// Whether each word of the tape is the choice at its index, and 0 where there is none.
pub fn is_plain(tape: &[u64], taken: &[u64]) -> bool
    ensures { IsTrue result ↔ ((k : ℕ) → slice_index tape.now k ≡ slice_index taken.now k) }
{
    for i in 0..tape.len().max(taken.len()) {
        if tape.get(i).copied().unwrap_or(0) != taken.get(i).copied().unwrap_or(0) {
            return false;
        }
    }
    true
}

// What is reported of the run that ended so in this machine.
fn ran_of(machine: Machine, ending: Ending, tape: &[u64]) -> Ran
    ensures { Shows tape.now (run_with ending machine) result }
{
    let read = machine.taken.len() as u64;
    let plain = is_plain(tape, machine.taken.as_slice());
    let Machine { memory, .. } = machine;
    Ran {
        outcome: ending.with_memory(memory),
        read,
        plain,
    }
}

/// The run of a function on an input and a tape.
pub fn interpret(
    alloc: Global,
    f: &Function,
    bounds: &Bounds,
    input: &Input,
    tape: &[u64],
) -> Result<Ran, NoMemory>
    requires runnable { IsRunnable f.now }
    ensures { IfOk result (Shows tape.now (run_of f.now bounds.now input.now tape.now)) }
{
    let mut runner = runner_for(alloc, f)?;
    let ending = run_again(&mut runner, f, bounds, input, tape)?;
    let Runner { machine, .. } = runner;
    Ok(ran_of(machine, ending, tape))
}

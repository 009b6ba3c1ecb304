//! The steps of a run, from the call to its end.

ghost use Rattle.std.specs.Prelude.{◌≡◌, ℕ, List, [], length, IfOk, All};
ghost use Rattle.ir_tree.specs.BlockIndexes.{IsIndex};
ghost use Rattle.ir_tree.specs.Limits.{HasSmallObjects};
ghost use Rattle.points.specs.Runnable.{IsRunnable};
ghost use Rattle.points.specs.Run.{first_machine};
ghost use Rattle.choice_interp.specs.Left.{left_by};
ghost use Rattle.run_trace.specs.Items.{Phis, State, At, Done, Missing, first_state};
ghost use Rattle.run_trace.specs.Trace.{Leads, IsTraceOf};
ghost use Rattle.run_trace.specs.Parts.{position, ShowsAt};

use crate::arguments::trace_arguments;
use crate::blocks::trace_block;
use crate::ends::Next;
use crate::steps::{Reason, Site, Step, Trace};
use crate::tracer::Tracer;
use choice_interp::{Ending, Runner, begin, free_locals, runner_for};
use ir_tree::Function;
use points::{Bounds, Input, Machine};
use std::alloc::Global;
use support::{NoMemory, Sequence};

/// The function has no block at the index.
fn missing_step(alloc: Global, machine: &Machine, at: usize) -> Step
    ensures { (tape : List ℕ) → ShowsAt Missing at 0 tape machine.now result }
{
    Step {
        block: at,
        turn: machine.turn,
        site: Site::NoBlock,
        operands: Sequence::from_vec(Vec::new(alloc)),
        result: None,
        taken: Sequence::from_vec(Vec::new(alloc)),
        to: None,
        location: None,
        reason: Some(Reason::MissingBlock),
    }
}

/// The blocks of a function, from the entry on, with at most `turns` backward jumps.
fn trace_blocks(
    tracer: &mut Tracer,
    f: &Function,
    turns: u64,
    tape: &[u64],
) -> Result<Ending, NoMemory>
    requires turn { tracer.old.machine.turn ≡ 0 }
    requires index { IsIndex f.now tracer.old.index }
    requires limits { All HasSmallObjects f.now.blocks }
    ensures { IfOk result (λ ending. (first : State) → Leads f.now tape.now first tracer.old.steps (At Phis (position 0 0 turns tracer.old.machine))
        → Leads f.now tape.now first tracer.new.steps (Done (left_by ending tracer.new.machine))) }
{
    let count = f.blocks.len();
    let mut at = 0;
    let mut jumps = turns;
    while at < count {
        match trace_block(tracer, f, at, jumps, tape)? {
            Next::Enter(to, rest) => {
                at = to;
                jumps = rest;
            }
            Next::Over(ending) => return Ok(ending),
        }
    }
    let missing = missing_step(tracer.room.alloc, &tracer.machine, at);
    tracer.steps.push(missing)?;
    Ok(Ending::Ub)
}

fn trace_call(
    tracer: &mut Tracer,
    f: &Function,
    bounds: &Bounds,
    input: &Input,
    tape: &[u64],
) -> Result<Ending, NoMemory>
    requires machine { tracer.old.machine ≡ first_machine f.now input.now }
    requires index { IsIndex f.now tracer.old.index }
    requires steps { tracer.old.steps ≡ [] }
    requires limits { All HasSmallObjects f.now.blocks }
    ensures { IfOk result (λ ending. Leads f.now tape.now (first_state f.now bounds.now input.now) tracer.new.steps (Done (left_by ending tracer.new.machine))) }
{
    let goes = trace_arguments(
        tracer.room.alloc,
        &mut tracer.steps,
        tracer.machine.turn,
        f.parameters.as_slice(),
        input.args.as_slice(),
    )?;
    if !goes {
        return Ok(Ending::Ub);
    }
    let ending = trace_blocks(tracer, f, bounds.turns, tape)?;
    Ok(ending)
}

fn tracer_for(alloc: Global, f: &Function, input: &Input) -> Result<Tracer, NoMemory>
    ensures machine { IfOk result (λ tracer. tracer.machine ≡ first_machine f.now input.now) }
    ensures index { IfOk result (λ tracer. IsIndex f.now tracer.index) }
    ensures steps { IfOk result (λ tracer. tracer.steps ≡ []) }
{
    let mut runner = runner_for(alloc, f)?;
    begin(&mut runner.machine, alloc, f, input)?;
    let Runner {
        machine,
        index,
        room,
    } = runner;
    Ok(Tracer {
        machine,
        room,
        index,
        steps: Sequence::from_vec(Vec::new(alloc)),
    })
}

/// The trace of a run that ended so; its local blocks are freed.
fn trace_of(alloc: Global, tracer: Tracer, ending: Ending) -> Trace
    ensures steps { result.steps ≡ tracer.steps }
    ensures outcome { result.outcome ≡ (left_by ending tracer.machine).outcome }
    ensures read { result.read ≡ length tracer.machine.taken }
{
    let Tracer { machine, steps, .. } = tracer;
    let read = machine.taken.len() as u64;
    let Machine { mut memory, .. } = machine;
    free_locals(alloc, &mut memory);
    Trace {
        steps,
        outcome: ending.with_memory(memory),
        read,
    }
}

/// The run of a function on an input and a tape, step by step. Its steps are as many as the
/// parameters, the phis, the instructions and the terminators that it comes to.
///
/// # Errors
/// Only out of memory.
pub fn trace(
    alloc: Global,
    f: &Function,
    bounds: &Bounds,
    input: &Input,
    tape: &[u64],
) -> Result<Trace, NoMemory>
    requires runnable { IsRunnable f.now }
    ensures { IfOk result (IsTraceOf f.now bounds.now input.now tape.now) }
{
    let mut tracer = tracer_for(alloc, f, input)?;
    let ending = trace_call(&mut tracer, f, bounds, input, tape)?;
    Ok(trace_of(alloc, tracer, ending))
}

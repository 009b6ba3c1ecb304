//! The steps of a block.

ghost use Rattle.std.specs.Prelude.{◌≡◌, ◌+◌, ◌<◌, ◌^◌, length, IfOk, OnOk, Some, All, slice_get};
ghost use Rattle.ir_tree.specs.BlockIndexes.{IsIndex};
ghost use Rattle.ir_tree.specs.Limits.{HasSmallObjects};
ghost use Rattle.run_trace.specs.Items.{Phis, State, At};
ghost use Rattle.run_trace.specs.Trace.{Leads};
ghost use Rattle.run_trace.specs.Parts.{position, state_after, TurnsLeft, IsOnward};

use crate::ends::{Next, trace_end};
use crate::insts::trace_insts;
use crate::phis::trace_phis;
use crate::tracer::Tracer;
use choice_interp::{Ending, enter};
use ir_tree::Function;
use support::NoMemory;

/// The block at an index, with this many backward jumps left, and what comes next.
pub fn trace_block(
    tracer: &mut Tracer,
    f: &Function,
    at: usize,
    jumps: u64,
    tape: &[u64],
) -> Result<Next, NoMemory>
    requires within { at < length f.now.blocks }
    requires index { IsIndex f.now tracer.old.index }
    requires limits { All HasSmallObjects f.now.blocks }
    requires turn { tracer.old.machine.turn + jumps < 2 ^ 64 }
    ensures shown { IfOk result (λ next. (first : State) → Leads f.now tape.now first tracer.old.steps (At Phis (position at 0 jumps tracer.old.machine))
        → Leads f.now tape.now first tracer.new.steps (state_after next tracer.new.machine)) }
    ensures onward { IfOk result (IsOnward at jumps) }
    ensures turn { IfOk result (TurnsLeft (tracer.old.machine.turn + jumps) tracer.new.machine.turn) }
    ensures index { OnOk result (tracer.new.index ≡ tracer.old.index) }
{
    let block = f.blocks.get(at);
    trace_phis(
        tracer.room.alloc,
        &mut tracer.steps,
        &tracer.machine,
        at,
        block,
    )?;
    enter(&mut tracer.machine, &mut tracer.room.phis, block)?;
    if !trace_insts(tracer, at, block, tape)? {
        return Ok(Next::Over(Ending::Ub));
    }
    let next = trace_end(tracer, f, at, jumps, block, tape)?;
    Ok(next)
}

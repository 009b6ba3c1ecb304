//! Runs that reuse a machine and room.

ghost use Rattle.std.specs.Prelude.{◌≡◌, length, IfOk, Some, All};
ghost use Rattle.ir_tree.specs.BlockIndexes.{IsIndex};
ghost use Rattle.ir_tree.specs.Limits.{HasSmallObjects};
ghost use Rattle.points.specs.Runnable.{IsRunnable};
ghost use Rattle.points.specs.Run.{exit_insts, exit_of, run_turns, run_of};
ghost use Rattle.choice_interp.specs.Left.{exit_with, left_by};
ghost use Rattle.choice_interp.specs.Ran.{run_with};
ghost use Rattle.choice_interp.specs.Runners.{IsRunner};

use crate::blocks::free_locals;
use crate::ending::Ending;
use crate::entry::{begin, breaks_no_undef};
use crate::flow::{Left, enter, jump, leave};
use crate::room::Room;
use crate::runners::Runner;
use crate::stepping::step;
use ir_tree::{Block, BlockIndex, Function};
use points::{Bounds, Input, Machine};
use support::NoMemory;

/// The instructions of a block and its end, in a function whose return is `noundef` or not.
fn run_insts(
    machine: &mut Machine,
    room: &mut Room,
    no_undef: bool,
    block: &Block,
    tape: &[u64],
) -> Result<Left, NoMemory>
    requires limits { HasSmallObjects block.now }
    ensures exit { IfOk result (λ left. exit_insts no_undef block.now.insts block.now.terminator tape.now machine.old ≡ exit_with left machine.new) }
    ensures registers { length machine.new.registers ≡ length machine.old.registers }
    ensures turn { machine.new.turn ≡ machine.old.turn }
{
    for inst in block.insts.as_slice() {
        if !step(machine, room, inst, tape)? {
            return Ok(Left::Over(Ending::Ub));
        }
    }
    let left = leave(machine, no_undef, &block.terminator, tape)?;
    Ok(left)
}

/// A block, from its phis to its end.
fn run_block(
    machine: &mut Machine,
    room: &mut Room,
    no_undef: bool,
    block: &Block,
    tape: &[u64],
) -> Result<Left, NoMemory>
    requires limits { HasSmallObjects block.now }
    ensures exit { IfOk result (λ left. exit_of no_undef (Some block.now) tape.now machine.old ≡ exit_with left machine.new) }
    ensures registers { length machine.new.registers ≡ length machine.old.registers }
    ensures turn { machine.new.turn ≡ machine.old.turn }
{
    enter(machine, &mut room.phis, block)?;
    let left = run_insts(machine, room, no_undef, block, tape)?;
    Ok(left)
}

/// The blocks of a function, from the entry on, with at most `turns` backward jumps.
fn run_blocks(
    machine: &mut Machine,
    room: &mut Room,
    f: &Function,
    index: &BlockIndex,
    turns: u64,
    tape: &[u64],
) -> Result<Ending, NoMemory>
    requires turn { machine.old.turn ≡ 0 }
    requires index { IsIndex f.now index.now }
    requires limits { All HasSmallObjects f.now.blocks }
    ensures run { IfOk result (λ ending. run_turns f.now tape.now turns 0 machine.old ≡ left_by ending machine.new) }
    ensures registers { length machine.new.registers ≡ length machine.old.registers }
{
    let blocks = f.blocks.as_slice();
    let mut at = 0;
    let mut jumps = turns;
    while at < blocks.len() {
        match run_block(machine, room, f.returns_no_undef, &blocks[at], tape)? {
            Left::Over(ending) => return Ok(ending),
            Left::To(label) => {
                let to = index.place(f, label);
                match jump(machine, at, to, jumps) {
                    Some(rest) => {
                        jumps = rest;
                        at = to;
                    }
                    None => return Ok(Ending::Beyond),
                }
            }
        }
    }
    Ok(Ending::Ub)
}

/// Runs a function on an input and a tape, by a runner of it. It allocates only for the input's blocks
/// and those of `alloca`, and for choices, for the phis of a block and for the indices of a
/// `getelementptr` where there are more of them than any run by this runner had before. When out of
/// memory the runner is left in the middle of the run, and fit for another run.
pub fn run_again(
    runner: &mut Runner,
    f: &Function,
    bounds: &Bounds,
    input: &Input,
    tape: &[u64],
) -> Result<Ending, NoMemory>
    requires ready { IsRunner f.now runner.old }
    requires runnable { IsRunnable f.now }
    ensures run { IfOk result (λ ending. run_of f.now bounds.now input.now tape.now ≡ run_with ending runner.new.machine) }
    ensures ready { IsRunner f.now runner.new }
{
    let alloc = runner.room.alloc;
    begin(&mut runner.machine, alloc, f, input)?;
    if breaks_no_undef(f.parameters.as_slice(), input.args.as_slice()) {
        return Ok(Ending::Ub);
    }
    let ending = run_blocks(
        &mut runner.machine,
        &mut runner.room,
        f,
        &runner.index,
        bounds.turns,
        tape,
    )?;
    free_locals(alloc, &mut runner.machine.memory);
    Ok(ending)
}

//! One copy after another.

ghost use Rattle.std.specs.Prelude.{◌≡◌, ◌<◌, ◌+◌, ◌^◌, OnOk, None, Some, length, slice_get};
ghost use Rattle.ir_tree.specs.declared.tree.Block.{Block};
ghost use Rattle.ir_tree.specs.Flow.{targets};
ghost use Rattle.points.specs.Run.{exit_insts};
ghost use Rattle.unroll.specs.Layers.{Where, left_by, pass_copy, walk};
ghost use Rattle.bv_terms.specs.Trees.{Keeps, bit_at};
ghost use Rattle.mem_terms.specs.Values.{Each};
ghost use Rattle.mem_terms.specs.Inputs.{AreWords};
ghost use Rattle.run_terms.specs.Runs.{IsState, Scene, Sees, shape_of};
ghost use Rattle.run_terms.specs.Frontier.{HasShape, IsCopyIn, IsFrontier, Simulates, MatchesFrontier, placed, shape_in};
ghost use Rattle.ir_tree.specs.Limits.{CanRun};

use bv_terms::Terms;
use run_terms::{Frontier, Leaving, RunState, Setting, and_not, leave, step_all, take_entry};
use support::NoMemory;
use unroll::BlockCopy;

/// The copy of this number from the state at its entry: its instructions, and its end.
fn run_copy(
    setting: Setting,
    terms: &mut Terms,
    frontier: &mut Frontier,
    number: usize,
    copy: &BlockCopy,
    entry: RunState,
) -> Result<(), NoMemory>
    requires frontier { IsFrontier terms.old frontier.old }
    requires shape { HasShape setting frontier.old }
    requires number { number + 1 < 2 ^ 64 }
    requires copy { IsCopyIn setting.f.now copy.now }
    requires run { CanRun setting.f.now }
    requires entry { IsState terms.old entry }
    requires fits { shape_of entry ≡ shape_in setting }
    requires tape { AreWords terms.old setting.tape.now }
    ensures frontier { OnOk result (IsFrontier terms.new frontier.new) }
    ensures shape { OnOk result (HasShape setting.entry frontier.new) }
    ensures simulates { OnOk result ((g : Scene) (block : Block) → Sees g terms.old setting.entry.tape.now → slice_get setting.entry.f.now.blocks copy.now.block ≡ Some block
        → Simulates g terms.old terms.new frontier.old frontier.new (bit_at g.v terms.old entry.alive) (record { label = block.label; turn = copy.now.turn }) entry (λ m. placed setting.entry.f.now setting.entry.copies.now (number + 1)
        (left_by (targets block.terminator) copy.now.edges (exit_insts setting.entry.f.now.returns_no_undef block.insts block.terminator g.tape m)))) }
    ensures kept { Keeps terms.old terms.new }
{
    let block = setting.f.blocks.get(copy.block);
    let alive = entry.alive;
    let mut state = entry;
    step_all(
        setting,
        terms,
        &mut state,
        block.insts.as_slice(),
        copy.turn,
    )?;
    let undefined = and_not(terms, alive, state.alive)?;
    let ending = &mut frontier.ending;
    ending.end_undefined(terms, undefined, state.tally)?;
    let leaving = Leaving {
        label: block.label,
        ahead: number + 1,
        c: state.alive,
        path: state.path.as_slice(),
        state: &state,
    };
    let edges = copy.edges.as_slice();
    leave(setting, terms, frontier, leaving, &block.terminator, edges)
}

/// The copy of this number, if an edge came to it.
fn pass_copy(
    setting: Setting,
    terms: &mut Terms,
    frontier: &mut Frontier,
    number: usize,
    copy: &BlockCopy,
) -> Result<(), NoMemory>
    requires frontier { IsFrontier terms.old frontier.old }
    requires shape { HasShape setting frontier.old }
    requires number { slice_get setting.copies.now number ≡ Some copy.now }
    requires next { number + 1 < 2 ^ 64 }
    requires copy { IsCopyIn setting.f.now copy.now }
    requires run { CanRun setting.f.now }
    requires tape { AreWords terms.old setting.tape.now }
    ensures frontier { OnOk result (IsFrontier terms.new frontier.new) }
    ensures shape { OnOk result (HasShape setting.entry frontier.new) }
    ensures passes { OnOk result ((g : Scene) (w : Where) → Sees g terms.old setting.entry.tape.now → MatchesFrontier g terms.old frontier.old (Some (placed setting.entry.f.now setting.entry.copies.now number w))
        → MatchesFrontier g terms.new frontier.new (Some (placed setting.entry.f.now setting.entry.copies.now (number + 1) (pass_copy setting.entry.f.now number copy.now g.tape w)))) }
    ensures kept { Keeps terms.old terms.new }
{
    match take_entry(&mut frontier.ahead, number) {
        Some(entry) => {
            run_copy(setting, terms, frontier, number, copy, entry)?;
            Ok(())
        }
        None => Ok(()),
    }
}

/// All copies, each once and in order.
pub fn pass_all(
    setting: Setting,
    terms: &mut Terms,
    frontier: &mut Frontier,
) -> Result<(), NoMemory>
    requires frontier { IsFrontier terms.old frontier.old }
    requires shape { HasShape setting frontier.old }
    requires copies { Each (IsCopyIn setting.f.now) setting.copies.now }
    requires run { CanRun setting.f.now }
    requires tape { AreWords terms.old setting.tape.now }
    ensures frontier { OnOk result (IsFrontier terms.new frontier.new) }
    ensures shape { OnOk result (HasShape setting.entry frontier.new) }
    ensures passes { OnOk result ((g : Scene) (w : Where) → Sees g terms.old setting.entry.tape.now → MatchesFrontier g terms.old frontier.old (Some (placed setting.entry.f.now setting.entry.copies.now 0 w))
        → MatchesFrontier g terms.new frontier.new (Some (placed setting.entry.f.now setting.entry.copies.now (length setting.entry.copies.now) (walk setting.entry.f.now 0 setting.entry.copies.now g.tape w)))) }
    ensures kept { Keeps terms.old terms.new }
{
    for (number, copy) in setting.copies.as_slice().iter().enumerate() {
        pass_copy(setting, terms, frontier, number, copy)?;
    }
    Ok(())
}

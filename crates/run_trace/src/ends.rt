//! The steps of terminators (LLVM Language Reference, "Terminator Instructions").

ghost use Rattle.std.specs.Prelude.{◌≡◌, ◌+◌, ◌<◌, ◌^◌, ℕ, List, length, ◌&&◌, not, if◌then◌else◌, Some, None, IfOk, OnOk, IsSomeAnd, slice_get};
ghost use Rattle.std.specs.List.{list_any};
ghost use Rattle.ir_tree.specs.declared.tree.Function.{Function as Code};
ghost use Rattle.ir_tree.specs.BlockIndexes.{IsIndex};
ghost use Rattle.points.specs.declared.machine.Machine.{Machine as Registers};
ghost use Rattle.points.specs.Run.{exit_by};
ghost use Rattle.choice_interp.specs.Left.{exit_with};
ghost use Rattle.run_trace.specs.Operands.{end_operands, is_poison_name};
ghost use Rattle.run_trace.specs.Items.{Insts, Leaves, State, At, after_exit};
ghost use Rattle.run_trace.specs.Reasons.{is_some_poison, IsEndReason};
ghost use Rattle.run_trace.specs.Trace.{value_of_exit, block_of_exit, HasReason, Shows, Leads};
ghost use Rattle.run_trace.specs.Parts.{position, state_after, TurnsLeft, IsOnward, IsFailedExit, IsReasonOver, IsLeaving, is_too_many};

use crate::insts::{is_some_poison, words_after};
use crate::operands::{end_operands, has_poison_name, values_of};
use crate::steps::{Reason, Site, Step};
use crate::tracer::Tracer;
use byte_block::Value;
use choice_interp::{Ending, Left, jump, leave};
use ir_tree::{Block, BlockIndex, Function, Terminator, TypedOperand};
use points::Machine;
use std::alloc::Global;
use support::NoMemory;

/// What comes after a block: the block at an index, with this many backward jumps left, or the end.
#[derive(Clone, Copy, Debug, PartialEq, Eq)]
pub enum Next {
    Enter(usize, u64),
    Over(Ending),
}

/// A block, at an index and with backward jumps left, is left this way, for the block at the index
/// `to` if any; so many words of the tape had been read.
#[derive(Clone, Copy, Debug, PartialEq, Eq)]
pub struct Leaving {
    pub at: usize,
    pub jumps: u64,
    pub left: Left,
    pub to: Option<usize>,
    pub read: usize,
}

/// What a block that is left this way returns.
fn value_of_exit(left: Left) -> Option<Value>
    ensures { (m : Registers) → result ≡ value_of_exit (exit_with left m) }
{
    match left {
        Left::Over(Ending::Return(value)) => value,
        Left::Over(Ending::Ub | Ending::Beyond) | Left::To(_) => None,
    }
}

/// The index of the block that it leads to.
fn block_of_exit(index: &BlockIndex, f: &Function, left: Left) -> Option<usize>
    requires { IsIndex f.now index.now }
    ensures { (m : Registers) → result ≡ block_of_exit f.now (exit_with left m) }
{
    match left {
        Left::To(label) => Some(index.place(f, label)),
        Left::Over(_) => None,
    }
}

/// Why a terminator is undefined behaviour, where it is.
fn failure_of(terminator: &Terminator) -> Option<Reason>
    ensures { (f : Code) (tape : List ℕ) (at jumps : ℕ) (m : Registers) → IsFailedExit (exit_by f.returns_no_undef terminator.now tape m)
        → IsSomeAnd result (λ r. IsEndReason r f terminator.now tape at jumps m) }
{
    match terminator {
        Terminator::Return(_) => Some(Reason::PoisonReturn),
        Terminator::CondBranch { .. } => Some(Reason::PoisonCondition),
        Terminator::Switch { .. } => Some(Reason::PoisonCondition),
        Terminator::Unreachable => Some(Reason::Unreachable),
        Terminator::Branch { .. } => None,
    }
}

fn is_too_many(leaving: &Leaving) -> bool
    ensures { result ≡ is_too_many leaving.now.at leaving.now.jumps leaving.now.to }
{
    match leaving.to {
        Some(to) => leaving.at >= to && leaving.jumps == 0,
        None => false,
    }
}

fn jump_reason(leaving: &Leaving) -> Option<Reason>
    ensures { let n = leaving.now in result ≡ (if is_too_many n.at n.jumps n.to then Some Reason.TooManyJumps else None) }
{
    if is_too_many(leaving) {
        Some(Reason::TooManyJumps)
    } else {
        None
    }
}

/// Why a `ret` returns poison, where its operand was none before.
fn return_reason(
    registers: &[Value],
    operands: &[TypedOperand],
    value: Option<Value>,
) -> Option<Reason>
    ensures { result ≡ (if is_some_poison value && not (list_any (is_poison_name registers.now) operands.now) then Some Reason.PoisonOperand else None) }
{
    if is_some_poison(value) && !has_poison_name(registers, operands) {
        Some(Reason::PoisonOperand)
    } else {
        None
    }
}

/// Why a terminator that ends the run this way does so, or returns poison that was none before.
fn over_reason(
    registers: &[Value],
    operands: &[TypedOperand],
    terminator: &Terminator,
    ending: Ending,
) -> Option<Reason>
    ensures { IsReasonOver ending registers.now operands.now terminator.now result }
{
    match ending {
        Ending::Return(value) => return_reason(registers, operands, value),
        Ending::Ub => failure_of(terminator),
        Ending::Beyond => failure_of(terminator),
    }
}

/// Why a terminator ends the run, or returns poison that was none before.
fn end_reason(
    machine: &Machine,
    operands: &[TypedOperand],
    terminator: &Terminator,
    leaving: &Leaving,
) -> Option<Reason>
    requires { operands.now ≡ end_operands terminator.now }
    ensures { (f : Code) (tape : List ℕ) (m : Registers) (k : ℕ) → IsLeaving f terminator.now tape m machine.now leaving.now
        → HasReason f tape (Leaves terminator.now) (position leaving.now.at k leaving.now.jumps m) result }
{
    match leaving.left {
        Left::Over(ending) => {
            over_reason(machine.registers.as_slice(), operands, terminator, ending)
        }
        Left::To(_) => jump_reason(leaving),
    }
}

/// The step of a terminator that has left its block.
fn end_step(
    alloc: Global,
    machine: &Machine,
    terminator: &Terminator,
    leaving: &Leaving,
) -> Result<Step, NoMemory>
    ensures { IfOk result (λ step. (f : Code) (tape : List ℕ) (m : Registers) (k : ℕ) → IsLeaving f terminator.now tape m machine.now leaving.now
        → Shows f tape (Leaves terminator.now) (position leaving.now.at k leaving.now.jumps m) step) }
{
    let operands = end_operands(alloc, terminator)?;
    let values = values_of(alloc, machine.registers.as_slice(), operands.as_slice())?;
    Ok(Step {
        block: leaving.at,
        turn: machine.turn,
        site: Site::Terminator,
        operands: values,
        result: value_of_exit(leaving.left),
        taken: words_after(alloc, machine, leaving.read)?,
        to: leaving.to,
        location: None,
        reason: end_reason(machine, operands.as_slice(), terminator, leaving),
    })
}

/// The jump, if it is one.
fn next_after(machine: &mut Machine, leaving: &Leaving) -> Next
    requires turn { machine.old.turn + leaving.now.jumps < 2 ^ 64 }
    ensures next { (f : Code) → leaving.now.to ≡ block_of_exit f (exit_with leaving.now.left machine.old)
        → after_exit f (position leaving.now.at 0 leaving.now.jumps machine.old) (exit_with leaving.now.left machine.old) ≡ state_after result machine.new }
    ensures onward { IsOnward leaving.now.at leaving.now.jumps result }
    ensures turn { TurnsLeft (machine.old.turn + leaving.now.jumps) machine.new.turn result }
{
    match (leaving.left, leaving.to) {
        (Left::To(_), Some(to)) => match jump(machine, leaving.at, to, leaving.jumps) {
            Some(rest) => Next::Enter(to, rest),
            None => Next::Over(Ending::Beyond),
        },
        (Left::To(_), None) => Next::Over(Ending::Beyond),
        (Left::Over(ending), _) => Next::Over(ending),
    }
}

/// The terminator of a block at an index, with this many backward jumps left, and what comes next.
pub fn trace_end(
    tracer: &mut Tracer,
    f: &Function,
    at: usize,
    jumps: u64,
    block: &Block,
    tape: &[u64],
) -> Result<Next, NoMemory>
    requires index { IsIndex f.now tracer.old.index }
    requires turn { tracer.old.machine.turn + jumps < 2 ^ 64 }
    ensures shown { IfOk result (λ next. (first : State) → slice_get f.now.blocks at ≡ Some block.now
        → Leads f.now tape.now first tracer.old.steps (At Insts (position at (length block.now.insts) jumps tracer.old.machine))
        → Leads f.now tape.now first tracer.new.steps (state_after next tracer.new.machine)) }
    ensures onward { IfOk result (IsOnward at jumps) }
    ensures turn { IfOk result (TurnsLeft (tracer.old.machine.turn + jumps) tracer.new.machine.turn) }
    ensures index { OnOk result (tracer.new.index ≡ tracer.old.index) }
{
    let alloc = tracer.room.alloc;
    let read = tracer.machine.taken.len();
    let terminator = &block.terminator;
    let left = leave(&mut tracer.machine, f.returns_no_undef, terminator, tape)?;
    let leaving = Leaving {
        at,
        jumps,
        left,
        to: block_of_exit(&tracer.index, f, left),
        read,
    };
    let shown = end_step(alloc, &tracer.machine, terminator, &leaving)?;
    tracer.steps.push(shown)?;
    Ok(next_after(&mut tracer.machine, &leaving))
}

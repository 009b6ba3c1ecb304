//! The steps of instructions.

ghost use Rattle.std.specs.Prelude.{◌≡◌, ◌&&◌, ◌||◌, not, ℕ, List, drop, false, Some, None, if◌then◌else◌, IfOk, OnOk};
ghost use Rattle.points.specs.declared.machine.Machine.{Machine as State};
ghost use Rattle.ir_tree.specs.Limits.{HasSmallTypes, HasSmallObjects};
ghost use Rattle.points.specs.Run.{act};
ghost use Rattle.run_trace.specs.Operands.{name_of, value_after};
ghost use Rattle.run_trace.specs.Reasons.{is_some_poison};
ghost use Rattle.run_trace.specs.Items.{Acts, Insts};
ghost use Rattle.run_trace.specs.Parts.{IsBefore, ShowsAt, AddsStep, GoesOn, after_insts};

use crate::causes::cause_of;
use crate::locations::location_of;
use crate::operands::{
    effective_operands, has_poison_literal, has_poison_name, operands_of, values_of,
};
use crate::steps::{Location, Reason, Site, Step};
use crate::tracer::Tracer;
use byte_block::Value;
use choice_interp::{is_poison, step};
use ir_tree::{Block, Inst};
use memory_access::Index;
use points::Machine;
use std::alloc::Global;
use support::{NoMemory, Sequence};

/// What is shown of an instruction and does not depend on what it does; whether one of its operands
/// was poison before; and why it gives poison or is undefined behaviour, if it does.
#[derive(Drop)]
pub struct Before {
    pub turn: u64,
    pub read: usize,
    pub operands: Sequence<Value>,
    pub location: Option<Location>,
    pub inherits: bool,
    pub cause: Option<Reason>,
}

fn look_at(
    alloc: Global,
    machine: &Machine,
    values: &mut Sequence<Index>,
    inst: &Inst,
) -> Result<Before, NoMemory>
    requires { HasSmallTypes inst.now }
    ensures { IfOk result (IsBefore inst.now machine.now) }
{
    let registers = machine.registers.as_slice();
    let operands = operands_of(alloc, inst)?;
    let effective = effective_operands(alloc, inst, registers)?;
    let is_literal = has_poison_literal(registers, effective.as_slice());
    Ok(Before {
        turn: machine.turn,
        read: machine.taken.len(),
        operands: values_of(alloc, registers, operands.as_slice())?,
        location: location_of(machine, inst),
        inherits: has_poison_name(registers, effective.as_slice()),
        cause: cause_of(machine, values, inst, is_literal)?,
    })
}

fn name_of(inst: &Inst) -> Option<usize>
    ensures { result ≡ name_of inst.now }
{
    match inst {
        Inst::Binary { into, .. } => Some(*into),
        Inst::Icmp { into, .. } => Some(*into),
        Inst::Cast { into, .. } => Some(*into),
        Inst::Select { into, .. } => Some(*into),
        Inst::Freeze { into, .. } => Some(*into),
        Inst::Alloca { into, .. } => Some(*into),
        Inst::Load { into, .. } => Some(*into),
        Inst::Store { .. } => None,
        Inst::GetElementPtr { into, .. } => Some(*into),
    }
}

/// What the result's name reads after the instruction; undefined behaviour gives nothing.
fn value_after(machine: &Machine, inst: &Inst, goes: bool) -> Option<Value>
    ensures { result ≡ value_after (if goes then Some machine.now else None) (name_of inst.now) }
{
    if !goes {
        return None;
    }
    match name_of(inst) {
        Some(name) => machine.registers.as_slice().get(name).copied(),
        None => None,
    }
}

/// The words of the tape that were taken after the first ones, this many.
pub fn words_after(alloc: Global, machine: &Machine, read: usize) -> Result<Sequence<u64>, NoMemory>
    ensures { IfOk result (λ words. words ≡ drop read machine.now.taken) }
{
    let taken = machine.taken.as_slice();
    if read < taken.len() {
        let (_, words) = taken.split_at(read);
        Ok(Sequence::from_vec(words.to_vec(alloc)?))
    } else {
        Ok(Sequence::from_vec(Vec::new(alloc)))
    }
}

/// Whether there is a value, and it is poison.
pub fn is_some_poison(value: Option<Value>) -> bool
    ensures { result ≡ is_some_poison value }
{
    match value {
        Some(value) => is_poison(value),
        None => false,
    }
}

fn reason_if(needs: bool, cause: Option<Reason>) -> Option<Reason>
    ensures { result ≡ (if needs then cause else None) }
{
    if needs { cause } else { None }
}

fn needs_reason(goes: bool, value: Option<Value>, inherits: bool) -> bool
    ensures { result ≡ (not goes || (is_some_poison value && not inherits)) }
{
    !goes || (is_some_poison(value) && !inherits)
}

/// The step of an instruction that has acted; `goes` is false where it is undefined behaviour.
fn step_after(
    alloc: Global,
    before: Before,
    machine: &Machine,
    at: usize,
    k: usize,
    inst: &Inst,
    goes: bool,
) -> Result<Step, NoMemory>
    ensures { IfOk result (λ step. (m : State) (tape : List ℕ) → IsBefore inst.now m before
        → act inst.now tape m ≡ (if goes then Some machine.now else None) → (goes ≡ false → machine.now ≡ m)
        → ShowsAt (Acts inst.now) at k tape m step) }
{
    let result = value_after(machine, inst, goes);
    let taken = words_after(alloc, machine, before.read)?;
    let needs = needs_reason(goes, result, before.inherits);
    Ok(Step {
        block: at,
        turn: before.turn,
        site: Site::Inst(k),
        operands: before.operands,
        result,
        taken,
        to: None,
        location: before.location,
        reason: reason_if(needs, before.cause),
    })
}

/// An instruction at an index of a block; false where it is undefined behaviour.
fn trace_inst(
    tracer: &mut Tracer,
    at: usize,
    k: usize,
    inst: &Inst,
    tape: &[u64],
) -> Result<bool, NoMemory>
    requires { HasSmallTypes inst.now }
    ensures shown { IfOk result (λ goes. AddsStep (ShowsAt (Acts inst.now) at k tape.now tracer.old.machine) tracer.old.steps tracer.new.steps) }
    ensures goes { IfOk result (λ goes. act inst.now tape.now tracer.old.machine ≡ (if goes then Some tracer.new.machine else None)) }
    ensures stays { IfOk result (λ goes. goes ≡ false → tracer.new.machine ≡ tracer.old.machine) }
    ensures turn { OnOk result (tracer.new.machine.turn ≡ tracer.old.machine.turn) }
    ensures index { OnOk result (tracer.new.index ≡ tracer.old.index) }
{
    let alloc = tracer.room.alloc;
    let before = look_at(alloc, &tracer.machine, &mut tracer.room.indices, inst)?;
    let goes = step(&mut tracer.machine, &mut tracer.room, inst, tape)?;
    let shown = step_after(alloc, before, &tracer.machine, at, k, inst, goes)?;
    tracer.steps.push(shown)?;
    Ok(goes)
}

/// The instructions of a block; false where one is undefined behaviour.
pub fn trace_insts(
    tracer: &mut Tracer,
    at: usize,
    block: &Block,
    tape: &[u64],
) -> Result<bool, NoMemory>
    requires { HasSmallObjects block.now }
    ensures shown { IfOk result (λ goes. GoesOn block.now at Insts 0 tracer.old.machine tracer.old.steps tape.now tracer.new.steps
        (after_insts goes block.now at tracer.new.machine)) }
    ensures turn { OnOk result (tracer.new.machine.turn ≡ tracer.old.machine.turn) }
    ensures index { OnOk result (tracer.new.index ≡ tracer.old.index) }
{
    for (k, inst) in block.insts.as_slice().iter().enumerate() {
        if !trace_inst(tracer, at, k, inst, tape)? {
            return Ok(false);
        }
    }
    Ok(true)
}

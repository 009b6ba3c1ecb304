//! The steps of phis.

ghost use Rattle.std.specs.Prelude.{◌≡◌, ℕ, List, length, OnOk, IfOk};
ghost use Rattle.ir_tree.specs.declared.tree.Function.{Function};
ghost use Rattle.points.specs.Run.{phi_value};
ghost use Rattle.run_trace.specs.Operands.{phi_operand, values_of};
ghost use Rattle.run_trace.specs.Items.{Reads, Phis, At};
ghost use Rattle.run_trace.specs.Trace.{HasReason};
ghost use Rattle.run_trace.specs.Parts.{position, ShowsAt, GoesOn};

use crate::operands::{has_poison_name, phi_operand, values_of};
use crate::steps::{Reason, Site, Step};
use byte_block::Value;
use choice_interp::is_poison;
use ir_tree::{Block, Phi, TypedOperand};
use points::Machine;
use std::alloc::Global;
use support::{NoMemory, Sequence};

fn value_read(values: &[Value]) -> Value
    ensures { (m : Machine) (phi : Phi) → values.now ≡ values_of m.registers (phi_operand m phi) → result ≡ phi_value m phi }
{
    match values.first() {
        Some(value) => *value,
        None => Value::Poison,
    }
}

/// Why a phi gives poison, where its operand was not poison before.
fn phi_reason(
    machine: &Machine,
    phi: &Phi,
    operands: &[TypedOperand],
    value: Value,
) -> Option<Reason>
    requires operands { operands.now ≡ phi_operand machine.now phi.now }
    requires value { value ≡ phi_value machine.now phi.now }
    ensures { (f : Function) (tape : List ℕ) (at k jumps : ℕ) → HasReason f tape (Reads phi.now) (position at k jumps machine.now) result }
{
    if !is_poison(value) || has_poison_name(machine.registers.as_slice(), operands) {
        None
    } else if operands.is_empty() {
        Some(Reason::NoEntry)
    } else {
        Some(Reason::PoisonOperand)
    }
}

fn phi_step(
    alloc: Global,
    machine: &Machine,
    at: usize,
    k: usize,
    phi: &Phi,
) -> Result<Step, NoMemory>
    ensures { IfOk result (λ step. (tape : List ℕ) → ShowsAt (Reads phi.now) at k tape machine.now step) }
{
    let operands = phi_operand(alloc, machine, phi)?;
    let values = values_of(alloc, machine.registers.as_slice(), operands.as_slice())?;
    let value = value_read(values.as_slice());
    Ok(Step {
        block: at,
        turn: machine.turn,
        site: Site::Phi(k),
        operands: values,
        result: Some(value),
        taken: Sequence::from_vec(Vec::new(alloc)),
        to: None,
        location: None,
        reason: phi_reason(machine, phi, operands.as_slice(), value),
    })
}

/// The phis of a block read their operands. None gets its value before the block is entered.
pub fn trace_phis(
    alloc: Global,
    steps: &mut Sequence<Step>,
    machine: &Machine,
    at: usize,
    block: &Block,
) -> Result<(), NoMemory>
    ensures { OnOk result ((tape : List ℕ) → GoesOn block.now at Phis 0 machine.now steps.old tape steps.new
        (λ jumps. At Phis (position at (length block.now.phis) jumps machine.now))) }
{
    for (k, phi) in block.phis.as_slice().iter().enumerate() {
        steps.push(phi_step(alloc, machine, at, k, phi)?)?;
    }
    Ok(())
}

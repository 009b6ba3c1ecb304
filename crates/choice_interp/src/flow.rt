//! How a block is entered and left (LLVM Language Reference, "phi Instruction", "Terminator
//! Instructions").

ghost use Rattle.std.specs.Prelude.{◌≡◌, ◌+◌, ◌<◌, ◌^◌, ℕ, IfOk, OnOk, IfSome, length, map, nat_eq};
ghost use Rattle.std.specs.List.{find};
ghost use Rattle.ir_tree.specs.Sites.{same_number};
ghost use Rattle.points.specs.Run.{entry_value, phi_value, entered, branch_on, case_for, switch_on, exit_by};
ghost use Rattle.choice_interp.specs.Left.{assign_all, exit_with, IsJump};

use crate::assigning::assign;
use crate::ending::Ending;
use crate::reading::{typed_value, value_of};
use crate::returning::return_from;
use crate::table::low_bits;
use byte_block::Value;
use ir_tree::{Block, Case, Phi, PhiEntry, Terminator};
use points::Machine;
use support::{NoMemory, Sequence};
use tv_num::Width;

/// How a block is left: for the block of a label, or with the end of the run.
#[derive(Clone, Copy, Debug, PartialEq, Eq)]
pub enum Left {
    To(usize),
    Over(Ending),
}

/// The entry of a phi for the block with this label, by the label's number.
pub fn entry_from(entries: &[PhiEntry], from: usize) -> Option<PhiEntry>
    ensures { result ≡ find (λ e. nat_eq e.from from) entries.now }
{
    entries.iter().copied().find(|entry| entry.from == from)
}

fn entry_value(machine: &Machine, entries: &[PhiEntry]) -> Value
    ensures { result ≡ entry_value machine.now entries.now }
{
    match entry_from(entries, machine.block) {
        Some(entry) => value_of(machine.registers.as_slice(), entry.operand),
        None => Value::Poison,
    }
}

fn phi_value(machine: &Machine, phi: &Phi) -> Value
    ensures { result ≡ phi_value machine.now phi.now }
{
    typed_value(phi.of_type, entry_value(machine, phi.entries.as_slice()))
}

fn take_phi_values(
    values: &mut Sequence<Value>,
    machine: &Machine,
    phis: &[Phi],
) -> Result<(), NoMemory>
    ensures { OnOk result (values.new ≡ map (phi_value machine.now) phis.now) }
{
    values.clear();
    for phi in phis {
        values.push(phi_value(machine, phi))?;
    }
    Ok(())
}

fn assign_phis(machine: &mut Machine, phis: &[Phi], values: &[Value])
    requires { length values.now ≡ length phis.now }
    ensures value { machine.new ≡ assign_all phis.now values.now machine.old }
    ensures registers { length machine.new.registers ≡ length machine.old.registers }
    ensures memory { machine.new.memory ≡ machine.old.memory }
    ensures turn { machine.new.turn ≡ machine.old.turn }
{
    for (i, phi) in phis.iter().enumerate() {
        assign(machine, phi.into, values[i]);
    }
}

/// Enters a block: all its phis get their values at once. `values` is room for these; it grows
/// where it is too small. When out of memory, the machine is as before.
pub fn enter(
    machine: &mut Machine,
    values: &mut Sequence<Value>,
    block: &Block,
) -> Result<(), NoMemory>
    ensures value { OnOk result (machine.new ≡ entered block.now machine.old) }
    ensures registers { length machine.new.registers ≡ length machine.old.registers }
    ensures memory { machine.new.memory ≡ machine.old.memory }
    ensures turn { machine.new.turn ≡ machine.old.turn }
{
    take_phi_values(values, machine, block.phis.as_slice())?;
    assign_phis(machine, block.phis.as_slice(), values.as_slice());
    machine.block = block.label;
    Ok(())
}

fn branch(condition: Value, if_true: usize, if_false: usize) -> Left
    ensures { (m : Machine) → branch_on condition if_true if_false m ≡ exit_with result m }
{
    match condition {
        Value::Num(n) if n % 2 == 1 => Left::To(if_true),
        Value::Num(_) => Left::To(if_false),
        Value::Poison | Value::Ptr(_) => Left::Over(Ending::Ub),
    }
}

fn is_same_number(width: Width, a: u64, b: u64) -> bool
    ensures { result ≡ same_number width.bits a b }
{
    low_bits(a, width) == low_bits(b, width)
}

fn case_for(width: Width, n: u64, default: usize, cases: &[Case]) -> usize
    ensures { result ≡ case_for width.bits n default cases.now }
{
    match case_with(width, n, cases) {
        Some(case) => case.to,
        None => default,
    }
}

fn case_with(width: Width, n: u64, cases: &[Case]) -> Option<Case>
    ensures { result ≡ find (λ c. same_number width.bits c.value n) cases.now }
{
    cases
        .iter()
        .copied()
        .find(|case| is_same_number(width, case.value, n))
}

fn switch(value: Value, width: Width, default: usize, cases: &[Case]) -> Left
    ensures { (m : Machine) → switch_on width.bits value default cases.now m ≡ exit_with result m }
{
    match value {
        Value::Num(n) => Left::To(case_for(width, n, default, cases)),
        Value::Poison | Value::Ptr(_) => Left::Over(Ending::Ub),
    }
}

/// The end of a block of a function whose return is `noundef` or not.
pub fn leave(
    machine: &mut Machine,
    no_undef: bool,
    terminator: &Terminator,
    tape: &[u64],
) -> Result<Left, NoMemory>
    ensures exit { IfOk result (λ left. exit_by no_undef terminator.now tape.now machine.old ≡ exit_with left machine.new) }
    ensures registers { machine.new.registers ≡ machine.old.registers }
    ensures memory { machine.new.memory ≡ machine.old.memory }
    ensures turn { machine.new.turn ≡ machine.old.turn }
{
    match terminator {
        Terminator::Return(returned) => {
            let ending = return_from(machine, no_undef, *returned, tape)?;
            Ok(Left::Over(ending))
        }
        Terminator::Branch { to } => Ok(Left::To(*to)),
        Terminator::CondBranch {
            condition,
            if_true,
            if_false,
        } => {
            let condition = value_of(machine.registers.as_slice(), *condition);
            Ok(branch(condition, *if_true, *if_false))
        }
        Terminator::Switch {
            width,
            operand,
            default,
            cases,
        } => {
            let value = value_of(machine.registers.as_slice(), *operand);
            Ok(switch(value, *width, *default, cases.as_slice()))
        }
        Terminator::Unreachable => Ok(Left::Over(Ending::Ub)),
    }
}

/// Jumps from the block at an index to another one, with `jumps` backward jumps left: how many are
/// left then, and `None` where the jump is one too many.
pub fn jump(machine: &mut Machine, at: usize, to: usize, jumps: u64) -> Option<u64>
    requires { machine.old.turn + jumps < 2 ^ 64 }
    ensures value { IsJump at to jumps machine.old machine.new result }
    ensures turn { IfSome result (λ rest. machine.new.turn + rest ≡ machine.old.turn + jumps) }
    ensures registers { machine.new.registers ≡ machine.old.registers }
    ensures memory { machine.new.memory ≡ machine.old.memory }
{
    if at < to {
        return Some(jumps);
    }
    let rest = jumps.checked_sub(1)?;
    machine.turn += 1;
    Some(rest)
}

//! What phis, instructions and terminators read.

ghost use Rattle.std.specs.Prelude.{◌≡◌, ◌∷◌, [], map, option_to_list, IfOk};
ghost use Rattle.std.specs.List.{list_any};
ghost use Rattle.ir_tree.specs.Types.{one_bit};
ghost use Rattle.points.specs.Run.{operand_value};
ghost use Rattle.run_trace.specs.Operands.{used_as, index_operand, operands_of, phi_operand, end_operands, taken_arm, effective_operands, values_of, is_name, is_poison_name, is_poison_literal};

use byte_block::Value;
use choice_interp::{entry_from, is_poison, typed_value_of, value_of};
use ir_tree::{GepIndex, Inst, IrType, Operand, Phi, Terminator, TypedOperand, one_bit};
use points::Machine;
use std::alloc::Global;
use support::{NoMemory, Sequence};

fn used_as(of_type: IrType, operand: Operand) -> TypedOperand
    ensures { result ≡ used_as of_type operand }
{
    TypedOperand { of_type, operand }
}

fn condition_of(operand: Operand) -> TypedOperand
    ensures { result ≡ used_as (IrType.Int one_bit) operand }
{
    used_as(IrType::Int(one_bit()), operand)
}

fn one(alloc: Global, operand: TypedOperand) -> Result<Sequence<TypedOperand>, NoMemory>
    ensures { IfOk result (λ list. list ≡ operand ∷ []) }
{
    Ok(Sequence::from_vec(vec![in alloc; operand; 1]?))
}

fn two(
    alloc: Global,
    left: TypedOperand,
    right: TypedOperand,
) -> Result<Sequence<TypedOperand>, NoMemory>
    ensures { IfOk result (λ list. list ≡ left ∷ right ∷ []) }
{
    Ok(Sequence::from_vec(vec![in alloc; left, right]?))
}

fn base_and_indices(
    alloc: Global,
    base: Operand,
    indices: &[GepIndex],
) -> Result<Sequence<TypedOperand>, NoMemory>
    ensures { IfOk result (λ list. list ≡ used_as IrType.Ptr base ∷ map index_operand indices.now) }
{
    let mut list = one(alloc, used_as(IrType::Ptr, base))?;
    for index in indices {
        list.push(used_as(IrType::Int(index.width), index.operand))?;
    }
    Ok(list)
}

/// The operands of an instruction, in text order.
pub fn operands_of(alloc: Global, inst: &Inst) -> Result<Sequence<TypedOperand>, NoMemory>
    ensures { IfOk result (λ list. list ≡ operands_of inst.now) }
{
    match inst {
        Inst::Binary {
            width,
            left,
            right,
            ..
        }
        | Inst::Icmp {
            width,
            left,
            right,
            ..
        } => {
            let of_type = IrType::Int(*width);
            two(alloc, used_as(of_type, *left), used_as(of_type, *right))
        }
        Inst::Cast { from, operand, .. } => one(alloc, used_as(IrType::Int(*from), *operand)),
        Inst::Select {
            condition,
            if_true,
            if_false,
            ..
        } => Ok(Sequence::from_vec(vec![in alloc; condition_of(*condition), *if_true, *if_false]?)),
        Inst::Freeze {
            of_type,
            operand,
            ..
        } => one(alloc, used_as(*of_type, *operand)),
        Inst::Alloca { .. } => Ok(Sequence::from_vec(Vec::new(alloc))),
        Inst::Load { pointer, .. } => one(alloc, used_as(IrType::Ptr, *pointer)),
        Inst::Store { value, pointer, .. } => two(alloc, *value, used_as(IrType::Ptr, *pointer)),
        Inst::GetElementPtr { base, indices, .. } => {
            base_and_indices(alloc, *base, indices.as_slice())
        }
    }
}

fn select_operands(
    alloc: Global,
    registers: &[Value],
    condition: Operand,
    if_true: TypedOperand,
    if_false: TypedOperand,
) -> Result<Sequence<TypedOperand>, NoMemory>
    ensures { IfOk result (λ list. list ≡ used_as (IrType.Int one_bit) condition ∷ taken_arm (operand_value registers.now condition) if_true if_false) }
{
    let first = condition_of(condition);
    match value_of(registers, condition) {
        Value::Num(n) if n % 2 == 1 => two(alloc, first, if_true),
        Value::Num(_) => two(alloc, first, if_false),
        Value::Poison | Value::Ptr(_) => one(alloc, first),
    }
}

/// The operands of an instruction that have an effect: the arm that a select does not take has
/// none.
pub fn effective_operands(
    alloc: Global,
    inst: &Inst,
    registers: &[Value],
) -> Result<Sequence<TypedOperand>, NoMemory>
    ensures { IfOk result (λ list. list ≡ effective_operands inst.now registers.now) }
{
    match inst {
        Inst::Select {
            condition,
            if_true,
            if_false,
            ..
        } => select_operands(alloc, registers, *condition, *if_true, *if_false),
        Inst::Binary { .. } | Inst::Icmp { .. } | Inst::Cast { .. } => operands_of(alloc, inst),
        Inst::Freeze { .. } | Inst::Alloca { .. } | Inst::Load { .. } => operands_of(alloc, inst),
        Inst::Store { .. } | Inst::GetElementPtr { .. } => operands_of(alloc, inst),
    }
}

/// The operand of a phi's entry for the block that was left, if it has one.
pub fn phi_operand(
    alloc: Global,
    machine: &Machine,
    phi: &Phi,
) -> Result<Sequence<TypedOperand>, NoMemory>
    ensures { IfOk result (λ list. list ≡ phi_operand machine.now phi.now) }
{
    match entry_from(phi.entries.as_slice(), machine.block) {
        Some(entry) => one(alloc, used_as(phi.of_type, entry.operand)),
        None => Ok(Sequence::from_vec(Vec::new(alloc))),
    }
}

fn returned_operand(
    alloc: Global,
    returned: Option<TypedOperand>,
) -> Result<Sequence<TypedOperand>, NoMemory>
    ensures { IfOk result (λ list. list ≡ option_to_list returned) }
{
    match returned {
        Some(returned) => one(alloc, returned),
        None => Ok(Sequence::from_vec(Vec::new(alloc))),
    }
}

/// The operands of a terminator.
pub fn end_operands(
    alloc: Global,
    terminator: &Terminator,
) -> Result<Sequence<TypedOperand>, NoMemory>
    ensures { IfOk result (λ list. list ≡ end_operands terminator.now) }
{
    match terminator {
        Terminator::Return(returned) => returned_operand(alloc, *returned),
        Terminator::Branch { .. } | Terminator::Unreachable => {
            Ok(Sequence::from_vec(Vec::new(alloc)))
        }
        Terminator::CondBranch { condition, .. } => one(alloc, condition_of(*condition)),
        Terminator::Switch { width, operand, .. } => {
            one(alloc, used_as(IrType::Int(*width), *operand))
        }
    }
}

/// What the operands read.
pub fn values_of(
    alloc: Global,
    registers: &[Value],
    operands: &[TypedOperand],
) -> Result<Sequence<Value>, NoMemory>
    ensures { IfOk result (λ values. values ≡ values_of registers.now operands.now) }
{
    let mut values = Sequence::from_vec(Vec::new(alloc));
    for operand in operands {
        values.push(typed_value_of(registers, *operand))?;
    }
    Ok(values)
}

fn is_name(operand: Operand) -> bool
    ensures { result ≡ is_name operand }
{
    match operand {
        Operand::Local(_) => true,
        Operand::Number(_) | Operand::Null | Operand::Poison | Operand::Undef => false,
    }
}

fn is_poison_name(registers: &[Value], operand: TypedOperand) -> bool
    ensures { result ≡ is_poison_name registers.now operand }
{
    is_name(operand.operand) && is_poison(typed_value_of(registers, operand))
}

fn is_poison_literal(registers: &[Value], operand: TypedOperand) -> bool
    ensures { result ≡ is_poison_literal registers.now operand }
{
    !is_name(operand.operand) && is_poison(typed_value_of(registers, operand))
}

/// Whether one of the operands is a name that is poison.
pub fn has_poison_name(registers: &[Value], operands: &[TypedOperand]) -> bool
    ensures { result ≡ list_any (is_poison_name registers.now) operands.now }
{
    for operand in operands {
        if is_poison_name(registers, *operand) {
            return true;
        }
    }
    false
}

/// Whether one of the operands is written `poison` or `undef`.
pub fn has_poison_literal(registers: &[Value], operands: &[TypedOperand]) -> bool
    ensures { result ≡ list_any (is_poison_literal registers.now) operands.now }
{
    for operand in operands {
        if is_poison_literal(registers, *operand) {
            return true;
        }
    }
    false
}

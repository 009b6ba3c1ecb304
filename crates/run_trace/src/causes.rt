//! Why an instruction gives poison, or is undefined behaviour.

ghost use Rattle.std.specs.Prelude.{◌≡◌, ◌&&◌, ◌<◌, ◌%◌, ◌^◌, ℕ, ◌∷◌, [], map, Bool, true, false, IfOk, IsSomeAnd, MatchOption};
ghost use Rattle.std.specs.List.{list_any};
ghost use Rattle.ir_tree.specs.Limits.{HasSmallTypes, HasSmallArrays};
ghost use Rattle.points.specs.Table.{is_zero_or_poison, is_minus_1, is_least_or_poison, has_no_quotient, is_undefined, is_poisoned};
ghost use Rattle.run_trace.specs.Operands.{used_as, index_operand, effective_operands, is_poison_literal};
ghost use Rattle.run_trace.specs.Reasons.{is_cause_of_division};
ghost use Rattle.run_trace.specs.Causes.{IsPoisonCause, IsCauseOf};

use crate::flags::{cast_flag, gep_flag, poison_cause};
use crate::locations::{access_cause, access_size};
use crate::steps::{Flag, Reason};
use byte_block::Value;
use choice_interp::{access_of, low_bits, take_index_values, value_of};
use ir_tree::{Cast, GepIndex, Inst, IrType, MemoryType, Op, Operand, TypedOperand};
use memory_access::{Index, Loaded, load};
use points::Machine;
use support::{NoMemory, Sequence};
use tv_num::Width;

/// Why a divisor makes a division undefined behaviour, where it does.
fn divisor_cause(width: Width, right: Value) -> Option<Reason>
    ensures { (left : Value) → MatchOption result (is_zero_or_poison width.bits right ≡ false)
        (λ r. (is_zero_or_poison width.bits right && is_cause_of_division r width.bits left right) ≡ true) }
{
    match right {
        Value::Num(b) if low_bits(b, width) == 0 => Some(Reason::DivisionByZero),
        Value::Num(_) => None,
        Value::Poison | Value::Ptr(_) => Some(Reason::PoisonDivisor),
    }
}

/// Why a dividend over -1 makes a division undefined behaviour, where it does.
fn dividend_cause(width: Width, left: Value) -> Option<Reason>
    ensures { (right : Value) → MatchOption result (is_least_or_poison width.bits left ≡ false)
        (λ r. (is_least_or_poison width.bits left ≡ true) × (is_cause_of_division r width.bits left right ≡ is_minus_1 width.bits right)) }
{
    match left {
        Value::Num(a) if low_bits(a, width) == width.half() => Some(Reason::DivisionOverflow),
        Value::Num(_) => None,
        Value::Poison | Value::Ptr(_) => Some(Reason::PoisonDividend),
    }
}

fn is_minus_1(width: Width, value: Value) -> bool
    ensures { result ≡ is_minus_1 width.bits value }
{
    match value {
        Value::Num(n) => low_bits(n, width) == width.mask(),
        Value::Poison | Value::Ptr(_) => false,
    }
}

fn signed_division_cause(width: Width, left: Value, right: Value) -> Option<Reason>
    ensures { MatchOption result (has_no_quotient width.bits left right ≡ false)
        (λ r. (has_no_quotient width.bits left right && is_cause_of_division r width.bits left right) ≡ true) }
{
    match divisor_cause(width, right) {
        Some(reason) => Some(reason),
        None if is_minus_1(width, right) => dividend_cause(width, left),
        None => None,
    }
}

/// Why an operation is undefined behaviour, where it is.
fn division_cause(op: Op, width: Width, left: Value, right: Value) -> Option<Reason>
    ensures { MatchOption result (is_undefined op width.bits left right ≡ false)
        (λ r. (is_undefined op width.bits left right && is_cause_of_division r width.bits left right) ≡ true) }
{
    match op {
        Op::UnsignedDiv { .. } | Op::UnsignedRem => divisor_cause(width, right),
        Op::SignedDiv { .. } | Op::SignedRem => signed_division_cause(width, left, right),
        Op::Add(_) | Op::Sub(_) | Op::Mul(_) | Op::ShiftLeft(_) => None,
        Op::LogicalShiftRight { .. } | Op::ArithmeticShiftRight { .. } => None,
        Op::And | Op::Or { .. } | Op::Xor => None,
    }
}

/// Why a defined operation gives poison of two numbers, where it does.
fn numbers_cause(op: Op, width: Width, left: Value, right: Value) -> Option<Reason>
    ensures { (a b : ℕ) → left ≡ Value.Num a → right ≡ Value.Num b → is_poisoned op width.bits (a % 2 ^ width.bits) (b % 2 ^ width.bits) ≡ true
        → IsSomeAnd result (λ r. IsPoisonCause r op width.bits (a % 2 ^ width.bits) (b % 2 ^ width.bits)) }
{
    match (left, right) {
        (Value::Num(a), Value::Num(b)) => {
            poison_cause(op, width, low_bits(a, width), low_bits(b, width))
        }
        _ => None,
    }
}

fn binary_cause(
    machine: &Machine,
    op: Op,
    width: Width,
    left: Operand,
    right: Operand,
    is_literal: bool,
) -> Option<Reason>
    requires { is_literal ≡ list_any (is_poison_literal machine.now.registers) (used_as (IrType.Int width) left ∷ used_as (IrType.Int width) right ∷ []) }
    ensures { (into : ℕ) → IsCauseOf (Inst.Binary into op width left right) machine.now result }
{
    let left = value_of(machine.registers.as_slice(), left);
    let right = value_of(machine.registers.as_slice(), right);
    match division_cause(op, width, left, right) {
        Some(reason) => Some(reason),
        None if is_literal => Some(Reason::PoisonOperand),
        None => numbers_cause(op, width, left, right),
    }
}

fn cast_cause(
    machine: &Machine,
    cast: Cast,
    from: Width,
    operand: Operand,
    to: Width,
) -> Option<Reason>
    requires { list_any (is_poison_literal machine.now.registers) (used_as (IrType.Int from) operand ∷ []) ≡ false }
    ensures { (into : ℕ) → IsCauseOf (Inst.Cast into cast from operand to) machine.now result }
{
    match value_of(machine.registers.as_slice(), operand) {
        Value::Num(n) => cast_flag(cast, from, to, low_bits(n, from)).map(|flag| Reason::Flag(
            flag,
        )),
        Value::Poison | Value::Ptr(_) => None,
    }
}

fn load_cause(machine: &Machine, of_type: IrType, pointer: Operand, align: u64) -> Option<Reason>
    requires { 0 < align }
    ensures { (into : ℕ) → IsCauseOf (Inst.Load into of_type pointer align) machine.now result }
{
    let address = value_of(machine.registers.as_slice(), pointer);
    let access = access_of(of_type);
    match load(&machine.memory, address, access, align) {
        Loaded::Ub => Some(access_cause(machine.memory.as_slice(), address, access_size(access))),
        Loaded::Done(_) => Some(Reason::LoadedPoison),
    }
}

fn store_cause(machine: &Machine, value: TypedOperand, pointer: Operand) -> Option<Reason>
    ensures { (align : ℕ) → IsCauseOf (Inst.Store value pointer align) machine.now result }
{
    let address = value_of(machine.registers.as_slice(), pointer);
    let bytes = access_size(access_of(value.of_type));
    Some(access_cause(machine.memory.as_slice(), address, bytes))
}

fn gep_cause(
    machine: &Machine,
    values: &mut Sequence<Index>,
    of_type: &MemoryType,
    base: Operand,
    indices: &[GepIndex],
    inbounds: bool,
) -> Result<Option<Reason>, NoMemory>
    requires small { HasSmallArrays of_type.now.lengths of_type.now.element }
    requires written { list_any (is_poison_literal machine.now.registers) (used_as IrType.Ptr base ∷ map index_operand indices.now) ≡ false }
    ensures { IfOk result (λ cause. (into : ℕ) (nuw : Bool) → IsCauseOf (Inst.GetElementPtr into inbounds nuw of_type.now base indices.now) machine.now cause) }
{
    let registers = machine.registers.as_slice();
    take_index_values(values, registers, of_type, indices)?;
    let base = value_of(registers, base);
    let flag = gep_flag(&machine.memory, base, values.as_slice(), inbounds);
    Ok(Some(Reason::Flag(flag)))
}

/// Why an instruction gives poison of operands that are not, or is undefined behaviour. Of an
/// instruction that does neither, the answer means nothing. `is_literal` says whether an operand
/// that has an effect is written `poison` or `undef`; `values` is room for indices.
pub fn cause_of(
    machine: &Machine,
    values: &mut Sequence<Index>,
    inst: &Inst,
    is_literal: bool,
) -> Result<Option<Reason>, NoMemory>
    requires limits { HasSmallTypes inst.now }
    requires written { is_literal ≡ list_any (is_poison_literal machine.now.registers) (effective_operands inst.now machine.now.registers) }
    ensures { IfOk result (IsCauseOf inst.now machine.now) }
{
    match inst {
        Inst::Binary {
            op,
            width,
            left,
            right,
            ..
        } => Ok(binary_cause(machine, *op, *width, *left, *right, is_literal)),
        Inst::Load {
            of_type,
            pointer,
            align,
            ..
        } => Ok(load_cause(machine, *of_type, *pointer, *align)),
        Inst::Store { value, pointer, .. } => Ok(store_cause(machine, *value, *pointer)),
        Inst::Icmp { .. } if is_literal => Ok(Some(Reason::PoisonOperand)),
        Inst::Icmp { .. } => Ok(Some(Reason::Flag(Flag::SameSign))),
        Inst::Cast { .. } if is_literal => Ok(Some(Reason::PoisonOperand)),
        Inst::Cast {
            cast,
            from,
            operand,
            to,
            ..
        } => Ok(cast_cause(machine, *cast, *from, *operand, *to)),
        Inst::GetElementPtr { .. } if is_literal => Ok(Some(Reason::PoisonOperand)),
        Inst::GetElementPtr {
            inbounds,
            of_type,
            base,
            indices,
            ..
        } => gep_cause(
            machine,
            values,
            of_type,
            *base,
            indices.as_slice(),
            *inbounds,
        ),
        Inst::Select { .. } => Ok(Some(Reason::PoisonOperand)),
        Inst::Freeze { .. } => Ok(None),
        Inst::Alloca { .. } => Ok(None),
    }
}

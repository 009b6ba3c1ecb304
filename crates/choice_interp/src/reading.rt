//! What operands read, and a value where one of a type is used.

ghost use Rattle.std.specs.Prelude.{◌≡◌};
ghost use Rattle.points.specs.Run.{operand_value, cut_value, address_value, typed_value, typed_operand_value, null_pointer, is_poison};

use crate::table::low_bits;
use byte_block::{BlockName, Ptr, Value};
use ir_tree::{IrType, Operand, TypedOperand};
use tv_num::Width;

/// The pointer `null`.
const NULL: Ptr = Ptr {
    block: BlockName::Null,
    offset: 0,
};

/// What an operand reads of the registers.
pub fn value_of(registers: &[Value], operand: Operand) -> Value
    ensures { result ≡ operand_value registers.now operand }
{
    match operand {
        Operand::Local(name) => registers.get(name).copied().unwrap_or(Value::Poison),
        Operand::Number(n) => Value::Num(n),
        Operand::Null => Value::Ptr(NULL),
        Operand::Poison | Operand::Undef => Value::Poison,
    }
}

/// A number cut to the width; a pointer gives poison.
pub fn cut(value: Value, width: Width) -> Value
    ensures { result ≡ cut_value width.bits value }
{
    match value {
        Value::Num(n) => Value::Num(low_bits(n, width)),
        Value::Poison | Value::Ptr(_) => Value::Poison,
    }
}

/// A pointer; a number gives poison.
fn address(value: Value) -> Value
    ensures { result ≡ address_value value }
{
    match value {
        Value::Num(_) | Value::Poison => Value::Poison,
        Value::Ptr(_) => value,
    }
}

/// A value where one of this type is used.
pub fn typed_value(of_type: IrType, value: Value) -> Value
    ensures { result ≡ typed_value of_type value }
{
    match of_type {
        IrType::Int(width) => cut(value, width),
        IrType::Ptr => address(value),
    }
}

/// What an operand with its type reads.
pub fn typed_value_of(registers: &[Value], operand: TypedOperand) -> Value
    ensures { result ≡ typed_operand_value registers.now operand }
{
    typed_value(operand.of_type, value_of(registers, operand.operand))
}

/// Whether the value is poison.
pub fn is_poison(value: Value) -> bool
    ensures { result ≡ is_poison value }
{
    match value {
        Value::Poison => true,
        Value::Num(_) | Value::Ptr(_) => false,
    }
}

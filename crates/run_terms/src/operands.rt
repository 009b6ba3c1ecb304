//! Operands as values.

ghost use Rattle.std.specs.Prelude.{◌≡◌, ℕ, IfOk};
ghost use Rattle.bv_terms.specs.Trees.{Keeps};
ghost use Rattle.mem_terms.specs.Values.{AreSymValues, IsNaming, IsSymNumber, IsSymValue, Reading, as_integer, number_at, value_at, values_at};
ghost use Rattle.points.specs.Run.{cut_value, operand_value, typed_operand_value, typed_value};

use bv_terms::Terms;
use ir_tree::{IrType, Operand, TypedOperand};
use mem_terms::{
    SymNumber, SymValue, as_address, as_number, integer_value, known_number, null_value,
    poison_value, resize,
};
use support::NoMemory;
use tv_num::Width;

/// What an operand reads of the registers.
pub fn operand_of(
    terms: &mut Terms,
    registers: &[SymValue],
    operand: Operand,
) -> Result<SymValue, NoMemory>
    requires { AreSymValues terms.old registers.now }
    ensures made { IfOk result (IsSymValue terms.new) }
    ensures stands { IfOk result (λ s. (r : Reading) → IsNaming r.name → value_at r terms.new s ≡ operand_value (values_at r terms.old registers.now) operand) }
    ensures kept { Keeps terms.old terms.new }
{
    match operand {
        Operand::Local(name) => {
            if name < registers.len() {
                Ok(registers[name])
            } else {
                let value = poison_value(terms)?;
                Ok(value)
            }
        }
        Operand::Number(n) => {
            let known = known_number(terms, n)?;
            let value = integer_value(terms, known)?;
            Ok(value)
        }
        Operand::Null => {
            let value = null_value(terms)?;
            Ok(value)
        }
        Operand::Poison | Operand::Undef => {
            let value = poison_value(terms)?;
            Ok(value)
        }
    }
}

/// What an operand reads of the registers where a number is used: a pointer is poison there.
pub fn number_of(
    terms: &mut Terms,
    registers: &[SymValue],
    operand: Operand,
) -> Result<SymNumber, NoMemory>
    requires { AreSymValues terms.old registers.now }
    ensures made { IfOk result (IsSymNumber terms.new) }
    ensures stands { IfOk result (λ n. (r : Reading) → IsNaming r.name → number_at r.v terms.new n ≡ as_integer (operand_value (values_at r terms.old registers.now) operand)) }
    ensures kept { Keeps terms.old terms.new }
{
    let value = operand_of(terms, registers, operand)?;
    let number = as_number(terms, value)?;
    Ok(number)
}

/// The number modulo the width.
fn cut(terms: &mut Terms, n: SymNumber, width: Width) -> Result<SymNumber, NoMemory>
    requires { IsSymNumber terms.old n }
    ensures made { IfOk result (IsSymNumber terms.new) }
    ensures stands { IfOk result (λ s. (v : ℕ → ℕ → ℕ) → number_at v terms.new s ≡ cut_value width.bits (number_at v terms.old n)) }
    ensures kept { Keeps terms.old terms.new }
{
    let low = resize(terms, n.number, width.bits())?;
    let number = resize(terms, low, 64)?;
    Ok(SymNumber {
        poison: n.poison,
        number,
    })
}

/// The value where an integer of this width is used.
fn integer(terms: &mut Terms, width: Width, value: SymValue) -> Result<SymValue, NoMemory>
    requires { IsSymValue terms.old value }
    ensures made { IfOk result (IsSymValue terms.new) }
    ensures stands { IfOk result (λ s. (r : Reading) → value_at r terms.new s ≡ cut_value width.bits (value_at r terms.old value)) }
    ensures kept { Keeps terms.old terms.new }
{
    let number = as_number(terms, value)?;
    let low = cut(terms, number, width)?;
    let value = integer_value(terms, low)?;
    Ok(value)
}

/// A value where one of this type is used: one of the other kind is poison there.
pub fn typed(terms: &mut Terms, of_type: IrType, value: SymValue) -> Result<SymValue, NoMemory>
    requires { IsSymValue terms.old value }
    ensures made { IfOk result (IsSymValue terms.new) }
    ensures stands { IfOk result (λ s. (r : Reading) → value_at r terms.new s ≡ typed_value of_type (value_at r terms.old value)) }
    ensures kept { Keeps terms.old terms.new }
{
    match of_type {
        IrType::Int(width) => {
            let number = integer(terms, width, value)?;
            Ok(number)
        }
        IrType::Ptr => {
            let address = as_address(terms, value)?;
            Ok(address)
        }
    }
}

/// What an operand with its type reads of the registers.
pub fn typed_operand_of(
    terms: &mut Terms,
    registers: &[SymValue],
    operand: TypedOperand,
) -> Result<SymValue, NoMemory>
    requires { AreSymValues terms.old registers.now }
    ensures made { IfOk result (IsSymValue terms.new) }
    ensures stands { IfOk result (λ s. (r : Reading) → IsNaming r.name → value_at r terms.new s ≡ typed_operand_value (values_at r terms.old registers.now) operand) }
    ensures kept { Keeps terms.old terms.new }
{
    let value = operand_of(terms, registers, operand.operand)?;
    let typed = typed(terms, operand.of_type, value)?;
    Ok(typed)
}

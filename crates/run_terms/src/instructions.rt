//! The instructions of a block.

ghost use Rattle.std.specs.Prelude.{◌≡◌, ◌<◌, ◌&&◌, All, false, not, cond, ℕ, IfOk, OnOk, IsTrue, length};
ghost use Rattle.ir_tree.specs.declared.tree.Inst.{Inst};
ghost use Rattle.ir_tree.specs.declared.tree.Operand.{Operand};
ghost use Rattle.ir_tree.specs.Limits.{HasSmallTypes, HasSmallNumber};
ghost use Rattle.points.specs.Run.{is_poison, typed_value};
ghost use Rattle.points.specs.Table.{cast_value, compared, selected, value_result};
ghost use Rattle.mem_terms.specs.Values.{IsSymNumber, option_from};
ghost use Rattle.run_terms.specs.Common.{operand_value, typed_operand_value, Keeps, IsTerm, Tests, bit_at, AreSymValues, IsNaming, IsSymValue, Reading, as_integer, number_at, value_at, values_at, AreWords, Always, IsState, Sees, Steps, sight, stepped};
ghost use Rattle.run_terms.specs.Runs.{steps};

use crate::choices::choose;
use crate::memory_steps::step_memory;
use crate::operands::{number_of, operand_of, typed, typed_operand_of};
use crate::setting::Setting;
use crate::state::{RunState, assign};
use bv_terms::{Term, TermId, Terms};
use inst_terms::{Computed, binary, cast, compare, select};
use ir_tree::{Cast, Inst, IrType, Op, Operand, Predicate, TypedOperand};
use mem_terms::{SymNumber, SymValue, both, integer_value, negation, pick, truth};
use support::NoMemory;
use tv_num::Width;

/// The two operands of an instruction.
#[derive(Clone, Copy, Debug, PartialEq, Eq)]
struct Operands {
    left: Operand,
    right: Operand,
}

/// What two operands read of the registers where numbers are used.
fn numbers_of(
    terms: &mut Terms,
    registers: &[SymValue],
    operands: Operands,
) -> Result<(SymNumber, SymNumber), NoMemory>
    requires { AreSymValues terms.old registers.now }
    ensures first { IfOk result (λ p. IsSymNumber terms.new p.0) }
    ensures second { IfOk result (λ p. IsSymNumber terms.new p.1) }
    ensures left { IfOk result (λ p. (r : Reading) → IsNaming r.name → number_at r.v terms.new p.0 ≡ as_integer (operand_value (values_at r terms.old registers.now) operands.left)) }
    ensures right { IfOk result (λ p. (r : Reading) → IsNaming r.name → number_at r.v terms.new p.1 ≡ as_integer (operand_value (values_at r terms.old registers.now) operands.right)) }
    ensures kept { Keeps terms.old terms.new }
{
    let left = number_of(terms, registers, operands.left)?;
    let right = number_of(terms, registers, operands.right)?;
    Ok((left, right))
}

fn computed(
    terms: &mut Terms,
    registers: &[SymValue],
    op: Op,
    width: Width,
    operands: Operands,
) -> Result<Computed, NoMemory>
    requires { AreSymValues terms.old registers.now }
    ensures undefined { IfOk result (λ c. IsTerm terms.new 1 c.undefined) }
    ensures value { IfOk result (λ c. IsSymNumber terms.new c.value) }
    ensures stands { IfOk result (λ c. (r : Reading) → IsNaming r.name → option_from (bit_at r.v terms.new c.undefined) (number_at r.v terms.new c.value)
        ≡ value_result op width.bits (operand_value (values_at r terms.old registers.now) operands.left) (operand_value (values_at r terms.old registers.now) operands.right)) }
    ensures kept { Keeps terms.old terms.new }
{
    let (left, right) = numbers_of(terms, registers, operands)?;
    let row = binary(terms, op, width, left, right)?;
    Ok(row)
}

fn comparison(
    terms: &mut Terms,
    registers: &[SymValue],
    predicate: Predicate,
    same_sign: bool,
    width: Width,
    operands: Operands,
) -> Result<SymValue, NoMemory>
    requires { AreSymValues terms.old registers.now }
    ensures made { IfOk result (IsSymValue terms.new) }
    ensures stands { IfOk result (λ s. (r : Reading) → IsNaming r.name → value_at r terms.new s
        ≡ compared predicate same_sign width.bits (operand_value (values_at r terms.old registers.now) operands.left) (operand_value (values_at r terms.old registers.now) operands.right)) }
    ensures kept { Keeps terms.old terms.new }
{
    let (left, right) = numbers_of(terms, registers, operands)?;
    let number = compare(terms, predicate, same_sign, width, left, right)?;
    let value = integer_value(terms, number)?;
    Ok(value)
}

fn conversion(
    terms: &mut Terms,
    registers: &[SymValue],
    conversion: Cast,
    from: Width,
    operand: Operand,
    to: Width,
) -> Result<SymValue, NoMemory>
    requires { AreSymValues terms.old registers.now }
    ensures made { IfOk result (IsSymValue terms.new) }
    ensures stands { IfOk result (λ s. (r : Reading) → IsNaming r.name → value_at r terms.new s ≡ cast_value conversion from.bits to.bits (operand_value (values_at r terms.old registers.now) operand)) }
    ensures kept { Keeps terms.old terms.new }
{
    let operand = number_of(terms, registers, operand)?;
    let number = cast(terms, conversion, from, to, operand)?;
    let value = integer_value(terms, number)?;
    Ok(value)
}

fn selection(
    terms: &mut Terms,
    registers: &[SymValue],
    condition: Operand,
    if_true: TypedOperand,
    if_false: TypedOperand,
) -> Result<SymValue, NoMemory>
    requires { AreSymValues terms.old registers.now }
    ensures made { IfOk result (IsSymValue terms.new) }
    ensures stands { IfOk result (λ s. (r : Reading) → IsNaming r.name → value_at r terms.new s
        ≡ selected (operand_value (values_at r terms.old registers.now) condition) (typed_operand_value (values_at r terms.old registers.now) if_true) (typed_operand_value (values_at r terms.old registers.now) if_false)) }
    ensures kept { Keeps terms.old terms.new }
{
    let test = number_of(terms, registers, condition)?;
    let first = typed_operand_of(terms, registers, if_true)?;
    let second = typed_operand_of(terms, registers, if_false)?;
    let value = select(terms, test, first, second)?;
    Ok(value)
}

/// True where the first is and the second isn't.
pub fn and_not(terms: &mut Terms, a: TermId, b: TermId) -> Result<TermId, NoMemory>
    requires a { IsTerm terms.old 1 a }
    requires b { IsTerm terms.old 1 b }
    ensures made { IfOk result (λ id. Tests terms.new id (λ v. bit_at v terms.old a && not (bit_at v terms.old b))) }
    ensures kept { Keeps terms.old terms.new }
{
    let not_b = negation(terms, b)?;
    both(terms, a, not_b)
}

/// Whether the term is the constant 0.
fn is_plainly_false(terms: &Terms, a: TermId) -> bool
    requires { a.index < length terms.now }
    ensures { IsTrue result → (v : ℕ → ℕ → ℕ) → bit_at v terms.now a ≡ false }
{
    let term = terms.as_slice()[a.index];
    match term {
        Term::Constant { value, .. } => value == 0,
        _ => false,
    }
}

fn step_binary(
    terms: &mut Terms,
    state: &mut RunState,
    into: usize,
    op: Op,
    width: Width,
    operands: Operands,
) -> Result<(), NoMemory>
    requires { IsState terms.old state.old }
    ensures steps { OnOk result (Steps Always terms.old terms.new state.old state.new (stepped (Inst.Binary into op width operands.left operands.right))) }
    ensures kept { Keeps terms.old terms.new }
{
    let row = computed(terms, state.registers.as_slice(), op, width, operands)?;
    let value = integer_value(terms, row.value)?;
    state.alive = and_not(terms, state.alive, row.undefined)?;
    assign(&mut state.registers, into, value);
    Ok(())
}

fn step_icmp(
    terms: &mut Terms,
    state: &mut RunState,
    into: usize,
    predicate: Predicate,
    same_sign: bool,
    width: Width,
    operands: Operands,
) -> Result<(), NoMemory>
    requires { IsState terms.old state.old }
    ensures steps { OnOk result (Steps Always terms.old terms.new state.old state.new (stepped (Inst.Icmp into predicate same_sign width operands.left operands.right))) }
    ensures kept { Keeps terms.old terms.new }
{
    let registers = state.registers.as_slice();
    let value = comparison(terms, registers, predicate, same_sign, width, operands)?;
    assign(&mut state.registers, into, value);
    Ok(())
}

fn step_cast(
    terms: &mut Terms,
    state: &mut RunState,
    into: usize,
    cast: Cast,
    from: Width,
    operand: Operand,
    to: Width,
) -> Result<(), NoMemory>
    requires { IsState terms.old state.old }
    ensures steps { OnOk result (Steps Always terms.old terms.new state.old state.new (stepped (Inst.Cast into cast from operand to))) }
    ensures kept { Keeps terms.old terms.new }
{
    let registers = state.registers.as_slice();
    let value = conversion(terms, registers, cast, from, operand, to)?;
    assign(&mut state.registers, into, value);
    Ok(())
}

fn step_select(
    terms: &mut Terms,
    state: &mut RunState,
    into: usize,
    condition: Operand,
    if_true: TypedOperand,
    if_false: TypedOperand,
) -> Result<(), NoMemory>
    requires { IsState terms.old state.old }
    ensures steps { OnOk result (Steps Always terms.old terms.new state.old state.new (stepped (Inst.Select into condition if_true if_false))) }
    ensures kept { Keeps terms.old terms.new }
{
    let registers = state.registers.as_slice();
    let value = selection(terms, registers, condition, if_true, if_false)?;
    assign(&mut state.registers, into, value);
    Ok(())
}

/// The choice where the value is poison, else the value; the choice isn't poison.
fn frozen(terms: &mut Terms, value: SymValue, choice: SymValue) -> Result<SymValue, NoMemory>
    requires value { IsSymValue terms.old value }
    requires choice { IsSymValue terms.old choice }
    requires defined { (r : Reading) → is_poison (value_at r terms.old choice) ≡ false }
    ensures made { IfOk result (IsSymValue terms.new) }
    ensures stands { IfOk result (λ s. (r : Reading) → value_at r terms.new s ≡ cond (bit_at r.v terms.old value.poison) (value_at r terms.old choice) (value_at r terms.old value)) }
    ensures kept { Keeps terms.old terms.new }
{
    let is_pointer = pick(terms, value.poison, choice.is_pointer, value.is_pointer)?;
    let block = pick(terms, value.poison, choice.block, value.block)?;
    let number = pick(terms, value.poison, choice.number, value.number)?;
    let poison = truth(terms, false)?;
    Ok(SymValue {
        poison,
        is_pointer,
        block,
        number,
    })
}

/// Gives a name the value of the type, or a choice where that is poison.
fn assign_or_choose(
    terms: &mut Terms,
    state: &mut RunState,
    into: usize,
    of_type: IrType,
    value: SymValue,
    tape: &[TermId],
) -> Result<(), NoMemory>
    requires state { IsState terms.old state.old }
    requires value { IsSymValue terms.old value }
    requires tape { AreWords terms.old tape.now }
    ensures steps { OnOk result ((operand : Operand) → Steps (λ g at. Sees g terms.old tape.now × (value_at (sight g) terms.old value ≡ typed_value of_type (operand_value (values_at (sight g) terms.old state.old.registers) operand))) terms.old terms.new state.old state.new (stepped (Inst.Freeze into of_type operand))) }
    ensures kept { Keeps terms.old terms.new }
{
    let taken = both(terms, state.alive, value.poison)?;
    let choice = choose(terms, state, taken, of_type, tape)?;
    let value = frozen(terms, value, choice.value)?;
    state.tally = choice.tally;
    state.words_bound = choice.words_bound;
    assign(&mut state.registers, into, value);
    Ok(())
}

/// A freeze (LLVM Language Reference, "freeze Instruction"). A value that is never poison takes no
/// choice.
fn step_freeze(
    terms: &mut Terms,
    state: &mut RunState,
    into: usize,
    of_type: IrType,
    operand: Operand,
    tape: &[TermId],
) -> Result<(), NoMemory>
    requires state { IsState terms.old state.old }
    requires tape { AreWords terms.old tape.now }
    ensures steps { OnOk result (Steps (λ g at. Sees g terms.old tape.now) terms.old terms.new state.old state.new (stepped (Inst.Freeze into of_type operand))) }
    ensures kept { Keeps terms.old terms.new }
{
    let value = operand_of(terms, state.registers.as_slice(), operand)?;
    let value = typed(terms, of_type, value)?;
    if is_plainly_false(terms, value.poison) {
        assign(&mut state.registers, into, value);
        Ok(())
    } else {
        assign_or_choose(terms, state, into, of_type, value, tape)
    }
}

/// One instruction, after this number of backward jumps.
fn step(
    setting: Setting,
    terms: &mut Terms,
    state: &mut RunState,
    inst: &Inst,
    turn: u64,
) -> Result<(), NoMemory>
    requires state { IsState terms.old state.old }
    requires tape { AreWords terms.old setting.tape.now }
    requires types { HasSmallTypes inst.now }
    requires number { HasSmallNumber inst.now }
    ensures steps { OnOk result (Steps (λ g at. (at.turn ≡ turn) × Sees g terms.old setting.entry.tape.now) terms.old terms.new state.old state.new (stepped inst.now)) }
    ensures kept { Keeps terms.old terms.new }
{
    match inst {
        Inst::Binary {
            into,
            op,
            width,
            left,
            right,
        } => {
            let operands = Operands {
                left: *left,
                right: *right,
            };
            step_binary(terms, state, *into, *op, *width, operands)?;
            Ok(())
        }
        Inst::Icmp {
            into,
            predicate,
            same_sign,
            width,
            left,
            right,
        } => {
            let operands = Operands {
                left: *left,
                right: *right,
            };
            step_icmp(
                terms, state, *into, *predicate, *same_sign, *width, operands,
            )?;
            Ok(())
        }
        Inst::Cast {
            into,
            cast,
            from,
            operand,
            to,
        } => {
            step_cast(terms, state, *into, *cast, *from, *operand, *to)?;
            Ok(())
        }
        Inst::Select {
            into,
            condition,
            if_true,
            if_false,
        } => {
            step_select(terms, state, *into, *condition, *if_true, *if_false)?;
            Ok(())
        }
        Inst::Freeze {
            into,
            of_type,
            operand,
        } => {
            step_freeze(terms, state, *into, *of_type, *operand, setting.tape)?;
            Ok(())
        }
        Inst::Alloca { .. } | Inst::Load { .. } | Inst::Store { .. } | Inst::GetElementPtr { .. } =>
            {
                step_memory(setting, terms, state, inst, turn)?;
                Ok(())
            }
    }
}

/// All instructions of a block, one after another, after this number of backward jumps.
pub fn step_all(
    setting: Setting,
    terms: &mut Terms,
    state: &mut RunState,
    insts: &[Inst],
    turn: u64,
) -> Result<(), NoMemory>
    requires state { IsState terms.old state.old }
    requires tape { AreWords terms.old setting.tape.now }
    requires types { All HasSmallTypes insts.now }
    requires numbers { All HasSmallNumber insts.now }
    ensures steps { OnOk result (Steps (λ g at. (at.turn ≡ turn) × Sees g terms.old setting.entry.tape.now) terms.old terms.new state.old state.new (steps insts.now)) }
    ensures kept { Keeps terms.old terms.new }
{
    for inst in insts {
        step(setting, terms, state, inst, turn)?;
    }
    Ok(())
}

//! The instructions that use memory (LLVM Language Reference, "Memory Access and Addressing
//! Operations").

ghost use Rattle.std.specs.Prelude.{◌≡◌, ◌<◌, ◌≤◌, ℕ, List, IfOk, OnOk};
ghost use Rattle.ir_tree.specs.declared.tree.Inst.{Inst};
ghost use Rattle.ir_tree.specs.declared.tree.GepIndex.{GepIndex};
ghost use Rattle.ir_tree.specs.Limits.{HasSmallArrays, HasSmallTypes, HasSmallNumber};
ghost use Rattle.ir_tree.specs.Types.{object_size};
ghost use Rattle.byte_block.specs.declared.value.BlockName.TheVariants.{Local};
ghost use Rattle.points.specs.Run.{access_of, index_value, index_values};
ghost use Rattle.mem_terms.specs.Values.{local_number};
ghost use Rattle.access_terms.specs.Offsets.{AreSymIndices, IsSymIndex, index_at, indices_at};
ghost use Rattle.run_terms.specs.Common.{Keeps, AreSymValues, IsNaming, Reading, first_local, values_at, Always, IsState, Steps, sight, stepped};
ghost use Rattle.run_terms.specs.Frontier.{UsesMemory};

use crate::operands::{number_of, operand_of, typed_operand_of};
use crate::setting::Setting;
use crate::state::{RunState, assign};
use access_terms::{SymIndex, alloca, gep, load, store};
use bv_terms::Terms;
use ir_tree::{GepIndex, Inst, IrType, MemoryType, Operand, TypedOperand, indexed_size};
use mem_terms::{SymValue, both, last_given_number, number, pointer_value, resize};
use memory_access::Access;
use std::alloc::Global;
use support::{NoMemory, Sequence};

/// How many instructions a function may have, and so how many block numbers each count of backward
/// jumps has.
const NUMBERS_OF_A_TURN: u64 = 65_536;

/// The number of the block that an alloca makes after `turn` backward jumps. It fails where that is
/// more than a `u64` holds, which no run takes enough jumps for.
fn number_of_local(given: usize, turn: u64, alloca: usize) -> Result<u64, NoMemory>
    ensures { IfOk result (λ n. n ≡ local_number given turn alloca) }
{
    let of_turn = turn.checked_mul(NUMBERS_OF_A_TURN).ok_or(NoMemory)?;
    let of_run = of_turn.checked_add(alloca as u64).ok_or(NoMemory)?;
    let first = last_given_number(given as u64)
        .checked_add(1)
        .ok_or(NoMemory)?;
    let number = first.checked_add(of_run).ok_or(NoMemory)?;
    Ok(number)
}

/// The kind of access of a type.
fn access_of(of_type: IrType) -> Access
    ensures { result ≡ access_of of_type }
{
    match of_type {
        IrType::Int(width) => Access::Int(width),
        IrType::Ptr => Access::Pointer,
    }
}

/// "alloca Instruction". The block has this number, which names no given one.
fn step_alloca(
    alloc: Global,
    terms: &mut Terms,
    state: &mut RunState,
    into: usize,
    block: u64,
    of_type: &MemoryType,
    align: u64,
) -> Result<(), NoMemory>
    requires state { IsState terms.old state.old }
    requires own { first_local state.old.memory.given ≤ block }
    requires size { object_size of_type.now ≤ 64 }
    ensures steps { OnOk result ((number : ℕ) → Steps (λ g at. state.old.memory.given ≡ g.given → (sight g).name block ≡ Local at.turn number) terms.old terms.new state.old state.new (stepped (Inst.Alloca into number of_type.now align))) }
    ensures kept { Keeps terms.old terms.new }
{
    let size = indexed_size(of_type, 0);
    alloca(alloc, terms, &mut state.memory.blocks, block, size, align)?;
    let known = number(terms, block)?;
    let zero = number(terms, 0)?;
    let address = pointer_value(terms, known, zero)?;
    assign(&mut state.registers, into, address);
    Ok(())
}

/// "load Instruction". Where it isn't defined the run isn't alive after it.
fn step_load(
    alloc: Global,
    terms: &mut Terms,
    state: &mut RunState,
    into: usize,
    of_type: IrType,
    pointer: Operand,
    align: u64,
) -> Result<(), NoMemory>
    requires state { IsState terms.old state.old }
    requires align { 0 < align }
    ensures steps { OnOk result (Steps Always terms.old terms.new state.old state.new (stepped (Inst.Load into of_type pointer align))) }
    ensures kept { Keeps terms.old terms.new }
{
    let at = operand_of(terms, state.registers.as_slice(), pointer)?;
    let blocks = state.memory.blocks.as_slice();
    let loaded = load(alloc, terms, blocks, at, access_of(of_type), align)?;
    state.alive = both(terms, state.alive, loaded.is_defined)?;
    assign(&mut state.registers, into, loaded.value);
    Ok(())
}

/// "store Instruction". Where it isn't defined the run isn't alive after it.
fn step_store(
    alloc: Global,
    terms: &mut Terms,
    state: &mut RunState,
    value: TypedOperand,
    pointer: Operand,
    align: u64,
) -> Result<(), NoMemory>
    requires state { IsState terms.old state.old }
    requires align { 0 < align }
    ensures steps { OnOk result (Steps Always terms.old terms.new state.old state.new (stepped (Inst.Store value pointer align))) }
    ensures kept { Keeps terms.old terms.new }
{
    let registers = state.registers.as_slice();
    let at = operand_of(terms, registers, pointer)?;
    let written = typed_operand_of(terms, registers, value)?;
    let access = access_of(value.of_type);
    let blocks = &mut state.memory.blocks;
    let is_defined = store(alloc, terms, blocks, written, access, at, align)?;
    state.alive = both(terms, state.alive, is_defined)?;
    Ok(())
}

/// The index of a getelementptr with this number.
fn index_of(
    terms: &mut Terms,
    registers: &[SymValue],
    of_type: &MemoryType,
    n: usize,
    index: GepIndex,
) -> Result<SymIndex, NoMemory>
    requires registers { AreSymValues terms.old registers.now }
    requires arrays { HasSmallArrays of_type.now.lengths of_type.now.element }
    ensures made { IfOk result (IsSymIndex terms.new) }
    ensures stands { IfOk result (λ i. (r : Reading) → IsNaming r.name → index_at r.v terms.new i ≡ index_value (values_at r terms.old registers.now) of_type.now n index) }
    ensures kept { Keeps terms.old terms.new }
{
    let operand = number_of(terms, registers, index.operand)?;
    let number = resize(terms, operand.number, index.width.bits())?;
    Ok(SymIndex {
        poison: operand.poison,
        number,
        width: index.width,
        scale: indexed_size(of_type, n),
    })
}

/// What the indices of a getelementptr read of the registers.
fn indices_of(
    alloc: Global,
    terms: &mut Terms,
    registers: &[SymValue],
    of_type: &MemoryType,
    indices: &[GepIndex],
) -> Result<Sequence<SymIndex>, NoMemory>
    requires registers { AreSymValues terms.old registers.now }
    requires arrays { HasSmallArrays of_type.now.lengths of_type.now.element }
    ensures made { IfOk result (AreSymIndices terms.new) }
    ensures stands { IfOk result (λ is. (r : Reading) → IsNaming r.name → indices_at r.v terms.new is ≡ index_values (values_at r terms.old registers.now) of_type.now 0 indices.now) }
    ensures kept { Keeps terms.old terms.new }
{
    let mut values = Vec::new(alloc);
    for (n, index) in indices.iter().enumerate() {
        let value = index_of(terms, registers, of_type, n, *index)?;
        values.push(value)?;
    }
    Ok(Sequence::from_vec(values))
}

/// The parts of a getelementptr except the name of its result.
#[derive(Clone, Copy)]
struct Path<'a> {
    inbounds: bool,
    nuw: bool,
    of_type: &'a MemoryType,
    base: Operand,
    indices: &'a [GepIndex],
}

/// "getelementptr Instruction".
fn step_gep(
    alloc: Global,
    terms: &mut Terms,
    state: &mut RunState,
    into: usize,
    path: Path,
) -> Result<(), NoMemory>
    requires state { IsState terms.old state.old }
    requires arrays { HasSmallArrays path.of_type.now.lengths path.of_type.now.element }
    ensures steps { OnOk result ((indices : List GepIndex) → indices ≡ path.entry.indices.now → Steps Always terms.old terms.new state.old state.new (stepped (Inst.GetElementPtr into path.entry.inbounds path.entry.nuw path.entry.of_type.now path.entry.base indices))) }
    ensures kept { Keeps terms.old terms.new }
{
    let registers = state.registers.as_slice();
    let base = operand_of(terms, registers, path.base)?;
    let indices = indices_of(alloc, terms, registers, path.of_type, path.indices)?;
    let blocks = state.memory.blocks.as_slice();
    let address = gep(
        terms,
        blocks,
        base,
        indices.as_slice(),
        path.inbounds,
        path.nuw,
    )?;
    assign(&mut state.registers, into, address);
    Ok(())
}

/// One instruction that uses memory, after this number of backward jumps; any other is left out.
pub fn step_memory(
    setting: Setting,
    terms: &mut Terms,
    state: &mut RunState,
    inst: &Inst,
    turn: u64,
) -> Result<(), NoMemory>
    requires state { IsState terms.old state.old }
    requires memory { UsesMemory inst.now }
    requires types { HasSmallTypes inst.now }
    requires number { HasSmallNumber inst.now }
    ensures steps { OnOk result (Steps (λ g at. at.turn ≡ turn) terms.old terms.new state.old state.new (stepped inst.now)) }
    ensures kept { Keeps terms.old terms.new }
{
    let alloc = setting.alloc;
    match inst {
        Inst::Alloca {
            into,
            number,
            of_type,
            align,
        } => {
            let block = number_of_local(state.memory.given, turn, *number)?;
            step_alloca(alloc, terms, state, *into, block, of_type, *align)
        }
        Inst::Load {
            into,
            of_type,
            pointer,
            align,
        } => step_load(alloc, terms, state, *into, *of_type, *pointer, *align),
        Inst::Store {
            value,
            pointer,
            align,
        } => step_store(alloc, terms, state, *value, *pointer, *align),
        Inst::GetElementPtr {
            into,
            inbounds,
            nuw,
            of_type,
            base,
            indices,
        } => {
            let path = Path {
                inbounds: *inbounds,
                nuw: *nuw,
                of_type,
                base: *base,
                indices: indices.as_slice(),
            };
            step_gep(alloc, terms, state, *into, path)
        }
        _ => Ok(()),
    }
}

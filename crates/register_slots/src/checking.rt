//! Whether names may share slots: wherever a name is read, its slot holds it.
//!
//! An allocation is checked, so that how it is found needs no proof. Each block begins with the names
//! that are said to be live there, each instruction is followed, and at each edge the names that are
//! live in the next block must be held.

ghost use Rattle.std.specs.Prelude.{◌≡◌, ◌<◌, ◌∷◌, [], ℕ, List, map, length, replicate, nat_eq, true, None, Some, IfOk, IsTrue, MatchOption, slice_get, slice_set, slice_index_or};
ghost use Rattle.std.specs.List.{AllByRecursion, find};
ghost use Rattle.ir_tree.specs.declared.tree.Block.{Block};
ghost use Rattle.ir_tree.specs.declared.tree.GepIndex.{GepIndex};
ghost use Rattle.ir_tree.specs.declared.tree.Phi.{Phi};
ghost use Rattle.ir_tree.specs.Flow.{block_of, results_of, targets};
ghost use Rattle.ir_tree.specs.BlockIndexes.{IsIndex};
ghost use Rattle.register_slots.specs.PhiReads.{ArePhisHeld, AreEntriesHeld, IsBlockNoted};
ghost use Rattle.register_slots.specs.Renaming.{slot_of};
ghost use Rattle.register_slots.specs.Allocation.{IsHeld, holding, only_holding, IsReadHeld, AreReadHeld, HasSlot, IsRightInst, AreRightInsts, held_after, IsEntryHeld, IsRightPhi, IsRightEdge, IsRightJump, IsRightEnd, IsRightBlock, parameter_names, IsAllocation};
ghost use Rattle.ir_tree.specs.Operands.{operands_of, returned_operands, operands_at_end};

use crate::phi_reads::phi_reads;
use crate::renaming::slot_of;
use crate::rows::row_at;
use ir_tree::{
    Block, BlockIndex, Function, GepIndex, Inst, Operand, Parameter, Phi, Terminator, TypedOperand,
    result_of, targets_of,
};
use std::alloc::Global;
use support::{NoMemory, Sequence};

// ---- which name each slot holds

fn is_held(slots: &[usize], held: &[Option<usize>], name: usize) -> bool
    ensures { IsTrue result → IsHeld slots.now held.now name }
{
    match held.get(slot_of(slots, name)) {
        Some(Some(holds)) => *holds == name,
        Some(None) | None => false,
    }
}

fn are_held(slots: &[usize], held: &[Option<usize>], names: &[usize]) -> bool
    ensures { IsTrue result → AllByRecursion (IsHeld slots.now held.now) names.now }
{
    for name in names {
        if !is_held(slots, held, *name) {
            return false;
        }
    }
    true
}

fn hold(slots: &[usize], held: &mut [Option<usize>], name: usize)
    ensures { held.new ≡ slice_set held.old (slot_of slots.now name) (Some name) }
{
    let slot = slot_of(slots, name);
    if slot < held.len() {
        held[slot] = Some(name);
    }
}

fn hold_all(slots: &[usize], held: &mut [Option<usize>], names: &[usize])
    ensures { held.new ≡ holding slots.now names.now held.old }
{
    for name in names {
        hold(slots, held, *name);
    }
}

fn hold_phis(slots: &[usize], held: &mut [Option<usize>], phis: &[Phi])
    ensures { held.new ≡ holding slots.now (map (λ (phi : Phi). phi.into) phis.now) held.old }
{
    for phi in phis {
        hold(slots, held, phi.into);
    }
}

/// `count` slots, which hold these names and nothing else.
fn only_holding(
    alloc: Global,
    slots: &[usize],
    count: usize,
    names: &[usize],
) -> Result<Vec<Option<usize>>, NoMemory>
    ensures { IfOk result (λ held. held.items ≡ only_holding slots.now count names.now) }
{
    let mut held = vec![in alloc; None; count]?;
    hold_all(slots, &mut held, names);
    Ok(held)
}

// ---- what is read

fn is_read_held(slots: &[usize], held: &[Option<usize>], operand: Operand) -> bool
    ensures { IsTrue result → IsReadHeld slots.now held.now operand }
{
    match operand {
        Operand::Local(name) => is_held(slots, held, name),
        Operand::Number(_) | Operand::Null | Operand::Poison | Operand::Undef => true,
    }
}

fn are_indices_held(slots: &[usize], held: &[Option<usize>], indices: &[GepIndex]) -> bool
    ensures { IsTrue result → AreReadHeld slots.now held.now (map (λ (i : GepIndex). i.operand) indices.now) }
{
    for index in indices {
        if !is_read_held(slots, held, index.operand) {
            return false;
        }
    }
    true
}

/// Whether the operands of an instruction are held.
fn reads_held(slots: &[usize], held: &[Option<usize>], inst: &Inst) -> bool
    ensures { IsTrue result → AreReadHeld slots.now held.now (operands_of inst.now) }
{
    match inst {
        Inst::Binary { left, right, .. } | Inst::Icmp { left, right, .. } => {
            is_read_held(slots, held, *left) && is_read_held(slots, held, *right)
        }
        Inst::Cast { operand, .. } | Inst::Freeze { operand, .. } => {
            is_read_held(slots, held, *operand)
        }
        Inst::Select {
            condition,
            if_true,
            if_false,
            ..
        } => {
            is_read_held(slots, held, *condition)
                && is_read_held(slots, held, if_true.operand)
                && is_read_held(slots, held, if_false.operand)
        }
        Inst::Alloca { .. } => true,
        Inst::Load { pointer, .. } => is_read_held(slots, held, *pointer),
        Inst::Store { value, pointer, .. } => {
            is_read_held(slots, held, value.operand) && is_read_held(slots, held, *pointer)
        }
        Inst::GetElementPtr { base, indices, .. } => {
            is_read_held(slots, held, *base) && are_indices_held(slots, held, indices.as_slice())
        }
    }
}

fn is_returned_held(slots: &[usize], held: &[Option<usize>], returned: Option<TypedOperand>) -> bool
    ensures { IsTrue result → AreReadHeld slots.now held.now (returned_operands returned) }
{
    match returned {
        Some(typed) => is_read_held(slots, held, typed.operand),
        None => true,
    }
}

/// Whether the operands of a terminator are held.
fn reads_held_at_end(slots: &[usize], held: &[Option<usize>], terminator: &Terminator) -> bool
    ensures { IsTrue result → AreReadHeld slots.now held.now (operands_at_end terminator.now) }
{
    match terminator {
        Terminator::Return(returned) => is_returned_held(slots, held, *returned),
        Terminator::CondBranch { condition, .. } => is_read_held(slots, held, *condition),
        Terminator::Switch { operand, .. } => is_read_held(slots, held, *operand),
        Terminator::Branch { .. } | Terminator::Unreachable => true,
    }
}

// ---- instructions

/// Whether a name is one of the first `names`, and its slot one of the first `count`.
fn has_slot(slots: &[usize], names: usize, count: usize, name: usize) -> bool
    ensures { IsTrue result → HasSlot slots.now names count name }
{
    name < names && slot_of(slots, name) < count
}

/// Whether an instruction reads what is held; its result is held after it.
fn is_right_inst(slots: &[usize], names: usize, held: &mut [Option<usize>], inst: &Inst) -> bool
    ensures right { IsTrue result → IsRightInst slots.now names held.old inst.now }
    ensures held { held.new ≡ holding slots.now (results_of inst.now) held.old }
{
    let reads = reads_held(slots, held, inst);
    match result_of(inst) {
        Some(into) => {
            let fits = has_slot(slots, names, held.len(), into);
            hold(slots, held, into);
            reads && fits
        }
        None => reads,
    }
}

fn are_right_insts(
    slots: &[usize],
    names: usize,
    held: &mut [Option<usize>],
    insts: &[Inst],
) -> bool
    ensures right { IsTrue result → AreRightInsts slots.now names held.old insts.now }
    ensures held { IsTrue result → held.new ≡ held_after slots.now insts.now held.old }
{
    for inst in insts {
        if !is_right_inst(slots, names, held, inst) {
            return false;
        }
    }
    true
}

// ---- edges

/// Whether the results of phis have slots.
fn phis_have_slots(slots: &[usize], names: usize, count: usize, phis: &[Phi]) -> bool
    ensures { IsTrue result → AllByRecursion (λ (phi : Phi). HasSlot slots.now names count phi.into) phis.now }
{
    for phi in phis {
        if !has_slot(slots, names, count, phi.into) {
            return false;
        }
    }
    true
}

/// What is held after phis, which hold their results.
fn holding_phis(
    alloc: Global,
    slots: &[usize],
    held: &[Option<usize>],
    phis: &[Phi],
) -> Result<Vec<Option<usize>>, NoMemory>
    ensures { IfOk result (λ after. after.items ≡ holding slots.now (map (λ (phi : Phi). phi.into) phis.now) held.now) }
{
    let mut after = Vec::from_slice(alloc, held)?;
    hold_phis(slots, &mut after, phis);
    Ok(after)
}

/// Whether a block may be entered from the one of this label, where what its phis read from there is
/// held: after them the names that it needs are held.
fn is_right_edge(
    alloc: Global,
    slots: &[usize],
    names: usize,
    held: &[Option<usize>],
    from: usize,
    block: &Block,
    needed: &[usize],
) -> Result<bool, NoMemory>
    requires { ArePhisHeld slots.now held.now from block.now.phis }
    ensures { IfOk result (λ yes. IsTrue yes → IsRightEdge slots.now names held.now from block.now needed.now) }
{
    if block.phis.is_empty() {
        return Ok(are_held(slots, held, needed));
    }
    if !phis_have_slots(slots, names, held.len(), block.phis.as_slice()) {
        return Ok(false);
    }
    let entered = holding_phis(alloc, slots, held, block.phis.as_slice())?;
    Ok(are_held(slots, &entered, needed))
}

fn is_right_jump(
    alloc: Global,
    f: &Function,
    slots: &[usize],
    lives: &[Sequence<usize>],
    held: &[Option<usize>],
    from: usize,
    at: usize,
) -> Result<bool, NoMemory>
    requires { AreEntriesHeld f.now slots.now held.now from at }
    ensures { IfOk result (λ yes. IsTrue yes → IsRightJump f.now slots.now lives.now held.now from at) }
{
    match f.blocks.as_slice().get(at) {
        Some(block) => {
            let needed = row_at(lives, at);
            is_right_edge(alloc, slots, f.names.len(), held, from, block, needed)
        }
        None => Ok(true),
    }
}

fn are_right_jumps(
    alloc: Global,
    f: &Function,
    index: &BlockIndex,
    slots: &[usize],
    lives: &[Sequence<usize>],
    held: &[Option<usize>],
    block: &Block,
) -> Result<bool, NoMemory>
    requires index { IsIndex f.now index.now }
    requires entries { (at : ℕ) → AreEntriesHeld f.now slots.now held.now block.now.label at }
    ensures { IfOk result (λ yes. IsTrue yes → AllByRecursion (λ (label : ℕ). IsRightJump f.now slots.now lives.now held.now block.now.label (block_of f.now label)) (targets block.now.terminator)) }
{
    let labels = targets_of(alloc, &block.terminator)?;
    let labels = labels.as_slice();
    for label in labels {
        let at = index.place(f, *label);
        if !is_right_jump(alloc, f, slots, lives, held, block.label, at)? {
            return Ok(false);
        }
    }
    Ok(true)
}

// ---- blocks

/// What the edges of a function are checked by.
#[derive(Drop)]
struct EdgeTables {
    /// The positions of the blocks by their labels.
    index: BlockIndex,
    /// For each label the names that phis read where its block is left.
    reads: Sequence<Sequence<usize>>,
}

fn is_right_end(
    alloc: Global,
    f: &Function,
    tables: &EdgeTables,
    slots: &[usize],
    lives: &[Sequence<usize>],
    held: &[Option<usize>],
    block: &Block,
) -> Result<bool, NoMemory>
    requires index { IsIndex f.now tables.now.index }
    requires reads { AllByRecursion (IsBlockNoted tables.now.reads) f.now.blocks }
    ensures { IfOk result (λ yes. IsTrue yes → IsRightEnd f.now slots.now lives.now block.now held.now) }
{
    if !reads_held_at_end(slots, held, &block.terminator) {
        return Ok(false);
    }
    if !are_held(slots, held, row_at(tables.reads.as_slice(), block.label)) {
        return Ok(false);
    }
    are_right_jumps(alloc, f, &tables.index, slots, lives, held, block)
}

fn is_right_block(
    alloc: Global,
    f: &Function,
    tables: &EdgeTables,
    slots: &[usize],
    count: usize,
    lives: &[Sequence<usize>],
    at: usize,
) -> Result<bool, NoMemory>
    requires index { IsIndex f.now tables.now.index }
    requires reads { AllByRecursion (IsBlockNoted tables.now.reads) f.now.blocks }
    requires at { at < length f.now.blocks }
    ensures { IfOk result (λ yes. IsTrue yes → (b : Block) → slice_get f.now.blocks at ≡ Some b → IsRightBlock f.now slots.now count lives.now (slice_index_or lives.now at []) b) }
{
    let block = f.blocks.get(at);
    let mut held = only_holding(alloc, slots, count, row_at(lives, at))?;
    if !are_right_insts(slots, f.names.len(), &mut held, block.insts.as_slice()) {
        return Ok(false);
    }
    is_right_end(alloc, f, tables, slots, lives, &held, block)
}

fn are_right_blocks(
    alloc: Global,
    f: &Function,
    tables: &EdgeTables,
    slots: &[usize],
    count: usize,
    lives: &[Sequence<usize>],
) -> Result<bool, NoMemory>
    requires index { IsIndex f.now tables.now.index }
    requires reads { AllByRecursion (IsBlockNoted tables.now.reads) f.now.blocks }
    ensures { IfOk result (λ yes. IsTrue yes → (at : ℕ) (b : Block) → slice_get f.now.blocks at ≡ Some b → IsRightBlock f.now slots.now count lives.now (slice_index_or lives.now at []) b) }
{
    for at in 0..f.blocks.len() {
        if !is_right_block(alloc, f, tables, slots, count, lives, at)? {
            return Ok(false);
        }
    }
    Ok(true)
}

// ---- a function

fn parameter_names(alloc: Global, f: &Function) -> Result<Vec<usize>, NoMemory>
    ensures { IfOk result (λ names. names.items ≡ parameter_names f.now) }
{
    names_of(alloc, f.parameters.as_slice())
}

fn names_of(alloc: Global, parameters: &[Parameter]) -> Result<Vec<usize>, NoMemory>
    ensures { IfOk result (λ names. names.items ≡ map (λ p. p.name) parameters.now) }
{
    let mut names = Vec::new(alloc);
    for parameter in parameters {
        names.push(parameter.name)?;
    }
    Ok(names)
}

fn have_slots(slots: &[usize], names: usize, count: usize, parameters: &[usize]) -> bool
    ensures { IsTrue result → AllByRecursion (HasSlot slots.now names count) parameters.now }
{
    for name in parameters {
        if !has_slot(slots, names, count, *name) {
            return false;
        }
    }
    true
}

/// Whether the entry block has no phis.
fn enters_without_phis(f: &Function) -> bool
    ensures { IsTrue result → (b : Block) → slice_get f.now.blocks 0 ≡ Some b → b.phis ≡ [] }
{
    match f.blocks.as_slice().get(0) {
        Some(block) => block.phis.is_empty(),
        None => true,
    }
}

/// Whether the entry block may be entered with the values of the parameters.
fn is_right_entry(
    alloc: Global,
    f: &Function,
    slots: &[usize],
    lives: &[Sequence<usize>],
    held: &[Option<usize>],
) -> Result<bool, NoMemory>
    ensures { IfOk result (λ yes. IsTrue yes → IsRightJump f.now slots.now lives.now held.now 0 0) }
{
    if !enters_without_phis(f) {
        return Ok(false);
    }
    is_right_jump(alloc, f, slots, lives, held, 0, 0)
}

fn has_right_blocks(
    alloc: Global,
    f: &Function,
    slots: &[usize],
    count: usize,
    lives: &[Sequence<usize>],
) -> Result<bool, NoMemory>
    ensures { IfOk result (λ yes. IsTrue yes → (at : ℕ) (b : Block) → slice_get f.now.blocks at ≡ Some b → IsRightBlock f.now slots.now count lives.now (slice_index_or lives.now at []) b) }
{
    let Some(reads) = phi_reads(alloc, f)? else {
        return Ok(false);
    };
    let index = BlockIndex::of(alloc, f)?;
    let tables = EdgeTables { index, reads };
    are_right_blocks(alloc, f, &tables, slots, count, lives)
}

/// Whether the names of a function may share these slots, of which there are `count`, where for each
/// block the list of names is held at its entry, after its phis. It may answer no for slots that are
/// right, and never yes for slots that are wrong. It takes time linear in the function and the lists, and
/// in `count` for each edge.
///
/// # Errors
/// Out of memory.
pub fn is_allocation(
    alloc: Global,
    f: &Function,
    slots: &[usize],
    count: usize,
    lives: &[Sequence<usize>],
) -> Result<bool, NoMemory>
    ensures { IfOk result (λ yes. yes ≡ true → IsAllocation f.now slots.now count lives.now) }
{
    let names = parameter_names(alloc, f)?;
    if !have_slots(slots, f.names.len(), count, &names) {
        return Ok(false);
    }
    let held = only_holding(alloc, slots, count, &names)?;
    if !are_held(slots, &held, &names) {
        return Ok(false);
    }
    if !is_right_entry(alloc, f, slots, lives, &held)? {
        return Ok(false);
    }
    has_right_blocks(alloc, f, slots, count, lives)
}

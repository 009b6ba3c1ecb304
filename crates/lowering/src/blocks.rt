//! The blocks of a lowered function.

ghost use Rattle.std.specs.Prelude.{◌≡◌, ◌++◌, ◌∷◌, [], if◌then◌else◌, map, IfOk, OnOk};
ghost use Rattle.std.specs.List.{flat_map};
ghost use Rattle.ir_tree.specs.declared.tree.Inst.TheVariants.{Freeze};
ghost use Rattle.ir_tree.specs.declared.tree.Terminator.TheVariants.{Return};
ghost use Rattle.lowering.specs.Lowered.{carries_name, insts_at_end, lowered_block, lowered_end, lowered_inst, makes_tree, sampled_insts, sampled_operand};
ghost use Rattle.lowering.specs.Plan.{IsPlan};

use crate::computing::push_computed;
use crate::copying::{copy_inst, copy_phis, copy_terminator};
use crate::plan::Plan;
use ir_tree::{Block, Inst, IrType, Operand, Terminator, TypedOperand, result_of};
use std::alloc::Global;
use support::{NoMemory, Sequence};

// ---- operands that are frozen or returned

// Whether an operand is a name that carries undef.
fn carries_name(plan: &Plan, operand: Operand) -> bool
    requires { IsPlan plan.now }
    ensures { result ≡ carries_name plan.now.f.now operand }
{
    match operand {
        Operand::Local(_) => plan.carries(operand),
        Operand::Number(_) | Operand::Null | Operand::Poison | Operand::Undef => false,
    }
}

// Appends what computes an operand, where it is such a name.
fn push_sampled(
    alloc: Global,
    plan: &Plan,
    insts: &mut Sequence<Inst>,
    of_type: IrType,
    operand: Operand,
) -> Result<(), NoMemory>
    requires { IsPlan plan.now }
    ensures { OnOk result (insts.new ≡ insts.old ++ sampled_insts plan.now.f.now of_type operand) }
{
    if carries_name(plan, operand) {
        push_computed(alloc, plan, insts, of_type, operand)?;
    }
    Ok(())
}

// Where it then is.
fn sampled_operand(plan: &Plan, operand: Operand) -> Operand
    requires { IsPlan plan.now }
    ensures { result ≡ sampled_operand plan.now.f.now operand }
{
    if carries_name(plan, operand) {
        Operand::Local(plan.scratch(0))
    } else {
        operand
    }
}

// ---- instructions

// Whether the result of an instruction carries undef.
fn makes_tree(plan: &Plan, inst: &Inst) -> bool
    requires { IsPlan plan.now }
    ensures { result ≡ makes_tree plan.now.f.now inst.now }
{
    match result_of(inst) {
        Some(into) => plan.carries(Operand::Local(into)),
        None => false,
    }
}

fn push_freeze(
    alloc: Global,
    plan: &Plan,
    insts: &mut Sequence<Inst>,
    into: usize,
    of_type: IrType,
    operand: Operand,
) -> Result<(), NoMemory>
    requires { IsPlan plan.now }
    ensures { OnOk result (insts.new ≡ insts.old ++ lowered_inst plan.now.f.now (Freeze into of_type operand)) }
{
    let freeze = Inst::Freeze {
        into,
        of_type,
        operand: sampled_operand(plan, operand),
    };
    push_sampled(alloc, plan, insts, of_type, operand)?;
    insts.push(freeze)
}

// Appends an instruction that stays where it is, unless its result carries undef.
fn push_kept(
    alloc: Global,
    plan: &Plan,
    insts: &mut Sequence<Inst>,
    inst: &Inst,
) -> Result<(), NoMemory>
    requires { IsPlan plan.now }
    ensures { OnOk result (insts.new ≡ insts.old ++ (if makes_tree plan.now.f.now inst.now then [] else inst.now ∷ [])) }
{
    if !makes_tree(plan, inst) {
        insts.push(copy_inst(alloc, inst)?)?;
    }
    Ok(())
}

fn push_lowered(
    alloc: Global,
    plan: &Plan,
    insts: &mut Sequence<Inst>,
    inst: &Inst,
) -> Result<(), NoMemory>
    requires { IsPlan plan.now }
    ensures { OnOk result (insts.new ≡ insts.old ++ lowered_inst plan.now.f.now inst.now) }
{
    match inst {
        Inst::Freeze {
            into,
            of_type,
            operand,
        } => push_freeze(alloc, plan, insts, *into, *of_type, *operand),
        Inst::Binary { .. } | Inst::Icmp { .. } | Inst::Cast { .. } | Inst::Select { .. } => {
            push_kept(alloc, plan, insts, inst)
        }
        Inst::Alloca { .. } | Inst::Load { .. } => push_kept(alloc, plan, insts, inst),
        Inst::Store { .. } | Inst::GetElementPtr { .. } => push_kept(alloc, plan, insts, inst),
    }
}

fn lowered_insts(alloc: Global, plan: &Plan, insts: &[Inst]) -> Result<Sequence<Inst>, NoMemory>
    requires { IsPlan plan.now }
    ensures { IfOk result (λ lowered. lowered ≡ flat_map (lowered_inst plan.now.f.now) insts.now) }
{
    let mut lowered = Sequence::from_vec(Vec::new(alloc));
    for inst in insts {
        push_lowered(alloc, plan, &mut lowered, inst)?;
    }
    Ok(lowered)
}

// ---- blocks

// Appends what computes the operand that is returned.
fn push_returned(
    alloc: Global,
    plan: &Plan,
    insts: &mut Sequence<Inst>,
    returned: Option<TypedOperand>,
) -> Result<(), NoMemory>
    requires { IsPlan plan.now }
    ensures { OnOk result (insts.new ≡ insts.old ++ insts_at_end plan.now.f.now (Return returned)) }
{
    match returned {
        Some(typed) => push_sampled(alloc, plan, insts, typed.of_type, typed.operand),
        None => Ok(()),
    }
}

fn push_at_end(
    alloc: Global,
    plan: &Plan,
    insts: &mut Sequence<Inst>,
    end: &Terminator,
) -> Result<(), NoMemory>
    requires { IsPlan plan.now }
    ensures { OnOk result (insts.new ≡ insts.old ++ insts_at_end plan.now.f.now end.now) }
{
    match end {
        Terminator::Return(returned) => push_returned(alloc, plan, insts, *returned),
        Terminator::Branch { .. } | Terminator::CondBranch { .. } => Ok(()),
        Terminator::Switch { .. } | Terminator::Unreachable => Ok(()),
    }
}

fn lowered_return(plan: &Plan, returned: Option<TypedOperand>) -> Terminator
    requires { IsPlan plan.now }
    ensures { result ≡ lowered_end plan.now.f.now (Return returned) }
{
    match returned {
        Some(typed) => Terminator::Return(Some(TypedOperand {
            of_type: typed.of_type,
            operand: sampled_operand(plan, typed.operand),
        })),
        None => Terminator::Return(None),
    }
}

fn lowered_end(alloc: Global, plan: &Plan, end: &Terminator) -> Result<Terminator, NoMemory>
    requires { IsPlan plan.now }
    ensures { IfOk result (λ lowered. lowered ≡ lowered_end plan.now.f.now end.now) }
{
    match end {
        Terminator::Return(returned) => Ok(lowered_return(plan, *returned)),
        Terminator::Branch { .. } | Terminator::CondBranch { .. } => copy_terminator(alloc, end),
        Terminator::Switch { .. } | Terminator::Unreachable => copy_terminator(alloc, end),
    }
}

fn lowered_block(alloc: Global, plan: &Plan, block: &Block) -> Result<Block, NoMemory>
    requires { IsPlan plan.now }
    ensures { IfOk result (λ lowered. lowered ≡ lowered_block plan.now.f.now block.now) }
{
    let mut insts = lowered_insts(alloc, plan, block.insts.as_slice())?;
    push_at_end(alloc, plan, &mut insts, &block.terminator)?;
    Ok(Block {
        label: block.label,
        phis: copy_phis(alloc, block.phis.as_slice())?,
        insts,
        terminator: lowered_end(alloc, plan, &block.terminator)?,
    })
}

/// The blocks of the lowered function.
pub fn lowered_blocks(alloc: Global, plan: &Plan) -> Result<Sequence<Block>, NoMemory>
    requires { IsPlan plan.now }
    ensures { IfOk result (λ lowered. lowered ≡ map (lowered_block plan.now.f.now) plan.now.f.now.blocks) }
{
    let mut lowered = Sequence::from_vec(Vec::new(alloc));
    for block in plan.f.blocks.as_slice() {
        lowered.push(lowered_block(alloc, plan, block)?)?;
    }
    Ok(lowered)
}

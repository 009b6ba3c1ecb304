//! The line of a step.

ghost use Rattle.std.specs.Prelude.{◌≡◌, ◌++◌, OnOk, IfSome, IfNone, slice_get, Some, None};
ghost use Rattle.trace_text.specs.TraceText.{result_type, parameter_step, phi_step, inst_step, end_step, is_first, heading, step_in, block_step, missing_step, step_text};

use crate::notes::{push_notes, push_reason, push_result_notes};
use crate::values::push_result;
use ir_printer::{push_inst, push_label, push_local_at, push_phi, push_terminator};
use ir_tree::{Block, Function, Inst, IrType, Names, Parameter, Phi, one_bit};
use run_trace::{Site, Step, end_operands, operands_of};
use std::alloc::Global;
use support::NoMemory;

/// The type of what an instruction gives; a store gives nothing.
fn result_type(inst: &Inst) -> Option<IrType>
    ensures { result ≡ result_type inst.now }
{
    match inst {
        Inst::Binary { width, .. } => Some(IrType::Int(*width)),
        Inst::Icmp { .. } => Some(IrType::Int(one_bit())),
        Inst::Cast { to, .. } => Some(IrType::Int(*to)),
        Inst::Select { if_true, .. } => Some(if_true.of_type),
        Inst::Freeze { of_type, .. } => Some(*of_type),
        Inst::Load { of_type, .. } => Some(*of_type),
        Inst::Store { .. } => None,
        Inst::Alloca { .. } | Inst::GetElementPtr { .. } => Some(IrType::Ptr),
    }
}

fn push_parameter_step(
    alloc: Global,
    out: &mut Vec<u8>,
    names: &Names,
    parameter: &Parameter,
    step: &Step,
) -> Result<(), NoMemory>
    ensures { OnOk result (out.new.items ≡ out.old.items ++ parameter_step names.now (Some parameter.now) step.now) }
{
    push_local_at(out, b"\n  ", names, parameter.name)?;
    out.extend_from_slice(b" = ")?;
    push_result(alloc, out, parameter.of_type, step.result)?;
    push_reason(out, step.reason)
}

fn push_phi_step(
    alloc: Global,
    out: &mut Vec<u8>,
    names: &Names,
    phi: &Phi,
    step: &Step,
) -> Result<(), NoMemory>
    ensures { OnOk result (out.new.items ≡ out.old.items ++ phi_step names.now (Some phi.now) step.now) }
{
    push_phi(out, names, phi)?;
    push_result_notes(alloc, out, Some(phi.of_type), step)
}

fn push_inst_step(
    alloc: Global,
    out: &mut Vec<u8>,
    names: &Names,
    first: u64,
    inst: &Inst,
    step: &Step,
) -> Result<(), NoMemory>
    ensures { OnOk result (out.new.items ≡ out.old.items ++ inst_step names.now first (Some inst.now) step.now) }
{
    let operands = operands_of(alloc, inst)?;
    push_inst(out, names, inst)?;
    push_notes(alloc, out, names, operands.as_slice(), first, step)?;
    push_result_notes(alloc, out, result_type(inst), step)
}

fn push_end_step(
    alloc: Global,
    out: &mut Vec<u8>,
    names: &Names,
    first: u64,
    block: &Block,
    step: &Step,
) -> Result<(), NoMemory>
    ensures { OnOk result (out.new.items ≡ out.old.items ++ end_step names.now first block.now step.now) }
{
    let operands = end_operands(alloc, &block.terminator)?;
    push_terminator(out, names, &block.terminator)?;
    push_notes(alloc, out, names, operands.as_slice(), first, step)?;
    push_reason(out, step.reason)
}

/// Whether it is the first step of a block.
fn is_first(block: &Block, site: Site) -> bool
    ensures { result ≡ is_first block.now site }
{
    match site {
        Site::Phi(n) => n == 0,
        Site::Inst(n) => n == 0 && block.phis.len() == 0,
        Site::Terminator => block.phis.len() == 0 && block.insts.len() == 0,
        Site::Parameter(_) | Site::NoBlock => false,
    }
}

/// The label, before the first step of a block.
fn push_heading(out: &mut Vec<u8>, names: &Names, block: &Block, site: Site) -> Result<(), NoMemory>
    ensures { OnOk result (out.new.items ≡ out.old.items ++ heading names.now block.now site) }
{
    if is_first(block, site) {
        push_label(out, names, block.label)?;
    }
    Ok(())
}

fn push_step_in(
    alloc: Global,
    out: &mut Vec<u8>,
    names: &Names,
    first: u64,
    block: &Block,
    step: &Step,
) -> Result<(), NoMemory>
    ensures { OnOk result (out.new.items ≡ out.old.items ++ step_in names.now first block.now step.now.site step.now) }
{
    match step.site {
        Site::Phi(n) => match block.phis.as_slice().get(n) {
            Some(phi) => push_phi_step(alloc, out, names, phi, step),
            None => Ok(()),
        },
        Site::Inst(n) => match block.insts.as_slice().get(n) {
            Some(inst) => push_inst_step(alloc, out, names, first, inst, step),
            None => Ok(()),
        },
        Site::Terminator => push_end_step(alloc, out, names, first, block, step),
        Site::Parameter(_) | Site::NoBlock => Ok(()),
    }
}

/// A step of a block, after its label where it is the block's first.
fn push_step_of(
    alloc: Global,
    out: &mut Vec<u8>,
    names: &Names,
    first: u64,
    block: &Block,
    step: &Step,
) -> Result<(), NoMemory>
    ensures { OnOk result (out.new.items ≡ out.old.items ++ block_step names.now first (Some block.now) step.now) }
{
    push_heading(out, names, block, step.site)?;
    push_step_in(alloc, out, names, first, block, step)?;
    Ok(())
}

/// The block at an index in text order.
fn block_at(f: &Function, index: usize) -> Option<&Block>
    ensures found { IfSome result (λ block. slice_get f.now.blocks index ≡ Some block.now) }
    ensures none { IfNone result (slice_get f.now.blocks index ≡ None) }
{
    f.blocks.as_slice().get(index)
}

fn push_block_step(
    alloc: Global,
    out: &mut Vec<u8>,
    f: &Function,
    first: u64,
    step: &Step,
) -> Result<(), NoMemory>
    ensures { OnOk result (out.new.items ≡ out.old.items ++ block_step f.now.names first (slice_get f.now.blocks step.now.block) step.now) }
{
    match block_at(f, step.block) {
        Some(block) => push_step_of(alloc, out, &f.names, first, block, step),
        None => Ok(()),
    }
}

fn push_missing_step(out: &mut Vec<u8>, step: &Step) -> Result<(), NoMemory>
    ensures { OnOk result (out.new.items ≡ out.old.items ++ missing_step step.now) }
{
    out.extend_from_slice(b"\n  no block")?;
    push_reason(out, step.reason)?;
    Ok(())
}

/// A step of a run, its first choice with this index.
pub fn push_step(
    alloc: Global,
    out: &mut Vec<u8>,
    f: &Function,
    first: u64,
    step: &Step,
) -> Result<(), NoMemory>
    ensures { OnOk result (out.new.items ≡ out.old.items ++ step_text f.now first step.now) }
{
    match step.site {
        Site::Parameter(n) => match f.parameters.as_slice().get(n) {
            Some(parameter) => push_parameter_step(alloc, out, &f.names, parameter, step),
            None => Ok(()),
        },
        Site::Phi(_) | Site::Inst(_) | Site::Terminator => {
            push_block_step(alloc, out, f, first, step)
        }
        Site::NoBlock => push_missing_step(out, step),
    }
}

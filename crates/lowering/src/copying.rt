//! Copies of the parts of a function that stay as they are.

ghost use Rattle.std.specs.Prelude.{◌≡◌, IfOk};

use ir_tree::{Case, GepIndex, Inst, MemoryType, Parameter, Phi, PhiEntry, Terminator};
use std::alloc::Global;
use support::{NoMemory, Sequence};
use text_places::Place;

// ---- lists

fn copy_indices(alloc: Global, indices: &Sequence<GepIndex>) -> Result<Sequence<GepIndex>, NoMemory>
    ensures { IfOk result (λ copy. copy ≡ indices.now) }
{
    Ok(Sequence::from_vec(Vec::from_slice(alloc, indices.as_slice())?))
}

fn copy_entries(alloc: Global, entries: &Sequence<PhiEntry>) -> Result<Sequence<PhiEntry>, NoMemory>
    ensures { IfOk result (λ copy. copy ≡ entries.now) }
{
    Ok(Sequence::from_vec(Vec::from_slice(alloc, entries.as_slice())?))
}

fn copy_cases(alloc: Global, cases: &Sequence<Case>) -> Result<Sequence<Case>, NoMemory>
    ensures { IfOk result (λ copy. copy ≡ cases.now) }
{
    Ok(Sequence::from_vec(Vec::from_slice(alloc, cases.as_slice())?))
}

/// The same parameters.
pub fn copy_parameters(
    alloc: Global,
    parameters: &Sequence<Parameter>,
) -> Result<Sequence<Parameter>, NoMemory>
    ensures { IfOk result (λ copy. copy ≡ parameters.now) }
{
    Ok(Sequence::from_vec(Vec::from_slice(alloc, parameters.as_slice())?))
}

/// The same lines and columns.
pub fn copy_places(alloc: Global, places: &Sequence<Place>) -> Result<Sequence<Place>, NoMemory>
    ensures { IfOk result (λ copy. copy ≡ places.now) }
{
    Ok(Sequence::from_vec(Vec::from_slice(alloc, places.as_slice())?))
}

// ---- instructions

fn copy_type(alloc: Global, of_type: &MemoryType) -> Result<MemoryType, NoMemory>
    ensures { IfOk result (λ copy. copy ≡ of_type.now) }
{
    let lengths = Vec::from_slice(alloc, of_type.lengths.as_slice())?;
    Ok(MemoryType {
        lengths: Sequence::from_vec(lengths),
        element: of_type.element,
    })
}

/// The same instruction.
pub fn copy_inst(alloc: Global, inst: &Inst) -> Result<Inst, NoMemory>
    ensures { IfOk result (λ copy. copy ≡ inst.now) }
{
    match inst {
        Inst::Binary {
            into,
            op,
            width,
            left,
            right,
        } => Ok(Inst::Binary {
            into: *into,
            op: *op,
            width: *width,
            left: *left,
            right: *right,
        }),
        Inst::Icmp {
            into,
            predicate,
            same_sign,
            width,
            left,
            right,
        } => Ok(Inst::Icmp {
            into: *into,
            predicate: *predicate,
            same_sign: *same_sign,
            width: *width,
            left: *left,
            right: *right,
        }),
        Inst::Cast {
            into,
            cast,
            from,
            operand,
            to,
        } => Ok(Inst::Cast {
            into: *into,
            cast: *cast,
            from: *from,
            operand: *operand,
            to: *to,
        }),
        Inst::Select {
            into,
            condition,
            if_true,
            if_false,
        } => Ok(Inst::Select {
            into: *into,
            condition: *condition,
            if_true: *if_true,
            if_false: *if_false,
        }),
        Inst::Freeze {
            into,
            of_type,
            operand,
        } => Ok(Inst::Freeze {
            into: *into,
            of_type: *of_type,
            operand: *operand,
        }),
        Inst::Alloca {
            into,
            number,
            of_type,
            align,
        } => Ok(Inst::Alloca {
            into: *into,
            number: *number,
            of_type: copy_type(alloc, of_type)?,
            align: *align,
        }),
        Inst::Load {
            into,
            of_type,
            pointer,
            align,
        } => Ok(Inst::Load {
            into: *into,
            of_type: *of_type,
            pointer: *pointer,
            align: *align,
        }),
        Inst::Store {
            value,
            pointer,
            align,
        } => Ok(Inst::Store {
            value: *value,
            pointer: *pointer,
            align: *align,
        }),
        Inst::GetElementPtr {
            into,
            inbounds,
            nuw,
            of_type,
            base,
            indices,
        } => Ok(Inst::GetElementPtr {
            into: *into,
            inbounds: *inbounds,
            nuw: *nuw,
            of_type: copy_type(alloc, of_type)?,
            base: *base,
            indices: copy_indices(alloc, indices)?,
        }),
    }
}

// ---- the rest of a block

fn copy_phi(alloc: Global, phi: &Phi) -> Result<Phi, NoMemory>
    ensures { IfOk result (λ copy. copy ≡ phi.now) }
{
    Ok(Phi {
        into: phi.into,
        of_type: phi.of_type,
        entries: copy_entries(alloc, &phi.entries)?,
    })
}

/// The same phis.
pub fn copy_phis(alloc: Global, phis: &[Phi]) -> Result<Sequence<Phi>, NoMemory>
    ensures { IfOk result (λ copy. copy ≡ phis.now) }
{
    let mut copy = Sequence::from_vec(Vec::new(alloc));
    for phi in phis {
        copy.push(copy_phi(alloc, phi)?)?;
    }
    Ok(copy)
}

/// The same end of a block.
pub fn copy_terminator(alloc: Global, terminator: &Terminator) -> Result<Terminator, NoMemory>
    ensures { IfOk result (λ copy. copy ≡ terminator.now) }
{
    match terminator {
        Terminator::Return(returned) => Ok(Terminator::Return(*returned)),
        Terminator::Branch { to } => Ok(Terminator::Branch { to: *to }),
        Terminator::CondBranch {
            condition,
            if_true,
            if_false,
        } => Ok(Terminator::CondBranch {
            condition: *condition,
            if_true: *if_true,
            if_false: *if_false,
        }),
        Terminator::Switch {
            width,
            operand,
            default,
            cases,
        } => Ok(Terminator::Switch {
            width: *width,
            operand: *operand,
            default: *default,
            cases: copy_cases(alloc, cases)?,
        }),
        Terminator::Unreachable => Ok(Terminator::Unreachable),
    }
}

//! A function with its names renumbered.

ghost use Rattle.std.specs.Prelude.{◌≡◌, map, IfOk};
ghost use Rattle.std.specs.Option.{option_map};
ghost use Rattle.register_slots.specs.Renaming.{slot_of, operand_in, typed_in, index_in, inst_in, entry_in, phi_in, terminator_in, block_in, parameter_in, function_in};

use ir_tree::{
    Block, Case, Function, GepIndex, Inst, MemoryType, Names, Operand, Parameter, Phi, PhiEntry,
    Terminator, TypedOperand, copy_name,
};
use std::alloc::Global;
use support::{NoMemory, Sequence};

/// The slot of a name; a name for which the list has none keeps its number.
pub fn slot_of(slots: &[usize], name: usize) -> usize
    ensures { result ≡ slot_of slots.now name }
{
    slots.get(name).copied().unwrap_or(name)
}

// ---- operands

fn operand_in(slots: &[usize], operand: Operand) -> Operand
    ensures { result ≡ operand_in slots.now operand }
{
    match operand {
        Operand::Local(name) => Operand::Local(slot_of(slots, name)),
        Operand::Number(n) => Operand::Number(n),
        Operand::Null => Operand::Null,
        Operand::Poison => Operand::Poison,
        Operand::Undef => Operand::Undef,
    }
}

fn typed_in(slots: &[usize], operand: TypedOperand) -> TypedOperand
    ensures { result ≡ typed_in slots.now operand }
{
    TypedOperand {
        of_type: operand.of_type,
        operand: operand_in(slots, operand.operand),
    }
}

fn returned_in(slots: &[usize], returned: Option<TypedOperand>) -> Option<TypedOperand>
    ensures { result ≡ option_map (typed_in slots.now) returned }
{
    match returned {
        Some(operand) => Some(typed_in(slots, operand)),
        None => None,
    }
}

fn index_in(slots: &[usize], index: GepIndex) -> GepIndex
    ensures { result ≡ index_in slots.now index }
{
    GepIndex {
        width: index.width,
        operand: operand_in(slots, index.operand),
    }
}

fn indices_in(
    alloc: Global,
    slots: &[usize],
    indices: &[GepIndex],
) -> Result<Sequence<GepIndex>, NoMemory>
    ensures { IfOk result (λ renamed. renamed ≡ map (index_in slots.now) indices.now) }
{
    let mut renamed = Sequence::from_vec(Vec::new(alloc));
    for index in indices {
        renamed.push(index_in(slots, *index))?;
    }
    Ok(renamed)
}

// ---- instructions

fn copy_of(alloc: Global, of_type: &MemoryType) -> Result<MemoryType, NoMemory>
    ensures { IfOk result (λ copy. copy ≡ of_type.now) }
{
    let lengths = Vec::from_slice(alloc, of_type.lengths.as_slice())?;
    Ok(MemoryType {
        lengths: Sequence::from_vec(lengths),
        element: of_type.element,
    })
}

fn inst_in(alloc: Global, slots: &[usize], inst: &Inst) -> Result<Inst, NoMemory>
    ensures { IfOk result (λ renamed. renamed ≡ inst_in slots.now inst.now) }
{
    match inst {
        Inst::Binary {
            into,
            op,
            width,
            left,
            right,
        } => Ok(Inst::Binary {
            into: slot_of(slots, *into),
            op: *op,
            width: *width,
            left: operand_in(slots, *left),
            right: operand_in(slots, *right),
        }),
        Inst::Icmp {
            into,
            predicate,
            same_sign,
            width,
            left,
            right,
        } => Ok(Inst::Icmp {
            into: slot_of(slots, *into),
            predicate: *predicate,
            same_sign: *same_sign,
            width: *width,
            left: operand_in(slots, *left),
            right: operand_in(slots, *right),
        }),
        Inst::Cast {
            into,
            cast,
            from,
            operand,
            to,
        } => Ok(Inst::Cast {
            into: slot_of(slots, *into),
            cast: *cast,
            from: *from,
            operand: operand_in(slots, *operand),
            to: *to,
        }),
        Inst::Select {
            into,
            condition,
            if_true,
            if_false,
        } => Ok(Inst::Select {
            into: slot_of(slots, *into),
            condition: operand_in(slots, *condition),
            if_true: typed_in(slots, *if_true),
            if_false: typed_in(slots, *if_false),
        }),
        Inst::Freeze {
            into,
            of_type,
            operand,
        } => Ok(Inst::Freeze {
            into: slot_of(slots, *into),
            of_type: *of_type,
            operand: operand_in(slots, *operand),
        }),
        Inst::Alloca {
            into,
            number,
            of_type,
            align,
        } => Ok(Inst::Alloca {
            into: slot_of(slots, *into),
            number: *number,
            of_type: copy_of(alloc, of_type)?,
            align: *align,
        }),
        Inst::Load {
            into,
            of_type,
            pointer,
            align,
        } => Ok(Inst::Load {
            into: slot_of(slots, *into),
            of_type: *of_type,
            pointer: operand_in(slots, *pointer),
            align: *align,
        }),
        Inst::Store {
            value,
            pointer,
            align,
        } => Ok(Inst::Store {
            value: typed_in(slots, *value),
            pointer: operand_in(slots, *pointer),
            align: *align,
        }),
        Inst::GetElementPtr {
            into,
            inbounds,
            nuw,
            of_type,
            base,
            indices,
        } => Ok(Inst::GetElementPtr {
            into: slot_of(slots, *into),
            inbounds: *inbounds,
            nuw: *nuw,
            of_type: copy_of(alloc, of_type)?,
            base: operand_in(slots, *base),
            indices: indices_in(alloc, slots, indices.as_slice())?,
        }),
    }
}

fn insts_in(alloc: Global, slots: &[usize], insts: &[Inst]) -> Result<Sequence<Inst>, NoMemory>
    ensures { IfOk result (λ renamed. renamed ≡ map (inst_in slots.now) insts.now) }
{
    let mut renamed = Sequence::from_vec(Vec::new(alloc));
    for inst in insts {
        renamed.push(inst_in(alloc, slots, inst)?)?;
    }
    Ok(renamed)
}

// ---- phis

fn entry_in(slots: &[usize], entry: PhiEntry) -> PhiEntry
    ensures { result ≡ entry_in slots.now entry }
{
    PhiEntry {
        operand: operand_in(slots, entry.operand),
        from: entry.from,
    }
}

fn entries_in(
    alloc: Global,
    slots: &[usize],
    entries: &[PhiEntry],
) -> Result<Sequence<PhiEntry>, NoMemory>
    ensures { IfOk result (λ renamed. renamed ≡ map (entry_in slots.now) entries.now) }
{
    let mut renamed = Sequence::from_vec(Vec::new(alloc));
    for entry in entries {
        renamed.push(entry_in(slots, *entry))?;
    }
    Ok(renamed)
}

fn phi_in(alloc: Global, slots: &[usize], phi: &Phi) -> Result<Phi, NoMemory>
    ensures { IfOk result (λ renamed. renamed ≡ phi_in slots.now phi.now) }
{
    Ok(Phi {
        into: slot_of(slots, phi.into),
        of_type: phi.of_type,
        entries: entries_in(alloc, slots, phi.entries.as_slice())?,
    })
}

fn phis_in(alloc: Global, slots: &[usize], phis: &[Phi]) -> Result<Sequence<Phi>, NoMemory>
    ensures { IfOk result (λ renamed. renamed ≡ map (phi_in slots.now) phis.now) }
{
    let mut renamed = Sequence::from_vec(Vec::new(alloc));
    for phi in phis {
        renamed.push(phi_in(alloc, slots, phi)?)?;
    }
    Ok(renamed)
}

// ---- blocks

fn cases_of(alloc: Global, cases: &[Case]) -> Result<Sequence<Case>, NoMemory>
    ensures { IfOk result (λ copy. copy ≡ cases.now) }
{
    Ok(Sequence::from_vec(Vec::from_slice(alloc, cases)?))
}

fn terminator_in(
    alloc: Global,
    slots: &[usize],
    terminator: &Terminator,
) -> Result<Terminator, NoMemory>
    ensures { IfOk result (λ renamed. renamed ≡ terminator_in slots.now terminator.now) }
{
    match terminator {
        Terminator::Return(returned) => Ok(Terminator::Return(returned_in(slots, *returned))),
        Terminator::Branch { to } => Ok(Terminator::Branch { to: *to }),
        Terminator::CondBranch {
            condition,
            if_true,
            if_false,
        } => Ok(Terminator::CondBranch {
            condition: operand_in(slots, *condition),
            if_true: *if_true,
            if_false: *if_false,
        }),
        Terminator::Switch {
            width,
            operand,
            default,
            cases,
        } => Ok(Terminator::Switch {
            width: *width,
            operand: operand_in(slots, *operand),
            default: *default,
            cases: cases_of(alloc, cases.as_slice())?,
        }),
        Terminator::Unreachable => Ok(Terminator::Unreachable),
    }
}

fn block_in(alloc: Global, slots: &[usize], block: &Block) -> Result<Block, NoMemory>
    ensures { IfOk result (λ renamed. renamed ≡ block_in slots.now block.now) }
{
    Ok(Block {
        label: block.label,
        phis: phis_in(alloc, slots, block.phis.as_slice())?,
        insts: insts_in(alloc, slots, block.insts.as_slice())?,
        terminator: terminator_in(alloc, slots, &block.terminator)?,
    })
}

fn blocks_in(alloc: Global, slots: &[usize], blocks: &[Block]) -> Result<Sequence<Block>, NoMemory>
    ensures { IfOk result (λ renamed. renamed ≡ map (block_in slots.now) blocks.now) }
{
    let mut renamed = Sequence::from_vec(Vec::new(alloc));
    for block in blocks {
        renamed.push(block_in(alloc, slots, block)?)?;
    }
    Ok(renamed)
}

// ---- a function

fn parameter_in(slots: &[usize], parameter: Parameter) -> Parameter
    ensures { result ≡ parameter_in slots.now parameter }
{
    Parameter {
        of_type: parameter.of_type,
        no_undef: parameter.no_undef,
        non_null: parameter.non_null,
        name: slot_of(slots, parameter.name),
    }
}

fn parameters_in(
    alloc: Global,
    slots: &[usize],
    parameters: &[Parameter],
) -> Result<Sequence<Parameter>, NoMemory>
    ensures { IfOk result (λ renamed. renamed ≡ map (parameter_in slots.now) parameters.now) }
{
    let mut renamed = Sequence::from_vec(Vec::new(alloc));
    for parameter in parameters {
        renamed.push(parameter_in(slots, *parameter))?;
    }
    Ok(renamed)
}

/// A function with each name of a value replaced by its slot, over another table of names. Labels
/// keep their numbers, and no line and column is kept. A name past the end of the list keeps its
/// number.
///
/// # Errors
/// Out of memory.
pub fn function_in(
    alloc: Global,
    f: &Function,
    slots: &[usize],
    names: Names,
) -> Result<Function, NoMemory>
    ensures { IfOk result (λ g. g ≡ function_in slots.now names f.now) }
{
    Ok(Function {
        name: copy_name(alloc, &f.name)?,
        returns: f.returns,
        returns_no_undef: f.returns_no_undef,
        parameters: parameters_in(alloc, slots, f.parameters.as_slice())?,
        blocks: blocks_in(alloc, slots, f.blocks.as_slice())?,
        names,
        places: Sequence::from_vec(Vec::new(alloc)),
    })
}

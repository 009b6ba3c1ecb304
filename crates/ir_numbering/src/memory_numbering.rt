// Numbering the names in instructions on memory.
ghost use Rattle.ir_numbering.specs.Answer.{Numbers};
ghost use Rattle.ir_numbering.specs.Numbering as spec;
ghost use Rattle.ir_numbering.specs.Numbering.{each_in, index_in};

use crate::numbering::{number, typed, value};
use ir_tree::{GepIndex, Inst, IrType, MemoryType, Name, Names};
use ir_words::{WrittenAccess, WrittenGep, WrittenIndex, WrittenTyped, WrittenValue};
use std::alloc::Global;
use support::{NoMemory, Sequence};

#[tactic(auto, unfolding(crate::specs::Numbering::alloca_in))]
fn alloca(
    names: &mut Names,
    into: Name,
    number_of: usize,
    of_type: MemoryType,
    align: u64,
) -> Result<Inst, NoMemory>
    ensures { Numbers result names.new (spec.alloca_in names.old into number_of of_type align) }
{
    let into = number(names, into)?;
    Ok(Inst::Alloca {
        into,
        number: number_of,
        of_type,
        align,
    })
}

#[tactic(auto, unfolding(crate::specs::Numbering::load_in))]
fn load(
    names: &mut Names,
    into: Name,
    of_type: IrType,
    pointer: WrittenValue,
    align: u64,
) -> Result<Inst, NoMemory>
    ensures { Numbers result names.new (spec.load_in names.old into of_type pointer align) }
{
    let into = number(names, into)?;
    let pointer = value(names, pointer)?;
    Ok(Inst::Load {
        into,
        of_type,
        pointer,
        align,
    })
}

#[tactic(auto, unfolding(crate::specs::Numbering::store_in))]
fn store(
    names: &mut Names,
    stored: WrittenTyped,
    pointer: WrittenValue,
    align: u64,
) -> Result<Inst, NoMemory>
    ensures { Numbers result names.new (spec.store_in names.old stored pointer align) }
{
    let stored = typed(names, stored)?;
    let pointer = value(names, pointer)?;
    Ok(Inst::Store {
        value: stored,
        pointer,
        align,
    })
}

/// An instruction with an alignment.
pub fn access(names: &mut Names, access: WrittenAccess, align: u64) -> Result<Inst, NoMemory>
    ensures { Numbers result names.new (spec.access_in names.old access align) }
{
    match access {
        WrittenAccess::Alloca {
            into,
            number,
            of_type,
        } => alloca(names, into.name, number, of_type.of_type, align),
        WrittenAccess::Load {
            into,
            of_type,
            pointer,
        } => {
            let WrittenTyped { operand, .. } = pointer;
            load(names, into.name, of_type.of_type, operand.value, align)
        }
        WrittenAccess::Store {
            value: stored,
            pointer,
        } => {
            let WrittenTyped { operand, .. } = pointer;
            store(names, stored, operand.value, align)
        }
    }
}

#[tactic(auto, unfolding(crate::specs::Numbering::index_in))]
fn index(names: &mut Names, index: WrittenIndex) -> Result<GepIndex, NoMemory>
    ensures { Numbers result names.new (index_in names.old index) }
{
    let WrittenIndex { of_type, operand } = index;
    let operand = value(names, operand.value)?;
    Ok(GepIndex {
        width: of_type.width,
        operand,
    })
}

fn indices(
    alloc: Global,
    names: &mut Names,
    indices: Sequence<WrittenIndex>,
) -> Result<Sequence<GepIndex>, NoMemory>
    ensures { Numbers result names.new (each_in index_in names.old indices) }
{
    let mut numbered = Vec::with_capacity(alloc, indices.len())?;
    for one in indices.into_vec() {
        numbered.push(index(names, one)?)?;
    }
    Ok(Sequence::from_vec(numbered))
}

/// A `getelementptr`.
#[tactic(auto, unfolding(crate::specs::Numbering::gep_in))]
pub fn gep(alloc: Global, names: &mut Names, gep: WrittenGep) -> Result<Inst, NoMemory>
    ensures { Numbers result names.new (spec.gep_in names.old gep) }
{
    let WrittenGep {
        into,
        flags,
        of_type,
        base,
        indices: written,
    } = gep;
    let into = number(names, into.name)?;
    let WrittenTyped { operand, .. } = base.into_inner();
    let base = value(names, operand.value)?;
    let indices = indices(alloc, names, written)?;
    Ok(Inst::GetElementPtr {
        into,
        inbounds: flags.inbounds,
        nuw: flags.nuw,
        of_type: of_type.into_inner().of_type,
        base,
        indices,
    })
}

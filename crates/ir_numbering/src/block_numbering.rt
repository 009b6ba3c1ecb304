// Numbering the names in the blocks of a function.
ghost use Rattle.ir_numbering.specs.Answer.{Numbers};
ghost use Rattle.ir_numbering.specs.Numbering as spec;
ghost use Rattle.ir_numbering.specs.Numbering.{each_in, entry_in, phi_in, case_in, terminator_in};

use crate::numbering::{insts, number, typed, value};
use ir_tree::{Block, Case, Name, Names, Phi, PhiEntry, Terminator};
use ir_words::{
    WrittenBlock, WrittenBody, WrittenCase, WrittenEntry, WrittenPhi, WrittenReturn,
    WrittenTerminator, WrittenValue,
};
use std::alloc::Global;
use support::{NoMemory, Sequence};
use tv_num::Width;

#[tactic(auto, unfolding(crate::specs::Numbering::entry_in))]
fn entry(names: &mut Names, entry: WrittenEntry) -> Result<PhiEntry, NoMemory>
    ensures { Numbers result names.new (entry_in names.old entry) }
{
    let WrittenEntry { operand, from } = entry;
    let operand = value(names, operand.value)?;
    let from = number(names, from.name)?;
    Ok(PhiEntry { operand, from })
}

fn entries(
    alloc: Global,
    names: &mut Names,
    entries: Sequence<WrittenEntry>,
) -> Result<Sequence<PhiEntry>, NoMemory>
    ensures { Numbers result names.new (each_in entry_in names.old entries) }
{
    let mut numbered = Vec::with_capacity(alloc, entries.len())?;
    for one in entries.into_vec() {
        numbered.push(entry(names, one)?)?;
    }
    Ok(Sequence::from_vec(numbered))
}

#[tactic(auto, unfolding(crate::specs::Numbering::phi_in))]
fn phi(alloc: Global, names: &mut Names, phi: WrittenPhi) -> Result<Phi, NoMemory>
    ensures { Numbers result names.new (phi_in names.old phi) }
{
    let WrittenPhi {
        into,
        of_type,
        entries: written,
    } = phi;
    let into = number(names, into.name)?;
    let entries = entries(alloc, names, written)?;
    Ok(Phi {
        into,
        of_type: of_type.of_type,
        entries,
    })
}

fn phis(
    alloc: Global,
    names: &mut Names,
    phis: Sequence<WrittenPhi>,
) -> Result<Sequence<Phi>, NoMemory>
    ensures { Numbers result names.new (each_in phi_in names.old phis) }
{
    let mut numbered = Vec::with_capacity(alloc, phis.len())?;
    for one in phis.into_vec() {
        numbered.push(phi(alloc, names, one)?)?;
    }
    Ok(Sequence::from_vec(numbered))
}

#[tactic(auto, unfolding(crate::specs::Numbering::case_in))]
fn case(names: &mut Names, case: WrittenCase) -> Result<Case, NoMemory>
    ensures { Numbers result names.new (case_in names.old case) }
{
    let WrittenCase {
        of_type,
        literal,
        to,
    } = case;
    let to = number(names, to.name)?;
    Ok(Case {
        width: of_type.width,
        value: literal.value,
        to,
    })
}

fn cases(
    alloc: Global,
    names: &mut Names,
    cases: Sequence<WrittenCase>,
) -> Result<Sequence<Case>, NoMemory>
    ensures { Numbers result names.new (each_in case_in names.old cases) }
{
    let mut numbered = Vec::with_capacity(alloc, cases.len())?;
    for one in cases.into_vec() {
        numbered.push(case(names, one)?)?;
    }
    Ok(Sequence::from_vec(numbered))
}

#[tactic(auto, unfolding(crate::specs::Numbering::returned_in))]
fn returned(names: &mut Names, returned: WrittenReturn) -> Result<Terminator, NoMemory>
    ensures { Numbers result names.new (spec.returned_in names.old returned) }
{
    match returned {
        WrittenReturn::Void(_) => Ok(Terminator::Return(None)),
        WrittenReturn::Value(value) => Ok(Terminator::Return(Some(typed(names, value)?))),
    }
}

#[tactic(auto, unfolding(crate::specs::Numbering::branch_in))]
fn branch(names: &mut Names, to: Name) -> Result<Terminator, NoMemory>
    ensures { Numbers result names.new (spec.branch_in names.old to) }
{
    let to = number(names, to)?;
    Ok(Terminator::Branch { to })
}

#[tactic(auto, unfolding(crate::specs::Numbering::cond_branch_in))]
fn cond_branch(
    names: &mut Names,
    condition: WrittenValue,
    if_true: Name,
    if_false: Name,
) -> Result<Terminator, NoMemory>
    ensures { Numbers result names.new (spec.cond_branch_in names.old condition if_true if_false) }
{
    let condition = value(names, condition)?;
    let if_true = number(names, if_true)?;
    let if_false = number(names, if_false)?;
    Ok(Terminator::CondBranch {
        condition,
        if_true,
        if_false,
    })
}

#[tactic(auto, unfolding(crate::specs::Numbering::switch_in))]
fn switch(
    alloc: Global,
    names: &mut Names,
    width: Width,
    operand: WrittenValue,
    default: Name,
    written: Sequence<WrittenCase>,
) -> Result<Terminator, NoMemory>
    ensures { Numbers result names.new (spec.switch_in names.old width operand default written) }
{
    let operand = value(names, operand)?;
    let default = number(names, default)?;
    let cases = cases(alloc, names, written)?;
    Ok(Terminator::Switch {
        width,
        operand,
        default,
        cases,
    })
}

fn terminator(
    alloc: Global,
    names: &mut Names,
    terminator: WrittenTerminator,
) -> Result<Terminator, NoMemory>
    ensures { Numbers result names.new (terminator_in names.old terminator) }
{
    match terminator {
        WrittenTerminator::Return(value) => returned(names, value),
        WrittenTerminator::Branch(to) => branch(names, to.name),
        WrittenTerminator::CondBranch {
            bit: _,
            condition,
            if_true,
            if_false,
        } => cond_branch(names, condition.value, if_true.name, if_false.name),
        WrittenTerminator::Switch {
            of_type,
            operand,
            default,
            cases,
        } => switch(
            alloc,
            names,
            of_type.width,
            operand.value,
            default.name,
            cases,
        ),
        WrittenTerminator::Unreachable => Ok(Terminator::Unreachable),
    }
}

#[tactic(auto, unfolding(crate::specs::Numbering::block_in))]
fn block(
    alloc: Global,
    names: &mut Names,
    label: Name,
    body: WrittenBody,
) -> Result<Block, NoMemory>
    ensures { Numbers result names.new (spec.block_in names.old label body) }
{
    let WrittenBody {
        phis: written_phis,
        insts: written_insts,
        terminator: last,
    } = body;
    let label = number(names, label)?;
    let phis = phis(alloc, names, written_phis)?;
    let insts = insts(alloc, names, written_insts)?;
    let terminator = terminator(alloc, names, last.into_inner())?;
    Ok(Block {
        label,
        phis,
        insts,
        terminator,
    })
}

// The blocks after the entry.
fn blocks_behind(
    alloc: Global,
    names: &mut Names,
    first: Block,
    others: Sequence<WrittenBlock>,
) -> Result<Sequence<Block>, NoMemory>
    ensures { Numbers result names.new (spec.others_in first names.old others) }
{
    let mut numbered = Vec::with_capacity(alloc, others.len().saturating_add(1))?;
    numbered.push(first)?;
    for one in others.into_vec() {
        numbered.push(block(alloc, names, one.label.name, one.body)?)?;
    }
    Ok(Sequence::from_vec(numbered))
}

/// The blocks of a function, the entry after this label.
#[tactic(auto, unfolding(crate::specs::Numbering::blocks_in))]
pub fn blocks(
    alloc: Global,
    names: &mut Names,
    label: Name,
    entry: WrittenBody,
    others: Sequence<WrittenBlock>,
) -> Result<Sequence<Block>, NoMemory>
    ensures { Numbers result names.new (spec.blocks_in names.old label entry others) }
{
    let first = block(alloc, names, label, entry)?;
    blocks_behind(alloc, names, first, others)
}

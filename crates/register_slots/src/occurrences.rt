//! Where the names of a function get their values, and where they are read.
//!
//! Positions are numbers in text order: 0 is that of the parameters, and each block has one for its
//! entry with its phis, one for each other instruction, and one for its terminator.

ghost use Rattle.ir_tree.specs.BlockIndexes.{IsIndex};

use ir_tree::{
    BlockIndex, Function, GepIndex, Inst, Operand, Parameter, Phi, PhiEntry, Terminator,
    TypedOperand, result_of,
};
use std::alloc::Global;
use support::NoMemory;

/// The positions of a block.
#[derive(Clone, Copy)]
pub struct Span {
    /// That of its entry, with its phis.
    pub entry: usize,
    /// That of its terminator.
    pub end: usize,
}

/// What is done with a name.
#[derive(Clone, Copy)]
pub enum Kind {
    /// A parameter gets its value.
    Parameter,
    /// A phi assigns it.
    Phi,
    /// Another instruction assigns it.
    Result,
    Read,
}

/// A name where it gets its value or is read. A phi reads at the end of the block that it comes from.
#[derive(Clone, Copy)]
pub struct Occurrence {
    pub name: usize,
    pub kind: Kind,
    pub point: Point,
}

/// A block, counted from 0 in text order, and a position in it.
#[derive(Clone, Copy)]
pub struct Point {
    pub block: usize,
    pub position: usize,
}

/// The positions of each block.
pub fn spans_of(alloc: Global, f: &Function) -> Result<Vec<Span>, NoMemory> {
    let mut spans = Vec::new(alloc);
    let mut entry: usize = 1;
    for block in f.blocks.as_slice() {
        let end = entry.saturating_add(block.insts.len()).saturating_add(1);
        spans.push(Span { entry, end })?;
        entry = end.saturating_add(1);
    }
    Ok(spans)
}

fn entry_point(spans: &[Span], block: usize) -> Point {
    match spans.get(block) {
        Some(span) => Point {
            block,
            position: span.entry,
        },
        None => Point { block, position: 0 },
    }
}

fn end_point(spans: &[Span], block: usize) -> Point {
    match spans.get(block) {
        Some(span) => Point {
            block,
            position: span.end,
        },
        None => Point { block, position: 0 },
    }
}

/// Each occurrence of a name of a value. The index is of the function, and the spans are its blocks'.
pub fn occurrences_of(
    alloc: Global,
    f: &Function,
    index: &BlockIndex,
    spans: &[Span],
) -> Result<Vec<Occurrence>, NoMemory>
    requires { IsIndex f.now index.now }
{
    let mut all = Vec::new(alloc);
    push_parameters(&mut all, f.parameters.as_slice())?;
    for (at, block) in f.blocks.as_slice().iter().enumerate() {
        push_phis(&mut all, f, index, spans, at, block.phis.as_slice())?;
        push_insts(&mut all, entry_point(spans, at), block.insts.as_slice())?;
        push_end(&mut all, end_point(spans, at), &block.terminator)?;
    }
    Ok(all)
}

fn push_parameters(all: &mut Vec<Occurrence>, parameters: &[Parameter]) -> Result<(), NoMemory> {
    for parameter in parameters {
        all.push(Occurrence {
            name: parameter.name,
            kind: Kind::Parameter,
            point: Point {
                block: 0,
                position: 0,
            },
        })?;
    }
    Ok(())
}

fn push_phis(
    all: &mut Vec<Occurrence>,
    f: &Function,
    index: &BlockIndex,
    spans: &[Span],
    at: usize,
    phis: &[Phi],
) -> Result<(), NoMemory>
    requires { IsIndex f.now index.now }
{
    for phi in phis {
        all.push(Occurrence {
            name: phi.into,
            kind: Kind::Phi,
            point: entry_point(spans, at),
        })?;
        push_entries(all, f, index, spans, phi.entries.as_slice())?;
    }
    Ok(())
}

fn push_entries(
    all: &mut Vec<Occurrence>,
    f: &Function,
    index: &BlockIndex,
    spans: &[Span],
    entries: &[PhiEntry],
) -> Result<(), NoMemory>
    requires { IsIndex f.now index.now }
{
    for entry in entries {
        let block = index.place(f, entry.from);
        push_read(all, end_point(spans, block), entry.operand)?;
    }
    Ok(())
}

fn push_read(all: &mut Vec<Occurrence>, point: Point, operand: Operand) -> Result<(), NoMemory> {
    match operand {
        Operand::Local(name) => {
            all.push(Occurrence {
                name,
                kind: Kind::Read,
                point,
            })?;
            Ok(())
        }
        Operand::Number(_) | Operand::Null | Operand::Poison | Operand::Undef => Ok(()),
    }
}

/// The instructions of the block that is entered at a point.
fn push_insts(all: &mut Vec<Occurrence>, entry: Point, insts: &[Inst]) -> Result<(), NoMemory> {
    let mut position = entry.position;
    for inst in insts {
        position = position.saturating_add(1);
        let point = Point {
            block: entry.block,
            position,
        };
        push_reads(all, point, inst)?;
        push_result(all, point, inst)?;
    }
    Ok(())
}

fn push_result(all: &mut Vec<Occurrence>, point: Point, inst: &Inst) -> Result<(), NoMemory> {
    match result_of(inst) {
        Some(name) => {
            all.push(Occurrence {
                name,
                kind: Kind::Result,
                point,
            })?;
            Ok(())
        }
        None => Ok(()),
    }
}

fn push_reads(all: &mut Vec<Occurrence>, point: Point, inst: &Inst) -> Result<(), NoMemory> {
    match inst {
        Inst::Binary { left, right, .. } | Inst::Icmp { left, right, .. } => {
            push_read(all, point, *left)?;
            push_read(all, point, *right)
        }
        Inst::Cast { operand, .. } | Inst::Freeze { operand, .. } => {
            push_read(all, point, *operand)
        }
        Inst::Select {
            condition,
            if_true,
            if_false,
            ..
        } => {
            push_read(all, point, *condition)?;
            push_read(all, point, if_true.operand)?;
            push_read(all, point, if_false.operand)
        }
        Inst::Alloca { .. } => Ok(()),
        Inst::Load { pointer, .. } => push_read(all, point, *pointer),
        Inst::Store { value, pointer, .. } => {
            push_read(all, point, value.operand)?;
            push_read(all, point, *pointer)
        }
        Inst::GetElementPtr { base, indices, .. } => {
            push_read(all, point, *base)?;
            push_indices(all, point, indices.as_slice())
        }
    }
}

fn push_indices(
    all: &mut Vec<Occurrence>,
    point: Point,
    indices: &[GepIndex],
) -> Result<(), NoMemory> {
    for index in indices {
        push_read(all, point, index.operand)?;
    }
    Ok(())
}

fn push_end(
    all: &mut Vec<Occurrence>,
    point: Point,
    terminator: &Terminator,
) -> Result<(), NoMemory> {
    match terminator {
        Terminator::Return(returned) => push_returned(all, point, *returned),
        Terminator::CondBranch { condition, .. } => push_read(all, point, *condition),
        Terminator::Switch { operand, .. } => push_read(all, point, *operand),
        Terminator::Branch { .. } | Terminator::Unreachable => Ok(()),
    }
}

fn push_returned(
    all: &mut Vec<Occurrence>,
    point: Point,
    returned: Option<TypedOperand>,
) -> Result<(), NoMemory> {
    match returned {
        Some(typed) => push_read(all, point, typed.operand),
        None => Ok(()),
    }
}

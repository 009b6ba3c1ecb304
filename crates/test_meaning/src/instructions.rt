//! From a line of the table to functions of one instruction, and the sums over their operands.

use byte_block::Value;
use ir_reader::read;
use ir_tree::{Function, Inst, Module};
use std::alloc::Global;
use std::test::Fail;
use support::NoMemory;
use tv_num::Width;

/// The widths of a column: of the operands; and for a cast the wider and the narrower one.
pub type Column = (u64, u64, u64);

pub const COLUMNS: [Column; 8] = [
    (1, 2, 1),
    (2, 3, 2),
    (3, 4, 1),
    (4, 8, 3),
    (8, 16, 8),
    (16, 32, 16),
    (32, 64, 1),
    (64, 64, 32),
];

/// A module with one function of the instruction, on two operands or, for a cast, on one.
pub fn module_of(alloc: Global, instruction: &str, column: Column) -> Result<Module, Fail> {
    let (width, wider, narrower) = column;
    let text = if instruction.starts_with("trunc") {
        cast_text(alloc, instruction, wider, narrower)?
    } else if instruction.starts_with("zext") || instruction.starts_with("sext") {
        cast_text(alloc, instruction, narrower, wider)?
    } else if instruction.starts_with("icmp") {
        binary_text(alloc, instruction, width, 1)?
    } else {
        binary_text(alloc, instruction, width, width)?
    };
    match read(alloc, text.as_bytes()) {
        Ok(module) => Ok(module),
        Err(_) => Err(Fail::from("an instruction is read")),
    }
}

fn cast_text(alloc: Global, cast: &str, from: u64, to: u64) -> Result<String, Fail> {
    let header = format!(in alloc; "define i{to} @f(i{from} %a) {{\n")?;
    Ok(format!(in alloc; "{header}  %r = {cast} i{from} %a to i{to}\n  ret i{to} %r\n}}\n")?)
}

fn binary_text(alloc: Global, instruction: &str, from: u64, to: u64) -> Result<String, Fail> {
    let header = format!(in alloc; "define i{to} @f(i{from} %a, i{from} %b) {{\n")?;
    Ok(format!(in alloc; "{header}  %r = {instruction} i{from} %a, %b\n  ret i{to} %r\n}}\n")?)
}

/// The function of such a module.
pub fn function_in(module: &Module) -> Option<&Function> {
    module.entries.as_slice().first()?.function.as_ref().ok()
}

/// The one instruction of such a function.
pub fn instruction_in(function: &Function) -> Option<&Inst> {
    function.blocks.as_slice().first()?.insts.as_slice().first()
}

/// Each left operand with each right one, the left one slower.
fn pairs_of(alloc: Global, lefts: &[Value], rights: &[Value]) -> Result<Vec<[Value; 2]>, NoMemory> {
    let mut pairs = Vec::new(alloc);
    for left in lefts {
        for right in rights {
            pairs.push([*left, *right])?;
        }
    }
    Ok(pairs)
}

/// The operands that a sum goes over. A cast has no right one: it is poison.
pub fn operand_pairs(alloc: Global, inst: &Inst) -> Result<Vec<[Value; 2]>, Fail> {
    match inst {
        Inst::Binary { width, .. } | Inst::Icmp { width, .. } => {
            let values = operands(alloc, *width)?;
            Ok(pairs_of(alloc, values.as_slice(), values.as_slice())?)
        }
        Inst::Cast { from, .. } => {
            let values = operands(alloc, *from)?;
            Ok(pairs_of(alloc, values.as_slice(), &[Value::Poison])?)
        }
        _ => Err(Fail::from("a line has an operation, a comparison or a cast")),
    }
}

/// Poison, and all numbers of at most 4 bits; of more bits those at the ends, about the middle and
/// about the width.
fn operands(alloc: Global, width: Width) -> Result<Vec<Value>, NoMemory> {
    let mut values = Vec::new(alloc);
    let (mask, half, bits) = (width.mask(), width.half(), width.bits() as u64);
    if bits <= 4 {
        for n in 0..=mask {
            values.push(Value::Num(widened(n, mask)))?;
        }
    } else {
        let alternate = 0x5555_5555_5555_5555;
        let corners = [
            0,
            1,
            2,
            3,
            5,
            7,
            bits - 1,
            bits,
            bits + 1,
            half - 1,
            half,
            half + 1,
            mask - 1,
            mask,
            mask & alternate,
            mask & !alternate,
        ];
        for n in corners {
            values.push(Value::Num(widened(n, mask)))?;
        }
    }
    values.push(Value::Poison)?;
    Ok(values)
}

/// A number with the bits above its width set, if it is odd: they have no effect.
fn widened(n: u64, mask: u64) -> u64 {
    if n % 2 == 1 { n | !mask } else { n }
}

/// What an instruction gives.
#[derive(Clone, Copy, Debug, PartialEq, Eq)]
pub enum Given {
    Number(u64),
    Poison,
    Other,
    Undefined,
}

fn mixed(sum: u64, part: u64) -> u64 {
    sum.wrapping_mul(1_000_003).wrapping_add(part)
}

/// The sum with one more result.
pub fn with_given(sum: u64, given: Given) -> u64 {
    match given {
        Given::Number(n) => mixed(mixed(sum, 1), n),
        Given::Poison => mixed(sum, 2),
        Given::Other => mixed(sum, 3),
        Given::Undefined => mixed(sum, 4),
    }
}

/// The upper half of a sum, which is mixed once more.
pub fn upper_half(sum: u64) -> u64 {
    sum.wrapping_mul(0x9e37_79b9_7f4a_7c15) >> 32
}

ghost use Rattle.std.specs.Prelude.{◌≡◌, ◌+◌, ◌<◌, ◌≤◌, ◌↔◌, IsTrue, All, sum_by, IfSome, None};
ghost use Rattle.std.specs.Prelude.{◌%◌, ◌^◌, min};
ghost use Rattle.ir_tree.specs.Limits.{instructions_of, HasFewCases, HasFewEntries, IsAlignment, HasSmallArrays, HasSmallTypes, HasSmallObjects, IsWithinLimits, cases_in};
ghost use Rattle.ir_tree.specs.Types.{store_size, padded, type_align, nested_size, object_size, indexed_size};

use crate::tree::{Block, Function, Inst, IrType, MemoryType, Terminator};

/// The greatest number of parameters.
pub const MOST_PARAMETERS: usize = 16;

/// The greatest number of instructions, phis and terminators counted.
pub const MOST_INSTRUCTIONS: usize = 65_536;

/// The greatest number of cases of a switch.
pub const MOST_CASES: usize = 256;

/// The greatest number of entries of a phi.
pub const MOST_ENTRIES: usize = 16_777_216;

/// The greatest number of bytes of an alloca.
pub const MOST_ALLOCA_BYTES: u64 = 64;

/// The greatest number of bytes of an array type elsewhere.
pub const MOST_ARRAY_BYTES: u64 = 1_048_576;

/// The greatest number of arrays within one another.
pub const MOST_NESTING: usize = 8;

/// The greatest number of indices of a `getelementptr`: one of objects, and one of each array.
pub const MOST_INDICES: usize = 9;

/// Whether the function has at most 16 parameters and 65,536 instructions, phis and terminators
/// counted, each of its switches at most 256 cases, each of its phis at most 16,777,216 entries,
/// each alloca at most 64 bytes, each other array type at most 1,048,576, arrays at most 8 within
/// one another, each `getelementptr` at most 9 indices, and each alignment is a power of two up to
/// 4,096.
pub fn is_within_limits(f: &Function) -> bool
    ensures { IsTrue result ↔ IsWithinLimits f.now }
{
    f.parameters.len() <= MOST_PARAMETERS
        && has_few_instructions(f.blocks.as_slice())
        && have_few_cases(f.blocks.as_slice())
        && have_few_entries(f.blocks.as_slice())
        && have_small_objects(f.blocks.as_slice())
}

fn has_few_instructions(blocks: &[Block]) -> bool
    ensures { IsTrue result ↔ (sum_by instructions_of blocks.now ≤ 65536) }
{
    let mut left = MOST_INSTRUCTIONS;
    for block in blocks {
        match rest_behind(left, block) {
            Some(rest) => left = rest,
            None => return false,
        }
    }
    true
}

// How many instructions may still follow a block, where the block is not too large itself.
fn rest_behind(left: usize, block: &Block) -> Option<usize>
    ensures some { IfSome result (λ rest. rest + instructions_of block.now ≡ left) }
    ensures none { result ≡ None → left < instructions_of block.now }
{
    let rest = left.checked_sub(block.phis.len())?;
    let rest = rest.checked_sub(block.insts.len())?;
    rest.checked_sub(1)
}

fn case_count(terminator: &Terminator) -> usize
    ensures { result ≡ cases_in terminator.now }
{
    match terminator {
        Terminator::Return(_) | Terminator::Branch { .. } | Terminator::CondBranch { .. } => 0,
        Terminator::Switch { cases, .. } => cases.len(),
        Terminator::Unreachable => 0,
    }
}

fn have_few_cases(blocks: &[Block]) -> bool
    ensures { IsTrue result ↔ All HasFewCases blocks.now }
{
    blocks
        .iter()
        .all(|block| case_count(&block.terminator) <= MOST_CASES)
}

fn has_few_entries(block: &Block) -> bool
    ensures { IsTrue result ↔ HasFewEntries block.now }
{
    block
        .phis
        .as_slice()
        .iter()
        .all(|phi| phi.entries.len() <= MOST_ENTRIES)
}

fn have_few_entries(blocks: &[Block]) -> bool
    ensures { IsTrue result ↔ All HasFewEntries blocks.now }
{
    blocks.iter().all(|block| has_few_entries(block))
}

/// How many bytes a load or a store of the type accesses (LLVM Language Reference, "Data Layout").
pub fn store_size(of_type: IrType) -> u64
    ensures value { result ≡ store_size of_type }
    ensures most { result ≤ 8 }
{
    match of_type {
        IrType::Int(width) => (width.bits() as u64 + 7) / 8,
        IrType::Ptr => 8,
    }
}

/// The alignment of a type in bytes where none is written, which is also its size in memory as an
/// object and as an element of an array (LLVM Language Reference, "Data Layout").
pub fn type_align(of_type: IrType) -> u64
    ensures value { result ≡ type_align of_type }
    ensures most { result ≤ 8 }
{
    match store_size(of_type) {
        0 | 1 => 1,
        2 => 2,
        3 | 4 => 4,
        _ => 8,
    }
}

/// What an index of a `getelementptr` with this number counts, in bytes: objects of the type, and
/// then elements of the array that was entered. What is past 64 bits is cut.
pub fn indexed_size(of_type: &MemoryType, n: usize) -> u64
    ensures { result ≡ indexed_size of_type.now n % 2 ^ 64 }
{
    let lengths = of_type.lengths.as_slice();
    let mut size = type_align(of_type.element);
    for i in (n..lengths.len()).rev() {
        size = size.wrapping_mul(lengths[i]);
    }
    size
}

// The bytes of an object, or one more than the most of an alloca where it has more.
fn capped_size(of_type: &MemoryType) -> u64
    ensures { result ≡ min (object_size of_type.now) 65 }
{
    let lengths = of_type.lengths.as_slice();
    let mut size = type_align(of_type.element);
    for i in (0..lengths.len()).rev() {
        size = size.saturating_mul(lengths[i]).min(MOST_ALLOCA_BYTES + 1);
    }
    size
}

fn has_small_arrays(of_type: &MemoryType) -> bool
    ensures { IsTrue result ↔ HasSmallArrays of_type.now.lengths of_type.now.element }
{
    let lengths = of_type.lengths.as_slice();
    let mut size = type_align(of_type.element);
    for i in (0..lengths.len()).rev() {
        size = size.saturating_mul(lengths[i]);
        if size > MOST_ARRAY_BYTES {
            return false;
        }
    }
    true
}

fn is_alignment(align: u64) -> bool
    ensures { IsTrue result ↔ IsAlignment align }
{
    matches!(
        align,
        1 | 2 | 4 | 8 | 16 | 32 | 64 | 128 | 256 | 512 | 1024 | 2048 | 4096
    )
}

fn has_small_types(inst: &Inst) -> bool
    ensures { IsTrue result ↔ HasSmallTypes inst.now }
{
    match inst {
        Inst::Binary { .. } | Inst::Icmp { .. } | Inst::Cast { .. } => true,
        Inst::Select { .. } | Inst::Freeze { .. } => true,
        Inst::Alloca { of_type, align, .. } => {
            of_type.lengths.len() <= MOST_NESTING
                && capped_size(of_type) <= MOST_ALLOCA_BYTES
                && is_alignment(*align)
        }
        Inst::Load { align, .. } | Inst::Store { align, .. } => is_alignment(*align),
        Inst::GetElementPtr {
            of_type,
            indices,
            ..
        } => {
            of_type.lengths.len() <= MOST_NESTING
                && indices.len() <= MOST_INDICES
                && has_small_arrays(of_type)
        }
    }
}

fn has_small_objects(block: &Block) -> bool
    ensures { IsTrue result ↔ HasSmallObjects block.now }
{
    block
        .insts
        .as_slice()
        .iter()
        .all(|inst| has_small_types(inst))
}

fn have_small_objects(blocks: &[Block]) -> bool
    ensures { IsTrue result ↔ All HasSmallObjects blocks.now }
{
    blocks.iter().all(|block| has_small_objects(block))
}

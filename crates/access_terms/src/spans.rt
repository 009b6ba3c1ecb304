//! What an access to a pointer's block reaches, over all blocks of memory.

ghost use Rattle.std.specs.Prelude.{◌≡◌, ◌&&◌, ◌∷◌, List, IfOk, cond, length, true, Some};
ghost use Rattle.byte_block.specs.declared.block.MemoryBlock.{MemoryBlock};
ghost use Rattle.memory_access.specs.Blocks.{names};
ghost use Rattle.bv_terms.specs.Trees.{IsTerm, Keeps, bit_at, term_at};
ghost use Rattle.mem_terms.specs.Values.{IsNaming, Reading};
ghost use Rattle.mem_terms.specs.Memory.{AreSymBlocks, AreSymBytes, IsSymBlock, block_at, memory_at, places_at};
ghost use Rattle.access_terms.specs.Spans.{AreSpanBytes, IsSpan, Reads, admits_span, block_of_span, bytes_of_span, span_name};

use crate::named::{is_named, is_never};
use crate::places::{bytes_at, is_admitted};
use bv_terms::{TermId, Terms};
use byte_terms::{pick_bytes, poison_bytes};
use mem_terms::{SymBlock, SymByte, pick, truth};
use std::alloc::Global;
use support::{NoMemory, Sequence};

/// An access at an offset in the block with a number. Count and alignment are in bytes.
#[derive(Clone, Copy, Debug, PartialEq, Eq)]
pub struct Span {
    pub block: TermId,
    pub offset: TermId,
    pub count: usize,
    pub align: u64,
}

/// Whether a block admits the access if it is named, and what is known of later blocks if not.
fn admits_with(
    terms: &mut Terms,
    b: &SymBlock,
    span: Span,
    later: TermId,
) -> Result<TermId, NoMemory>
    requires block { IsSymBlock terms.old b.now }
    requires span { IsSpan terms.old span }
    requires later { IsTerm terms.old 1 later }
    ensures made { IfOk result (IsTerm terms.new 1) }
    ensures stands { IfOk result (λ id. (r : Reading) → IsNaming r.name → bit_at r.v terms.new id ≡ cond (bit_at r.v terms.old b.now.exists && names (span_name r terms.old span) (block_at r terms.old b.now))
        (admits_span r terms.old span (Some (block_at r terms.old b.now))) (bit_at r.v terms.old later)) }
    ensures kept { Keeps terms.old terms.new }
{
    let named = is_named(terms, span.block, b)?;
    if is_never(terms, named) {
        return Ok(later);
    }
    let here = is_admitted(terms, b, span.offset, span.count, span.align)?;
    pick(terms, named, here, later)
}

/// Whether the first block that the access names admits it.
pub fn admits(terms: &mut Terms, memory: &[SymBlock], span: Span) -> Result<TermId, NoMemory>
    requires memory { AreSymBlocks terms.old memory.now }
    requires span { IsSpan terms.old span }
    ensures made { IfOk result (IsTerm terms.new 1) }
    ensures stands { IfOk result (λ id. (r : Reading) → IsNaming r.name → bit_at r.v terms.new id ≡ admits_span r terms.old span (block_of_span r terms.old span (memory_at r terms.old memory.now))) }
    ensures kept { Keeps terms.old terms.new }
{
    let mut is_admitted = truth(terms, false)?;
    let mut i = memory.len();
    while 0 < i {
        i -= 1;
        is_admitted = admits_with(terms, &memory[i], span, is_admitted)?;
    }
    Ok(is_admitted)
}

/// The bytes of a block if it is named, and those of later blocks if not.
fn bytes_with(
    alloc: Global,
    terms: &mut Terms,
    b: &SymBlock,
    span: Span,
    later: Option<Sequence<SymByte>>,
) -> Result<Option<Sequence<SymByte>>, NoMemory>
    requires block { IsSymBlock terms.old b.now }
    requires span { IsSpan terms.old span }
    requires later { AreSpanBytes terms.old span later }
    ensures made { IfOk result (AreSpanBytes terms.new span) }
    ensures stands { IfOk result (λ found. (r : Reading) → IsNaming r.name → (memory : List MemoryBlock)
        → Reads r terms.old (span_name r terms.old span) (term_at r.v terms.old span.offset) span.count span.align memory later
        → Reads r terms.new (span_name r terms.old span) (term_at r.v terms.old span.offset) span.count span.align (cond (bit_at r.v terms.old b.now.exists) (block_at r terms.old b.now ∷ memory) memory) found) }
    ensures kept { Keeps terms.old terms.new }
{
    let named = is_named(terms, span.block, b)?;
    if is_never(terms, named) {
        return Ok(later);
    }
    let here = bytes_at(alloc, terms, b, span.offset, span.count, span.align)?;
    match later {
        None => Ok(Some(here)),
        Some(later) => {
            let bytes = pick_bytes(alloc, terms, named, here.as_slice(), later.as_slice())?;
            Ok(Some(bytes))
        }
    }
}

/// The bytes of the access in the first block that it names, where the block admits it.
pub fn bytes_of(
    alloc: Global,
    terms: &mut Terms,
    memory: &[SymBlock],
    span: Span,
) -> Result<Sequence<SymByte>, NoMemory>
    requires memory { AreSymBlocks terms.old memory.now }
    requires span { IsSpan terms.old span }
    ensures made { IfOk result (AreSymBytes terms.new) }
    ensures count { IfOk result (λ bytes. length bytes ≡ span.count) }
    ensures stands { IfOk result (λ bytes. (r : Reading) → IsNaming r.name → admits_span r terms.old span (block_of_span r terms.old span (memory_at r terms.old memory.now)) ≡ true
        → places_at r terms.new bytes ≡ bytes_of_span r terms.old span (memory_at r terms.old memory.now)) }
    ensures kept { Keeps terms.old terms.new }
{
    let mut found = None;
    let mut i = memory.len();
    while 0 < i {
        i -= 1;
        found = bytes_with(alloc, terms, &memory[i], span, found)?;
    }
    match found {
        Some(bytes) => Ok(bytes),
        None => poison_bytes(alloc, terms, span.count),
    }
}

//! The memory that a store leaves.

ghost use Rattle.std.specs.Prelude.{◌≡◌, ◌&&◌, IfOk, OnOk, false, length, map, not, true, Some};
ghost use Rattle.memory_access.specs.Accesses.{admits, first_changed, overwritten};
ghost use Rattle.memory_access.specs.Blocks.{names};
ghost use Rattle.bv_terms.specs.Trees.{IsTerm, Keeps, bit_at, term_at};
ghost use Rattle.mem_terms.specs.Values.{IsNaming, Reading};
ghost use Rattle.mem_terms.specs.Memory.{AreSymBlocks, AreSymBytes, IsSymBlock, block_at, memory_at, places_at};
ghost use Rattle.access_terms.specs.Accesses.{sym_frame};
ghost use Rattle.access_terms.specs.Spans.{IsSpan, admits_span, block_of_span, is_named_by, span_name};

use crate::named::{is_named, is_never};
use crate::places::overwrite;
use crate::spans::Span;
use bv_terms::{TermId, Terms};
use mem_terms::{SymBlock, SymByte, both, negation, truth};
use support::{NoMemory, Sequence};

/// Puts the bytes into the block where the access names it and the condition is true, and answers
/// where the condition is true and the access does not name it.
fn write_block(
    terms: &mut Terms,
    b: &mut SymBlock,
    c: TermId,
    span: Span,
    bytes: &[SymByte],
) -> Result<TermId, NoMemory>
    requires block { IsSymBlock terms.old b.old }
    requires c { IsTerm terms.old 1 c }
    requires span { IsSpan terms.old span }
    requires bytes { AreSymBytes terms.old bytes.now }
    ensures made { IfOk result (IsTerm terms.new 1) }
    ensures block { OnOk result (IsSymBlock terms.new b.new) }
    ensures frame { OnOk result (sym_frame b.new ≡ sym_frame b.old) }
    ensures goes { IfOk result (λ id. (r : Reading) → IsNaming r.name → bit_at r.v terms.new id ≡ (bit_at r.v terms.old c && not (is_named_by r terms.old span b.old))) }
    ensures stays { OnOk result ((r : Reading) → IsNaming r.name → (bit_at r.v terms.old c && is_named_by r terms.old span b.old) ≡ false → block_at r terms.new b.new ≡ block_at r terms.old b.old) }
    ensures stands { OnOk result ((r : Reading) → IsNaming r.name → (bit_at r.v terms.old c && is_named_by r terms.old span b.old) ≡ true
        → admits (Some (block_at r terms.old b.old)) (term_at r.v terms.old span.offset) (length bytes.now) span.align ≡ true
        → block_at r terms.new b.new ≡ overwritten (places_at r terms.old bytes.now) (term_at r.v terms.old span.offset) (block_at r terms.old b.old)) }
    ensures kept { Keeps terms.old terms.new }
{
    let named = is_named(terms, span.block, b)?;
    if is_never(terms, named) {
        return Ok(c);
    }
    let here = both(terms, c, named)?;
    overwrite(terms, b, here, span.offset, bytes, span.align)?;
    let other = negation(terms, named)?;
    both(terms, c, other)
}

/// Puts the bytes into the first block that the access names, which admits them.
pub fn write(
    terms: &mut Terms,
    memory: &mut Sequence<SymBlock>,
    span: Span,
    bytes: &[SymByte],
) -> Result<(), NoMemory>
    requires memory { AreSymBlocks terms.old memory.old }
    requires span { IsSpan terms.old span }
    requires bytes { AreSymBytes terms.old bytes.now }
    requires count { length bytes.now ≡ span.count }
    ensures made { OnOk result (AreSymBlocks terms.new memory.new) }
    ensures frames { OnOk result (map sym_frame memory.new ≡ map sym_frame memory.old) }
    ensures stands { OnOk result ((r : Reading) → IsNaming r.name → admits_span r terms.old span (block_of_span r terms.old span (memory_at r terms.old memory.old)) ≡ true
        → memory_at r terms.new memory.new ≡ first_changed (names (span_name r terms.old span)) (overwritten (places_at r terms.old bytes.now) (term_at r.v terms.old span.offset)) (memory_at r terms.old memory.old)) }
    ensures kept { Keeps terms.old terms.new }
{
    let mut is_first = truth(terms, true)?;
    for i in 0..memory.len() {
        is_first = write_block(terms, memory.get_mut(i), is_first, span, bytes)?;
    }
    Ok(())
}

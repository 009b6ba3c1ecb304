//! Where a getelementptr leads.

ghost use Rattle.std.specs.Prelude.{◌≡◌, ◌≤◌, ◌%◌, ◌^◌, ◌&&◌, ◌||◌, ℕ, pos, IfOk, false, nat_lt, not};
ghost use Rattle.std.specs.List.{list_all, list_any};
ghost use Rattle.tv_num.specs.Width.{wrapped};
ghost use Rattle.memory_access.specs.Offsets.{breaks_inbounds, gep_result, is_index, is_negative, last_sum, leaves_block};
ghost use Rattle.bv_terms.specs.Trees.{IsTerm, Keeps, Makes, Tests, bit_at, term_at};
ghost use Rattle.mem_terms.specs.Values.{IsNaming, IsSymValue, Reading, value_at};
ghost use Rattle.mem_terms.specs.Memory.{AreSymBlocks, memory_at};
ghost use Rattle.access_terms.specs.Offsets.{AreNumbers, AreSymIndices, IsSymIndex, index_at, indices_at, passes, walked_sum};

use crate::sizes::size_named;
use bv_terms::{TermId, Terms};
use mem_terms::{SymBlock, SymValue, both, either, equals, less, negation, resize, truth};
use support::NoMemory;
use term_rules::{add, constant, mul, sext, zext};
use tv_num::Width;

/// How many bits hold the exact sum of an offset and an index times its scale, with its sign: an
/// offset has 64 bits, an index 64 and a scale 32.
const EXACT: u32 = 98;

/// An index: poison where the first is true, else a number of the width in two's complement; and
/// how many bytes it counts for, below 2^32.
#[derive(Clone, Copy, Debug, PartialEq, Eq)]
pub struct SymIndex {
    pub poison: TermId,
    pub number: TermId,
    pub width: Width,
    pub scale: u64,
}

/// A test of an index that is a number.
#[derive(Clone, Copy, Debug, PartialEq, Eq)]
pub enum IndexTest {
    IsNonzero,
    IsNegative,
}

/// Where indices lead, modulo 2^64, and whether the base offset or a partial sum is outside the
/// block.
#[derive(Clone, Copy, Debug, PartialEq, Eq)]
pub struct Walk {
    pub offset: TermId,
    pub leaves: TermId,
}

// ---- one index

/// The sum of the offset and the scaled index, in this width.
fn sum_with(
    terms: &mut Terms,
    offset: TermId,
    index: &SymIndex,
    width: u32,
) -> Result<TermId, NoMemory>
    requires offset { IsTerm terms.old 64 offset }
    requires index { IsSymIndex terms.old index.now }
    requires least { 64 ≤ width }
    requires most { width ≤ 128 }
    ensures made { IfOk result (λ id. Makes terms.new id width (λ v. walked_sum width index.now.width.bits (term_at v terms.old offset) (term_at v terms.old index.now.number) index.now.scale)) }
    ensures kept { Keeps terms.old terms.new }
{
    let number = sext(terms, index.number, width)?;
    let scale = constant(terms, index.scale as u128, width)?;
    let product = mul(terms, number, scale)?;
    let wide = zext(terms, offset, width)?;
    add(terms, wide, product)
}

/// Whether the index, which is a number, passes the test.
fn test_index(terms: &mut Terms, index: &SymIndex, test: IndexTest) -> Result<TermId, NoMemory>
    requires { IsSymIndex terms.old index.now }
    ensures made { IfOk result (IsTerm terms.new 1) }
    ensures stands { IfOk result (λ id. (v : ℕ → ℕ → ℕ) → bit_at v terms.old index.now.poison ≡ false → bit_at v terms.new id ≡ passes test (index_at v terms.old index.now)) }
    ensures kept { Keeps terms.old terms.new }
{
    terms.values_fit();
    match test {
        IndexTest::IsNonzero => {
            let zero = constant(terms, 0, index.width.bits())?;
            let is_zero = equals(terms, index.number, zero)?;
            negation(terms, is_zero)
        }
        IndexTest::IsNegative => {
            let most = constant(terms, (index.width.half() - 1) as u128, index.width.bits())?;
            less(terms, most, index.number)
        }
    }
}

/// The walk with one more index; where it has left the block, it stays outside.
fn walk_on(terms: &mut Terms, size: TermId, walk: Walk, index: &SymIndex) -> Result<Walk, NoMemory>
    requires size { IsTerm terms.old 64 size }
    requires offset { IsTerm terms.old 64 walk.offset }
    requires leaves { IsTerm terms.old 1 walk.leaves }
    requires index { IsSymIndex terms.old index.now }
    ensures offset_made { IfOk result (λ next. Makes terms.new next.offset 64 (λ v. walked_sum 98 index.now.width.bits (term_at v terms.old walk.offset) (term_at v terms.old index.now.number) index.now.scale % 2 ^ 64)) }
    ensures leaves_made { IfOk result (λ next. Tests terms.new next.leaves (λ v. bit_at v terms.old walk.leaves || nat_lt (term_at v terms.old size) (walked_sum 98 index.now.width.bits (term_at v terms.old walk.offset) (term_at v terms.old index.now.number) index.now.scale))) }
    ensures kept { Keeps terms.old terms.new }
{
    let sum = sum_with(terms, walk.offset, index, EXACT)?;
    let wide = zext(terms, size, EXACT)?;
    let is_outside = less(terms, wide, sum)?;
    let leaves = either(terms, walk.leaves, is_outside)?;
    let offset = resize(terms, sum, 64)?;
    Ok(Walk { offset, leaves })
}

// ---- all indices

/// Whether some index is poison.
fn has_poison(terms: &mut Terms, indices: &[SymIndex]) -> Result<TermId, NoMemory>
    requires { AreSymIndices terms.old indices.now }
    ensures made { IfOk result (λ id. Tests terms.new id (λ v. not (list_all is_index (indices_at v terms.old indices.now)))) }
    ensures kept { Keeps terms.old terms.new }
{
    let mut any = truth(terms, false)?;
    for index in indices {
        any = either(terms, any, index.poison)?;
    }
    Ok(any)
}

/// Whether some index passes the test, where none is poison.
fn any_passes(terms: &mut Terms, indices: &[SymIndex], test: IndexTest) -> Result<TermId, NoMemory>
    requires { AreSymIndices terms.old indices.now }
    ensures made { IfOk result (IsTerm terms.new 1) }
    ensures stands { IfOk result (λ id. (v : ℕ → ℕ → ℕ) → AreNumbers v terms.old indices.now → bit_at v terms.new id ≡ list_any (passes test) (indices_at v terms.old indices.now)) }
    ensures kept { Keeps terms.old terms.new }
{
    let mut any = truth(terms, false)?;
    for index in indices {
        let one = test_index(terms, index, test)?;
        any = either(terms, any, one)?;
    }
    Ok(any)
}

/// Where the indices lead modulo 2^64, where none is poison.
fn offset_after(terms: &mut Terms, offset: TermId, indices: &[SymIndex]) -> Result<TermId, NoMemory>
    requires offset { IsTerm terms.old 64 offset }
    requires indices { AreSymIndices terms.old indices.now }
    ensures made { IfOk result (IsTerm terms.new 64) }
    ensures stands { IfOk result (λ id. (v : ℕ → ℕ → ℕ) → AreNumbers v terms.old indices.now
        → term_at v terms.new id ≡ wrapped 64 (last_sum (pos (term_at v terms.old offset)) (indices_at v terms.old indices.now))) }
    ensures kept { Keeps terms.old terms.new }
{
    terms.values_fit();
    let mut sum = offset;
    for index in indices {
        sum = sum_with(terms, sum, index, 64)?;
    }
    terms.values_fit();
    Ok(sum)
}

/// Where the indices lead from an offset in a block of this size, where none is poison.
fn walk_indices(
    terms: &mut Terms,
    size: TermId,
    offset: TermId,
    indices: &[SymIndex],
) -> Result<Walk, NoMemory>
    requires size { IsTerm terms.old 64 size }
    requires offset { IsTerm terms.old 64 offset }
    requires indices { AreSymIndices terms.old indices.now }
    ensures offset_made { IfOk result (λ walk. IsTerm terms.new 64 walk.offset) }
    ensures leaves_made { IfOk result (λ walk. IsTerm terms.new 1 walk.leaves) }
    ensures offset_stands { IfOk result (λ walk. (v : ℕ → ℕ → ℕ) → AreNumbers v terms.old indices.now
        → term_at v terms.new walk.offset ≡ wrapped 64 (last_sum (pos (term_at v terms.old offset)) (indices_at v terms.old indices.now))) }
    ensures leaves_stands { IfOk result (λ walk. (v : ℕ → ℕ → ℕ) → AreNumbers v terms.old indices.now
        → bit_at v terms.new walk.leaves ≡ leaves_block (term_at v terms.old size) (term_at v terms.old offset) (indices_at v terms.old indices.now)) }
    ensures kept { Keeps terms.old terms.new }
{
    terms.values_fit();
    let leaves = less(terms, size, offset)?;
    let mut walk = Walk { offset, leaves };
    for index in indices {
        walk = walk_on(terms, size, walk, index)?;
    }
    Ok(walk)
}

// ---- the result

/// Where the indices lead, where none is poison, and whether that breaks the promise of `inbounds`.
fn walk_from(
    terms: &mut Terms,
    memory: &[SymBlock],
    base: SymValue,
    indices: &[SymIndex],
    inbounds: bool,
) -> Result<Walk, NoMemory>
    requires memory { AreSymBlocks terms.old memory.now }
    requires base { IsSymValue terms.old base }
    requires indices { AreSymIndices terms.old indices.now }
    ensures offset_made { IfOk result (λ walk. IsTerm terms.new 64 walk.offset) }
    ensures leaves_made { IfOk result (λ walk. IsTerm terms.new 1 walk.leaves) }
    ensures offset_stands { IfOk result (λ walk. (v : ℕ → ℕ → ℕ) → AreNumbers v terms.old indices.now
        → term_at v terms.new walk.offset ≡ wrapped 64 (last_sum (pos (term_at v terms.old base.number)) (indices_at v terms.old indices.now))) }
    ensures leaves_stands { IfOk result (λ walk. (r : Reading) → IsNaming r.name → AreNumbers r.v terms.old indices.now
        → bit_at r.v terms.new walk.leaves ≡ (inbounds && breaks_inbounds (memory_at r terms.old memory.now) (record { block = r.name (term_at r.v terms.old base.block); offset = term_at r.v terms.old base.number }) (indices_at r.v terms.old indices.now))) }
    ensures kept { Keeps terms.old terms.new }
{
    if !inbounds {
        let offset = offset_after(terms, base.number, indices)?;
        let leaves = truth(terms, false)?;
        return Ok(Walk { offset, leaves });
    }
    let size = size_named(terms, memory, base.block)?;
    let walk = walk_indices(terms, size, base.number, indices)?;
    let is_moved = any_passes(terms, indices, IndexTest::IsNonzero)?;
    let leaves = both(terms, is_moved, walk.leaves)?;
    Ok(Walk {
        offset: walk.offset,
        leaves,
    })
}

/// Whether an index is negative though `nuw` is set, where none is poison.
fn breaks_nuw(terms: &mut Terms, indices: &[SymIndex], nuw: bool) -> Result<TermId, NoMemory>
    requires { AreSymIndices terms.old indices.now }
    ensures made { IfOk result (IsTerm terms.new 1) }
    ensures stands { IfOk result (λ id. (v : ℕ → ℕ → ℕ) → AreNumbers v terms.old indices.now → bit_at v terms.new id ≡ (nuw && list_any is_negative (indices_at v terms.old indices.now))) }
    ensures kept { Keeps terms.old terms.new }
{
    if nuw {
        any_passes(terms, indices, IndexTest::IsNegative)
    } else {
        truth(terms, false)
    }
}

/// Whether some index is poison, or the walk or an index breaks a promise.
fn has_no_offset(
    terms: &mut Terms,
    indices: &[SymIndex],
    leaves: TermId,
    nuw: bool,
) -> Result<TermId, NoMemory>
    requires indices { AreSymIndices terms.old indices.now }
    requires leaves { IsTerm terms.old 1 leaves }
    ensures made { IfOk result (IsTerm terms.new 1) }
    ensures stands { IfOk result (λ id. (v : ℕ → ℕ → ℕ) → bit_at v terms.new id
        ≡ (not (list_all is_index (indices_at v terms.old indices.now)) || (bit_at v terms.old leaves || (nuw && list_any is_negative (indices_at v terms.old indices.now))))) }
    ensures kept { Keeps terms.old terms.new }
{
    let is_broken = breaks_nuw(terms, indices, nuw)?;
    let breaks = either(terms, leaves, is_broken)?;
    let no_index = has_poison(terms, indices)?;
    either(terms, no_index, breaks)
}

/// Whether the base is not a pointer.
fn has_no_base(terms: &mut Terms, base: SymValue) -> Result<TermId, NoMemory>
    requires { IsSymValue terms.old base }
    ensures made { IfOk result (λ id. Tests terms.new id (λ v. bit_at v terms.old base.poison || not (bit_at v terms.old base.is_pointer))) }
    ensures kept { Keeps terms.old terms.new }
{
    let is_number = negation(terms, base.is_pointer)?;
    either(terms, base.poison, is_number)
}

/// Where a getelementptr from a pointer leads, or poison (LLVM Language Reference, "getelementptr
/// Instruction").
pub fn gep(
    terms: &mut Terms,
    memory: &[SymBlock],
    base: SymValue,
    indices: &[SymIndex],
    inbounds: bool,
    nuw: bool,
) -> Result<SymValue, NoMemory>
    requires memory { AreSymBlocks terms.old memory.now }
    requires base { IsSymValue terms.old base }
    requires indices { AreSymIndices terms.old indices.now }
    ensures made { IfOk result (IsSymValue terms.new) }
    ensures stands { IfOk result (λ s. (r : Reading) → IsNaming r.name
        → value_at r terms.new s ≡ gep_result (memory_at r terms.old memory.now) (value_at r terms.old base) (indices_at r.v terms.old indices.now) inbounds nuw) }
    ensures kept { Keeps terms.old terms.new }
{
    let walk = walk_from(terms, memory, base, indices, inbounds)?;
    let no_offset = has_no_offset(terms, indices, walk.leaves, nuw)?;
    let no_base = has_no_base(terms, base)?;
    let poison = either(terms, no_base, no_offset)?;
    let is_pointer = truth(terms, true)?;
    Ok(SymValue {
        poison,
        is_pointer,
        block: base.block,
        number: walk.offset,
    })
}

//! One of two memories.

ghost use Rattle.std.specs.Prelude.{◌≡◌, ◌<◌, ◌≤◌, ◌+◌, ◌&&◌, ◌++◌, ◌∷◌, [], ℕ, IfOk, OnOk, cond, false, length, true};
ghost use Rattle.bv_terms.specs.Trees.{IsTerm, Keeps, bit_at};
ghost use Rattle.mem_terms.specs.Values.{Each, Reading};
ghost use Rattle.mem_terms.specs.Memory.{AreSymBlocks, IsSymBlock, block_at, memory_at};
ghost use Rattle.access_terms.specs.Joining.{AreAbove, AreAlike, IsGrown, IsJoined, IsNext, IsUpTo, part_at};

use bv_terms::{TermId, Terms};
use byte_terms::pick_bytes;
use mem_terms::{SymBlock, both, negation, pick};
use std::alloc::Global;
use support::{NoMemory, Sequence};

/// How many blocks of each memory are joined.
#[derive(Clone, Copy, Debug, PartialEq, Eq)]
pub struct Joined {
    pub first: usize,
    pub second: usize,
}

/// Which memory the next block is taken from.
#[derive(Clone, Copy, Debug, PartialEq, Eq)]
pub enum Next {
    First,
    Second,
    /// One block that both have.
    Both,
}

/// Whether two blocks have the same number.
fn are_alike(a: &SymBlock, b: &SymBlock) -> bool
    ensures { result ≡ true → AreAlike a.now b.now }
{
    let is_one = a.number == b.number && a.align == b.align;
    is_one && a.places.len() == b.places.len()
}

/// Adds the block, which exists where the condition is true and the block exists.
fn push_where(
    alloc: Global,
    terms: &mut Terms,
    c: TermId,
    b: &SymBlock,
    picked: &mut Sequence<SymBlock>,
) -> Result<(), NoMemory>
    requires c { IsTerm terms.old 1 c }
    requires block { IsSymBlock terms.old b.now }
    requires picked { AreSymBlocks terms.old picked.old }
    ensures made { OnOk result (AreSymBlocks terms.new picked.new) }
    ensures grown { OnOk result (IsGrown picked.old picked.new b.now.number) }
    ensures stands { OnOk result ((r : Reading) → memory_at r terms.new picked.new ≡ memory_at r terms.old picked.old ++ cond (bit_at r.v terms.old c && bit_at r.v terms.old b.now.exists) (block_at r terms.old b.now ∷ []) []) }
    ensures kept { Keeps terms.old terms.new }
{
    let exists = both(terms, c, b.exists)?;
    let places = b.places.as_slice().to_vec(alloc)?;
    picked.push(SymBlock {
        number: b.number,
        exists,
        size: b.size,
        align: b.align,
        places: Sequence::from_vec(places),
    })
}

/// Adds one block for two that are alike: the first where the condition is true, else the second.
fn push_either(
    alloc: Global,
    terms: &mut Terms,
    c: TermId,
    a: &SymBlock,
    b: &SymBlock,
    picked: &mut Sequence<SymBlock>,
) -> Result<(), NoMemory>
    requires c { IsTerm terms.old 1 c }
    requires a { IsSymBlock terms.old a.now }
    requires b { IsSymBlock terms.old b.now }
    requires alike { AreAlike a.now b.now }
    requires picked { AreSymBlocks terms.old picked.old }
    ensures made { OnOk result (AreSymBlocks terms.new picked.new) }
    ensures grown { OnOk result (IsGrown picked.old picked.new a.now.number) }
    ensures stands { OnOk result ((r : Reading) → memory_at r terms.new picked.new ≡ memory_at r terms.old picked.old ++ cond (bit_at r.v terms.old c) (part_at r terms.old a.now) (part_at r terms.old b.now)) }
    ensures kept { Keeps terms.old terms.new }
{
    let exists = pick(terms, c, a.exists, b.exists)?;
    let size = pick(terms, c, a.size, b.size)?;
    let places = pick_bytes(alloc, terms, c, a.places.as_slice(), b.places.as_slice())?;
    picked.push(SymBlock {
        number: a.number,
        exists,
        size,
        align: a.align,
        places,
    })
}

/// Whether a block is left.
fn has_more(a: &[SymBlock], b: &[SymBlock], joined: Joined) -> bool
    requires { IsUpTo a.now b.now joined }
    ensures more { result ≡ true → joined.first + joined.second < length a.now + length b.now }
    ensures done { result ≡ false → (length a.now ≤ joined.first) × (length b.now ≤ joined.second) }
{
    if joined.first < a.len() {
        return true;
    }
    joined.second < b.len()
}

/// Where the next block is, the one with the smaller number first.
fn next_of(a: &[SymBlock], b: &[SymBlock], joined: Joined) -> Next
    requires within { IsUpTo a.now b.now joined }
    requires more { joined.first + joined.second < length a.now + length b.now }
    ensures { IsNext a.now b.now joined result }
{
    if a.len() <= joined.first {
        return Next::Second;
    }
    if b.len() <= joined.second {
        return Next::First;
    }
    let x = &a[joined.first];
    let y = &b[joined.second];
    if are_alike(x, y) {
        Next::Both
    } else if y.number < x.number {
        Next::Second
    } else {
        Next::First
    }
}

/// Joins one more block of either memory or of both.
fn join_next(
    alloc: Global,
    terms: &mut Terms,
    c: TermId,
    a: &[SymBlock],
    b: &[SymBlock],
    joined: Joined,
    picked: &mut Sequence<SymBlock>,
) -> Result<Joined, NoMemory>
    requires c { IsTerm terms.old 1 c }
    requires a { AreSymBlocks terms.old a.now }
    requires b { AreSymBlocks terms.old b.now }
    requires within { IsUpTo a.now b.now joined }
    requires more { joined.first + joined.second < length a.now + length b.now }
    requires picked { AreSymBlocks terms.old picked.old }
    ensures made { OnOk result (AreSymBlocks terms.new picked.new) }
    ensures numbers { OnOk result ((most : ℕ) → AreAbove most a.now → AreAbove most b.now → AreAbove most picked.old → AreAbove most picked.new) }
    ensures within { IfOk result (IsUpTo a.now b.now) }
    ensures more { IfOk result (λ next. joined.first + joined.second < next.first + next.second) }
    ensures stands { IfOk result (λ next. (r : Reading) → IsJoined r terms.old terms.old c a.now b.now joined picked.old → IsJoined r terms.old terms.new c a.now b.now next picked.new) }
    ensures kept { Keeps terms.old terms.new }
{
    let Joined { first, second } = joined;
    match next_of(a, b, joined) {
        Next::First => {
            push_where(alloc, terms, c, &a[first], picked)?;
            Ok(Joined {
                first: first + 1,
                second,
            })
        }
        Next::Second => {
            let not_c = negation(terms, c)?;
            push_where(alloc, terms, not_c, &b[second], picked)?;
            Ok(Joined {
                first,
                second: second + 1,
            })
        }
        Next::Both => {
            push_either(alloc, terms, c, &a[first], &b[second], picked)?;
            Ok(Joined {
                first: first + 1,
                second: second + 1,
            })
        }
    }
}

/// The first memory where the condition is true, else the second. Two blocks with the same number
/// are one in the result.
pub fn pick_memory(
    alloc: Global,
    terms: &mut Terms,
    c: TermId,
    a: &[SymBlock],
    b: &[SymBlock],
) -> Result<Sequence<SymBlock>, NoMemory>
    requires c { IsTerm terms.old 1 c }
    requires a { AreSymBlocks terms.old a.now }
    requires b { AreSymBlocks terms.old b.now }
    ensures made { IfOk result (AreSymBlocks terms.new) }
    ensures numbers { IfOk result (λ m. (most : ℕ) → Each (λ (b : SymBlock). most < b.number) a.now → Each (λ (b : SymBlock). most < b.number) b.now → Each (λ (b : SymBlock). most < b.number) m) }
    ensures stands { IfOk result (λ m. (r : Reading) → memory_at r terms.new m ≡ cond (bit_at r.v terms.old c) (memory_at r terms.old a.now) (memory_at r terms.old b.now)) }
    ensures kept { Keeps terms.old terms.new }
{
    let mut picked = Sequence::from_vec(Vec::new(alloc));
    let mut joined = Joined {
        first: 0,
        second: 0,
    };
    while has_more(a, b, joined) {
        joined = join_next(alloc, terms, c, a, b, joined, &mut picked)?;
    }
    Ok(picked)
}

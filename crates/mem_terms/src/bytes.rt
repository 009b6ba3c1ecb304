//! Bytes of memory.

ghost use Rattle.std.specs.Prelude.{◌≡◌, ◌<◌, ℕ, IfOk, IsFalse, IsTrue, cond, false, length, true};
ghost use Rattle.byte_block.specs.declared.value.Byte.TheVariants.{Bits};
ghost use Rattle.bv_terms.specs.Tree.{width_of};
ghost use Rattle.bv_terms.specs.Trees.{IsTerm, Keeps, bit_at, term_at, tree_in};
ghost use Rattle.mem_terms.specs.Values.{Reading};
ghost use Rattle.mem_terms.specs.Memory.{IsSymByte, byte_at};

use crate::numbers::{number, pick};
use crate::truths::truth;
use bv_terms::{Term, TermId, Terms};
use support::NoMemory;
use term_rules::{constant, may_be};

/// A byte: a part of a pointer, or bits. The fields of the other have no meaning, and what the
/// number has in a bit of the mask has none.
#[derive(Clone, Copy, Debug, PartialEq, Eq)]
pub struct SymByte {
    /// True for a part of a pointer, in 1 bit.
    pub is_part: TermId,
    /// The bits that are poison, in 8 bits.
    pub mask: TermId,
    /// In 8 bits.
    pub number: TermId,
    /// The pointer's block by its number, in 64 bits.
    pub block: TermId,
    /// The pointer's offset, in 64 bits.
    pub offset: TermId,
    /// Which of the pointer's parts 0 to 7, in 3 bits.
    pub part: TermId,
}

/// A byte whose bits are all poison, always.
pub fn poison_byte(terms: &mut Terms) -> Result<SymByte, NoMemory>
    ensures made { IfOk result (IsSymByte terms.new) }
    ensures stands { IfOk result (λ b. (r : Reading) → byte_at r terms.new b ≡ Bits 0 255) }
    ensures kept { Keeps terms.old terms.new }
{
    let zero = number(terms, 0)?;
    let number = constant(terms, 0, 8)?;
    let part = constant(terms, 0, 3)?;
    let mask = constant(terms, 255, 8)?;
    let is_part = truth(terms, false)?;
    Ok(SymByte {
        is_part,
        mask,
        number,
        block: zero,
        offset: zero,
        part,
    })
}

/// True where a byte may be bits.
fn may_be_bits(terms: &Terms, b: SymByte) -> bool
    requires { IsSymByte terms.now b }
    ensures { IsFalse result → (v : ℕ → ℕ → ℕ) → bit_at v terms.now b.is_part ≡ true }
{
    may_be(terms, b.is_part, 0)
}

/// True where a byte may be a part of a pointer.
fn may_be_part(terms: &Terms, b: SymByte) -> bool
    requires { IsSymByte terms.now b }
    ensures { IsFalse result → (v : ℕ → ℕ → ℕ) → bit_at v terms.now b.is_part ≡ false }
{
    terms.values_fit();
    may_be(terms, b.is_part, 1)
}

/// Whether a mask is the constant 255.
fn is_all_poison(terms: &Terms, mask: TermId) -> bool
    requires { mask.index < length terms.now }
    ensures { IsTrue result → (v : ℕ → ℕ → ℕ) → term_at v terms.now mask ≡ 255 }
{
    let term = terms.as_slice()[mask.index];
    match term {
        Term::Constant { value, .. } => value == 255,
        _ => false,
    }
}

/// True where a byte may be bits that are not all poison: then its number has a meaning.
fn may_have_number(terms: &Terms, b: SymByte) -> bool
    requires { IsSymByte terms.now b }
    ensures { IsFalse result → (v : ℕ → ℕ → ℕ) → bit_at v terms.now b.is_part ≡ false → term_at v terms.now b.mask ≡ 255 }
{
    !is_all_poison(terms, b.mask) && may_be_bits(terms, b)
}

/// Which of a field of two bytes may have a meaning.
#[derive(Clone, Copy)]
struct Needed {
    first: bool,
    second: bool,
}

/// The first of two fields where the condition is true, else the second. Where one has no meaning it
/// is the other, without a choice: so a byte that is written over where a condition holds keeps what it
/// had in the fields that have no meaning in the new one.
fn pick_field(
    terms: &mut Terms,
    c: TermId,
    needed: Needed,
    a: TermId,
    b: TermId,
) -> Result<TermId, NoMemory>
    requires c { IsTerm terms.old 1 c }
    requires a { a.index < length terms.old }
    requires b { b.index < length terms.old }
    requires alike { width_of (tree_in terms.old a) ≡ width_of (tree_in terms.old b) }
    ensures made { IfOk result (IsTerm terms.new (width_of (tree_in terms.old a))) }
    ensures first { IfOk result (λ id. IsTrue needed.first → (v : ℕ → ℕ → ℕ) → bit_at v terms.old c ≡ true → term_at v terms.new id ≡ term_at v terms.old a) }
    ensures second { IfOk result (λ id. IsTrue needed.second → (v : ℕ → ℕ → ℕ) → bit_at v terms.old c ≡ false → term_at v terms.new id ≡ term_at v terms.old b) }
    ensures kept { Keeps terms.old terms.new }
{
    if !needed.first {
        Ok(b)
    } else if !needed.second {
        Ok(a)
    } else {
        let id = pick(terms, c, a, b)?;
        Ok(id)
    }
}

/// The first byte where the condition is true, else the second.
pub fn pick_byte(terms: &mut Terms, c: TermId, a: SymByte, b: SymByte) -> Result<SymByte, NoMemory>
    requires c { IsTerm terms.old 1 c }
    requires a { IsSymByte terms.old a }
    requires b { IsSymByte terms.old b }
    ensures made { IfOk result (IsSymByte terms.new) }
    ensures stands { IfOk result (λ s. (r : Reading) → byte_at r terms.new s ≡ cond (bit_at r.v terms.old c) (byte_at r terms.old a) (byte_at r terms.old b)) }
    ensures kept { Keeps terms.old terms.new }
{
    let bits = Needed {
        first: may_be_bits(terms, a),
        second: may_be_bits(terms, b),
    };
    let numbers = Needed {
        first: may_have_number(terms, a),
        second: may_have_number(terms, b),
    };
    let parts = Needed {
        first: may_be_part(terms, a),
        second: may_be_part(terms, b),
    };
    let is_part = pick(terms, c, a.is_part, b.is_part)?;
    let mask = pick_field(terms, c, bits, a.mask, b.mask)?;
    let number = pick_field(terms, c, numbers, a.number, b.number)?;
    let block = pick_field(terms, c, parts, a.block, b.block)?;
    let offset = pick_field(terms, c, parts, a.offset, b.offset)?;
    let part = pick_field(terms, c, parts, a.part, b.part)?;
    Ok(SymByte {
        is_part,
        mask,
        number,
        block,
        offset,
        part,
    })
}

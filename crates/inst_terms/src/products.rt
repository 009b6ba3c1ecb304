//! Products (LLVM Language Reference, "mul Instruction").
//!
//! A flag asks whether the exact product is in range, and that takes twice the bits; without flags
//! the low bits are enough.

ghost use Rattle.std.specs.Prelude.{◌≡◌, ◌*◌, ◌%◌, ◌^◌, ◌&&◌, ◌||◌, ℕ, IfOk, pos, ◌*ℤ◌};
ghost use Rattle.bv_terms.specs.Trees.{IsTerm, Keeps, Makes, Tests, term_at};
ghost use Rattle.tv_num.specs.Width.{is_outside_signed, is_outside_unsigned, signed_of};

use crate::narrow::NarrowValue;
use crate::room::{is_outside_signed, is_outside_unsigned};
use bv_terms::{TermId, Terms};
use ir_tree::Flags;
use mem_terms::{either, resize, truth};
use support::NoMemory;
use term_rules::{mul, sext, zext};
use tv_num::Width;

/// The exact product of unsigned numbers, of twice the bits.
fn whole_product(terms: &mut Terms, a: TermId, b: TermId, width: Width) -> Result<TermId, NoMemory>
    requires a { IsTerm terms.old width.bits a }
    requires b { IsTerm terms.old width.bits b }
    ensures made { IfOk result (λ id. Makes terms.new id (2 * width.bits) (λ v. term_at v terms.old a * term_at v terms.old b)) }
    ensures kept { Keeps terms.old terms.new }
{
    terms.values_fit();
    let twice = 2 * width.bits();
    let wide_a = zext(terms, a, twice)?;
    let wide_b = zext(terms, b, twice)?;
    let id = mul(terms, wide_a, wide_b)?;
    Ok(id)
}

/// The exact product of numbers in two's complement, of twice the bits.
fn whole_signed_product(
    terms: &mut Terms,
    a: TermId,
    b: TermId,
    width: Width,
) -> Result<TermId, NoMemory>
    requires a { IsTerm terms.old width.bits a }
    requires b { IsTerm terms.old width.bits b }
    ensures made { IfOk result (IsTerm terms.new (2 * width.bits)) }
    ensures exact { IfOk result (λ id. (v : ℕ → ℕ → ℕ) → signed_of (2 * width.bits) (term_at v terms.new id)
        ≡ signed_of width.bits (term_at v terms.old a) *ℤ signed_of width.bits (term_at v terms.old b)) }
    ensures low { IfOk result (λ id. (v : ℕ → ℕ → ℕ) → term_at v terms.new id % 2 ^ width.bits ≡ (term_at v terms.old a * term_at v terms.old b) % 2 ^ width.bits) }
    ensures kept { Keeps terms.old terms.new }
{
    terms.values_fit();
    let twice = 2 * width.bits();
    let wide_a = sext(terms, a, twice)?;
    let wide_b = sext(terms, b, twice)?;
    let id = mul(terms, wide_a, wide_b)?;
    Ok(id)
}

/// The low bits of the product, taken from the product that a flag asks for.
fn low_product(
    terms: &mut Terms,
    flags: Flags,
    a: TermId,
    b: TermId,
    width: Width,
) -> Result<TermId, NoMemory>
    requires a { IsTerm terms.old width.bits a }
    requires b { IsTerm terms.old width.bits b }
    ensures made { IfOk result (λ id. Makes terms.new id width.bits (λ v. (term_at v terms.old a * term_at v terms.old b) % 2 ^ width.bits)) }
    ensures kept { Keeps terms.old terms.new }
{
    if flags.nuw {
        let whole = whole_product(terms, a, b, width)?;
        resize(terms, whole, width.bits())
    } else if flags.nsw {
        let whole = whole_signed_product(terms, a, b, width)?;
        resize(terms, whole, width.bits())
    } else {
        mul(terms, a, b)
    }
}

/// Where the flag is set, whether the unsigned product is out of range.
fn is_outside_unsigned_where(
    terms: &mut Terms,
    flag: bool,
    a: TermId,
    b: TermId,
    width: Width,
) -> Result<TermId, NoMemory>
    requires a { IsTerm terms.old width.bits a }
    requires b { IsTerm terms.old width.bits b }
    ensures made { IfOk result (λ id. Tests terms.new id (λ v. flag && is_outside_unsigned width.bits (pos (term_at v terms.old a * term_at v terms.old b)))) }
    ensures kept { Keeps terms.old terms.new }
{
    if flag {
        let whole = whole_product(terms, a, b, width)?;
        is_outside_unsigned(terms, whole, 2 * width.bits(), width.bits())
    } else {
        truth(terms, false)
    }
}

/// Where the flag is set, whether the product in two's complement is out of range.
fn is_outside_signed_where(
    terms: &mut Terms,
    flag: bool,
    a: TermId,
    b: TermId,
    width: Width,
) -> Result<TermId, NoMemory>
    requires a { IsTerm terms.old width.bits a }
    requires b { IsTerm terms.old width.bits b }
    ensures made { IfOk result (λ id. Tests terms.new id (λ v. flag && is_outside_signed width.bits (signed_of width.bits (term_at v terms.old a) *ℤ signed_of width.bits (term_at v terms.old b)))) }
    ensures kept { Keeps terms.old terms.new }
{
    if flag {
        let whole = whole_signed_product(terms, a, b, width)?;
        is_outside_signed(terms, whole, 2 * width.bits(), width.bits())
    } else {
        truth(terms, false)
    }
}

/// The product of two numbers.
pub fn product(
    terms: &mut Terms,
    flags: Flags,
    a: TermId,
    b: TermId,
    width: Width,
) -> Result<NarrowValue, NoMemory>
    requires a { IsTerm terms.old width.bits a }
    requires b { IsTerm terms.old width.bits b }
    ensures number { IfOk result (λ s. Makes terms.new s.number width.bits (λ v. (term_at v terms.old a * term_at v terms.old b) % 2 ^ width.bits)) }
    ensures poison { IfOk result (λ s. Tests terms.new s.poison (λ v.
        (flags.nuw && is_outside_unsigned width.bits (pos (term_at v terms.old a * term_at v terms.old b)))
        || (flags.nsw && is_outside_signed width.bits (signed_of width.bits (term_at v terms.old a) *ℤ signed_of width.bits (term_at v terms.old b))))) }
    ensures kept { Keeps terms.old terms.new }
{
    let number = low_product(terms, flags, a, b, width)?;
    let unsigned = is_outside_unsigned_where(terms, flags.nuw, a, b, width)?;
    let signed = is_outside_signed_where(terms, flags.nsw, a, b, width)?;
    let poison = either(terms, unsigned, signed)?;
    Ok(NarrowValue { poison, number })
}

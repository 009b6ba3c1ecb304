//! Numbers and their bytes, the least significant first.

ghost use Rattle.std.specs.Prelude.{◌≡◌, ◌<◌, ◌≤◌, ◌+◌, ◌-◌, ◌*◌, ◌/◌, ◌%◌, ◌^◌, ◌&&◌, ℕ, IfOk, Some, cond, length, min, nat_eq, nat_lt, not};
ghost use Rattle.std.specs.Option.{is_some};
ghost use Rattle.byte_block.specs.declared.value.Byte.TheVariants.{Bits};
ghost use Rattle.memory_access.specs.declared.access_types.Access.TheVariants.{Int};
ghost use Rattle.memory_access.specs.Bytes as meant;
ghost use Rattle.memory_access.specs.Bytes.{defined_bits};
ghost use Rattle.bv_terms.specs.Trees.{IsTerm, Keeps, Tests, bit_at, term_at};
ghost use Rattle.mem_terms.specs.Values.{IsSymValue, Reading, value_at};
ghost use Rattle.mem_terms.specs.Memory.{AreSymBytes, IsSymByte, byte_at, places_at};

use crate::byte_fields::{has_value, mask_where};
use bv_terms::{TermId, Terms};
use mem_terms::{
    SymByte, SymNumber, SymValue, both, either, equals, integer_value, negation, number, pick,
    truth,
};
use std::alloc::Global;
use support::{NoMemory, Sequence};
use term_rules::{concat, constant, extract, zext};
use tv_num::Width;

/// How many bytes hold a number of the width.
pub fn byte_count(width: Width) -> usize
    ensures value { result ≡ (width.bits + 7) / 8 }
    ensures least { 1 ≤ result }
    ensures most { result ≤ 8 }
{
    (width.bits() as usize).div_ceil(8)
}

/// The mask of the poison bits in the byte at an index of a number of the width.
fn poison_mask(width: Width, place: usize) -> u8
    requires { place < 8 }
    ensures { result ≡ 2 ^ min (width.bits - 8 * place) 8 - 1 }
{
    let above = (width.bits() as usize).saturating_sub(8 * place);
    if above < 8 { (1 << above) - 1 } else { u8::MAX }
}

/// The number of a byte that has these digits where the condition is false, and this mask where it
/// is true: what it has in a bit of the mask has no meaning.
fn digits_unless(
    terms: &mut Terms,
    is_poison: TermId,
    mask: u8,
    digits: TermId,
) -> Result<TermId, NoMemory>
    requires is_poison { IsTerm terms.old 1 is_poison }
    requires digits { IsTerm terms.old 8 digits }
    ensures made { IfOk result (IsTerm terms.new 8) }
    ensures stands { IfOk result (λ id. (v : ℕ → ℕ → ℕ) → defined_bits (term_at v terms.new id) (cond (bit_at v terms.old is_poison) mask 0) ≡ cond (bit_at v terms.old is_poison) 0 (term_at v terms.old digits)) }
    ensures kept { Keeps terms.old terms.new }
{
    terms.values_fit();
    if mask == u8::MAX {
        return Ok(digits);
    }
    let zero = constant(terms, 0, 8)?;
    let number = pick(terms, is_poison, zero, digits)?;
    Ok(number)
}

/// The byte of a number of the width at an index, or where the condition is true its poison bits.
fn number_byte(
    terms: &mut Terms,
    is_poison: TermId,
    value: TermId,
    width: Width,
    place: usize,
) -> Result<SymByte, NoMemory>
    requires is_poison { IsTerm terms.old 1 is_poison }
    requires value { IsTerm terms.old 64 value }
    requires place { place < 8 }
    ensures made { IfOk result (IsSymByte terms.new) }
    ensures stands { IfOk result (λ b. (r : Reading)
        → byte_at r terms.new b ≡ cond (bit_at r.v terms.old is_poison) (Bits 0 (2 ^ min (width.bits - 8 * place) 8 - 1)) (Bits (term_at r.v terms.old value / 2 ^ (8 * place) % 256) 0)) }
    ensures kept { Keeps terms.old terms.new }
{
    let part = constant(terms, 0, 3)?;
    let zero = number(terms, 0)?;
    let is_part = truth(terms, false)?;
    let poison = poison_mask(width, place);
    let mask = mask_where(terms, is_poison, poison)?;
    let digits = extract(terms, value, 8 * place as u32, 8)?;
    let number = digits_unless(terms, is_poison, poison, digits)?;
    Ok(SymByte {
        is_part,
        mask,
        number,
        block: zero,
        offset: zero,
        part,
    })
}

/// The bytes of a number of the width, or where the condition is true as many with its poison bits.
fn number_bytes(
    alloc: Global,
    terms: &mut Terms,
    is_poison: TermId,
    value: TermId,
    width: Width,
) -> Result<Sequence<SymByte>, NoMemory>
    requires is_poison { IsTerm terms.old 1 is_poison }
    requires value { IsTerm terms.old 64 value }
    ensures made { IfOk result (AreSymBytes terms.new) }
    ensures stands { IfOk result (λ bytes. (r : Reading)
        → places_at r terms.new bytes ≡ cond (bit_at r.v terms.old is_poison) (meant.poison_bytes ((width.bits + 7) / 8) width.bits) (meant.number_bytes ((width.bits + 7) / 8) (term_at r.v terms.old value))) }
    ensures kept { Keeps terms.old terms.new }
{
    let mut bytes = Vec::new(alloc);
    for place in 0..byte_count(width) {
        let byte = number_byte(terms, is_poison, value, width, place)?;
        bytes.push(byte)?;
    }
    Ok(Sequence::from_vec(bytes))
}

/// The bytes that a value is stored as where a number of the width is.
pub fn integer_bytes(
    alloc: Global,
    terms: &mut Terms,
    width: Width,
    value: SymValue,
) -> Result<Sequence<SymByte>, NoMemory>
    requires { IsSymValue terms.old value }
    ensures made { IfOk result (AreSymBytes terms.new) }
    ensures stands { IfOk result (λ bytes. (r : Reading) → places_at r terms.new bytes ≡ meant.value_bytes (Int width) (value_at r terms.old value)) }
    ensures kept { Keeps terms.old terms.new }
{
    let is_poison = either(terms, value.poison, value.is_pointer)?;
    let bytes = number_bytes(alloc, terms, is_poison, value.number, width)?;
    Ok(bytes)
}

/// True where a byte is bits of which none is poison.
fn is_number(terms: &mut Terms, byte: SymByte) -> Result<TermId, NoMemory>
    requires { IsSymByte terms.old byte }
    ensures made { IfOk result (λ id. Tests terms.new id (λ v. not (bit_at v terms.old byte.is_part) && nat_eq (term_at v terms.old byte.mask) 0)) }
    ensures kept { Keeps terms.old terms.new }
{
    let is_bits = negation(terms, byte.is_part)?;
    let is_defined = has_value(terms, byte.mask, 8, 0)?;
    let is_number = both(terms, is_bits, is_defined)?;
    Ok(is_number)
}

/// True where all bytes are bits of which none is poison.
fn are_numbers(terms: &mut Terms, bytes: &[SymByte]) -> Result<TermId, NoMemory>
    requires { AreSymBytes terms.old bytes.now }
    ensures made { IfOk result (IsTerm terms.new 1) }
    ensures stands { IfOk result (λ id. (r : Reading) → bit_at r.v terms.new id ≡ is_some (meant.number_of_bytes (places_at r terms.old bytes.now))) }
    ensures kept { Keeps terms.old terms.new }
{
    let mut are_numbers = truth(terms, true)?;
    for byte in bytes {
        let is_number = is_number(terms, *byte)?;
        are_numbers = both(terms, are_numbers, is_number)?;
    }
    Ok(are_numbers)
}

/// The number of the bytes where all are numbers.
fn joined(terms: &mut Terms, bytes: &[SymByte]) -> Result<TermId, NoMemory>
    requires bytes { AreSymBytes terms.old bytes.now }
    requires least { 1 ≤ length bytes.now }
    requires most { length bytes.now ≤ 8 }
    ensures made { IfOk result (IsTerm terms.new (8 * length bytes.now)) }
    ensures stands { IfOk result (λ id. (r : Reading) (a : ℕ) → meant.number_of_bytes (places_at r terms.old bytes.now) ≡ Some a → term_at r.v terms.new id ≡ a) }
    ensures kept { Keeps terms.old terms.new }
{
    terms.values_fit();
    let mut joined = bytes[0].number;
    for i in 1..bytes.len() {
        joined = concat(terms, bytes[i].number, joined)?;
    }
    Ok(joined)
}

/// True where a number has the width.
fn has_width(terms: &mut Terms, value: TermId, width: Width) -> Result<TermId, NoMemory>
    requires { IsTerm terms.old 64 value }
    ensures made { IfOk result (λ id. Tests terms.new id (λ v. nat_lt (term_at v terms.old value) (2 ^ width.bits))) }
    ensures kept { Keeps terms.old terms.new }
{
    terms.values_fit();
    let low = width.bits();
    if low == 64 {
        let always = truth(terms, true)?;
        return Ok(always);
    }
    let above = extract(terms, value, low, 64 - low)?;
    let zero = constant(terms, 0, 64 - low)?;
    let is_small = equals(terms, above, zero)?;
    Ok(is_small)
}

/// The number of the width that the bytes are read as, or poison.
pub fn integer_of_bytes(
    terms: &mut Terms,
    width: Width,
    bytes: &[SymByte],
) -> Result<SymValue, NoMemory>
    requires bytes { AreSymBytes terms.old bytes.now }
    requires count { length bytes.now ≡ (width.bits + 7) / 8 }
    ensures made { IfOk result (IsSymValue terms.new) }
    ensures stands { IfOk result (λ s. (r : Reading) → value_at r terms.new s ≡ meant.value_of_bytes (Int width) (places_at r terms.old bytes.now)) }
    ensures kept { Keeps terms.old terms.new }
{
    let count = byte_count(width);
    prove!(count == bytes.len());
    let are_numbers = are_numbers(terms, bytes)?;
    let digits = joined(terms, bytes)?;
    let value = zext(terms, digits, 64)?;
    let is_small = has_width(terms, value, width)?;
    let is_number = both(terms, are_numbers, is_small)?;
    let poison = negation(terms, is_number)?;
    let integer = integer_value(
        terms,
        SymNumber {
            poison,
            number: value,
        },
    )?;
    Ok(integer)
}

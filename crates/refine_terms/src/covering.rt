//! Whether one outcome allows another.

ghost use Rattle.std.specs.Prelude.{◌≡◌, ◌&&◌, ℕ, IfOk, IfSome, cond, false, length, map, nat_eq, nat_lt, take};
ghost use Rattle.std.specs.Option.{option_map};
ghost use Rattle.points.specs.Refines.{block_allows, blocks_allow, byte_allows, is_refined, pairs_pass, returned_allows, value_allows};
ghost use Rattle.bv_terms.specs.Trees.{IsTerm, Keeps, Makes, Tests, bit_at, term_at};
ghost use Rattle.memory_access.specs.Bytes.{defined_bits};
ghost use Rattle.refine_terms.specs.Alike.{alike_bits, alike_content, alike_numbers, alike_parts, alike_pointers, alike_values};
ghost use Rattle.mem_terms.specs.Outcomes.{IsOutcome, outcome_at};
ghost use Rattle.mem_terms.specs.Values.{Each, IsSymValue, reading, value_at};
ghost use Rattle.mem_terms.specs.Memory.{AreSymBlocks, AreSymBytes, IsAlways, IsSymBlock, IsSymByte, block_at, byte_at, frame_of, memory_at, places_at};

use crate::comparing::is_number;
use bv_terms::{TermId, Terms};
use mem_terms::{
    OutcomeTerms, SymBlock, SymByte, SymValue, both, either, equals, implies, last_given_number,
    less, negation, number, pick, truth,
};
use support::NoMemory;
use term_rules::{and, may_be, not};

/// A pointer after a run.
#[derive(Clone, Copy, Debug, PartialEq, Eq)]
struct Address {
    block: TermId,
    offset: TermId,
}

/// True where two blocks are dead after the runs: their numbers are above the last one of a given
/// block.
fn both_dead(
    last: u64,
    source: TermId,
    target: TermId,
    terms: &mut Terms,
) -> Result<TermId, NoMemory>
    requires source { IsTerm terms.old 64 source }
    requires target { IsTerm terms.old 64 target }
    ensures made { IfOk result (λ id. Tests terms.new id (λ v. nat_lt last (term_at v terms.old source) && nat_lt last (term_at v terms.old target))) }
    ensures kept { Keeps terms.old terms.new }
{
    let known = number(terms, last)?;
    let source_dead = less(terms, known, source)?;
    let target_dead = less(terms, known, target)?;
    let id = both(terms, source_dead, target_dead)?;
    Ok(id)
}

/// True where two pointers are equal after the runs, with this number of given blocks: all those to
/// blocks of allocas are, since these are dead.
fn same_address(
    given: u64,
    source: Address,
    target: Address,
    terms: &mut Terms,
) -> Result<TermId, NoMemory>
    requires source_block { IsTerm terms.old 64 source.block }
    requires source_offset { IsTerm terms.old 64 source.offset }
    requires target_block { IsTerm terms.old 64 target.block }
    requires target_offset { IsTerm terms.old 64 target.offset }
    ensures made { IfOk result (λ id. Tests terms.new id (λ v. alike_pointers given v terms.old source.block source.offset target.block target.offset)) }
    ensures kept { Keeps terms.old terms.new }
{
    let last = last_given_number(given);
    let dead = both_dead(last, source.block, target.block, terms)?;
    let block = equals(terms, source.block, target.block)?;
    let offset = equals(terms, source.offset, target.offset)?;
    let same = both(terms, block, offset)?;
    let id = either(terms, dead, same)?;
    Ok(id)
}

/// True where the source's pointer is the target's, or else its number, by what the source's value
/// is.
fn same_content(
    given: u64,
    source: SymValue,
    target: SymValue,
    terms: &mut Terms,
) -> Result<TermId, NoMemory>
    requires source { IsSymValue terms.old source }
    requires target { IsSymValue terms.old target }
    ensures made { IfOk result (λ id. Tests terms.new id (λ v. alike_content given v terms.old source target)) }
    ensures kept { Keeps terms.old terms.new }
{
    let from = Address {
        block: source.block,
        offset: source.number,
    };
    let to = Address {
        block: target.block,
        offset: target.number,
    };
    let pointer = same_address(given, from, to, terms)?;
    let number = equals(terms, source.number, target.number)?;
    let id = pick(terms, source.is_pointer, pointer, number)?;
    Ok(id)
}

/// True where two values, neither of them poison, are of the same kind and equal after the runs.
fn same_value(
    given: u64,
    source: SymValue,
    target: SymValue,
    terms: &mut Terms,
) -> Result<TermId, NoMemory>
    requires source { IsSymValue terms.old source }
    requires target { IsSymValue terms.old target }
    ensures made { IfOk result (λ id. Tests terms.new id (λ v. alike_values given v terms.old source target)) }
    ensures kept { Keeps terms.old terms.new }
{
    let content = same_content(given, source, target, terms)?;
    let kind = equals(terms, source.is_pointer, target.is_pointer)?;
    let id = both(terms, kind, content)?;
    Ok(id)
}

/// True where the source's value allows the target's, with this number of given blocks: poison
/// allows every value.
fn value_allowed(
    given: u64,
    source: SymValue,
    target: SymValue,
    terms: &mut Terms,
) -> Result<TermId, NoMemory>
    requires source { IsSymValue terms.old source }
    requires target { IsSymValue terms.old target }
    ensures made { IfOk result (λ id. Tests terms.new id (λ v. value_allows (value_at (reading given v) terms.old source) (value_at (reading given v) terms.old target))) }
    ensures kept { Keeps terms.old terms.new }
{
    terms.values_fit();
    let same = same_value(given, source, target, terms)?;
    let is_value = negation(terms, target.poison)?;
    let fine = both(terms, is_value, same)?;
    let id = either(terms, source.poison, fine)?;
    Ok(id)
}

/// True where what the source returns allows what the target does, a value or nothing.
fn returned_allowed(
    given: u64,
    source: Option<SymValue>,
    target: Option<SymValue>,
    terms: &mut Terms,
) -> Result<TermId, NoMemory>
    requires source { IfSome source (IsSymValue terms.old) }
    requires target { IfSome target (IsSymValue terms.old) }
    ensures made { IfOk result (λ id. Tests terms.new id (λ v. returned_allows (option_map (value_at (reading given v) terms.old) source) (option_map (value_at (reading given v) terms.old) target))) }
    ensures kept { Keeps terms.old terms.new }
{
    match (source, target) {
        (None, None) => truth(terms, true),
        (Some(s), Some(t)) => value_allowed(given, s, t, terms),
        _ => truth(terms, false),
    }
}

/// True where two bytes, both of them parts, are the same part of pointers equal after the runs.
fn same_part(
    given: u64,
    source: SymByte,
    target: SymByte,
    terms: &mut Terms,
) -> Result<TermId, NoMemory>
    requires source { IsSymByte terms.old source }
    requires target { IsSymByte terms.old target }
    ensures made { IfOk result (λ id. Tests terms.new id (λ v. alike_parts given v terms.old source target)) }
    ensures kept { Keeps terms.old terms.new }
{
    let from = Address {
        block: source.block,
        offset: source.offset,
    };
    let to = Address {
        block: target.block,
        offset: target.offset,
    };
    let pointer = same_address(given, from, to, terms)?;
    let part = equals(terms, source.part, target.part)?;
    let id = both(terms, pointer, part)?;
    Ok(id)
}

/// The bits of a number that are not in a mask.
fn bits_outside(number: TermId, mask: TermId, terms: &mut Terms) -> Result<TermId, NoMemory>
    requires number { IsTerm terms.old 8 number }
    requires mask { IsTerm terms.old 8 mask }
    ensures made { IfOk result (λ id. Makes terms.new id 8 (λ v. defined_bits (term_at v terms.old number) (term_at v terms.old mask))) }
    ensures kept { Keeps terms.old terms.new }
{
    let others = not(terms, mask)?;
    let id = and(terms, number, others)?;
    Ok(id)
}

/// True where the bits of two bytes that aren't in the source's mask are the same.
fn same_bits(source: SymByte, target: SymByte, terms: &mut Terms) -> Result<TermId, NoMemory>
    requires source { IsSymByte terms.old source }
    requires target { IsSymByte terms.old target }
    ensures made { IfOk result (λ id. Tests terms.new id (λ v. alike_numbers v terms.old source target)) }
    ensures kept { Keeps terms.old terms.new }
{
    let from = bits_outside(source.number, source.mask, terms)?;
    let to = bits_outside(target.number, target.mask, terms)?;
    let seen = bits_outside(to, source.mask, terms)?;
    let id = equals(terms, from, seen)?;
    Ok(id)
}

/// True where the source's bits allow the target's: no other bit of the target is poison, and those
/// that are not in the source's mask are the same.
fn bits_allowed(source: SymByte, target: SymByte, terms: &mut Terms) -> Result<TermId, NoMemory>
    requires source { IsSymByte terms.old source }
    requires target { IsSymByte terms.old target }
    ensures made { IfOk result (λ id. Tests terms.new id (λ v. alike_bits v terms.old source target)) }
    ensures kept { Keeps terms.old terms.new }
{
    let same = same_bits(source, target, terms)?;
    let more = bits_outside(target.mask, source.mask, terms)?;
    let within = is_number(more, 0, terms)?;
    let id = both(terms, within, same)?;
    Ok(id)
}

/// True where the source's byte, which is no part of a pointer, allows the target's byte: bits that
/// it allows, or a part where all bits of the source are poison.
fn any_allowed_by_bits(
    source: SymByte,
    target: SymByte,
    terms: &mut Terms,
) -> Result<TermId, NoMemory>
    requires source { IsSymByte terms.old source }
    requires target { IsSymByte terms.old target }
    ensures made { IfOk result (λ id. Tests terms.new id (λ v. cond (bit_at v terms.old target.is_part) (nat_eq (term_at v terms.old source.mask) 255) (alike_bits v terms.old source target))) }
    ensures kept { Keeps terms.old terms.new }
{
    let bits = bits_allowed(source, target, terms)?;
    let all_poison = is_number(source.mask, 255, terms)?;
    let id = pick(terms, target.is_part, all_poison, bits)?;
    Ok(id)
}

/// True where the source's byte allows the target's byte, which differs from it in its terms.
fn other_byte_allowed(
    given: u64,
    source: SymByte,
    target: SymByte,
    terms: &mut Terms,
) -> Result<TermId, NoMemory>
    requires source { IsSymByte terms.old source }
    requires target { IsSymByte terms.old target }
    ensures made { IfOk result (λ id. Tests terms.new id (λ v. byte_allows (byte_at (reading given v) terms.old source) (byte_at (reading given v) terms.old target))) }
    ensures kept { Keeps terms.old terms.new }
{
    let same = same_part(given, source, target, terms)?;
    let part = both(terms, target.is_part, same)?;
    let bits = any_allowed_by_bits(source, target, terms)?;
    let id = pick(terms, source.is_part, part, bits)?;
    Ok(id)
}

/// True where the source's byte, which is no part of a pointer, allows the target's byte.
fn bits_byte_allowed(
    source: SymByte,
    target: SymByte,
    terms: &mut Terms,
) -> Result<TermId, NoMemory>
    requires source { IsSymByte terms.old source }
    requires target { IsSymByte terms.old target }
    requires no_part { (v : ℕ → ℕ → ℕ) → bit_at v terms.old source.is_part ≡ false }
    ensures made { IfOk result (λ id. (given : ℕ) → Tests terms.new id (λ v. byte_allows (byte_at (reading given v) terms.old source) (byte_at (reading given v) terms.old target))) }
    ensures kept { Keeps terms.old terms.new }
{
    let id = any_allowed_by_bits(source, target, terms)?;
    Ok(id)
}

/// True where the source's byte allows the target's: a poison bit allows both bits, and a byte
/// itself.
fn byte_allowed(
    given: u64,
    source: SymByte,
    target: SymByte,
    terms: &mut Terms,
) -> Result<TermId, NoMemory>
    requires source { IsSymByte terms.old source }
    requires target { IsSymByte terms.old target }
    ensures made { IfOk result (λ id. Tests terms.new id (λ v. byte_allows (byte_at (reading given v) terms.old source) (byte_at (reading given v) terms.old target))) }
    ensures kept { Keeps terms.old terms.new }
{
    terms.values_fit();
    if source == target {
        let id = truth(terms, true)?;
        Ok(id)
    } else if !may_be(terms, source.is_part, 1) {
        let id = bits_byte_allowed(source, target, terms)?;
        Ok(id)
    } else {
        let id = other_byte_allowed(given, source, target, terms)?;
        Ok(id)
    }
}

/// True where each byte before the size allows the other's.
fn places_allowed(
    given: u64,
    size: TermId,
    source: &[SymByte],
    target: &[SymByte],
    terms: &mut Terms,
) -> Result<TermId, NoMemory>
    requires size { IsTerm terms.old 64 size }
    requires source { AreSymBytes terms.old source.now }
    requires target { AreSymBytes terms.old target.now }
    requires count { length target.now ≡ length source.now }
    ensures made { IfOk result (λ id. Tests terms.new id (λ v. pairs_pass byte_allows (take (term_at v terms.old size) (places_at (reading given v) terms.old source.now)) (take (term_at v terms.old size) (places_at (reading given v) terms.old target.now)))) }
    ensures kept { Keeps terms.old terms.new }
{
    let mut all = truth(terms, true)?;
    for (i, byte) in source.iter().enumerate() {
        let place = number(terms, i as u64)?;
        let is_there = less(terms, place, size)?;
        let allowed = byte_allowed(given, *byte, target[i], terms)?;
        let fine = implies(terms, is_there, allowed)?;
        all = both(terms, all, fine)?;
    }
    Ok(all)
}

/// True where the source's block allows the target's, with the same number, alignment and room.
fn block_allowed(
    given: u64,
    source: &SymBlock,
    target: &SymBlock,
    terms: &mut Terms,
) -> Result<TermId, NoMemory>
    requires source { IsSymBlock terms.old source.now }
    requires target { IsSymBlock terms.old target.now }
    requires frame { frame_of target.now ≡ frame_of source.now }
    ensures made { IfOk result (λ id. Tests terms.new id (λ v. block_allows (block_at (reading given v) terms.old source.now) (block_at (reading given v) terms.old target.now))) }
    ensures kept { Keeps terms.old terms.new }
{
    let size = equals(terms, source.size, target.size)?;
    let places = places_allowed(
        given,
        source.size,
        source.places.as_slice(),
        target.places.as_slice(),
        terms,
    )?;
    let id = both(terms, size, places)?;
    Ok(id)
}

/// True where each block of the source allows the target's; they exist in every run.
fn blocks_allowed(
    given: u64,
    source: &[SymBlock],
    target: &[SymBlock],
    terms: &mut Terms,
) -> Result<TermId, NoMemory>
    requires source { AreSymBlocks terms.old source.now }
    requires target { AreSymBlocks terms.old target.now }
    requires always_source { Each (IsAlways terms.old) source.now }
    requires always_target { Each (IsAlways terms.old) target.now }
    requires frames { map frame_of target.now ≡ map frame_of source.now }
    ensures made { IfOk result (λ id. Tests terms.new id (λ v. blocks_allow (memory_at (reading given v) terms.old source.now) (memory_at (reading given v) terms.old target.now))) }
    ensures kept { Keeps terms.old terms.new }
{
    let mut all = truth(terms, true)?;
    for (i, block) in source.iter().enumerate() {
        let allowed = block_allowed(given, block, &target[i], terms)?;
        all = both(terms, all, allowed)?;
    }
    Ok(all)
}

/// True where what the source returns, and the given blocks that it leaves, allow the target's.
fn return_allowed(
    source: &OutcomeTerms,
    target: &OutcomeTerms,
    terms: &mut Terms,
) -> Result<TermId, NoMemory>
    requires source { IsOutcome terms.old source.now }
    requires target { IsOutcome terms.old target.now }
    requires frames { map frame_of target.now.blocks ≡ map frame_of source.now.blocks }
    ensures made { IfOk result (λ id. Tests terms.new id (λ v. returned_allows (option_map (value_at (reading (length source.now.blocks) v) terms.old) source.now.value) (option_map (value_at (reading (length source.now.blocks) v) terms.old) target.now.value) && blocks_allow (memory_at (reading (length source.now.blocks) v) terms.old source.now.blocks) (memory_at (reading (length source.now.blocks) v) terms.old target.now.blocks))) }
    ensures kept { Keeps terms.old terms.new }
{
    let given = source.blocks.len() as u64;
    let value = returned_allowed(given, source.value, target.value, terms)?;
    let blocks = blocks_allowed(
        given,
        source.blocks.as_slice(),
        target.blocks.as_slice(),
        terms,
    )?;
    let id = both(terms, value, blocks)?;
    Ok(id)
}

/// True where the source's outcome allows the target's (Alive2, PLDI 2021): a run past the bound on
/// jumps allows and is allowed everything, undefined behaviour of the source allows everything, and
/// poison allows every value and byte. A pointer to a block of an alloca is dead after the run, and
/// all dead ones are equal. The blocks are the given ones.
pub fn covered(
    source: &OutcomeTerms,
    target: &OutcomeTerms,
    terms: &mut Terms,
) -> Result<TermId, NoMemory>
    requires source { IsOutcome terms.old source.now }
    requires target { IsOutcome terms.old target.now }
    requires frames { map frame_of target.now.blocks ≡ map frame_of source.now.blocks }
    ensures made { IfOk result (λ id. Tests terms.new id (λ v. is_refined (outcome_at (reading (length source.now.blocks) v) terms.old source.now) (outcome_at (reading (length source.now.blocks) v) terms.old target.now))) }
    ensures kept { Keeps terms.old terms.new }
{
    let returned = return_allowed(source, target, terms)?;
    let ends = either(terms, target.beyond, returned)?;
    let is_defined = negation(terms, target.ub)?;
    let allowed = both(terms, is_defined, ends)?;
    let is_free = either(terms, source.ub, source.beyond)?;
    let id = either(terms, is_free, allowed)?;
    Ok(id)
}

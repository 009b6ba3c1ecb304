//! Bytes of a code.

ghost use Rattle.std.specs.Prelude.{◌&&◌, IfOk, bit_and, nat_eq, not};
ghost use Rattle.points.specs.Codes.{IsCodeOfByte, IsNumberByte, IsPartByte, IsPoisonByte, IsUnused};
ghost use Rattle.bv_terms.specs.Trees.{IsTerm, Keeps, Tests, bit_at, term_at};
ghost use Rattle.refine_terms.specs.Deciding.{Decides};
ghost use Rattle.mem_terms.specs.Inputs.{IsByteTerms};
ghost use Rattle.refine_terms.specs.Numbers.{byte_numbers};

use crate::comparing::{at_most, is_number};
use bv_terms::{TermId, Terms};
use mem_terms::{ByteTerms, both, either, negation};
use points::Layout;
use support::NoMemory;
use term_rules::and;

/// True where the numbers of a pointer's part are 0.
fn no_part(b: ByteTerms, terms: &mut Terms) -> Result<TermId, NoMemory>
    requires { IsByteTerms terms.old b }
    ensures made { IfOk result (λ id. Tests terms.new id (λ v. nat_eq (term_at v terms.old b.block) 0 && (nat_eq (term_at v terms.old b.offset) 0 && nat_eq (term_at v terms.old b.part) 0))) }
    ensures kept { Keeps terms.old terms.new }
{
    let block = is_number(b.block, 0, terms)?;
    let offset = is_number(b.offset, 0, terms)?;
    let part = is_number(b.part, 0, terms)?;
    let rest = both(terms, offset, part)?;
    let id = both(terms, block, rest)?;
    Ok(id)
}

/// True where all four are.
fn all_four(
    a: TermId,
    b: TermId,
    c: TermId,
    d: TermId,
    terms: &mut Terms,
) -> Result<TermId, NoMemory>
    requires a { IsTerm terms.old 1 a }
    requires b { IsTerm terms.old 1 b }
    requires c { IsTerm terms.old 1 c }
    requires d { IsTerm terms.old 1 d }
    ensures made { IfOk result (λ id. Tests terms.new id (λ v. bit_at v terms.old a && (bit_at v terms.old b && (bit_at v terms.old c && bit_at v terms.old d)))) }
    ensures kept { Keeps terms.old terms.new }
{
    let last = both(terms, c, d)?;
    let rest = both(terms, b, last)?;
    let id = both(terms, a, rest)?;
    Ok(id)
}

/// True where the numbers are those of an index past a block's size: all are 0.
pub fn unused_code(b: ByteTerms, terms: &mut Terms) -> Result<TermId, NoMemory>
    requires { IsByteTerms terms.old b }
    ensures made { IfOk result (λ id. Decides terms.new id (λ v. IsUnused (byte_numbers v terms.old b))) }
    ensures kept { Keeps terms.old terms.new }
{
    let kind = is_number(b.kind, 0, terms)?;
    let mask = is_number(b.mask, 0, terms)?;
    let number = is_number(b.number, 0, terms)?;
    let part = no_part(b, terms)?;
    let id = all_four(kind, mask, number, part, terms)?;
    Ok(id)
}

/// True where the numbers are those of bits without poison.
fn number_byte(b: ByteTerms, terms: &mut Terms) -> Result<TermId, NoMemory>
    requires { IsByteTerms terms.old b }
    ensures made { IfOk result (λ id. Decides terms.new id (λ v. IsNumberByte (byte_numbers v terms.old b))) }
    ensures kept { Keeps terms.old terms.new }
{
    terms.values_fit();
    let kind = is_number(b.kind, 0, terms)?;
    let mask = is_number(b.mask, 0, terms)?;
    let part = no_part(b, terms)?;
    let rest = both(terms, mask, part)?;
    let id = both(terms, kind, rest)?;
    Ok(id)
}

/// True where the numbers are those of a part of a pointer to null or to a given block.
fn part_byte(b: ByteTerms, layout: &Layout, terms: &mut Terms) -> Result<TermId, NoMemory>
    requires { IsByteTerms terms.old b }
    ensures made { IfOk result (λ id. Decides terms.new id (λ v. IsPartByte layout.now (byte_numbers v terms.old b))) }
    ensures kept { Keeps terms.old terms.new }
{
    terms.values_fit();
    let kind = is_number(b.kind, 1, terms)?;
    let mask = is_number(b.mask, 0, terms)?;
    let number = is_number(b.number, 0, terms)?;
    let block = at_most(b.block, layout.blocks, terms)?;
    let id = all_four(kind, mask, number, block, terms)?;
    Ok(id)
}

/// True where a byte's mask has a bit.
fn has_poison(b: ByteTerms, terms: &mut Terms) -> Result<TermId, NoMemory>
    requires { IsByteTerms terms.old b }
    ensures made { IfOk result (λ id. Tests terms.new id (λ v. not (nat_eq (term_at v terms.old b.mask) 0))) }
    ensures kept { Keeps terms.old terms.new }
{
    let no_mask = is_number(b.mask, 0, terms)?;
    let id = negation(terms, no_mask)?;
    Ok(id)
}

/// True where a byte's number has no bit of its mask.
fn has_no_common_bit(b: ByteTerms, terms: &mut Terms) -> Result<TermId, NoMemory>
    requires { IsByteTerms terms.old b }
    ensures made { IfOk result (λ id. Tests terms.new id (λ v. nat_eq (bit_and (term_at v terms.old b.number) (term_at v terms.old b.mask)) 0)) }
    ensures kept { Keeps terms.old terms.new }
{
    let common = and(terms, b.number, b.mask)?;
    let id = is_number(common, 0, terms)?;
    Ok(id)
}

/// True where the numbers are those of bits with poison.
fn poison_byte(b: ByteTerms, terms: &mut Terms) -> Result<TermId, NoMemory>
    requires { IsByteTerms terms.old b }
    ensures made { IfOk result (λ id. Decides terms.new id (λ v. IsPoisonByte (byte_numbers v terms.old b))) }
    ensures kept { Keeps terms.old terms.new }
{
    terms.values_fit();
    let kind = is_number(b.kind, 2, terms)?;
    let some = has_poison(b, terms)?;
    let apart = has_no_common_bit(b, terms)?;
    let part = no_part(b, terms)?;
    let id = all_four(kind, some, apart, part, terms)?;
    Ok(id)
}

/// True where the six numbers are a byte's: bits without poison, a part of a pointer, or bits with
/// poison.
pub fn byte_code(b: ByteTerms, layout: &Layout, terms: &mut Terms) -> Result<TermId, NoMemory>
    requires { IsByteTerms terms.old b }
    ensures made { IfOk result (λ id. Decides terms.new id (λ v. IsCodeOfByte layout.now (byte_numbers v terms.old b))) }
    ensures kept { Keeps terms.old terms.new }
{
    let number = number_byte(b, terms)?;
    let part = part_byte(b, layout, terms)?;
    let poison = poison_byte(b, terms)?;
    let rest = either(terms, part, poison)?;
    let id = either(terms, number, rest)?;
    Ok(id)
}

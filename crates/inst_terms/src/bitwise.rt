//! Bitwise operations (LLVM Language Reference, "and Instruction", "or Instruction", "xor
//! Instruction").

ghost use Rattle.std.specs.Prelude.{◌&&◌, not, false, IfOk, nat_eq, bit_and, bit_or, bit_xor};
ghost use Rattle.bv_terms.specs.Trees.{IsTerm, Keeps, Makes, Tests, term_at};

use crate::narrow::{NarrowValue, is_not_zero};
use bv_terms::{TermId, Terms};
use mem_terms::truth;
use support::NoMemory;
use term_rules::{and, or, xor};
use tv_num::Width;

/// The bits that are 1 in both.
pub fn conjunction(
    terms: &mut Terms,
    a: TermId,
    b: TermId,
    width: Width,
) -> Result<NarrowValue, NoMemory>
    requires a { IsTerm terms.old width.bits a }
    requires b { IsTerm terms.old width.bits b }
    ensures number { IfOk result (λ s. Makes terms.new s.number width.bits (λ v. bit_and (term_at v terms.old a) (term_at v terms.old b))) }
    ensures poison { IfOk result (λ s. Tests terms.new s.poison (λ _. false)) }
    ensures kept { Keeps terms.old terms.new }
{
    let number = and(terms, a, b)?;
    let poison = truth(terms, false)?;
    Ok(NarrowValue { poison, number })
}

/// Where the flag is set, whether a bit is 1 in both.
fn share_a_bit_where(
    terms: &mut Terms,
    flag: bool,
    a: TermId,
    b: TermId,
    width: Width,
) -> Result<TermId, NoMemory>
    requires a { IsTerm terms.old width.bits a }
    requires b { IsTerm terms.old width.bits b }
    ensures made { IfOk result (λ id. Tests terms.new id (λ v. flag && not (nat_eq (bit_and (term_at v terms.old a) (term_at v terms.old b)) 0))) }
    ensures kept { Keeps terms.old terms.new }
{
    if flag {
        let shared = and(terms, a, b)?;
        is_not_zero(terms, shared, width)
    } else {
        truth(terms, false)
    }
}

/// The bits that are 1 in either.
pub fn disjunction(
    terms: &mut Terms,
    disjoint: bool,
    a: TermId,
    b: TermId,
    width: Width,
) -> Result<NarrowValue, NoMemory>
    requires a { IsTerm terms.old width.bits a }
    requires b { IsTerm terms.old width.bits b }
    ensures number { IfOk result (λ s. Makes terms.new s.number width.bits (λ v. bit_or (term_at v terms.old a) (term_at v terms.old b))) }
    ensures poison { IfOk result (λ s. Tests terms.new s.poison (λ v. disjoint && not (nat_eq (bit_and (term_at v terms.old a) (term_at v terms.old b)) 0))) }
    ensures kept { Keeps terms.old terms.new }
{
    let number = or(terms, a, b)?;
    let poison = share_a_bit_where(terms, disjoint, a, b, width)?;
    Ok(NarrowValue { poison, number })
}

/// The bits that are 1 in exactly one.
pub fn exclusive_disjunction(
    terms: &mut Terms,
    a: TermId,
    b: TermId,
    width: Width,
) -> Result<NarrowValue, NoMemory>
    requires a { IsTerm terms.old width.bits a }
    requires b { IsTerm terms.old width.bits b }
    ensures number { IfOk result (λ s. Makes terms.new s.number width.bits (λ v. bit_xor (term_at v terms.old a) (term_at v terms.old b))) }
    ensures poison { IfOk result (λ s. Tests terms.new s.poison (λ _. false)) }
    ensures kept { Keeps terms.old terms.new }
{
    let number = xor(terms, a, b)?;
    let poison = truth(terms, false)?;
    Ok(NarrowValue { poison, number })
}

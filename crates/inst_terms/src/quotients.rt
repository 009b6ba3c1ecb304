//! Quotients and remainders (LLVM Language Reference, "udiv Instruction", "sdiv Instruction", "urem
//! Instruction", "srem Instruction"). What they give where the divisor is 0 does not matter. Those
//! of numbers in two's complement are those of their magnitudes, with a sign.

ghost use Rattle.std.specs.Prelude.{◌≡◌, ◌≤◌, ◌&&◌, ℕ, not, false, IfOk, nat_eq};
ghost use Rattle.bv_terms.specs.Tree.{quotient, remainder};
ghost use Rattle.bv_terms.specs.Trees.{IsTerm, Keeps, Makes, Tests, bit_at, term_at};
ghost use Rattle.points.specs.Table.{have_two_signs, is_negative};
ghost use Rattle.inst_terms.specs.Rows.{magnitude, negated_if};

use crate::narrow::{NarrowValue, is_not_zero};
use crate::signs::{sign, signs_differ};
use bv_terms::{TermId, Terms};
use mem_terms::{pick, truth};
use support::NoMemory;
use term_rules::{constant, sub, udiv, udiv_where, urem, urem_where};
use tv_num::Width;

/// Where the flag is set, whether the division leaves a remainder.
fn leaves_a_rest_where(
    terms: &mut Terms,
    flag: bool,
    a: TermId,
    b: TermId,
    width: Width,
) -> Result<TermId, NoMemory>
    requires a { IsTerm terms.old width.bits a }
    requires b { IsTerm terms.old width.bits b }
    ensures made { IfOk result (λ id. Tests terms.new id (λ v. flag && not (nat_eq (remainder (term_at v terms.old a) (term_at v terms.old b)) 0))) }
    ensures kept { Keeps terms.old terms.new }
{
    if flag {
        let rest = urem(terms, a, b)?;
        is_not_zero(terms, rest, width)
    } else {
        truth(terms, false)
    }
}

/// The quotient of unsigned numbers, where the condition is false: an operand is poison where it is
/// true.
pub fn unsigned_quotient(
    terms: &mut Terms,
    exact: bool,
    poison: TermId,
    a: TermId,
    b: TermId,
    width: Width,
) -> Result<NarrowValue, NoMemory>
    requires poison { IsTerm terms.old 1 poison }
    requires a { IsTerm terms.old width.bits a }
    requires b { IsTerm terms.old width.bits b }
    ensures made { IfOk result (λ s. IsTerm terms.new width.bits s.number) }
    ensures number { IfOk result (λ s. (v : ℕ → ℕ → ℕ) → bit_at v terms.old poison ≡ false → 1 ≤ term_at v terms.old b
        → term_at v terms.new s.number ≡ quotient width.bits (term_at v terms.old a) (term_at v terms.old b)) }
    ensures poison { IfOk result (λ s. Tests terms.new s.poison (λ v. exact && not (nat_eq (remainder (term_at v terms.old a) (term_at v terms.old b)) 0))) }
    ensures kept { Keeps terms.old terms.new }
{
    let number = udiv_where(terms, poison, a, b)?;
    let rest = leaves_a_rest_where(terms, exact, a, b, width)?;
    Ok(NarrowValue {
        poison: rest,
        number,
    })
}

/// The remainder of unsigned numbers, where the condition is false.
pub fn unsigned_remainder(
    terms: &mut Terms,
    poison: TermId,
    a: TermId,
    b: TermId,
    width: Width,
) -> Result<NarrowValue, NoMemory>
    requires poison { IsTerm terms.old 1 poison }
    requires a { IsTerm terms.old width.bits a }
    requires b { IsTerm terms.old width.bits b }
    ensures made { IfOk result (λ s. IsTerm terms.new width.bits s.number) }
    ensures number { IfOk result (λ s. (v : ℕ → ℕ → ℕ) → bit_at v terms.old poison ≡ false
        → term_at v terms.new s.number ≡ remainder (term_at v terms.old a) (term_at v terms.old b)) }
    ensures poison { IfOk result (λ s. Tests terms.new s.poison (λ _. false)) }
    ensures kept { Keeps terms.old terms.new }
{
    let number = urem_where(terms, poison, a, b)?;
    let never = truth(terms, false)?;
    Ok(NarrowValue {
        poison: never,
        number,
    })
}

/// The number, or its opposite where the condition is true.
fn negated_where(
    terms: &mut Terms,
    condition: TermId,
    a: TermId,
    width: Width,
) -> Result<TermId, NoMemory>
    requires condition { IsTerm terms.old 1 condition }
    requires a { IsTerm terms.old width.bits a }
    ensures made { IfOk result (λ id. Makes terms.new id width.bits (λ v. negated_if width.bits (bit_at v terms.old condition) (term_at v terms.old a))) }
    ensures kept { Keeps terms.old terms.new }
{
    let zero = constant(terms, 0, width.bits())?;
    let opposite = sub(terms, zero, a)?;
    pick(terms, condition, opposite, a)
}

/// The number without its sign.
fn magnitude(terms: &mut Terms, a: TermId, width: Width) -> Result<TermId, NoMemory>
    requires { IsTerm terms.old width.bits a }
    ensures made { IfOk result (λ id. Makes terms.new id width.bits (λ v. magnitude width.bits (term_at v terms.old a))) }
    ensures kept { Keeps terms.old terms.new }
{
    let negative = sign(terms, a, width)?;
    negated_where(terms, negative, a, width)
}

/// The quotient of numbers in two's complement, rounded toward 0.
pub fn signed_quotient(
    terms: &mut Terms,
    exact: bool,
    a: TermId,
    b: TermId,
    width: Width,
) -> Result<NarrowValue, NoMemory>
    requires a { IsTerm terms.old width.bits a }
    requires b { IsTerm terms.old width.bits b }
    ensures number { IfOk result (λ s. Makes terms.new s.number width.bits (λ v. negated_if width.bits (have_two_signs width.bits (term_at v terms.old a) (term_at v terms.old b))
        (quotient width.bits (magnitude width.bits (term_at v terms.old a)) (magnitude width.bits (term_at v terms.old b))))) }
    ensures poison { IfOk result (λ s. Tests terms.new s.poison (λ v. exact && not (nat_eq (remainder (magnitude width.bits (term_at v terms.old a)) (magnitude width.bits (term_at v terms.old b))) 0))) }
    ensures kept { Keeps terms.old terms.new }
{
    let size_a = magnitude(terms, a, width)?;
    let size_b = magnitude(terms, b, width)?;
    let size = udiv(terms, size_a, size_b)?;
    let negative = signs_differ(terms, a, b, width)?;
    let number = negated_where(terms, negative, size, width)?;
    let poison = leaves_a_rest_where(terms, exact, size_a, size_b, width)?;
    Ok(NarrowValue { poison, number })
}

/// The remainder of numbers in two's complement, with the dividend's sign.
pub fn signed_remainder(
    terms: &mut Terms,
    a: TermId,
    b: TermId,
    width: Width,
) -> Result<NarrowValue, NoMemory>
    requires a { IsTerm terms.old width.bits a }
    requires b { IsTerm terms.old width.bits b }
    ensures number { IfOk result (λ s. Makes terms.new s.number width.bits (λ v. negated_if width.bits (is_negative width.bits (term_at v terms.old a))
        (remainder (magnitude width.bits (term_at v terms.old a)) (magnitude width.bits (term_at v terms.old b))))) }
    ensures poison { IfOk result (λ s. Tests terms.new s.poison (λ _. false)) }
    ensures kept { Keeps terms.old terms.new }
{
    let size_a = magnitude(terms, a, width)?;
    let size_b = magnitude(terms, b, width)?;
    let size = urem(terms, size_a, size_b)?;
    let negative = sign(terms, a, width)?;
    let number = negated_where(terms, negative, size, width)?;
    let poison = truth(terms, false)?;
    Ok(NarrowValue { poison, number })
}

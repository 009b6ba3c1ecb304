//! Values at the width of an operation.

ghost use Rattle.std.specs.Prelude.{◌≡◌, ◌%◌, ◌^◌, ◌||◌, ℕ, IfOk, not, nat_eq};
ghost use Rattle.bv_terms.specs.Trees.{IsTerm, Keeps, Makes, Tests, bit_at, term_at};
ghost use Rattle.mem_terms.specs.Values.{IsSymNumber, number_at};
ghost use Rattle.inst_terms.specs.Narrow.{IsNarrow, narrow_at};

use bv_terms::{TermId, Terms};
use mem_terms::{SymNumber, either, equals, negation, resize};
use support::NoMemory;
use term_rules::{constant, zext};
use tv_num::Width;

/// A value at a width: poison where the first is true, else the number, of this number of bits.
#[derive(Clone, Copy, Debug, PartialEq, Eq)]
pub struct NarrowValue {
    pub poison: TermId,
    pub number: TermId,
}

/// The value with its number modulo 2^width.
pub fn narrowed(terms: &mut Terms, value: SymNumber, width: Width) -> Result<NarrowValue, NoMemory>
    requires { IsSymNumber terms.old value }
    ensures made { IfOk result (IsNarrow terms.new width.bits) }
    ensures poison { IfOk result (λ s. s.poison ≡ value.poison) }
    ensures number { IfOk result (λ s. Makes terms.new s.number width.bits (λ v. term_at v terms.old value.number % 2 ^ width.bits)) }
    ensures kept { Keeps terms.old terms.new }
{
    let number = resize(terms, value.number, width.bits())?;
    Ok(NarrowValue {
        poison: value.poison,
        number,
    })
}

/// The value with its number zero-extended.
pub fn widened(terms: &mut Terms, value: NarrowValue, width: Width) -> Result<SymNumber, NoMemory>
    requires { IsNarrow terms.old width.bits value }
    ensures made { IfOk result (IsSymNumber terms.new) }
    ensures stands { IfOk result (λ s. (v : ℕ → ℕ → ℕ) → number_at v terms.new s ≡ narrow_at v terms.old value) }
    ensures kept { Keeps terms.old terms.new }
{
    let number = zext(terms, value.number, 64)?;
    Ok(SymNumber {
        poison: value.poison,
        number,
    })
}

/// Whether the number is 0.
pub fn is_zero(terms: &mut Terms, a: TermId, width: Width) -> Result<TermId, NoMemory>
    requires { IsTerm terms.old width.bits a }
    ensures made { IfOk result (λ id. Tests terms.new id (λ v. nat_eq (term_at v terms.old a) 0)) }
    ensures kept { Keeps terms.old terms.new }
{
    let zero = constant(terms, 0, width.bits())?;
    equals(terms, a, zero)
}

/// Whether the number is not 0.
pub fn is_not_zero(terms: &mut Terms, a: TermId, width: Width) -> Result<TermId, NoMemory>
    requires { IsTerm terms.old width.bits a }
    ensures made { IfOk result (λ id. Tests terms.new id (λ v. not (nat_eq (term_at v terms.old a) 0))) }
    ensures kept { Keeps terms.old terms.new }
{
    let zero = is_zero(terms, a, width)?;
    negation(terms, zero)
}

/// Whether two numbers are not equal.
pub fn is_another(terms: &mut Terms, a: TermId, b: TermId, width: Width) -> Result<TermId, NoMemory>
    requires a { IsTerm terms.old width.bits a }
    requires b { IsTerm terms.old width.bits b }
    ensures made { IfOk result (λ id. Tests terms.new id (λ v. not (nat_eq (term_at v terms.old a) (term_at v terms.old b)))) }
    ensures kept { Keeps terms.old terms.new }
{
    let same = equals(terms, a, b)?;
    negation(terms, same)
}

/// Whether an operand is poison, or the result by itself.
pub fn is_any_poison(
    terms: &mut Terms,
    a: TermId,
    b: TermId,
    own: TermId,
) -> Result<TermId, NoMemory>
    requires a { IsTerm terms.old 1 a }
    requires b { IsTerm terms.old 1 b }
    requires own { IsTerm terms.old 1 own }
    ensures made { IfOk result (λ id. Tests terms.new id (λ v. (bit_at v terms.old a || bit_at v terms.old b) || bit_at v terms.old own)) }
    ensures kept { Keeps terms.old terms.new }
{
    let operands = either(terms, a, b)?;
    either(terms, operands, own)
}

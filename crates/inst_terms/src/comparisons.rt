//! Comparisons (LLVM Language Reference, "icmp Instruction").

ghost use Rattle.std.specs.Prelude.{◌≡◌, ℕ, IfOk, IsTrue, false, int_le, int_lt, nat_le, nat_lt};
ghost use Rattle.bv_terms.specs.Trees.{IsTerm, Keeps, Tests, bit_at, term_at};
ghost use Rattle.tv_num.specs.Width.{signed_of};
ghost use Rattle.points.specs.Table.{are_unlike, compared, holds_of, truth};
ghost use Rattle.mem_terms.specs.Values.{IsSymNumber, number_at, value_from};

use crate::narrow::{is_another, narrowed};
use crate::signs::signs_differ;
use bv_terms::{TermId, Terms};
use ir_tree::Predicate;
use mem_terms::{SymNumber, either, equals, less, less_signed, negation, truth};
use support::NoMemory;
use term_rules::{ordered_where, zext};
use tv_num::Width;

/// Whether the first is less or equal, unsigned.
fn at_most(terms: &mut Terms, a: TermId, b: TermId, width: Width) -> Result<TermId, NoMemory>
    requires a { IsTerm terms.old width.bits a }
    requires b { IsTerm terms.old width.bits b }
    ensures made { IfOk result (λ id. Tests terms.new id (λ v. nat_le (term_at v terms.old a) (term_at v terms.old b))) }
    ensures kept { Keeps terms.old terms.new }
{
    let above = less(terms, b, a)?;
    let id = negation(terms, above)?;
    Ok(id)
}

/// Whether the first is less, in two's complement.
fn is_below_signed(
    terms: &mut Terms,
    a: TermId,
    b: TermId,
    width: Width,
) -> Result<TermId, NoMemory>
    requires a { IsTerm terms.old width.bits a }
    requires b { IsTerm terms.old width.bits b }
    ensures made { IfOk result (λ id. Tests terms.new id (λ v. int_lt (signed_of width.bits (term_at v terms.old a)) (signed_of width.bits (term_at v terms.old b)))) }
    ensures kept { Keeps terms.old terms.new }
{
    terms.values_fit();
    let id = less_signed(terms, a, b)?;
    Ok(id)
}

/// Whether the first is less or equal, in two's complement.
fn at_most_signed(terms: &mut Terms, a: TermId, b: TermId, width: Width) -> Result<TermId, NoMemory>
    requires a { IsTerm terms.old width.bits a }
    requires b { IsTerm terms.old width.bits b }
    ensures made { IfOk result (λ id. Tests terms.new id (λ v. int_le (signed_of width.bits (term_at v terms.old a)) (signed_of width.bits (term_at v terms.old b)))) }
    ensures kept { Keeps terms.old terms.new }
{
    let above = is_below_signed(terms, b, a, width)?;
    let id = negation(terms, above)?;
    Ok(id)
}

/// Whether the predicate holds of two numbers of the width.
fn holds(
    terms: &mut Terms,
    predicate: Predicate,
    a: TermId,
    b: TermId,
    width: Width,
) -> Result<TermId, NoMemory>
    requires a { IsTerm terms.old width.bits a }
    requires b { IsTerm terms.old width.bits b }
    ensures made { IfOk result (λ id. Tests terms.new id (λ v. holds_of predicate width.bits (term_at v terms.old a) (term_at v terms.old b))) }
    ensures kept { Keeps terms.old terms.new }
{
    match predicate {
        Predicate::Equal => equals(terms, a, b),
        Predicate::NotEqual => is_another(terms, a, b, width),
        Predicate::UnsignedGreater => less(terms, b, a),
        Predicate::UnsignedGreaterOrEqual => at_most(terms, b, a, width),
        Predicate::UnsignedLess => less(terms, a, b),
        Predicate::UnsignedLessOrEqual => at_most(terms, a, b, width),
        Predicate::SignedGreater => is_below_signed(terms, b, a, width),
        Predicate::SignedGreaterOrEqual => at_most_signed(terms, b, a, width),
        Predicate::SignedLess => is_below_signed(terms, a, b, width),
        Predicate::SignedLessOrEqual => at_most_signed(terms, a, b, width),
    }
}

/// Whether the predicate only asks for equality or for the order of unsigned numbers.
fn is_unsigned(predicate: Predicate) -> bool
    ensures { IsTrue result → (n x y a b : ℕ) → nat_lt x y ≡ nat_lt a b → nat_lt y x ≡ nat_lt b a → holds_of predicate n x y ≡ holds_of predicate n a b }
{
    match predicate {
        Predicate::Equal => true,
        Predicate::NotEqual => true,
        Predicate::UnsignedGreater => true,
        Predicate::UnsignedGreaterOrEqual => true,
        Predicate::UnsignedLess => true,
        Predicate::UnsignedLessOrEqual => true,
        Predicate::SignedGreater => false,
        Predicate::SignedGreaterOrEqual => false,
        Predicate::SignedLess => false,
        Predicate::SignedLessOrEqual => false,
    }
}

/// Whether the predicate holds of two numbers of the width, where the condition is false: an operand
/// is poison where it is true.
fn holds_where(
    terms: &mut Terms,
    poison: TermId,
    predicate: Predicate,
    a: TermId,
    b: TermId,
    width: Width,
) -> Result<TermId, NoMemory>
    requires poison { IsTerm terms.old 1 poison }
    requires a { IsTerm terms.old width.bits a }
    requires b { IsTerm terms.old width.bits b }
    ensures made { IfOk result (IsTerm terms.new 1) }
    ensures says { IfOk result (λ id. (v : ℕ → ℕ → ℕ) → bit_at v terms.old poison ≡ false
        → bit_at v terms.new id ≡ holds_of predicate width.bits (term_at v terms.old a) (term_at v terms.old b)) }
    ensures kept { Keeps terms.old terms.new }
{
    if is_unsigned(predicate) {
        let pair = ordered_where(terms, poison, a, b);
        holds(terms, predicate, pair.first, pair.second, width)
    } else {
        holds(terms, predicate, a, b, width)
    }
}

/// Whether `samesign` forbids the comparison.
fn are_unlike(
    terms: &mut Terms,
    same_sign: bool,
    a: TermId,
    b: TermId,
    width: Width,
) -> Result<TermId, NoMemory>
    requires a { IsTerm terms.old width.bits a }
    requires b { IsTerm terms.old width.bits b }
    ensures made { IfOk result (λ id. Tests terms.new id (λ v. are_unlike same_sign width.bits (term_at v terms.old a) (term_at v terms.old b))) }
    ensures kept { Keeps terms.old terms.new }
{
    if same_sign {
        signs_differ(terms, a, b, width)
    } else {
        truth(terms, false)
    }
}

/// 1 where the test holds, else 0, unless it is poison.
fn truth_value(terms: &mut Terms, poison: TermId, test: TermId) -> Result<SymNumber, NoMemory>
    requires poison { IsTerm terms.old 1 poison }
    requires test { IsTerm terms.old 1 test }
    ensures made { IfOk result (IsSymNumber terms.new) }
    ensures stands { IfOk result (λ s. (v : ℕ → ℕ → ℕ) → number_at v terms.new s ≡ value_from (bit_at v terms.old poison) (truth (bit_at v terms.old test))) }
    ensures kept { Keeps terms.old terms.new }
{
    terms.values_fit();
    let number = zext(terms, test, 64)?;
    Ok(SymNumber { poison, number })
}

/// A comparison of two values, read modulo 2^width: 1 or 0, and poison where an operand is, or where
/// `samesign` forbids it. The only error is out of memory, and the terms that were there stay.
pub fn compare(
    terms: &mut Terms,
    predicate: Predicate,
    same_sign: bool,
    width: Width,
    left: SymNumber,
    right: SymNumber,
) -> Result<SymNumber, NoMemory>
    requires left { IsSymNumber terms.old left }
    requires right { IsSymNumber terms.old right }
    ensures made { IfOk result (IsSymNumber terms.new) }
    ensures stands { IfOk result (λ s. (v : ℕ → ℕ → ℕ) → number_at v terms.new s ≡ compared predicate same_sign width.bits (number_at v terms.old left) (number_at v terms.old right)) }
    ensures kept { Keeps terms.old terms.new }
{
    let a = narrowed(terms, left, width)?;
    let b = narrowed(terms, right, width)?;
    let unlike = are_unlike(terms, same_sign, a.number, b.number, width)?;
    let operands = either(terms, a.poison, b.poison)?;
    let test = holds_where(terms, operands, predicate, a.number, b.number, width)?;
    let poison = either(terms, operands, unlike)?;
    let value = truth_value(terms, poison, test)?;
    Ok(value)
}

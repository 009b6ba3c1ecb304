//! Products of a number with factors, and sums of these, modulo a power of 2.

ghost use Rattle.std.specs.Prelude.{◌≡◌, ◌<◌, ◌≤◌, ◌+◌, ◌*◌, ◌%◌, ◌^◌, ℕ, List, [], ◌∷◌, IfSome, IsTrue, length, slice_index_or};
ghost use Rattle.bv_terms.specs.declared.term.Term.{Term};
ghost use Rattle.bv_terms.specs.Trees.{IsWidth};
ghost use Rattle.term_sums.specs.Polynomials.{factors_value, monomial_value, sum_value};

use arrayvec::ArrayVec;
use bv_terms::TermId;
use known_values::numbers;

/// At most so many factors are in a product.
pub const FACTORS: usize = 8;

/// At most so many products are in a sum.
pub const MONOMIALS: usize = 32;

/// A factor that is not looked into: a term, the quotient of two terms, or 2 to the power of a term,
/// which is 0 from the width on.
#[derive(Clone, Copy)]
pub enum Factor {
    Term(TermId),
    Quotient(TermId, TermId),
    Power(TermId),
}

impl Default for Factor {
    fn default() -> Self {
        Factor::Term(TermId { index: 0 })
    }
}

/// The product of a number and factors, which are in an order of their own.
#[derive(Default, Drop)]
pub struct Monomial {
    pub coefficient: u128,
    pub factors: ArrayVec<Factor, FACTORS>,
}

/// Whether two factors are the same.
fn is_same(a: Factor, b: Factor) -> bool
    ensures { IsTrue result → a ≡ b }
{
    match (a, b) {
        (Factor::Term(x), Factor::Term(y)) => x.index == y.index,
        (Factor::Power(x), Factor::Power(y)) => x.index == y.index,
        (Factor::Quotient(x, y), Factor::Quotient(z, w)) => x.index == z.index
            && y.index == w.index,
        _ => false,
    }
}

/// A number by which factors are ordered: those that differ may have the same one.
fn rank(factor: Factor) -> usize {
    match factor {
        Factor::Term(a) => a.index,
        Factor::Quotient(a, _) => a.index,
        Factor::Power(a) => a.index,
    }
}

/// Where a factor goes among factors that are in order.
fn place(factors: &[Factor], factor: Factor) -> usize
    ensures { result ≤ length factors.now }
{
    for (index, other) in factors.iter().enumerate() {
        if rank(factor) < rank(*other) {
            return index;
        }
    }
    factors.len()
}

/// Factors with one more, if there is room.
pub fn with_factor(factors: &[Factor], factor: Factor) -> Option<ArrayVec<Factor, FACTORS>>
    ensures { IfSome result (λ r. (v : ℕ → ℕ → ℕ) (terms : List Term) (width : ℕ) →
        factors_value v terms width r.items ≡ factors_value v terms width factors.now * factors_value v terms width (factor ∷ [])) }
{
    let mut all = ArrayVec::try_from(factors).ok()?;
    let at = place(factors, factor);
    all.try_insert(at, factor).ok()?;
    Some(all)
}

/// Whether two lists of factors are the same.
pub fn are_same(a: &[Factor], b: &[Factor]) -> bool
    ensures { IsTrue result → a.now ≡ b.now }
{
    if a.len() != b.len() {
        return false;
    }
    for index in 0..a.len() {
        if !is_same(a[index], b[index]) {
            return false;
        }
    }
    true
}

/// Where a product with these factors is in a sum.
fn position(monomials: &[Monomial], factors: &[Factor]) -> Option<usize>
    ensures within { IfSome result (λ i. i < length monomials.now) }
    ensures same { IfSome result (λ i. (d : Monomial) → (slice_index_or monomials.now i d).factors.items ≡ factors.now) }
{
    for (index, monomial) in monomials.iter().enumerate() {
        if are_same(monomial.factors.as_slice(), factors) {
            return Some(index);
        }
    }
    None
}

/// Adds a product to a sum, unless its number is 0; `None` where there is no room.
fn push(sum: &mut ArrayVec<Monomial, MONOMIALS>, monomial: Monomial) -> Option<()>
    ensures { IfSome result (λ _. (v : ℕ → ℕ → ℕ) (terms : List Term) (width : ℕ) →
        sum_value v terms width sum.new.items ≡ sum_value v terms width sum.old.items + monomial_value v terms width monomial) }
{
    if monomial.coefficient == 0 {
        return Some(());
    }
    sum.try_push(monomial).ok()?;
    Some(())
}

/// Adds a product to a sum modulo a power of 2; `None` where there is no room.
pub fn add(sum: &mut ArrayVec<Monomial, MONOMIALS>, monomial: Monomial, width: u32) -> Option<()>
    requires { IsWidth width }
    ensures { IfSome result (λ _. (v : ℕ → ℕ → ℕ) (terms : List Term) →
        sum_value v terms width sum.new.items % 2 ^ width ≡ (sum_value v terms width sum.old.items + monomial_value v terms width monomial) % 2 ^ width) }
{
    match position(sum.as_slice(), monomial.factors.as_slice()) {
        Some(index) => {
            // add (mul X, C1), (mul X, C2) --> mul X, (C1 + C2)
            let other = sum.remove(index);
            let coefficient = numbers::sum(other.coefficient, monomial.coefficient, width);
            let factors = monomial.factors;
            push(
                sum,
                Monomial {
                    coefficient,
                    factors,
                },
            )?;
            Some(())
        }
        None => {
            push(sum, monomial)?;
            Some(())
        }
    }
}

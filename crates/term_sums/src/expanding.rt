//! Terms as sums of products, modulo 2 to the power of their width.
//!
//! Sums, differences, products and shifts to the left are multiplied out, and a remainder is the
//! dividend without the quotient times the divisor; what else a term is counts as one factor. So terms
//! are equal whose sums are the same (the normal form of polynomials that solvers of bit vectors use).

ghost use Rattle.std.specs.Prelude.{◌≡◌, ◌<◌, ◌≤◌, ◌+◌, ◌-◌, ◌*◌, ◌%◌, ◌^◌, ℕ, List, IfSome, IsTrue, length, slice_index_or};
ghost use Rattle.bv_terms.specs.declared.term.Term.{Term as TermNow};
ghost use Rattle.bv_terms.specs.Tree.{remainder, shifted_left, width_of};
ghost use Rattle.bv_terms.specs.Trees.{IsWidth, term_at, tree_in};
ghost use Rattle.term_sums.specs.declared.expanding.Product.{Product as ProductNow};
ghost use Rattle.term_sums.specs.Polynomials.{AddsTo, AreTrue, IsDifferenceOf, factor_value, product_value, sum_value, work_value};

use crate::facts::{Fact, known_by_facts};
use crate::monomials::{FACTORS, Factor, MONOMIALS, Monomial, add, are_same, with_factor};
use crate::reading::{number, term};
use arrayvec::ArrayVec;
use bv_terms::{BinaryOp, Term, TermId, Terms};
use known_values::numbers;

/// At most so many products wait to be multiplied out.
const PRODUCTS: usize = 64;

/// At most so many terms of a product wait to be looked into.
const TERMS: usize = 8;

/// How many terms are looked into.
const STEPS: u32 = 512;

/// A product of a number, factors, and terms that are still to be looked into, by their indices.
#[derive(Default, Drop)]
struct Product {
    coefficient: u128,
    factors: ArrayVec<Factor, FACTORS>,
    pending: ArrayVec<usize, TERMS>,
}

/// The product times a number.
fn times(product: &Product, by: u128, width: u32) -> Option<Product>
    requires { IsWidth width }
    ensures { IfSome result (λ p. (v : ℕ → ℕ → ℕ) (terms : List TermNow) →
        product_value v terms width p % 2 ^ width ≡ (product_value v terms width product.now * by) % 2 ^ width) }
{
    let coefficient = numbers::product(product.coefficient, by, width);
    let factors = ArrayVec::try_from(product.factors.as_slice()).ok()?;
    let pending = ArrayVec::try_from(product.pending.as_slice()).ok()?;
    Some(Product {
        coefficient,
        factors,
        pending,
    })
}

/// Where a term goes among terms that are in order.
fn place(pending: &[usize], index: usize) -> usize
    ensures { result ≤ length pending.now }
{
    for (place, other) in pending.iter().enumerate() {
        if index < *other {
            return place;
        }
    }
    pending.len()
}

/// The product times a number and a term.
fn times_term(product: &Product, by: u128, a: TermId, width: u32) -> Option<Product>
    requires { IsWidth width }
    ensures { IfSome result (λ p. (v : ℕ → ℕ → ℕ) (terms : List TermNow) →
        product_value v terms width p % 2 ^ width ≡ (product_value v terms width product.now * by * term_at v terms a) % 2 ^ width) }
{
    let mut made = times(product, by, width)?;
    let at = place(made.pending.as_slice(), a.index);
    made.pending.try_insert(at, a.index).ok()?;
    Some(made)
}

/// Whether two lists of indices are the same.
fn are_same_indices(a: &[usize], b: &[usize]) -> bool
    ensures { IsTrue result → a.now ≡ b.now }
{
    if a.len() != b.len() {
        return false;
    }
    for index in 0..a.len() {
        if a[index] != b[index] {
            return false;
        }
    }
    true
}

/// Where there is a product with the factors and terms of another one.
fn position(work: &[Product], product: &Product) -> Option<usize>
    ensures within { IfSome result (λ i. i < length work.now) }
    ensures factors { IfSome result (λ i. (d : ProductNow) → (slice_index_or work.now i d).factors.items ≡ product.now.factors.items) }
    ensures pending { IfSome result (λ i. (d : ProductNow) → (slice_index_or work.now i d).pending.items ≡ product.now.pending.items) }
{
    for (index, other) in work.iter().enumerate() {
        if are_same(other.factors.as_slice(), product.factors.as_slice())
            && are_same_indices(other.pending.as_slice(), product.pending.as_slice())
        {
            return Some(index);
        }
    }
    None
}

/// Adds a product that is not there yet.
fn push(work: &mut ArrayVec<Product, PRODUCTS>, product: Product) -> Option<()>
    ensures { IfSome result (λ _. (v : ℕ → ℕ → ℕ) (terms : List TermNow) (width : ℕ) →
        work_value v terms width work.new.items ≡ work_value v terms width work.old.items + product_value v terms width product) }
{
    if product.coefficient == 0 {
        return Some(());
    }
    work.try_push(product).ok()?;
    Some(())
}

/// Adds a product: products with the same factors and terms are one.
fn join(work: &mut ArrayVec<Product, PRODUCTS>, product: Product, width: u32) -> Option<()>
    requires { IsWidth width }
    ensures { IfSome result (λ _. (v : ℕ → ℕ → ℕ) (terms : List TermNow) →
        AddsTo width (work_value v terms width work.old.items) (work_value v terms width work.new.items) (product_value v terms width product)) }
{
    match position(work.as_slice(), &product) {
        Some(index) => {
            let other = work.remove(index);
            let coefficient = numbers::sum(other.coefficient, product.coefficient, width);
            let Product {
                factors,
                pending,
                ..
            } = product;
            push(
                work,
                Product {
                    coefficient,
                    factors,
                    pending,
                },
            )?;
        }
        None => push(work, product)?,
    }
    Some(())
}

/// Adds the product times a number.
fn put(
    work: &mut ArrayVec<Product, PRODUCTS>,
    product: &Product,
    by: u128,
    width: u32,
) -> Option<()>
    requires { IsWidth width }
    ensures { IfSome result (λ _. (v : ℕ → ℕ → ℕ) (terms : List TermNow) →
        AddsTo width (work_value v terms width work.old.items) (work_value v terms width work.new.items) (product_value v terms width product.now * by)) }
{
    let made = times(product, by, width)?;
    join(work, made, width)?;
    Some(())
}

/// Adds the product times a number and a term.
fn put_term(
    work: &mut ArrayVec<Product, PRODUCTS>,
    product: &Product,
    by: u128,
    a: TermId,
    width: u32,
) -> Option<()>
    requires { IsWidth width }
    ensures { IfSome result (λ _. (v : ℕ → ℕ → ℕ) (terms : List TermNow) →
        AddsTo width (work_value v terms width work.old.items) (work_value v terms width work.new.items) (product_value v terms width product.now * by * term_at v terms a)) }
{
    let made = times_term(product, by, a, width)?;
    join(work, made, width)?;
    Some(())
}

/// Adds the product times a term.
fn put_same(
    work: &mut ArrayVec<Product, PRODUCTS>,
    product: &Product,
    a: TermId,
    width: u32,
) -> Option<()>
    requires { IsWidth width }
    ensures { IfSome result (λ _. (v : ℕ → ℕ → ℕ) (terms : List TermNow) →
        AddsTo width (work_value v terms width work.old.items) (work_value v terms width work.new.items) (product_value v terms width product.now * term_at v terms a)) }
{
    put_term(work, product, 1, a, width)?;
    Some(())
}

/// The product times a factor.
fn times_factor(product: &Product, factor: Factor) -> Option<Product>
    ensures { IfSome result (λ p. (v : ℕ → ℕ → ℕ) (terms : List TermNow) (width : ℕ) →
        product_value v terms width p ≡ product_value v terms width product.now * factor_value v terms width factor) }
{
    let factors = with_factor(product.factors.as_slice(), factor)?;
    let pending = ArrayVec::try_from(product.pending.as_slice()).ok()?;
    Some(Product {
        coefficient: product.coefficient,
        factors,
        pending,
    })
}

/// Adds the product times a sum.
// mul P, (add X, Y) --> add (mul P, X), (mul P, Y)
fn put_sum(
    work: &mut ArrayVec<Product, PRODUCTS>,
    product: &Product,
    a: TermId,
    b: TermId,
    width: u32,
) -> Option<()>
    requires { IsWidth width }
    ensures { IfSome result (λ _. (v : ℕ → ℕ → ℕ) (terms : List TermNow) →
        AddsTo width (work_value v terms width work.old.items) (work_value v terms width work.new.items)
        (product_value v terms width product.now * ((term_at v terms a + term_at v terms b) % 2 ^ width))) }
{
    put_term(work, product, 1, a, width)?;
    put_term(work, product, 1, b, width)?;
    Some(())
}

/// Adds the product times a difference.
// mul P, (sub X, Y) --> add (mul P, X), (mul P, (mul -1, Y))
fn put_difference(
    work: &mut ArrayVec<Product, PRODUCTS>,
    product: &Product,
    a: TermId,
    b: TermId,
    width: u32,
) -> Option<()>
    requires { IsWidth width }
    ensures { IfSome result (λ _. (v : ℕ → ℕ → ℕ) (terms : List TermNow) → term_at v terms b < 2 ^ width →
        AddsTo width (work_value v terms width work.old.items) (work_value v terms width work.new.items)
        (product_value v terms width product.now * ((term_at v terms a + (2 ^ width - term_at v terms b)) % 2 ^ width))) }
{
    put_term(work, product, 1, a, width)?;
    put_term(work, product, numbers::ones(width), b, width)?;
    Some(())
}

/// Adds the product times a product.
// mul P, (mul X, Y) --> mul (mul P, X), Y
fn put_product(
    work: &mut ArrayVec<Product, PRODUCTS>,
    product: &Product,
    a: TermId,
    b: TermId,
    width: u32,
) -> Option<()>
    requires { IsWidth width }
    ensures { IfSome result (λ _. (v : ℕ → ℕ → ℕ) (terms : List TermNow) →
        AddsTo width (work_value v terms width work.old.items) (work_value v terms width work.new.items)
        (product_value v terms width product.now * ((term_at v terms a * term_at v terms b) % 2 ^ width))) }
{
    let first = times_term(product, 1, a, width)?;
    put_term(work, &first, 1, b, width)?;
    Some(())
}

/// Adds the product times a remainder.
// urem X, Y --> sub X, (mul (udiv X, Y), Y)
fn put_remainder(
    work: &mut ArrayVec<Product, PRODUCTS>,
    product: &Product,
    a: TermId,
    b: TermId,
    width: u32,
) -> Option<()>
    requires { IsWidth width }
    ensures { IfSome result (λ _. (v : ℕ → ℕ → ℕ) (terms : List TermNow) → term_at v terms a < 2 ^ width →
        AddsTo width (work_value v terms width work.old.items) (work_value v terms width work.new.items)
        (product_value v terms width product.now * remainder (term_at v terms a) (term_at v terms b))) }
{
    put_term(work, product, 1, a, width)?;
    let taken = times_factor(product, Factor::Quotient(a, b))?;
    put_term(work, &taken, numbers::ones(width), b, width)?;
    Some(())
}

/// Adds the product times a term with each bit inverted.
// xor X, -1 --> sub (mul -1, X), 1
fn put_inverse(
    work: &mut ArrayVec<Product, PRODUCTS>,
    product: &Product,
    a: TermId,
    width: u32,
) -> Option<()>
    requires { IsWidth width }
    ensures { IfSome result (λ _. (v : ℕ → ℕ → ℕ) (terms : List TermNow) → term_at v terms a < 2 ^ width →
        AddsTo width (work_value v terms width work.old.items) (work_value v terms width work.new.items)
        (product_value v terms width product.now * (2 ^ width - 1 - term_at v terms a))) }
{
    let opposite = numbers::ones(width);
    put_term(work, product, opposite, a, width)?;
    put(work, product, opposite, width)?;
    Some(())
}

/// Adds the product times a factor.
fn put_factor(
    work: &mut ArrayVec<Product, PRODUCTS>,
    product: &Product,
    factor: Factor,
    width: u32,
) -> Option<()>
    requires { IsWidth width }
    ensures { IfSome result (λ _. (v : ℕ → ℕ → ℕ) (terms : List TermNow) →
        AddsTo width (work_value v terms width work.old.items) (work_value v terms width work.new.items)
        (product_value v terms width product.now * factor_value v terms width factor)) }
{
    let made = times_factor(product, factor)?;
    put(work, &made, 1, width)?;
    Some(())
}

/// Adds the product times a term shifted left.
// shl X, C --> mul X, (shl 1, C)
// shl X, Y --> mul X, (shl 1, Y)
fn put_shifted(
    terms: &Terms,
    work: &mut ArrayVec<Product, PRODUCTS>,
    product: &Product,
    a: TermId,
    b: TermId,
    width: u32,
) -> Option<()>
    requires wide { IsWidth width }
    requires within { b.index < length terms.now }
    ensures { IfSome result (λ _. (v : ℕ → ℕ → ℕ) →
        AddsTo width (work_value v terms.now width work.old.items) (work_value v terms.now width work.new.items)
        (product_value v terms.now width product.now * shifted_left width (term_at v terms.now a) (term_at v terms.now b))) }
{
    match number(terms, b) {
        Some(by) => put_term(work, product, numbers::moved_up(1, by, width), a, width)?,
        None => {
            let made = times_factor(product, Factor::Power(b))?;
            put_term(work, &made, 1, a, width)?;
        }
    }
    Some(())
}

/// Adds the product times a term of the width, where the facts are true.
fn put_expanded(
    terms: &Terms,
    facts: &[Fact],
    work: &mut ArrayVec<Product, PRODUCTS>,
    product: &Product,
    a: TermId,
    width: u32,
) -> Option<()>
    requires within { a.index < length terms.now }
    requires wide { width_of (tree_in terms.now a) ≡ width }
    ensures { IfSome result (λ _. (v : ℕ → ℕ → ℕ) → AreTrue v terms.now facts.now →
        AddsTo width (work_value v terms.now width work.old.items) (work_value v terms.now width work.new.items)
        (product_value v terms.now width product.now * term_at v terms.now a)) }
{
    terms.values_fit();
    let _valid = terms.width(a);
    match term(terms, a) {
        Term::Constant { value, .. } => put(work, product, value, width),
        Term::Not { a: inner, .. } => put_inverse(work, product, inner, width),
        Term::Binary(BinaryOp::Add, x, y, _) => put_sum(work, product, x, y, width),
        Term::Binary(BinaryOp::Sub, x, y, _) => put_difference(work, product, x, y, width),
        Term::Binary(BinaryOp::Mul, x, y, _) => put_product(work, product, x, y, width),
        Term::Binary(BinaryOp::Urem, x, y, _) => put_remainder(work, product, x, y, width),
        Term::Binary(BinaryOp::Shl, x, y, _) => put_shifted(terms, work, product, x, y, width),
        Term::Binary(BinaryOp::Udiv, x, y, _) => put_factor(
            work,
            product,
            Factor::Quotient(x, y),
            width,
        ),
        Term::Zext { a: inner, .. } => put_factor(work, product, Factor::Term(inner), width),
        // select C, X, Y --> X, if C is true; --> Y, if C is false
        Term::Ite { c, a: x, b: y, .. } => match known_by_facts(terms, facts, c) {
            Some(true) => put_same(work, product, x, width),
            Some(false) => put_same(work, product, y, width),
            None => put_factor(work, product, Factor::Term(a), width),
        },
        _ => put_factor(work, product, Factor::Term(a), width),
    }
}

/// Adds a product to the sum where nothing of it is left to be looked into, and else what it is once one
/// of its terms is looked into to the work.
fn put_further(
    terms: &Terms,
    facts: &[Fact],
    work: &mut ArrayVec<Product, PRODUCTS>,
    sum: &mut ArrayVec<Monomial, MONOMIALS>,
    product: Product,
    width: u32,
) -> Option<()>
    requires { IsWidth width }
    ensures { IfSome result (λ _. (v : ℕ → ℕ → ℕ) → AreTrue v terms.now facts.now →
        AddsTo width (work_value v terms.now width work.old.items + sum_value v terms.now width sum.old.items)
        (work_value v terms.now width work.new.items + sum_value v terms.now width sum.new.items)
        (product_value v terms.now width product)) }
{
    let mut rest = product;
    match rest.pending.pop() {
        None => {
            let monomial = Monomial {
                coefficient: rest.coefficient,
                factors: rest.factors,
            };
            add(sum, monomial, width)?;
        }
        Some(index) => {
            let a = TermId { index };
            if index >= terms.as_slice().len() || terms.width(a) != width {
                return None;
            }
            put_expanded(terms, facts, work, &rest, a, width)?;
        }
    }
    Some(())
}

/// The product whose next term was made last: what is added to it later comes from earlier terms alone.
fn next(work: &[Product]) -> Option<usize>
    ensures { IfSome result (λ i. i < length work.now) }
{
    let mut found = None;
    let mut highest = 0;
    for (index, product) in work.iter().enumerate() {
        let term = match product.pending.as_slice().last() {
            Some(last) => *last,
            None => 0,
        };
        if found.is_none() || highest < term {
            found = Some(index);
            highest = term;
        }
    }
    found
}

/// Adds what is in the work to the sum, where the facts are true.
fn expand(
    terms: &Terms,
    facts: &[Fact],
    work: &mut ArrayVec<Product, PRODUCTS>,
    sum: &mut ArrayVec<Monomial, MONOMIALS>,
    width: u32,
) -> Option<()>
    requires { IsWidth width }
    ensures { IfSome result (λ _. (v : ℕ → ℕ → ℕ) → AreTrue v terms.now facts.now →
        AddsTo width (sum_value v terms.now width sum.old.items) (sum_value v terms.now width sum.new.items) (work_value v terms.now width work.old.items)) }
{
    for _ in 0..STEPS {
        match next(work.as_slice()) {
            None => break,
            Some(index) => {
                let product = work.remove(index);
                put_further(terms, facts, work, sum, product, width)?;
            }
        }
    }
    if work.is_empty() { Some(()) } else { None }
}

/// The first term without the second as a sum, where the facts are true.
pub fn difference_as_sum(
    terms: &Terms,
    facts: &[Fact],
    a: TermId,
    b: TermId,
) -> Option<ArrayVec<Monomial, MONOMIALS>>
    requires a { a.index < length terms.now }
    requires b { b.index < length terms.now }
    requires alike { width_of (tree_in terms.now a) ≡ width_of (tree_in terms.now b) }
    ensures { IfSome result (λ sum. (v : ℕ → ℕ → ℕ) → AreTrue v terms.now facts.now →
        IsDifferenceOf v terms.now a b (sum_value v terms.now (width_of (tree_in terms.now a)) sum.items)) }
{
    terms.values_fit();
    let width = terms.width(a);
    let one = Product {
        coefficient: 1,
        factors: ArrayVec::new(),
        pending: ArrayVec::new(),
    };
    let mut work = ArrayVec::new();
    put_difference(&mut work, &one, a, b, width)?;
    let mut sum = ArrayVec::new();
    expand(terms, facts, &mut work, &mut sum, width)?;
    Some(sum)
}

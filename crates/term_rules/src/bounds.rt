//! Numbers that surely are small, and sums that surely don't wrap.

ghost use Rattle.std.specs.Prelude.{◌≡◌, ◌<◌, ◌≤◌, ◌-◌, ◌^◌, ℕ, IsTrue, false, length};
ghost use Rattle.bv_terms.specs.Tree.{is_negative, width_of};
ghost use Rattle.bv_terms.specs.Trees.{term_at, tree_in};
ghost use Rattle.term_rules.specs.Forms.{IsReduced};

use bv_terms::{BinaryOp, Term, TermId, Terms};
use known_values::numbers::ones;
use term_sums::{number, term};

/// How many bits the number surely fits: those that it had before it was widened.
fn bits_before(terms: &Terms, a: TermId) -> u32
    requires { a.index < length terms.now }
    ensures range { (v : ℕ → ℕ → ℕ) → term_at v terms.now a < 2 ^ result }
    ensures least { 1 ≤ result }
    ensures most { result ≤ 128 }
{
    terms.values_fit();
    match term(terms, a) {
        // zext iN X to iM u< (1 << N)
        Term::Zext { a: inner, .. } => terms.width(inner),
        // iN X u< (1 << N)
        _ => terms.width(a),
    }
}

/// Whether the number surely is in the lower half of its width: it was widened, or is a product of
/// two numbers of few bits.
fn is_small(terms: &Terms, a: TermId) -> bool
    requires { a.index < length terms.now }
    ensures { IsTrue result → (v : ℕ → ℕ → ℕ) → term_at v terms.now a < 2 ^ (width_of (tree_in terms.now a) - 1) }
{
    terms.values_fit();
    let width = terms.width(a);
    match term(terms, a) {
        // zext iN X to iM u< (1 << (M - 1)), if N < M
        Term::Zext { a: inner, .. } => terms.width(inner) < width,
        // mul (zext iN X to iM), (zext iK Y to iM) u< (1 << (M - 1)), if N + K < M
        Term::Binary(BinaryOp::Mul, first, second, _) => bits_before(terms, first)
            + bits_before(terms, second)
            < width,
        _ => false,
    }
}

/// Whether the first surely is no less than the second: a sum with it, of small numbers.
pub fn is_sum_with(terms: &Terms, a: TermId, b: TermId) -> bool
    requires a { a.index < length terms.now }
    requires b { b.index < length terms.now }
    ensures { IsTrue result → (v : ℕ → ℕ → ℕ) → term_at v terms.now b ≤ term_at v terms.now a }
{
    match term(terms, a) {
        // icmp ult (add X, Y), X --> false, if X and Y u< (1 << (width - 1))
        // icmp ult (add X, Y), Y --> false, under the same condition
        Term::Binary(BinaryOp::Add, first, second, _) => {
            if is_small(terms, first) {
                if is_small(terms, second) {
                    return first.index == b.index || second.index == b.index;
                }
            }
            false
        }
        _ => false,
    }
}

/// A number that the term is never above, by the number that it is divided by, masked with or shifted
/// right by, or by its width before it was widened.
pub fn most(terms: &Terms, a: TermId) -> u128
    requires { a.index < length terms.now }
    ensures { (v : ℕ → ℕ → ℕ) → term_at v terms.now a ≤ result }
{
    terms.values_fit();
    // zext iN X to iM u<= (1 << N) - 1
    let bound = ones(bits_before(terms, a));
    match term(terms, a) {
        // urem X, C u<= C - 1, if C != 0
        Term::Binary(BinaryOp::Urem, _, second, _) => match number(terms, second) {
            Some(by) if by > 0 => by - 1,
            _ => bound,
        },
        // udiv (zext iN X to iM), C u<= ((1 << N) - 1) / C, if C != 0
        Term::Binary(BinaryOp::Udiv, first, second, _) => match number(terms, second) {
            Some(by) if by > 0 => ones(bits_before(terms, first)) / by,
            _ => bound,
        },
        // and X, C u<= C
        Term::Binary(BinaryOp::And, _, second, _) => match number(terms, second) {
            Some(mask) => mask,
            None => bound,
        },
        // lshr (zext iN X to iM), C u<= ((1 << N) - 1) >> C, if C < 128
        Term::Binary(BinaryOp::Lshr, first, second, _) => match number(terms, second) {
            Some(count) if count < 128 => ones(bits_before(terms, first)) >> count as u32,
            _ => bound,
        },
        _ => bound,
    }
}

/// Whether the term surely is not negative.
pub fn has_no_sign(terms: &Terms, a: TermId) -> bool
    requires { a.index < length terms.now }
    ensures { IsTrue result → (v : ℕ → ℕ → ℕ) → is_negative (width_of (tree_in terms.now a)) (term_at v terms.now a) ≡ false }
{
    // icmp slt X, 0 --> false, if most(X) u< (1 << (width - 1))
    let width = terms.width(a);
    most(terms, a) < 1 << (width - 1)
}

/// Whether the first surely is less than the second: a constant above each number that the first can
/// be.
pub fn is_below_number(terms: &Terms, a: TermId, b: TermId) -> bool
    requires a { a.index < length terms.now }
    requires b { b.index < length terms.now }
    ensures { IsTrue result → (v : ℕ → ℕ → ℕ) → term_at v terms.now a < term_at v terms.now b }
{
    match number(terms, b) {
        // icmp ult X, C --> true, if most(X) u< C
        Some(value) => value > most(terms, a),
        None => false,
    }
}

/// Whether the first plainly is what a division by the second leaves.
pub fn is_remainder_by(terms: &Terms, a: TermId, b: TermId) -> bool
    requires a { a.index < length terms.now }
    requires b { b.index < length terms.now }
    ensures { IsTrue result → IsReduced terms.now a b }
{
    match term(terms, a) {
        // icmp ult (urem X, Y), Y --> icmp ne Y, 0
        Term::Binary(BinaryOp::Urem, _, second, _) => second.index == b.index,
        _ => false,
    }
}

/// Whether the second plainly is what a division of the first leaves.
pub fn leaves(terms: &Terms, a: TermId, b: TermId) -> bool
    requires a { a.index < length terms.now }
    requires b { b.index < length terms.now }
    ensures { IsTrue result → (v : ℕ → ℕ → ℕ) → term_at v terms.now b ≤ term_at v terms.now a }
{
    match term(terms, b) {
        // icmp ult X, (urem X, Y) --> false
        Term::Binary(BinaryOp::Urem, first, _, _) => first.index == a.index,
        _ => false,
    }
}

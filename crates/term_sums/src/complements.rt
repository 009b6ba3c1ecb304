//! Terms and their inverses.

ghost use Rattle.std.specs.Prelude.{◌≡◌, ◌<◌, ◌-◌, ◌^◌, ℕ, IfSome, IsTrue, bit_and, bit_or, length};
ghost use Rattle.bv_terms.specs.Tree.{width_of};
ghost use Rattle.bv_terms.specs.Trees.{term_at, tree_in};
ghost use Rattle.term_sums.specs.Findings.{IsAndPart, IsOrPart};

use crate::reading::term;
use bv_terms::{BinaryOp, Term, TermId, Terms};

/// Whether the first is plainly the second with each bit inverted.
// xor X, -1 and X
fn is_inverse(terms: &Terms, a: TermId, b: TermId) -> bool
    requires a { a.index < length terms.now }
    requires b { b.index < length terms.now }
    ensures { IsTrue result → (v : ℕ → ℕ → ℕ) → term_at v terms.now a ≡ 2 ^ width_of (tree_in terms.now a) - 1 - term_at v terms.now b }
{
    match term(terms, a) {
        Term::Not { a: turned, .. } => turned.index == b.index,
        _ => false,
    }
}

/// Whether one is plainly the other with each bit inverted.
pub fn are_inverse(terms: &Terms, a: TermId, b: TermId) -> bool
    requires a { a.index < length terms.now }
    requires b { b.index < length terms.now }
    requires alike { width_of (tree_in terms.now a) ≡ width_of (tree_in terms.now b) }
    ensures { IsTrue result → (v : ℕ → ℕ → ℕ) → term_at v terms.now b ≡ 2 ^ width_of (tree_in terms.now a) - 1 - term_at v terms.now a }
{
    terms.values_fit();
    is_inverse(terms, b, a) || is_inverse(terms, a, b)
}

/// Whether an operand of the first, a conjunction, is plainly the inverse of the second.
// and (and X, (xor Y, -1)), Y --> 0
fn excludes(terms: &Terms, a: TermId, b: TermId) -> bool
    requires a { a.index < length terms.now }
    requires b { b.index < length terms.now }
    requires alike { width_of (tree_in terms.now a) ≡ width_of (tree_in terms.now b) }
    ensures { IsTrue result → (v : ℕ → ℕ → ℕ) → bit_and (term_at v terms.now a) (term_at v terms.now b) ≡ 0 }
{
    terms.values_fit();
    match term(terms, a) {
        Term::Binary(BinaryOp::And, first, second, _) => {
            if are_inverse(terms, first, b) {
                return true;
            }
            are_inverse(terms, second, b)
        }
        _ => false,
    }
}

/// Whether the two plainly have no bit in common.
// and X, (xor X, -1) --> 0
pub fn are_apart(terms: &Terms, a: TermId, b: TermId) -> bool
    requires a { a.index < length terms.now }
    requires b { b.index < length terms.now }
    requires alike { width_of (tree_in terms.now a) ≡ width_of (tree_in terms.now b) }
    ensures { IsTrue result → (v : ℕ → ℕ → ℕ) → bit_and (term_at v terms.now a) (term_at v terms.now b) ≡ 0 }
{
    terms.values_fit();
    if are_inverse(terms, a, b) {
        return true;
    }
    if excludes(terms, a, b) {
        return true;
    }
    excludes(terms, b, a)
}

/// Whether an operand of the first, a disjunction, is plainly the inverse of the second.
// or (or X, (xor Y, -1)), Y --> -1
fn completes(terms: &Terms, a: TermId, b: TermId) -> bool
    requires a { a.index < length terms.now }
    requires b { b.index < length terms.now }
    requires alike { width_of (tree_in terms.now a) ≡ width_of (tree_in terms.now b) }
    ensures { IsTrue result → (v : ℕ → ℕ → ℕ) → bit_or (term_at v terms.now a) (term_at v terms.now b) ≡ 2 ^ width_of (tree_in terms.now a) - 1 }
{
    terms.values_fit();
    match term(terms, a) {
        Term::Binary(BinaryOp::Or, first, second, _) => {
            if are_inverse(terms, first, b) {
                return true;
            }
            are_inverse(terms, second, b)
        }
        _ => false,
    }
}

/// Whether each bit plainly is 1 in either.
// or X, (xor X, -1) --> -1
pub fn are_whole(terms: &Terms, a: TermId, b: TermId) -> bool
    requires a { a.index < length terms.now }
    requires b { b.index < length terms.now }
    requires alike { width_of (tree_in terms.now a) ≡ width_of (tree_in terms.now b) }
    ensures { IsTrue result → (v : ℕ → ℕ → ℕ) → bit_or (term_at v terms.now a) (term_at v terms.now b) ≡ 2 ^ width_of (tree_in terms.now a) - 1 }
{
    terms.values_fit();
    if are_inverse(terms, a, b) {
        return true;
    }
    if completes(terms, a, b) {
        return true;
    }
    completes(terms, b, a)
}

/// What is left of the second, a disjunction, in a conjunction with the first: the operand other
/// than the first's inverse.
// and X, (or (xor X, -1), Y) --> and X, Y
pub fn left_of_or(terms: &Terms, a: TermId, b: TermId) -> Option<TermId>
    requires a { a.index < length terms.now }
    requires b { b.index < length terms.now }
    requires alike { width_of (tree_in terms.now a) ≡ width_of (tree_in terms.now b) }
    ensures { IfSome result (IsAndPart terms.now a b) }
{
    terms.values_fit();
    match term(terms, b) {
        Term::Binary(BinaryOp::Or, first, second, _) => {
            if are_inverse(terms, a, first) {
                return Some(second);
            }
            if are_inverse(terms, a, second) {
                return Some(first);
            }
            None
        }
        _ => None,
    }
}

/// What is left of the second, a conjunction, in a disjunction with the first: the operand other
/// than the first's inverse.
// or X, (and (xor X, -1), Y) --> or X, Y
pub fn left_of_and(terms: &Terms, a: TermId, b: TermId) -> Option<TermId>
    requires a { a.index < length terms.now }
    requires b { b.index < length terms.now }
    requires alike { width_of (tree_in terms.now a) ≡ width_of (tree_in terms.now b) }
    ensures { IfSome result (IsOrPart terms.now a b) }
{
    terms.values_fit();
    match term(terms, b) {
        Term::Binary(BinaryOp::And, first, second, _) => {
            if are_inverse(terms, a, first) {
                return Some(second);
            }
            if are_inverse(terms, a, second) {
                return Some(first);
            }
            None
        }
        _ => None,
    }
}

//! Terms as rules see them.

ghost use Rattle.std.specs.Prelude.{◌≡◌, ◌<◌, IfSome, length};
ghost use Rattle.bv_terms.specs.Trees.{AreMatched, IsWithin, tree_in, tree_of, trees_of};
ghost use Rattle.term_sums.specs.Findings.{IsNumber};

use bv_terms::{Term, TermId, Terms};

/// The term at an id, over earlier ones.
pub fn term(terms: &Terms, a: TermId) -> Term
    requires { a.index < length terms.now }
    ensures tree { tree_of (trees_of terms.now) result ≡ tree_in terms.now a }
    ensures within { IsWithin (length terms.now) result }
    ensures matched { AreMatched (trees_of terms.now) result }
{
    terms.as_slice()[a.index]
}

/// The number that the term is, if it is a constant.
pub fn number(terms: &Terms, a: TermId) -> Option<u128>
    requires { a.index < length terms.now }
    ensures { IfSome result (IsNumber terms.now a) }
{
    terms.values_fit();
    match term(terms, a) {
        Term::Constant { value, .. } => Some(value),
        _ => None,
    }
}

/// The numbers that two terms are, if both are constants.
pub fn numbers(terms: &Terms, a: TermId, b: TermId) -> Option<(u128, u128)>
    requires a { a.index < length terms.now }
    requires b { b.index < length terms.now }
    ensures { IfSome result (λ p. IsNumber terms.now a p.0 × IsNumber terms.now b p.1) }
{
    match (number(terms, a), number(terms, b)) {
        (Some(x), Some(y)) => Some((x, y)),
        _ => None,
    }
}

/// Whether the operands of a commutative operation are in order: constants last, and else by their
/// ids.
// add C, X --> add X, C
pub fn are_in_order(terms: &Terms, a: TermId, b: TermId) -> bool
    requires a { a.index < length terms.now }
    requires b { b.index < length terms.now }
{
    match (number(terms, a), number(terms, b)) {
        (Some(_), None) => false,
        (None, Some(_)) => true,
        _ => a.index <= b.index,
    }
}

//! Sums and differences with a quotient times its divisor.

ghost use Rattle.std.specs.Prelude.{◌<◌, IfSome, IsTrue, length};
ghost use Rattle.term_rules.specs.Forms.{IsMultiple, IsPart, IsQuotient};

use bv_terms::{BinaryOp, Term, TermId, Terms};
use term_sums::term;

/// Whether the term plainly is the quotient of the two.
// udiv A, B
fn is_quotient(terms: &Terms, q: TermId, a: TermId, b: TermId) -> bool
    requires q { q.index < length terms.now }
    requires a { a.index < length terms.now }
    requires b { b.index < length terms.now }
    ensures { IsTrue result → IsQuotient terms.now q a b }
{
    match term(terms, q) {
        Term::Binary(BinaryOp::Udiv, first, second, _) => first.index == a.index
            && second.index == b.index,
        _ => false,
    }
}

/// The divisor, if the second plainly is the quotient of the first by it, times it.
pub fn divisor(terms: &Terms, a: TermId, b: TermId) -> Option<TermId>
    requires a { a.index < length terms.now }
    requires b { b.index < length terms.now }
    ensures { IfSome result (IsMultiple terms.now a b) }
{
    match term(terms, b) {
        Term::Binary(BinaryOp::Mul, left, right, _) => {
            // sub X, (mul (udiv X, Y), Y) --> urem X, Y
            if is_quotient(terms, left, a, right) {
                return Some(right);
            }
            // sub X, (mul Y, (udiv X, Y)) --> urem X, Y
            if is_quotient(terms, right, a, left) {
                return Some(left);
            }
            None
        }
        _ => None,
    }
}

/// What is plainly the sum of the two: the first is a quotient of it times the divisor, and the second
/// is the remainder of that division.
// add (mul (udiv X, Y), Y), (urem X, Y) --> X
// add (mul Y, (udiv X, Y)), (urem X, Y) --> X
pub fn dividend(terms: &Terms, a: TermId, b: TermId) -> Option<TermId>
    requires a { a.index < length terms.now }
    requires b { b.index < length terms.now }
    ensures { IfSome result (IsPart terms.now a b) }
{
    terms.values_fit();
    match term(terms, b) {
        Term::Binary(BinaryOp::Urem, whole, second, _) => match divisor(terms, whole, a) {
            Some(first) if first.index == second.index => Some(whole),
            _ => None,
        },
        _ => None,
    }
}

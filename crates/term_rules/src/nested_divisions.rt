//! Divisions of what another division gave.

ghost use Rattle.std.specs.Prelude.{◌<◌, IfSome, length};
ghost use Rattle.term_rules.specs.Forms.{IsDivided, IsReducedFrom, IsWhole};

use crate::multiples::divisor;
use bv_terms::{BinaryOp, Term, TermId, Terms};
use term_sums::{number, term};

/// A term that is divided by a number other than 0.
#[derive(Clone, Copy)]
pub struct Division {
    pub a: TermId,
    pub by: u128,
}

/// The operands of a quotient by a number other than 0.
// udiv (udiv X, C1), C2 --> udiv X, C1 * C2 if C1 != 0 and mul nuw C1, C2
pub fn divided_by_number(terms: &Terms, q: TermId) -> Option<Division>
    requires { q.index < length terms.now }
    ensures { IfSome result (IsDivided terms.now q) }
{
    match term(terms, q) {
        Term::Binary(BinaryOp::Udiv, a, b, _) => match number(terms, b) {
            Some(by) if by > 0 => Some(Division { a, by }),
            _ => None,
        },
        _ => None,
    }
}

/// The dividend of a remainder by a multiple of the number.
// urem (urem X, C1), C2 --> urem X, C2 if C2 != 0 and C1 % C2 == 0
pub fn reduced_by_multiple(terms: &Terms, r: TermId, by: u128) -> Option<TermId>
    requires { r.index < length terms.now }
    ensures { IfSome result (IsReducedFrom terms.now r by) }
{
    match term(terms, r) {
        Term::Binary(BinaryOp::Urem, a, b, _) => match number(terms, b) {
            Some(first) if by > 0 && first % by == 0 => Some(a),
            _ => None,
        },
        _ => None,
    }
}

/// The dividend from which `a` plainly takes its remainder by `b`.
// udiv (sub X, (urem X, Y)), Y --> udiv X, Y
// urem (sub X, (urem X, Y)), Y --> 0
fn whole_of_difference(terms: &Terms, a: TermId, b: TermId) -> Option<TermId>
    requires a { a.index < length terms.now }
    requires b { b.index < length terms.now }
    ensures { IfSome result (IsWhole terms.now a b) }
{
    terms.values_fit();
    match term(terms, a) {
        Term::Binary(BinaryOp::Sub, whole, taken, _) => match term(terms, taken) {
            Term::Binary(BinaryOp::Urem, first, second, _)
                if first.index == whole.index && second.index == b.index => Some(whole),
            _ => None,
        },
        _ => None,
    }
}

/// The dividend of the quotient `q` by `b`, if `a` plainly is the product of these.
// udiv (mul (udiv X, Y), Y), Y --> udiv X, Y
// urem (mul (udiv X, Y), Y), Y --> 0
fn whole_of_quotient(terms: &Terms, a: TermId, b: TermId, q: TermId) -> Option<TermId>
    requires a { a.index < length terms.now }
    requires b { b.index < length terms.now }
    requires q { q.index < length terms.now }
    ensures { IfSome result (IsWhole terms.now a b) }
{
    match term(terms, q) {
        Term::Binary(BinaryOp::Udiv, whole, _, _) => match divisor(terms, whole, a) {
            Some(by) if by.index == b.index => Some(whole),
            _ => None,
        },
        _ => None,
    }
}

/// The dividend, if `a` plainly is what a division by `b` takes off it: the quotient times `b`, or
/// the dividend without the remainder.
pub fn whole_of_multiple(terms: &Terms, a: TermId, b: TermId) -> Option<TermId>
    requires a { a.index < length terms.now }
    requires b { b.index < length terms.now }
    ensures { IfSome result (IsWhole terms.now a b) }
{
    match term(terms, a) {
        // sub X, (urem X, Y)
        Term::Binary(BinaryOp::Sub, ..) => whole_of_difference(terms, a, b),
        Term::Binary(BinaryOp::Mul, left, right, _) => {
            // mul (udiv X, Y), Y
            let found = whole_of_quotient(terms, a, b, left);
            if found.is_some() {
                return found;
            }
            // mul Y, (udiv X, Y)
            whole_of_quotient(terms, a, b, right)
        }
        _ => None,
    }
}

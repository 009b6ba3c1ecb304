//! Comparisons of exact quotients by one number, and of products by one number that do not wrap.
//!
//! Where nothing is lost, they are in the order of the numbers that were divided or multiplied.

ghost use Rattle.std.specs.Prelude.{◌≡◌, ◌<◌, IfSome, length};
ghost use Rattle.bv_terms.specs.Tree.{width_of};
ghost use Rattle.bv_terms.specs.Trees.{tree_in};
ghost use Rattle.term_rules.specs.Wrapping.{HaveOneOrder, IsExactProduct, IsExactQuotient};

use crate::wrapping::{Pair, Plain, is_plain};
use bv_terms::{BinaryOp, Term, TermId, Terms};
use term_sums::{number, term};

/// A number, and what it is divided or multiplied by.
#[derive(Clone, Copy)]
pub struct Scaled {
    pub number: TermId,
    pub by: TermId,
}

/// What the term is the quotient of, if it plainly is one, exact where the condition is false.
fn exact_quotient(terms: &Terms, p: TermId, a: TermId) -> Option<Scaled>
    requires p { p.index < length terms.now }
    requires a { a.index < length terms.now }
    ensures { IfSome result (IsExactQuotient terms.now p a) }
{
    terms.values_fit();
    match term(terms, a) {
        Term::Binary(BinaryOp::Udiv, x, y, _) => {
            // udiv exact X, Y, where icmp ne (urem X, Y), 0 is a disjunct of the condition
            if is_plain(terms, p, Plain::Quotient { x, y }) {
                Some(Scaled { number: x, by: y })
            } else {
                None
            }
        }
        _ => None,
    }
}

/// What the term is the product of, if it plainly is one with a constant that is not 0, which does
/// not wrap where the condition is false.
fn exact_product(terms: &Terms, p: TermId, a: TermId) -> Option<Scaled>
    requires p { p.index < length terms.now }
    requires a { a.index < length terms.now }
    ensures { IfSome result (IsExactProduct terms.now p a) }
{
    terms.values_fit();
    match term(terms, a) {
        Term::Binary(BinaryOp::Mul, x, y, _) => match number(terms, y) {
            Some(value) if value > 0 => {
                // mul nuw X, C, if C != 0, where icmp ne H, 0 is a disjunct of the condition,
                // for H the high half of mul (zext X), (zext C) at twice the width
                if is_plain(terms, p, Plain::Product { x, y }) {
                    Some(Scaled { number: x, by: y })
                } else {
                    None
                }
            }
            _ => None,
        },
        _ => None,
    }
}

/// The numbers of which the two are exact quotients by one divisor.
fn dividends(terms: &Terms, p: TermId, a: TermId, b: TermId) -> Option<Pair>
    requires p { p.index < length terms.now }
    requires a { a.index < length terms.now }
    requires b { b.index < length terms.now }
    requires alike { width_of (tree_in terms.now a) ≡ width_of (tree_in terms.now b) }
    ensures { IfSome result (HaveOneOrder terms.now p a b) }
{
    let first = exact_quotient(terms, p, a)?;
    let second = exact_quotient(terms, p, b)?;
    // icmp ult (udiv exact X, Z), (udiv exact Y, Z) --> icmp ult X, Y
    if first.by.index == second.by.index {
        Some(Pair {
            first: first.number,
            second: second.number,
        })
    } else {
        None
    }
}

/// The numbers of which the two are products by one constant.
fn multiplicands(terms: &Terms, p: TermId, a: TermId, b: TermId) -> Option<Pair>
    requires p { p.index < length terms.now }
    requires a { a.index < length terms.now }
    requires b { b.index < length terms.now }
    ensures { IfSome result (HaveOneOrder terms.now p a b) }
{
    let first = exact_product(terms, p, a)?;
    let second = exact_product(terms, p, b)?;
    // icmp ult (mul nuw X, C), (mul nuw Y, C) --> icmp ult X, Y, if C != 0
    if first.by.index == second.by.index {
        Some(Pair {
            first: first.number,
            second: second.number,
        })
    } else {
        None
    }
}

/// Two terms that are in the order of these, as unsigned numbers, where the condition is false.
pub fn ordered_where(terms: &Terms, poison: TermId, a: TermId, b: TermId) -> Pair
    requires poison { poison.index < length terms.now }
    requires a { a.index < length terms.now }
    requires b { b.index < length terms.now }
    requires alike { width_of (tree_in terms.now a) ≡ width_of (tree_in terms.now b) }
    ensures { HaveOneOrder terms.now poison a b result }
{
    // icmp ult (udiv exact X, Z), (udiv exact Y, Z) --> icmp ult X, Y
    if let Some(pair) = dividends(terms, poison, a, b) {
        return pair;
    }
    // icmp ult (mul nuw X, C), (mul nuw Y, C) --> icmp ult X, Y, if C != 0
    if let Some(pair) = multiplicands(terms, poison, a, b) {
        return pair;
    }
    Pair {
        first: a,
        second: b,
    }
}

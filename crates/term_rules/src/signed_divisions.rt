//! Remainders in two's complement, of which only the quotients are there: `x - x / y * y`.

ghost use Rattle.std.specs.Prelude.{◌≡◌, ◌<◌, ◌≤◌, ◌+◌, ◌-◌, ◌*◌, ◌%◌, ◌^◌, ℕ, IfOk, IfSome, IsTrue, cond, length};
ghost use Rattle.bv_terms.specs.Tree.{remainder, width_of};
ghost use Rattle.bv_terms.specs.Trees.{Keeps, Makes, bit_at, term_at, tree_in};
ghost use Rattle.known_values.specs.Weight.{weight_of};
ghost use Rattle.term_rules.specs.Forms.{IsMagnitude, IsSignedMultiple, IsSignedQuotient, IsSizes};

use crate::arithmetic::difference;
use crate::building::build;
use crate::choices::choice;
use crate::divisions;
use crate::form::Form;
use crate::magnitudes::is_opposite;
use bv_terms::{BinaryOp, Term, TermId, Terms};
use support::NoMemory;
use term_sums::term;

/// The sign of a dividend, its magnitude and that of the divisor.
#[derive(Clone, Copy)]
pub struct SignedDivision {
    pub sign: TermId,
    pub first: TermId,
    pub second: TermId,
}

/// Whether `size` plainly is the magnitude of `a`, chosen by `sign`.
// select S, (sub 0, X), X
fn has_magnitude(terms: &Terms, a: TermId, sign: TermId, size: TermId) -> bool
    requires a { a.index < length terms.now }
    requires sign { sign.index < length terms.now }
    requires size { size.index < length terms.now }
    ensures { IsTrue result → IsMagnitude terms.now a sign size }
{
    terms.values_fit();
    match term(terms, size) {
        Term::Ite {
            c,
            a: first,
            b: second,
            ..
        } if c.index == sign.index && second.index == a.index => is_opposite(terms, first, second),
        _ => false,
    }
}

/// The parts of the quotient of the two magnitudes, if `size` plainly is that.
// udiv (select S, (sub 0, X), X), (select T, (sub 0, Y), Y)
fn sizes_divided(
    terms: &Terms,
    size: TermId,
    s: TermId,
    t: TermId,
    a: TermId,
    b: TermId,
) -> Option<SignedDivision>
    requires size { size.index < length terms.now }
    requires s { s.index < length terms.now }
    requires t { t.index < length terms.now }
    requires a { a.index < length terms.now }
    requires b { b.index < length terms.now }
    ensures { IfSome result (IsSizes terms.now size s t a b) }
{
    match term(terms, size) {
        Term::Binary(BinaryOp::Udiv, first, second, _) => {
            if has_magnitude(terms, a, s, first) {
                if has_magnitude(terms, b, t, second) {
                    return Some(SignedDivision {
                        sign: s,
                        first,
                        second,
                    });
                }
            }
            None
        }
        _ => None,
    }
}

/// The parts of the quotient of two numbers with signs, if `q` plainly is that.
// sdiv X, Y as select (xor S, T), (sub 0, Q), Q, where Q is udiv of the magnitudes
fn quotient_by_signed(terms: &Terms, q: TermId, a: TermId, b: TermId) -> Option<SignedDivision>
    requires q { q.index < length terms.now }
    requires a { a.index < length terms.now }
    requires b { b.index < length terms.now }
    ensures { IfSome result (IsSignedQuotient terms.now q a b) }
{
    terms.values_fit();
    match term(terms, q) {
        Term::Ite {
            c,
            a: opposite,
            b: size,
            ..
        } => match term(terms, c) {
            Term::Binary(BinaryOp::Xor, s, t, width) if width == 1 => {
                if is_opposite(terms, opposite, size) {
                    if let Some(parts) = sizes_divided(terms, size, s, t, a, b) {
                        return Some(parts);
                    }
                    if let Some(parts) = sizes_divided(terms, size, t, s, a, b) {
                        return Some(parts);
                    }
                }
                None
            }
            _ => None,
        },
        _ => None,
    }
}

/// The parts of the quotient by a number without a sign, if `q` plainly is that.
// sdiv X, Y as select S, (sub 0, Q), Q, where Q is udiv (select S, (sub 0, X), X), Y
fn quotient_by_unsigned(terms: &Terms, q: TermId, a: TermId, b: TermId) -> Option<SignedDivision>
    requires q { q.index < length terms.now }
    requires a { a.index < length terms.now }
    requires b { b.index < length terms.now }
    ensures { IfSome result (IsSignedQuotient terms.now q a b) }
{
    terms.values_fit();
    match term(terms, q) {
        Term::Ite {
            c,
            a: opposite,
            b: size,
            ..
        } => match term(terms, size) {
            Term::Binary(BinaryOp::Udiv, first, second, _) if second.index == b.index => {
                if is_opposite(terms, opposite, size) {
                    if has_magnitude(terms, a, c, first) {
                        return Some(SignedDivision {
                            sign: c,
                            first,
                            second,
                        });
                    }
                }
                None
            }
            _ => None,
        },
        _ => None,
    }
}

/// The parts of the quotient of the two, if `q` plainly is that.
fn signed_quotient(terms: &Terms, q: TermId, a: TermId, b: TermId) -> Option<SignedDivision>
    requires q { q.index < length terms.now }
    requires a { a.index < length terms.now }
    requires b { b.index < length terms.now }
    ensures { IfSome result (IsSignedQuotient terms.now q a b) }
{
    let found = quotient_by_unsigned(terms, q, a, b);
    if found.is_some() {
        return found;
    }
    quotient_by_signed(terms, q, a, b)
}

/// The parts of the quotient of the first by some divisor, if the second plainly is that quotient
/// times the divisor.
pub fn signed_multiple(terms: &Terms, a: TermId, b: TermId) -> Option<SignedDivision>
    requires a { a.index < length terms.now }
    requires b { b.index < length terms.now }
    ensures { IfSome result (IsSignedMultiple terms.now a b) }
{
    terms.values_fit();
    match term(terms, b) {
        Term::Binary(BinaryOp::Mul, left, right, _) => {
            // sub X, (mul (sdiv X, Y), Y) --> srem X, Y
            if let Some(parts) = signed_quotient(terms, left, a, right) {
                return Some(parts);
            }
            // sub X, (mul Y, (sdiv X, Y)) --> srem X, Y
            if let Some(parts) = signed_quotient(terms, right, a, left) {
                return Some(parts);
            }
            None
        }
        _ => None,
    }
}

/// The remainder of the division, with the sign of the dividend.
// srem X, Y as select S, (sub 0, R), R, where R is urem of the magnitudes
pub fn signed_remainder(terms: &mut Terms, parts: SignedDivision) -> Result<TermId, NoMemory>
    requires sign { parts.sign.index < length terms.old }
    requires bit { width_of (tree_in terms.old parts.sign) ≡ 1 }
    requires first { parts.first.index < length terms.old }
    requires second { parts.second.index < length terms.old }
    requires alike { width_of (tree_in terms.old parts.first) ≡ width_of (tree_in terms.old parts.second) }
    ensures made { IfOk result (λ id. Makes terms.new id (width_of (tree_in terms.old parts.first))
        (λ v. cond (bit_at v terms.old parts.sign)
        ((0 + (2 ^ width_of (tree_in terms.old parts.first) - remainder (term_at v terms.old parts.first) (term_at v terms.old parts.second))) % 2 ^ width_of (tree_in terms.old parts.first))
        (remainder (term_at v terms.old parts.first) (term_at v terms.old parts.second)))) }
    ensures least { IfOk result (λ id. weight_of (tree_in terms.new id)
        ≤ 5 + weight_of (tree_in terms.old parts.sign) + 2 * (weight_of (tree_in terms.old parts.first) + weight_of (tree_in terms.old parts.second))) }
    ensures kept { Keeps terms.old terms.new }
{
    let width = terms.width(parts.first);
    let rest = divisions::remainder(terms, parts.first, parts.second);
    let size = build(terms, rest)?;
    let zero = build(terms, Form::Built(Term::Constant { value: 0, width }))?;
    let taken = difference(terms, zero, size);
    let opposite = build(terms, taken)?;
    let form = choice(terms, parts.sign, opposite, size);
    let id = build(terms, form)?;
    Ok(id)
}

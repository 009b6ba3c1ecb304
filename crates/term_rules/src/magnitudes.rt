//! Choices by the sign of a number in two's complement.
//!
//! The magnitude of `x` is `0 - x` where the sign of `x` is 1, and else `x`:
//! `select (icmp slt X, 0), (sub 0, X), X`, which the comments below call abs X.

ghost use Rattle.std.specs.Prelude.{◌≡◌, ◌<◌, ◌≤◌, ◌+◌, ◌-◌, ◌^◌, ℕ, IfOk, IfSome, IsTrue, cond, length};
ghost use Rattle.bv_terms.specs.Tree as tree;
ghost use Rattle.bv_terms.specs.Tree.{is_negative, width_of};
ghost use Rattle.bv_terms.specs.Trees.{Keeps, Makes, term_at, tree_in};
ghost use Rattle.known_values.specs.Weight.{weight_of};
ghost use Rattle.term_rules.specs.Forms.{IsOpposite, IsSign, IsSigned, IsTurned, Simplifies};
ghost use Rattle.term_rules.specs.declared.form.Form.TheVariants.{Known};

use crate::bounds::most;
use crate::building::build;
use crate::choices::choice;
use crate::widths::part;
use bv_terms::{BinaryOp, Term, TermId, Terms};
use support::NoMemory;
use term_sums::{number, term};

/// The term whose sign `c` plainly is.
// trunc (lshr iN X, N-1) to i1, which is icmp slt X, 0
fn signed_term(terms: &Terms, c: TermId) -> Option<TermId>
    requires { c.index < length terms.now }
    ensures { IfSome result (IsSign terms.now c) }
{
    terms.values_fit();
    match term(terms, c) {
        Term::Extract { a, from, width } => {
            let whole = terms.width(a);
            if width == 1 && from + 1 == whole {
                Some(a)
            } else {
                None
            }
        }
        _ => None,
    }
}

/// Whether the first plainly is 0 minus the second.
// sub 0, B
pub fn is_opposite(terms: &Terms, a: TermId, b: TermId) -> bool
    requires a { a.index < length terms.now }
    requires b { b.index < length terms.now }
    ensures { IsTrue result → IsOpposite terms.now a b }
{
    match term(terms, a) {
        Term::Binary(BinaryOp::Sub, zero, taken, _) => match number(terms, zero) {
            Some(value) if value == 0 => taken.index == b.index,
            _ => false,
        },
        _ => false,
    }
}

/// Whether the term plainly is the magnitude of a number.
// select (icmp slt X, 0), (sub 0, X), X
fn is_magnitude(terms: &Terms, a: TermId) -> bool
    requires { a.index < length terms.now }
    ensures { IsTrue result → (v : ℕ → ℕ → ℕ) → term_at v terms.now a ≤ 2 ^ (width_of (tree_in terms.now a) - 1) }
{
    terms.values_fit();
    match term(terms, a) {
        Term::Ite {
            c,
            a: first,
            b: second,
            ..
        } => match signed_term(terms, c) {
            Some(signed) if signed.index == second.index => is_opposite(terms, first, second),
            _ => false,
        },
        _ => false,
    }
}

/// Whether the number plainly is no greater than a magnitude can be.
fn is_at_most_half(terms: &Terms, a: TermId) -> bool
    requires { a.index < length terms.now }
    ensures { IsTrue result → (v : ℕ → ℕ → ℕ) → term_at v terms.now a ≤ 2 ^ (width_of (tree_in terms.now a) - 1) }
{
    terms.values_fit();
    let half = 1 << (terms.width(a) - 1);
    // icmp ule iN X, 2^(N-1) --> true if bounds::most of X is u<= 2^(N-1)
    if most(terms, a) <= half {
        return true;
    }
    match term(terms, a) {
        // icmp ule iN (urem (abs X), Y), 2^(N-1) --> true
        Term::Binary(BinaryOp::Urem, first, _, _) => is_magnitude(terms, first),
        // icmp ule iN (abs X), 2^(N-1) --> true
        _ => is_magnitude(terms, a),
    }
}

/// The magnitude of the term, which plainly is that or its opposite, by some condition.
// abs (select D, (sub 0, M), M) --> M if M is surely u<= 2^(N-1)
fn magnitude_of(terms: &Terms, a: TermId) -> Option<TermId>
    requires { a.index < length terms.now }
    ensures { IfSome result (IsSigned terms.now a) }
{
    match term(terms, a) {
        Term::Ite {
            a: first,
            b: second,
            ..
        } => {
            if is_opposite(terms, first, second) {
                if is_at_most_half(terms, second) {
                    return Some(second);
                }
            }
            None
        }
        _ => None,
    }
}

/// The choice by the sign of `x` between `0 - b` and `b`, where `x` plainly is a magnitude with some
/// sign: that magnitude if `b` is `x`, and `x` if `b` is the magnitude.
pub fn known_choice(terms: &Terms, c: TermId, a: TermId, b: TermId) -> Option<TermId>
    requires c { c.index < length terms.now }
    requires a { a.index < length terms.now }
    requires b { b.index < length terms.now }
    requires alike { width_of (tree_in terms.now a) ≡ width_of (tree_in terms.now b) }
    ensures { IfSome result (λ id. Simplifies terms.now (tree.Ite (tree_in terms.now c) (tree_in terms.now a) (tree_in terms.now b) (width_of (tree_in terms.now a))) (Known id)) }
{
    terms.values_fit();
    let _whole = terms.width(a);
    let signed = signed_term(terms, c)?;
    let size = magnitude_of(terms, signed)?;
    if is_opposite(terms, a, b) {
        // select (icmp slt X, 0), (sub 0, X), X --> M if X is select D, (sub 0, M), M
        //   and M is surely u<= 2^(N-1)
        if b.index == signed.index {
            return Some(size);
        }
        // select (icmp slt X, 0), (sub 0, M), M --> X if X is select D, (sub 0, M), M
        //   and M is surely u<= 2^(N-1)
        if b.index == size.index {
            return Some(signed);
        }
    }
    None
}

/// Whether the choice plainly is the magnitude of the opposite of `a`, which is `b`.
// abs (sub 0, X) --> abs X
pub fn is_of_opposite(terms: &Terms, c: TermId, a: TermId, b: TermId) -> bool
    requires c { c.index < length terms.now }
    requires a { a.index < length terms.now }
    requires b { b.index < length terms.now }
    ensures { IsTrue result → IsTurned terms.now c a b }
{
    terms.values_fit();
    let _whole = terms.width(a);
    match signed_term(terms, c) {
        Some(signed) if signed.index == b.index => is_opposite(terms, b, a),
        _ => false,
    }
}

/// The magnitude of a number, of which the opposite is given.
// select (icmp slt (sub 0, X), 0), X, (sub 0, X) --> select (icmp slt X, 0), (sub 0, X), X
pub fn magnitude(terms: &mut Terms, a: TermId, opposite: TermId) -> Result<TermId, NoMemory>
    requires a { a.index < length terms.old }
    requires opposite { opposite.index < length terms.old }
    requires alike { width_of (tree_in terms.old opposite) ≡ width_of (tree_in terms.old a) }
    ensures made { IfOk result (λ id. Makes terms.new id (width_of (tree_in terms.old a))
        (λ v. cond (is_negative (width_of (tree_in terms.old a)) (term_at v terms.old a)) (term_at v terms.old opposite) (term_at v terms.old a))) }
    ensures least { IfOk result (λ id. weight_of (tree_in terms.new id) ≤ 2 + weight_of (tree_in terms.old a) + weight_of (tree_in terms.old opposite) + weight_of (tree_in terms.old a)) }
    ensures kept { Keeps terms.old terms.new }
{
    terms.values_fit();
    let top = terms.width(a) - 1;
    let highest = part(terms, a, top, 1);
    let sign = build(terms, highest)?;
    let form = choice(terms, sign, opposite, a);
    let id = build(terms, form)?;
    Ok(id)
}

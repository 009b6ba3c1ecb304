//! Rules of divisions.

ghost use Rattle.std.specs.Prelude.{◌≡◌, ◌<◌, ◌*◌, ◌^◌, IfSome, length};
ghost use Rattle.bv_terms.specs.declared.term.BinaryOp.TheVariants as op;
ghost use Rattle.bv_terms.specs.Tree as tree;
ghost use Rattle.bv_terms.specs.Tree.{width_of};
ghost use Rattle.bv_terms.specs.Trees.{IsWidth, tree_in};
ghost use Rattle.term_rules.specs.Forms.{IsLow, Simplifies};
ghost use Rattle.term_sums.specs.Findings.{IsNumber};

use crate::bounds::{is_below_number, is_remainder_by};
use crate::form::Form;
use crate::nested_divisions::{divided_by_number, reduced_by_multiple, whole_of_multiple};
use crate::shrinking::before_widening;
use bv_terms::{BinaryOp, Term, TermId, Terms};
use known_values::numbers::ones;
use term_sums::{number, term};

/// The product of two numbers, if it fits the width.
// mul C1, C2 at iN, if it is nuw
fn product_within(a: u128, b: u128, width: u32) -> Option<u128>
    requires { IsWidth width }
    ensures { IfSome result (λ p. (p ≡ a * b) × (p < 2 ^ width)) }
{
    let product = a.checked_mul(b)?;
    if product <= ones(width) {
        Some(product)
    } else {
        None
    }
}

/// The quotient by a number. Numbers that divide one after the other divide at once.
fn quotient_by(terms: &Terms, a: TermId, b: TermId, by: u128) -> Form
    requires a { a.index < length terms.now }
    requires b { b.index < length terms.now }
    requires alike { width_of (tree_in terms.now a) ≡ width_of (tree_in terms.now b) }
    requires by { IsNumber terms.now b by }
    ensures { Simplifies terms.now (tree.Binary op.Udiv (tree_in terms.now a) (tree_in terms.now b) (width_of (tree_in terms.now a))) result }
{
    terms.values_fit();
    let width = terms.width(a);
    // udiv X, 1 --> X
    if by == 1 {
        return Form::Known(a);
    }
    // udiv X, C --> 0 if X is surely u< C
    if is_below_number(terms, a, b) {
        return Form::Built(Term::Constant { value: 0, width });
    }
    // udiv (udiv X, C1), C2 --> udiv X, C1 * C2 if C1 != 0 and mul nuw C1, C2
    if let Some(inner) = divided_by_number(terms, a) {
        if let Some(product) = product_within(inner.by, by, width) {
            return Form::Divided {
                a: inner.a,
                by: product,
                width,
            };
        }
    }
    Form::Built(Term::Binary(BinaryOp::Udiv, a, b, width))
}

/// The remainder by a number.
fn remainder_by(terms: &Terms, a: TermId, b: TermId, by: u128) -> Form
    requires a { a.index < length terms.now }
    requires b { b.index < length terms.now }
    requires alike { width_of (tree_in terms.now a) ≡ width_of (tree_in terms.now b) }
    requires by { IsNumber terms.now b by }
    ensures { Simplifies terms.now (tree.Binary op.Urem (tree_in terms.now a) (tree_in terms.now b) (width_of (tree_in terms.now a))) result }
{
    terms.values_fit();
    let width = terms.width(a);
    // urem X, 1 --> 0
    if by == 1 {
        return Form::Built(Term::Constant { value: 0, width });
    }
    // urem X, C --> X if X is surely u< C
    if is_below_number(terms, a, b) {
        return Form::Known(a);
    }
    // urem (urem X, C1), C2 --> urem X, C2 if C2 != 0 and C1 % C2 == 0
    match reduced_by_multiple(terms, a, by) {
        Some(inner) => Form::Built(Term::Binary(BinaryOp::Urem, inner, b, width)),
        None => Form::Built(Term::Binary(BinaryOp::Urem, a, b, width)),
    }
}

/// The quotient of unsigned numbers.
pub fn quotient(terms: &Terms, a: TermId, b: TermId) -> Form
    requires a { a.index < length terms.now }
    requires b { b.index < length terms.now }
    requires alike { width_of (tree_in terms.now a) ≡ width_of (tree_in terms.now b) }
    ensures { Simplifies terms.now (tree.Binary op.Udiv (tree_in terms.now a) (tree_in terms.now b) (width_of (tree_in terms.now a))) result }
{
    terms.values_fit();
    let width = terms.width(a);
    // udiv (mul (udiv X, Y), Y), Y --> udiv X, Y
    // udiv (sub X, (urem X, Y)), Y --> udiv X, Y
    if let Some(whole) = whole_of_multiple(terms, a, b) {
        return Form::Built(Term::Binary(BinaryOp::Udiv, whole, b, width));
    }
    match number(terms, b) {
        Some(by) => quotient_by(terms, a, b, by),
        None => Form::Built(Term::Binary(BinaryOp::Udiv, a, b, width)),
    }
}

/// The remainder of unsigned numbers.
pub fn remainder(terms: &Terms, a: TermId, b: TermId) -> Form
    requires a { a.index < length terms.now }
    requires b { b.index < length terms.now }
    requires alike { width_of (tree_in terms.now a) ≡ width_of (tree_in terms.now b) }
    ensures { Simplifies terms.now (tree.Binary op.Urem (tree_in terms.now a) (tree_in terms.now b) (width_of (tree_in terms.now a))) result }
{
    terms.values_fit();
    let width = terms.width(a);
    // urem X, X --> 0
    if a.index == b.index {
        return Form::Built(Term::Constant { value: 0, width });
    }
    // urem (urem X, Y), Y --> urem X, Y
    if is_remainder_by(terms, a, b) {
        return Form::Known(a);
    }
    // urem (mul (udiv X, Y), Y), Y --> 0
    // urem (sub X, (urem X, Y)), Y --> 0
    if let Some(_whole) = whole_of_multiple(terms, a, b) {
        return Form::Built(Term::Constant { value: 0, width });
    }
    match number(terms, b) {
        Some(by) => remainder_by(terms, a, b, by),
        None => Form::Built(Term::Binary(BinaryOp::Urem, a, b, width)),
    }
}

/// The low bits of a quotient of two numbers that were widened from as many bits.
// trunc (udiv (zext iN X to iM), (zext iN Y to iM)) to iN --> udiv X, Y
pub fn low_quotient(terms: &Terms, q: TermId, width: u32) -> Option<Form>
    requires { q.index < length terms.now }
    ensures { IfSome result (IsLow terms.now q width) }
{
    terms.values_fit();
    match term(terms, q) {
        Term::Binary(BinaryOp::Udiv, a, b, _) => {
            let first = before_widening(terms, a)?;
            let second = before_widening(terms, b)?;
            if terms.width(first) == width && terms.width(second) == width {
                Some(quotient(terms, first, second))
            } else {
                None
            }
        }
        _ => None,
    }
}

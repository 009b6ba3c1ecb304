//! Rules of sums, differences and products.

ghost use Rattle.std.specs.Prelude.{◌≡◌, ◌<◌, ◌≤◌, ◌+◌, ◌%◌, ◌^◌, IfSome, length};
ghost use Rattle.bv_terms.specs.declared.term.BinaryOp.TheVariants as op;
ghost use Rattle.bv_terms.specs.Tree as tree;
ghost use Rattle.bv_terms.specs.Tree.{width_of};
ghost use Rattle.bv_terms.specs.Trees.{IsWidth, tree_in};
ghost use Rattle.term_rules.specs.Forms.{AreOperands, IsPart, IsRest, IsTakenFrom, Simplifies};
ghost use Rattle.term_sums.specs.Findings.{IsNumber};

use crate::form::Form;
use crate::multiples::dividend;
use bv_terms::{BinaryOp, Term, TermId, Terms};
use known_values::numbers;
use term_sums::{are_in_order, known_difference, number, term};

/// The sum with a number that may be 0.
fn plus(terms: &Terms, a: TermId, by: u128, width: u32) -> Form
    requires { AreOperands terms.now a by width }
    ensures { Simplifies terms.now (tree.Binary op.Add (tree_in terms.now a) (tree.Constant by width) width) result }
{
    terms.values_fit();
    // add X, 0 --> X
    if by == 0 {
        Form::Known(a)
    } else {
        Form::Raised { a, by, width }
    }
}

/// The sum with a number. Numbers that are added one after the other are added together.
fn raised(terms: &Terms, a: TermId, by: u128, width: u32) -> Form
    requires { AreOperands terms.now a by width }
    ensures { Simplifies terms.now (tree.Binary op.Add (tree_in terms.now a) (tree.Constant by width) width) result }
{
    match term(terms, a) {
        // add (add X, C1), C2 --> add X, (C1 + C2)
        Term::Binary(BinaryOp::Add, inner, b, _) => match number(terms, b) {
            Some(first) => plus(terms, inner, numbers::sum(first, by, width), width),
            None => plus(terms, a, by, width),
        },
        _ => plus(terms, a, by, width),
    }
}

/// What plainly gives the first as its sum with the second.
fn rest_of_sum(terms: &Terms, a: TermId, b: TermId) -> Option<TermId>
    requires a { a.index < length terms.now }
    requires b { b.index < length terms.now }
    ensures { IfSome result (IsRest terms.now a b) }
{
    match term(terms, a) {
        // sub (add X, Y), Y --> X
        Term::Binary(BinaryOp::Add, first, second, _) if second.index == b.index => Some(first),
        // sub (add Y, X), Y --> X
        Term::Binary(BinaryOp::Add, first, second, _) if first.index == b.index => Some(second),
        _ => None,
    }
}

/// What plainly gives the second where it is taken from the first.
fn taken_from(terms: &Terms, a: TermId, b: TermId) -> Option<TermId>
    requires a { a.index < length terms.now }
    requires b { b.index < length terms.now }
    ensures { IfSome result (IsTakenFrom terms.now a b) }
{
    match term(terms, b) {
        // sub X, (sub X, Y) --> Y
        Term::Binary(BinaryOp::Sub, whole, taken, _) if whole.index == a.index => Some(taken),
        _ => None,
    }
}

/// What is plainly the sum of the two: the first is a difference from it, or a quotient of it times
/// the divisor, of which the second is the remainder.
fn whole_of_difference(terms: &Terms, a: TermId, b: TermId) -> Option<TermId>
    requires a { a.index < length terms.now }
    requires b { b.index < length terms.now }
    ensures { IfSome result (IsPart terms.now a b) }
{
    match term(terms, a) {
        // add (sub X, Y), Y --> X
        Term::Binary(BinaryOp::Sub, whole, taken, _) if taken.index == b.index => Some(whole),
        // add (mul (udiv X, Y), Y), (urem X, Y) --> X
        Term::Binary(BinaryOp::Mul, ..) => dividend(terms, a, b),
        _ => None,
    }
}

/// The sum of two in order.
fn ordered_sum(terms: &Terms, a: TermId, b: TermId) -> Form
    requires a { a.index < length terms.now }
    requires b { b.index < length terms.now }
    requires alike { width_of (tree_in terms.now a) ≡ width_of (tree_in terms.now b) }
    ensures { Simplifies terms.now (tree.Binary op.Add (tree_in terms.now a) (tree_in terms.now b) (width_of (tree_in terms.now a))) result }
{
    terms.values_fit();
    let width = terms.width(a);
    // add X, 0 --> X
    // add (add X, C1), C2 --> add X, (C1 + C2)
    if let Some(by) = number(terms, b) {
        return raised(terms, a, by, width);
    }
    // add X, X --> shl X, 1, if the width is above 1
    if a.index == b.index && 1 < width {
        return Form::Shifted { a, by: 1, width };
    }
    // add (sub X, Y), Y --> X
    // add (mul (udiv X, Y), Y), (urem X, Y) --> X
    if let Some(whole) = whole_of_difference(terms, a, b) {
        return Form::Known(whole);
    }
    // add Y, (sub X, Y) --> X
    // add (urem X, Y), (mul (udiv X, Y), Y) --> X
    if let Some(whole) = whole_of_difference(terms, b, a) {
        return Form::Known(whole);
    }
    Form::Built(Term::Binary(BinaryOp::Add, a, b, width))
}

/// The sum.
pub fn sum(terms: &Terms, a: TermId, b: TermId) -> Form
    requires a { a.index < length terms.now }
    requires b { b.index < length terms.now }
    requires alike { width_of (tree_in terms.now a) ≡ width_of (tree_in terms.now b) }
    ensures { Simplifies terms.now (tree.Binary op.Add (tree_in terms.now a) (tree_in terms.now b) (width_of (tree_in terms.now a))) result }
{
    // add C, X --> add X, C; add X, Y --> add Y, X, if Y has the smaller id
    if are_in_order(terms, a, b) {
        ordered_sum(terms, a, b)
    } else {
        ordered_sum(terms, b, a)
    }
}

/// The difference. A number is taken away by adding its opposite.
pub fn difference(terms: &Terms, a: TermId, b: TermId) -> Form
    requires a { a.index < length terms.now }
    requires b { b.index < length terms.now }
    requires alike { width_of (tree_in terms.now a) ≡ width_of (tree_in terms.now b) }
    ensures { Simplifies terms.now (tree.Binary op.Sub (tree_in terms.now a) (tree_in terms.now b) (width_of (tree_in terms.now a))) result }
{
    terms.values_fit();
    let width = terms.width(a);
    // sub X, X --> 0
    if a.index == b.index {
        return Form::Built(Term::Constant { value: 0, width });
    }
    // sub X, C --> add X, -C
    if let Some(value) = number(terms, b) {
        let by = numbers::difference(0, value, width);
        return raised(terms, a, by, width);
    }
    // sub (add X, Y), Y --> X
    // sub (add X, Y), X --> Y
    if let Some(rest) = rest_of_sum(terms, a, b) {
        return Form::Known(rest);
    }
    // sub X, Y --> C, if X and Y as sums of products differ by C;
    // for example sub (add X, C1), (add X, C2) --> C1 - C2
    if let Some(value) = known_difference(terms, a, b) {
        return Form::Built(Term::Constant { value, width });
    }
    // sub X, (sub X, Y) --> Y
    if let Some(taken) = taken_from(terms, a, b) {
        return Form::Known(taken);
    }
    Form::Built(Term::Binary(BinaryOp::Sub, a, b, width))
}

/// The exponent of a power of 2, if it is below the width.
fn exponent_of(value: u128, width: u32) -> Option<u32>
    requires { IsWidth width }
    ensures { IfSome result (λ k. (value ≡ 2 ^ k) × (k < width)) }
{
    // C = 1 << K, if K is below the width
    let exponent = value.trailing_zeros();
    if exponent < width && value == 1 << exponent {
        Some(exponent)
    } else {
        None
    }
}

/// The product with a number. A product with a power of 2 is a shift.
fn multiplied(terms: &Terms, a: TermId, b: TermId, by: u128) -> Form
    requires a { a.index < length terms.now }
    requires b { b.index < length terms.now }
    requires alike { width_of (tree_in terms.now a) ≡ width_of (tree_in terms.now b) }
    requires by { IsNumber terms.now b by }
    ensures { Simplifies terms.now (tree.Binary op.Mul (tree_in terms.now a) (tree_in terms.now b) (width_of (tree_in terms.now a))) result }
{
    terms.values_fit();
    let width = terms.width(a);
    // mul X, 0 --> 0
    if by == 0 {
        return Form::Known(b);
    }
    // mul X, 1 --> X
    if by == 1 {
        return Form::Known(a);
    }
    match exponent_of(by, width) {
        // mul X, (1 << C) --> shl X, C
        Some(exponent) => {
            let by = exponent as u128;
            Form::Shifted { a, by, width }
        }
        None => Form::Built(Term::Binary(BinaryOp::Mul, a, b, width)),
    }
}

/// The product of two in order.
fn ordered_product(terms: &Terms, a: TermId, b: TermId) -> Form
    requires a { a.index < length terms.now }
    requires b { b.index < length terms.now }
    requires alike { width_of (tree_in terms.now a) ≡ width_of (tree_in terms.now b) }
    ensures { Simplifies terms.now (tree.Binary op.Mul (tree_in terms.now a) (tree_in terms.now b) (width_of (tree_in terms.now a))) result }
{
    terms.values_fit();
    let width = terms.width(a);
    match number(terms, b) {
        // mul X, 0 --> 0
        // mul X, 1 --> X
        // mul X, (1 << C) --> shl X, C
        Some(by) => multiplied(terms, a, b, by),
        None => Form::Built(Term::Binary(BinaryOp::Mul, a, b, width)),
    }
}

/// The product.
pub fn product(terms: &Terms, a: TermId, b: TermId) -> Form
    requires a { a.index < length terms.now }
    requires b { b.index < length terms.now }
    requires alike { width_of (tree_in terms.now a) ≡ width_of (tree_in terms.now b) }
    ensures { Simplifies terms.now (tree.Binary op.Mul (tree_in terms.now a) (tree_in terms.now b) (width_of (tree_in terms.now a))) result }
{
    // mul C, X --> mul X, C; mul X, Y --> mul Y, X, if Y has the smaller id
    if are_in_order(terms, a, b) {
        ordered_product(terms, a, b)
    } else {
        ordered_product(terms, b, a)
    }
}

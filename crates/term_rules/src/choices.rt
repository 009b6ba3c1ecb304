//! Rules of choices.

ghost use Rattle.std.specs.Prelude.{◌≡◌, ◌<◌, ◌≤◌, ℕ, IfSome, false, length, true};
ghost use Rattle.bv_terms.specs.Tree as tree;
ghost use Rattle.bv_terms.specs.Tree.{width_of};
ghost use Rattle.bv_terms.specs.Trees.{bit_at, term_at, tree_in};
ghost use Rattle.known_values.specs.Weight.{weight_of};
ghost use Rattle.term_rules.specs.Forms.{IsArm, Simplifies};

use crate::equalities::are_equal_terms;
use crate::form::Form;
use bv_terms::{BinaryOp, Term, TermId, Terms};
use term_sums::{known_where_false, known_where_true, number, term};

/// How many choices are made, one below the other, by what is known of their conditions.
const CHOICES: u32 = 64;

/// A choice between truths of which one or both are constants, if it is an operation on truths.
fn choice_of_truths(terms: &Terms, c: TermId, a: TermId, b: TermId) -> Option<Form>
    requires c { c.index < length terms.now }
    requires a { a.index < length terms.now }
    requires b { b.index < length terms.now }
    requires bit { width_of (tree_in terms.now c) ≡ 1 }
    requires first { width_of (tree_in terms.now a) ≡ 1 }
    requires second { width_of (tree_in terms.now b) ≡ 1 }
    ensures { IfSome result (Simplifies terms.now (tree.Ite (tree_in terms.now c) (tree_in terms.now a) (tree_in terms.now b) (width_of (tree_in terms.now a)))) }
{
    terms.values_fit();
    match (number(terms, a), number(terms, b)) {
        // select C, true, false --> C
        (Some(x), Some(y)) if x == 1 && y == 0 => Some(Form::Known(c)),
        // select C, false, true --> not C
        (Some(x), Some(y)) if x == 0 && y == 1 => Some(Form::Built(Term::Not { a: c, width: 1 })),
        // select C, true, X --> or C, X
        (Some(x), None) if x == 1 => Some(Form::Built(Term::Binary(BinaryOp::Or, c, b, 1))),
        // select C, X, false --> and C, X
        (None, Some(y)) if y == 0 => Some(Form::Built(Term::Binary(BinaryOp::And, c, a, 1))),
        _ => None,
    }
}

/// The arm of a choice by a condition that is known where `c` is true.
fn arm_where_true(terms: &Terms, c: TermId, a: TermId) -> Option<TermId>
    requires c { c.index < length terms.now }
    requires a { a.index < length terms.now }
    ensures { IfSome result (IsArm terms.now c true a) }
{
    match term(terms, a) {
        // select C, (select D, X, Y), Z --> select C, X, Z, if C implies D
        // select C, (select D, X, Y), Z --> select C, Y, Z, if C implies not D
        Term::Ite {
            c: d,
            a: first,
            b: second,
            ..
        } => {
            let known = known_where_true(terms, c, d)?;
            Some(if known { first } else { second })
        }
        _ => None,
    }
}

/// The arm of a choice by a condition that is known where `c` is false.
fn arm_where_false(terms: &Terms, c: TermId, a: TermId) -> Option<TermId>
    requires c { c.index < length terms.now }
    requires a { a.index < length terms.now }
    ensures { IfSome result (IsArm terms.now c false a) }
{
    match term(terms, a) {
        // select C, Z, (select D, X, Y) --> select C, Z, X, if not C implies D
        // select C, Z, (select D, X, Y) --> select C, Z, Y, if not C implies not D
        Term::Ite {
            c: d,
            a: first,
            b: second,
            ..
        } => {
            let known = known_where_false(terms, c, d)?;
            Some(if known { first } else { second })
        }
        _ => None,
    }
}

/// What the term is where the condition is true: an arm of choices by what is then known.
fn where_true(terms: &Terms, c: TermId, a: TermId) -> TermId
    requires c { c.index < length terms.now }
    requires a { a.index < length terms.now }
    ensures within { result.index < length terms.now }
    ensures wide { width_of (tree_in terms.now result) ≡ width_of (tree_in terms.now a) }
    ensures says { (v : ℕ → ℕ → ℕ) → bit_at v terms.now c ≡ true → term_at v terms.now result ≡ term_at v terms.now a }
    ensures least { weight_of (tree_in terms.now result) ≤ weight_of (tree_in terms.now a) }
{
    let mut at = a;
    for _ in 0..CHOICES {
        // select C, (select D, X, Y), Z --> select C, X, Z or select C, Y, Z, for each such D
        match arm_where_true(terms, c, at) {
            Some(arm) => at = arm,
            None => return at,
        }
    }
    at
}

/// What the term is where the condition is false: an arm of choices by what is then known.
fn where_false(terms: &Terms, c: TermId, a: TermId) -> TermId
    requires c { c.index < length terms.now }
    requires a { a.index < length terms.now }
    ensures within { result.index < length terms.now }
    ensures wide { width_of (tree_in terms.now result) ≡ width_of (tree_in terms.now a) }
    ensures says { (v : ℕ → ℕ → ℕ) → bit_at v terms.now c ≡ false → term_at v terms.now result ≡ term_at v terms.now a }
    ensures least { weight_of (tree_in terms.now result) ≤ weight_of (tree_in terms.now a) }
{
    let mut at = a;
    for _ in 0..CHOICES {
        // select C, Z, (select D, X, Y) --> select C, Z, X or select C, Z, Y, for each such D
        match arm_where_false(terms, c, at) {
            Some(arm) => at = arm,
            None => return at,
        }
    }
    at
}

/// The choice between two arms, neither of which is a choice by the same condition.
fn choice_of_arms(terms: &Terms, c: TermId, a: TermId, b: TermId) -> Form
    requires c { c.index < length terms.now }
    requires a { a.index < length terms.now }
    requires b { b.index < length terms.now }
    requires bit { width_of (tree_in terms.now c) ≡ 1 }
    requires alike { width_of (tree_in terms.now a) ≡ width_of (tree_in terms.now b) }
    ensures { Simplifies terms.now (tree.Ite (tree_in terms.now c) (tree_in terms.now a) (tree_in terms.now b) (width_of (tree_in terms.now a))) result }
{
    let width = terms.width(a);
    // select C, X, X --> X, also if the arms are equal by their sums or operand by operand
    if are_equal_terms(terms, a, b) {
        return Form::Known(a);
    }
    // select false, X, Y --> Y
    // select true, X, Y --> X
    if let Some(condition) = number(terms, c) {
        return if condition == 0 {
            Form::Known(b)
        } else {
            Form::Known(a)
        };
    }
    if width == 1 {
        // select i1 C, true, false --> C
        // select i1 C, false, true --> not C
        // select i1 C, true, X --> or C, X
        // select i1 C, X, false --> and C, X
        if let Some(form) = choice_of_truths(terms, c, a, b) {
            return form;
        }
    }
    Form::Built(Term::Ite { c, a, b, width })
}

/// The choice by a condition that is not plainly another's negation.
fn choice_by(terms: &Terms, c: TermId, a: TermId, b: TermId) -> Form
    requires c { c.index < length terms.now }
    requires a { a.index < length terms.now }
    requires b { b.index < length terms.now }
    requires bit { width_of (tree_in terms.now c) ≡ 1 }
    requires alike { width_of (tree_in terms.now a) ≡ width_of (tree_in terms.now b) }
    ensures { Simplifies terms.now (tree.Ite (tree_in terms.now c) (tree_in terms.now a) (tree_in terms.now b) (width_of (tree_in terms.now a))) result }
{
    // select C, (select C, X, Y), Z --> select C, X, Z
    let first = where_true(terms, c, a);
    // select C, X, (select C, Y, Z) --> select C, X, Z
    let second = where_false(terms, c, b);
    choice_of_arms(terms, c, first, second)
}

/// The first of two where the condition is 1, and else the second.
pub fn choice(terms: &Terms, c: TermId, a: TermId, b: TermId) -> Form
    requires c { c.index < length terms.now }
    requires a { a.index < length terms.now }
    requires b { b.index < length terms.now }
    requires bit { width_of (tree_in terms.now c) ≡ 1 }
    requires alike { width_of (tree_in terms.now a) ≡ width_of (tree_in terms.now b) }
    ensures { Simplifies terms.now (tree.Ite (tree_in terms.now c) (tree_in terms.now a) (tree_in terms.now b) (width_of (tree_in terms.now a))) result }
{
    terms.values_fit();
    match term(terms, c) {
        // select (not C), X, Y --> select C, Y, X
        Term::Not { a: turned, .. } => choice_by(terms, turned, b, a),
        _ => choice_by(terms, c, a, b),
    }
}

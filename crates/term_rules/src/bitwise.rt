//! Rules of operations bit by bit.

ghost use Rattle.std.specs.Prelude.{◌≡◌, ◌<◌, ℕ, IfSome, IsTrue, bit_and, bit_or, length};
ghost use Rattle.bv_terms.specs.declared.term.BinaryOp.TheVariants as op;
ghost use Rattle.bv_terms.specs.Tree as tree;
ghost use Rattle.bv_terms.specs.Tree.{width_of};
ghost use Rattle.bv_terms.specs.Trees.{IsTerm, IsWidth, term_at, tree_in};
ghost use Rattle.term_rules.specs.declared.form.Form.TheVariants.{Known};
ghost use Rattle.term_rules.specs.Forms.{Simplifies};

use crate::form::Form;
use bv_terms::{BinaryOp, Term, TermId, Terms};
use known_values::numbers::ones;
use term_sums::{are_apart, are_in_order, are_whole, left_of_and, left_of_or, number, term};

/// Each bit inverted: a second inversion undoes the first.
pub fn inverse(terms: &Terms, a: TermId) -> Form
    requires { a.index < length terms.now }
    ensures { Simplifies terms.now (tree.Not (tree_in terms.now a) (width_of (tree_in terms.now a))) result }
{
    terms.values_fit();
    let width = terms.width(a);
    match term(terms, a) {
        // not (not X) --> X
        Term::Not { a: turned, .. } => Form::Known(turned),
        _ => Form::Built(Term::Not { a, width }),
    }
}

/// Whether the second is plainly an operand of the first, a conjunction.
fn is_in_and(terms: &Terms, a: TermId, b: TermId) -> bool
    requires a { a.index < length terms.now }
    requires b { b.index < length terms.now }
    ensures and { IsTrue result → (v : ℕ → ℕ → ℕ) → bit_and (term_at v terms.now a) (term_at v terms.now b) ≡ term_at v terms.now a }
    ensures or { IsTrue result → (v : ℕ → ℕ → ℕ) → bit_or (term_at v terms.now a) (term_at v terms.now b) ≡ term_at v terms.now b }
{
    match term(terms, a) {
        // a = and b, ?; a = and ?, b
        Term::Binary(BinaryOp::And, first, second, _) => first.index == b.index
            || second.index == b.index,
        _ => false,
    }
}

/// Whether the second is plainly an operand of the first, a disjunction.
fn is_in_or(terms: &Terms, a: TermId, b: TermId) -> bool
    requires a { a.index < length terms.now }
    requires b { b.index < length terms.now }
    ensures and { IsTrue result → (v : ℕ → ℕ → ℕ) → bit_and (term_at v terms.now a) (term_at v terms.now b) ≡ term_at v terms.now b }
    ensures or { IsTrue result → (v : ℕ → ℕ → ℕ) → bit_or (term_at v terms.now a) (term_at v terms.now b) ≡ term_at v terms.now a }
{
    match term(terms, a) {
        // a = or b, ?; a = or ?, b
        Term::Binary(BinaryOp::Or, first, second, _) => first.index == b.index
            || second.index == b.index,
        _ => false,
    }
}

/// The one of the two whose bits all are in the other, if one plainly is an operand of the other.
fn lesser(terms: &Terms, a: TermId, b: TermId) -> Option<TermId>
    requires a { a.index < length terms.now }
    requires b { b.index < length terms.now }
    requires alike { width_of (tree_in terms.now a) ≡ width_of (tree_in terms.now b) }
    ensures { IfSome result (λ r. Simplifies terms.now (tree.Binary op.And (tree_in terms.now a) (tree_in terms.now b) (width_of (tree_in terms.now a))) (Known r)) }
{
    if is_in_and(terms, a, b) {
        // and (and X, Y), Y --> and X, Y; and (and Y, X), Y --> and Y, X
        Some(a)
    } else if is_in_and(terms, b, a) {
        // and Y, (and X, Y) --> and X, Y; and Y, (and Y, X) --> and Y, X
        Some(b)
    } else if is_in_or(terms, a, b) {
        // and (or X, Y), Y --> Y; and (or Y, X), Y --> Y
        Some(b)
    } else if is_in_or(terms, b, a) {
        // and Y, (or X, Y) --> Y; and Y, (or Y, X) --> Y
        Some(a)
    } else {
        None
    }
}

/// The one of the two that has all bits of the other, if one plainly is an operand of the other.
fn greater(terms: &Terms, a: TermId, b: TermId) -> Option<TermId>
    requires a { a.index < length terms.now }
    requires b { b.index < length terms.now }
    requires alike { width_of (tree_in terms.now a) ≡ width_of (tree_in terms.now b) }
    ensures { IfSome result (λ r. Simplifies terms.now (tree.Binary op.Or (tree_in terms.now a) (tree_in terms.now b) (width_of (tree_in terms.now a))) (Known r)) }
{
    if is_in_or(terms, a, b) {
        // or (or X, Y), Y --> or X, Y; or (or Y, X), Y --> or Y, X
        Some(a)
    } else if is_in_or(terms, b, a) {
        // or Y, (or X, Y) --> or X, Y; or Y, (or Y, X) --> or Y, X
        Some(b)
    } else if is_in_and(terms, a, b) {
        // or (and X, Y), Y --> Y; or (and Y, X), Y --> Y
        Some(b)
    } else if is_in_and(terms, b, a) {
        // or Y, (and X, Y) --> Y; or Y, (and Y, X) --> Y
        Some(a)
    } else {
        None
    }
}

/// The operands in order, and no rule.
fn plain_and(terms: &Terms, a: TermId, b: TermId, width: u32) -> Form
    requires a { IsTerm terms.now width a }
    requires b { IsTerm terms.now width b }
    requires wide { IsWidth width }
    ensures { Simplifies terms.now (tree.Binary op.And (tree_in terms.now a) (tree_in terms.now b) width) result }
{
    // and C, X --> and X, C; and X, Y --> and Y, X, if Y has the smaller id
    if are_in_order(terms, a, b) {
        Form::Built(Term::Binary(BinaryOp::And, a, b, width))
    } else {
        Form::Built(Term::Binary(BinaryOp::And, b, a, width))
    }
}

/// The bits that are 1 in both, of two in order.
fn ordered_and(terms: &Terms, a: TermId, b: TermId) -> Form
    requires a { a.index < length terms.now }
    requires b { b.index < length terms.now }
    requires alike { width_of (tree_in terms.now a) ≡ width_of (tree_in terms.now b) }
    ensures { Simplifies terms.now (tree.Binary op.And (tree_in terms.now a) (tree_in terms.now b) (width_of (tree_in terms.now a))) result }
{
    terms.values_fit();
    let width = terms.width(a);
    // and X, X --> X
    if a.index == b.index {
        return Form::Known(a);
    }
    // and X, (not X) --> 0
    // and (and X, Y), (not X) --> 0
    // and (and (not X), Y), X --> 0
    if are_apart(terms, a, b) {
        return Form::Built(Term::Constant { value: 0, width });
    }
    // and (and X, Y), Y --> and X, Y
    // and (or X, Y), Y --> Y
    if let Some(known) = lesser(terms, a, b) {
        return Form::Known(known);
    }
    // and X, (or (not X), Y) --> and X, Y
    // and (not X), (or X, Y) --> and (not X), Y
    if let Some(rest) = left_of_or(terms, a, b) {
        return plain_and(terms, a, rest, width);
    }
    // and (or (not X), Y), X --> and X, Y
    // and (or X, Y), (not X) --> and (not X), Y
    if let Some(rest) = left_of_or(terms, b, a) {
        return plain_and(terms, b, rest, width);
    }
    match number(terms, b) {
        // and X, 0 --> 0
        Some(value) if value == 0 => Form::Known(b),
        // and X, -1 --> X
        Some(value) if value == ones(width) => Form::Known(a),
        _ => Form::Built(Term::Binary(BinaryOp::And, a, b, width)),
    }
}

/// The bits that are 1 in both.
pub fn conjunction(terms: &Terms, a: TermId, b: TermId) -> Form
    requires a { a.index < length terms.now }
    requires b { b.index < length terms.now }
    requires alike { width_of (tree_in terms.now a) ≡ width_of (tree_in terms.now b) }
    ensures { Simplifies terms.now (tree.Binary op.And (tree_in terms.now a) (tree_in terms.now b) (width_of (tree_in terms.now a))) result }
{
    // and C, X --> and X, C; and X, Y --> and Y, X, if Y has the smaller id
    if are_in_order(terms, a, b) {
        ordered_and(terms, a, b)
    } else {
        ordered_and(terms, b, a)
    }
}

/// The operands in order, and no rule.
fn plain_or(terms: &Terms, a: TermId, b: TermId, width: u32) -> Form
    requires a { IsTerm terms.now width a }
    requires b { IsTerm terms.now width b }
    requires wide { IsWidth width }
    ensures { Simplifies terms.now (tree.Binary op.Or (tree_in terms.now a) (tree_in terms.now b) width) result }
{
    // or C, X --> or X, C; or X, Y --> or Y, X, if Y has the smaller id
    if are_in_order(terms, a, b) {
        Form::Built(Term::Binary(BinaryOp::Or, a, b, width))
    } else {
        Form::Built(Term::Binary(BinaryOp::Or, b, a, width))
    }
}

/// The bits that are 1 in either, of two in order.
fn ordered_or(terms: &Terms, a: TermId, b: TermId) -> Form
    requires a { a.index < length terms.now }
    requires b { b.index < length terms.now }
    requires alike { width_of (tree_in terms.now a) ≡ width_of (tree_in terms.now b) }
    ensures { Simplifies terms.now (tree.Binary op.Or (tree_in terms.now a) (tree_in terms.now b) (width_of (tree_in terms.now a))) result }
{
    terms.values_fit();
    let width = terms.width(a);
    // or X, X --> X
    if a.index == b.index {
        return Form::Known(a);
    }
    // or X, (not X) --> -1
    // or (or X, Y), (not X) --> -1
    // or (or (not X), Y), X --> -1
    if are_whole(terms, a, b) {
        let value = ones(width);
        return Form::Built(Term::Constant { value, width });
    }
    // or (or X, Y), Y --> or X, Y
    // or (and X, Y), Y --> Y
    if let Some(known) = greater(terms, a, b) {
        return Form::Known(known);
    }
    // or X, (and (not X), Y) --> or X, Y
    // or (not X), (and X, Y) --> or (not X), Y
    if let Some(rest) = left_of_and(terms, a, b) {
        return plain_or(terms, a, rest, width);
    }
    // or (and (not X), Y), X --> or X, Y
    // or (and X, Y), (not X) --> or (not X), Y
    if let Some(rest) = left_of_and(terms, b, a) {
        return plain_or(terms, b, rest, width);
    }
    match number(terms, b) {
        // or X, 0 --> X
        Some(value) if value == 0 => Form::Known(a),
        // or X, -1 --> -1
        Some(value) if value == ones(width) => Form::Known(b),
        _ => Form::Built(Term::Binary(BinaryOp::Or, a, b, width)),
    }
}

/// The bits that are 1 in either.
pub fn disjunction(terms: &Terms, a: TermId, b: TermId) -> Form
    requires a { a.index < length terms.now }
    requires b { b.index < length terms.now }
    requires alike { width_of (tree_in terms.now a) ≡ width_of (tree_in terms.now b) }
    ensures { Simplifies terms.now (tree.Binary op.Or (tree_in terms.now a) (tree_in terms.now b) (width_of (tree_in terms.now a))) result }
{
    // or C, X --> or X, C; or X, Y --> or Y, X, if Y has the smaller id
    if are_in_order(terms, a, b) {
        ordered_or(terms, a, b)
    } else {
        ordered_or(terms, b, a)
    }
}

/// What plainly gives the first as its exclusive disjunction with the second.
fn rest_of_xor(terms: &Terms, a: TermId, b: TermId) -> Option<TermId>
    requires a { a.index < length terms.now }
    requires b { b.index < length terms.now }
    ensures { IfSome result (λ r. Simplifies terms.now (tree.Binary op.Xor (tree_in terms.now a) (tree_in terms.now b) (width_of (tree_in terms.now a))) (Known r)) }
{
    match term(terms, a) {
        // xor (xor X, Y), Y --> X
        Term::Binary(BinaryOp::Xor, first, second, _) if second.index == b.index => Some(first),
        // xor (xor Y, X), Y --> X
        Term::Binary(BinaryOp::Xor, first, second, _) if first.index == b.index => Some(second),
        _ => None,
    }
}

/// The bits that are 1 in exactly one, of two in order.
fn ordered_xor(terms: &Terms, a: TermId, b: TermId) -> Form
    requires a { a.index < length terms.now }
    requires b { b.index < length terms.now }
    requires alike { width_of (tree_in terms.now a) ≡ width_of (tree_in terms.now b) }
    ensures { Simplifies terms.now (tree.Binary op.Xor (tree_in terms.now a) (tree_in terms.now b) (width_of (tree_in terms.now a))) result }
{
    terms.values_fit();
    let width = terms.width(a);
    // xor X, X --> 0
    if a.index == b.index {
        return Form::Built(Term::Constant { value: 0, width });
    }
    // xor (xor X, Y), Y --> X; xor (xor Y, X), Y --> X
    if let Some(rest) = rest_of_xor(terms, a, b) {
        return Form::Known(rest);
    }
    // xor Y, (xor X, Y) --> X; xor Y, (xor Y, X) --> X
    if let Some(rest) = rest_of_xor(terms, b, a) {
        return Form::Known(rest);
    }
    match number(terms, b) {
        // xor X, 0 --> X
        Some(value) if value == 0 => Form::Known(a),
        // xor X, -1 --> not X
        Some(value) if value == ones(width) => Form::Built(Term::Not { a, width }),
        _ => Form::Built(Term::Binary(BinaryOp::Xor, a, b, width)),
    }
}

/// The bits that are 1 in exactly one.
pub fn exclusive(terms: &Terms, a: TermId, b: TermId) -> Form
    requires a { a.index < length terms.now }
    requires b { b.index < length terms.now }
    requires alike { width_of (tree_in terms.now a) ≡ width_of (tree_in terms.now b) }
    ensures { Simplifies terms.now (tree.Binary op.Xor (tree_in terms.now a) (tree_in terms.now b) (width_of (tree_in terms.now a))) result }
{
    // xor C, X --> xor X, C; xor X, Y --> xor Y, X, if Y has the smaller id
    if are_in_order(terms, a, b) {
        ordered_xor(terms, a, b)
    } else {
        ordered_xor(terms, b, a)
    }
}

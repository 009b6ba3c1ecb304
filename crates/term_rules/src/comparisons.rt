//! Rules of comparisons.

ghost use Rattle.std.specs.Prelude.{◌≡◌, ◌<◌, length};
ghost use Rattle.bv_terms.specs.declared.term.BinaryOp.TheVariants as op;
ghost use Rattle.bv_terms.specs.Tree as tree;
ghost use Rattle.bv_terms.specs.Tree.{width_of};
ghost use Rattle.bv_terms.specs.Trees.{tree_in};
ghost use Rattle.term_rules.specs.Forms.{Simplifies};

use crate::bounds::{has_no_sign, is_below_number, is_remainder_by, is_sum_with, leaves};
use crate::equalities::are_equal_terms;
use crate::form::Form;
use bv_terms::{BinaryOp, Term, TermId, Terms};
use known_values::numbers::digit_of;
use term_sums::{are_in_order, are_inverse, known_difference, number};

/// Whether two in order are equal.
fn ordered_equal(terms: &Terms, a: TermId, b: TermId) -> Form
    requires a { a.index < length terms.now }
    requires b { b.index < length terms.now }
    requires alike { width_of (tree_in terms.now a) ≡ width_of (tree_in terms.now b) }
    ensures { Simplifies terms.now (tree.Binary op.Eq (tree_in terms.now a) (tree_in terms.now b) (width_of (tree_in terms.now a))) result }
{
    terms.values_fit();
    let width = terms.width(a);
    // icmp eq X, X --> true
    if a.index == b.index {
        return Form::Built(Term::Constant { value: 1, width: 1 });
    }
    // icmp eq X, (not X) --> false
    if are_inverse(terms, a, b) {
        return Form::Built(Term::Constant { value: 0, width: 1 });
    }
    // icmp eq X, C --> false, if most(X) u< C
    if is_below_number(terms, a, b) {
        return Form::Built(Term::Constant { value: 0, width: 1 });
    }
    // icmp eq X, Y --> C == 0, if X and Y as sums of products differ by C;
    // for example icmp eq (add X, 1), X --> false
    if let Some(by) = known_difference(terms, a, b) {
        let value = digit_of(by == 0);
        return Form::Built(Term::Constant { value, width: 1 });
    }
    // icmp eq X, Y --> true, if X and Y are one operation on operands that are equal
    if are_equal_terms(terms, a, b) {
        return Form::Built(Term::Constant { value: 1, width: 1 });
    }
    match number(terms, b) {
        // icmp eq i1 X, true --> X
        Some(value) if width == 1 && value == 1 => Form::Known(a),
        // icmp eq i1 X, false --> not X
        Some(value) if width == 1 && value == 0 => Form::Built(Term::Not { a, width }),
        _ => Form::Built(Term::Binary(BinaryOp::Eq, a, b, width)),
    }
}

/// Whether the two are equal.
pub fn equal(terms: &Terms, a: TermId, b: TermId) -> Form
    requires a { a.index < length terms.now }
    requires b { b.index < length terms.now }
    requires alike { width_of (tree_in terms.now a) ≡ width_of (tree_in terms.now b) }
    ensures { Simplifies terms.now (tree.Binary op.Eq (tree_in terms.now a) (tree_in terms.now b) (width_of (tree_in terms.now a))) result }
{
    // icmp eq C, X --> icmp eq X, C; icmp eq X, Y --> icmp eq Y, X, if Y has the smaller id
    if are_in_order(terms, a, b) {
        ordered_equal(terms, a, b)
    } else {
        ordered_equal(terms, b, a)
    }
}

/// Whether the first is less, as unsigned numbers.
pub fn less(terms: &Terms, a: TermId, b: TermId) -> Form
    requires a { a.index < length terms.now }
    requires b { b.index < length terms.now }
    requires alike { width_of (tree_in terms.now a) ≡ width_of (tree_in terms.now b) }
    ensures { Simplifies terms.now (tree.Binary op.Ult (tree_in terms.now a) (tree_in terms.now b) (width_of (tree_in terms.now a))) result }
{
    let width = terms.width(a);
    // icmp ult X, X --> false
    if a.index == b.index {
        return Form::Built(Term::Constant { value: 0, width: 1 });
    }
    // icmp ult (add X, Y), X --> false, if X and Y u< (1 << (width - 1))
    // icmp ult (add X, Y), Y --> false, under the same condition
    if is_sum_with(terms, a, b) {
        return Form::Built(Term::Constant { value: 0, width: 1 });
    }
    // icmp ult X, (urem X, Y) --> false
    if leaves(terms, a, b) {
        return Form::Built(Term::Constant { value: 0, width: 1 });
    }
    // icmp ult (urem X, Y), Y --> icmp ne Y, 0
    if is_remainder_by(terms, a, b) {
        return Form::Nonzero { a: b, width };
    }
    // icmp ult X, C --> true, if most(X) u< C
    if is_below_number(terms, a, b) {
        return Form::Built(Term::Constant { value: 1, width: 1 });
    }
    // icmp ult C, X --> false, if most(X) u< C
    if is_below_number(terms, b, a) {
        return Form::Built(Term::Constant { value: 0, width: 1 });
    }
    match number(terms, b) {
        // icmp ult X, 0 --> false
        Some(value) if value == 0 => Form::Built(Term::Constant { value: 0, width: 1 }),
        _ => Form::Built(Term::Binary(BinaryOp::Ult, a, b, width)),
    }
}

/// Whether the first is less, in two's complement.
pub fn less_signed(terms: &Terms, a: TermId, b: TermId) -> Form
    requires a { a.index < length terms.now }
    requires b { b.index < length terms.now }
    requires alike { width_of (tree_in terms.now a) ≡ width_of (tree_in terms.now b) }
    ensures { Simplifies terms.now (tree.Binary op.Slt (tree_in terms.now a) (tree_in terms.now b) (width_of (tree_in terms.now a))) result }
{
    let width = terms.width(a);
    // icmp slt X, X --> false
    if a.index == b.index {
        return Form::Built(Term::Constant { value: 0, width: 1 });
    }
    // icmp slt X, Y --> icmp ult X, Y, if most(X) and most(Y) u< (1 << (width - 1))
    if has_no_sign(terms, a) {
        if has_no_sign(terms, b) {
            return less(terms, a, b);
        }
    }
    Form::Built(Term::Binary(BinaryOp::Slt, a, b, width))
}

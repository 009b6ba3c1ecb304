//! Rules of shifts.

ghost use Rattle.std.specs.Prelude.{◌≡◌, ◌<◌, length};
ghost use Rattle.bv_terms.specs.declared.term.BinaryOp.TheVariants as op;
ghost use Rattle.bv_terms.specs.Tree as tree;
ghost use Rattle.bv_terms.specs.Tree.{width_of};
ghost use Rattle.bv_terms.specs.Trees.{tree_in};
ghost use Rattle.term_rules.specs.Forms.{Simplifies};

use crate::bounds::has_no_sign;
use crate::form::Form;
use bv_terms::{BinaryOp, Term, TermId, Terms};
use term_sums::number;

/// The first shifted left by the second.
pub fn left(terms: &Terms, a: TermId, b: TermId) -> Form
    requires a { a.index < length terms.now }
    requires b { b.index < length terms.now }
    requires alike { width_of (tree_in terms.now a) ≡ width_of (tree_in terms.now b) }
    ensures { Simplifies terms.now (tree.Binary op.Shl (tree_in terms.now a) (tree_in terms.now b) (width_of (tree_in terms.now a))) result }
{
    terms.values_fit();
    let width = terms.width(a);
    match number(terms, b) {
        // shl X, 0 --> X
        Some(count) if count == 0 => Form::Known(a),
        // shl X, C --> 0, if C >= width (a term is never poison)
        Some(count) if count >= width as u128 => Form::Built(Term::Constant { value: 0, width }),
        _ => Form::Built(Term::Binary(BinaryOp::Shl, a, b, width)),
    }
}

/// The first shifted right by the second.
pub fn logical_right(terms: &Terms, a: TermId, b: TermId) -> Form
    requires a { a.index < length terms.now }
    requires b { b.index < length terms.now }
    requires alike { width_of (tree_in terms.now a) ≡ width_of (tree_in terms.now b) }
    ensures { Simplifies terms.now (tree.Binary op.Lshr (tree_in terms.now a) (tree_in terms.now b) (width_of (tree_in terms.now a))) result }
{
    let width = terms.width(a);
    match number(terms, b) {
        // lshr X, 0 --> X
        Some(count) if count == 0 => Form::Known(a),
        // lshr X, C --> 0, if C >= width (a term is never poison)
        Some(count) if count >= width as u128 => Form::Built(Term::Constant { value: 0, width }),
        _ => Form::Built(Term::Binary(BinaryOp::Lshr, a, b, width)),
    }
}

/// The first shifted right by the second, with copies of its sign.
pub fn arithmetic_right(terms: &Terms, a: TermId, b: TermId) -> Form
    requires a { a.index < length terms.now }
    requires b { b.index < length terms.now }
    requires alike { width_of (tree_in terms.now a) ≡ width_of (tree_in terms.now b) }
    ensures { Simplifies terms.now (tree.Binary op.Ashr (tree_in terms.now a) (tree_in terms.now b) (width_of (tree_in terms.now a))) result }
{
    terms.values_fit();
    let width = terms.width(a);
    // ashr X, Y --> lshr X, Y, if the sign bit of X is 0
    if has_no_sign(terms, a) {
        return logical_right(terms, a, b);
    }
    match number(terms, b) {
        // ashr X, 0 --> X
        Some(count) if count == 0 => Form::Known(a),
        _ => Form::Built(Term::Binary(BinaryOp::Ashr, a, b, width)),
    }
}

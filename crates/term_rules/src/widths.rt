//! Rules of parts of numbers, and of numbers at other widths.

ghost use Rattle.std.specs.Prelude.{◌≡◌, ◌<◌, ◌≤◌, ◌+◌, ◌^◌, ℕ, IfSome, IsTrue, length};
ghost use Rattle.bv_terms.specs.Tree as tree;
ghost use Rattle.bv_terms.specs.Tree.{width_of};
ghost use Rattle.bv_terms.specs.Trees.{term_at, tree_in};
ghost use Rattle.term_rules.specs.Forms.{IsSamePart, Simplifies};

use crate::bounds::{has_no_sign, most};
use crate::form::Form;
use bv_terms::{Term, TermId, Terms};
use term_sums::{number, term};

/// How many operations a part is taken through.
const NESTING: u32 = 32;

/// Bits of a term, from bit `from` on.
#[derive(Clone, Copy)]
pub struct BitRange {
    pub a: TermId,
    pub from: u32,
}

/// The bits of the term, which is all of it or a part.
fn bits(terms: &Terms, a: TermId, from: u32, width: u32) -> Form
    requires a { a.index < length terms.now }
    requires least { 1 ≤ width }
    requires most { from + width ≤ width_of (tree_in terms.now a) }
    ensures { Simplifies terms.now (tree.Extract (tree_in terms.now a) from width) result }
{
    terms.values_fit();
    if width == terms.width(a) {
        Form::Known(a)
    } else {
        Form::Built(Term::Extract { a, from, width })
    }
}

/// The bits as those of an operand, if they plainly are.
fn narrower(terms: &Terms, a: TermId, from: u32, width: u32) -> Option<BitRange>
    requires a { a.index < length terms.now }
    requires most { from + width ≤ width_of (tree_in terms.now a) }
    ensures { IfSome result (IsSamePart terms.now a from width) }
{
    terms.values_fit();
    let _whole = terms.width(a);
    match term(terms, a) {
        // trunc (lshr (trunc (lshr X, C1)), C2) --> trunc (lshr X, C1 + C2)
        Term::Extract {
            a: inner,
            from: below,
            ..
        } => {
            let _inner = terms.width(inner);
            Some(BitRange {
                a: inner,
                from: below + from,
            })
        }
        // bits of (concat X, Y) --> bits of Y, if all of them are in Y
        Term::Concat { low, below, .. } if from + width <= below => Some(BitRange { a: low, from }),
        // bits of (concat X, Y) --> bits of X, if none of them is in Y
        Term::Concat { high, below, .. } if below <= from => Some(BitRange {
            a: high,
            from: from - below,
        }),
        // trunc (lshr (zext X), C) --> trunc (lshr X, C), if the bits are all in X
        Term::Zext { a: inner, .. } if from + width <= terms.width(inner) => Some(BitRange {
            a: inner,
            from,
        }),
        _ => None,
    }
}

/// The bits as those of the term that they come from, through at most `NESTING` parts,
/// concatenations and widenings.
fn innermost(terms: &Terms, a: TermId, from: u32, width: u32) -> BitRange
    requires a { a.index < length terms.now }
    requires most { from + width ≤ width_of (tree_in terms.now a) }
    ensures { IsSamePart terms.now a from width result }
{
    let mut at = BitRange { a, from };
    for _ in 0..NESTING {
        match narrower(terms, at.a, at.from, width) {
            Some(inner) => at = inner,
            None => return at,
        }
    }
    at
}

/// Whether the term surely is 0 from bit `from` on.
fn ends_below(terms: &Terms, a: TermId, from: u32) -> bool
    requires { a.index < length terms.now }
    ensures { IsTrue result → (v : ℕ → ℕ → ℕ) → term_at v terms.now a < 2 ^ from }
{
    from < 128 && most(terms, a) < 1 << from
}

/// `width` bits of `a` from bit `from` on.
pub fn part(terms: &Terms, a: TermId, from: u32, width: u32) -> Form
    requires a { a.index < length terms.now }
    requires least { 1 ≤ width }
    requires most { from + width ≤ width_of (tree_in terms.now a) }
    ensures { Simplifies terms.now (tree.Extract (tree_in terms.now a) from width) result }
{
    let _whole = terms.width(a);
    let inner = innermost(terms, a, from, width);
    // trunc (lshr X, C) --> 0, if X < 2^C
    if ends_below(terms, inner.a, inner.from) {
        Form::Built(Term::Constant { value: 0, width })
    } else {
        bits(terms, inner.a, inner.from, width)
    }
}

/// The same number at a width that is as great or greater.
pub fn widened(terms: &Terms, a: TermId, width: u32) -> Form
    requires a { a.index < length terms.now }
    requires least { width_of (tree_in terms.now a) ≤ width }
    requires most { width ≤ 128 }
    ensures { Simplifies terms.now (tree.Zext (tree_in terms.now a) width) result }
{
    if width == terms.width(a) {
        return Form::Known(a);
    }
    match term(terms, a) {
        // zext (zext X) --> zext X
        Term::Zext { a: inner, .. } => Form::Built(Term::Zext { a: inner, width }),
        _ => Form::Built(Term::Zext { a, width }),
    }
}

/// The same number in two's complement at a width that is as great or greater.
pub fn widened_signed(terms: &Terms, a: TermId, width: u32) -> Form
    requires a { a.index < length terms.now }
    requires least { width_of (tree_in terms.now a) ≤ width }
    requires most { width ≤ 128 }
    ensures { Simplifies terms.now (tree.Sext (tree_in terms.now a) (width_of (tree_in terms.now a)) width) result }
{
    terms.values_fit();
    let from = terms.width(a);
    if width == from {
        return Form::Known(a);
    }
    // sext X --> zext X, if the sign bit of X is 0
    if has_no_sign(terms, a) {
        return widened(terms, a, width);
    }
    Form::Built(Term::Sext { a, from, width })
}

/// Two parts of one term, the second right below the first, as one part of it.
fn adjacent(terms: &Terms, high: TermId, low: TermId) -> Option<Form>
    requires high { high.index < length terms.now }
    requires low { low.index < length terms.now }
    requires most { width_of (tree_in terms.now high) + width_of (tree_in terms.now low) ≤ 128 }
    ensures { IfSome result (Simplifies terms.now (tree.Concat (tree_in terms.now high) (tree_in terms.now low)
        (width_of (tree_in terms.now low)) (width_of (tree_in terms.now high) + width_of (tree_in terms.now low)))) }
{
    match (term(terms, high), term(terms, low)) {
        (
            Term::Extract {
                a: whole,
                from: above,
                width: upper,
            },
            Term::Extract {
                a: same,
                from,
                width: lower,
            },
        ) if whole.index == same.index => {
            let _whole = terms.width(same);
            // concat of bits [C2, C3) and bits [C1, C2) of X --> bits [C1, C3) of X
            if above == from + lower {
                Some(bits(terms, whole, from, upper + lower))
            } else {
                None
            }
        }
        _ => None,
    }
}

/// The bits of `high` and then those of `low`.
pub fn joined(terms: &Terms, high: TermId, low: TermId) -> Form
    requires high { high.index < length terms.now }
    requires low { low.index < length terms.now }
    requires most { width_of (tree_in terms.now high) + width_of (tree_in terms.now low) ≤ 128 }
    ensures { Simplifies terms.now (tree.Concat (tree_in terms.now high) (tree_in terms.now low)
        (width_of (tree_in terms.now low)) (width_of (tree_in terms.now high) + width_of (tree_in terms.now low))) result }
{
    let below = terms.width(low);
    let width = terms.width(high) + below;
    if let Some(form) = adjacent(terms, high, low) {
        return form;
    }
    match number(terms, high) {
        // concat 0, X --> zext X
        Some(value) if value == 0 => Form::Built(Term::Zext { a: low, width }),
        _ => Form::Built(Term::Concat {
            high,
            low,
            below,
            width,
        }),
    }
}

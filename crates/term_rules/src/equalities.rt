//! Terms that surely are equal.

ghost use Rattle.std.specs.Prelude.{◌≡◌, ◌<◌, ℕ, IsTrue, length};
ghost use Rattle.bv_terms.specs.Tree.{width_of};
ghost use Rattle.bv_terms.specs.Trees.{term_at, tree_in};

use bv_terms::{Term, TermId, Terms};
use term_sums::{known_difference, term};

/// How far down the operands of two terms are compared.
const DEPTH: u32 = 4;

/// Whether two terms of one width surely are equal: they are one term, their sums are the same, or they
/// are one operation on terms that surely are equal.
pub fn are_equal_terms(terms: &Terms, a: TermId, b: TermId) -> bool
    requires a { a.index < length terms.now }
    requires b { b.index < length terms.now }
    requires alike { width_of (tree_in terms.now a) ≡ width_of (tree_in terms.now b) }
    ensures { IsTrue result → (v : ℕ → ℕ → ℕ) → term_at v terms.now a ≡ term_at v terms.now b }
{
    are_equal_within(terms, a, b, DEPTH)
}

/// The same, where the operands are compared at most `depth` operations down.
fn are_equal_within(terms: &Terms, a: TermId, b: TermId, depth: u32) -> bool
    requires a { a.index < length terms.now }
    requires b { b.index < length terms.now }
    requires alike { width_of (tree_in terms.now a) ≡ width_of (tree_in terms.now b) }
    ensures { IsTrue result → (v : ℕ → ℕ → ℕ) → term_at v terms.now a ≡ term_at v terms.now b }
{
    terms.values_fit();
    // icmp eq X, X --> true
    if a.index == b.index {
        return true;
    }
    // icmp eq (add X, C1), (add X, C2) --> true if C1 == C2
    if let Some(by) = known_difference(terms, a, b) {
        return by == 0;
    }
    if depth == 0 {
        return false;
    }
    let less = depth - 1;
    match (term(terms, a), term(terms, b)) {
        // icmp eq (xor X, -1), (xor Y, -1) --> true if X == Y
        (Term::Not { a: x, .. }, Term::Not { a: y, .. }) => are_equal_within(terms, x, y, less),
        // icmp eq (op X, Y), (op Z, T) --> true if X == Z and Y == T
        (Term::Binary(op, x, y, n), Term::Binary(other, z, t, m)) => op == other
            && n == m
            && are_equal_within(terms, x, z, less)
            && are_equal_within(terms, y, t, less),
        // icmp eq (select C, X, Y), (select D, Z, T) --> true if C == D, X == Z and Y == T
        (
            Term::Ite { c, a: x, b: y, .. },
            Term::Ite {
                c: d,
                a: z,
                b: t,
                ..
            },
        ) => {
            are_equal_within(terms, c, d, less)
                && are_equal_within(terms, x, z, less)
                && are_equal_within(terms, y, t, less)
        }
        // icmp eq (trunc (lshr X, C)), (trunc (lshr Y, C)) --> true if X == Y
        (
            Term::Extract { a: x, from, .. },
            Term::Extract {
                a: y,
                from: other,
                ..
            },
        ) => {
            from == other && terms.width(x) == terms.width(y) && are_equal_within(terms, x, y, less)
        }
        // icmp eq (or (shl (zext X), C), (zext iC Y)), (or (shl (zext Z), C), (zext iC T))
        //   --> true if X == Z and Y == T
        (
            Term::Concat {
                high: x,
                low: y,
                below,
                ..
            },
            Term::Concat {
                high: z,
                low: t,
                below: other,
                ..
            },
        ) => {
            below == other
                && are_equal_within(terms, x, z, less)
                && are_equal_within(terms, y, t, less)
        }
        // icmp eq (zext X), (zext Y) --> true if X == Y, of one width
        (Term::Zext { a: x, .. }, Term::Zext { a: y, .. }) => {
            terms.width(x) == terms.width(y) && are_equal_within(terms, x, y, less)
        }
        // icmp eq (sext X), (sext Y) --> true if X == Y, of one width
        (
            Term::Sext { a: x, from, .. },
            Term::Sext {
                a: y,
                from: other,
                ..
            },
        ) => { from == other && are_equal_within(terms, x, y, less) }
        _ => false,
    }
}

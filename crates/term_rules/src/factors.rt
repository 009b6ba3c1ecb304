//! Sums of products with a common factor.

ghost use Rattle.std.specs.Prelude.{◌≡◌, ◌<◌, ◌≤◌, ◌+◌, ◌*◌, ◌%◌, ◌^◌, IfOk, IfSome, length};
ghost use Rattle.bv_terms.specs.Tree.{width_of};
ghost use Rattle.bv_terms.specs.Trees.{Keeps, Makes, term_at, tree_in};
ghost use Rattle.known_values.specs.Weight.{weight_of};
ghost use Rattle.term_rules.specs.Forms.{IsCofactor, IsFactored};

use crate::arithmetic::{product, sum};
use crate::building::build;
use bv_terms::{BinaryOp, Term, TermId, Terms};
use support::NoMemory;
use term_sums::term;

/// The common factor of two products, and the other factor of each.
#[derive(Clone, Copy)]
pub struct Factors {
    pub common: TermId,
    pub first: TermId,
    pub second: TermId,
}

/// The other factor of the term, if it plainly is a product with `common`.
fn cofactor(terms: &Terms, a: TermId, common: TermId) -> Option<TermId>
    requires a { a.index < length terms.now }
    requires common { common.index < length terms.now }
    ensures { IfSome result (IsCofactor terms.now a common) }
{
    match term(terms, a) {
        // mul X, Y --> Y if X is the common factor
        Term::Binary(BinaryOp::Mul, first, second, _) if first.index == common.index => Some(
            second,
        ),
        // mul Y, X --> Y if X is the common factor
        Term::Binary(BinaryOp::Mul, first, second, _) if second.index == common.index => Some(
            first,
        ),
        _ => None,
    }
}

/// The factor that two products plainly have in common, and the other factor of each. `None` for
/// one product twice: `arithmetic::sum` makes that a shift, `add A, A --> shl A, 1`.
pub fn common_factor(terms: &Terms, a: TermId, b: TermId) -> Option<Factors>
    requires a { a.index < length terms.now }
    requires b { b.index < length terms.now }
    ensures { IfSome result (IsFactored terms.now a b) }
{
    if a.index == b.index {
        return None;
    }
    match term(terms, a) {
        Term::Binary(BinaryOp::Mul, left, right, _) => {
            // add (mul X, Y), (mul X, Z) --> mul X, (add Y, Z)
            // add (mul X, Y), (mul Z, X) --> mul X, (add Y, Z)
            if let Some(second) = cofactor(terms, b, left) {
                return Some(Factors {
                    common: left,
                    first: right,
                    second,
                });
            }
            // add (mul Y, X), (mul X, Z) --> mul X, (add Y, Z)
            // add (mul Y, X), (mul Z, X) --> mul X, (add Y, Z)
            if let Some(second) = cofactor(terms, b, right) {
                return Some(Factors {
                    common: right,
                    first: left,
                    second,
                });
            }
            None
        }
        _ => None,
    }
}

/// The product of the common factor with the sum of the others.
// add (mul X, Y), (mul X, Z) --> mul X, (add Y, Z)
pub fn distributed(terms: &mut Terms, factors: Factors) -> Result<TermId, NoMemory>
    requires common { factors.common.index < length terms.old }
    requires first { factors.first.index < length terms.old }
    requires second { factors.second.index < length terms.old }
    requires alike { width_of (tree_in terms.old factors.common) ≡ width_of (tree_in terms.old factors.first) }
    requires others { width_of (tree_in terms.old factors.first) ≡ width_of (tree_in terms.old factors.second) }
    ensures made { IfOk result (λ id. Makes terms.new id (width_of (tree_in terms.old factors.common))
        (λ v. (term_at v terms.old factors.common * ((term_at v terms.old factors.first + term_at v terms.old factors.second) % 2 ^ width_of (tree_in terms.old factors.common)))
        % 2 ^ width_of (tree_in terms.old factors.common))) }
    ensures least { IfOk result (λ id. weight_of (tree_in terms.new id)
        ≤ 2 + weight_of (tree_in terms.old factors.common) + weight_of (tree_in terms.old factors.first) + weight_of (tree_in terms.old factors.second)) }
    ensures kept { Keeps terms.old terms.new }
{
    let inner = sum(terms, factors.first, factors.second);
    let others = build(terms, inner)?;
    let outer = product(terms, factors.common, others);
    let id = build(terms, outer)?;
    Ok(id)
}

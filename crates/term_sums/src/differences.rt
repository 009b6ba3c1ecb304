//! By what number two terms differ, if it is always the same one.

ghost use Rattle.std.specs.Prelude.{◌≡◌, ◌<◌, ◌^◌, ℕ, List, IfSome, length};
ghost use Rattle.bv_terms.specs.declared.term.Term.{Term as TermNow};
ghost use Rattle.bv_terms.specs.Tree.{width_of};
ghost use Rattle.bv_terms.specs.Trees.{tree_in};
ghost use Rattle.term_sums.specs.Polynomials.{IsDifference, IsDifferenceWhere, sum_value};

use crate::expanding::difference_as_sum;
use crate::facts::{Fact, unknown_part, with_fact};
use crate::monomials::{Factor, Monomial};
use crate::reading::term;
use bv_terms::{BinaryOp, Term, TermId, Terms};
use known_values::numbers;

/// On so many conditions, one after the other, it may rest which terms the sums have.
const CASES: u32 = 3;

/// The number that a sum is, if it has no factors.
fn number_of(sum: &[Monomial]) -> Option<u128>
    ensures { IfSome result (λ n. (v : ℕ → ℕ → ℕ) (terms : List TermNow) (width : ℕ) → sum_value v terms width sum.now ≡ n) }
{
    match sum {
        [] => Some(0),
        [only] if only.factors.is_empty() => Some(only.coefficient),
        _ => None,
    }
}

/// A condition that is not known, on which a factor rests.
fn condition_of(terms: &Terms, facts: &[Fact], factor: Factor) -> Option<TermId>
    ensures { IfSome result (λ c. c.index < length terms.now) }
{
    match factor {
        Factor::Term(a) if a.index < terms.as_slice().len() => match term(terms, a) {
            Term::Ite { c, .. } => unknown_part(terms, facts, c),
            _ => None,
        },
        _ => None,
    }
}

/// A condition that is not known, on which a product rests.
fn condition_among(terms: &Terms, facts: &[Fact], factors: &[Factor]) -> Option<TermId>
    ensures { IfSome result (λ c. c.index < length terms.now) }
{
    for factor in factors {
        let found = condition_of(terms, facts, *factor);
        if found.is_some() {
            return found;
        }
    }
    None
}

/// A condition that is not known, on which a sum rests.
fn condition_in(terms: &Terms, facts: &[Fact], sum: &[Monomial]) -> Option<TermId>
    ensures { IfSome result (λ c. c.index < length terms.now) }
{
    for monomial in sum {
        let found = condition_among(terms, facts, monomial.factors.as_slice());
        if found.is_some() {
            return found;
        }
    }
    None
}

/// The number by which the first is greater than the second where the facts are true, modulo 2 to the
/// power of their width; by cases of conditions on which it rests.
fn difference_by_cases(
    terms: &Terms,
    facts: &[Fact],
    a: TermId,
    b: TermId,
    cases: u32,
) -> Option<u128>
    requires a { a.index < length terms.now }
    requires b { b.index < length terms.now }
    requires alike { width_of (tree_in terms.now a) ≡ width_of (tree_in terms.now b) }
    ensures { IfSome result (IsDifferenceWhere terms.now facts.now a b) }
{
    terms.values_fit();
    let width = terms.width(a);
    let sum = difference_as_sum(terms, facts, a, b)?;
    // sub X, Y --> C, if their sums differ by C alone
    if let Some(by) = number_of(sum.as_slice()) {
        return Some(numbers::cut(by, width));
    }
    if cases == 0 {
        return None;
    }
    // sub (select B, X, Y), Z --> C, if sub X, Z --> C and sub Y, Z --> C
    let condition = condition_in(terms, facts, sum.as_slice())?;
    let yes = with_fact(facts, condition, true)?;
    let first = difference_by_cases(terms, yes.as_slice(), a, b, cases - 1)?;
    let no = with_fact(facts, condition, false)?;
    let second = difference_by_cases(terms, no.as_slice(), a, b, cases - 1)?;
    if first == second { Some(first) } else { None }
}

/// Whether the term is looked into.
fn is_looked_into(terms: &Terms, a: TermId) -> bool
    requires { a.index < length terms.now }
{
    match term(terms, a) {
        Term::Not { .. } | Term::Zext { .. } => true,
        Term::Binary(op, ..) => match op {
            BinaryOp::Add | BinaryOp::Sub | BinaryOp::Mul | BinaryOp::Shl | BinaryOp::Urem => true,
            _ => false,
        },
        _ => false,
    }
}

/// The number by which the first is greater than the second, modulo 2 to the power of their width, if
/// their sums show it.
pub fn known_difference(terms: &Terms, a: TermId, b: TermId) -> Option<u128>
    requires a { a.index < length terms.now }
    requires b { b.index < length terms.now }
    requires alike { width_of (tree_in terms.now a) ≡ width_of (tree_in terms.now b) }
    ensures { IfSome result (IsDifference terms.now a b) }
{
    if !is_looked_into(terms, a) && !is_looked_into(terms, b) {
        return None;
    }
    difference_by_cases(terms, &[], a, b, CASES)
}

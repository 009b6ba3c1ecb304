//! What is known of a condition where another one is true or false.

ghost use Rattle.std.specs.Prelude.{◌≡◌, ◌<◌, ◌≤◌, ℕ, IfSome, IsTrue, false, length, not};
ghost use Rattle.bv_terms.specs.Trees.{bit_at};
ghost use Rattle.term_sums.specs.Findings.{Entails, IsEquation};

use crate::complements::are_inverse;
use crate::reading::{number, term};
use bv_terms::{BinaryOp, Term, TermId, Terms};

/// How many nodes of a conjunction are compared with a condition.
const CONJUNCTS: u32 = 24;

/// How far down the parts of a condition are looked at.
const DEPTH: u32 = 3;

/// A term that a condition compares with a number.
#[derive(Clone, Copy)]
pub struct Equation {
    pub number: u128,
    pub term: TermId,
}

/// What was found, and how many more nodes may be looked at.
#[derive(Clone, Copy)]
struct Search {
    known: Option<bool>,
    left: u32,
}

/// The term and the number of an equality with a constant.
// icmp eq X, C
fn equated(terms: &Terms, a: TermId) -> Option<Equation>
    requires { a.index < length terms.now }
    ensures { IfSome result (IsEquation terms.now a) }
{
    match term(terms, a) {
        Term::Binary(BinaryOp::Eq, first, second, _) => {
            if let Some(value) = number(terms, second) {
                return Some(Equation {
                    number: value,
                    term: first,
                });
            }
            let value = number(terms, first)?;
            Some(Equation {
                number: value,
                term: second,
            })
        }
        _ => None,
    }
}

/// Whether the two are equalities of one term with different numbers.
// icmp eq X, C1 is true: icmp eq X, C2 --> false, if C1 != C2
fn are_unequal(terms: &Terms, a: TermId, b: TermId) -> bool
    requires a { a.index < length terms.now }
    requires b { b.index < length terms.now }
    ensures { IsTrue result → Entails terms.now a b false }
{
    let Some(first) = equated(terms, a) else {
        return false;
    };
    let Some(second) = equated(terms, b) else {
        return false;
    };
    first.term.index == second.term.index && first.number != second.number
}

/// Whether one is plainly the negation of the other.
fn are_opposite(terms: &Terms, a: TermId, b: TermId) -> bool
    requires a { a.index < length terms.now }
    requires b { b.index < length terms.now }
    ensures { IsTrue result → (v : ℕ → ℕ → ℕ) → bit_at v terms.now b ≡ not (bit_at v terms.now a) }
{
    terms.values_fit();
    if terms.width(a) != 1 {
        return false;
    }
    if terms.width(b) != 1 {
        return false;
    }
    are_inverse(terms, a, b)
}

/// What `d` is where `fact` is true, by the top of the two terms.
fn known_from(terms: &Terms, fact: TermId, d: TermId) -> Option<bool>
    requires fact { fact.index < length terms.now }
    requires d { d.index < length terms.now }
    ensures { IfSome result (Entails terms.now fact d) }
{
    if fact.index == d.index {
        return Some(true);
    }
    // X is true: xor X, true --> false
    if are_opposite(terms, fact, d) {
        return Some(false);
    }
    if are_unequal(terms, fact, d) {
        return Some(false);
    }
    None
}

/// What `d` is where `c` is true, by one of the first `fuel` nodes of the conjunction `c`.
fn known_by(terms: &Terms, c: TermId, d: TermId, fuel: u32) -> Search
    requires c { c.index < length terms.now }
    requires d { d.index < length terms.now }
    ensures known { IfSome result.known (Entails terms.now c d) }
    ensures left { result.left ≤ fuel }
{
    if fuel == 0 {
        return Search {
            known: None,
            left: 0,
        };
    }
    let left = fuel - 1;
    let known = known_from(terms, c, d);
    if known.is_some() {
        return Search { known, left };
    }
    match term(terms, c) {
        // and X, Y is true: X --> true, Y --> true
        Term::Binary(BinaryOp::And, first, second, _) => {
            let found = known_by(terms, first, d, left);
            if found.known.is_some() {
                return found;
            }
            known_by(terms, second, d, found.left)
        }
        _ => Search { known: None, left },
    }
}

/// What `d` is where `c` is true, by the conjuncts of `c` and by the parts of `d` down to a depth.
fn known_within(terms: &Terms, c: TermId, d: TermId, depth: u32) -> Option<bool>
    requires c { c.index < length terms.now }
    requires d { d.index < length terms.now }
    ensures { IfSome result (Entails terms.now c d) }
{
    terms.values_fit();
    let found = known_by(terms, c, d, CONJUNCTS);
    if found.known.is_some() {
        return found.known;
    }
    if depth == 0 {
        return None;
    }
    match term(terms, d) {
        Term::Not { a, width } if width == 1 => {
            let known = known_within(terms, c, a, depth - 1)?;
            Some(!known)
        }
        Term::Binary(BinaryOp::And, first, second, width) if width == 1 => {
            match known_within(terms, c, first, depth - 1) {
                Some(true) => known_within(terms, c, second, depth - 1),
                Some(false) => Some(false),
                None => match known_within(terms, c, second, depth - 1) {
                    Some(false) => Some(false),
                    _ => None,
                },
            }
        }
        _ => None,
    }
}

/// What `d` plainly is where `c` is true.
pub fn known_where_true(terms: &Terms, c: TermId, d: TermId) -> Option<bool>
    requires c { c.index < length terms.now }
    requires d { d.index < length terms.now }
    ensures { IfSome result (Entails terms.now c d) }
{
    known_within(terms, c, d, DEPTH)
}

/// What `d` plainly is where `c` is false: false if `c` is a conjunct of it, true if it is the
/// negation of `c`.
pub fn known_where_false(terms: &Terms, c: TermId, d: TermId) -> Option<bool>
    requires c { c.index < length terms.now }
    requires d { d.index < length terms.now }
    ensures { IfSome result (λ known. (v : ℕ → ℕ → ℕ) → bit_at v terms.now c ≡ false → bit_at v terms.now d ≡ known) }
{
    // X is false: xor X, true --> true
    if are_opposite(terms, c, d) {
        return Some(true);
    }
    // X is false: and X, Y --> false
    match known_by(terms, d, c, CONJUNCTS).known {
        Some(true) => Some(false),
        _ => None,
    }
}

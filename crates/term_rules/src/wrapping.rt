//! Quotients and remainders of products, shifts and sums that do not wrap.
//!
//! A `mul nuw` is poison where its product wraps, and a division of poison is poison: where that
//! condition is true, the number of the quotient does not matter.

ghost use Rattle.std.specs.Prelude.{◌≡◌, ◌⊎◌, ◌<◌, ◌≤◌, ◌*◌, ◌^◌, ℕ, IfOk, IfSome, IsTrue, false, length};
ghost use Rattle.bv_terms.specs.declared.term.BinaryOp.TheVariants as op;
ghost use Rattle.bv_terms.specs.Tree as tree;
ghost use Rattle.bv_terms.specs.Tree.{quotient, remainder, shifted_right, width_of};
ghost use Rattle.bv_terms.specs.Trees.{IsTerm, Keeps, bit_at, term_at, tree_in};
ghost use Rattle.known_values.specs.Weight.{weight_of};
ghost use Rattle.term_rules.specs.Wrapping.{AreEqualWhereFalse, IsExactFactor, IsExactShift, IsKept, IsPlain, IsRestWhere};

use crate::builders::{constant, shl, udiv, urem};
use crate::shrinking::before_widening;
use bv_terms::{BinaryOp, Term, TermId, Terms};
use support::NoMemory;
use term_sums::{numbers, term};

/// How many nodes of a disjunction are looked at.
const DISJUNCTS: u32 = 24;

/// An operation on unsigned numbers that is said to lose nothing.
#[derive(Clone, Copy)]
pub enum Plain {
    /// The product of two terms.
    Product {
        x: TermId,
        y: TermId,
    },
    /// The first is the second shifted left by the third.
    Shift {
        a: TermId,
        x: TermId,
        amount: TermId,
    },
    /// The first is the sum of the other two.
    Sum {
        a: TermId,
        x: TermId,
        y: TermId,
    },
    /// The quotient of the first by the second.
    Quotient {
        x: TermId,
        y: TermId,
    },
}

/// What was found, and how many more nodes may be looked at.
#[derive(Clone, Copy)]
struct Search {
    found: bool,
    left: u32,
}

/// Two terms.
#[derive(Clone, Copy)]
pub struct Pair {
    pub first: TermId,
    pub second: TermId,
}

/// The two that are equal where the condition is false, if it is the negation of an equality.
// xor (icmp eq X, Y), true
fn unequal(terms: &Terms, p: TermId) -> Option<Pair>
    requires { p.index < length terms.now }
    ensures { IfSome result (AreEqualWhereFalse terms.now p) }
{
    match term(terms, p) {
        Term::Not { a, width } if width == 1 => match term(terms, a) {
            Term::Binary(BinaryOp::Eq, first, second, _) => Some(Pair { first, second }),
            _ => None,
        },
        _ => None,
    }
}

/// Whether the first plainly is the second, of its width or a greater one.
fn is_widened(terms: &Terms, a: TermId, inner: TermId) -> bool
    requires a { a.index < length terms.now }
    requires inner { inner.index < length terms.now }
    ensures { IsTrue result → (v : ℕ → ℕ → ℕ) → term_at v terms.now inner ≡ term_at v terms.now a }
{
    if let Some((first, second)) = numbers(terms, a, inner) {
        return first == second;
    }
    match before_widening(terms, a) {
        Some(narrow) => narrow.index == inner.index,
        None => false,
    }
}

/// Whether the term plainly is the product of the two at twice their width.
// mul (zext X), (zext Y), at twice the width; also with the operands exchanged
fn is_whole_product(terms: &Terms, m: TermId, x: TermId, y: TermId) -> bool
    requires m { m.index < length terms.now }
    requires x { x.index < length terms.now }
    requires y { y.index < length terms.now }
    requires alike { width_of (tree_in terms.now x) ≡ width_of (tree_in terms.now y) }
    ensures { IsTrue result → (v : ℕ → ℕ → ℕ) → term_at v terms.now m ≡ term_at v terms.now x * term_at v terms.now y }
{
    terms.values_fit();
    match term(terms, m) {
        Term::Binary(BinaryOp::Mul, left, right, width) if width == 2 * terms.width(x) => {
            if is_widened(terms, left, x) && is_widened(terms, right, y) {
                return true;
            }
            is_widened(terms, left, y) && is_widened(terms, right, x)
        }
        _ => false,
    }
}

/// Whether the term plainly is the high half of the product of the two at twice their width.
// trunc (lshr (mul (zext X), (zext Y)), width of X)
fn is_high_half(terms: &Terms, h: TermId, x: TermId, y: TermId) -> bool
    requires h { h.index < length terms.now }
    requires x { x.index < length terms.now }
    requires y { y.index < length terms.now }
    requires alike { width_of (tree_in terms.now x) ≡ width_of (tree_in terms.now y) }
    ensures { IsTrue result → (v : ℕ → ℕ → ℕ) → term_at v terms.now h ≡ 0 → term_at v terms.now x * term_at v terms.now y < 2 ^ width_of (tree_in terms.now x) }
{
    terms.values_fit();
    match term(terms, h) {
        Term::Extract { a, from, width } if from == width && width == terms.width(x) => {
            is_whole_product(terms, a, x, y)
        }
        _ => false,
    }
}

/// Whether the condition says that the product of the two wraps.
// mul nuw X, Y is poison: icmp ne (high half of mul (zext X), (zext Y)), 0
fn says_product(terms: &Terms, p: TermId, x: TermId, y: TermId) -> bool
    requires p { p.index < length terms.now }
    requires x { x.index < length terms.now }
    requires y { y.index < length terms.now }
    requires alike { width_of (tree_in terms.now x) ≡ width_of (tree_in terms.now y) }
    ensures { IsTrue result → (v : ℕ → ℕ → ℕ) → bit_at v terms.now p ≡ false → term_at v terms.now x * term_at v terms.now y < 2 ^ width_of (tree_in terms.now x) }
{
    let Some(pair) = unequal(terms, p) else {
        return false;
    };
    match term(terms, pair.second) {
        Term::Constant { value, .. } if value == 0 => is_high_half(terms, pair.first, x, y),
        _ => false,
    }
}

/// Whether the term plainly is the first shifted right by the second.
fn is_shifted_back(terms: &Terms, back: TermId, a: TermId, amount: TermId) -> bool
    requires back { back.index < length terms.now }
    requires a { a.index < length terms.now }
    requires amount { amount.index < length terms.now }
    ensures { IsTrue result → (v : ℕ → ℕ → ℕ) → term_at v terms.now back ≡ shifted_right (width_of (tree_in terms.now a)) (term_at v terms.now a) (term_at v terms.now amount) }
{
    match term(terms, back) {
        Term::Binary(BinaryOp::Lshr, moved, by, _) => {
            moved.index == a.index && by.index == amount.index
        }
        _ => false,
    }
}

/// Whether the term plainly is the remainder of the first by the second.
fn is_rest(terms: &Terms, rest: TermId, x: TermId, y: TermId) -> bool
    requires rest { rest.index < length terms.now }
    requires x { x.index < length terms.now }
    requires y { y.index < length terms.now }
    ensures { IsTrue result → (v : ℕ → ℕ → ℕ) → term_at v terms.now rest ≡ remainder (term_at v terms.now x) (term_at v terms.now y) }
{
    match term(terms, rest) {
        Term::Binary(BinaryOp::Urem, dividend, divisor, _) => {
            dividend.index == x.index && divisor.index == y.index
        }
        _ => false,
    }
}

/// Whether the condition says that a shift lost bits.
// shl nuw X, Y is poison: icmp ne X, (lshr (shl X, Y), Y)
fn says_shift(terms: &Terms, p: TermId, a: TermId, x: TermId, amount: TermId) -> bool
    requires p { p.index < length terms.now }
    requires a { a.index < length terms.now }
    requires x { x.index < length terms.now }
    requires amount { amount.index < length terms.now }
    ensures { IsTrue result → (v : ℕ → ℕ → ℕ) → bit_at v terms.now p ≡ false → shifted_right (width_of (tree_in terms.now a)) (term_at v terms.now a) (term_at v terms.now amount) ≡ term_at v terms.now x }
{
    let Some(pair) = unequal(terms, p) else {
        return false;
    };
    if pair.first.index == x.index {
        return is_shifted_back(terms, pair.second, a, amount);
    }
    pair.second.index == x.index && is_shifted_back(terms, pair.first, a, amount)
}

/// Whether the condition says that the first, a sum of the other two, wraps.
// add nuw X, Y is poison: icmp ult (add X, Y), X or icmp ult (add X, Y), Y
fn says_sum(terms: &Terms, p: TermId, a: TermId, x: TermId, y: TermId) -> bool
    requires p { p.index < length terms.now }
    requires a { a.index < length terms.now }
    requires x { x.index < length terms.now }
    requires y { y.index < length terms.now }
    ensures { IsTrue result → (v : ℕ → ℕ → ℕ) → bit_at v terms.now p ≡ false → (term_at v terms.now x ≤ term_at v terms.now a) ⊎ (term_at v terms.now y ≤ term_at v terms.now a) }
{
    match term(terms, p) {
        Term::Binary(BinaryOp::Ult, sum, part, _) if sum.index == a.index => {
            part.index == x.index || part.index == y.index
        }
        _ => false,
    }
}

/// Whether the condition says that the division leaves a remainder.
// udiv exact X, Y is poison: icmp ne (urem X, Y), 0
fn says_quotient(terms: &Terms, p: TermId, x: TermId, y: TermId) -> bool
    requires p { p.index < length terms.now }
    requires x { x.index < length terms.now }
    requires y { y.index < length terms.now }
    ensures { IsTrue result → (v : ℕ → ℕ → ℕ) → bit_at v terms.now p ≡ false → remainder (term_at v terms.now x) (term_at v terms.now y) ≡ 0 }
{
    let Some(pair) = unequal(terms, p) else {
        return false;
    };
    match term(terms, pair.second) {
        Term::Constant { value, .. } if value == 0 => is_rest(terms, pair.first, x, y),
        _ => false,
    }
}

/// Whether the condition plainly is that the operation loses something.
fn says(terms: &Terms, p: TermId, plain: Plain) -> bool
    requires p { p.index < length terms.now }
    requires plain { IsPlain terms.now plain }
    ensures { IsTrue result → IsKept terms.now p plain }
{
    match plain {
        Plain::Product { x, y } => says_product(terms, p, x, y),
        Plain::Shift { a, x, amount } => says_shift(terms, p, a, x, amount),
        Plain::Sum { a, x, y } => says_sum(terms, p, a, x, y),
        Plain::Quotient { x, y } => says_quotient(terms, p, x, y),
    }
}

/// Whether one of the first `fuel` nodes of the disjunction `p` says that the operation loses something.
fn says_one_of(terms: &Terms, p: TermId, plain: Plain, fuel: u32) -> Search
    requires p { p.index < length terms.now }
    requires plain { IsPlain terms.now plain }
    ensures found { IsTrue result.found → IsKept terms.now p plain }
    ensures left { result.left ≤ fuel }
{
    if fuel == 0 {
        return Search {
            found: false,
            left: 0,
        };
    }
    let left = fuel - 1;
    if says(terms, p, plain) {
        return Search { found: true, left };
    }
    match term(terms, p) {
        Term::Binary(BinaryOp::Or, first, second, _) => {
            let search = says_one_of(terms, first, plain, left);
            if search.found {
                return search;
            }
            says_one_of(terms, second, plain, search.left)
        }
        _ => Search { found: false, left },
    }
}

/// Whether the operation loses nothing where the condition is false.
pub fn is_plain(terms: &Terms, p: TermId, plain: Plain) -> bool
    requires p { p.index < length terms.now }
    requires plain { IsPlain terms.now plain }
    ensures { IsTrue result → IsKept terms.now p plain }
{
    says_one_of(terms, p, plain, DISJUNCTS).found
}

/// The other factor of a product that does not wrap where the condition is false.
fn cofactor(terms: &Terms, p: TermId, a: TermId, b: TermId) -> Option<TermId>
    requires p { p.index < length terms.now }
    requires a { a.index < length terms.now }
    requires b { b.index < length terms.now }
    ensures { IfSome result (IsExactFactor terms.now p a b) }
{
    match term(terms, a) {
        Term::Binary(BinaryOp::Mul, x, y, _) => {
            if !is_plain(terms, p, Plain::Product { x, y }) {
                return None;
            }
            if y.index == b.index {
                return Some(x);
            }
            if x.index == b.index { Some(y) } else { None }
        }
        _ => None,
    }
}

/// The amount by which the first is the second shifted left, without loss where the condition is
/// false.
fn amount(terms: &Terms, p: TermId, a: TermId, b: TermId) -> Option<TermId>
    requires p { p.index < length terms.now }
    requires a { a.index < length terms.now }
    requires b { b.index < length terms.now }
    ensures { IfSome result (IsExactShift terms.now p a b) }
{
    match term(terms, a) {
        Term::Binary(BinaryOp::Shl, x, amount, _) if x.index == b.index => {
            if is_plain(terms, p, Plain::Shift { a, x, amount }) {
                Some(amount)
            } else {
                None
            }
        }
        _ => None,
    }
}

/// Whether the first is a multiple of the second where the condition is false.
fn is_multiple(terms: &Terms, p: TermId, a: TermId, b: TermId) -> bool
    requires p { p.index < length terms.now }
    requires a { a.index < length terms.now }
    requires b { b.index < length terms.now }
    ensures { IsTrue result → (v : ℕ → ℕ → ℕ) → bit_at v terms.now p ≡ false → remainder (term_at v terms.now a) (term_at v terms.now b) ≡ 0 }
{
    if let Some(_factor) = cofactor(terms, p, a, b) {
        return true;
    }
    if let Some(_by) = amount(terms, p, a, b) {
        return true;
    }
    false
}

/// What is left of the first, a sum that does not wrap where the condition is false, without a
/// multiple of the second.
fn beside_multiple(terms: &Terms, p: TermId, a: TermId, b: TermId) -> Option<TermId>
    requires p { p.index < length terms.now }
    requires a { a.index < length terms.now }
    requires b { b.index < length terms.now }
    ensures { IfSome result (IsRestWhere terms.now p a b) }
{
    terms.values_fit();
    match term(terms, a) {
        Term::Binary(BinaryOp::Add, x, y, _) => {
            if !is_plain(terms, p, Plain::Sum { a, x, y }) {
                return None;
            }
            if let Some(_factor) = cofactor(terms, p, x, b) {
                return Some(y);
            }
            let _factor = cofactor(terms, p, y, b)?;
            Some(x)
        }
        _ => None,
    }
}

/// The quotient of unsigned numbers, where the condition is false and the divisor is not 0.
pub fn udiv_where(
    terms: &mut Terms,
    poison: TermId,
    a: TermId,
    b: TermId,
) -> Result<TermId, NoMemory>
    requires poison { poison.index < length terms.old }
    requires a { a.index < length terms.old }
    requires b { b.index < length terms.old }
    requires alike { width_of (tree_in terms.old a) ≡ width_of (tree_in terms.old b) }
    ensures made { IfOk result (IsTerm terms.new (width_of (tree_in terms.old a))) }
    ensures says { IfOk result (λ id. (v : ℕ → ℕ → ℕ) → bit_at v terms.old poison ≡ false → 1 ≤ term_at v terms.old b
        → term_at v terms.new id ≡ quotient (width_of (tree_in terms.old a)) (term_at v terms.old a) (term_at v terms.old b)) }
    ensures least { IfOk result (λ id. weight_of (tree_in terms.new id) ≤ weight_of (tree.Binary op.Udiv (tree_in terms.old a) (tree_in terms.old b) (width_of (tree_in terms.old a)))) }
    ensures kept { Keeps terms.old terms.new }
{
    terms.values_fit();
    // udiv (mul nuw X, Y), Y --> X
    // udiv (mul nuw Y, X), Y --> X
    if let Some(factor) = cofactor(terms, poison, a, b) {
        return Ok(factor);
    }
    // udiv (shl nuw X, Y), X --> shl 1, Y
    if let Some(by) = amount(terms, poison, a, b) {
        let width = terms.width(a);
        let one = constant(terms, 1, width)?;
        let id = shl(terms, one, by)?;
        return Ok(id);
    }
    udiv(terms, a, b)
}

/// The remainder of unsigned numbers, where the condition is false.
pub fn urem_where(
    terms: &mut Terms,
    poison: TermId,
    a: TermId,
    b: TermId,
) -> Result<TermId, NoMemory>
    requires poison { poison.index < length terms.old }
    requires a { a.index < length terms.old }
    requires b { b.index < length terms.old }
    requires alike { width_of (tree_in terms.old a) ≡ width_of (tree_in terms.old b) }
    ensures made { IfOk result (IsTerm terms.new (width_of (tree_in terms.old a))) }
    ensures says { IfOk result (λ id. (v : ℕ → ℕ → ℕ) → bit_at v terms.old poison ≡ false
        → term_at v terms.new id ≡ remainder (term_at v terms.old a) (term_at v terms.old b)) }
    ensures least { IfOk result (λ id. weight_of (tree_in terms.new id) ≤ weight_of (tree.Binary op.Urem (tree_in terms.old a) (tree_in terms.old b) (width_of (tree_in terms.old a)))) }
    ensures kept { Keeps terms.old terms.new }
{
    terms.values_fit();
    // urem (mul nuw X, Y), Y --> 0
    // urem (shl nuw X, Y), X --> 0
    if is_multiple(terms, poison, a, b) {
        let width = terms.width(a);
        let id = constant(terms, 0, width)?;
        return Ok(id);
    }
    // urem (add nuw (mul nuw X, Y), Z), Y --> urem Z, Y
    if let Some(rest) = beside_multiple(terms, poison, a, b) {
        let id = urem(terms, rest, b)?;
        return Ok(id);
    }
    urem(terms, a, b)
}

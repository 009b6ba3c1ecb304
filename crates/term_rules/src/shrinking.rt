//! Operations on two numbers of which one was widened, at the width before.

ghost use Rattle.std.specs.Prelude.{◌≡◌, ◌<◌, ◌≤◌, ◌+◌, ◌-◌, ◌^◌, ℕ, IfOk, IfSome, cond, length, nat_lt, nat_eq};
ghost use Rattle.bv_terms.specs.Tree.{digit, quotient, remainder, value_of, width_of};
ghost use Rattle.bv_terms.specs.Trees.{Keeps, Makes, bit_at, term_at, tree_in};
ghost use Rattle.known_values.specs.Weight.{weight_of};
ghost use Rattle.term_rules.specs.Forms.{IsPair, IsShrunk, IsTaken, IsWidened, form_tree};

use crate::building::build;
use crate::form::Form;
use crate::widths::widened;
use crate::{bitwise, choices, comparisons, divisions};
use bv_terms::{Term, TermId, Terms};
use known_values::numbers::ones;
use support::NoMemory;
use term_sums::{number, term};

/// Two numbers at the width that the first had before it was widened.
#[derive(Clone, Copy)]
pub struct Shrunk {
    pub first: TermId,
    pub second: Form,
}

/// The term that was widened with zeros to this one.
// X of zext X
pub fn before_widening(terms: &Terms, a: TermId) -> Option<TermId>
    requires { a.index < length terms.now }
    ensures { IfSome result (IsWidened terms.now a) }
{
    match term(terms, a) {
        Term::Zext { a: inner, .. } => Some(inner),
        _ => None,
    }
}

/// The two at the width that the first had before it was widened, if the second was widened from
/// that width or less, or is a constant that fits it.
pub fn shrunk_pair(terms: &Terms, a: TermId, b: TermId) -> Option<Shrunk>
    requires a { a.index < length terms.now }
    requires b { b.index < length terms.now }
    ensures shrunk { IfSome result (IsShrunk terms.now a b) }
    ensures fits { IfSome result (λ s. (v : ℕ → ℕ → ℕ) → term_at v terms.now b < 2 ^ width_of (tree_in terms.now s.first)) }
{
    terms.values_fit();
    let first = before_widening(terms, a)?;
    let width = terms.width(first);
    if let Some(value) = number(terms, b) {
        // op (zext X), C --> op X, (trunc C), if C fits the width of X
        if value <= ones(width) {
            return Some(Shrunk {
                first,
                second: Form::Built(Term::Constant { value, width }),
            });
        }
        return None;
    }
    // op (zext X), (zext Y) --> op X, (zext Y), if Y is no wider than X
    let second = before_widening(terms, b)?;
    if terms.width(second) <= width {
        Some(Shrunk {
            first,
            second: widened(terms, second, width),
        })
    } else {
        None
    }
}

/// The same where the second is a constant other than 0.
pub fn shrunk_by_number(terms: &Terms, a: TermId, b: TermId) -> Option<Shrunk>
    requires a { a.index < length terms.now }
    requires b { b.index < length terms.now }
    ensures shrunk { IfSome result (IsShrunk terms.now a b) }
    ensures divides { IfSome result (λ _. (v : ℕ → ℕ → ℕ) → 1 ≤ term_at v terms.now b) }
{
    let value = number(terms, b)?;
    if value == 0 {
        None
    } else {
        shrunk_pair(terms, a, b)
    }
}

/// The same where the width before is smaller: then neither number has a sign.
pub fn shrunk_further(terms: &Terms, a: TermId, b: TermId) -> Option<Shrunk>
    requires a { a.index < length terms.now }
    requires b { b.index < length terms.now }
    ensures shrunk { IfSome result (IsShrunk terms.now a b) }
    ensures fits { IfSome result (λ s. (v : ℕ → ℕ → ℕ) → term_at v terms.now b < 2 ^ width_of (tree_in terms.now s.first)) }
    ensures less { IfSome result (λ s. width_of (tree_in terms.now s.first) < width_of (tree_in terms.now a)) }
{
    let pair = shrunk_pair(terms, a, b)?;
    if terms.width(pair.first) < terms.width(a) {
        Some(pair)
    } else {
        None
    }
}

/// The term whose inverse, widened, is the difference of the two: the first is the greatest number
/// of that term's width, and the second is that term widened.
// sub C, (zext X) --> zext (xor X, -1), if C is 2^w - 1 with w the width of X
pub fn rest_of_ones(terms: &Terms, a: TermId, b: TermId) -> Option<TermId>
    requires a { a.index < length terms.now }
    requires b { b.index < length terms.now }
    ensures { IfSome result (IsTaken terms.now a b) }
{
    terms.values_fit();
    let value = number(terms, a)?;
    let inner = before_widening(terms, b)?;
    let width = terms.width(inner);
    if value == ones(width) {
        Some(inner)
    } else {
        None
    }
}

/// The inverse of a term, widened.
// zext (xor X, -1)
pub fn widened_inverse(terms: &mut Terms, a: TermId, width: u32) -> Result<TermId, NoMemory>
    requires a { a.index < length terms.old }
    requires least { width_of (tree_in terms.old a) ≤ width }
    requires most { width ≤ 128 }
    ensures made { IfOk result (λ id. Makes terms.new id width (λ v. 2 ^ width_of (tree_in terms.old a) - 1 - term_at v terms.old a)) }
    ensures least { IfOk result (λ id. weight_of (tree_in terms.new id) ≤ 2 + weight_of (tree_in terms.old a)) }
    ensures kept { Keeps terms.old terms.new }
{
    let inverse = bitwise::inverse(terms, a);
    let narrow = build(terms, inverse)?;
    let form = widened(terms, narrow, width);
    let id = build(terms, form)?;
    Ok(id)
}

/// The choice between the two, widened.
// select C, (zext X), (zext Y) --> zext (select C, X, Y)
pub fn widened_choice(
    terms: &mut Terms,
    c: TermId,
    pair: Shrunk,
    width: u32,
) -> Result<TermId, NoMemory>
    requires c { c.index < length terms.old }
    requires bit { width_of (tree_in terms.old c) ≡ 1 }
    requires pair { IsPair terms.old pair }
    requires least { width_of (tree_in terms.old pair.first) ≤ width }
    requires most { width ≤ 128 }
    ensures made { IfOk result (λ id. Makes terms.new id width (λ v. cond (bit_at v terms.old c) (term_at v terms.old pair.first) (value_of v (form_tree terms.old pair.second)))) }
    ensures least { IfOk result (λ id. weight_of (tree_in terms.new id) ≤ 2 + weight_of (tree_in terms.old c) + weight_of (tree_in terms.old pair.first) + weight_of (form_tree terms.old pair.second)) }
    ensures kept { Keeps terms.old terms.new }
{
    let second = build(terms, pair.second)?;
    let form = choices::choice(terms, c, pair.first, second);
    let narrow = build(terms, form)?;
    let form = widened(terms, narrow, width);
    let id = build(terms, form)?;
    Ok(id)
}

/// The choice between the second and the first, widened.
// select C, (zext Y), (zext X) --> zext (select C, Y, X)
pub fn widened_choice_turned(
    terms: &mut Terms,
    c: TermId,
    pair: Shrunk,
    width: u32,
) -> Result<TermId, NoMemory>
    requires c { c.index < length terms.old }
    requires bit { width_of (tree_in terms.old c) ≡ 1 }
    requires pair { IsPair terms.old pair }
    requires least { width_of (tree_in terms.old pair.first) ≤ width }
    requires most { width ≤ 128 }
    ensures made { IfOk result (λ id. Makes terms.new id width (λ v. cond (bit_at v terms.old c) (value_of v (form_tree terms.old pair.second)) (term_at v terms.old pair.first))) }
    ensures least { IfOk result (λ id. weight_of (tree_in terms.new id) ≤ 2 + weight_of (tree_in terms.old c) + weight_of (tree_in terms.old pair.first) + weight_of (form_tree terms.old pair.second)) }
    ensures kept { Keeps terms.old terms.new }
{
    let second = build(terms, pair.second)?;
    let form = choices::choice(terms, c, second, pair.first);
    let narrow = build(terms, form)?;
    let form = widened(terms, narrow, width);
    let id = build(terms, form)?;
    Ok(id)
}

/// The remainder of the two, widened.
// urem (zext X), (zext Y) --> zext (urem X, Y)
pub fn widened_remainder(terms: &mut Terms, pair: Shrunk, width: u32) -> Result<TermId, NoMemory>
    requires pair { IsPair terms.old pair }
    requires least { width_of (tree_in terms.old pair.first) ≤ width }
    requires most { width ≤ 128 }
    ensures made { IfOk result (λ id. Makes terms.new id width (λ v. remainder (term_at v terms.old pair.first) (value_of v (form_tree terms.old pair.second)))) }
    ensures least { IfOk result (λ id. weight_of (tree_in terms.new id) ≤ 2 + weight_of (tree_in terms.old pair.first) + weight_of (form_tree terms.old pair.second)) }
    ensures kept { Keeps terms.old terms.new }
{
    let second = build(terms, pair.second)?;
    let rest = divisions::remainder(terms, pair.first, second);
    let narrow = build(terms, rest)?;
    let form = widened(terms, narrow, width);
    let id = build(terms, form)?;
    Ok(id)
}

/// The quotient of the two, widened.
// udiv (zext X), C --> zext (udiv X, (trunc C))
pub fn widened_quotient(terms: &mut Terms, pair: Shrunk, width: u32) -> Result<TermId, NoMemory>
    requires pair { IsPair terms.old pair }
    requires least { width_of (tree_in terms.old pair.first) ≤ width }
    requires most { width ≤ 128 }
    ensures made { IfOk result (λ id. Makes terms.new id width
        (λ v. quotient (width_of (tree_in terms.old pair.first)) (term_at v terms.old pair.first) (value_of v (form_tree terms.old pair.second)))) }
    ensures least { IfOk result (λ id. weight_of (tree_in terms.new id) ≤ 2 + weight_of (tree_in terms.old pair.first) + weight_of (form_tree terms.old pair.second)) }
    ensures kept { Keeps terms.old terms.new }
{
    let second = build(terms, pair.second)?;
    let whole = divisions::quotient(terms, pair.first, second);
    let narrow = build(terms, whole)?;
    let form = widened(terms, narrow, width);
    let id = build(terms, form)?;
    Ok(id)
}

/// Whether the two are equal.
// icmp eq (zext X), (zext Y) --> icmp eq X, Y
pub fn are_equal(terms: &mut Terms, pair: Shrunk) -> Result<TermId, NoMemory>
    requires { IsPair terms.old pair }
    ensures made { IfOk result (λ id. Makes terms.new id 1 (λ v. digit (nat_eq (term_at v terms.old pair.first) (value_of v (form_tree terms.old pair.second))))) }
    ensures least { IfOk result (λ id. weight_of (tree_in terms.new id) ≤ 1 + weight_of (tree_in terms.old pair.first) + weight_of (form_tree terms.old pair.second)) }
    ensures kept { Keeps terms.old terms.new }
{
    let second = build(terms, pair.second)?;
    let form = comparisons::equal(terms, pair.first, second);
    let id = build(terms, form)?;
    Ok(id)
}

/// Whether the first is less.
// icmp ult (zext X), (zext Y) --> icmp ult X, Y
// icmp slt (zext X), (zext Y) --> icmp ult X, Y, if X is narrower than the zext
pub fn is_less(terms: &mut Terms, pair: Shrunk) -> Result<TermId, NoMemory>
    requires { IsPair terms.old pair }
    ensures made { IfOk result (λ id. Makes terms.new id 1 (λ v. digit (nat_lt (term_at v terms.old pair.first) (value_of v (form_tree terms.old pair.second))))) }
    ensures least { IfOk result (λ id. weight_of (tree_in terms.new id) ≤ 1 + weight_of (tree_in terms.old pair.first) + weight_of (form_tree terms.old pair.second)) }
    ensures kept { Keeps terms.old terms.new }
{
    let second = build(terms, pair.second)?;
    let form = comparisons::less(terms, pair.first, second);
    let id = build(terms, form)?;
    Ok(id)
}

/// Whether the second is less.
// icmp ult (zext Y), (zext X) --> icmp ult Y, X
// icmp slt (zext Y), (zext X) --> icmp ult Y, X, if X is narrower than the zext
pub fn is_greater(terms: &mut Terms, pair: Shrunk) -> Result<TermId, NoMemory>
    requires { IsPair terms.old pair }
    ensures made { IfOk result (λ id. Makes terms.new id 1 (λ v. digit (nat_lt (value_of v (form_tree terms.old pair.second)) (term_at v terms.old pair.first)))) }
    ensures least { IfOk result (λ id. weight_of (tree_in terms.new id) ≤ 1 + weight_of (tree_in terms.old pair.first) + weight_of (form_tree terms.old pair.second)) }
    ensures kept { Keeps terms.old terms.new }
{
    let second = build(terms, pair.second)?;
    let form = comparisons::less(terms, second, pair.first);
    let id = build(terms, form)?;
    Ok(id)
}

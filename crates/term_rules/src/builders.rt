//! A builder for each operation, as `bv_terms` has, of terms with at most as many nodes.
//!
//! Each answers a term with the value of the operation under every assignment, and leaves the
//! earlier ones as they were, even out of memory. Only [`variable`] adds a variable.

ghost use Rattle.std.specs.Prelude.{◌≡◌, [], ◌∷◌, ◌<◌, ◌≤◌, ◌+◌, ◌-◌, ◌*◌, ◌/◌, ◌%◌, ◌^◌, IfOk, Some, length, slice_get, cond, nat_eq, nat_lt, bit_and, bit_or, bit_xor};
ghost use Rattle.bv_terms.specs.declared.term.Term.TheVariants as variant;
ghost use Rattle.bv_terms.specs.declared.term.BinaryOp.TheVariants as op;
ghost use Rattle.bv_terms.specs.Tree as tree;
ghost use Rattle.bv_terms.specs.Tree.{digit, extended_signed, is_less_signed, quotient, remainder, shifted_left, shifted_right, shifted_signed, width_of};
ghost use Rattle.bv_terms.specs.Trees.{Extends, Gains, IsWidth, Keeps, Makes, bit_at, term_at, tree_in};
ghost use Rattle.known_values.specs.Weight.{weight_of};

use crate::building::build;
use crate::factors::{common_factor, distributed};
use crate::form::Form;
use crate::low_bits::low;
use crate::magnitudes::{is_of_opposite, known_choice, magnitude};
use crate::multiples::divisor;
use crate::shrinking::{
    are_equal, is_greater, is_less, rest_of_ones, shrunk_by_number, shrunk_further, shrunk_pair,
    widened_choice, widened_choice_turned, widened_inverse, widened_quotient, widened_remainder,
};
use crate::signed_divisions::{signed_multiple, signed_remainder};
use crate::{arithmetic, bitwise, choices, comparisons, divisions, shifts, widths};
use bv_terms::{Term, TermId, Terms};
use support::NoMemory;

/// A number, which is below 2 to the power of the width.
pub fn constant(terms: &mut Terms, value: u128, width: u32) -> Result<TermId, NoMemory>
    requires wide { IsWidth width }
    requires fits { value < 2 ^ width }
    ensures made { IfOk result (λ id. Makes terms.new id width (λ _. value)) }
    ensures least { IfOk result (λ id. weight_of (tree_in terms.new id) ≤ weight_of (tree.Constant value width)) }
    ensures kept { Keeps terms.old terms.new }
{
    build(terms, Form::Built(Term::Constant { value, width }))
}

/// A variable, which is its number and its width together.
pub fn variable(terms: &mut Terms, number: u64, width: u32) -> Result<TermId, NoMemory>
    requires { IsWidth width }
    ensures stored { IfOk result (λ id. slice_get terms.new id.index ≡ Some (variant.Variable number width)) }
    ensures made { IfOk result (λ id. Makes terms.new id width (λ v. v number width % 2 ^ width)) }
    ensures least { IfOk result (λ id. weight_of (tree_in terms.new id) ≤ weight_of (tree.Variable number width)) }
    ensures kept { Extends terms.old terms.new }
    ensures gains { Gains terms.old terms.new (record { number = number; width = width } ∷ []) }
{
    let id = terms.variable(number, width)?;
    terms.as_slice();
    Ok(id)
}

/// Each bit inverted.
pub fn not(terms: &mut Terms, a: TermId) -> Result<TermId, NoMemory>
    requires { a.index < length terms.old }
    ensures made { IfOk result (λ id. Makes terms.new id (width_of (tree_in terms.old a)) (λ v. 2 ^ width_of (tree_in terms.old a) - 1 - term_at v terms.old a)) }
    ensures least { IfOk result (λ id. weight_of (tree_in terms.new id) ≤ weight_of (tree.Not (tree_in terms.old a) (width_of (tree_in terms.old a)))) }
    ensures kept { Keeps terms.old terms.new }
{
    let form = bitwise::inverse(terms, a);
    build(terms, form)
}

/// The bits that are 1 in both.
pub fn and(terms: &mut Terms, a: TermId, b: TermId) -> Result<TermId, NoMemory>
    requires a { a.index < length terms.old }
    requires b { b.index < length terms.old }
    requires alike { width_of (tree_in terms.old a) ≡ width_of (tree_in terms.old b) }
    ensures made { IfOk result (λ id. Makes terms.new id (width_of (tree_in terms.old a)) (λ v. bit_and (term_at v terms.old a) (term_at v terms.old b))) }
    ensures least { IfOk result (λ id. weight_of (tree_in terms.new id) ≤ weight_of (tree.Binary op.And (tree_in terms.old a) (tree_in terms.old b) (width_of (tree_in terms.old a)))) }
    ensures kept { Keeps terms.old terms.new }
{
    let form = bitwise::conjunction(terms, a, b);
    build(terms, form)
}

/// The bits that are 1 in either.
pub fn or(terms: &mut Terms, a: TermId, b: TermId) -> Result<TermId, NoMemory>
    requires a { a.index < length terms.old }
    requires b { b.index < length terms.old }
    requires alike { width_of (tree_in terms.old a) ≡ width_of (tree_in terms.old b) }
    ensures made { IfOk result (λ id. Makes terms.new id (width_of (tree_in terms.old a)) (λ v. bit_or (term_at v terms.old a) (term_at v terms.old b))) }
    ensures least { IfOk result (λ id. weight_of (tree_in terms.new id) ≤ weight_of (tree.Binary op.Or (tree_in terms.old a) (tree_in terms.old b) (width_of (tree_in terms.old a)))) }
    ensures kept { Keeps terms.old terms.new }
{
    let form = bitwise::disjunction(terms, a, b);
    build(terms, form)
}

/// The bits that are 1 in exactly one.
pub fn xor(terms: &mut Terms, a: TermId, b: TermId) -> Result<TermId, NoMemory>
    requires a { a.index < length terms.old }
    requires b { b.index < length terms.old }
    requires alike { width_of (tree_in terms.old a) ≡ width_of (tree_in terms.old b) }
    ensures made { IfOk result (λ id. Makes terms.new id (width_of (tree_in terms.old a)) (λ v. bit_xor (term_at v terms.old a) (term_at v terms.old b))) }
    ensures least { IfOk result (λ id. weight_of (tree_in terms.new id) ≤ weight_of (tree.Binary op.Xor (tree_in terms.old a) (tree_in terms.old b) (width_of (tree_in terms.old a)))) }
    ensures kept { Keeps terms.old terms.new }
{
    let form = bitwise::exclusive(terms, a, b);
    build(terms, form)
}

/// The sum, which wraps.
pub fn add(terms: &mut Terms, a: TermId, b: TermId) -> Result<TermId, NoMemory>
    requires a { a.index < length terms.old }
    requires b { b.index < length terms.old }
    requires alike { width_of (tree_in terms.old a) ≡ width_of (tree_in terms.old b) }
    ensures made { IfOk result (λ id. Makes terms.new id (width_of (tree_in terms.old a)) (λ v. (term_at v terms.old a + term_at v terms.old b) % 2 ^ width_of (tree_in terms.old a))) }
    ensures least { IfOk result (λ id. weight_of (tree_in terms.new id) ≤ weight_of (tree.Binary op.Add (tree_in terms.old a) (tree_in terms.old b) (width_of (tree_in terms.old a)))) }
    ensures kept { Keeps terms.old terms.new }
{
    // add (mul X, Y), (mul X, Z) --> mul X, (add Y, Z), if Y and Z differ,
    // for X as either factor of each product
    if let Some(parts) = common_factor(terms, a, b) {
        let id = distributed(terms, parts)?;
        return Ok(id);
    }
    let form = arithmetic::sum(terms, a, b);
    build(terms, form)
}

/// The difference, which wraps.
pub fn sub(terms: &mut Terms, a: TermId, b: TermId) -> Result<TermId, NoMemory>
    requires a { a.index < length terms.old }
    requires b { b.index < length terms.old }
    requires alike { width_of (tree_in terms.old a) ≡ width_of (tree_in terms.old b) }
    ensures made { IfOk result (λ id. Makes terms.new id (width_of (tree_in terms.old a)) (λ v. (term_at v terms.old a + (2 ^ width_of (tree_in terms.old a) - term_at v terms.old b)) % 2 ^ width_of (tree_in terms.old a))) }
    ensures least { IfOk result (λ id. weight_of (tree_in terms.new id) ≤ weight_of (tree.Binary op.Sub (tree_in terms.old a) (tree_in terms.old b) (width_of (tree_in terms.old a)))) }
    ensures kept { Keeps terms.old terms.new }
{
    terms.values_fit();
    // sub C, (zext iN X to iM) --> zext (not X) to iM, if C = (1 << N) - 1
    if let Some(inner) = rest_of_ones(terms, a, b) {
        let width = terms.width(a);
        let id = widened_inverse(terms, inner, width)?;
        return Ok(id);
    }
    // sub X, (mul (udiv X, Y), Y) --> urem X, Y
    if let Some(by) = divisor(terms, a, b) {
        let id = urem(terms, a, by)?;
        return Ok(id);
    }
    // sub X, (mul (sdiv X, Y), Y) --> srem X, Y, where these are the selects over udiv and urem:
    // sdiv X, Y = select (xor S, T), (sub 0, Q), Q; Q = udiv A, B; S and T are the signs;
    // A = select S, (sub 0, X), X; B = select T, (sub 0, Y), Y;
    // srem X, Y = select S, (sub 0, R), R; R = urem A, B.
    // The same for Y without a sign: B = Y, and S instead of xor S, T
    if let Some(parts) = signed_multiple(terms, a, b) {
        let id = signed_remainder(terms, parts)?;
        return Ok(id);
    }
    let form = arithmetic::difference(terms, a, b);
    build(terms, form)
}

/// The product, which wraps.
pub fn mul(terms: &mut Terms, a: TermId, b: TermId) -> Result<TermId, NoMemory>
    requires a { a.index < length terms.old }
    requires b { b.index < length terms.old }
    requires alike { width_of (tree_in terms.old a) ≡ width_of (tree_in terms.old b) }
    ensures made { IfOk result (λ id. Makes terms.new id (width_of (tree_in terms.old a)) (λ v. (term_at v terms.old a * term_at v terms.old b) % 2 ^ width_of (tree_in terms.old a))) }
    ensures least { IfOk result (λ id. weight_of (tree_in terms.new id) ≤ weight_of (tree.Binary op.Mul (tree_in terms.old a) (tree_in terms.old b) (width_of (tree_in terms.old a)))) }
    ensures kept { Keeps terms.old terms.new }
{
    let form = arithmetic::product(terms, a, b);
    build(terms, form)
}

/// The quotient of unsigned numbers; all ones where the divisor is 0.
pub fn udiv(terms: &mut Terms, a: TermId, b: TermId) -> Result<TermId, NoMemory>
    requires a { a.index < length terms.old }
    requires b { b.index < length terms.old }
    requires alike { width_of (tree_in terms.old a) ≡ width_of (tree_in terms.old b) }
    ensures made { IfOk result (λ id. Makes terms.new id (width_of (tree_in terms.old a)) (λ v. quotient (width_of (tree_in terms.old a)) (term_at v terms.old a) (term_at v terms.old b))) }
    ensures least { IfOk result (λ id. weight_of (tree_in terms.new id) ≤ weight_of (tree.Binary op.Udiv (tree_in terms.old a) (tree_in terms.old b) (width_of (tree_in terms.old a)))) }
    ensures kept { Keeps terms.old terms.new }
{
    // udiv (zext iN X to iM), C --> zext (udiv X, C) to iM, if C != 0 and C u< (1 << N)
    if let Some(pair) = shrunk_by_number(terms, a, b) {
        let width = terms.width(a);
        let id = widened_quotient(terms, pair, width)?;
        return Ok(id);
    }
    let form = divisions::quotient(terms, a, b);
    build(terms, form)
}

/// The remainder of unsigned numbers; the dividend where the divisor is 0.
pub fn urem(terms: &mut Terms, a: TermId, b: TermId) -> Result<TermId, NoMemory>
    requires a { a.index < length terms.old }
    requires b { b.index < length terms.old }
    requires alike { width_of (tree_in terms.old a) ≡ width_of (tree_in terms.old b) }
    ensures made { IfOk result (λ id. Makes terms.new id (width_of (tree_in terms.old a)) (λ v. remainder (term_at v terms.old a) (term_at v terms.old b))) }
    ensures least { IfOk result (λ id. weight_of (tree_in terms.new id) ≤ weight_of (tree.Binary op.Urem (tree_in terms.old a) (tree_in terms.old b) (width_of (tree_in terms.old a)))) }
    ensures kept { Keeps terms.old terms.new }
{
    // urem (zext iN X to iM), C --> zext (urem X, C) to iM, if C u< (1 << N)
    // urem (zext iN X to iM), (zext iK Y to iM) --> zext (urem X, (zext Y to iN)) to iM, if K <= N
    if let Some(pair) = shrunk_pair(terms, a, b) {
        let width = terms.width(a);
        let id = widened_remainder(terms, pair, width)?;
        return Ok(id);
    }
    let form = divisions::remainder(terms, a, b);
    build(terms, form)
}

/// The first shifted left by the second; 0 where that is the width or more.
pub fn shl(terms: &mut Terms, a: TermId, b: TermId) -> Result<TermId, NoMemory>
    requires a { a.index < length terms.old }
    requires b { b.index < length terms.old }
    requires alike { width_of (tree_in terms.old a) ≡ width_of (tree_in terms.old b) }
    ensures made { IfOk result (λ id. Makes terms.new id (width_of (tree_in terms.old a)) (λ v. shifted_left (width_of (tree_in terms.old a)) (term_at v terms.old a) (term_at v terms.old b))) }
    ensures least { IfOk result (λ id. weight_of (tree_in terms.new id) ≤ weight_of (tree.Binary op.Shl (tree_in terms.old a) (tree_in terms.old b) (width_of (tree_in terms.old a)))) }
    ensures kept { Keeps terms.old terms.new }
{
    let form = shifts::left(terms, a, b);
    build(terms, form)
}

/// The first shifted right by the second; 0 where that is the width or more.
pub fn lshr(terms: &mut Terms, a: TermId, b: TermId) -> Result<TermId, NoMemory>
    requires a { a.index < length terms.old }
    requires b { b.index < length terms.old }
    requires alike { width_of (tree_in terms.old a) ≡ width_of (tree_in terms.old b) }
    ensures made { IfOk result (λ id. Makes terms.new id (width_of (tree_in terms.old a)) (λ v. shifted_right (width_of (tree_in terms.old a)) (term_at v terms.old a) (term_at v terms.old b))) }
    ensures least { IfOk result (λ id. weight_of (tree_in terms.new id) ≤ weight_of (tree.Binary op.Lshr (tree_in terms.old a) (tree_in terms.old b) (width_of (tree_in terms.old a)))) }
    ensures kept { Keeps terms.old terms.new }
{
    let form = shifts::logical_right(terms, a, b);
    build(terms, form)
}

/// The first shifted right by the second, with copies of its sign; nothing but these where that is
/// the width or more.
pub fn ashr(terms: &mut Terms, a: TermId, b: TermId) -> Result<TermId, NoMemory>
    requires a { a.index < length terms.old }
    requires b { b.index < length terms.old }
    requires alike { width_of (tree_in terms.old a) ≡ width_of (tree_in terms.old b) }
    ensures made { IfOk result (λ id. Makes terms.new id (width_of (tree_in terms.old a)) (λ v. shifted_signed (width_of (tree_in terms.old a)) (term_at v terms.old a) (term_at v terms.old b))) }
    ensures least { IfOk result (λ id. weight_of (tree_in terms.new id) ≤ weight_of (tree.Binary op.Ashr (tree_in terms.old a) (tree_in terms.old b) (width_of (tree_in terms.old a)))) }
    ensures kept { Keeps terms.old terms.new }
{
    let form = shifts::arithmetic_right(terms, a, b);
    build(terms, form)
}

/// 1 where the two are equal, and else 0.
pub fn eq(terms: &mut Terms, a: TermId, b: TermId) -> Result<TermId, NoMemory>
    requires a { a.index < length terms.old }
    requires b { b.index < length terms.old }
    requires alike { width_of (tree_in terms.old a) ≡ width_of (tree_in terms.old b) }
    ensures made { IfOk result (λ id. Makes terms.new id 1 (λ v. digit (nat_eq (term_at v terms.old a) (term_at v terms.old b)))) }
    ensures least { IfOk result (λ id. weight_of (tree_in terms.new id) ≤ weight_of (tree.Binary op.Eq (tree_in terms.old a) (tree_in terms.old b) (width_of (tree_in terms.old a)))) }
    ensures kept { Keeps terms.old terms.new }
{
    // icmp eq (zext iN X to iM), C --> icmp eq X, C, if C u< (1 << N)
    // icmp eq (zext iN X to iM), (zext iK Y to iM) --> icmp eq X, (zext Y to iN), if K <= N
    if let Some(pair) = shrunk_pair(terms, a, b) {
        let id = are_equal(terms, pair)?;
        return Ok(id);
    }
    let form = comparisons::equal(terms, a, b);
    build(terms, form)
}

/// 1 where the first is less, as unsigned numbers, and else 0.
pub fn ult(terms: &mut Terms, a: TermId, b: TermId) -> Result<TermId, NoMemory>
    requires a { a.index < length terms.old }
    requires b { b.index < length terms.old }
    requires alike { width_of (tree_in terms.old a) ≡ width_of (tree_in terms.old b) }
    ensures made { IfOk result (λ id. Makes terms.new id 1 (λ v. digit (nat_lt (term_at v terms.old a) (term_at v terms.old b)))) }
    ensures least { IfOk result (λ id. weight_of (tree_in terms.new id) ≤ weight_of (tree.Binary op.Ult (tree_in terms.old a) (tree_in terms.old b) (width_of (tree_in terms.old a)))) }
    ensures kept { Keeps terms.old terms.new }
{
    // icmp ult (zext iN X to iM), C --> icmp ult X, C, if C u< (1 << N)
    // icmp ult (zext iN X to iM), (zext iK Y to iM) --> icmp ult X, (zext Y to iN), if K <= N
    if let Some(pair) = shrunk_pair(terms, a, b) {
        let id = is_less(terms, pair)?;
        return Ok(id);
    }
    // icmp ult C, (zext iN X to iM) --> icmp ult C, X, if C u< (1 << N)
    // icmp ult (zext iK Y to iM), (zext iN X to iM) --> icmp ult (zext Y to iN), X, if K <= N
    if let Some(pair) = shrunk_pair(terms, b, a) {
        let id = is_greater(terms, pair)?;
        return Ok(id);
    }
    let form = comparisons::less(terms, a, b);
    build(terms, form)
}

/// 1 where the first is less, in two's complement, and else 0.
pub fn slt(terms: &mut Terms, a: TermId, b: TermId) -> Result<TermId, NoMemory>
    requires a { a.index < length terms.old }
    requires b { b.index < length terms.old }
    requires alike { width_of (tree_in terms.old a) ≡ width_of (tree_in terms.old b) }
    ensures made { IfOk result (λ id. Makes terms.new id 1 (λ v. digit (is_less_signed (width_of (tree_in terms.old a)) (term_at v terms.old a) (term_at v terms.old b)))) }
    ensures least { IfOk result (λ id. weight_of (tree_in terms.new id) ≤ weight_of (tree.Binary op.Slt (tree_in terms.old a) (tree_in terms.old b) (width_of (tree_in terms.old a)))) }
    ensures kept { Keeps terms.old terms.new }
{
    terms.values_fit();
    // icmp slt (zext iN X to iM), C --> icmp ult X, C, if N < M and C u< (1 << N)
    // icmp slt (zext iN X to iM), (zext iK Y to iM) --> icmp ult X, (zext Y to iN),
    // if K <= N < M
    if let Some(pair) = shrunk_further(terms, a, b) {
        let id = is_less(terms, pair)?;
        return Ok(id);
    }
    // icmp slt C, (zext iN X to iM) --> icmp ult C, X, if N < M and C u< (1 << N)
    // icmp slt (zext iK Y to iM), (zext iN X to iM) --> icmp ult (zext Y to iN), X,
    // if K <= N < M
    if let Some(pair) = shrunk_further(terms, b, a) {
        let id = is_greater(terms, pair)?;
        return Ok(id);
    }
    let form = comparisons::less_signed(terms, a, b);
    build(terms, form)
}

/// The first of two where the condition, of width 1, is 1, and else the second.
pub fn ite(terms: &mut Terms, c: TermId, a: TermId, b: TermId) -> Result<TermId, NoMemory>
    requires c { c.index < length terms.old }
    requires a { a.index < length terms.old }
    requires b { b.index < length terms.old }
    requires bit { width_of (tree_in terms.old c) ≡ 1 }
    requires alike { width_of (tree_in terms.old a) ≡ width_of (tree_in terms.old b) }
    ensures made { IfOk result (λ id. Makes terms.new id (width_of (tree_in terms.old a)) (λ v. cond (bit_at v terms.old c) (term_at v terms.old a) (term_at v terms.old b))) }
    ensures least { IfOk result (λ id. weight_of (tree_in terms.new id) ≤ weight_of (tree.Ite (tree_in terms.old c) (tree_in terms.old a) (tree_in terms.old b) (width_of (tree_in terms.old a)))) }
    ensures kept { Keeps terms.old terms.new }
{
    // X = select D, (sub 0, A), A, if A u<= (1 << (width - 1)):
    // select (icmp slt X, 0), (sub 0, X), X --> A
    // select (icmp slt X, 0), (sub 0, A), A --> X
    if let Some(id) = known_choice(terms, c, a, b) {
        return Ok(id);
    }
    // select (icmp slt (sub 0, X), 0), X, (sub 0, X) --> select (icmp slt X, 0), (sub 0, X), X
    if is_of_opposite(terms, c, a, b) {
        let id = magnitude(terms, a, b)?;
        return Ok(id);
    }
    let width = terms.width(a);
    // select C, (zext iN X to iM), C1 --> zext (select C, X, C1) to iM, if C1 u< (1 << N)
    // select C, (zext iN X to iM), (zext iK Y to iM) --> zext (select C, X, (zext Y to iN)) to iM,
    // if K <= N
    if let Some(pair) = shrunk_pair(terms, a, b) {
        let id = widened_choice(terms, c, pair, width)?;
        return Ok(id);
    }
    // select C, C1, (zext iN X to iM) --> zext (select C, C1, X) to iM, if C1 u< (1 << N)
    // select C, (zext iK Y to iM), (zext iN X to iM) --> zext (select C, (zext Y to iN), X) to iM,
    // if K <= N
    if let Some(pair) = shrunk_pair(terms, b, a) {
        let id = widened_choice_turned(terms, c, pair, width)?;
        return Ok(id);
    }
    let form = choices::choice(terms, c, a, b);
    build(terms, form)
}

/// `width` bits of `a` from bit `from` on, counted from the least significant one.
pub fn extract(terms: &mut Terms, a: TermId, from: u32, width: u32) -> Result<TermId, NoMemory>
    requires a { a.index < length terms.old }
    requires least { 1 ≤ width }
    requires most { from + width ≤ width_of (tree_in terms.old a) }
    ensures made { IfOk result (λ id. Makes terms.new id width (λ v. term_at v terms.old a / 2 ^ from % 2 ^ width)) }
    ensures least { IfOk result (λ id. weight_of (tree_in terms.new id) ≤ weight_of (tree.Extract (tree_in terms.old a) from width)) }
    ensures kept { Keeps terms.old terms.new }
{
    // trunc (add X, Y) to iN --> add (trunc X to iN), (trunc Y to iN), if X or Y is a constant,
    // a zext or sext of at most N bits, or a udiv of two zexts of N bits; the same for sub, mul,
    // and, or, xor, and for select by its arms
    if from == 0 && width < terms.width(a) {
        let id = low(terms, a, width)?;
        return Ok(id);
    }
    let form = widths::part(terms, a, from, width);
    build(terms, form)
}

/// The bits of `high` and then those of `low`, at most 128 in all.
pub fn concat(terms: &mut Terms, high: TermId, low: TermId) -> Result<TermId, NoMemory>
    requires high { high.index < length terms.old }
    requires low { low.index < length terms.old }
    requires most { width_of (tree_in terms.old high) + width_of (tree_in terms.old low) ≤ 128 }
    ensures made { IfOk result (λ id. Makes terms.new id (width_of (tree_in terms.old high) + width_of (tree_in terms.old low))
        (λ v. term_at v terms.old high * 2 ^ width_of (tree_in terms.old low) + term_at v terms.old low)) }
    ensures least { IfOk result (λ id. weight_of (tree_in terms.new id) ≤ weight_of (tree.Concat (tree_in terms.old high) (tree_in terms.old low)
        (width_of (tree_in terms.old low)) (width_of (tree_in terms.old high) + width_of (tree_in terms.old low)))) }
    ensures kept { Keeps terms.old terms.new }
{
    let form = widths::joined(terms, high, low);
    build(terms, form)
}

/// The same number at a width that is as great or greater.
pub fn zext(terms: &mut Terms, a: TermId, width: u32) -> Result<TermId, NoMemory>
    requires a { a.index < length terms.old }
    requires least { width_of (tree_in terms.old a) ≤ width }
    requires most { width ≤ 128 }
    ensures made { IfOk result (λ id. Makes terms.new id width (λ v. term_at v terms.old a)) }
    ensures least { IfOk result (λ id. weight_of (tree_in terms.new id) ≤ weight_of (tree.Zext (tree_in terms.old a) width)) }
    ensures kept { Keeps terms.old terms.new }
{
    let form = widths::widened(terms, a, width);
    build(terms, form)
}

/// The same number in two's complement at a width that is as great or greater.
pub fn sext(terms: &mut Terms, a: TermId, width: u32) -> Result<TermId, NoMemory>
    requires a { a.index < length terms.old }
    requires least { width_of (tree_in terms.old a) ≤ width }
    requires most { width ≤ 128 }
    ensures made { IfOk result (λ id. Makes terms.new id width (λ v. extended_signed (width_of (tree_in terms.old a)) width (term_at v terms.old a))) }
    ensures least { IfOk result (λ id. weight_of (tree_in terms.new id) ≤ weight_of (tree.Sext (tree_in terms.old a) (width_of (tree_in terms.old a)) width)) }
    ensures kept { Keeps terms.old terms.new }
{
    let form = widths::widened_signed(terms, a, width);
    build(terms, form)
}

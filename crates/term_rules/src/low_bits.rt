//! The low bits of operations on numbers that were widened.
//!
//! The low bits of a sum, a difference, a product or a bitwise operation come from only the low
//! bits of its operands. Where one of these was widened from no more bits than these, is a
//! constant, or is a quotient of numbers that were widened from as many bits as these, its low
//! bits have no more nodes than it has, and so the operation is moved to the smaller width: it is
//! `narrow` in the comments below. This goes two operations deep. The low bits of a choice are a
//! choice between low bits.

ghost use Rattle.std.specs.Prelude.{◌≡◌, ◌<◌, ◌≤◌, ◌+◌, ◌%◌, ◌^◌, ℕ, IfOk, IfSome, length};
ghost use Rattle.bv_terms.specs.Tree.{width_of};
ghost use Rattle.bv_terms.specs.Trees.{Keeps, Makes, bit_at, term_at, tree_in};
ghost use Rattle.known_values.specs.Weight.{weight_of};
ghost use Rattle.term_rules.specs.Forms.{IsLow, IsNarrowChoice, IsNarrowing, IsOperation, Simplifies, chosen_arm, operated, operation_tree};

use crate::building::build;
use crate::choices::choice;
use crate::divisions::low_quotient;
use crate::form::Form;
use crate::widths::{part, widened, widened_signed};
use crate::{arithmetic, bitwise};
use bv_terms::{BinaryOp, Term, TermId, Terms};
use known_values::numbers::cut;
use support::NoMemory;
use term_sums::term;

/// An operation whose low bits come from only its operands' low bits.
#[derive(Clone, Copy)]
pub enum Kind {
    Sum,
    Difference,
    /// The second without the first.
    Reverse,
    Product,
    Conjunction,
    Disjunction,
    Exclusive,
}

/// Such an operation on two terms.
#[derive(Clone, Copy)]
pub struct Operation {
    pub kind: Kind,
    pub a: TermId,
    pub b: TermId,
}

/// The low bits of one operand as a form, and the other operand.
#[derive(Clone, Copy)]
pub struct Narrowing {
    pub kind: Kind,
    pub form: Form,
    pub rest: TermId,
}

/// The low bits of one arm of a choice as a form, and the other arm.
#[derive(Clone, Copy)]
pub struct NarrowChoice {
    pub c: TermId,
    pub form: Form,
    pub rest: TermId,
    /// Whether the form is for the first arm.
    pub is_first: bool,
}

/// How many choices, one an arm of the other, are moved to a smaller width.
const CHOICES: u32 = 8;

/// The operation that the term is, if it is such a one.
// add, sub, mul, and, or, xor
fn as_operation(terms: &Terms, a: TermId) -> Option<Operation>
    requires { a.index < length terms.now }
    ensures { IfSome result (IsOperation terms.now a) }
{
    match term(terms, a) {
        Term::Binary(BinaryOp::Add, a, b, _) => Some(Operation {
            kind: Kind::Sum,
            a,
            b,
        }),
        Term::Binary(BinaryOp::Sub, a, b, _) => Some(Operation {
            kind: Kind::Difference,
            a,
            b,
        }),
        Term::Binary(BinaryOp::Mul, a, b, _) => Some(Operation {
            kind: Kind::Product,
            a,
            b,
        }),
        Term::Binary(BinaryOp::And, a, b, _) => Some(Operation {
            kind: Kind::Conjunction,
            a,
            b,
        }),
        Term::Binary(BinaryOp::Or, a, b, _) => Some(Operation {
            kind: Kind::Disjunction,
            a,
            b,
        }),
        Term::Binary(BinaryOp::Xor, a, b, _) => Some(Operation {
            kind: Kind::Exclusive,
            a,
            b,
        }),
        _ => None,
    }
}

/// The same operation with its operands the other way round.
// sub X, Y --> Kind::Reverse of Y, X; the others are commutative
fn turned(kind: Kind) -> Kind
    ensures { (width x y : ℕ) → operated result width y x ≡ operated kind width x y }
{
    match kind {
        Kind::Sum => Kind::Sum,
        Kind::Difference => Kind::Reverse,
        Kind::Reverse => Kind::Difference,
        Kind::Product => Kind::Product,
        Kind::Conjunction => Kind::Conjunction,
        Kind::Disjunction => Kind::Disjunction,
        Kind::Exclusive => Kind::Exclusive,
    }
}

/// The low `width` bits of a term that was widened from at most `width`, is a constant, or is a
/// quotient of numbers that were widened from `width`.
fn narrow(terms: &Terms, a: TermId, width: u32) -> Option<Form>
    requires a { a.index < length terms.now }
    requires least { 1 ≤ width }
    requires most { width ≤ width_of (tree_in terms.now a) }
    ensures { IfSome result (IsLow terms.now a width) }
{
    terms.values_fit();
    let _whole = terms.width(a);
    match term(terms, a) {
        // trunc C to iN --> C % 2^N
        Term::Constant { value, .. } => {
            let value = cut(value, width);
            Some(Form::Built(Term::Constant { value, width }))
        }
        // trunc (zext iM X) to iN --> zext X to iN if M <= N
        Term::Zext { a: inner, .. } if terms.width(inner) <= width => Some(widened(
            terms, inner, width,
        )),
        // trunc (sext iM X) to iN --> sext X to iN if M <= N
        Term::Sext { a: inner, .. } if terms.width(inner) <= width => Some(widened_signed(
            terms, inner, width,
        )),
        // trunc (udiv (zext iN X to iM), (zext iN Y to iM)) to iN --> udiv X, Y
        Term::Binary(BinaryOp::Udiv, ..) => low_quotient(terms, a, width),
        _ => None,
    }
}

/// What the low bits of the term come from, if it is an operation on a term that is narrow.
fn first_narrow(terms: &Terms, a: TermId, width: u32) -> Option<Narrowing>
    requires a { a.index < length terms.now }
    requires least { 1 ≤ width }
    requires most { width ≤ width_of (tree_in terms.now a) }
    ensures { IfSome result (IsNarrowing terms.now a width) }
{
    terms.values_fit();
    let whole = as_operation(terms, a)?;
    // trunc (op X, Y) to iN --> op (trunc X), (trunc Y) if X is narrow
    if let Some(form) = narrow(terms, whole.a, width) {
        return Some(Narrowing {
            kind: whole.kind,
            form,
            rest: whole.b,
        });
    }
    // trunc (op X, Y) to iN --> op (trunc X), (trunc Y) if Y is narrow
    let form = narrow(terms, whole.b, width)?;
    let kind = turned(whole.kind);
    Some(Narrowing {
        kind,
        form,
        rest: whole.a,
    })
}

/// What the low bits of the term come from, if it is a choice of which one arm is narrow.
fn narrow_choice(terms: &Terms, a: TermId, width: u32) -> Option<NarrowChoice>
    requires a { a.index < length terms.now }
    requires least { 1 ≤ width }
    requires most { width ≤ width_of (tree_in terms.now a) }
    ensures { IfSome result (IsNarrowChoice terms.now a width) }
{
    terms.values_fit();
    let _whole = terms.width(a);
    match term(terms, a) {
        Term::Ite {
            c,
            a: first,
            b: second,
            ..
        } => {
            // trunc (select C, X, Y) to iN --> select C, (trunc X), (trunc Y) if X is narrow
            if let Some(form) = narrow(terms, first, width) {
                return Some(NarrowChoice {
                    c,
                    form,
                    rest: second,
                    is_first: true,
                });
            }
            // trunc (select C, X, Y) to iN --> select C, (trunc X), (trunc Y) if Y is narrow
            let form = narrow(terms, second, width)?;
            Some(NarrowChoice {
                c,
                form,
                rest: first,
                is_first: false,
            })
        }
        _ => None,
    }
}

/// The operation on two terms of one width.
fn form_of(terms: &Terms, kind: Kind, a: TermId, b: TermId) -> Form
    requires a { a.index < length terms.now }
    requires b { b.index < length terms.now }
    requires alike { width_of (tree_in terms.now a) ≡ width_of (tree_in terms.now b) }
    ensures { Simplifies terms.now (operation_tree kind (tree_in terms.now a) (tree_in terms.now b) (width_of (tree_in terms.now a))) result }
{
    match kind {
        Kind::Sum => arithmetic::sum(terms, a, b),
        Kind::Difference => arithmetic::difference(terms, a, b),
        // Kind::Reverse of X, Y --> sub Y, X
        Kind::Reverse => arithmetic::difference(terms, b, a),
        Kind::Product => arithmetic::product(terms, a, b),
        Kind::Conjunction => bitwise::conjunction(terms, a, b),
        Kind::Disjunction => bitwise::disjunction(terms, a, b),
        Kind::Exclusive => bitwise::exclusive(terms, a, b),
    }
}

/// The low bits, where no operation is moved to the smaller width.
fn plain_low(terms: &mut Terms, a: TermId, width: u32) -> Result<TermId, NoMemory>
    requires a { a.index < length terms.old }
    requires least { 1 ≤ width }
    requires most { width ≤ width_of (tree_in terms.old a) }
    ensures made { IfOk result (λ id. Makes terms.new id width (λ v. term_at v terms.old a % 2 ^ width)) }
    ensures least { IfOk result (λ id. weight_of (tree_in terms.new id) ≤ 1 + weight_of (tree_in terms.old a)) }
    ensures kept { Keeps terms.old terms.new }
{
    // trunc X to iN --> X at iN if X is narrow
    if let Some(form) = narrow(terms, a, width) {
        let id = build(terms, form)?;
        return Ok(id);
    }
    let form = part(terms, a, 0, width);
    let id = build(terms, form)?;
    Ok(id)
}

/// The choice between two terms, the first of which is the first arm or the second one.
fn chosen(
    terms: &mut Terms,
    c: TermId,
    is_first: bool,
    a: TermId,
    b: TermId,
) -> Result<TermId, NoMemory>
    requires c { c.index < length terms.old }
    requires bit { width_of (tree_in terms.old c) ≡ 1 }
    requires a { a.index < length terms.old }
    requires b { b.index < length terms.old }
    requires alike { width_of (tree_in terms.old a) ≡ width_of (tree_in terms.old b) }
    ensures made { IfOk result (λ id. Makes terms.new id (width_of (tree_in terms.old a)) (λ v. chosen_arm is_first (bit_at v terms.old c) (term_at v terms.old a) (term_at v terms.old b))) }
    ensures least { IfOk result (λ id. weight_of (tree_in terms.new id) ≤ 1 + weight_of (tree_in terms.old c) + weight_of (tree_in terms.old a) + weight_of (tree_in terms.old b)) }
    ensures kept { Keeps terms.old terms.new }
{
    // select C, A, B if A is for the first arm, else select C, B, A
    if is_first {
        let form = choice(terms, c, a, b);
        let id = build(terms, form)?;
        Ok(id)
    } else {
        let form = choice(terms, c, b, a);
        let id = build(terms, form)?;
        Ok(id)
    }
}

/// The low bits, where at most `fuel` choices between plain terms are moved to the smaller width.
fn choice_low(terms: &mut Terms, a: TermId, width: u32, fuel: u32) -> Result<TermId, NoMemory>
    requires a { a.index < length terms.old }
    requires least { 1 ≤ width }
    requires most { width ≤ width_of (tree_in terms.old a) }
    ensures made { IfOk result (λ id. Makes terms.new id width (λ v. term_at v terms.old a % 2 ^ width)) }
    ensures least { IfOk result (λ id. weight_of (tree_in terms.new id) ≤ 1 + weight_of (tree_in terms.old a)) }
    ensures kept { Keeps terms.old terms.new }
{
    if fuel == 0 {
        return plain_low(terms, a, width);
    }
    // trunc (select C, X, Y) to iN --> select C, (trunc X), (trunc Y) if X or Y is narrow
    match narrow_choice(terms, a, width) {
        Some(found) => {
            let first = build(terms, found.form)?;
            let second = choice_low(terms, found.rest, width, fuel - 1)?;
            chosen(terms, found.c, found.is_first, first, second)
        }
        None => plain_low(terms, a, width),
    }
}

/// The operation on the low bits of a term and a term of that width.
fn joined(terms: &mut Terms, kind: Kind, a: TermId, b: TermId) -> Result<TermId, NoMemory>
    requires a { a.index < length terms.old }
    requires b { b.index < length terms.old }
    requires alike { width_of (tree_in terms.old a) ≡ width_of (tree_in terms.old b) }
    ensures made { IfOk result (λ id. Makes terms.new id (width_of (tree_in terms.old a)) (λ v. operated kind (width_of (tree_in terms.old a)) (term_at v terms.old a) (term_at v terms.old b))) }
    ensures least { IfOk result (λ id. weight_of (tree_in terms.new id) ≤ 1 + weight_of (tree_in terms.old a) + weight_of (tree_in terms.old b)) }
    ensures kept { Keeps terms.old terms.new }
{
    let form = form_of(terms, kind, a, b);
    let id = build(terms, form)?;
    Ok(id)
}

/// The low bits, where an operation on plain terms is moved to the smaller width.
// trunc (op X, Y) to iN --> op (trunc X), (trunc Y) if X or Y is narrow
fn shallow_low(terms: &mut Terms, a: TermId, width: u32) -> Result<TermId, NoMemory>
    requires a { a.index < length terms.old }
    requires least { 1 ≤ width }
    requires most { width ≤ width_of (tree_in terms.old a) }
    ensures made { IfOk result (λ id. Makes terms.new id width (λ v. term_at v terms.old a % 2 ^ width)) }
    ensures least { IfOk result (λ id. weight_of (tree_in terms.new id) ≤ 1 + weight_of (tree_in terms.old a)) }
    ensures kept { Keeps terms.old terms.new }
{
    match first_narrow(terms, a, width) {
        Some(found) => {
            let first = build(terms, found.form)?;
            let second = plain_low(terms, found.rest, width)?;
            joined(terms, found.kind, first, second)
        }
        None => choice_low(terms, a, width, CHOICES),
    }
}

/// The low bits, where an operation on plain terms, or on one and such an operation, is moved to
/// the smaller width.
// trunc (op X, Y) to iN --> op (trunc X), (trunc Y) if X or Y is narrow
// trunc (op X, (op2 Y, Z)) to iN --> op (trunc X), (op2 (trunc Y), (trunc Z))
//   if X is narrow, and Y or Z is
pub fn low(terms: &mut Terms, a: TermId, width: u32) -> Result<TermId, NoMemory>
    requires a { a.index < length terms.old }
    requires least { 1 ≤ width }
    requires most { width ≤ width_of (tree_in terms.old a) }
    ensures made { IfOk result (λ id. Makes terms.new id width (λ v. term_at v terms.old a % 2 ^ width)) }
    ensures least { IfOk result (λ id. weight_of (tree_in terms.new id) ≤ 1 + weight_of (tree_in terms.old a)) }
    ensures kept { Keeps terms.old terms.new }
{
    match first_narrow(terms, a, width) {
        Some(found) => {
            let first = build(terms, found.form)?;
            let second = shallow_low(terms, found.rest, width)?;
            joined(terms, found.kind, first, second)
        }
        None => choice_low(terms, a, width, CHOICES),
    }
}

//! Terms made of forms.

ghost use Rattle.std.specs.Prelude.{◌≡◌, ◌<◌, ◌≤◌, ◌+◌, ◌-◌, ◌%◌, ◌^◌, ℕ, IfOk, IfSome, length, nat_eq};
ghost use Rattle.bv_terms.specs.Tree.{digit, quotient, shifted_left, value_of, width_of};
ghost use Rattle.bv_terms.specs.Trees.{Keeps, Makes, term_at, tree_in, tree_of, trees_of};
ghost use Rattle.known_values.specs.Weight.{weight_of};
ghost use Rattle.term_rules.specs.Forms.{IsApplied, IsForm, AreOperands, form_tree};

use crate::form::Form;
use bv_terms::{BinaryOp, Term, TermId, Terms};
use known_values::numbers::{binary, choice, extended, inverse, joined, part};
use support::NoMemory;
use term_sums::{number, numbers};

/// The value of an operation over constants.
fn folded(terms: &Terms, term: &Term) -> Option<u128>
    requires { IsApplied terms.now term.now }
    ensures { IfSome result (λ n. (v : ℕ → ℕ → ℕ) → value_of v (tree_of (trees_of terms.now) term.now) ≡ n) }
{
    match *term {
        Term::Constant { .. } | Term::Variable { .. } => None,
        // not C --> ~C
        Term::Not { a, width } => Some(inverse(number(terms, a)?, width)),
        // op C1, C2 --> C, for each binary operation and icmp eq, ult, slt
        Term::Binary(op, a, b, width) => {
            let (x, y) = numbers(terms, a, b)?;
            Some(binary(op, x, y, width))
        }
        // select C, C1, C2 --> C1, if C != 0, and else C2
        Term::Ite { c, a, b, .. } => {
            let (x, y) = numbers(terms, a, b)?;
            Some(choice(number(terms, c)?, x, y))
        }
        // trunc (lshr C, K) to iN --> C1
        Term::Extract { a, from, width } => {
            let _whole = terms.width(a);
            Some(part(number(terms, a)?, from, width))
        }
        // or disjoint (shl (zext C1), N), (zext iN C2) --> C
        Term::Concat {
            high,
            low,
            below,
            ..
        } => {
            let _above = terms.width(high);
            let (x, y) = numbers(terms, high, low)?;
            Some(joined(x, y, below))
        }
        // zext C --> C
        Term::Zext { a, .. } => Some(number(terms, a)?),
        // sext C --> C1
        Term::Sext { a, from, width } => {
            let _narrow = terms.width(a);
            Some(extended(number(terms, a)?, from, width))
        }
    }
}

/// The index of the term, which is stored unless it is there.
fn store(terms: &mut Terms, term: Term) -> Result<TermId, NoMemory>
    requires { IsApplied terms.old term }
    ensures within { IfOk result (λ id. id.index < length terms.new) }
    ensures tree { IfOk result (λ id. tree_in terms.new id ≡ tree_of (trees_of terms.old) term) }
    ensures kept { Keeps terms.old terms.new }
{
    let id = terms.store(term)?;
    terms.as_slice();
    Ok(id)
}

/// The operation, or its value over constants.
fn apply(terms: &mut Terms, term: Term) -> Result<TermId, NoMemory>
    requires { IsApplied terms.old term }
    ensures made { IfOk result (λ id. Makes terms.new id (width_of (tree_of (trees_of terms.old) term)) (λ v. value_of v (tree_of (trees_of terms.old) term))) }
    ensures least { IfOk result (λ id. weight_of (tree_in terms.new id) ≤ weight_of (tree_of (trees_of terms.old) term)) }
    ensures kept { Keeps terms.old terms.new }
{
    terms.values_fit();
    terms.as_slice();
    let width = term.width();
    match folded(terms, &term) {
        Some(value) => {
            let id = store(terms, Term::Constant { value, width })?;
            Ok(id)
        }
        None => {
            let id = store(terms, term)?;
            Ok(id)
        }
    }
}

/// The sum of a term with a number.
fn raise(terms: &mut Terms, a: TermId, by: u128, width: u32) -> Result<TermId, NoMemory>
    requires { AreOperands terms.old a by width }
    ensures made { IfOk result (λ id. Makes terms.new id width (λ v. (term_at v terms.old a + by) % 2 ^ width)) }
    ensures least { IfOk result (λ id. weight_of (tree_in terms.new id) ≤ 2 + weight_of (tree_in terms.old a)) }
    ensures kept { Keeps terms.old terms.new }
{
    // add X, C
    let b = store(terms, Term::Constant { value: by, width })?;
    let id = apply(terms, Term::Binary(BinaryOp::Add, a, b, width))?;
    Ok(id)
}

/// A term shifted left by a number.
fn shift(terms: &mut Terms, a: TermId, by: u128, width: u32) -> Result<TermId, NoMemory>
    requires { AreOperands terms.old a by width }
    ensures made { IfOk result (λ id. Makes terms.new id width (λ v. shifted_left width (term_at v terms.old a) by)) }
    ensures least { IfOk result (λ id. weight_of (tree_in terms.new id) ≤ 2 + weight_of (tree_in terms.old a)) }
    ensures kept { Keeps terms.old terms.new }
{
    // shl X, C
    let b = store(terms, Term::Constant { value: by, width })?;
    let id = apply(terms, Term::Binary(BinaryOp::Shl, a, b, width))?;
    Ok(id)
}

/// The quotient of a term by a number.
fn divide(terms: &mut Terms, a: TermId, by: u128, width: u32) -> Result<TermId, NoMemory>
    requires { AreOperands terms.old a by width }
    ensures made { IfOk result (λ id. Makes terms.new id width (λ v. quotient width (term_at v terms.old a) by)) }
    ensures least { IfOk result (λ id. weight_of (tree_in terms.new id) ≤ 2 + weight_of (tree_in terms.old a)) }
    ensures kept { Keeps terms.old terms.new }
{
    // udiv X, C
    let b = store(terms, Term::Constant { value: by, width })?;
    let id = apply(terms, Term::Binary(BinaryOp::Udiv, a, b, width))?;
    Ok(id)
}

/// Whether a term is not 0.
fn not_zero(terms: &mut Terms, a: TermId, width: u32) -> Result<TermId, NoMemory>
    requires { AreOperands terms.old a 0 width }
    ensures made { IfOk result (λ id. Makes terms.new id 1 (λ v. 2 ^ 1 - 1 - digit (nat_eq (term_at v terms.old a) 0))) }
    ensures least { IfOk result (λ id. weight_of (tree_in terms.new id) ≤ 3 + weight_of (tree_in terms.old a)) }
    ensures kept { Keeps terms.old terms.new }
{
    // icmp ne X, 0, as not (icmp eq X, 0)
    let zero = store(terms, Term::Constant { value: 0, width })?;
    let is_zero = apply(terms, Term::Binary(BinaryOp::Eq, a, zero, width))?;
    let id = apply(
        terms,
        Term::Not {
            a: is_zero,
            width: 1,
        },
    )?;
    Ok(id)
}

/// The term of a form.
pub fn build(terms: &mut Terms, form: Form) -> Result<TermId, NoMemory>
    requires { IsForm terms.old form }
    ensures made { IfOk result (λ id. Makes terms.new id (width_of (form_tree terms.old form)) (λ v. value_of v (form_tree terms.old form))) }
    ensures least { IfOk result (λ id. weight_of (tree_in terms.new id) ≤ weight_of (form_tree terms.old form)) }
    ensures kept { Keeps terms.old terms.new }
{
    match form {
        Form::Known(id) => Ok(id),
        Form::Built(term) => apply(terms, term),
        Form::Raised { a, by, width } => raise(terms, a, by, width),
        Form::Shifted { a, by, width } => shift(terms, a, by, width),
        Form::Divided { a, by, width } => divide(terms, a, by, width),
        Form::Nonzero { a, width } => not_zero(terms, a, width),
    }
}

//! Shifts (LLVM Language Reference, "shl Instruction", "lshr Instruction", "ashr Instruction").
//!
//! A flag asks whether bits are lost: they are where the result, shifted back, is another number.

ghost use Rattle.std.specs.Prelude.{◌&&◌, ◌||◌, IfOk, nat_eq, nat_le, not};
ghost use Rattle.bv_terms.specs.Tree.{shifted_left, shifted_right, shifted_signed};
ghost use Rattle.bv_terms.specs.Trees.{IsTerm, Keeps, Makes, Tests, term_at};

use crate::narrow::{NarrowValue, is_another};
use bv_terms::{TermId, Terms};
use ir_tree::Flags;
use mem_terms::{either, less, negation, truth};
use support::NoMemory;
use term_rules::{ashr, constant, lshr, shl};
use tv_num::Width;

/// Whether the amount is the width or more.
fn is_past(terms: &mut Terms, amount: TermId, width: Width) -> Result<TermId, NoMemory>
    requires { IsTerm terms.old width.bits amount }
    ensures made { IfOk result (λ id. Tests terms.new id (λ v. nat_le width.bits (term_at v terms.old amount))) }
    ensures kept { Keeps terms.old terms.new }
{
    let digits = constant(terms, width.bits() as u128, width.bits())?;
    let below = less(terms, amount, digits)?;
    let id = negation(terms, below)?;
    Ok(id)
}

/// Where the flag is set, whether the number shifted right by the amount is not the one before.
fn is_other_below_where(
    terms: &mut Terms,
    flag: bool,
    moved: TermId,
    amount: TermId,
    before: TermId,
    width: Width,
) -> Result<TermId, NoMemory>
    requires moved { IsTerm terms.old width.bits moved }
    requires amount { IsTerm terms.old width.bits amount }
    requires before { IsTerm terms.old width.bits before }
    ensures made { IfOk result (λ id. Tests terms.new id (λ v. flag && not (nat_eq (shifted_right width.bits (term_at v terms.old moved) (term_at v terms.old amount)) (term_at v terms.old before)))) }
    ensures kept { Keeps terms.old terms.new }
{
    if flag {
        let back = lshr(terms, moved, amount)?;
        is_another(terms, back, before, width)
    } else {
        truth(terms, false)
    }
}

/// The same with copies of the sign.
fn is_other_below_signed_where(
    terms: &mut Terms,
    flag: bool,
    moved: TermId,
    amount: TermId,
    before: TermId,
    width: Width,
) -> Result<TermId, NoMemory>
    requires moved { IsTerm terms.old width.bits moved }
    requires amount { IsTerm terms.old width.bits amount }
    requires before { IsTerm terms.old width.bits before }
    ensures made { IfOk result (λ id. Tests terms.new id (λ v. flag && not (nat_eq (shifted_signed width.bits (term_at v terms.old moved) (term_at v terms.old amount)) (term_at v terms.old before)))) }
    ensures kept { Keeps terms.old terms.new }
{
    if flag {
        let back = ashr(terms, moved, amount)?;
        is_another(terms, back, before, width)
    } else {
        truth(terms, false)
    }
}

/// Where the flag is set, whether the number shifted left by the amount is not the one before.
fn is_other_above_where(
    terms: &mut Terms,
    flag: bool,
    moved: TermId,
    amount: TermId,
    before: TermId,
    width: Width,
) -> Result<TermId, NoMemory>
    requires moved { IsTerm terms.old width.bits moved }
    requires amount { IsTerm terms.old width.bits amount }
    requires before { IsTerm terms.old width.bits before }
    ensures made { IfOk result (λ id. Tests terms.new id (λ v. flag && not (nat_eq (shifted_left width.bits (term_at v terms.old moved) (term_at v terms.old amount)) (term_at v terms.old before)))) }
    ensures kept { Keeps terms.old terms.new }
{
    if flag {
        let back = shl(terms, moved, amount)?;
        is_another(terms, back, before, width)
    } else {
        truth(terms, false)
    }
}

/// The number shifted left by the amount.
pub fn shift_left(
    terms: &mut Terms,
    flags: Flags,
    a: TermId,
    b: TermId,
    width: Width,
) -> Result<NarrowValue, NoMemory>
    requires a { IsTerm terms.old width.bits a }
    requires b { IsTerm terms.old width.bits b }
    ensures number { IfOk result (λ s. Makes terms.new s.number width.bits (λ v. shifted_left width.bits (term_at v terms.old a) (term_at v terms.old b))) }
    ensures poison { IfOk result (λ s. Tests terms.new s.poison (λ v. nat_le width.bits (term_at v terms.old b)
        || ((flags.nuw && not (nat_eq (shifted_right width.bits (shifted_left width.bits (term_at v terms.old a) (term_at v terms.old b)) (term_at v terms.old b)) (term_at v terms.old a)))
        || (flags.nsw && not (nat_eq (shifted_signed width.bits (shifted_left width.bits (term_at v terms.old a) (term_at v terms.old b)) (term_at v terms.old b)) (term_at v terms.old a)))))) }
    ensures kept { Keeps terms.old terms.new }
{
    let number = shl(terms, a, b)?;
    let past = is_past(terms, b, width)?;
    let unsigned = is_other_below_where(terms, flags.nuw, number, b, a, width)?;
    let signed = is_other_below_signed_where(terms, flags.nsw, number, b, a, width)?;
    let lost = either(terms, unsigned, signed)?;
    let poison = either(terms, past, lost)?;
    Ok(NarrowValue { poison, number })
}

/// The number shifted right by the amount, filled with zeros.
pub fn logical_shift_right(
    terms: &mut Terms,
    exact: bool,
    a: TermId,
    b: TermId,
    width: Width,
) -> Result<NarrowValue, NoMemory>
    requires a { IsTerm terms.old width.bits a }
    requires b { IsTerm terms.old width.bits b }
    ensures number { IfOk result (λ s. Makes terms.new s.number width.bits (λ v. shifted_right width.bits (term_at v terms.old a) (term_at v terms.old b))) }
    ensures poison { IfOk result (λ s. Tests terms.new s.poison (λ v. nat_le width.bits (term_at v terms.old b)
        || (exact && not (nat_eq (shifted_left width.bits (shifted_right width.bits (term_at v terms.old a) (term_at v terms.old b)) (term_at v terms.old b)) (term_at v terms.old a))))) }
    ensures kept { Keeps terms.old terms.new }
{
    let number = lshr(terms, a, b)?;
    let past = is_past(terms, b, width)?;
    let lost = is_other_above_where(terms, exact, number, b, a, width)?;
    let poison = either(terms, past, lost)?;
    Ok(NarrowValue { poison, number })
}

/// The number shifted right by the amount, filled with copies of its sign.
pub fn arithmetic_shift_right(
    terms: &mut Terms,
    exact: bool,
    a: TermId,
    b: TermId,
    width: Width,
) -> Result<NarrowValue, NoMemory>
    requires a { IsTerm terms.old width.bits a }
    requires b { IsTerm terms.old width.bits b }
    ensures number { IfOk result (λ s. Makes terms.new s.number width.bits (λ v. shifted_signed width.bits (term_at v terms.old a) (term_at v terms.old b))) }
    ensures poison { IfOk result (λ s. Tests terms.new s.poison (λ v. nat_le width.bits (term_at v terms.old b)
        || (exact && not (nat_eq (shifted_left width.bits (shifted_signed width.bits (term_at v terms.old a) (term_at v terms.old b)) (term_at v terms.old b)) (term_at v terms.old a))))) }
    ensures kept { Keeps terms.old terms.new }
{
    let number = ashr(terms, a, b)?;
    let past = is_past(terms, b, width)?;
    let lost = is_other_above_where(terms, exact, number, b, a, width)?;
    let poison = either(terms, past, lost)?;
    Ok(NarrowValue { poison, number })
}

//! Where an operation is undefined behaviour.

ghost use Rattle.std.specs.Prelude.{◌-◌, ◌^◌, ◌&&◌, IfOk, nat_eq};
ghost use Rattle.bv_terms.specs.Trees.{IsTerm, Keeps, Tests, term_at};
ghost use Rattle.points.specs.Table.{has_no_quotient, is_least_or_poison, is_undefined, is_zero_or_poison};
ghost use Rattle.inst_terms.specs.Narrow.{IsNarrow, narrow_at};

use crate::narrow::{NarrowValue, is_zero};
use bv_terms::{TermId, Terms};
use ir_tree::Op;
use mem_terms::{both, either, equals, truth};
use support::NoMemory;
use term_rules::constant;
use tv_num::Width;

/// Whether the divisor is 0, or poison, which might be it.
fn is_zero_or_poison(
    terms: &mut Terms,
    divisor: NarrowValue,
    width: Width,
) -> Result<TermId, NoMemory>
    requires { IsNarrow terms.old width.bits divisor }
    ensures made { IfOk result (λ id. Tests terms.new id (λ v. is_zero_or_poison width.bits (narrow_at v terms.old divisor))) }
    ensures kept { Keeps terms.old terms.new }
{
    terms.values_fit();
    let zero = is_zero(terms, divisor.number, width)?;
    let id = either(terms, divisor.poison, zero)?;
    Ok(id)
}

/// Whether all bits of the number are 1.
fn is_all_ones(terms: &mut Terms, a: TermId, width: Width) -> Result<TermId, NoMemory>
    requires { IsTerm terms.old width.bits a }
    ensures made { IfOk result (λ id. Tests terms.new id (λ v. nat_eq (term_at v terms.old a) (2 ^ width.bits - 1))) }
    ensures kept { Keeps terms.old terms.new }
{
    let ones = constant(terms, width.mask() as u128, width.bits())?;
    equals(terms, a, ones)
}

/// Whether the number is the least one of the width in two's complement.
fn is_least(terms: &mut Terms, a: TermId, width: Width) -> Result<TermId, NoMemory>
    requires { IsTerm terms.old width.bits a }
    ensures made { IfOk result (λ id. Tests terms.new id (λ v. nat_eq (term_at v terms.old a) (2 ^ (width.bits - 1)))) }
    ensures kept { Keeps terms.old terms.new }
{
    let least = constant(terms, width.half() as u128, width.bits())?;
    equals(terms, a, least)
}

/// Whether the dividend is the least number, or poison, which might be it.
fn is_least_or_poison(
    terms: &mut Terms,
    dividend: NarrowValue,
    width: Width,
) -> Result<TermId, NoMemory>
    requires { IsNarrow terms.old width.bits dividend }
    ensures made { IfOk result (λ id. Tests terms.new id (λ v. is_least_or_poison width.bits (narrow_at v terms.old dividend))) }
    ensures kept { Keeps terms.old terms.new }
{
    terms.values_fit();
    let least = is_least(terms, dividend.number, width)?;
    let id = either(terms, dividend.poison, least)?;
    Ok(id)
}

/// Whether the divisor's number is -1, and the dividend is the least number or poison.
fn has_no_room(
    terms: &mut Terms,
    left: NarrowValue,
    right: NarrowValue,
    width: Width,
) -> Result<TermId, NoMemory>
    requires left { IsNarrow terms.old width.bits left }
    requires right { IsNarrow terms.old width.bits right }
    ensures made { IfOk result (λ id. Tests terms.new id (λ v. nat_eq (term_at v terms.old right.number) (2 ^ width.bits - 1) && is_least_or_poison width.bits (narrow_at v terms.old left))) }
    ensures kept { Keeps terms.old terms.new }
{
    let least = is_least_or_poison(terms, left, width)?;
    let minus_1 = is_all_ones(terms, right.number, width)?;
    both(terms, minus_1, least)
}

/// Whether a signed division is undefined.
fn has_no_quotient(
    terms: &mut Terms,
    left: NarrowValue,
    right: NarrowValue,
    width: Width,
) -> Result<TermId, NoMemory>
    requires left { IsNarrow terms.old width.bits left }
    requires right { IsNarrow terms.old width.bits right }
    ensures made { IfOk result (λ id. Tests terms.new id (λ v. has_no_quotient width.bits (narrow_at v terms.old left) (narrow_at v terms.old right))) }
    ensures kept { Keeps terms.old terms.new }
{
    terms.values_fit();
    let no_room = has_no_room(terms, left, right, width)?;
    let zero = is_zero_or_poison(terms, right, width)?;
    let id = either(terms, zero, no_room)?;
    Ok(id)
}

/// Whether the operation is undefined behaviour.
pub fn is_undefined(
    terms: &mut Terms,
    op: Op,
    left: NarrowValue,
    right: NarrowValue,
    width: Width,
) -> Result<TermId, NoMemory>
    requires left { IsNarrow terms.old width.bits left }
    requires right { IsNarrow terms.old width.bits right }
    ensures made { IfOk result (λ id. Tests terms.new id (λ v. is_undefined op width.bits (narrow_at v terms.old left) (narrow_at v terms.old right))) }
    ensures kept { Keeps terms.old terms.new }
{
    match op {
        Op::UnsignedDiv { .. } | Op::UnsignedRem => is_zero_or_poison(terms, right, width),
        Op::SignedDiv { .. } | Op::SignedRem => has_no_quotient(terms, left, right, width),
        Op::Add(_) | Op::Sub(_) | Op::Mul(_) | Op::ShiftLeft(_) => truth(terms, false),
        Op::LogicalShiftRight { .. } | Op::ArithmeticShiftRight { .. } => truth(terms, false),
        Op::And | Op::Or { .. } | Op::Xor => truth(terms, false),
    }
}

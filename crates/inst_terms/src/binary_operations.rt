//! Operations on two integers of the same width.

ghost use Rattle.std.specs.Prelude.{◌≡◌, ℕ, IfOk};
ghost use Rattle.bv_terms.specs.Trees.{IsTerm, Keeps, bit_at};
ghost use Rattle.points.specs.Table.{value_result};
ghost use Rattle.mem_terms.specs.Values.{IsSymNumber, option_from, number_at};
ghost use Rattle.inst_terms.specs.Narrow.{IsNarrow};
ghost use Rattle.inst_terms.specs.Rows.{IsRow};

use crate::bitwise::{conjunction, disjunction, exclusive_disjunction};
use crate::narrow::{NarrowValue, narrowed, widened};
use crate::products::product;
use crate::quotients::{signed_quotient, signed_remainder, unsigned_quotient, unsigned_remainder};
use crate::shifts::{arithmetic_shift_right, logical_shift_right, shift_left};
use crate::sums::{difference, sum};
use crate::undefined::is_undefined;
use bv_terms::{TermId, Terms};
use ir_tree::Op;
use mem_terms::{SymNumber, either};
use support::NoMemory;
use tv_num::Width;

/// What an operation gives: undefined behaviour where the first is true, else the value.
#[derive(Clone, Copy, Debug, PartialEq, Eq)]
pub struct Computed {
    pub undefined: TermId,
    pub value: SymNumber,
}

/// The operation on numbers of its width, where it is defined and no operand is poison.
fn on_numbers(
    terms: &mut Terms,
    op: Op,
    poison: TermId,
    a: TermId,
    b: TermId,
    width: Width,
) -> Result<NarrowValue, NoMemory>
    requires poison { IsTerm terms.old 1 poison }
    requires a { IsTerm terms.old width.bits a }
    requires b { IsTerm terms.old width.bits b }
    ensures made { IfOk result (IsNarrow terms.new width.bits) }
    ensures stands { IfOk result (IsRow terms.old terms.new op poison width.bits a b) }
    ensures kept { Keeps terms.old terms.new }
{
    terms.values_fit();
    match op {
        Op::Add(flags) => {
            let sum = sum(terms, flags, a, b, width)?;
            Ok(sum)
        }
        Op::Sub(flags) => {
            let difference = difference(terms, flags, a, b, width)?;
            Ok(difference)
        }
        Op::Mul(flags) => {
            let product = product(terms, flags, a, b, width)?;
            Ok(product)
        }
        Op::UnsignedDiv { exact } => {
            let quotient = unsigned_quotient(terms, exact, poison, a, b, width)?;
            Ok(quotient)
        }
        Op::UnsignedRem => {
            let remainder = unsigned_remainder(terms, poison, a, b, width)?;
            Ok(remainder)
        }
        Op::SignedDiv { exact } => {
            let signed_quotient = signed_quotient(terms, exact, a, b, width)?;
            Ok(signed_quotient)
        }
        Op::SignedRem => {
            let signed_remainder = signed_remainder(terms, a, b, width)?;
            Ok(signed_remainder)
        }
        Op::ShiftLeft(flags) => {
            let left = shift_left(terms, flags, a, b, width)?;
            Ok(left)
        }
        Op::LogicalShiftRight { exact } => {
            let logical = logical_shift_right(terms, exact, a, b, width)?;
            Ok(logical)
        }
        Op::ArithmeticShiftRight { exact } => {
            let arithmetic = arithmetic_shift_right(terms, exact, a, b, width)?;
            Ok(arithmetic)
        }
        Op::And => {
            let conjunction = conjunction(terms, a, b, width)?;
            Ok(conjunction)
        }
        Op::Or { disjoint } => {
            let disjunction = disjunction(terms, disjoint, a, b, width)?;
            Ok(disjunction)
        }
        Op::Xor => {
            let exclusive = exclusive_disjunction(terms, a, b, width)?;
            Ok(exclusive)
        }
    }
}

/// An operation on two values, read modulo 2^width (LLVM Language Reference, "Binary Operations",
/// "Bitwise Binary Operations"). The only error is out of memory, and the terms that were there
/// stay.
pub fn binary(
    terms: &mut Terms,
    op: Op,
    width: Width,
    left: SymNumber,
    right: SymNumber,
) -> Result<Computed, NoMemory>
    requires left { IsSymNumber terms.old left }
    requires right { IsSymNumber terms.old right }
    ensures made { IfOk result (λ c. IsTerm terms.new 1 c.undefined × IsSymNumber terms.new c.value) }
    ensures stands { IfOk result (λ c. (v : ℕ → ℕ → ℕ) → option_from (bit_at v terms.new c.undefined) (number_at v terms.new c.value)
        ≡ value_result op width.bits (number_at v terms.old left) (number_at v terms.old right)) }
    ensures kept { Keeps terms.old terms.new }
{
    let a = narrowed(terms, left, width)?;
    let b = narrowed(terms, right, width)?;
    let undefined = is_undefined(terms, op, a, b, width)?;
    let operands = either(terms, a.poison, b.poison)?;
    let row = on_numbers(terms, op, operands, a.number, b.number, width)?;
    let poison = either(terms, operands, row.poison)?;
    let number = row.number;
    let value = widened(terms, NarrowValue { poison, number }, width)?;
    Ok(Computed { undefined, value })
}

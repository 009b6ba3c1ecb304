//! An instruction as terms, which are evaluated.

ghost use Rattle.std.specs.Prelude.{◌≡◌, ◌<◌, IfOk};
ghost use Rattle.bv_terms.specs.Trees.{Extends};
ghost use Rattle.mem_terms.specs.Values.{IsSymNumber};

use crate::instructions::{Given, operand_pairs, upper_half, with_given};
use bv_terms::{TermId, Terms, fold};
use byte_block::Value;
use inst_terms::{binary, cast, compare, select};
use ir_tree::Inst;
use mem_terms::{SymNumber, as_number, integer_value};
use std::alloc::Global;
use std::test::Fail;
use support::{NoMemory, Sequence};
use term_folds::{Assigned, Evaluate};

/// An instruction as terms of its operands, each of which is two variables.
#[derive(Drop)]
pub struct InstTerms {
    terms: Terms,
    undefined: Option<TermId>,
    value: SymNumber,
}

/// The sum over the values of an instruction's terms.
pub fn evaluated(alloc: Global, inst: &Inst) -> Result<u64, Fail> {
    let pairs = operand_pairs(alloc, inst)?;
    sum_over(alloc, inst, pairs.as_slice())
}

fn sum_over(alloc: Global, inst: &Inst, pairs: &[[Value; 2]]) -> Result<u64, Fail> {
    let inst_terms = terms_of(alloc, inst)?;
    let mut sum = 0;
    for operands in pairs {
        sum = with_given(sum, valued(alloc, &inst_terms, operands)?);
    }
    Ok(upper_half(sum))
}

/// An operand of two variables, whether it is poison and its number.
fn operand(terms: &mut Terms, first: u64) -> Result<SymNumber, NoMemory>
    requires { first < 100 }
    ensures made { IfOk result (IsSymNumber terms.new) }
    ensures kept { Extends terms.old terms.new }
{
    let poison = terms.variable(first, 1)?;
    let number = terms.variable(first + 1, 64)?;
    Ok(SymNumber { poison, number })
}

/// A selection between two numbers.
fn chosen(
    terms: &mut Terms,
    condition: SymNumber,
    if_true: SymNumber,
    if_false: SymNumber,
) -> Result<SymNumber, NoMemory>
    requires condition { IsSymNumber terms.old condition }
    requires if_true { IsSymNumber terms.old if_true }
    requires if_false { IsSymNumber terms.old if_false }
{
    let first = integer_value(terms, if_true)?;
    let second = integer_value(terms, if_false)?;
    let value = select(terms, condition, first, second)?;
    as_number(terms, value)
}

/// The value of an instruction on operands of its own, and where it is undefined, if it may be.
fn result_of(terms: &mut Terms, inst: &Inst) -> Result<(SymNumber, Option<TermId>), Fail> {
    let a = operand(terms, 0)?;
    let b = operand(terms, 2)?;
    let c = operand(terms, 4)?;
    let value = match inst {
        Inst::Binary { op, width, .. } => {
            let computed = binary(terms, *op, *width, a, b)?;
            return Ok((computed.value, Some(computed.undefined)));
        }
        Inst::Icmp {
            predicate,
            same_sign,
            width,
            ..
        } => compare(terms, *predicate, *same_sign, *width, a, b)?,
        Inst::Cast {
            cast: by,
            from,
            to,
            ..
        } => cast(terms, *by, *from, *to, a)?,
        Inst::Select { .. } => chosen(terms, a, b, c)?,
        Inst::Freeze { .. } => a,
        Inst::Alloca { .. } | Inst::Load { .. } | Inst::Store { .. } | Inst::GetElementPtr { .. } =>
            return Err(Fail::from("an instruction on memory")),
    };
    Ok((value, None))
}

/// The terms of an instruction on operands of its own.
pub fn terms_of(alloc: Global, inst: &Inst) -> Result<InstTerms, Fail> {
    let mut terms = Terms::new(alloc);
    let (value, undefined) = result_of(&mut terms, inst)?;
    Ok(InstTerms {
        terms,
        undefined,
        value,
    })
}

/// The value of an instruction's terms where its operands have these values.
pub fn valued(
    alloc: Global,
    inst_terms: &InstTerms,
    operands: &[Value],
) -> Result<Given, NoMemory> {
    let mut evaluate = Evaluate {
        values: Sequence::from_vec(assigned(alloc, operands)?),
    };
    let Ok(values) = fold(alloc, &inst_terms.terms, &mut evaluate) else {
        return Err(NoMemory);
    };
    let undefined = match inst_terms.undefined {
        Some(undefined) => number_at(values.as_slice(), undefined),
        None => 0,
    };
    Ok(if undefined == 1 {
        Given::Undefined
    } else if number_at(values.as_slice(), inst_terms.value.poison) == 1 {
        Given::Poison
    } else {
        Given::Number(number_at(values.as_slice(), inst_terms.value.number))
    })
}

/// The variables of operands. The number beside poison is any, here 7.
fn assigned(alloc: Global, operands: &[Value]) -> Result<Vec<Assigned>, NoMemory> {
    let mut values = Vec::new(alloc);
    let mut first = 0u64;
    for operand in operands {
        let (is_poison, n) = match operand {
            Value::Num(n) => (0, *n),
            _ => (1, 7),
        };
        values.push(Assigned {
            number: first,
            width: 1,
            value: is_poison,
        })?;
        values.push(Assigned {
            number: first.wrapping_add(1),
            width: 64,
            value: n as u128,
        })?;
        first = first.wrapping_add(2);
    }
    Ok(values)
}

/// The number of a term.
fn number_at(values: &[u128], id: TermId) -> u64 {
    let value = values.get(id.index).copied().unwrap_or(0);
    u64::try_from(value).unwrap_or(u64::MAX)
}

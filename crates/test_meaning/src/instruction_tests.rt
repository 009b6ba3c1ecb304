//! The table of instructions, by sums computed outside.

use crate::by_interpreter::{interpreted, returned};
use crate::by_terms::{evaluated, terms_of, valued};
use crate::expecting::expect;
use crate::instructions::{COLUMNS, Column, Given, function_in, instruction_in, module_of};
use crate::sums::SUMS;
use byte_block::Value;
use byte_block::Value::{Num, Poison};
use ir_reader::read;
use ir_tree::{Function, Inst, Module};
use std::alloc::Global;
use std::test::Fail;

/// The sums of an instruction in a column, by the interpreter and by the terms.
fn both_sums(alloc: Global, function: &Function) -> Result<(u64, u64), Fail> {
    let inst = instruction_in(function).ok_or("it has an instruction")?;
    Ok((interpreted(alloc, function)?, evaluated(alloc, inst)?))
}

/// Fails where the interpreter or the terms give another sum for an instruction in a column.
fn are_sums(alloc: Global, instruction: &str, column: Column, sum: u64) -> Result<(), Fail> {
    let module = module_of(alloc, instruction, column)?;
    is_sum(alloc, &module, sum, instruction)
}

fn is_sum(alloc: Global, module: &Module, sum: u64, instruction: &str) -> Result<(), Fail> {
    let function = function_in(module).ok_or("the function is read")?;
    expect(both_sums(alloc, function)? == (sum, sum), instruction)
}

/// Fails where a line has another number of sums than there are columns, or one of them is another.
fn have_sums(alloc: Global, line: &str) -> Result<(), Fail> {
    let (instruction, sums) = line.split_once(": ").ok_or("a line has sums")?;
    expect(sums.split_whitespace().count() == COLUMNS.len(), line)?;
    for (&column, digits) in COLUMNS.iter().zip(sums.split_whitespace()) {
        let sum = u64::from_str_radix(digits, 16)?;
        are_sums(alloc, instruction, column, sum)?;
    }
    Ok(())
}

#[test]
fn interpreter_and_terms_give_the_sums(rt: HostRuntime) -> Result<(), Fail> {
    for line in SUMS.lines() {
        have_sums(rt.alloc(), line)?;
    }
    Ok(())
}

const SELECT: &[u8] =
    b"define i8 @f(i1 %c, i8 %a, i8 %b) {\n  %r = select i1 %c, i8 %a, i8 %b\n  ret i8 %r\n}\n";

/// A condition, two arms and what is given: the arm that is not chosen may be poison, and of the
/// condition the lowest bit counts.
const SELECTED: [(Value, Value, Value, Given); 7] = [
    (Num(1), Num(1), Num(2), Given::Number(1)),
    (Num(0), Num(1), Num(2), Given::Number(2)),
    (Num(3), Num(1), Num(2), Given::Number(1)),
    (Num(1), Num(1), Poison, Given::Number(1)),
    (Num(0), Poison, Num(2), Given::Number(2)),
    (Num(1), Poison, Num(2), Given::Poison),
    (Poison, Num(1), Num(1), Given::Poison),
];

/// What the terms of an instruction give on operands.
fn given_by_terms(alloc: Global, inst: &Inst, operands: &[Value]) -> Result<Given, Fail> {
    let inst_terms = terms_of(alloc, inst)?;
    let given = valued(alloc, &inst_terms, operands)?;
    Ok(given)
}

/// Whether the interpreter and the terms of a function's instruction give the same on operands.
fn is_given(
    alloc: Global,
    function: &Function,
    operands: &[Value],
    given: Given,
) -> Result<bool, Fail> {
    let inst = instruction_in(function).ok_or("it has an instruction")?;
    let by_terms = given_by_terms(alloc, inst, operands)?;
    Ok(returned(alloc, function, operands)? == given && by_terms == given)
}

/// Whether the function of the select gives what the rows say.
fn are_given(alloc: Global, function: &Function) -> Result<bool, Fail> {
    for &(condition, if_true, if_false, given) in &SELECTED {
        let operands = [condition, if_true, if_false];
        if !is_given(alloc, function, &operands, given)? {
            return Ok(false);
        }
    }
    Ok(true)
}

#[test]
fn a_select_looks_at_the_chosen_arm_alone(rt: HostRuntime) -> Result<(), Fail> {
    let module = read(rt.alloc(), SELECT).ok().ok_or("the module is read")?;
    let function = function_in(&module).ok_or("the function is read")?;
    expect(
        are_given(rt.alloc(), function)?,
        "a select looks at the chosen arm alone",
    )
}

//! Terms of values and tests.

ghost use Rattle.bv_terms.specs.Trees.{IsTerm};

use crate::expecting::expect;
use crate::term_values::value_of;
use bv_terms::{TermId, Terms};
use ir_tree::IrType;
use mem_terms::{
    ArgTerms, arg_value, both, either, equals, implies, known_number, less, less_signed, negation,
    number, pick, pick_number, poison_number, resize, truth,
};
use std::alloc::Global;
use std::test::Fail;
use support::NoMemory;
use tv_num::Width;

/// Whether a choice by a known condition is one of the values.
fn is_chosen(terms: &mut Terms) -> Result<bool, NoMemory> {
    let always = truth(terms, true)?;
    let seven = known_number(terms, 7)?;
    let poison = poison_number(terms)?;
    Ok(pick_number(terms, always, seven, poison)? == seven)
}

#[test]
fn a_known_choice_makes_no_term(rt: HostRuntime) -> Result<(), Fail> {
    let mut terms = Terms::new(rt.alloc());
    expect(is_chosen(&mut terms)?, "a known choice makes no term")
}

/// The functions of two truths.
#[derive(Clone, Copy)]
enum Truth {
    Negation,
    Both,
    Either,
    Implies,
}

fn truth_term(terms: &mut Terms, op: Truth, a: TermId, b: TermId) -> Result<TermId, NoMemory>
    requires a { IsTerm terms.old 1 a }
    requires b { IsTerm terms.old 1 b }
{
    match op {
        Truth::Negation => negation(terms, a),
        Truth::Both => both(terms, a, b),
        Truth::Either => either(terms, a, b),
        Truth::Implies => implies(terms, a, b),
    }
}

/// The value of a function of two truths; the negation is that of the first.
fn truth_of(
    alloc: Global,
    terms: &mut Terms,
    op: Truth,
    a: bool,
    b: bool,
) -> Result<Option<u128>, NoMemory> {
    let a = truth(terms, a)?;
    let b = truth(terms, b)?;
    let id = truth_term(terms, op, a, b)?;
    value_of(alloc, terms, id)
}

/// For each function the bits of its values at true and true, true and false, false and true, false
/// and false, most significant bit first.
const TRUTHS: [(Truth, u128); 4] = [
    (Truth::Negation, 0b0011),
    (Truth::Both, 0b1000),
    (Truth::Either, 0b1110),
    (Truth::Implies, 0b1011),
];

/// Whether a function of two truths has these values.
fn has_truths(alloc: Global, terms: &mut Terms, op: Truth, wants: u128) -> Result<bool, NoMemory> {
    for case in 0..4u32 {
        let found = truth_of(alloc, terms, op, case & 2 == 2, case & 1 == 1)?;
        if found != Some(wants >> case & 1) {
            return Ok(false);
        }
    }
    Ok(true)
}

#[test]
fn truths_of_two(rt: HostRuntime) -> Result<(), Fail> {
    let mut terms = Terms::new(rt.alloc());
    for &(op, wants) in &TRUTHS {
        expect(
            has_truths(rt.alloc(), &mut terms, op, wants)?,
            "a function of two truths",
        )?;
    }
    Ok(())
}

/// A function of two numbers of 64 bits: `first` is the first number by a choice, `byte` its low 8
/// bits, and `wide` the first number at 128 bits.
fn number_term(terms: &mut Terms, op: &str, a: TermId, b: TermId) -> Result<TermId, NoMemory>
    requires a { IsTerm terms.old 64 a }
    requires b { IsTerm terms.old 64 b }
{
    match op {
        "equals" => equals(terms, a, b),
        "less" => less(terms, a, b),
        "less_signed" => less_signed(terms, a, b),
        "first" => {
            let always = truth(terms, true)?;
            pick(terms, always, a, b)
        }
        "byte" => resize(terms, a, 8),
        _ => resize(terms, a, 128),
    }
}

fn number_of(
    alloc: Global,
    terms: &mut Terms,
    op: &str,
    a: u64,
    b: u64,
) -> Result<Option<u128>, NoMemory> {
    let a = number(terms, a)?;
    let b = number(terms, b)?;
    let id = number_term(terms, op, a, b)?;
    value_of(alloc, terms, id)
}

/// A function of two numbers, the numbers, and its value.
const NUMBERS: [(&str, u64, u64, u128); 12] = [
    ("equals", 5, 5, 1),
    ("equals", 5, 6, 0),
    ("less", 1, 2, 1),
    ("less", 2, 2, 0),
    ("less", 18446744073709551615, 0, 0),
    ("less_signed", 1, 2, 1),
    ("less_signed", 2, 2, 0),
    ("less_signed", 18446744073709551615, 0, 1),
    ("less_signed", 9223372036854775807, 9223372036854775808, 0),
    ("first", 3, 4, 3),
    ("byte", 300, 0, 44),
    ("wide", 18446744073709551615, 0, 18446744073709551615),
];

#[test]
fn numbers_of_two(rt: HostRuntime) -> Result<(), Fail> {
    let mut terms = Terms::new(rt.alloc());
    for &(op, a, b, want) in &NUMBERS {
        expect(
            number_of(rt.alloc(), &mut terms, op, a, b)? == Some(want),
            op,
        )?;
    }
    Ok(())
}

/// Whether an argument of 8 bits that is 200 is the number 200, without a sign.
fn is_number(alloc: Global, terms: &mut Terms) -> Result<bool, NoMemory> {
    let flag = truth(terms, false)?;
    let number = terms.constant(200, 8)?;
    let of_type = IrType::Int(Width::of(8));
    let value = arg_value(terms, ArgTerms::Int { flag, number }, of_type)?;
    Ok(
        value.poison == flag
            && value_of(alloc, terms, value.is_pointer)? == Some(0)
            && value_of(alloc, terms, value.number)? == Some(200),
    )
}

#[test]
fn an_argument_is_a_value(rt: HostRuntime) -> Result<(), Fail> {
    let mut terms = Terms::new(rt.alloc());
    expect(is_number(rt.alloc(), &mut terms)?, "an argument is a value")
}

/// Whether a pointer argument is one to byte 9 of the fifth given block.
fn is_pointer(alloc: Global, terms: &mut Terms) -> Result<bool, NoMemory> {
    let flag = truth(terms, false)?;
    let block = terms.constant(5, 3)?;
    let offset = number(terms, 9)?;
    let pointer = ArgTerms::Ptr {
        flag,
        block,
        offset,
    };
    let value = arg_value(terms, pointer, IrType::Ptr)?;
    Ok(
        value_of(alloc, terms, value.is_pointer)? == Some(1)
            && value_of(alloc, terms, value.block)? == Some(5)
            && value.number == offset,
    )
}

#[test]
fn a_pointer_argument_is_a_value(rt: HostRuntime) -> Result<(), Fail> {
    let mut terms = Terms::new(rt.alloc());
    expect(
        is_pointer(rt.alloc(), &mut terms)?,
        "a pointer argument is a value",
    )
}

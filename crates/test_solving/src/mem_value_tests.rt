//! What a value is where the other kind is wanted is read off the types of the LLVM Language
//! Reference: a pointer is no number, and a number no pointer, not even 0.

ghost use Rattle.std.specs.Prelude.{IfOk};
ghost use Rattle.bv_terms.specs.Trees.{IsTerm, Keeps};
ghost use Rattle.mem_terms.specs.Values.{IsSymValue};
ghost use Rattle.mem_terms.specs.Memory.{IsSymByte};

use crate::expecting::expect;
use crate::term_values::value_of;
use bv_terms::{TermId, Terms};
use byte_block::{BlockName, Byte, Ptr, Value};
use mem_terms::{
    SymByte, SymValue, as_address, as_number, integer_value, known_number, negation, null_value,
    number, pick_byte, pick_value, pointer_value, poison_byte, poison_value, truth,
};
use memory_access::defined_bits;
use std::alloc::Global;
use std::test::Fail;
use support::NoMemory;

// ---- values as terms, and read off terms without variables

/// The number of a block: 0 for null, and a given one's own.
fn block_number(name: BlockName) -> u64 {
    match name {
        BlockName::Null | BlockName::Local(..) => 0,
        BlockName::Given(n) => n,
    }
}

fn block_name(n: u64) -> BlockName {
    if n == 0 {
        BlockName::Null
    } else {
        BlockName::Given(n)
    }
}

/// The number of a term of at most 64 bits, where variables are 0.
fn number_in(alloc: Global, terms: &Terms, id: TermId) -> Result<u64, NoMemory> {
    let value = value_of(alloc, terms, id)?.unwrap_or(0);
    Ok(u64::try_from(value).unwrap_or(u64::MAX))
}

/// The block's number and the offset.
fn pointer_terms(terms: &mut Terms, pointer: Ptr) -> Result<(TermId, TermId), NoMemory>
    ensures made { IfOk result (λ p. IsTerm terms.new 64 p.0 × IsTerm terms.new 64 p.1) }
    ensures kept { Keeps terms.old terms.new }
{
    let block = number(terms, block_number(pointer.block))?;
    let offset = number(terms, pointer.offset)?;
    Ok((block, offset))
}

fn pointer_in(
    alloc: Global,
    terms: &Terms,
    block: TermId,
    offset: TermId,
) -> Result<Ptr, NoMemory> {
    Ok(Ptr {
        block: block_name(number_in(alloc, terms, block)?),
        offset: number_in(alloc, terms, offset)?,
    })
}

fn value_terms(terms: &mut Terms, value: Value) -> Result<SymValue, NoMemory>
    ensures made { IfOk result (IsSymValue terms.new) }
    ensures kept { Keeps terms.old terms.new }
{
    match value {
        Value::Poison => poison_value(terms),
        Value::Num(n) => {
            let n = known_number(terms, n)?;
            integer_value(terms, n)
        }
        Value::Ptr(pointer) => {
            let (block, offset) = pointer_terms(terms, pointer)?;
            pointer_value(terms, block, offset)
        }
    }
}

fn value_in(alloc: Global, terms: &Terms, s: SymValue) -> Result<Value, NoMemory> {
    if number_in(alloc, terms, s.poison)? == 1 {
        Ok(Value::Poison)
    } else if number_in(alloc, terms, s.is_pointer)? == 1 {
        Ok(Value::Ptr(pointer_in(alloc, terms, s.block, s.number)?))
    } else {
        Ok(Value::Num(number_in(alloc, terms, s.number)?))
    }
}

// ---- values of both kinds

const NULL: Value = Value::Ptr(Ptr {
    block: BlockName::Null,
    offset: 0,
});

const FIRST_AT_0: Value = Value::Ptr(Ptr {
    block: BlockName::Given(1),
    offset: 0,
});

const FIRST_AT_8: Value = Value::Ptr(Ptr {
    block: BlockName::Given(1),
    offset: 8,
});

const SECOND_AT_8: Value = Value::Ptr(Ptr {
    block: BlockName::Given(2),
    offset: 8,
});

const SECOND_AT_9: Value = Value::Ptr(Ptr {
    block: BlockName::Given(2),
    offset: 9,
});

const SECOND_AT_LAST: Value = Value::Ptr(Ptr {
    block: BlockName::Given(2),
    offset: u64::MAX,
});

/// A value where a number is used, and where a pointer is.
fn used(alloc: Global, terms: &mut Terms, value: Value) -> Result<(Value, Value), NoMemory> {
    let given = value_terms(terms, value)?;
    let address = as_address(terms, given)?;
    let n = as_number(terms, given)?;
    let n = integer_value(terms, n)?;
    Ok((value_in(alloc, terms, n)?, value_in(alloc, terms, address)?))
}

/// A value, and what it is where a number is used and where a pointer is.
const USES: [(Value, (Value, Value)); 6] = [
    (Value::Poison, (Value::Poison, Value::Poison)),
    (Value::Num(0), (Value::Num(0), Value::Poison)),
    (Value::Num(7), (Value::Num(7), Value::Poison)),
    (NULL, (Value::Poison, NULL)),
    (FIRST_AT_0, (Value::Poison, FIRST_AT_0)),
    (SECOND_AT_LAST, (Value::Poison, SECOND_AT_LAST)),
];

fn are_used(alloc: Global, terms: &mut Terms) -> Result<bool, NoMemory> {
    for &(value, wants) in &USES {
        if used(alloc, terms, value)? != wants {
            return Ok(false);
        }
    }
    Ok(true)
}

#[test]
fn a_value_of_the_other_kind_is_poison(rt: HostRuntime) -> Result<(), Fail> {
    let mut terms = Terms::new(rt.alloc());
    expect(
        are_used(rt.alloc(), &mut terms)?,
        "a value of the other kind is poison",
    )
}

#[test]
fn null_is_the_start_of_the_null_block(rt: HostRuntime) -> Result<(), Fail> {
    let mut terms = Terms::new(rt.alloc());
    let null = null_value(&mut terms)?;
    expect(
        value_in(rt.alloc(), &terms, null)? == NULL,
        "null is the start of the null block",
    )
}

// ---- choices

/// A condition that is no constant: a variable, which is 0 where values are taken, or its negation.
fn condition(terms: &mut Terms, is_true: bool) -> Result<TermId, NoMemory>
    ensures made { IfOk result (IsTerm terms.new 1) }
{
    let never = terms.variable(0, 1)?;
    if is_true {
        negation(terms, never)
    } else {
        Ok(never)
    }
}

/// The value of the choice of the first or the second of two values.
fn picked_value(
    alloc: Global,
    terms: &mut Terms,
    is_first: bool,
    a: Value,
    b: Value,
) -> Result<Value, NoMemory> {
    let c = condition(terms, is_first)?;
    let a = value_terms(terms, a)?;
    let b = value_terms(terms, b)?;
    let picked = pick_value(terms, c, a, b)?;
    value_in(alloc, terms, picked)
}

const VALUES: [Value; 6] = [
    Value::Poison,
    Value::Num(9),
    NULL,
    FIRST_AT_8,
    SECOND_AT_8,
    SECOND_AT_9,
];

/// Whether each choice between a value and another is the chosen one.
fn are_picked(alloc: Global, terms: &mut Terms, a: Value) -> Result<bool, NoMemory> {
    for &b in &VALUES {
        let first = picked_value(alloc, terms, true, a, b)?;
        let second = picked_value(alloc, terms, false, a, b)?;
        if first != a || second != b {
            return Ok(false);
        }
    }
    Ok(true)
}

#[test]
fn a_choice_has_the_kind_of_the_chosen_value(rt: HostRuntime) -> Result<(), Fail> {
    let mut terms = Terms::new(rt.alloc());
    for &a in &VALUES {
        expect(
            are_picked(rt.alloc(), &mut terms, a)?,
            "a choice has the kind of the value",
        )?;
    }
    Ok(())
}

// ---- bytes

fn bits_byte(terms: &mut Terms, n: u8, poison: u8) -> Result<SymByte, NoMemory>
    ensures made { IfOk result (IsSymByte terms.new) }
    ensures kept { Keeps terms.old terms.new }
{
    let unused = poison_byte(terms)?;
    let mask = terms.constant(u128::from(poison), 8)?;
    let number = terms.constant(u128::from(n), 8)?;
    Ok(SymByte {
        mask,
        number,
        ..unused
    })
}

fn part_byte(terms: &mut Terms, pointer: Ptr, part: u8) -> Result<SymByte, NoMemory>
    ensures made { IfOk result (IsSymByte terms.new) }
    ensures kept { Keeps terms.old terms.new }
{
    let unused = poison_byte(terms)?;
    let (block, offset) = pointer_terms(terms, pointer)?;
    let is_part = truth(terms, true)?;
    let part = terms.constant(u128::from(part % 8), 3)?;
    Ok(SymByte {
        is_part,
        mask: unused.mask,
        number: unused.number,
        block,
        offset,
        part,
    })
}

fn byte_terms(terms: &mut Terms, byte: Byte) -> Result<SymByte, NoMemory>
    ensures made { IfOk result (IsSymByte terms.new) }
    ensures kept { Keeps terms.old terms.new }
{
    match byte {
        Byte::Bits { number, mask } => bits_byte(terms, number, mask),
        Byte::Part(pointer, part) => part_byte(terms, pointer, part),
    }
}

fn byte_in(alloc: Global, terms: &Terms, b: SymByte) -> Result<Byte, NoMemory> {
    if number_in(alloc, terms, b.is_part)? == 1 {
        return Ok(Byte::Part(
            pointer_in(alloc, terms, b.block, b.offset)?,
            number_in(alloc, terms, b.part)?.to_le_bytes()[0],
        ));
    }
    let mask = number_in(alloc, terms, b.mask)?.to_le_bytes()[0];
    let number = number_in(alloc, terms, b.number)?.to_le_bytes()[0];
    Ok(Byte::Bits {
        number: defined_bits(number, mask),
        mask,
    })
}

/// The byte of the choice of the first or the second of two bytes.
fn picked_byte(
    alloc: Global,
    terms: &mut Terms,
    is_first: bool,
    a: Byte,
    b: Byte,
) -> Result<Byte, NoMemory> {
    let c = condition(terms, is_first)?;
    let a = byte_terms(terms, a)?;
    let b = byte_terms(terms, b)?;
    let picked = pick_byte(terms, c, a, b)?;
    byte_in(alloc, terms, picked)
}

/// The first byte of a block.
const START: Ptr = Ptr {
    block: BlockName::Given(1),
    offset: 0,
};

/// A byte of another block.
const LATER: Ptr = Ptr {
    block: BlockName::Given(2),
    offset: 16,
};

const BYTES: [Byte; 8] = [
    Byte::Bits {
        number: 0,
        mask: 255,
    },
    Byte::Bits { number: 0, mask: 0 },
    Byte::Bits {
        number: 255,
        mask: 0,
    },
    Byte::Bits {
        number: 240,
        mask: 15,
    },
    Byte::Bits {
        number: 1,
        mask: 128,
    },
    Byte::Part(START, 0),
    Byte::Part(START, 7),
    Byte::Part(LATER, 7),
];

/// Whether each choice between a byte and another is the chosen one.
fn are_picked_bytes(alloc: Global, terms: &mut Terms, a: Byte) -> Result<bool, NoMemory> {
    for &b in &BYTES {
        let first = picked_byte(alloc, terms, true, a, b)?;
        let second = picked_byte(alloc, terms, false, a, b)?;
        if first != a || second != b {
            return Ok(false);
        }
    }
    Ok(true)
}

#[test]
fn a_choice_is_the_chosen_byte(rt: HostRuntime) -> Result<(), Fail> {
    let mut terms = Terms::new(rt.alloc());
    for &a in &BYTES {
        expect(
            are_picked_bytes(rt.alloc(), &mut terms, a)?,
            "a choice is the chosen byte",
        )?;
    }
    Ok(())
}

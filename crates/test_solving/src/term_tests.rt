//! Values of terms.

use crate::expecting::expect;
use crate::gate_values::{number, values_of};
use crate::written_terms::written;
use bit_blast::Blast;
use bv_terms::{BinaryOp, TermId, Terms, fold};
use gates::GateId;
use std::alloc::Global;
use std::test::Fail;
use support::{NoMemory, Sequence};
use term_folds::{Assigned, Evaluate};

/// A number for a variable.
fn assigned(number: u64, width: u32, value: u128) -> Assigned {
    Assigned {
        number,
        width,
        value,
    }
}

/// The value of a term where variables 0 and 1 have this width and these values.
fn value_at(
    alloc: Global,
    terms: &Terms,
    id: TermId,
    width: u32,
    x: u128,
    y: u128,
) -> Result<Option<u128>, NoMemory> {
    let values = Vec::from_array(alloc, [assigned(0, width, x), assigned(1, width, y)])?;
    let mut evaluate = Evaluate {
        values: Sequence::from_vec(values),
    };
    match fold(alloc, terms, &mut evaluate) {
        Ok(found) => Ok(found.get(id.index).copied()),
        Err(_) => Err(NoMemory),
    }
}

/// The value of the term that a text writes where the variables have these values.
fn value_of(
    alloc: Global,
    terms: &mut Terms,
    text: &str,
    x: u128,
    y: u128,
) -> Result<Option<u128>, NoMemory> {
    let id = written(alloc, terms, text)?;
    value_at(alloc, terms, id, 3, x, y)
}

/// The sum of two variables of 8 bits.
fn sum(terms: &mut Terms) -> Result<TermId, NoMemory> {
    let x = terms.variable(0, 8)?;
    let y = terms.variable(1, 8)?;
    terms.binary(BinaryOp::Add, x, y)
}

/// 200 and 100 are 44 modulo 256.
#[test]
fn sums_wrap(rt: HostRuntime) -> Result<(), Fail> {
    let mut terms = Terms::new(rt.alloc());
    let id = sum(&mut terms)?;
    expect(
        value_at(rt.alloc(), &terms, id, 8, 200, 100)? == Some(44),
        "sums wrap",
    )
}

/// The number that the bits of a term write where the inputs of the circuit, in order, are the bits of
/// a word of 6 bits.
fn number_at(
    alloc: Global,
    blast: &Blast,
    bits: Option<&Sequence<GateId>>,
    word: u32,
) -> Result<Option<u128>, NoMemory> {
    let Some(bits) = bits else {
        return Ok(None);
    };
    let values = values_of(alloc, blast.circuit(), word)?;
    Ok(Some(u128::from(number(&values, bits.as_slice()))))
}

/// The number that the bits of the term write where the inputs are those of a word.
fn bits_of(
    alloc: Global,
    terms: &mut Terms,
    text: &str,
    word: u32,
) -> Result<Option<u128>, NoMemory> {
    let id = written(alloc, terms, text)?;
    let mut blast = Blast::new(alloc);
    let Ok(all) = fold(alloc, terms, &mut blast) else {
        return Err(NoMemory);
    };
    number_at(alloc, &blast, all.get(id.index), word)
}

/// The values of x and y in the columns of the table, and both as one word.
const COLUMNS: [(u128, u128, u32); 4] = [(6, 3, 51), (5, 1, 41), (2, 0, 16), (1, 2, 10)];

/// Whether the term of a text has these values, one a column, as a number and as bits.
fn has_values(
    alloc: Global,
    terms: &mut Terms,
    text: &str,
    values: &[u128],
) -> Result<bool, NoMemory> {
    for (&(x, y, word), want) in COLUMNS.iter().zip(values.iter()) {
        let value = value_of(alloc, terms, text, x, y)?;
        let bits = bits_of(alloc, terms, text, word)?;
        if value != Some(*want) || bits != Some(*want) {
            return Ok(false);
        }
    }
    Ok(true)
}

/// Terms over x and y, and their values where x and y are 6 and 3, 5 and 1, 2 and 0, and 1 and 2.
const VALUES: &str = "\
x~ 1 2 5 6
xp 3 2 1 0
xz 6 5 2 1
xs 62 61 2 1
xy: 51 41 16 10
xy<xy? 3 1 0 1
xy& 2 1 0 0
xy| 7 5 2 3
xy^ 5 4 2 3
xy+ 1 6 2 3
xy- 3 4 2 7
xy* 2 5 0 2
xy/ 2 5 7 0
xy% 0 0 2 1
xyl 0 2 2 4
xyr 0 2 2 0
xya 7 6 2 0
xy= 0 0 0 0
xy< 0 0 0 1
xyi 1 1 0 1";

fn numbers_in(alloc: Global, text: &str) -> Result<Vec<u128>, Fail> {
    let mut numbers = Vec::new(alloc);
    for word in text.split_whitespace() {
        numbers.push(word.parse::<u128>()?)?;
    }
    Ok(numbers)
}

fn is_valued(alloc: Global, terms: &mut Terms, row: &str) -> Result<(), Fail> {
    let (text, values) = row.split_once(" ").ok_or("a term and its values")?;
    let values = numbers_in(alloc, values)?;
    expect(has_values(alloc, terms, text, values.as_slice())?, row)
}

#[test]
fn terms_have_values(rt: HostRuntime) -> Result<(), Fail> {
    let mut terms = Terms::new(rt.alloc());
    for row in VALUES.lines() {
        is_valued(rt.alloc(), &mut terms, row)?;
    }
    Ok(())
}

/// A text and another one that writes the same term: what is plainly one of the operands, or a
/// number, is it, operands that change places are one term, operations on numbers are computed, a
/// common factor is multiplied once, low bits come from low bits, operations on widened numbers are
/// done before widening, terms whose sums of products are the same are equal, also by cases of a
/// condition and as operands, and a remainder is below its divisor. What is added to a term and taken
/// away again is not there, also where only low bits of it are taken between.
const SAME: &str = "\
xx& x
xx| x
x0+ x
x0- x
x0^ x
x7& x
0x| x
xx^ 0
xx- 0
x0& 0
x~x& 0
xx~| 7
x~~ x
1x* x
x1/ x
xx% 0
x7l 0
xy<xx? x
xy+y- x
xy-y+ x
xy+x- y
xyx-+ y
ysxz+tx- y
xysxz-t+ y
ysxz^tx^ y
xxy|& x
xy&y| y
xy^x^ y
xy& yx&
xy| yx|
xy^ yx^
xy+ yx+
xy* yx*
xy= yx=
xx= 00=
xx~= 00<
xx< 00<
x2* x1l
x~xy|& x~y&
x~xy&| x~y|
xy<77=00<? xy<
32+ 5
3~ 4
12l 4
72/ 3
xy*3x*+ xy3+*
xz3z+yz*t x3+y*
xzyz% xy%z
xz5z/ x5/z
7zxz- x~z
xzyzi xy<
xx*y*xx*3*+xx*y3+*= 00=
x3*y3*-xy-3*= 00=
x5*y*x5y**= 00=
xy+y*yy*-xy*= 00=
xy+3*x5*+y3*-0= 00=
xyl3yl+x3+yl= 00=
x~y*yxy*+~1+= 00=
x3/7*x3%+x3/4*x+= 00=
x1+x= 00<
xy<12?x+xy<x1+x2+?= 00=
x3*y3*-7/xy-3*7/= 00=
xy%y< y0=~
xy%y% xy%
xxy%< 00<";

fn is_simplified(alloc: Global, row: &str) -> Result<(), Fail> {
    let (first, second) = row.split_once(" ").ok_or("two terms")?;
    let mut terms = Terms::new(alloc);
    let one = written(alloc, &mut terms, first)?;
    let other = written(alloc, &mut terms, second)?;
    expect(one == other, row)
}

#[test]
fn terms_are_simplified(rt: HostRuntime) -> Result<(), Fail> {
    for row in SAME.lines() {
        is_simplified(rt.alloc(), row)?;
    }
    Ok(())
}

//! Which outcomes with pointers and memory cover which, worked out by hand from Alive2 (PLDI 2021): a
//! pointer to a block of an alloca is dead after the run.

ghost use Rattle.std.specs.Prelude.{◌≡◌, [], ◌∷◌, IfOk, length, map};
ghost use Rattle.bv_terms.specs.Trees.{Keeps};
ghost use Rattle.mem_terms.specs.Values.{IsSymValue};
ghost use Rattle.mem_terms.specs.Memory.{AreSymBytes, IsAlways, IsSymBlock, IsSymByte, frame_of};
ghost use Rattle.mem_terms.specs.Outcomes.{IsOutcome};

use crate::expecting::expect;
use crate::term_values::value_of;
use bv_terms::Terms;
use mem_terms::{OutcomeTerms, SymBlock, SymByte, SymValue, number, truth};
use refine_terms::covered;
use std::alloc::Global;
use std::test::Fail;
use support::{NoMemory, Sequence};

/// Whether a byte is a part of a pointer, its mask and number, its block, offset and part. One block
/// is given, with the number 1; the blocks of allocas have the numbers from 8 on.
#[derive(Clone, Copy)]
struct Place(bool, u8, u8, u64, u64, u8);

/// Whether a value is poison and whether it is a pointer, its block, and its number or offset.
#[derive(Clone, Copy)]
struct Returned(bool, bool, u64, u64);

/// A return with this value, which leaves the given block with this size and two bytes of these
/// letters.
#[derive(Clone, Copy)]
struct End {
    value: Returned,
    size: u64,
    first: u8,
    second: u8,
}

/// A row: the end of the source, that of the target, and whether the first covers the second.
#[derive(Clone, Copy)]
struct Ends {
    source: End,
    target: End,
    is_covered: bool,
}

fn byte(terms: &mut Terms, place: Place) -> Result<SymByte, NoMemory>
    ensures made { IfOk result (IsSymByte terms.new) }
    ensures kept { Keeps terms.old terms.new }
{
    let mask = terms.constant(u128::from(place.1), 8)?;
    let number_8 = terms.constant(u128::from(place.2), 8)?;
    let block = number(terms, place.3)?;
    let offset = number(terms, place.4)?;
    let part = terms.constant(u128::from(place.5 % 8), 3)?;
    let is_part = truth(terms, place.0)?;
    Ok(SymByte {
        is_part,
        mask,
        number: number_8,
        block,
        offset,
        part,
    })
}

fn value(terms: &mut Terms, returned: Returned) -> Result<SymValue, NoMemory>
    ensures made { IfOk result (IsSymValue terms.new) }
    ensures kept { Keeps terms.old terms.new }
{
    let poison = truth(terms, returned.0)?;
    let is_pointer = truth(terms, returned.1)?;
    let block = number(terms, returned.2)?;
    let number_64 = number(terms, returned.3)?;
    Ok(SymValue {
        poison,
        is_pointer,
        block,
        number: number_64,
    })
}

/// The bytes of the given block, by their letters.
fn places(
    alloc: Global,
    terms: &mut Terms,
    first: u8,
    second: u8,
) -> Result<Sequence<SymByte>, NoMemory>
    ensures made { IfOk result (AreSymBytes terms.new) }
    ensures count { IfOk result (λ bytes. length bytes ≡ 2) }
    ensures kept { Keeps terms.old terms.new }
{
    let first = byte(terms, lettered(first))?;
    let second = byte(terms, lettered(second))?;
    Ok(Sequence::from_vec(Vec::from_array(alloc, [first, second])?))
}

/// The given block.
fn block(alloc: Global, terms: &mut Terms, end: &End) -> Result<SymBlock, NoMemory>
    ensures made { IfOk result (IsSymBlock terms.new) }
    ensures always { IfOk result (IsAlways terms.new) }
    ensures frame { IfOk result (λ b. frame_of b ≡ record { number = 1; align = 16; room = 2 }) }
    ensures kept { Keeps terms.old terms.new }
{
    let places = places(alloc, terms, end.first, end.second)?;
    let size = number(terms, end.size)?;
    let exists = truth(terms, true)?;
    Ok(SymBlock {
        number: 1,
        exists,
        size,
        align: 16,
        places,
    })
}

fn outcome(alloc: Global, terms: &mut Terms, end: &End) -> Result<OutcomeTerms, NoMemory>
    ensures made { IfOk result (IsOutcome terms.new) }
    ensures frames { IfOk result (λ o. map frame_of o.blocks ≡ record { number = 1; align = 16; room = 2 } ∷ []) }
    ensures kept { Keeps terms.old terms.new }
{
    let given = block(alloc, terms, end)?;
    let returned = value(terms, end.value)?;
    let read = number(terms, 0)?;
    let plain = truth(terms, true)?;
    let never = truth(terms, false)?;
    Ok(OutcomeTerms {
        ub: never,
        beyond: never,
        value: Some(returned),
        blocks: Sequence::from_vec(Vec::from_array(alloc, [given])?),
        read,
        plain,
    })
}

/// Whether the source's end covers the target's.
fn is_covered(
    alloc: Global,
    terms: &mut Terms,
    source: &End,
    target: &End,
) -> Result<bool, NoMemory> {
    let from = outcome(alloc, terms, source)?;
    let to = outcome(alloc, terms, target)?;
    let id = covered(&from, &to, terms)?;
    Ok(value_of(alloc, terms, id)? == Some(1))
}

/// A value at the head of a text, and the rest: `number`, `pointer`, `poison` or `poison_pointer`, then
/// its block and its number or offset.
fn returned_in(text: &str) -> Option<(Returned, &str)> {
    let (kind, text) = text.split_once(" ")?;
    let (block, text) = text.split_once(" ")?;
    let (number, rest) = text.split_once(" ")?;
    let returned = Returned(
        kind.starts_with("poison"),
        kind.ends_with("pointer"),
        block.parse::<u64>().ok()?,
        number.parse::<u64>().ok()?,
    );
    Some((returned, rest))
}

/// An end that returns this, and leaves the block empty.
fn returns(value: Returned) -> End {
    End {
        value,
        size: 0,
        first: b'p',
        second: b'p',
    }
}

/// What the source returns, what the target returns, and whether the first covers the second. Of a
/// number and of poison the block does not count.
const RETURNED_PAIRS: &str = "\
pointer 1 8 pointer 1 8 yes
pointer 1 8 pointer 1 9 no
pointer 1 8 pointer 0 8 no
pointer 1 8 poison_pointer 1 8 no
poison 0 0 pointer 1 8 yes
pointer 1 8 number 1 8 no
number 0 5 number 7 5 yes
pointer 8 0 pointer 70000 3 yes
pointer 7 0 pointer 8 3 no
pointer 8 8 pointer 1 8 no
pointer 1 8 pointer 8 8 no";

/// The bytes of a block by their letters: `p` poison, `1` and `2` these numbers, `h` and `i` with the
/// upper four bits of 0 and of 16 and the others poison, `j` as `h` and with bits of its number where
/// it is poison, which have no meaning, `a` part 3 of the pointer to byte 4 of the given block and `b` its part 2, `c` and `d` part 3 of pointers to bytes 4
/// and 0 of an alloca's block, `e` part 3 of one to byte 4 of another alloca's block.
fn lettered(letter: u8) -> Place {
    match letter {
        b'1' => Place(false, 0, 1, 0, 0, 0),
        b'2' => Place(false, 0, 2, 0, 0, 0),
        b'h' => Place(false, 15, 0, 0, 0, 0),
        b'i' => Place(false, 15, 16, 0, 0, 0),
        b'j' => Place(false, 15, 7, 0, 0, 0),
        b'a' => Place(true, 0, 0, 1, 4, 3),
        b'b' => Place(true, 0, 0, 1, 4, 2),
        b'c' => Place(true, 0, 0, 8, 4, 3),
        b'd' => Place(true, 0, 0, 8, 0, 3),
        b'e' => Place(true, 0, 0, 9, 4, 3),
        _ => Place(false, 255, 0, 0, 0, 0),
    }
}

/// An end that returns 5 and leaves a block of a size and two bytes, at the head of a text, and the
/// rest.
fn left_in(text: &str) -> Option<(End, &str)> {
    let (size, text) = text.split_once(" ")?;
    let (bytes, rest) = text.split_once(" ")?;
    let [first, second] = bytes.as_bytes() else {
        return None;
    };
    let end = End {
        value: Returned(false, false, 0, 5),
        size: size.parse::<u64>().ok()?,
        first: *first,
        second: *second,
    };
    Some((end, rest))
}

/// The size and the two bytes of the block that the source leaves, those of the one that the target
/// leaves, and whether the first covers the second. A byte past the size does not count.
const LEFT_PAIRS: &str = "\
2 12 2 12 yes
2 12 2 11 no
1 12 1 11 yes
1 12 2 12 no
2 p2 2 12 yes
2 12 2 p2 no
1 a2 1 a1 yes
1 a2 1 b2 no
1 a2 1 c2 no
1 d2 1 e2 yes
1 a2 1 12 no
1 a2 1 p2 no
1 h2 1 12 yes
1 i2 1 12 no
1 12 1 h2 no
1 h2 1 p2 no
1 p2 1 h2 yes
1 h2 1 j2 yes
1 j2 1 h2 yes
1 h2 1 a2 no
1 p2 1 a2 yes";

/// The row of ends that return these values.
fn returns_in(row: &str) -> Option<Ends> {
    let (source, rest) = returned_in(row)?;
    let (target, want) = returned_in(rest)?;
    Some(Ends {
        source: returns(source),
        target: returns(target),
        is_covered: want == "yes",
    })
}

/// The row of ends that leave these blocks.
fn leaves_in(row: &str) -> Option<Ends> {
    let (source, rest) = left_in(row)?;
    let (target, want) = left_in(rest)?;
    Some(Ends {
        source,
        target,
        is_covered: want == "yes",
    })
}

/// Fails where a row has no ends, or does not say whether the first covers the second.
fn is_right(alloc: Global, terms: &mut Terms, row: &str, ends: Option<Ends>) -> Result<(), Fail> {
    let ends = ends.ok_or("a row")?;
    let found = is_covered(alloc, terms, &ends.source, &ends.target)?;
    expect(found == ends.is_covered, row)
}

#[test]
fn returned_pointers(rt: HostRuntime) -> Result<(), Fail> {
    let mut terms = Terms::new(rt.alloc());
    for row in RETURNED_PAIRS.lines() {
        is_right(rt.alloc(), &mut terms, row, returns_in(row))?;
    }
    Ok(())
}

#[test]
fn left_blocks(rt: HostRuntime) -> Result<(), Fail> {
    let mut terms = Terms::new(rt.alloc());
    for row in LEFT_PAIRS.lines() {
        is_right(rt.alloc(), &mut terms, row, leaves_in(row))?;
    }
    Ok(())
}

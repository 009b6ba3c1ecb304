//! Verdicts on pairs by both judges, with the least counterexample. The answers were worked out by
//! hand from the LLVM Language Reference.
//!
//! A row is a name; how many blocks are given, the rounds and the weight that may be spent, and the
//! verdict, with the arguments and the choices of its point; and a module of the source and the
//! target. `=== ` separates two rows.

ghost use Rattle.std.specs.Prelude.{◌≤◌};

use crate::both::{Both, both_verdicts};
use crate::pairs::pair_in;
use byte_block::{BlockName, Ptr, Value};
use ir_reader::read;
use points::{Bounds, Budget, Point};
use std::alloc::Global;
use std::test::Fail;
use support::NoMemory;
use verdicts::{Cause, Verdict};

const ROWS: &str = "\
a sum with itself is a shift
0 15 100000: correct
define i8 @s(i8 %x) {
  %r = add i8 %x, %x
  ret i8 %r
}
define i8 @t(i8 %x) {
  %r = shl i8 %x, 1
  ret i8 %r
}
=== a flag that the source lacks
0 15 100000: incorrect 127
define i8 @s(i8 %x) {
  %r = add i8 %x, 1
  ret i8 %r
}
define i8 @t(i8 %x) {
  %r = add nsw i8 %x, 1
  ret i8 %r
}
=== a flag may be dropped
0 15 100000: correct
define i8 @s(i8 %x) {
  %r = add nsw i8 %x, 1
  ret i8 %r
}
define i8 @t(i8 %x) {
  %r = add i8 %x, 1
  ret i8 %r
}
=== a choice minus itself is zero
0 15 100000: correct
define i8 @s() {
  %a = freeze i8 poison
  %b = sub i8 %a, %a
  ret i8 %b
}
define i8 @t() {
  ret i8 0
}
=== a quotient of equals is one where it is defined
0 15 100000: correct
define i8 @s(i8 %x) {
  %r = udiv i8 %x, %x
  ret i8 %r
}
define i8 @t(i8 %x) {
  ret i8 1
}
=== a quotient of zeros is undefined
0 15 100000: incorrect 0
define i8 @s(i8 %x) {
  ret i8 1
}
define i8 @t(i8 %x) {
  %r = udiv i8 %x, %x
  ret i8 %r
}
=== a conjunction is a select
0 15 100000: correct
define i1 @s(i1 %a, i1 %b) {
  %r = and i1 %a, %b
  ret i1 %r
}
define i1 @t(i1 %a, i1 %b) {
  %r = select i1 %a, i1 %b, i1 false
  ret i1 %r
}
=== a select hides the poison of the other arm
0 15 100000: incorrect 0 poison
define i1 @s(i1 %a, i1 %b) {
  %r = select i1 %a, i1 %b, i1 false
  ret i1 %r
}
define i1 @t(i1 %a, i1 %b) {
  %r = and i1 %a, %b
  ret i1 %r
}
=== a division by -1 is a negation
0 15 100000: correct
define i8 @s(i8 %x) {
  %r = sdiv i8 %x, -1
  ret i8 %r
}
define i8 @t(i8 %x) {
  %r = sub i8 0, %x
  ret i8 %r
}
=== the least number has no quotient by -1
0 15 100000: incorrect 128
define i8 @s(i8 %x) {
  %r = sub i8 0, %x
  ret i8 %r
}
define i8 @t(i8 %x) {
  %r = sdiv i8 %x, -1
  ret i8 %r
}
=== no argument takes a tape: the choice is minus it
0 0 100000: correct
define i4 @s(i4 %x) {
  %a = freeze i4 poison
  %r = add i4 %x, %a
  ret i4 %r
}
define i4 @t(i4 %x) {
  ret i4 0
}
=== twelve arguments take a tape each where the choice has a factor
0 12 100000: correct
define i4 @s(i4 %x) {
  %a = freeze i4 poison
  %b = mul i4 %a, 3
  %r = add i4 %x, %b
  ret i4 %r
}
define i4 @t(i4 %x) {
  ret i4 0
}
=== one round too few
0 11 100000: unknown rounds
define i4 @s(i4 %x) {
  %a = freeze i4 poison
  %b = mul i4 %a, 3
  %r = add i4 %x, %b
  ret i4 %r
}
define i4 @t(i4 %x) {
  ret i4 0
}
=== with given blocks too, and the weight at its limit
2 15 10: correct
define i4 @s(i4 %x) {
  %a = freeze i4 poison
  %r = add i4 %x, %a
  ret i4 %r
}
define i4 @t(i4 %x) {
  ret i4 0
}
=== a weight above its limit
2 15 9: unknown weight
define i4 @s(i4 %x) {
  %a = freeze i4 poison
  %r = add i4 %x, %a
  ret i4 %r
}
define i4 @t(i4 %x) {
  ret i4 0
}
=== a choice that the source lacks
2 15 10: incorrect 0 choices 1
define i4 @s(i4 %x) {
  ret i4 0
}
define i4 @t(i4 %x) {
  %a = freeze i4 poison
  %r = add i4 %x, %a
  ret i4 %r
}
=== undef is any number
2 1 3: correct
define i4 @s(i4 %x) {
  ret i4 undef
}
define i4 @t(i4 %x) {
  ret i4 3
}
=== undef where the source has one number
2 1 3: incorrect 0 choices 0
define i4 @s(i4 %x) {
  ret i4 3
}
define i4 @t(i4 %x) {
  ret i4 undef
}
=== a signed comparison reads the sign
2 1 3: correct
define i1 @s(i1 %x) {
  %c = icmp slt i1 %x, 0
  ret i1 %c
}
define i1 @t(i1 %x) {
  ret i1 %x
}
=== an unsigned one does not
2 1 3: incorrect 1
define i1 @s(i1 %x) {
  %c = icmp ult i1 %x, 0
  ret i1 %c
}
define i1 @t(i1 %x) {
  ret i1 %x
}
=== a noundef return of poison is undefined
2 1 2: incorrect 0
define i4 @s(i4 %x) {
  ret i4 poison
}
define noundef i4 @t(i4 %x) {
  ret i4 poison
}
=== noundef may be dropped of a return
2 1 2: correct
define noundef i4 @s(i4 %x) {
  ret i4 poison
}
define i4 @t(i4 %x) {
  ret i4 poison
}
=== a noundef argument of poison is undefined
2 1 2: incorrect poison
define i4 @s(i4 %x) {
  ret i4 %x
}
define i4 @t(i4 noundef %x) {
  ret i4 %x
}
=== noundef may be dropped of an argument
2 1 2: correct
define i4 @s(i4 noundef %x) {
  ret i4 %x
}
define i4 @t(i4 %x) {
  ret i4 %x
}
=== a product costs its width squared
2 1 34: correct
define i4 @s(i4 %x) {
  %r = mul i4 %x, %x
  ret i4 %r
}
define i4 @t(i4 %x) {
  %r = mul i4 %x, %x
  ret i4 %r
}
=== a bit less is too light a limit
2 1 33: unknown weight
define i4 @s(i4 %x) {
  %r = mul i4 %x, %x
  ret i4 %r
}
define i4 @t(i4 %x) {
  %r = mul i4 %x, %x
  ret i4 %r
}
";

/// Pairs over memory. Counting goes through the offsets of a pointer argument from null on, so the only
/// pair with one differs at null.
const MEMORY: &str = "\
what was stored is loaded
0 15 100000: correct
define i8 @s(i8 %x) {
  %a = alloca i8
  store i8 %x, ptr %a
  %v = load i8, ptr %a
  ret i8 %v
}
define i8 @t(i8 %x) {
  ret i8 %x
}
=== the least significant byte comes first
0 15 100000: correct
define i8 @s() {
  %a = alloca i16
  store i16 258, ptr %a
  %v = load i8, ptr %a
  ret i8 %v
}
define i8 @t() {
  ret i8 2
}
=== a byte that was not stored is poison
0 15 100000: incorrect
define i8 @s() {
  ret i8 7
}
define i8 @t() {
  %a = alloca i16
  store i8 7, ptr %a
  %p = getelementptr i8, ptr %a, i64 1
  %v = load i8, ptr %p
  ret i8 %v
}
=== an access past the end is undefined in the source
0 15 100000: correct
define i8 @s() {
  %a = alloca i8
  %p = getelementptr i8, ptr %a, i64 1
  store i8 1, ptr %p
  ret i8 0
}
define i8 @t() {
  ret i8 1
}
=== an access past the end is undefined in the target
0 15 100000: incorrect
define i8 @s() {
  ret i8 0
}
define i8 @t() {
  %a = alloca i8
  %p = getelementptr i8, ptr %a, i64 1
  store i8 1, ptr %p
  ret i8 0
}
=== a pointer that was stored is loaded whole
0 15 100000: correct
define i8 @s(i8 %x) {
  %a = alloca ptr
  %b = alloca i8
  store ptr %b, ptr %a
  %p = load ptr, ptr %a
  store i8 %x, ptr %p
  %v = load i8, ptr %b
  ret i8 %v
}
define i8 @t(i8 %x) {
  ret i8 %x
}
=== local blocks are alike once they are freed
0 15 100000: correct
define ptr @s() {
  %a = alloca i8
  ret ptr %a
}
define ptr @t() {
  %a = alloca i16
  ret ptr %a
}
=== null breaks nonnull
2 15 100000: incorrect null+0
define ptr @s(ptr %p) {
  ret ptr %p
}
define ptr @t(ptr nonnull %p) {
  ret ptr %p
}
=== a frozen pointer has an offset too
2 15 100000: incorrect choices 0 1
define ptr @s() {
  ret ptr null
}
define ptr @t() {
  %q = freeze ptr poison
  ret ptr %q
}
";

#[derive(Clone, Copy, Drop)]
struct Row<'a> {
    blocks: u64,
    rounds: u64,
    weight: u64,
    wanted: &'a str,
    pair: &'a str,
}

fn row_in(text: &str) -> Option<Row<'_>> {
    let (_, text) = text.split_once("\n")?;
    let (blocks, text) = text.split_once(" ")?;
    let (rounds, text) = text.split_once(" ")?;
    let (weight, text) = text.split_once(": ")?;
    let (wanted, pair) = text.split_once("\n")?;
    Some(Row {
        blocks: blocks.parse::<u64>().ok()?,
        rounds: rounds.parse::<u64>().ok()?,
        weight: weight.parse::<u64>().ok()?,
        wanted,
        pair,
    })
}

fn push_value(text: &mut String, alloc: Global, value: Value) -> Result<(), NoMemory> {
    let shown = match value {
        Value::Num(number) => format!(in alloc; " {number}")?,
        Value::Poison => String::from_str(alloc, " poison")?,
        Value::Ptr(
            Ptr {
                block: BlockName::Null,
                offset,
            },
        ) => format!(in alloc; " null+{offset}")?,
        Value::Ptr(Ptr { offset, .. }) => format!(in alloc; " another block+{offset}")?,
    };
    text.push_str(shown.as_str())?;
    Ok(())
}

fn push_choices(text: &mut String, alloc: Global, tape: &[u64]) -> Result<(), NoMemory> {
    for choice in tape {
        let shown = format!(in alloc; " {choice}")?;
        text.push_str(shown.as_str())?;
    }
    Ok(())
}

fn push_point(text: &mut String, alloc: Global, point: &Point) -> Result<(), NoMemory> {
    text.push_str("incorrect")?;
    for value in point.input.args.as_slice() {
        push_value(text, alloc, *value)?;
    }
    if !point.tape.is_empty() {
        text.push_str(" choices")?;
    }
    push_choices(text, alloc, point.tape.as_slice())
}

/// A verdict as the rows write it.
fn shown(alloc: Global, verdict: &Verdict) -> Result<String, NoMemory> {
    let mut text = String::new(alloc);
    match verdict {
        Verdict::Correct => text.push_str("correct")?,
        Verdict::Incorrect(point) => push_point(&mut text, alloc, point)?,
        Verdict::Unknown(Cause::Rounds) => text.push_str("unknown rounds")?,
        Verdict::Unknown(Cause::Weight) => text.push_str("unknown weight")?,
        Verdict::Unknown(Cause::Conflicts) => text.push_str("unknown conflicts")?,
    }
    Ok(text)
}

/// Fails where a judge gives another verdict, or the judge by questions no certificate of a verdict,
/// or one of none.
fn is_given(alloc: Global, both: &Both, wanted: &str) -> Result<(), Fail> {
    let asked = shown(alloc, &both.asked.verdict)?;
    let counted = shown(alloc, &both.counted)?;
    let is_certified = both.asked.cert.is_some() != matches!(&both.counted, Verdict::Unknown(_));
    if asked.as_str() == wanted && counted.as_str() == wanted && is_certified {
        Ok(())
    } else {
        Err(Fail::new(format_args!("{asked} and {counted} in place of {wanted}")))
    }
}

/// Fails where a row's pair isn't read, or has another verdict by one of the judges.
fn is_right(alloc: Global, text: &str) -> Result<(), Fail> {
    let row = row_in(text).ok_or("a row")?;
    if row.blocks > 4 || row.rounds > 4096 || row.weight == 0 || row.weight > 10_000_000 {
        return Err(Fail::new("a bound or a budget out of its range"));
    }
    let bounds = Bounds {
        turns: 0,
        blocks: row.blocks,
        bytes: 8,
    };
    let budget = Budget {
        rounds: row.rounds,
        conflicts: 0,
        weight: row.weight,
    };
    let module = read(alloc, row.pair.as_bytes()).ok().ok_or("a module")?;
    let pair = pair_in(&module).ok_or("a pair")?;
    let both = both_verdicts(alloc, &pair, &bounds, &budget)?;
    is_given(alloc, &both, row.wanted)
}

fn are_right(alloc: Global, rows: &str) -> Result<(), Fail> {
    for row in rows.split("=== ") {
        is_right(alloc, row)?;
    }
    Ok(())
}

#[test]
fn both_judges_give_the_wanted_verdict_over_memory(rt: HostRuntime) -> Result<(), Fail> {
    are_right(rt.alloc(), MEMORY)
}

#[test]
fn both_judges_give_the_wanted_verdict(rt: HostRuntime) -> Result<(), Fail> {
    are_right(rt.alloc(), ROWS)
}

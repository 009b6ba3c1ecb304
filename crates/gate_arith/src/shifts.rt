//! Barrel shifters, with a stage for each bit of the amount.

ghost use Rattle.std.specs.Prelude.{◌≡◌, ◌<◌, ◌≤◌, ◌*◌, ◌%◌, ◌^◌, IfOk, length};
ghost use Rattle.gates.specs.Values.{Keeps};
ghost use Rattle.bv_terms.specs.Tree.{shifted_left, shifted_right, shifted_signed};
ghost use Rattle.gate_arith.specs.Moves.{moved_by, shifted_by};
ghost use Rattle.gate_arith.specs.declared.shifts.Direction.TheVariants as way;
ghost use Rattle.gate_arith.specs.Numbers.{AreGates, Writes, number_at};

use crate::bitwise::{choose, inverse};
use crate::comparisons::any;
use crate::parts::joined;
use crate::places::copies;
use gates::{Circuit, GateId};
use std::alloc::Global;
use support::NoMemory;

/// Which way a number is shifted: up is to the left, to the more significant bits.
#[derive(Clone, Copy)]
enum Direction {
    Up,
    Down,
}

/// The number shifted left, where zeros come in at the least significant bits.
fn moved_up(
    alloc: Global,
    circuit: &mut Circuit,
    a: &[GateId],
    count: usize,
) -> Result<Vec<GateId>, NoMemory>
    requires { AreGates circuit.old a.now }
    ensures made { IfOk result (λ r. Writes circuit.new r.items (length a.now) (λ v. moved_by way.Up (length a.now) (number_at v circuit.old a.now) count)) }
    ensures kept { Keeps circuit.old circuit.new }
{
    let zero = circuit.constant(false)?;
    let left = a.len().saturating_sub(count);
    let zeros = copies(alloc, zero, a.len() - left)?;
    let digits = joined(alloc, &a[a.len() - left..], &zeros)?;
    Ok(digits)
}

/// The number shifted right, where zeros come in at the most significant bits.
fn moved_down(
    alloc: Global,
    circuit: &mut Circuit,
    a: &[GateId],
    count: usize,
) -> Result<Vec<GateId>, NoMemory>
    requires { AreGates circuit.old a.now }
    ensures made { IfOk result (λ r. Writes circuit.new r.items (length a.now) (λ v. moved_by way.Down (length a.now) (number_at v circuit.old a.now) count)) }
    ensures kept { Keeps circuit.old circuit.new }
{
    let zero = circuit.constant(false)?;
    let left = a.len().saturating_sub(count);
    let zeros = copies(alloc, zero, a.len() - left)?;
    let digits = joined(alloc, &zeros, &a[..left])?;
    Ok(digits)
}

/// The number shifted by `count` bits.
fn moved(
    alloc: Global,
    circuit: &mut Circuit,
    direction: Direction,
    a: &[GateId],
    count: usize,
) -> Result<Vec<GateId>, NoMemory>
    requires { AreGates circuit.old a.now }
    ensures made { IfOk result (λ r. Writes circuit.new r.items (length a.now) (λ v. moved_by direction (length a.now) (number_at v circuit.old a.now) count)) }
    ensures kept { Keeps circuit.old circuit.new }
{
    match direction {
        Direction::Up => moved_up(alloc, circuit, a, count),
        Direction::Down => moved_down(alloc, circuit, a, count),
    }
}

/// Twice the number, cut to the width.
pub fn doubled(alloc: Global, circuit: &mut Circuit, a: &[GateId]) -> Result<Vec<GateId>, NoMemory>
    requires { AreGates circuit.old a.now }
    ensures made { IfOk result (λ r. Writes circuit.new r.items (length a.now) (λ v. number_at v circuit.old a.now * 2 % 2 ^ length a.now)) }
    ensures kept { Keeps circuit.old circuit.new }
{
    let digits = moved_up(alloc, circuit, a, 1)?;
    Ok(digits)
}

/// The number shifted by the amount that the bits write, stage by stage from the least significant.
fn staged(
    alloc: Global,
    circuit: &mut Circuit,
    direction: Direction,
    a: &[GateId],
    amount: &[GateId],
) -> Result<Vec<GateId>, NoMemory>
    requires few { length amount.now ≤ 7 }
    requires a { AreGates circuit.old a.now }
    requires amount { AreGates circuit.old amount.now }
    ensures made { IfOk result (λ r. Writes circuit.new r.items (length a.now) (λ v. moved_by direction (length a.now) (number_at v circuit.old a.now) (number_at v circuit.old amount.now))) }
    ensures kept { Keeps circuit.old circuit.new }
{
    let mut value = Vec::from_slice(alloc, a)?;
    let mut count = 1;
    for place in (0..amount.len()).rev() {
        let further = moved(alloc, circuit, direction, &value, count)?;
        let chosen = choose(alloc, circuit, amount[place], &further, &value)?;
        value = chosen;
        count *= 2;
    }
    Ok(value)
}

/// How many bits write the amounts below a width of at most 128.
fn stages(width: usize) -> usize
    requires least { 1 ≤ width }
    requires most { width ≤ 128 }
    ensures few { result ≤ 7 }
    ensures within { result ≤ width }
    ensures enough { width ≤ 2 ^ result }
{
    match width {
        0..=1 => 0,
        2 => 1,
        3..=4 => 2,
        5..=8 => 3,
        9..=16 => 4,
        17..=32 => 5,
        33..=64 => 6,
        _ => 7,
    }
}

/// The number shifted by an amount of the same width.
fn shifted(
    alloc: Global,
    circuit: &mut Circuit,
    direction: Direction,
    a: &[GateId],
    amount: &[GateId],
) -> Result<Vec<GateId>, NoMemory>
    requires least { 1 ≤ length a.now }
    requires most { length a.now ≤ 128 }
    requires alike { length a.now ≡ length amount.now }
    requires a { AreGates circuit.old a.now }
    requires amount { AreGates circuit.old amount.now }
    ensures made { IfOk result (λ r. Writes circuit.new r.items (length a.now) (λ v. shifted_by direction (length a.now) (number_at v circuit.old a.now) (number_at v circuit.old amount.now))) }
    ensures kept { Keeps circuit.old circuit.new }
{
    let count = stages(a.len());
    let (high, low) = amount.split_at(amount.len() - count);
    let value = staged(alloc, circuit, direction, a, low)?;
    let past = any(circuit, high)?;
    let zero = circuit.constant(false)?;
    let zeros = copies(alloc, zero, a.len())?;
    let digits = choose(alloc, circuit, past, &zeros, &value)?;
    Ok(digits)
}

/// The first shifted left by the second; 0 where that is the width or more.
pub fn shift_left(
    alloc: Global,
    circuit: &mut Circuit,
    a: &[GateId],
    b: &[GateId],
) -> Result<Vec<GateId>, NoMemory>
    requires least { 1 ≤ length a.now }
    requires most { length a.now ≤ 128 }
    requires alike { length a.now ≡ length b.now }
    requires a { AreGates circuit.old a.now }
    requires b { AreGates circuit.old b.now }
    ensures made { IfOk result (λ r. Writes circuit.new r.items (length a.now) (λ v. shifted_left (length a.now) (number_at v circuit.old a.now) (number_at v circuit.old b.now))) }
    ensures kept { Keeps circuit.old circuit.new }
{
    let digits = shifted(alloc, circuit, Direction::Up, a, b)?;
    Ok(digits)
}

/// The first shifted right by the second; 0 where that is the width or more.
pub fn shift_right(
    alloc: Global,
    circuit: &mut Circuit,
    a: &[GateId],
    b: &[GateId],
) -> Result<Vec<GateId>, NoMemory>
    requires least { 1 ≤ length a.now }
    requires most { length a.now ≤ 128 }
    requires alike { length a.now ≡ length b.now }
    requires a { AreGates circuit.old a.now }
    requires b { AreGates circuit.old b.now }
    ensures made { IfOk result (λ r. Writes circuit.new r.items (length a.now) (λ v. shifted_right (length a.now) (number_at v circuit.old a.now) (number_at v circuit.old b.now))) }
    ensures kept { Keeps circuit.old circuit.new }
{
    let digits = shifted(alloc, circuit, Direction::Down, a, b)?;
    Ok(digits)
}

/// The first shifted right by the second, with copies of its sign; nothing but these where that is
/// the width or more. The number is shifted as it is and with each bit inverted before and after,
/// and the sign chooses; so a known amount leaves its bits as they are, but for the copies.
pub fn shift_right_signed(
    alloc: Global,
    circuit: &mut Circuit,
    a: &[GateId],
    b: &[GateId],
) -> Result<Vec<GateId>, NoMemory>
    requires least { 1 ≤ length a.now }
    requires most { length a.now ≤ 128 }
    requires alike { length a.now ≡ length b.now }
    requires a { AreGates circuit.old a.now }
    requires b { AreGates circuit.old b.now }
    ensures made { IfOk result (λ r. Writes circuit.new r.items (length a.now) (λ v. shifted_signed (length a.now) (number_at v circuit.old a.now) (number_at v circuit.old b.now))) }
    ensures kept { Keeps circuit.old circuit.new }
{
    let turned = inverse(alloc, circuit, a)?;
    let turned_down = shift_right(alloc, circuit, &turned, b)?;
    let negative = inverse(alloc, circuit, &turned_down)?;
    let positive = shift_right(alloc, circuit, a, b)?;
    let digits = choose(alloc, circuit, a[0], &negative, &positive)?;
    Ok(digits)
}

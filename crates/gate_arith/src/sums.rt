//! Ripple-carry sums, and what follows from them.

ghost use Rattle.std.specs.Prelude.{◌≡◌, ◌<◌, ◌+◌, ◌-◌, ◌*◌, ◌%◌, ◌^◌, IfOk, length, nat_lt};
ghost use Rattle.gates.specs.Values.{Keeps, Makes, gate_at};
ghost use Rattle.gate_arith.specs.Numbers.{AreGates, IsSum, Writes, number_at};
ghost use Rattle.gate_arith.specs.Adder.{IsDifference, IsFullSum};

use crate::bitwise::inverse;
use gates::{Circuit, GateId};
use std::alloc::Global;
use support::NoMemory;

/// The bits of a sum, and the carry out of the most significant bit.
#[derive(Drop)]
pub struct Carried {
    pub digits: Vec<GateId>,
    pub carry: GateId,
}

/// The sum of three bits and its carry: where the first two differ the carry is the third, and else
/// either of the two.
fn full_adder(
    circuit: &mut Circuit,
    a: GateId,
    b: GateId,
    c: GateId,
) -> Result<(GateId, GateId), NoMemory>
    requires a { a.index < length circuit.old }
    requires b { b.index < length circuit.old }
    requires c { c.index < length circuit.old }
    ensures sum { IfOk result (λ r. IsFullSum circuit.old circuit.new a b c r.0 r.1) }
    ensures kept { Keeps circuit.old circuit.new }
{
    let half = circuit.xor(a, b)?;
    let digit = circuit.xor(half, c)?;
    let carry = circuit.choose(half, c, a)?;
    Ok((digit, carry))
}

/// The sum of two numbers and a carry.
pub fn sum_with_carry(
    alloc: Global,
    circuit: &mut Circuit,
    a: &[GateId],
    b: &[GateId],
    carry: GateId,
) -> Result<Carried, NoMemory>
    requires alike { length a.now ≡ length b.now }
    requires a { AreGates circuit.old a.now }
    requires b { AreGates circuit.old b.now }
    requires carry { carry.index < length circuit.old }
    ensures sum { IfOk result (λ r. IsSum circuit.old circuit.new a.now b.now carry r.digits.items r.carry) }
    ensures kept { Keeps circuit.old circuit.new }
{
    let mut digits = Vec::new(alloc);
    let mut passed = carry;
    for place in (0..a.len()).rev() {
        let (digit, next) = full_adder(circuit, a[place], b[place], passed)?;
        digits.push(digit)?;
        passed = next;
    }
    digits.reverse();
    Ok(Carried {
        digits,
        carry: passed,
    })
}

/// The sum, cut to the width.
pub fn sum(
    alloc: Global,
    circuit: &mut Circuit,
    a: &[GateId],
    b: &[GateId],
) -> Result<Vec<GateId>, NoMemory>
    requires alike { length a.now ≡ length b.now }
    requires a { AreGates circuit.old a.now }
    requires b { AreGates circuit.old b.now }
    ensures made { IfOk result (λ r. Writes circuit.new r.items (length a.now) (λ v. (number_at v circuit.old a.now + number_at v circuit.old b.now) % 2 ^ length a.now)) }
    ensures kept { Keeps circuit.old circuit.new }
{
    let zero = circuit.constant(false)?;
    let whole = sum_with_carry(alloc, circuit, a, b, zero)?;
    Ok(whole.digits)
}

/// The sum of the first and the negation of the second. It carries where the first isn't less.
pub fn minus(
    alloc: Global,
    circuit: &mut Circuit,
    a: &[GateId],
    b: &[GateId],
) -> Result<Carried, NoMemory>
    requires alike { length a.now ≡ length b.now }
    requires a { AreGates circuit.old a.now }
    requires b { AreGates circuit.old b.now }
    ensures made { IfOk result (λ r. IsDifference circuit.old circuit.new a.now b.now r.digits.items r.carry) }
    ensures kept { Keeps circuit.old circuit.new }
{
    let turned = inverse(alloc, circuit, b)?;
    let one = circuit.constant(true)?;
    sum_with_carry(alloc, circuit, a, &turned, one)
}

/// The difference, cut to the width.
pub fn difference(
    alloc: Global,
    circuit: &mut Circuit,
    a: &[GateId],
    b: &[GateId],
) -> Result<Vec<GateId>, NoMemory>
    requires alike { length a.now ≡ length b.now }
    requires a { AreGates circuit.old a.now }
    requires b { AreGates circuit.old b.now }
    ensures made { IfOk result (λ r. Writes circuit.new r.items (length a.now) (λ v. (number_at v circuit.old a.now + (2 ^ length a.now - number_at v circuit.old b.now)) % 2 ^ length a.now)) }
    ensures kept { Keeps circuit.old circuit.new }
{
    let whole = minus(alloc, circuit, a, b)?;
    Ok(whole.digits)
}

/// Whether the first is less, as unsigned numbers.
pub fn less(
    alloc: Global,
    circuit: &mut Circuit,
    a: &[GateId],
    b: &[GateId],
) -> Result<GateId, NoMemory>
    requires alike { length a.now ≡ length b.now }
    requires a { AreGates circuit.old a.now }
    requires b { AreGates circuit.old b.now }
    ensures made { IfOk result (λ id. Makes circuit.new id (λ v. nat_lt (number_at v circuit.old a.now) (number_at v circuit.old b.now))) }
    ensures kept { Keeps circuit.old circuit.new }
{
    let whole = minus(alloc, circuit, a, b)?;
    circuit.not(whole.carry)
}

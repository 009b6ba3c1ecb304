//! Bitwise operations.

ghost use Rattle.std.specs.Prelude.{◌≡◌, ◌<◌, ◌-◌, ◌^◌, IfOk, length, cond, bit_and, bit_or, bit_xor};
ghost use Rattle.gates.specs.Values.{Keeps, Makes, gate_at};
ghost use Rattle.gate_arith.specs.Bitwise.{IsOp, IsZip, bit_by};
ghost use Rattle.gate_arith.specs.Numbers.{AreGates, Writes, number_at};

use gates::{Circuit, GateId};
use std::alloc::Global;
use support::NoMemory;

/// A bitwise operation.
#[derive(Clone, Copy)]
enum BitOp {
    And,
    Or,
    Xor,
    Choose(GateId),
}

/// The gate of one bit.
fn bit(circuit: &mut Circuit, op: BitOp, a: GateId, b: GateId) -> Result<GateId, NoMemory>
    requires op { IsOp circuit.old op }
    requires a { a.index < length circuit.old }
    requires b { b.index < length circuit.old }
    ensures made { IfOk result (λ id. Makes circuit.new id (λ v. bit_by v circuit.old op (gate_at v circuit.old a) (gate_at v circuit.old b))) }
    ensures kept { Keeps circuit.old circuit.new }
{
    match op {
        BitOp::And => circuit.and(a, b),
        BitOp::Or => circuit.or(a, b),
        BitOp::Xor => circuit.xor(a, b),
        BitOp::Choose(c) => circuit.choose(c, a, b),
    }
}

/// The gates of all bits.
fn zipped(
    alloc: Global,
    circuit: &mut Circuit,
    op: BitOp,
    a: &[GateId],
    b: &[GateId],
) -> Result<Vec<GateId>, NoMemory>
    requires op { IsOp circuit.old op }
    requires alike { length a.now ≡ length b.now }
    requires a { AreGates circuit.old a.now }
    requires b { AreGates circuit.old b.now }
    ensures zip { IfOk result (λ r. IsZip circuit.old circuit.new op a.now b.now r.items) }
    ensures kept { Keeps circuit.old circuit.new }
{
    let mut digits = Vec::new(alloc);
    for i in 0..a.len() {
        let digit = bit(circuit, op, a[i], b[i])?;
        digits.push(digit)?;
    }
    Ok(digits)
}

/// Each bit inverted. No gate is added.
pub fn inverse(alloc: Global, circuit: &mut Circuit, a: &[GateId]) -> Result<Vec<GateId>, NoMemory>
    requires a { AreGates circuit.old a.now }
    ensures made { IfOk result (λ r. Writes circuit.new r.items (length a.now) (λ v. 2 ^ length a.now - 1 - number_at v circuit.old a.now)) }
    ensures same { circuit.new ≡ circuit.old }
    ensures kept { Keeps circuit.old circuit.new }
{
    let mut digits = Vec::new(alloc);
    for i in 0..a.len() {
        let digit = circuit.not(a[i])?;
        digits.push(digit)?;
    }
    Ok(digits)
}

/// The bits that are 1 in both.
pub fn and(
    alloc: Global,
    circuit: &mut Circuit,
    a: &[GateId],
    b: &[GateId],
) -> Result<Vec<GateId>, NoMemory>
    requires alike { length a.now ≡ length b.now }
    requires a { AreGates circuit.old a.now }
    requires b { AreGates circuit.old b.now }
    ensures made { IfOk result (λ r. Writes circuit.new r.items (length a.now) (λ v. bit_and (number_at v circuit.old a.now) (number_at v circuit.old b.now))) }
    ensures kept { Keeps circuit.old circuit.new }
{
    let digits = zipped(alloc, circuit, BitOp::And, a, b)?;
    Ok(digits)
}

/// The bits that are 1 in either.
pub fn or(
    alloc: Global,
    circuit: &mut Circuit,
    a: &[GateId],
    b: &[GateId],
) -> Result<Vec<GateId>, NoMemory>
    requires alike { length a.now ≡ length b.now }
    requires a { AreGates circuit.old a.now }
    requires b { AreGates circuit.old b.now }
    ensures made { IfOk result (λ r. Writes circuit.new r.items (length a.now) (λ v. bit_or (number_at v circuit.old a.now) (number_at v circuit.old b.now))) }
    ensures kept { Keeps circuit.old circuit.new }
{
    let digits = zipped(alloc, circuit, BitOp::Or, a, b)?;
    Ok(digits)
}

/// The bits that are 1 in exactly one.
pub fn xor(
    alloc: Global,
    circuit: &mut Circuit,
    a: &[GateId],
    b: &[GateId],
) -> Result<Vec<GateId>, NoMemory>
    requires alike { length a.now ≡ length b.now }
    requires a { AreGates circuit.old a.now }
    requires b { AreGates circuit.old b.now }
    ensures made { IfOk result (λ r. Writes circuit.new r.items (length a.now) (λ v. bit_xor (number_at v circuit.old a.now) (number_at v circuit.old b.now))) }
    ensures kept { Keeps circuit.old circuit.new }
{
    let digits = zipped(alloc, circuit, BitOp::Xor, a, b)?;
    Ok(digits)
}

/// The first number where the condition is 1, and else the second.
pub fn choose(
    alloc: Global,
    circuit: &mut Circuit,
    c: GateId,
    a: &[GateId],
    b: &[GateId],
) -> Result<Vec<GateId>, NoMemory>
    requires c { c.index < length circuit.old }
    requires alike { length a.now ≡ length b.now }
    requires a { AreGates circuit.old a.now }
    requires b { AreGates circuit.old b.now }
    ensures made { IfOk result (λ r. Writes circuit.new r.items (length a.now) (λ v. cond (gate_at v circuit.old c) (number_at v circuit.old a.now) (number_at v circuit.old b.now))) }
    ensures kept { Keeps circuit.old circuit.new }
{
    let digits = zipped(alloc, circuit, BitOp::Choose(c), a, b)?;
    Ok(digits)
}

//! Whether numbers are 0, equal or less.

ghost use Rattle.std.specs.Prelude.{◌≡◌, ◌<◌, ◌≤◌, IfOk, length, nat_eq};
ghost use Rattle.gates.specs.Values.{Keeps, Makes};
ghost use Rattle.bv_terms.specs.Tree.{is_less_signed, truth};
ghost use Rattle.gate_arith.specs.Numbers.{AreGates, number_at};

use crate::bitwise::xor;
use crate::sums::less;
use gates::{Circuit, GateId};
use std::alloc::Global;
use support::NoMemory;

/// Whether any bit is 1.
pub fn any(circuit: &mut Circuit, a: &[GateId]) -> Result<GateId, NoMemory>
    requires { AreGates circuit.old a.now }
    ensures made { IfOk result (λ id. Makes circuit.new id (λ v. truth (number_at v circuit.old a.now))) }
    ensures kept { Keeps circuit.old circuit.new }
{
    let mut found = circuit.constant(false)?;
    for i in 0..a.len() {
        let either = circuit.or(found, a[i])?;
        found = either;
    }
    Ok(found)
}

/// Whether the two are equal.
pub fn equal(
    alloc: Global,
    circuit: &mut Circuit,
    a: &[GateId],
    b: &[GateId],
) -> Result<GateId, NoMemory>
    requires alike { length a.now ≡ length b.now }
    requires a { AreGates circuit.old a.now }
    requires b { AreGates circuit.old b.now }
    ensures made { IfOk result (λ id. Makes circuit.new id (λ v. nat_eq (number_at v circuit.old a.now) (number_at v circuit.old b.now))) }
    ensures kept { Keeps circuit.old circuit.new }
{
    let apart = xor(alloc, circuit, a, b)?;
    let found = any(circuit, &apart)?;
    circuit.not(found)
}

/// Whether the first is less, in two's complement.
pub fn less_signed(
    alloc: Global,
    circuit: &mut Circuit,
    a: &[GateId],
    b: &[GateId],
) -> Result<GateId, NoMemory>
    requires signed { 1 ≤ length a.now }
    requires alike { length a.now ≡ length b.now }
    requires a { AreGates circuit.old a.now }
    requires b { AreGates circuit.old b.now }
    ensures made { IfOk result (λ id. Makes circuit.new id (λ v. is_less_signed (length a.now) (number_at v circuit.old a.now) (number_at v circuit.old b.now))) }
    ensures kept { Keeps circuit.old circuit.new }
{
    let below = less(alloc, circuit, a, b)?;
    let one = circuit.constant(true)?;
    let zero = circuit.constant(false)?;
    let negative = circuit.choose(b[0], below, one)?;
    let positive = circuit.choose(b[0], zero, below)?;
    circuit.choose(a[0], negative, positive)
}

//! Bits that are known, repeated or free.

ghost use Rattle.std.specs.Prelude.{◌≡◌, ◌<◌, ◌≤◌, ◌^◌, ◌/◌, ◌%◌, IfOk, OnErr, length, replicate, take};
ghost use Rattle.bv_terms.specs.Tree.{digit};
ghost use Rattle.gates.specs.Values.{Grows, Keeps};
ghost use Rattle.gate_arith.specs.Numbers.{AreFresh, Writes};

use gates::{Circuit, GateId};
use std::alloc::Global;
use support::NoMemory;

/// The same gate, `count` times.
pub fn copies(alloc: Global, gate: GateId, count: usize) -> Result<Vec<GateId>, NoMemory>
    ensures { IfOk result (λ r. r.items ≡ replicate count gate) }
{
    let mut digits = Vec::new(alloc);
    digits.resize(count, gate)?;
    Ok(digits)
}

/// Whether a bit of a number is 1, counted from the least significant one.
fn has_bit(value: u128, place: u32) -> bool
    requires { place < 128 }
    ensures { digit result ≡ value / 2 ^ place % 2 }
{
    value >> place & 1 == 1
}

/// A number, in `width` bits.
pub fn constant(
    alloc: Global,
    circuit: &mut Circuit,
    value: u128,
    width: u32,
) -> Result<Vec<GateId>, NoMemory>
    requires wide { width ≤ 128 }
    requires fits { value < 2 ^ width }
    ensures made { IfOk result (λ r. Writes circuit.new r.items width (λ _. value)) }
    ensures kept { Keeps circuit.old circuit.new }
{
    let mut digits = Vec::new(alloc);
    for place in (0..width).rev() {
        let digit = circuit.constant(has_bit(value, place))?;
        digits.push(digit)?;
    }
    Ok(digits)
}

/// `width` new inputs, after the gates that were there. Out of memory, some of them are added.
fn some_inputs(alloc: Global, circuit: &mut Circuit, width: u32) -> Result<Vec<GateId>, NoMemory>
    ensures made { IfOk result (λ r. AreFresh circuit.old circuit.new width r.items) }
    ensures front { take (length circuit.old) circuit.new ≡ circuit.old }
    ensures kept { Grows circuit.old circuit.new }
{
    let mut digits = Vec::new(alloc);
    for i in 0..width {
        let digit = circuit.input()?;
        digits.push(digit)?;
    }
    Ok(digits)
}

/// `width` new inputs of the circuit, after the gates that were there. Out of memory, the circuit
/// is as before.
pub fn inputs(alloc: Global, circuit: &mut Circuit, width: u32) -> Result<Vec<GateId>, NoMemory>
    ensures made { IfOk result (λ r. AreFresh circuit.old circuit.new width r.items) }
    ensures front { take (length circuit.old) circuit.new ≡ circuit.old }
    ensures err { OnErr result (circuit.new ≡ circuit.old) }
    ensures kept { Grows circuit.old circuit.new }
{
    let before = circuit.len();
    match some_inputs(alloc, circuit, width) {
        Ok(digits) => Ok(digits),
        Err(NoMemory) => {
            circuit.truncate(before);
            Err(NoMemory)
        }
    }
}

//! Parts of numbers, and numbers put together.

ghost use Rattle.std.specs.Prelude.{◌≡◌, ◌<◌, ◌≤◌, ◌+◌, ◌*◌, ◌/◌, ◌%◌, ◌^◌, IfOk, List, length};
ghost use Rattle.gates.specs.declared.circuit.Gate.{Gate};
ghost use Rattle.gates.specs.Values.{Keeps};
ghost use Rattle.bv_terms.specs.Tree.{extended_signed};
ghost use Rattle.gate_arith.specs.Numbers.{AreGates, Writes, number_at};

use crate::places::copies;
use gates::{Circuit, GateId};
use std::alloc::Global;
use support::NoMemory;

/// `width` bits of a number from bit `from` on, counted from the least significant one.
pub fn part(alloc: Global, a: &[GateId], from: usize, width: usize) -> Result<Vec<GateId>, NoMemory>
    requires { from + width ≤ length a.now }
    ensures { IfOk result (λ r. (gates : List Gate) → AreGates gates a.now → Writes gates r.items width (λ v. number_at v gates a.now / 2 ^ from % 2 ^ width)) }
{
    let start = a.len() - from - width;
    let digits = Vec::from_slice(alloc, &a[start..start + width])?;
    Ok(digits)
}

/// The bits of the first number and then those of the second.
pub fn joined(alloc: Global, high: &[GateId], low: &[GateId]) -> Result<Vec<GateId>, NoMemory>
    ensures { IfOk result (λ r. (gates : List Gate) → AreGates gates high.now → AreGates gates low.now →
        Writes gates r.items (length high.now + length low.now) (λ v. number_at v gates high.now * 2 ^ length low.now + number_at v gates low.now)) }
{
    let mut digits = Vec::from_slice(alloc, high)?;
    digits.extend_from_slice(low)?;
    Ok(digits)
}

/// The same number, at a width that is as great or greater.
pub fn extended(
    alloc: Global,
    circuit: &mut Circuit,
    a: &[GateId],
    width: usize,
) -> Result<Vec<GateId>, NoMemory>
    requires wider { length a.now ≤ width }
    requires a { AreGates circuit.old a.now }
    ensures made { IfOk result (λ r. Writes circuit.new r.items width (λ v. number_at v circuit.old a.now)) }
    ensures kept { Keeps circuit.old circuit.new }
{
    let zero = circuit.constant(false)?;
    let zeros = copies(alloc, zero, width - a.len())?;
    let digits = joined(alloc, &zeros, a)?;
    Ok(digits)
}

/// The same number in two's complement, at a width that is as great or greater.
pub fn sign_extended(alloc: Global, a: &[GateId], width: usize) -> Result<Vec<GateId>, NoMemory>
    requires signed { 1 ≤ length a.now }
    requires wider { length a.now ≤ width }
    ensures { IfOk result (λ r. (gates : List Gate) → AreGates gates a.now →
        Writes gates r.items width (λ v. extended_signed (length a.now) width (number_at v gates a.now))) }
{
    let signs = copies(alloc, a[0], width - a.len())?;
    let digits = joined(alloc, &signs, a)?;
    Ok(digits)
}

//! Quotients and remainders by restoring division, from the most significant bit.
//!
//! A divisor of 0 is never more than what is left, so that each bit of the quotient is 1 and the
//! dividend remains: exactly what is wanted there, with no gate for it.

ghost use Rattle.std.specs.Prelude.{◌≡◌, ◌<◌, IfOk, length};
ghost use Rattle.gates.specs.Values.{Keeps};
ghost use Rattle.bv_terms.specs.Tree.{quotient, remainder};
ghost use Rattle.gate_arith.specs.Division.{IsStep};
ghost use Rattle.gate_arith.specs.Numbers.{AreGates, Writes, number_at};

use crate::bitwise::choose;
use crate::parts::joined;
use crate::places::copies;
use crate::sums::minus;
use gates::{Circuit, GateId};
use std::alloc::Global;
use support::NoMemory;

/// The bits of a quotient and of the remainder.
#[derive(Drop)]
pub struct Division {
    pub quotient: Vec<GateId>,
    pub remainder: Vec<GateId>,
}

/// One bit of the quotient, and the partial remainder after it.
#[derive(Drop)]
struct Step {
    digit: GateId,
    left: Vec<GateId>,
}

/// Brings the next bit of the dividend down to the partial remainder, and subtracts the divisor
/// once if it is not more.
fn bring_down(
    alloc: Global,
    circuit: &mut Circuit,
    before: &[GateId],
    next: GateId,
    divisor: &[GateId],
) -> Result<Step, NoMemory>
    requires alike { length before.now ≡ length divisor.now }
    requires before { AreGates circuit.old before.now }
    requires next { next.index < length circuit.old }
    requires divisor { AreGates circuit.old divisor.now }
    ensures made { IfOk result (λ r. IsStep circuit.old circuit.new before.now next divisor.now r.digit r.left.items) }
    ensures kept { Keeps circuit.old circuit.new }
{
    let zero = circuit.constant(false)?;
    let last = [next];
    let first = [zero];
    let whole = joined(alloc, before, &last)?;
    let wide = joined(alloc, &first, divisor)?;
    let less = minus(alloc, circuit, &whole, &wide)?;
    let chosen = choose(alloc, circuit, less.carry, &less.digits, &whole)?;
    let left = Vec::from_slice(alloc, &chosen[1..])?;
    Ok(Step {
        digit: less.carry,
        left,
    })
}

/// The quotient of unsigned numbers, all ones where the divisor is 0, and the remainder, the
/// dividend where the divisor is 0.
pub fn divided(
    alloc: Global,
    circuit: &mut Circuit,
    a: &[GateId],
    b: &[GateId],
) -> Result<Division, NoMemory>
    requires alike { length a.now ≡ length b.now }
    requires a { AreGates circuit.old a.now }
    requires b { AreGates circuit.old b.now }
    ensures quotient { IfOk result (λ r. Writes circuit.new r.quotient.items (length a.now) (λ v. quotient (length a.now) (number_at v circuit.old a.now) (number_at v circuit.old b.now))) }
    ensures remainder { IfOk result (λ r. Writes circuit.new r.remainder.items (length a.now) (λ v. remainder (number_at v circuit.old a.now) (number_at v circuit.old b.now))) }
    ensures kept { Keeps circuit.old circuit.new }
{
    let zero = circuit.constant(false)?;
    let mut left = copies(alloc, zero, b.len())?;
    let mut digits = Vec::new(alloc);
    for i in 0..a.len() {
        let next = bring_down(alloc, circuit, &left, a[i], b)?;
        digits.push(next.digit)?;
        left = next.left;
    }
    Ok(Division {
        quotient: digits,
        remainder: left,
    })
}

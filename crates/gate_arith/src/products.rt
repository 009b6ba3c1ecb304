//! Products by shift and add.

ghost use Rattle.std.specs.Prelude.{◌≡◌, ◌<◌, ◌*◌, ◌%◌, ◌^◌, IfOk, length};
ghost use Rattle.gates.specs.Values.{Keeps};
ghost use Rattle.gate_arith.specs.Numbers.{AreGates, Writes, number_at};

use crate::bitwise::choose;
use crate::places::copies;
use crate::shifts::doubled;
use crate::sums::sum;
use gates::{Circuit, GateId};
use std::alloc::Global;
use support::NoMemory;

/// The product, cut to the width. Row `i` of the sum has `i` low
/// bits that are known to be 0 and cost no gate.
pub fn product(
    alloc: Global,
    circuit: &mut Circuit,
    a: &[GateId],
    b: &[GateId],
) -> Result<Vec<GateId>, NoMemory>
    requires alike { length a.now ≡ length b.now }
    requires a { AreGates circuit.old a.now }
    requires b { AreGates circuit.old b.now }
    ensures made { IfOk result (λ r. Writes circuit.new r.items (length a.now) (λ v. (number_at v circuit.old a.now * number_at v circuit.old b.now) % 2 ^ length a.now)) }
    ensures kept { Keeps circuit.old circuit.new }
{
    let zero = circuit.constant(false)?;
    let zeros = copies(alloc, zero, a.len())?;
    let mut total = copies(alloc, zero, a.len())?;
    let mut row = Vec::from_slice(alloc, a)?;
    for place in (0..b.len()).rev() {
        let chosen = choose(alloc, circuit, b[place], &row, &zeros)?;
        let more = sum(alloc, circuit, &total, &chosen)?;
        let next = doubled(alloc, circuit, &row)?;
        total = more;
        row = next;
    }
    Ok(total)
}

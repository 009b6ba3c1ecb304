//! The cone of influence of an output: the gates that it needs.

ghost use Rattle.std.specs.Prelude.{◌≡◌, ◌<◌, All, IfOk, length};
ghost use Rattle.gates.specs.Cone.{IsCone, marked, operands};
ghost use Rattle.gates.specs.Values.{AreFit};

use crate::circuit::{Gate, GateId};
use std::alloc::Global;
use support::NoMemory;

/// Marks the operands of a gate.
fn mark_operands(needed: &mut [bool], gate: Gate)
    requires { All (λ j. j < length needed.old) (operands gate) }
    ensures { needed.new ≡ marked needed.old (operands gate) }
{
    match gate {
        Gate::Zero | Gate::Input(_) => {}
        Gate::And { a, b } => {
            needed[a.index] = true;
            needed[b.index] = true;
        }
        Gate::Xor { a, b } => {
            needed[a] = true;
            needed[b] = true;
        }
        Gate::Choose {
            test,
            first,
            second,
        } => {
            needed[test] = true;
            needed[first] = true;
            needed[second.index] = true;
        }
    }
}

/// For each gate whether the output needs it. Operands come before their gates, so one pass from the
/// last gate to the first marks them all.
pub fn cone_of(alloc: Global, gates: &[Gate], out: GateId) -> Result<Vec<bool>, NoMemory>
    requires out { out.index < length gates.now }
    requires fit { AreFit 0 gates.now }
    ensures { IfOk result (λ r. IsCone gates.now out.index 0 r.items) }
{
    let mut needed = Vec::new(alloc);
    needed.resize(gates.len(), false)?;
    needed[out.index] = true;
    for place in (0..gates.len()).rev() {
        if needed[place] {
            mark_operands(&mut needed, gates[place]);
        }
    }
    Ok(needed)
}

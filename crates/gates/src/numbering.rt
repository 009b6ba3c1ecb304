//! A variable for each gate of a question, the inputs of a stated order first.

ghost use Rattle.std.specs.Prelude.{◌≡◌, ◌<◌, ◌+◌, ◌∷◌, [], ◌++◌, All, IfOk, OnOk, length, slice_set};
ghost use Rattle.gates.specs.Encoding.{AreInputs};
ghost use Rattle.gates.specs.Numbering.{AreApart, AreNumbered, IsNumberingOf};
ghost use Rattle.gates.specs.Values.{AreFit};

use crate::circuit::{Gate, GateId};
use crate::cone::cone_of;
use std::alloc::Global;
use support::NoMemory;

/// The variable of each gate, counted from 1, or 0 where it has none; and the gate of each variable.
#[derive(Drop)]
pub struct Numbering {
    pub number: Vec<u64>,
    pub gate_of: Vec<usize>,
}

impl Numbering {
    /// Gives a gate the next variable.
    fn add(&mut self, gate: usize) -> Result<(), NoMemory>
        requires { gate < length self.old.number.items }
        ensures number { OnOk result (self.new.number.items ≡ slice_set self.old.number.items gate (length self.old.gate_of.items + 1)) }
        ensures gates { OnOk result (self.new.gate_of.items ≡ self.old.gate_of.items ++ gate ∷ []) }
    {
        self.gate_of.push(gate)?;
        self.number[gate] = self.gate_of.len() as u64;
        Ok(())
    }
}

/// The first variables are those of the inputs of an order, and no other of the gates has one.
fn named_first(alloc: Global, count: usize, order: &[GateId]) -> Result<Numbering, NoMemory>
    requires within { All (λ a. a.index < count) order.now }
    requires apart { AreApart order.now }
    ensures { IfOk result (λ r. AreNumbered count r.number.items r.gate_of.items order.now (length order.now)) }
{
    let mut number = Vec::new(alloc);
    number.resize(count, 0)?;
    let mut numbering = Numbering {
        number,
        gate_of: Vec::new(alloc),
    };
    for a in order {
        numbering.add(a.index)?;
    }
    Ok(numbering)
}

/// Variables for the inputs of `order`, 1, 2 and so on, and after them for each other gate that the
/// output needs; for no other gate.
pub fn numbering_of(
    alloc: Global,
    gates: &[Gate],
    out: GateId,
    order: &[GateId],
) -> Result<Numbering, NoMemory>
    requires fit { AreFit 0 gates.now }
    requires out { out.index < length gates.now }
    requires order { AreInputs gates.now order.now }
    requires apart { AreApart order.now }
    ensures { IfOk result (λ r. IsNumberingOf gates.now out.index order.now r.number.items r.gate_of.items) }
{
    let needed = cone_of(alloc, gates, out)?;
    let mut numbering = named_first(alloc, gates.len(), order)?;
    for place in 0..gates.len() {
        if needed[place] && numbering.number[place] == 0 {
            numbering.add(place)?;
        }
    }
    Ok(numbering)
}

//! The values of gates.

use gates::{Circuit, Gate, GateId};
use std::alloc::Global;
use support::NoMemory;

/// The value of a gate, or of its negation, among those of all gates.
pub fn value_at(values: &[bool], a: GateId) -> bool {
    values.get(a.index).copied().unwrap_or(false) != a.negated
}

/// The value of the gate at an index among those of all gates.
fn plain_value_at(values: &[bool], index: usize) -> bool {
    values.get(index).copied().unwrap_or(false)
}

/// The values of all gates where the inputs, in order, are the bits of a number of 6 bits, most
/// significant bit first.
pub fn values_of(alloc: Global, circuit: &Circuit, code: u32) -> Result<Vec<bool>, NoMemory> {
    let mut values = Vec::new(alloc);
    let mut left = code;
    for gate in circuit.as_slice() {
        let value = match *gate {
            Gate::Zero => false,
            Gate::Input(_) => left & 32 == 32,
            Gate::And { a, b } => value_at(&values, a) && value_at(&values, b),
            Gate::Xor { a, b } => plain_value_at(&values, a) != plain_value_at(&values, b),
            Gate::Choose {
                test,
                first,
                second,
            } => {
                if plain_value_at(&values, test) {
                    plain_value_at(&values, first)
                } else {
                    value_at(&values, second)
                }
            }
        };
        if matches!(gate, Gate::Input(_)) {
            left <<= 1;
        }
        values.push(value)?;
    }
    Ok(values)
}

/// The number whose bits are these gates, most significant bit first.
pub fn number(values: &[bool], bits: &[GateId]) -> u32 {
    let mut total = 0;
    for bit in bits {
        total = total << 1 | value_at(values, *bit) as u32;
    }
    total
}

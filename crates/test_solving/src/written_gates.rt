//! Gates in postfix notation: `a`, `b` and `c` are the first three inputs, `0` is the constant, `!`
//! negates the gate before it, and `&`, `|`, `^` and `?` are over the two or three gates before
//! them, as in `ab&` and `cab?`.

ghost use Rattle.std.specs.Prelude.{◌≡◌, ◌<◌, length};

use gates::{Circuit, GateId};
use std::alloc::Global;
use support::NoMemory;

/// The input at an index.
fn input(index: usize) -> GateId
    ensures { result.index ≡ index }
{
    GateId {
        index,
        negated: false,
    }
}

/// The last gate of the stack, taken off it, or the first input where there is none.
fn taken(circuit: &Circuit, stack: &mut Vec<GateId>) -> GateId
    requires { 0 < length circuit.now }
    ensures { result.index < length circuit.now }
{
    match stack.pop() {
        Some(gate) if gate.index < circuit.len() => gate,
        _ => input(0),
    }
}

/// The gate of a letter over the last ones of the stack, which it takes off.
fn next(circuit: &mut Circuit, stack: &mut Vec<GateId>, letter: u8) -> Result<GateId, NoMemory> {
    if circuit.len() < 3 {
        return Err(NoMemory);
    }
    let last = match letter {
        b'a' => return Ok(input(0)),
        b'b' => return Ok(input(1)),
        b'c' => return Ok(input(2)),
        b'0' => return circuit.constant(false),
        _ => taken(circuit, stack),
    };
    if letter == b'!' {
        return circuit.not(last);
    }
    let before = taken(circuit, stack);
    match letter {
        b'&' => circuit.and(before, last),
        b'|' => circuit.or(before, last),
        b'^' => circuit.xor(before, last),
        _ => {
            let test = taken(circuit, stack);
            circuit.choose(test, before, last)
        }
    }
}

/// The gate that a text writes.
pub fn written(
    alloc: Global,
    circuit: &mut Circuit,
    text: &str,
) -> Result<Option<GateId>, NoMemory> {
    let mut stack = Vec::new(alloc);
    for letter in text.as_bytes() {
        let gate = next(circuit, &mut stack, *letter)?;
        stack.push(gate)?;
    }
    Ok(stack.pop())
}

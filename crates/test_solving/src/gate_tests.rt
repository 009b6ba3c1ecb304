//! Gates, and the clauses of circuits.

use crate::expecting::expect;
use crate::written_gates::written;
use clause_lits::{Cnf, holds};
use gates::{Circuit, to_cnf};
use std::alloc::Global;
use std::test::Fail;
use support::{NoMemory, Sequence};

/// How many gates there are in a circuit besides three new inputs after both texts, or `None` where
/// they write two gates.
fn gates_in(
    alloc: Global,
    circuit: &mut Circuit,
    first: &str,
    second: &str,
) -> Result<Option<usize>, NoMemory> {
    for _ in 0..3 {
        circuit.input()?;
    }
    let one = written(alloc, circuit, first)?;
    let other = written(alloc, circuit, second)?;
    Ok(if one == other {
        circuit.len().checked_sub(3)
    } else {
        None
    })
}

fn gates_of_one(alloc: Global, first: &str, second: &str) -> Result<Option<usize>, NoMemory> {
    let mut circuit = Circuit::new(alloc);
    gates_in(alloc, &mut circuit, first, second)
}

/// Two texts that write one gate, and how many gates are made besides the inputs: equal gates are
/// one, what a constant, a negation or an operand decides is no new gate, and signs go to the
/// result.
const ONE_GATE: &str = "\
ab& ba& 1
aa!& 0 1
0a| a 1
0a!a? a 1
ab^0^ ab^ 2
ba!^ ab^! 1
ab^ab^^ 0 2
cab? c!ba? 1
ca!b!? cab?! 1
caa? a 0
caa!? ca^! 1
aab&& ab& 1
ab&a!& 0 2
aab&| a 1";

fn is_one_gate(alloc: Global, row: &str) -> Result<(), Fail> {
    let (first, rest) = row.split_once(" ").ok_or("a gate")?;
    let (second, count) = rest.split_once(" ").ok_or("another gate")?;
    let count = count.parse::<usize>()?;
    expect(gates_of_one(alloc, first, second)? == Some(count), row)
}

#[test]
fn one_gate_is_written_in_two_ways(rt: HostRuntime) -> Result<(), Fail> {
    for row in ONE_GATE.lines() {
        is_one_gate(rt.alloc(), row)?;
    }
    Ok(())
}

/// The clauses of `a and b`, with the order a, b, in a circuit that has their exclusive or too.
fn conjunction(alloc: Global, circuit: &mut Circuit) -> Result<Cnf, NoMemory> {
    let a = circuit.input()?;
    let b = circuit.input()?;
    circuit.xor(a, b)?;
    let both = circuit.and(a, b)?;
    to_cnf(alloc, circuit, both, &[a, b])
}

fn conjunction_alone(alloc: Global) -> Result<Cnf, NoMemory> {
    let mut circuit = Circuit::new(alloc);
    conjunction(alloc, &mut circuit)
}

/// Whether three variables are a model where they are the bits of a code.
fn is_model(alloc: Global, cnf: &Cnf, code: u32) -> Result<bool, NoMemory> {
    let bits = [code & 1 == 1, code & 2 == 2, code & 4 == 4];
    let assignment = Sequence::from_vec(Vec::from_array(alloc, bits)?);
    Ok(assignment.len() as u64 == cnf.variables && holds(cnf, &assignment))
}

/// The values of the first two variables in the models of clauses over three, as a set of numbers of
/// two bits.
fn fronts(alloc: Global, cnf: &Cnf) -> Result<u32, NoMemory> {
    let mut models: u32 = 0;
    for code in 0..8u32 {
        if is_model(alloc, cnf, code)? {
            models |= 1 << (code & 3);
        }
    }
    Ok(models)
}

/// `a and b` has three variables and four clauses, and none of the gate that it does not need. Two
/// variables are ordered, and in a model their values are 1, 1.
#[test]
fn the_front_of_an_and_is_1_1(rt: HostRuntime) -> Result<(), Fail> {
    let cnf = conjunction_alone(rt.alloc())?;
    let sizes = (cnf.front, cnf.variables, cnf.clauses.len());
    expect(
        sizes == (2, 3, 4) && fronts(rt.alloc(), &cnf)? == 8,
        "the front of an and is 1 1",
    )
}

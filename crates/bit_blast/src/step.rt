//! The bits of one term over those of earlier ones.

ghost use Rattle.std.specs.Prelude.{◌≡◌, ◌<◌, ◌≤◌, ◌++◌, ◌∷◌, [], IfOk, OnErr, OnOk, List, Some, None, length, slice_index_or};
ghost use Rattle.std.specs.Option.{option_copied};
ghost use Rattle.bv_terms.specs.Tree.{binary_value, binary_width};
ghost use Rattle.bv_terms.specs.Trees.{IsWithin};
ghost use Rattle.gates.specs.Values.{Grows, Keeps};
ghost use Rattle.gate_arith.specs.Numbers.{AreGates, Writes, number_at};
ghost use Rattle.bit_blast.specs.Table.{Adds, Appends, IsTable, all_digits, digits_of};
ghost use Rattle.bit_blast.specs.Written.{AreReady, digits_at, digits_or_none, written, written_size};

use bv_terms::{BinaryOp, Term, TermId, Variable};
use gate_arith::{
    and, choose, constant, difference, divided, equal, extended, inputs, inverse, joined, less,
    less_signed, or, part, product, shift_left, shift_right, shift_right_signed, sign_extended,
    sum, xor,
};
use gates::{Circuit, GateId};
use indexmap::IndexMap;
use std::alloc::Global;
use support::{NoMemory, Sequence};

/// New inputs for a variable, and their entry in the table. Out of memory, the circuit and the
/// table are as before.
pub fn add_variable(
    alloc: Global,
    circuit: &mut Circuit,
    table: &mut IndexMap<Variable, Sequence<GateId>>,
    variable: Variable,
) -> Result<(), NoMemory>
    requires table { IsTable circuit.old table.old.entries }
    requires absent { digits_of table.old.entries variable ≡ None }
    ensures table { IsTable circuit.new table.new.entries }
    ensures added { OnOk result (Adds table.old.entries table.new.entries variable) }
    ensures kept { Grows circuit.old circuit.new }
    ensures gates { OnErr result (circuit.new ≡ circuit.old) }
    ensures entries { OnErr result (table.new.entries ≡ table.old.entries) }
{
    let before = circuit.len();
    let digits = inputs(alloc, circuit, variable.width)?;
    match table.insert(variable, Sequence::from_vec(digits)) {
        Ok(_) => Ok(()),
        Err(_) => {
            circuit.truncate(before);
            Err(NoMemory)
        }
    }
}

/// The bits of a variable, where it has some.
pub fn find(
    table: &IndexMap<Variable, Sequence<GateId>>,
    variable: Variable,
) -> Option<&Sequence<GateId>>
    ensures { option_copied result ≡ digits_of table.now.entries variable }
{
    table.get(&variable)
}

/// Puts the bits of the variable at an index of the table after the others.
fn push_digits(
    all: &mut Vec<GateId>,
    table: &IndexMap<Variable, Sequence<GateId>>,
    place: usize,
) -> Result<(), NoMemory>
    ensures { OnOk result (Appends table.now.entries place all.old.items all.new.items) }
{
    match table.get_index(place) {
        Some((_, digits)) => {
            all.extend_from_slice(digits.as_slice())?;
            Ok(())
        }
        None => Ok(()),
    }
}

/// The bits of all variables, one variable after the other.
pub fn all_inputs(
    alloc: Global,
    table: &IndexMap<Variable, Sequence<GateId>>,
) -> Result<Vec<GateId>, NoMemory>
    ensures { IfOk result (λ r. r.items ≡ all_digits table.now.entries) }
{
    let mut all = Vec::new(alloc);
    for place in 0..table.len() {
        push_digits(&mut all, table, place)?;
    }
    Ok(all)
}

/// The bits of an earlier term.
fn at(done: &[Sequence<GateId>], a: TermId) -> &[GateId]
    requires { a.index < length done.now }
    ensures { result.now ≡ digits_at done.now a }
{
    done[a.index].as_slice()
}

/// The bits of a variable, or none where it has none.
fn digits_in(
    alloc: Global,
    table: &IndexMap<Variable, Sequence<GateId>>,
    number: u64,
    width: u32,
) -> Result<Vec<GateId>, NoMemory>
    ensures { IfOk result (λ r. r.items ≡ digits_or_none table.now.entries number width) }
{
    match find(table, Variable { number, width }) {
        Some(digits) => {
            let copy = Vec::from_slice(alloc, digits.as_slice())?;
            Ok(copy)
        }
        None => Ok(Vec::new(alloc)),
    }
}

/// The one bit of a test.
fn bit(alloc: Global, test: GateId) -> Result<Vec<GateId>, NoMemory>
    ensures { IfOk result (λ r. r.items ≡ test ∷ []) }
{
    let digits = Vec::from_slice(alloc, &[test])?;
    Ok(digits)
}

/// The bits of an operation on two numbers of the same width.
fn operation(
    alloc: Global,
    circuit: &mut Circuit,
    op: BinaryOp,
    a: &[GateId],
    b: &[GateId],
) -> Result<Vec<GateId>, NoMemory>
    requires alike { length a.now ≡ length b.now }
    requires least { 1 ≤ length a.now }
    requires most { length a.now ≤ 128 }
    requires a { AreGates circuit.old a.now }
    requires b { AreGates circuit.old b.now }
    ensures made { IfOk result (λ r. Writes circuit.new r.items (binary_width op (length a.now))
        (λ v. binary_value op (length a.now) (number_at v circuit.old a.now) (number_at v circuit.old b.now))) }
    ensures kept { Keeps circuit.old circuit.new }
{
    match op {
        BinaryOp::And => and(alloc, circuit, a, b),
        BinaryOp::Or => or(alloc, circuit, a, b),
        BinaryOp::Xor => xor(alloc, circuit, a, b),
        BinaryOp::Add => sum(alloc, circuit, a, b),
        BinaryOp::Sub => difference(alloc, circuit, a, b),
        BinaryOp::Mul => product(alloc, circuit, a, b),
        BinaryOp::Udiv => Ok(divided(alloc, circuit, a, b)?.quotient),
        BinaryOp::Urem => Ok(divided(alloc, circuit, a, b)?.remainder),
        BinaryOp::Shl => shift_left(alloc, circuit, a, b),
        BinaryOp::Lshr => shift_right(alloc, circuit, a, b),
        BinaryOp::Ashr => shift_right_signed(alloc, circuit, a, b),
        BinaryOp::Eq => bit(alloc, equal(alloc, circuit, a, b)?),
        BinaryOp::Ult => bit(alloc, less(alloc, circuit, a, b)?),
        BinaryOp::Slt => bit(alloc, less_signed(alloc, circuit, a, b)?),
    }
}

/// The bits of a term over those of the earlier ones and of the variables.
pub fn written(
    alloc: Global,
    circuit: &mut Circuit,
    table: &IndexMap<Variable, Sequence<GateId>>,
    term: &Term,
    done: &[Sequence<GateId>],
) -> Result<Vec<GateId>, NoMemory>
    requires within { IsWithin (length done.now) term.now }
    requires ready { AreReady circuit.old table.now.entries done.now term.now }
    ensures made { IfOk result (λ r. Writes circuit.new r.items (written_size table.now.entries done.now term.now) (λ v. written v circuit.old table.now.entries done.now term.now)) }
    ensures kept { Keeps circuit.old circuit.new }
{
    match *term {
        Term::Constant { value, width } => constant(alloc, circuit, value, width),
        Term::Variable { number, width } => digits_in(alloc, table, number, width),
        Term::Not { a, .. } => inverse(alloc, circuit, at(done, a)),
        Term::Binary(op, a, b, _) => operation(alloc, circuit, op, at(done, a), at(done, b)),
        Term::Ite { c, a, b, .. } => {
            choose(alloc, circuit, at(done, c)[0], at(done, a), at(done, b))
        }
        Term::Extract { a, from, width } => part(alloc, at(done, a), from as usize, width as usize),
        Term::Concat { high, low, .. } => joined(alloc, at(done, high), at(done, low)),
        Term::Zext { a, width } => extended(alloc, circuit, at(done, a), width as usize),
        Term::Sext { a, width, .. } => sign_extended(alloc, at(done, a), width as usize),
    }
}

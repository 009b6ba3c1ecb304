//! The Tseitin encoding of a circuit.

ghost use Rattle.std.specs.Prelude.{◌≡◌, ◌≢◌, ◌<◌, ◌≤◌, ◌↔◌, ◌∷◌, [], ◌&&◌, ◌||◌, ◌⊎◌, ℕ, Bool, All, IfOk, OnOk, Some, cond, length, slice_get, slice_index, true};
ghost use Rattle.clause_lits.specs.Meaning.{AreWithin, clause_true, clauses_true, lit_true};
ghost use Rattle.gates.specs.Cone.{operands};
ghost use Rattle.gates.specs.Encoding.{AreInputs, Encodes, HasOneModelAFront};
ghost use Rattle.gates.specs.Facts.{AreDistinct, AreFacts, IsFact, IsOver};
ghost use Rattle.gates.specs.Numbering.{AreApart, HasNumber, IsClosed, IsNumbering};
ghost use Rattle.gates.specs.Values.{AreFit, IsFit, exclusive};

use crate::circuit::{Circuit, Gate, GateId};
use crate::numbering::numbering_of;
use clause_lits::{Clause, Cnf, Lit};
use smallvec::SmallVec;
use std::alloc::Global;
use support::{NoMemory, Sequence};

/// Clauses that have exactly one model over each assignment of the inputs, but for the last clause,
/// which is one literal and has the value of `out` there. The inputs of `order` have the variables
/// from 1 on, in this order, and are the ordered variables; besides them each gate that `out` needs
/// has a variable, and no other gate has a variable or a clause.
///
/// This is the encoding of G. Tseitin, "On the complexity of derivation in propositional calculus"
/// (1968): three clauses for an and gate, and four for an exclusive or or a choice.
pub fn to_cnf(
    alloc: Global,
    circuit: &Circuit,
    out: GateId,
    order: &[GateId],
) -> Result<Cnf, NoMemory>
    requires out { out.index < length circuit.now }
    requires order { AreInputs circuit.now order.now }
    requires apart { AreApart order.now }
    ensures encodes { IfOk result (Encodes circuit.now out order.now) }
    ensures fronts { IfOk result (HasOneModelAFront circuit.now order.now) }
{
    let gates = circuit.as_slice();
    let numbering = numbering_of(alloc, gates, out, order)?;
    let mut clauses = body_of(alloc, gates, &numbering.number, &numbering.gate_of)?;
    let last = one(alloc, literal_of(&numbering.number, out))?;
    clauses.push(last)?;
    Ok(Cnf::new(
        numbering.gate_of.len() as u64,
        Sequence::from_vec(clauses),
        order.len() as u64,
    ))
}

/// The literal of a gate that has a variable.
fn literal_of(number: &[u64], a: GateId) -> Lit
    requires { HasNumber number.now a.index }
    ensures variable { result.variable ≡ slice_index number.now a.index }
    ensures says { (v : ℕ → Bool) → lit_true v result ≡ exclusive a.negated (v (slice_index number.now a.index)) }
{
    Lit {
        variable: number[a.index],
        positive: !a.negated,
    }
}

/// The literal of the gate at an index.
fn plain_literal(number: &[u64], index: usize) -> Lit
    requires { HasNumber number.now index }
    ensures variable { result.variable ≡ slice_index number.now index }
    ensures says { (v : ℕ → Bool) → lit_true v result ≡ v (slice_index number.now index) }
{
    Lit {
        variable: number[index],
        positive: true,
    }
}

/// The clauses of the gates that have variables.
fn body_of(
    alloc: Global,
    gates: &[Gate],
    number: &[u64],
    gate_of: &[usize],
) -> Result<Vec<Clause>, NoMemory>
    requires fit { AreFit 0 gates.now }
    requires numbering { IsNumbering (length gates.now) number.now gate_of.now }
    requires closed { IsClosed gates.now number.now }
    ensures within { IfOk result (λ r. AreWithin (length gate_of.now) r.items) }
    ensures says { IfOk result (λ r. (v : ℕ → Bool) → (clauses_true v r.items ≡ true) ↔ AreFacts v number.now gates.now gate_of.now (length gate_of.now)) }
{
    let mut clauses = Vec::new(alloc);
    for place in gate_of {
        push_gate(alloc, &mut clauses, number, *place, gates[*place])?;
    }
    Ok(clauses)
}

/// Adds the clauses of the gate at an index.
fn push_gate(
    alloc: Global,
    clauses: &mut Vec<Clause>,
    number: &[u64],
    place: usize,
    gate: Gate,
) -> Result<(), NoMemory>
    requires distinct { AreDistinct number.now }
    requires place { HasNumber number.now place }
    requires operands { All (HasNumber number.now) (operands gate) }
    requires fit { IsFit place gate }
    ensures within { OnOk result ((n : ℕ) → ((i : ℕ) → slice_index number.now i ≤ n)
        → AreWithin n clauses.old.items → AreWithin n clauses.new.items) }
    ensures says { OnOk result ((v : ℕ → Bool) → (clauses_true v clauses.new.items ≡ true)
        ↔ ((clauses_true v clauses.old.items ≡ true) × IsFact v number.now place gate)) }
{
    let own = plain_literal(number, place);
    match gate {
        Gate::Zero => {
            clauses.push(one(alloc, own.opposite())?)?;
            Ok(())
        }
        Gate::Input(_) => Ok(()),
        Gate::And { a, b } => push_and(
            alloc,
            clauses,
            own,
            literal_of(number, a),
            literal_of(number, b),
        ),
        Gate::Xor { a, b } => {
            let test = plain_literal(number, a);
            let same = plain_literal(number, b);
            push_choose(alloc, clauses, own, test, same.opposite(), same)
        }
        Gate::Choose {
            test,
            first,
            second,
        } => push_choose(
            alloc,
            clauses,
            own,
            plain_literal(number, test),
            plain_literal(number, first),
            literal_of(number, second),
        ),
    }
}

/// Adds the clauses that say that a literal is the and of two others.
fn push_and(
    alloc: Global,
    clauses: &mut Vec<Clause>,
    own: Lit,
    a: Lit,
    b: Lit,
) -> Result<(), NoMemory>
    requires own { 0 < own.variable }
    requires a { 0 < a.variable }
    requires b { 0 < b.variable }
    requires own_a { own.variable ≢ a.variable }
    requires own_b { own.variable ≢ b.variable }
    requires a_b { a.variable ≢ b.variable }
    ensures within { OnOk result ((n : ℕ) → own.variable ≤ n → a.variable ≤ n → b.variable ≤ n
        → AreWithin n clauses.old.items → AreWithin n clauses.new.items) }
    ensures says { OnOk result ((v : ℕ → Bool) → (clauses_true v clauses.new.items ≡ true)
        ↔ ((clauses_true v clauses.old.items ≡ true) × (lit_true v own ≡ (lit_true v a && lit_true v b)))) }
{
    clauses.push(two(alloc, own.opposite(), a)?)?;
    clauses.push(two(alloc, own.opposite(), b)?)?;
    clauses.push(three(alloc, own, a.opposite(), b.opposite())?)?;
    Ok(())
}

/// Adds the clauses that say that a literal is `a` where `c` is true, and else `b`. Where `a` is the
/// opposite of `b` they are those of an exclusive or.
fn push_choose(
    alloc: Global,
    clauses: &mut Vec<Clause>,
    own: Lit,
    c: Lit,
    a: Lit,
    b: Lit,
) -> Result<(), NoMemory>
    requires own { 0 < own.variable }
    requires c { 0 < c.variable }
    requires a { 0 < a.variable }
    requires b { 0 < b.variable }
    requires own_c { own.variable ≢ c.variable }
    requires own_a { own.variable ≢ a.variable }
    requires own_b { own.variable ≢ b.variable }
    requires c_a { c.variable ≢ a.variable }
    requires c_b { c.variable ≢ b.variable }
    ensures within { OnOk result ((n : ℕ) → own.variable ≤ n → c.variable ≤ n → a.variable ≤ n → b.variable ≤ n
        → AreWithin n clauses.old.items → AreWithin n clauses.new.items) }
    ensures says { OnOk result ((v : ℕ → Bool) → (clauses_true v clauses.new.items ≡ true)
        ↔ ((clauses_true v clauses.old.items ≡ true) × (lit_true v own ≡ cond (lit_true v c) (lit_true v a) (lit_true v b)))) }
{
    clauses.push(three(alloc, c.opposite(), a.opposite(), own)?)?;
    clauses.push(three(alloc, c.opposite(), a, own.opposite())?)?;
    clauses.push(three(alloc, c, b.opposite(), own)?)?;
    clauses.push(three(alloc, c, b, own.opposite())?)?;
    Ok(())
}

/// The clause of one literal.
fn one(alloc: Global, a: Lit) -> Result<Clause, NoMemory>
    requires { 0 < a.variable }
    ensures { IfOk result (λ c. c ≡ a ∷ []) }
{
    Ok(Clause::new(SmallVec::from_slice(alloc, &[a])?))
}

/// The clause of two literals.
fn two(alloc: Global, a: Lit, b: Lit) -> Result<Clause, NoMemory>
    requires a { 0 < a.variable }
    requires b { 0 < b.variable }
    requires apart { a.variable ≢ b.variable }
    ensures over { IfOk result (λ c. IsOver c a.variable b.variable b.variable) }
    ensures says { IfOk result (λ c. (v : ℕ → Bool) → clause_true v c ≡ (lit_true v a || lit_true v b)) }
{
    let literals = if a.variable < b.variable {
        [a, b]
    } else {
        [b, a]
    };
    Ok(Clause::new(SmallVec::from_slice(alloc, &literals)?))
}

/// The clause of three literals.
fn three(alloc: Global, a: Lit, b: Lit, c: Lit) -> Result<Clause, NoMemory>
    requires a { 0 < a.variable }
    requires b { 0 < b.variable }
    requires c { 0 < c.variable }
    requires a_b { a.variable ≢ b.variable }
    requires a_c { a.variable ≢ c.variable }
    requires b_c { b.variable ≢ c.variable }
    ensures over { IfOk result (λ r. IsOver r a.variable b.variable c.variable) }
    ensures says { IfOk result (λ r. (v : ℕ → Bool) → clause_true v r ≡ (lit_true v a || (lit_true v b || lit_true v c))) }
{
    let (low, high) = in_order(a, b);
    let literals = if c.variable < low.variable {
        [c, low, high]
    } else if c.variable < high.variable {
        [low, c, high]
    } else {
        [low, high, c]
    };
    Ok(Clause::new(SmallVec::from_slice(alloc, &literals)?))
}

/// The two literals, the one of the smaller variable first.
fn in_order(a: Lit, b: Lit) -> (Lit, Lit)
    requires { a.variable ≢ b.variable }
    ensures rises { result.0.variable < result.1.variable }
    ensures same { ((result.0 ≡ a) × (result.1 ≡ b)) ⊎ ((result.0 ≡ b) × (result.1 ≡ a)) }
{
    if a.variable < b.variable {
        (a, b)
    } else {
        (b, a)
    }
}

//! Conditions that are taken to be true or false, and what follows from them.

ghost use Rattle.std.specs.Prelude.{◌≡◌, ◌<◌, ℕ, List, IfSome, length};
ghost use Rattle.bv_terms.specs.declared.term.Term.{Term as TermNow};
ghost use Rattle.bv_terms.specs.Trees.{bit_at};
ghost use Rattle.term_sums.specs.Polynomials.{AreTrue};

use crate::reading::term;
use arrayvec::ArrayVec;
use bv_terms::{BinaryOp, Term, TermId, Terms};

/// At most so many conditions are taken to be true or false.
pub const FACTS: usize = 4;

/// How far down the parts of a condition are looked at.
const DEPTH: u32 = 4;

/// A condition, by its index, and whether it is true.
#[derive(Clone, Copy, Default)]
pub struct Fact {
    pub condition: usize,
    pub holds: bool,
}

/// The facts and one more, if there is room.
pub fn with_fact(facts: &[Fact], condition: TermId, holds: bool) -> Option<ArrayVec<Fact, FACTS>>
    ensures { IfSome result (λ all. (v : ℕ → ℕ → ℕ) (terms : List TermNow) → AreTrue v terms facts.now → bit_at v terms condition ≡ holds → AreTrue v terms all.items) }
{
    let mut all = ArrayVec::try_from(facts).ok()?;
    let condition = condition.index;
    all.try_push(Fact { condition, holds }).ok()?;
    Some(all)
}

/// What a condition is where the facts are true, if it is one of them.
fn known_fact(facts: &[Fact], condition: TermId) -> Option<bool>
    ensures { IfSome result (λ b. (v : ℕ → ℕ → ℕ) (terms : List TermNow) → AreTrue v terms facts.now → bit_at v terms condition ≡ b) }
{
    for fact in facts {
        if fact.condition == condition.index {
            return Some(fact.holds);
        }
    }
    None
}

/// What a condition is where the facts are true.
pub fn known_by_facts(terms: &Terms, facts: &[Fact], a: TermId) -> Option<bool>
    requires { a.index < length terms.now }
    ensures { IfSome result (λ b. (v : ℕ → ℕ → ℕ) → AreTrue v terms.now facts.now → bit_at v terms.now a ≡ b) }
{
    known_within(terms, facts, a, DEPTH)
}

fn known_within(terms: &Terms, facts: &[Fact], a: TermId, depth: u32) -> Option<bool>
    requires { a.index < length terms.now }
    ensures { IfSome result (λ b. (v : ℕ → ℕ → ℕ) → AreTrue v terms.now facts.now → bit_at v terms.now a ≡ b) }
{
    terms.values_fit();
    let known = known_fact(facts, a);
    if known.is_some() {
        return known;
    }
    if depth == 0 {
        return None;
    }
    match term(terms, a) {
        Term::Not { a: inner, width } if width == 1 => {
            let b = known_within(terms, facts, inner, depth - 1)?;
            Some(!b)
        }
        // xor X, Y, if both are known
        Term::Binary(BinaryOp::Xor, x, y, width) if width == 1 => {
            let first = known_within(terms, facts, x, depth - 1)?;
            let second = known_within(terms, facts, y, depth - 1)?;
            Some(first != second)
        }
        // and X, Y, if both are known
        Term::Binary(BinaryOp::And, x, y, width) if width == 1 => {
            let first = known_within(terms, facts, x, depth - 1)?;
            let second = known_within(terms, facts, y, depth - 1)?;
            Some(first && second)
        }
        // or X, Y, if both are known
        Term::Binary(BinaryOp::Or, x, y, width) if width == 1 => {
            let first = known_within(terms, facts, x, depth - 1)?;
            let second = known_within(terms, facts, y, depth - 1)?;
            Some(first || second)
        }
        _ => None,
    }
}

/// A condition that this one is made of by negations, `xor`, `and` and `or`. Of two operands the
/// second is taken where the first is one of the facts; the condition itself may be one of them.
pub fn unknown_part(terms: &Terms, facts: &[Fact], a: TermId) -> Option<TermId>
    requires { a.index < length terms.now }
    ensures { IfSome result (λ c. c.index < length terms.now) }
{
    let mut at = a;
    for _ in 0..DEPTH {
        at = match term(terms, at) {
            Term::Not { a: inner, .. } => inner,
            Term::Binary(BinaryOp::Xor | BinaryOp::And | BinaryOp::Or, x, y, _) => {
                if known_fact(facts, x).is_some() { y } else { x }
            }
            _ => return Some(at),
        };
    }
    None
}

//! How many nodes terms have.

ghost use Rattle.std.specs.Prelude.{◌≡◌, ◌+◌, ◌-◌, ◌^◌, IfOk, List, length, min};
ghost use Rattle.bv_terms.specs.Trees.{IsWithin};
ghost use Rattle.known_values.specs.Weight.{IsWeight, weighed};

use bv_terms::{Term, TermFold};
use std::convert::Infallible;

/// The number of nodes of each term as a written-out tree, capped at the greatest 64-bit number.
#[derive(Drop)]
pub struct Weigh;

/// One node over others.
fn over_one(a: u64) -> u64
    ensures { result ≡ min (1 + a) (2 ^ 64 - 1) }
{
    a.saturating_add(1)
}

/// One node over two others.
fn over_two(a: u64, b: u64) -> u64
    ensures { result ≡ min (1 + a + b) (2 ^ 64 - 1) }
{
    a.saturating_add(b).saturating_add(1)
}

/// One node over three others.
fn over_three(a: u64, b: u64, c: u64) -> u64
    ensures { result ≡ min (1 + a + b + c) (2 ^ 64 - 1) }
{
    a.saturating_add(b).saturating_add(c).saturating_add(1)
}

/// The weight of a term over those of the earlier ones.
fn weight(term: &Term, done: &[u64]) -> u64
    requires { IsWithin (length done.now) term.now }
    ensures { result ≡ weighed done.now term.now }
{
    match *term {
        Term::Constant { .. } | Term::Variable { .. } => 1,
        Term::Not { a, .. }
        | Term::Extract { a, .. }
        | Term::Zext { a, .. }
        | Term::Sext { a, .. } => over_one(done[a.index]),
        Term::Binary(_, a, b, _) => over_two(done[a.index], done[b.index]),
        Term::Ite { c, a, b, .. } => over_three(done[c.index], done[a.index], done[b.index]),
        Term::Concat { high, low, .. } => over_two(done[high.index], done[low.index]),
    }
}

impl TermFold for Weigh {
    type Out = u64;

    type Fault = Infallible;

    ghost stands = { λ _ tree n. IsWeight tree n };

    ghost follows = { λ _ _. Unit {0} };

    ghost gives = { λ _ _. Unit {0} };

    fn node(&mut self, term: &Term, done: &[u64]) -> Result<u64, Infallible> {
        Ok(weight(term, done))
    }

    ghost stays = { λ _. tt };

    ghost goes_on = { λ _ _ _ _ _. tt };

    ghost keeps = { λ _ _ _ _ _ h. h };
}

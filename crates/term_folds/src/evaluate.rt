//! The values of terms.

ghost use Rattle.std.specs.Prelude.{◌≡◌, IfOk, List, refl, length};
ghost use Rattle.std.proofs.Common.{◌∙◌};
ghost use Rattle.bv_terms.specs.Trees.{IsWithin};
ghost use Rattle.term_folds.specs.Evaluation.{AreSmall, IsValue, applied, assigned_by};
ghost use Rattle.term_folds.specs.Kept.{stands_kept};

use bv_terms::{Term, TermFold};
use known_values::numbers::{binary, choice, cut, extended, inverse, joined, part};
use std::convert::Infallible;
use support::Sequence;

/// The number that a variable, which is its number and its width together, is given.
#[derive(Clone, Copy, PartialEq, Eq, Debug, Drop)]
pub struct Assigned {
    pub number: u64,
    pub width: u32,
    pub value: u128,
}

/// The values of terms where each variable has what it is assigned first, cut to its width, or 0.
#[derive(Drop)]
pub struct Evaluate {
    pub values: Sequence<Assigned>,
}

impl Evaluate {
    /// What is assigned to the variable first, or 0.
    fn assigned(&self, number: u64, width: u32) -> u128
        ensures { result ≡ assigned_by self.now.values number width }
    {
        for given in self.values.as_slice() {
            if given.number == number && given.width == width {
                return given.value;
            }
        }
        0
    }

    /// The value of a term over those of the earlier ones.
    fn value(&self, term: &Term, done: &[u128]) -> u128
        requires within { IsWithin (length done.now) term.now }
        requires small { AreSmall done.now term.now }
        ensures { result ≡ applied (assigned_by self.now.values) done.now term.now }
    {
        match *term {
            Term::Constant { value, .. } => value,
            Term::Variable { number, width } => cut(self.assigned(number, width), width),
            Term::Not { a, width } => inverse(done[a.index], width),
            Term::Binary(op, a, b, width) => binary(op, done[a.index], done[b.index], width),
            Term::Ite { c, a, b, .. } => choice(done[c.index], done[a.index], done[b.index]),
            Term::Extract { a, from, width } => part(done[a.index], from, width),
            Term::Concat {
                high,
                low,
                below,
                ..
            } => joined(done[high.index], done[low.index], below),
            Term::Zext { a, .. } => done[a.index],
            Term::Sext { a, from, width } => extended(done[a.index], from, width),
        }
    }
}

impl TermFold for Evaluate {
    type Out = u128;

    type Fault = Infallible;

    ghost stands = { λ e tree n. IsValue e.values tree n };

    ghost follows = { λ a b. b.values ≡ a.values };

    ghost gives = { λ _ _. Unit {0} };

    fn node(&mut self, term: &Term, done: &[u128]) -> Result<u128, Infallible> {
        Ok(self.value(term, done))
    }

    ghost stays = { λ a. refl };

    ghost goes_on = { λ a b c ab bc. bc ∙ ab };

    ghost keeps = { stands_kept };
}

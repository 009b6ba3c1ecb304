//! A function as it is encoded: its names in slots, its blocks copied.

ghost use Rattle.std.specs.Prelude.{◌≡◌, ℕ, IfOk, IfSome, is_some};
ghost use Rattle.points.specs.Run.{run_of};
ghost use Rattle.bv_terms.specs.Trees.{Keeps};
ghost use Rattle.mem_terms.specs.Values.{reading};
ghost use Rattle.mem_terms.specs.Inputs.{AreWords, IsInput, input_at, words_at};
ghost use Rattle.mem_terms.specs.Outcomes.{IsOutcome, LeavesGiven, Shows};
ghost use Rattle.ir_tree.specs.Limits.{CanRun};
ghost use Rattle.register_slots.specs.StandIn.{IsStandIn};
ghost use Rattle.pair_questions.specs.Encodables.{IsEncodable, encoded_of};
ghost use Rattle.mem_terms.specs.Memory.{frames_of};

use bv_terms::Terms;
use encoder::encode;
use ir_tree::Function;
use mem_terms::{InputTerms, OutcomeTerms, TapeTerms};
use points::{Bounds, Layout};
use register_slots::with_slots;
use std::alloc::Global;
use support::NoMemory;
use unroll::{Layered, layers};

/// A function, the one with its names in slots that is encoded instead, if there is one, and the
/// copies of the blocks of what is encoded.
pub struct Encodable<'m> {
    pub of: &'m Function,
    slotted: Option<Function>,
    layered: Layered,
}

// Dropped by one call: a derived drop is written out at each return.
impl<'m> Drop for Encodable<'m> {
    fn drop(self) {
        let Encodable {
            of,
            slotted,
            layered,
        } = self;
    }
}

/// What is encoded: the function with slots if there is one, and the function itself otherwise.
fn encoded_of<'a>(f: &'a Function, slotted: &'a Option<Function>) -> &'a Function
    ensures { result.now ≡ encoded_of f.now slotted.now }
{
    match slotted {
        Some(slotted) => slotted,
        None => f,
    }
}

impl<'m> Encodable<'m> {
    /// The function as it is encoded, for runs of at most that many backward jumps.
    pub fn new(alloc: Global, f: &'m Function, turns: u64) -> Result<Encodable<'m>, NoMemory>
        ensures of { IfOk result (λ e. e.of.now ≡ f.now) }
        ensures encodable { IfOk result (IsEncodable turns) }
    {
        let slotted = with_slots(alloc, f)?;
        let layered = layers(alloc, encoded_of(f, &slotted), turns)?;
        Ok(Encodable {
            of: f,
            slotted,
            layered,
        })
    }

    /// The runs of the function as terms: under every assignment of the variables they show its run on
    /// what the input and the tape are under it.
    pub fn encode(
        &self,
        alloc: Global,
        bounds: &Bounds,
        layout: &Layout,
        input: &InputTerms,
        tape: &TapeTerms,
        terms: &mut Terms,
    ) -> Result<OutcomeTerms, NoMemory>
        requires encodable { IsEncodable bounds.now.turns self.now }
        requires run { CanRun self.now.of.now }
        requires input { IsInput self.now.of.now.parameters layout.now terms.old input.now }
        requires tape { AreWords terms.old tape.now.words }
        ensures made { IfOk result (IsOutcome terms.new) }
        ensures given { IfOk result (LeavesGiven (frames_of layout.now)) }
        ensures stands { IfOk result (λ o. (v : ℕ → ℕ → ℕ) → Shows (reading layout.now.blocks v) terms.new (words_at v terms.old tape.now.words)
            (run_of self.now.of.now bounds.now (input_at (reading layout.now.blocks v) terms.old input.now) (words_at v terms.old tape.now.words)) o) }
        ensures kept { Keeps terms.old terms.new }
    {
        let f = encoded_of(self.of, &self.slotted);
        let outcome = encode(alloc, f, &self.layered, layout, input, tape, terms)?;
        Ok(outcome)
    }
}

//! How a run ended.

ghost use Rattle.std.specs.Prelude.{◌≡◌, true, false, IfOk, OnOk, IfSome, cond, is_some, map};
ghost use Rattle.std.specs.Option.{option_map};
ghost use Rattle.points.specs.declared.outcome.Outcome.TheVariants as outcome;
ghost use Rattle.run_terms.specs.Common.{Keeps, IsTerm, bit_at, IsSymValue, Reading, value_at, AreGivenBlocks, frame_of, memory_at, IsTally, sight, AreTests, LeadsBy, Ends, IsEnding};
ghost use Rattle.run_terms.specs.Frontier.{HasLeft, HasReturned};

use crate::joining::pick_tally;
use crate::paths::{Test, choice_by_path, common, copy_path};
use crate::state::{Tally, copy_blocks};
use bv_terms::{TermId, Terms};
use mem_terms::{SymBlock, SymValue, either, pick_given, pick_value};
use std::alloc::Global;
use support::{NoMemory, Sequence};

/// How a run has ended so far, if it has: in undefined behaviour where `ub` is true, past the bound
/// on jumps where `beyond` is, else in a return.
#[derive(Drop)]
pub struct Ending {
    pub ub: TermId,
    pub beyond: TermId,
    /// What it returns, where the function has a type.
    pub value: Option<SymValue>,
    /// The given blocks that it leaves.
    pub blocks: Sequence<SymBlock>,
    pub tally: Tally,
    /// Tests that hold in each run that has returned; nothing before a run has.
    pub returned: Option<Sequence<Test>>,
}

/// What the runs that returned left: a value where the function has a type, the given blocks, and
/// tests that hold in each of these runs.
#[derive(Drop)]
pub struct Left {
    pub value: Option<SymValue>,
    pub blocks: Sequence<SymBlock>,
    pub path: Sequence<Test>,
}

impl Ending {
    /// Where the condition holds the run ends in undefined behaviour, with these choices.
    pub fn end_undefined(
        &mut self,
        terms: &mut Terms,
        c: TermId,
        tally: Tally,
    ) -> Result<(), NoMemory>
        requires own { IsEnding terms.old self.old }
        requires c { IsTerm terms.old 1 c }
        requires tally { IsTally terms.old tally }
        ensures ends { OnOk result (Ends terms.old terms.new self.old self.new c tally (λ g. outcome.Ub)) }
        ensures kept { Keeps terms.old terms.new }
    {
        self.ub = either(terms, self.ub, c)?;
        self.tally = pick_tally(terms, c, tally, self.tally)?;
        Ok(())
    }

    /// Where the condition holds the run would take one jump too many, with these choices.
    pub fn end_beyond(&mut self, terms: &mut Terms, c: TermId, tally: Tally) -> Result<(), NoMemory>
        requires own { IsEnding terms.old self.old }
        requires c { IsTerm terms.old 1 c }
        requires tally { IsTally terms.old tally }
        ensures ends { OnOk result (Ends terms.old terms.new self.old self.new c tally (λ g. outcome.Beyond)) }
        ensures kept { Keeps terms.old terms.new }
    {
        self.beyond = either(terms, self.beyond, c)?;
        self.tally = pick_tally(terms, c, tally, self.tally)?;
        Ok(())
    }

    /// Where the condition holds the run returns this value, or nothing, and leaves these given
    /// blocks, with these choices, by this path.
    pub fn end_return(
        &mut self,
        alloc: Global,
        terms: &mut Terms,
        c: TermId,
        value: Option<SymValue>,
        given: &[SymBlock],
        tally: Tally,
        path: &[Test],
    ) -> Result<(), NoMemory>
        requires own { IsEnding terms.old self.old }
        requires alike { is_some value ≡ is_some self.old.value }
        requires value { IfSome value (IsSymValue terms.old) }
        requires given { AreGivenBlocks (map frame_of self.old.blocks) terms.old given.now }
        requires c { IsTerm terms.old 1 c }
        requires tally { IsTally terms.old tally }
        requires path { LeadsBy terms.old c path.now }
        ensures ends { OnOk result (Ends terms.old terms.new self.old self.new c tally (λ g. outcome.Return (option_map (value_at (sight g) terms.old) value) (memory_at (sight g) terms.old given.now))) }
        ensures kept { Keeps terms.old terms.new }
    {
        let left = self.left_with(alloc, terms, c, value, given, path)?;
        let tally = pick_tally(terms, c, tally, self.tally)?;
        self.value = left.value;
        self.blocks = left.blocks;
        self.returned = Some(left.path);
        self.tally = tally;
        Ok(())
    }

    /// What is left if a run also returns this where the condition holds. No run returned before the
    /// first return, so that it leaves what it leaves without a choice.
    fn left_with(
        &self,
        alloc: Global,
        terms: &mut Terms,
        c: TermId,
        value: Option<SymValue>,
        given: &[SymBlock],
        path: &[Test],
    ) -> Result<Left, NoMemory>
        requires own { IsEnding terms.old self.now }
        requires alike { is_some value ≡ is_some self.now.value }
        requires value { IfSome value (IsSymValue terms.old) }
        requires given { AreGivenBlocks (map frame_of self.now.blocks) terms.old given.now }
        requires c { IsTerm terms.old 1 c }
        requires path { LeadsBy terms.old c path.now }
        ensures value { IfOk result (λ l. IfSome l.value (IsSymValue terms.new)) }
        ensures alike { IfOk result (λ l. is_some l.value ≡ is_some self.now.value) }
        ensures given { IfOk result (λ l. AreGivenBlocks (map frame_of self.now.blocks) terms.new l.blocks) }
        ensures tests { IfOk result (λ l. AreTests terms.new l.path) }
        ensures goes { IfOk result (λ l. (r : Reading) → bit_at r.v terms.old c ≡ true → HasLeft r terms.old terms.new l value given.now) }
        ensures stays { IfOk result (λ l. (r : Reading) → bit_at r.v terms.old c ≡ false → HasReturned r.v terms.old self.now.returned → HasLeft r terms.old terms.new l self.now.value self.now.blocks) }
        ensures kept { Keeps terms.old terms.new }
    {
        match &self.returned {
            None => {
                let blocks = copy_blocks(alloc, given)?;
                let path = copy_path(alloc, path)?;
                Ok(Left {
                    value,
                    blocks,
                    path,
                })
            }
            Some(returned) => {
                let before = returned.as_slice();
                let by = choice_by_path(terms, c, path, before)?;
                let value = pick_returned(terms, by, value, self.value)?;
                let blocks = pick_given(alloc, terms, by, given, self.blocks.as_slice())?;
                let path = common(alloc, path, before)?;
                Ok(Left {
                    value,
                    blocks,
                    path,
                })
            }
        }
    }
}

/// The first returned value where the condition holds, else the second, where there are any.
fn pick_returned(
    terms: &mut Terms,
    c: TermId,
    a: Option<SymValue>,
    b: Option<SymValue>,
) -> Result<Option<SymValue>, NoMemory>
    requires c { IsTerm terms.old 1 c }
    requires a { IfSome a (IsSymValue terms.old) }
    requires b { IfSome b (IsSymValue terms.old) }
    requires alike { is_some a ≡ is_some b }
    ensures made { IfOk result (λ r. IfSome r (IsSymValue terms.new)) }
    ensures alike { IfOk result (λ r. is_some r ≡ is_some b) }
    ensures stands { IfOk result (λ r. (s : Reading) → option_map (value_at s terms.new) r ≡ cond (bit_at s.v terms.old c) (option_map (value_at s terms.old) a) (option_map (value_at s terms.old) b)) }
    ensures kept { Keeps terms.old terms.new }
{
    match (a, b) {
        (Some(a), Some(b)) => {
            let value = pick_value(terms, c, a, b)?;
            Ok(Some(value))
        }
        _ => Ok(None),
    }
}

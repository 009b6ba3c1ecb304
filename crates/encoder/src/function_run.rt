//! The run of a function on every input and tape.

ghost use Rattle.std.specs.Prelude.{◌≡◌, ◌&&◌, ◌||◌, ℕ, IfOk, IfSome, None, Some, is_some, map, nat_eq, nat_lt, replicate};
ghost use Rattle.points.specs.declared.point.Bounds.{Bounds};
ghost use Rattle.points.specs.Run.{Run, run_of};
ghost use Rattle.unroll.specs.Layers.{copies_of};
ghost use Rattle.bv_terms.specs.Trees.{IsTerm, Keeps, Tests, bit_at, term_at};
ghost use Rattle.mem_terms.specs.Values.{IsSymValue, reading};
ghost use Rattle.mem_terms.specs.Memory.{AreGivenBlocks, frame_of, frames_of};
ghost use Rattle.mem_terms.specs.Inputs.{AreWords, IsInput, input_at, words_at};
ghost use Rattle.mem_terms.specs.Outcomes.{IsOutcome, LeavesGiven, Shows};
ghost use Rattle.run_terms.specs.Runs.{Scene, Sees, sight, zeros_past};
ghost use Rattle.run_terms.specs.Frontier.{EndedSo, HasShape, IsEnding, IsFrontier, NotEnded, MatchesFrontier, ending_shape, first_place, placed};
ghost use Rattle.ir_tree.specs.Limits.{CanRun};

use crate::beginning::begin;
use crate::passing::pass_all;
use bv_terms::{TermId, Terms};
use ir_tree::{Function, IrType};
use mem_terms::{
    InputTerms, OutcomeTerms, SymValue, TapeTerms, both, either, equals, less, number,
    poison_value, truth,
};
use points::Layout;
use run_terms::{Ending, Frontier, Leaving, RunMemory, RunState, Setting, Tally, follow};
use std::alloc::Global;
use support::{NoMemory, Sequence};
use unroll::{Edge, Layered};

/// Nothing is known of this number of copies.
fn nothing_known(alloc: Global, copies: usize) -> Result<Sequence<Option<RunState>>, NoMemory>
    ensures { IfOk result (λ ahead. ahead ≡ replicate copies None) }
{
    let mut ahead = Vec::new(alloc);
    for _ in 0..copies {
        ahead.push(None)?;
    }
    Ok(Sequence::from_vec(ahead))
}

/// The placeholder for the value of a return before there was one.
fn no_value(terms: &mut Terms, returns: Option<IrType>) -> Result<Option<SymValue>, NoMemory>
    ensures made { IfOk result (λ value. IfSome value (IsSymValue terms.new)) }
    ensures alike { IfOk result (λ value. is_some value ≡ is_some returns) }
    ensures kept { Keeps terms.old terms.new }
{
    match returns {
        Some(_) => {
            let value = poison_value(terms)?;
            Ok(Some(value))
        }
        None => Ok(None),
    }
}

/// A run that has not ended, with this memory at its beginning.
fn no_end(setting: Setting, terms: &mut Terms, memory: &RunMemory) -> Result<Ending, NoMemory>
    requires { AreGivenBlocks (frames_of setting.layout.now) terms.old memory.now.blocks }
    ensures made { IfOk result (IsEnding terms.new) }
    ensures shape { IfOk result (λ e. ending_shape e ≡ record { valued = is_some setting.entry.f.now.returns; frames = frames_of setting.entry.layout.now }) }
    ensures stands { IfOk result (λ e. (g : Scene) → NotEnded g terms.new e) }
    ensures kept { Keeps terms.old terms.new }
{
    let value = no_value(terms, setting.f.returns)?;
    let read = number(terms, 0)?;
    let never = truth(terms, false)?;
    let blocks = memory.copy(setting.alloc)?.blocks;
    Ok(Ending {
        ub: never,
        beyond: never,
        value,
        blocks,
        tally: Tally { read, fits: never },
        returned: None,
    })
}

/// Before the first copy nothing is known of any.
fn unknown(setting: Setting, terms: &mut Terms, memory: &RunMemory) -> Result<Frontier, NoMemory>
    requires { AreGivenBlocks (frames_of setting.layout.now) terms.old memory.now.blocks }
    ensures made { IfOk result (IsFrontier terms.new) }
    ensures shape { IfOk result (HasShape setting.entry) }
    ensures stands { IfOk result (λ w. (g : Scene) → MatchesFrontier g terms.new w None) }
    ensures kept { Keeps terms.old terms.new }
{
    let ahead = nothing_known(setting.alloc, setting.copies.len())?;
    let ending = no_end(setting, terms, memory)?;
    Ok(Frontier { ahead, ending })
}

/// The run comes to its first copy, or breaks `noundef` before.
fn enter(setting: Setting, terms: &mut Terms, input: &InputTerms) -> Result<Frontier, NoMemory>
    requires input { IsInput setting.f.now.parameters setting.layout.now terms.old input.now }
    ensures made { IfOk result (IsFrontier terms.new) }
    ensures shape { IfOk result (HasShape setting.entry) }
    ensures stands { IfOk result (λ w. (g : Scene) → g.given ≡ setting.entry.layout.now.blocks
        → MatchesFrontier g terms.new w (Some (placed setting.entry.f.now setting.entry.copies.now 0 (first_place setting.entry.f.now (input_at (sight g) terms.old input.now))))) }
    ensures kept { Keeps terms.old terms.new }
{
    let start = begin(setting.alloc, terms, setting.f, input, setting.layout)?;
    let state = start.state;
    let mut frontier = unknown(setting, terms, &state.memory)?;
    let ending = &mut frontier.ending;
    ending.end_undefined(terms, start.undefined, state.tally)?;
    let leaving = Leaving {
        label: 0,
        ahead: 0,
        c: state.alive,
        path: state.path.as_slice(),
        state: &state,
    };
    follow(setting, terms, &mut frontier, leaving, Edge::Copy(0))?;
    Ok(frontier)
}

/// The same with one more word: it was read, or is 0.
fn zero_past(
    terms: &mut Terms,
    all: TermId,
    place: usize,
    word: TermId,
    read: TermId,
) -> Result<TermId, NoMemory>
    requires all { IsTerm terms.old 1 all }
    requires word { IsTerm terms.old 64 word }
    requires read { IsTerm terms.old 64 read }
    ensures made { IfOk result (λ id. Tests terms.new id (λ v. bit_at v terms.old all && (nat_lt place (term_at v terms.old read) || nat_eq (term_at v terms.old word) 0))) }
    ensures kept { Keeps terms.old terms.new }
{
    let at = number(terms, place as u64)?;
    let zero = number(terms, 0)?;
    let was_read = less(terms, at, read)?;
    let is_zero = equals(terms, word, zero)?;
    let fine = either(terms, was_read, is_zero)?;
    both(terms, all, fine)
}

/// True where each word that wasn't read is 0.
fn zeros(terms: &mut Terms, tape: &[TermId], read: TermId) -> Result<TermId, NoMemory>
    requires tape { AreWords terms.old tape.now }
    requires read { IsTerm terms.old 64 read }
    ensures made { IfOk result (λ id. Tests terms.new id (λ v. zeros_past (term_at v terms.old read) 0 (words_at v terms.old tape.now))) }
    ensures kept { Keeps terms.old terms.new }
{
    let mut all = truth(terms, true)?;
    for (i, word) in tape.iter().enumerate() {
        all = zero_past(terms, all, i, *word, read)?;
    }
    Ok(all)
}

/// The outcome, once the run is over.
fn finish(terms: &mut Terms, ending: Ending, tape: &[TermId]) -> Result<OutcomeTerms, NoMemory>
    requires ending { IsEnding terms.old ending }
    requires tape { AreWords terms.old tape.now }
    ensures made { IfOk result (IsOutcome terms.new) }
    ensures given { IfOk result (LeavesGiven (map frame_of ending.blocks)) }
    ensures valued { IfOk result (λ o. is_some o.value ≡ is_some ending.value) }
    ensures stands { IfOk result (λ o. (g : Scene) (run : Run) → Sees g terms.old tape.now → EndedSo g terms.old ending run → Shows (sight g) terms.new g.tape run o) }
    ensures kept { Keeps terms.old terms.new }
{
    let rest = zeros(terms, tape, ending.tally.read)?;
    let plain = both(terms, ending.tally.fits, rest)?;
    Ok(OutcomeTerms {
        ub: ending.ub,
        beyond: ending.beyond,
        value: ending.value,
        blocks: ending.blocks,
        read: ending.tally.read,
        plain,
    })
}

/// The run of a function on an input and a tape, as terms over the copies of its blocks: under every
/// assignment of the variables they show the run on what the input and the tape are under it, within
/// as many backward jumps as the layers have. The only error is out of memory.
pub fn encode(
    alloc: Global,
    f: &Function,
    layered: &Layered,
    layout: &Layout,
    input: &InputTerms,
    tape: &TapeTerms,
    terms: &mut Terms,
) -> Result<OutcomeTerms, NoMemory>
    requires layers { layered.now.copies ≡ copies_of layered.now.turns f.now }
    requires run { CanRun f.now }
    requires input { IsInput f.now.parameters layout.now terms.old input.now }
    requires tape { AreWords terms.old tape.now.words }
    ensures made { IfOk result (IsOutcome terms.new) }
    ensures given { IfOk result (LeavesGiven (frames_of layout.now)) }
    ensures valued { IfOk result (λ o. is_some o.value ≡ is_some f.now.returns) }
    ensures stands { IfOk result (λ o. (bounds : Bounds) (v : ℕ → ℕ → ℕ) → bounds.turns ≡ layered.now.turns → Shows (reading layout.now.blocks v) terms.new (words_at v terms.old tape.now.words)
        (run_of f.now bounds (input_at (reading layout.now.blocks v) terms.old input.now) (words_at v terms.old tape.now.words)) o) }
    ensures kept { Keeps terms.old terms.new }
{
    let words = tape.words.as_slice();
    let setting = Setting {
        alloc,
        f,
        copies: &layered.copies,
        tape: words,
        layout,
    };
    let mut frontier = enter(setting, terms, input)?;
    pass_all(setting, terms, &mut frontier)?;
    let Frontier { ending, .. } = frontier;
    let outcome = finish(terms, ending, words)?;
    Ok(outcome)
}

//! Where a run is between two copies.

ghost use Rattle.std.specs.Prelude.{◌≡◌, ◌<◌, true, false, ℕ, IfOk, OnOk, None, Some, Option, length, slice_get, slice_set};
ghost use Rattle.points.specs.Run.{entered};
ghost use Rattle.run_terms.specs.Common.{Machine, Where, At, Keeps, IsTerm, bit_at, IsState, LeadsBy, MatchesState, Scene, shape_of, visit_of, AreStates, HaveShape, IsFrontier, MatchesAhead, Simulates};

use crate::ending::Ending;
use crate::joining::join;
use crate::paths::{Test, copy_path};
use crate::phis::registers_after;
use crate::state::RunState;
use bv_terms::{TermId, Terms};
use ir_tree::Block;
use std::alloc::Global;
use support::{NoMemory, Sequence};

/// What is known of the copies ahead, by their numbers, and of how the run ended. Of a copy to which
/// no edge came nothing is known; the state at another one's entry is that after its phis.
#[derive(Drop)]
pub struct Frontier {
    pub ahead: Sequence<Option<RunState>>,
    pub ending: Ending,
}

/// A run that leaves a block where a condition holds: the label of the block, the number of the first
/// copy ahead of it, tests that hold where the condition does, and the state that the run is in.
#[derive(Clone, Copy)]
pub struct Leaving<'a> {
    pub label: usize,
    pub ahead: usize,
    pub c: TermId,
    pub path: &'a [Test],
    pub state: &'a RunState,
}

/// Takes what is known of the entry of a copy out of the list.
pub fn take_entry(ahead: &mut Sequence<Option<RunState>>, n: usize) -> Option<RunState>
    requires { n < length ahead.old }
    ensures value { slice_get ahead.old n ≡ Some result }
    ensures rest { ahead.new ≡ slice_set ahead.old n None }
{
    ahead.get_mut(n).take()
}

/// An edge to the entry of a copy, with the state on it.
fn reach(
    alloc: Global,
    terms: &mut Terms,
    ahead: &mut Sequence<Option<RunState>>,
    n: usize,
    edge: RunState,
) -> Result<(), NoMemory>
    requires n { n < length ahead.old }
    requires ahead { AreStates terms.old ahead.old }
    requires shapes { HaveShape (shape_of edge) ahead.old }
    requires edge { IsState terms.old edge }
    ensures ahead { OnOk result (AreStates terms.new ahead.new) }
    ensures shapes { OnOk result (HaveShape (shape_of edge) ahead.new) }
    ensures count { OnOk result (length ahead.new ≡ length ahead.old) }
    ensures stays { OnOk result ((g : Scene) (at : Option Where) → bit_at g.v terms.old edge.alive ≡ false → MatchesAhead g terms.old ahead.old at → MatchesAhead g terms.new ahead.new at) }
    ensures goes { OnOk result ((g : Scene) (m : Machine) → bit_at g.v terms.old edge.alive ≡ true → MatchesState g terms.old (visit_of m) edge m → MatchesAhead g terms.old ahead.old None → MatchesAhead g terms.new ahead.new (Some (At n m))) }
    ensures kept { Keeps terms.old terms.new }
{
    match take_entry(ahead, n) {
        Some(known) => {
            let entry = join(alloc, terms, &edge, &known)?;
            ahead.set(n, Some(entry));
            Ok(())
        }
        None => {
            ahead.set(n, Some(edge));
            Ok(())
        }
    }
}

/// The state on an edge from the block with this label, which is taken where the condition holds, by
/// this path, after the phis of the block that it leads to.
fn state_on_edge(
    alloc: Global,
    terms: &mut Terms,
    c: TermId,
    path: &[Test],
    label: usize,
    state: &RunState,
    block: &Block,
) -> Result<RunState, NoMemory>
    requires c { IsTerm terms.old 1 c }
    requires path { LeadsBy terms.old c path.now }
    requires state { IsState terms.old state.now }
    ensures made { IfOk result (IsState terms.new) }
    ensures shape { IfOk result (λ edge. shape_of edge ≡ shape_of state.now) }
    ensures alive { IfOk result (λ edge. edge.alive ≡ c) }
    ensures stands { IfOk result (λ edge. (g : Scene) (m : Machine) (from to : ℕ) → MatchesState g terms.old (record { label = label; turn = from }) state.now m
        → MatchesState g terms.new (record { label = block.now.label; turn = to }) edge (entered block.now (record m { turn = to }))) }
    ensures kept { Keeps terms.old terms.new }
{
    let registers = registers_after(
        alloc,
        terms,
        state.registers.as_slice(),
        label,
        block.phis.as_slice(),
    )?;
    let path = copy_path(alloc, path)?;
    let memory = state.memory.copy(alloc)?;
    Ok(RunState {
        alive: c,
        path,
        registers,
        memory,
        tally: state.tally,
        words_bound: state.words_bound,
    })
}

impl Frontier {
    /// Where the leaving run's condition holds, it comes to the entry of a copy of a block.
    pub fn arrive(
        &mut self,
        alloc: Global,
        terms: &mut Terms,
        leaving: Leaving,
        n: usize,
        block: &Block,
    ) -> Result<(), NoMemory>
        requires own { IsFrontier terms.old self.old }
        requires shapes { HaveShape (shape_of leaving.state.now) self.old.ahead }
        requires n { n < length self.old.ahead }
        requires c { IsTerm terms.old 1 leaving.c }
        requires path { LeadsBy terms.old leaving.c leaving.path.now }
        requires state { IsState terms.old leaving.state.now }
        ensures own { OnOk result (IsFrontier terms.new self.new) }
        ensures shapes { OnOk result (HaveShape (shape_of leaving.entry.state.now) self.new.ahead) }
        ensures count { OnOk result (length self.new.ahead ≡ length self.old.ahead) }
        ensures ending { OnOk result (self.new.ending ≡ self.old.ending) }
        ensures simulates { OnOk result ((g : Scene) (from to : ℕ)
            → Simulates g terms.old terms.new self.old self.new (bit_at g.v terms.old leaving.entry.c) (record { label = leaving.entry.label; turn = from }) leaving.entry.state.now (λ m. At n (entered block.now (record m { turn = to })))) }
        ensures kept { Keeps terms.old terms.new }
    {
        let edge = state_on_edge(
            alloc,
            terms,
            leaving.c,
            leaving.path,
            leaving.label,
            leaving.state,
            block,
        )?;
        reach(alloc, terms, &mut self.ahead, n, edge)?;
        Ok(())
    }
}

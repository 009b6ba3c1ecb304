//! Where several edges come to one copy of a block.

ghost use Rattle.std.specs.Prelude.{◌≡◌, ◌++◌, ◌||◌, true, false, ℕ, List, IfOk, length, cond};
ghost use Rattle.run_terms.specs.Common.{Machine, Keeps, IsTerm, Tests, bit_at, AreSymValues, Reading, values_at, memory_at, Counts, IsRunMemory, IsState, IsTally, MatchesState, Scene, Visit, frames_in, shape_of};

use crate::paths::{choice_by_path, common};
use crate::state::{RunMemory, RunState, Tally};
use access_terms::pick_memory;
use bv_terms::{TermId, Terms};
use mem_terms::{SymBlock, SymValue, either, pick, pick_given, pick_value};
use std::alloc::Global;
use support::{NoMemory, Sequence};

/// The first registers where the condition is true, else the others.
fn pick_registers(
    alloc: Global,
    terms: &mut Terms,
    c: TermId,
    a: &[SymValue],
    b: &[SymValue],
) -> Result<Sequence<SymValue>, NoMemory>
    requires c { IsTerm terms.old 1 c }
    requires a { AreSymValues terms.old a.now }
    requires b { AreSymValues terms.old b.now }
    requires count { length b.now ≡ length a.now }
    ensures made { IfOk result (AreSymValues terms.new) }
    ensures count { IfOk result (λ r. length r ≡ length a.now) }
    ensures stands { IfOk result (λ r. (s : Reading) → values_at s terms.new r ≡ cond (bit_at s.v terms.old c) (values_at s terms.old a.now) (values_at s terms.old b.now)) }
    ensures kept { Keeps terms.old terms.new }
{
    let mut picked = Vec::new(alloc);
    for (i, value) in a.iter().enumerate() {
        let one = pick_value(terms, c, *value, b[i])?;
        picked.push(one)?;
    }
    Ok(Sequence::from_vec(picked))
}

/// The first choices where the condition is true, else the others.
pub fn pick_tally(terms: &mut Terms, c: TermId, a: Tally, b: Tally) -> Result<Tally, NoMemory>
    requires c { IsTerm terms.old 1 c }
    requires a { IsTally terms.old a }
    requires b { IsTally terms.old b }
    ensures made { IfOk result (IsTally terms.new) }
    ensures goes { IfOk result (λ t. (g : Scene) (made : List ℕ) → bit_at g.v terms.old c ≡ true → Counts g terms.old a made → Counts g terms.new t made) }
    ensures stays { IfOk result (λ t. (g : Scene) (made : List ℕ) → bit_at g.v terms.old c ≡ false → Counts g terms.old b made → Counts g terms.new t made) }
    ensures kept { Keeps terms.old terms.new }
{
    let read = pick(terms, c, a.read, b.read)?;
    let fits = pick(terms, c, a.fits, b.fits)?;
    Ok(Tally { read, fits })
}

/// The blocks of the first and then of the second list.
fn joined(
    first: Sequence<SymBlock>,
    second: Sequence<SymBlock>,
) -> Result<Sequence<SymBlock>, NoMemory>
    ensures { IfOk result (λ blocks. blocks ≡ first ++ second) }
{
    let mut blocks = first;
    for block in second.into_vec() {
        blocks.push(block)?;
    }
    Ok(blocks)
}

/// The first memory where the condition is true, else the second.
fn pick_blocks(
    alloc: Global,
    terms: &mut Terms,
    c: TermId,
    a: &RunMemory,
    b: &RunMemory,
) -> Result<RunMemory, NoMemory>
    requires c { IsTerm terms.old 1 c }
    requires a { IsRunMemory terms.old a.now }
    requires b { IsRunMemory terms.old b.now }
    requires frames { frames_in b.now ≡ frames_in a.now }
    ensures made { IfOk result (IsRunMemory terms.new) }
    ensures given { IfOk result (λ m. m.given ≡ a.now.given) }
    ensures frames { IfOk result (λ m. frames_in m ≡ frames_in a.now) }
    ensures stands { IfOk result (λ m. (r : Reading) → memory_at r terms.new m.blocks ≡ cond (bit_at r.v terms.old c) (memory_at r terms.old a.now.blocks) (memory_at r terms.old b.now.blocks)) }
    ensures kept { Keeps terms.old terms.new }
{
    let (given_a, own_a) = a.blocks.as_slice().split_at(a.given);
    let (given_b, own_b) = b.blocks.as_slice().split_at(a.given);
    let given = pick_given(alloc, terms, c, given_a, given_b)?;
    let own = pick_memory(alloc, terms, c, own_a, own_b)?;
    let blocks = joined(given, own)?;
    Ok(RunMemory {
        blocks,
        given: a.given,
    })
}

/// The entry of a copy with one more edge: where the edge is taken it is the state on it, else the
/// one that was known before. Which of them it is depends on the test that separates their paths.
pub fn join(
    alloc: Global,
    terms: &mut Terms,
    edge: &RunState,
    into: &RunState,
) -> Result<RunState, NoMemory>
    requires edge { IsState terms.old edge.now }
    requires into { IsState terms.old into.now }
    requires shape { shape_of into.now ≡ shape_of edge.now }
    ensures made { IfOk result (IsState terms.new) }
    ensures shape { IfOk result (λ r. shape_of r ≡ shape_of edge.now) }
    ensures alive { IfOk result (λ r. Tests terms.new r.alive (λ v. bit_at v terms.old into.now.alive || bit_at v terms.old edge.now.alive)) }
    ensures stays { IfOk result (λ r. (g : Scene) (at : Visit) (m : Machine) → bit_at g.v terms.old edge.now.alive ≡ false → bit_at g.v terms.old into.now.alive ≡ true → MatchesState g terms.old at into.now m → MatchesState g terms.new at r m) }
    ensures goes { IfOk result (λ r. (g : Scene) (at : Visit) (m : Machine) → bit_at g.v terms.old edge.now.alive ≡ true → MatchesState g terms.old at edge.now m → MatchesState g terms.new at r m) }
    ensures kept { Keeps terms.old terms.new }
{
    let alive = either(terms, into.alive, edge.alive)?;
    let taken = edge.path.as_slice();
    let known = into.path.as_slice();
    let path = common(alloc, taken, known)?;
    let by = choice_by_path(terms, edge.alive, taken, known)?;
    let tally = pick_tally(terms, by, edge.tally, into.tally)?;
    let registers = pick_registers(
        alloc,
        terms,
        by,
        edge.registers.as_slice(),
        into.registers.as_slice(),
    )?;
    let memory = pick_blocks(alloc, terms, by, &edge.memory, &into.memory)?;
    let words_bound = edge.words_bound.max(into.words_bound);
    Ok(RunState {
        alive,
        path,
        registers,
        memory,
        tally,
        words_bound,
    })
}

//! Where the edges of a copy lead.

ghost use Rattle.std.specs.Prelude.{◌≡◌, ◌≤◌, ◌<◌, ℕ, IfOk, OnOk, IfSome, None, Some, length, slice_get, slice_index_or};
ghost use Rattle.ir_tree.specs.declared.tree.Block.{Block};
ghost use Rattle.points.specs.declared.outcome.Outcome.TheVariants as outcome;
ghost use Rattle.points.specs.Run.{entered};
ghost use Rattle.run_terms.specs.Common.{Machine, ended, At, Done, along, Keeps, Everywhere, IsLeaving, Leaves, placed};

use crate::frontier::{Frontier, Leaving};
use crate::setting::Setting;
use bv_terms::Terms;
use support::NoMemory;
use unroll::Edge;

/// The edge at an index, and nowhere where there is none.
pub fn edge_at(edges: &[Edge], place: usize) -> Edge
    ensures { result ≡ slice_index_or edges.now place Edge.Nowhere }
{
    edges.get(place).copied().unwrap_or(Edge::Nowhere)
}

/// The index of the block of a copy that is ahead, from this number on.
fn block_ahead(setting: Setting, ahead: usize, n: usize) -> Option<usize>
    ensures some { IfSome result (λ at. at < length setting.entry.f.now.blocks) }
    ensures copy { IfSome result (λ at. n < length setting.entry.copies.now) }
    ensures goes { IfSome result (λ at. (block : Block) → slice_get setting.entry.f.now.blocks at ≡ Some block
        → (turn : ℕ) × ((m : Machine) → placed setting.entry.f.now setting.entry.copies.now ahead (At n m) ≡ At n (entered block (record m { turn = turn })))) }
    ensures none { result ≡ None → (m : Machine) → placed setting.entry.f.now setting.entry.copies.now ahead (At n m) ≡ Done (ended outcome.Ub m) }
{
    if n < ahead {
        return None;
    }
    if setting.copies.len() <= n {
        return None;
    }
    let copy = setting.copies.get(n);
    if copy.block < setting.f.blocks.len() {
        Some(copy.block)
    } else {
        None
    }
}

/// The run leaves its block for the copy of this number.
fn follow_to(
    setting: Setting,
    terms: &mut Terms,
    frontier: &mut Frontier,
    leaving: Leaving,
    n: usize,
) -> Result<(), NoMemory>
    requires { IsLeaving setting terms.old frontier.old leaving }
    ensures leaves { OnOk result (Leaves Everywhere setting.entry leaving.entry terms.old terms.new frontier.old frontier.new (λ g m. At n m)) }
    ensures kept { Keeps terms.old terms.new }
{
    match block_ahead(setting, leaving.ahead, n) {
        Some(at) => {
            let block = setting.f.blocks.get(at);
            frontier.arrive(setting.alloc, terms, leaving, n, block)?;
            Ok(())
        }
        None => {
            let ending = &mut frontier.ending;
            ending.end_undefined(terms, leaving.c, leaving.state.tally)?;
            Ok(())
        }
    }
}

/// The run leaves its block by this edge.
pub fn follow(
    setting: Setting,
    terms: &mut Terms,
    frontier: &mut Frontier,
    leaving: Leaving,
    edge: Edge,
) -> Result<(), NoMemory>
    requires { IsLeaving setting terms.old frontier.old leaving }
    ensures leaves { OnOk result (Leaves Everywhere setting.entry leaving.entry terms.old terms.new frontier.old frontier.new (λ g m. along edge m)) }
    ensures kept { Keeps terms.old terms.new }
{
    match edge {
        Edge::Copy(n) => follow_to(setting, terms, frontier, leaving, n),
        Edge::Beyond => {
            let ending = &mut frontier.ending;
            ending.end_beyond(terms, leaving.c, leaving.state.tally)?;
            Ok(())
        }
        Edge::Nowhere => {
            let ending = &mut frontier.ending;
            ending.end_undefined(terms, leaving.c, leaving.state.tally)?;
            Ok(())
        }
    }
}

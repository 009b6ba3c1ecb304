ghost use Rattle.std.specs.Prelude.{◌≡◌, ◌<◌, ◌≤◌, ◌+◌, ◌*◌, ◌++◌, ◌^◌, map, length, IfOk, OnOk};
ghost use Rattle.unroll.specs.Layers.{AreForward, edge_to, layer_of, layers_of, copies_of, HasRuns};

use crate::layered::{BlockCopy, Edge, Layered};
use ir_tree::{Function, successors};
use std::alloc::Global;
use support::{NoMemory, Sequence};

/// The copies that are made together: of this number of blocks, for one count of backward jumps,
/// which is 0 up to the bound.
#[derive(Clone, Copy)]
struct Layer {
    /// The bound.
    turns: u64,
    blocks: usize,
    /// The count.
    turn: u64,
}

/// Where a jump leads from the block at an index to the one at another.
fn edge(layer: Layer, at: usize, to: usize) -> Edge
    requires turn { layer.turn ≤ layer.turns }
    requires room { (layer.turns + 1) * layer.blocks < 2 ^ 64 }
    ensures { result ≡ edge_to layer.turns layer.blocks layer.turn at to }
{
    if layer.blocks <= to {
        Edge::Nowhere
    } else if at < to {
        Edge::Copy(layer.turn as usize * layer.blocks + to)
    } else if layer.turn < layer.turns {
        Edge::Copy((layer.turn as usize + 1) * layer.blocks + to)
    } else {
        Edge::Beyond
    }
}

fn edges(alloc: Global, layer: Layer, at: usize, places: &[usize]) -> Result<Vec<Edge>, NoMemory>
    requires turn { layer.turn ≤ layer.turns }
    requires room { (layer.turns + 1) * layer.blocks < 2 ^ 64 }
    ensures { IfOk result (λ edges. edges.items ≡ map (edge_to layer.turns layer.blocks layer.turn at) places.now) }
{
    let mut edges = Vec::new(alloc);
    for to in places {
        edges.push(edge(layer, at, *to))?;
    }
    Ok(edges)
}

/// Appends the copies of all blocks for one count of backward jumps.
fn push_layer(
    alloc: Global,
    copies: &mut Vec<BlockCopy>,
    layer: Layer,
    graph: &[Sequence<usize>],
) -> Result<(), NoMemory>
    requires turn { layer.turn ≤ layer.turns }
    requires room { (layer.turns + 1) * layer.blocks < 2 ^ 64 }
    ensures { OnOk result (copies.new.items ≡ copies.old.items ++ layer_of layer.turns layer.blocks layer.turn 0 graph.now) }
{
    for (at, places) in graph.iter().enumerate() {
        copies.push(BlockCopy {
            turn: layer.turn,
            block: at,
            edges: Sequence::from_vec(edges(alloc, layer, at, places.as_slice())?),
        })?;
    }
    Ok(())
}

/// How many counts of backward jumps there are. It fails where there are more copies of this number
/// of blocks than can be numbered.
fn count_of(turns: u64, blocks: usize) -> Result<u64, NoMemory>
    ensures count { IfOk result (λ count. count ≡ turns + 1) }
    ensures room { OnOk result ((turns + 1) * blocks < 2 ^ 64) }
{
    let count = turns.checked_add(1).ok_or(NoMemory)?;
    count.checked_mul(blocks as u64).ok_or(NoMemory)?;
    Ok(count)
}

/// The copies of blocks that lead to these indices.
fn copies_for(
    alloc: Global,
    turns: u64,
    graph: &[Sequence<usize>],
) -> Result<Vec<BlockCopy>, NoMemory>
    ensures { IfOk result (λ copies. copies.items ≡ layers_of turns (length graph.now) graph.now 0 (turns + 1)) }
{
    let mut copies = Vec::new(alloc);
    let blocks = graph.len();
    if blocks == 0 {
        return Ok(copies);
    }
    let count = count_of(turns, blocks)?;
    for turn in 0..count {
        let layer = Layer {
            turns,
            blocks,
            turn,
        };
        push_layer(alloc, &mut copies, layer, graph)?;
    }
    Ok(copies)
}

/// The blocks of a function copied for each count of backward jumps of 0 up to `turns`, all blocks
/// in text order each time. A jump to a block that comes later keeps the count; one to the same or
/// an earlier block leads to the next count, and from the last one it is a jump too many. So each
/// edge leads to a later copy, and a run through the copies, each once and in order, is the run of
/// the function. The only error is out of memory, also where there are more copies than a `usize`
/// can number.
pub fn layers(alloc: Global, f: &Function, turns: u64) -> Result<Layered, NoMemory>
    ensures turns { IfOk result (λ layered. layered.turns ≡ turns) }
    ensures copies { IfOk result (λ layered. layered.copies ≡ copies_of turns f.now) }
    ensures forward { IfOk result (λ layered. AreForward 0 (length layered.copies) layered.copies) }
    ensures runs { IfOk result (HasRuns turns f.now) }
{
    let graph = successors(alloc, f)?;
    let copies = copies_for(alloc, turns, graph.as_slice())?;
    Ok(Layered {
        turns,
        copies: Sequence::from_vec(copies),
    })
}

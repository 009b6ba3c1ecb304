// Where the blocks of a function lead, and what an instruction assigns.
ghost use Rattle.std.specs.Prelude.{◌≡◌, ◌∷◌, [], map, IfOk, MatchOption};
ghost use Rattle.ir_tree.specs.declared.tree.Case.{Case};
ghost use Rattle.ir_tree.specs.Flow.{targets, block_of, results_of, successors};
ghost use Rattle.ir_tree.specs.BlockIndexes.{IsIndex};

use crate::tree::{Case, Function, Inst, Terminator};
use indexmap::IndexMap;
use std::alloc::Global;
use std::marker::Model;
use support::{NoMemory, Sequence};

/// The labels, by their numbers, of the blocks that may run after a terminator, in text order. A
/// label occurs as often as the terminator names it.
pub fn targets_of(alloc: Global, terminator: &Terminator) -> Result<Sequence<usize>, NoMemory>
    ensures { IfOk result (λ list. list ≡ targets terminator.now) }
{
    let labels = match terminator {
        Terminator::Return(_) | Terminator::Unreachable => Vec::new(alloc),
        Terminator::Branch { to } => vec![in alloc; *to; 1]?,
        Terminator::CondBranch {
            condition: _,
            if_true,
            if_false,
        } => vec![in alloc; *if_true, *if_false]?,
        Terminator::Switch {
            width: _,
            operand: _,
            default,
            cases,
        } => switch_targets(alloc, *default, cases.as_slice())?,
    };
    Ok(Sequence::from_vec(labels))
}

fn switch_targets(alloc: Global, default: usize, cases: &[Case]) -> Result<Vec<usize>, NoMemory>
    ensures { IfOk result (λ list. list.items ≡ default ∷ map (λ (case : Case). case.to) cases.now) }
{
    let mut labels = vec![in alloc; default; 1]?;
    for case in cases {
        labels.push(case.to)?;
    }
    Ok(labels)
}

/// The indices of a function's blocks by their labels. Of blocks with the same label it has the
/// first's index. Contracts see its entries.
#[derive(Drop)]
pub struct BlockIndex {
    places: IndexMap<usize, usize>,
}

impl Model for BlockIndex {
    ghost use Rattle.std.specs.Prelude.{ℕ, List};

    ghost Value = { List (ℕ × ℕ) };

    ghost view = { λ index. index.places.entries };
}

impl BlockIndex {
    /// The indices of this function's blocks.
    pub fn of(alloc: Global, f: &Function) -> Result<BlockIndex, NoMemory>
        ensures { IfOk result (IsIndex f.now) }
    {
        let blocks = f.blocks.as_slice();
        let mut places = IndexMap::new(alloc);
        for place in (0..blocks.len()).rev() {
            places.insert(blocks[place].label, place)?;
        }
        Ok(BlockIndex { places })
    }

    /// The index of the block with this label, and the number of blocks where there is none, in the
    /// function that this `BlockIndex` is of.
    pub fn place(&self, f: &Function, label: usize) -> usize
        requires { IsIndex f.now self.now }
        ensures { result ≡ block_of f.now label }
    {
        match self.places.get(&label) {
            Some(place) => *place,
            None => f.blocks.len(),
        }
    }

    fn places(
        &self,
        alloc: Global,
        f: &Function,
        labels: &[usize],
    ) -> Result<Sequence<usize>, NoMemory>
        requires { IsIndex f.now self.now }
        ensures { IfOk result (λ places. places ≡ map (block_of f.now) labels.now) }
    {
        let mut places = Sequence::from_vec(Vec::new(alloc));
        for label in labels {
            places.push(self.place(f, *label))?;
        }
        Ok(places)
    }
}

/// For each block the indices of those that may run next, in the order of its terminator's labels;
/// the number of blocks denotes a label that no block has.
pub fn successors(alloc: Global, f: &Function) -> Result<Sequence<Sequence<usize>>, NoMemory>
    ensures { IfOk result (λ graph. graph ≡ successors f.now) }
{
    let index = BlockIndex::of(alloc, f)?;
    let mut graph = Sequence::from_vec(Vec::new(alloc));
    for block in f.blocks.as_slice() {
        let labels = targets_of(alloc, &block.terminator)?;
        graph.push(index.places(alloc, f, labels.as_slice())?)?;
    }
    Ok(graph)
}

/// The name that an instruction assigns; a store assigns none.
pub fn result_of(inst: &Inst) -> Option<usize>
    ensures { MatchOption result (results_of inst.now ≡ []) (λ into. results_of inst.now ≡ into ∷ []) }
{
    match inst {
        Inst::Binary { into, .. } => Some(*into),
        Inst::Icmp { into, .. } => Some(*into),
        Inst::Cast { into, .. } => Some(*into),
        Inst::Select { into, .. } => Some(*into),
        Inst::Freeze { into, .. } => Some(*into),
        Inst::Alloca { into, .. } => Some(*into),
        Inst::Load { into, .. } => Some(*into),
        Inst::Store { .. } => None,
        Inst::GetElementPtr { into, .. } => Some(*into),
    }
}

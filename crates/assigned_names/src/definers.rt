//! Where the names of a function are defined.

ghost use Rattle.std.specs.Prelude.{◌≡◌, ◌⊎◌, ◌<◌, ◌↔◌, ℕ, IsTrue, length, map, take, slice_get, Some};
ghost use Rattle.std.specs.List.{Contains};
ghost use Rattle.ir_tree.specs.declared.tree.Block.{Block};
ghost use Rattle.ir_tree.specs.declared.tree.Parameter.{Parameter as Argument};
ghost use Rattle.ir_tree.specs.declared.tree.Function.{Function};
ghost use Rattle.ir_tree.specs.Flow.{assigned_with, block_of};
ghost use Rattle.ir_tree.specs.Definitions.{HasFirsts};
ghost use Rattle.assigned_names.specs.Known.{AreKnown, IsBehind, IsDefiner, label_of};

use ir_tree::{Function, Part, SiteList};

/// The part that defines a name, if one does.
pub fn definer(list: &SiteList, firsts: &[Option<usize>], name: usize) -> Option<Part>
    requires firsts { HasFirsts list.now.all firsts.now }
    requires alike { length list.now.parts ≡ length list.now.all }
    requires within { name < length firsts.now }
    ensures { (f : Function) → AreKnown f list.now firsts.now → IsDefiner f name result }
{
    match firsts[name] {
        Some(site) => Some(*list.parts.get(site)),
        None => None,
    }
}

/// The number of the block with a label; where no block has it, the number of blocks.
pub fn block_of(f: &Function, list: &SiteList, firsts: &[Option<usize>], label: usize) -> usize
    requires known { AreKnown f.now list.now firsts.now }
    requires within { label < length firsts.now }
    ensures { result ≡ block_of f.now label }
{
    match definer(list, firsts, label) {
        Some(part) => block_of_part(f, part),
        None => f.blocks.len(),
    }
}

// The same by the part that defines the label.
fn block_of_part(f: &Function, part: Part) -> usize
    ensures { (label : ℕ) → IsDefiner f.now label (Some part) → result ≡ block_of f.now label }
{
    match label_of(part) {
        Some(block) => block,
        None => f.blocks.len(),
    }
}

// The number of the block that a part is the label of.
fn label_of(part: Part) -> Option<usize>
    ensures { result ≡ label_of part }
{
    match part {
        Part::Label { block } => Some(block),
        Part::Header | Part::Parameter => None,
        Part::Phi { .. } | Part::Inst { .. } | Part::End { .. } => None,
    }
}

/// Whether a name is a parameter, or is assigned by a block's phis or by the first `ran` of its
/// instructions.
pub fn is_assigned_in(
    list: &SiteList,
    firsts: &[Option<usize>],
    block: usize,
    ran: usize,
    name: usize,
) -> bool
    requires firsts { HasFirsts list.now.all firsts.now }
    requires alike { length list.now.parts ≡ length list.now.all }
    requires within { name < length firsts.now }
    ensures { (f : Function) (b : Block) → AreKnown f list.now firsts.now → slice_get f.blocks block ≡ Some b → IsTrue result ↔ (Contains (map (λ (p : Argument). p.name) f.parameters) name ⊎ Contains (assigned_with b (take ran b.insts)) name) }
{
    match definer(list, firsts, name) {
        Some(part) => is_behind(block, ran, part),
        None => false,
    }
}

// Whether what a part defines has its value in a block, after the first `ran` of its instructions.
fn is_behind(block: usize, ran: usize, part: Part) -> bool
    ensures { IsTrue result ↔ IsBehind block ran part }
{
    match part {
        Part::Parameter => true,
        Part::Phi { block: k, phi: _ } => k == block,
        Part::Inst { block: k, inst } => k == block && inst < ran,
        Part::Header | Part::Label { .. } | Part::End { .. } => false,
    }
}

//! What functions cost, and what a pair weighs.

ghost use Rattle.std.specs.Prelude.{◌≡◌, ◌≤◌, ◌+◌, ◌*◌, sum_by, length, All, IfOk};
ghost use Rattle.ir_tree.specs.declared.tree.Terminator.TheVariants.{Return};
ghost use Rattle.ir_tree.specs.Limits.{IsWithinLimits, instructions_of, HasFewCases, HasFewEntries, HasSmallTypes, HasSmallObjects};
ghost use Rattle.ir_tree.specs.Sites.{AreNumbered};
ghost use Rattle.lowering.specs.Lowered.{HasFewLeaves};
ghost use Rattle.pair_costs.specs.Small.{AreSmall};
ghost use Rattle.pair_costs.specs.Trees.{AreTrees};
ghost use Rattle.verdicts.specs.Weight.{inst_cost, phi_cost, sampling_cost, end_sampling_cost, block_cost, cost_of, weight_of};

use crate::costs::{cost, cost_of_end, cost_of_phi};
use crate::memory::memory_of;
use crate::trees::Trees;
use ir_tree::{Block, Function, Inst, Phi, Terminator, TypedOperand};
use points::Bounds;
use std::alloc::Global;
use support::NoMemory;
use verdicts::Pair;

/// What the tree costs that an instruction samples.
fn sampling_cost(inst: &Inst, trees: &Trees) -> u64
    requires { AreTrees trees.now }
    ensures value { result ≡ sampling_cost trees.now.f.now inst.now }
    ensures most { result ≤ 17180131328 }
{
    match inst {
        Inst::Freeze { operand, .. } => trees.cost(*operand),
        Inst::Binary { .. } | Inst::Icmp { .. } | Inst::Cast { .. } | Inst::Select { .. } => 0,
        Inst::Alloca { .. } | Inst::Load { .. } => 0,
        Inst::Store { .. } | Inst::GetElementPtr { .. } => 0,
    }
}

/// What the tree costs that a `ret` samples.
fn returned_cost(returned: Option<TypedOperand>, trees: &Trees) -> u64
    requires { AreTrees trees.now }
    ensures value { result ≡ end_sampling_cost trees.now.f.now (Return returned) }
    ensures most { result ≤ 17180131328 }
{
    match returned {
        Some(returned) => trees.cost(returned.operand),
        None => 0,
    }
}

/// What the tree costs that the end of a block samples.
fn end_sampling_cost(terminator: &Terminator, trees: &Trees) -> u64
    requires { AreTrees trees.now }
    ensures value { result ≡ end_sampling_cost trees.now.f.now terminator.now }
    ensures most { result ≤ 17180131328 }
{
    match terminator {
        Terminator::Return(returned) => returned_cost(*returned, trees),
        Terminator::Branch { .. } | Terminator::CondBranch { .. } => 0,
        Terminator::Switch { .. } | Terminator::Unreachable => 0,
    }
}

/// What these instructions cost, with the trees that they sample.
fn cost_of_insts(insts: &[Inst], memory: u64, trees: &Trees) -> u64
    requires few { length insts.now ≤ 65536 }
    requires types { All HasSmallTypes insts.now }
    requires memory { memory ≤ 272629888 }
    requires trees { AreTrees trees.now }
    ensures { result ≡ sum_by (λ i. inst_cost memory i + sampling_cost trees.now.f.now i) insts.now }
{
    let mut total = 0;
    for inst in insts {
        total += cost(inst, memory) + sampling_cost(inst, trees);
    }
    total
}

/// What these phis cost.
fn cost_of_phis(phis: &[Phi]) -> u64
    requires few { length phis.now ≤ 65536 }
    requires entries { All (λ phi. length phi.entries ≤ 16777216) phis.now }
    ensures { result ≡ sum_by phi_cost phis.now }
{
    let mut total = 0;
    for phi in phis {
        total += cost_of_phi(phi);
    }
    total
}

/// What a block costs with this many bytes of memory, with the trees that it samples.
fn cost_of_block(block: &Block, memory: u64, trees: &Trees) -> u64
    requires few { instructions_of block.now ≤ 65536 }
    requires cases { HasFewCases block.now }
    requires entries { HasFewEntries block.now }
    requires objects { HasSmallObjects block.now }
    requires memory { memory ≤ 272629888 }
    requires trees { AreTrees trees.now }
    ensures { result ≡ block_cost trees.now.f.now memory block.now }
{
    let insts = cost_of_insts(block.insts.as_slice(), memory, trees);
    let end = cost_of_end(&block.terminator) + end_sampling_cost(&block.terminator, trees);
    cost_of_phis(block.phis.as_slice()) + (insts + end)
}

/// What a function costs with this many bytes of memory.
fn cost_with(trees: &Trees, memory: u64) -> u64
    requires trees { AreTrees trees.now }
    requires memory { memory ≤ 272629888 }
    ensures value { result ≡ sum_by (block_cost trees.now.f.now memory) trees.now.f.now.blocks }
    ensures most { result ≤ 1268853669625856 }
{
    let mut total = 0;
    for block in trees.f.blocks.as_slice() {
        total += cost_of_block(block, memory, trees);
    }
    total
}

/// What a function costs within the bounds.
fn cost_within(alloc: Global, f: &Function, bounds: &Bounds) -> Result<u64, NoMemory>
    requires numbered { AreNumbered f.now }
    requires few { HasFewLeaves f.now }
    requires limits { IsWithinLimits f.now }
    requires small { AreSmall bounds.now }
    ensures value { IfOk result (λ cost. cost ≡ cost_of bounds.now f.now) }
    ensures most { IfOk result (λ cost. cost ≤ 1268853669625856) }
{
    let trees = Trees::new(alloc, f)?;
    Ok(cost_with(&trees, memory_of(f, bounds)))
}

/// The weight of a pair: what one pass over each block of both functions costs, for each count of
/// backward jumps. An operation costs its width in bits, or its square where it multiplies or
/// divides; a load or a store looks at each byte of the memory for each byte that it accesses. A
/// freeze or a return of a register that carries undef costs in addition what each operation costs
/// that the register is made by, as often as it is used, since each such use computes the register
/// anew (LLVM Language Reference, "Undefined Values").
///
/// # Errors
/// Out of memory.
pub fn weight(alloc: Global, pair: &Pair, bounds: &Bounds) -> Result<u64, NoMemory>
    requires source_numbered { AreNumbered pair.now.source }
    requires target_numbered { AreNumbered pair.now.target }
    requires source_leaves { HasFewLeaves pair.now.source }
    requires target_leaves { HasFewLeaves pair.now.target }
    requires source { IsWithinLimits pair.now.source }
    requires target { IsWithinLimits pair.now.target }
    requires small { AreSmall bounds.now }
    ensures value { IfOk result (λ weight. weight ≡ weight_of pair.now bounds.now) }
    ensures most { IfOk result (λ weight. weight ≤ 164950977051361280) }
{
    let source = cost_within(alloc, pair.source(), bounds)?;
    let target = cost_within(alloc, pair.target(), bounds)?;
    Ok((bounds.turns + 1) * (source + target))
}

//! How many bytes the memory of a run has.

ghost use Rattle.std.specs.Prelude.{◌≡◌, ◌≤◌, ◌+◌, ◌*◌, sum_by};
ghost use Rattle.ir_tree.specs.Limits.{IsWithinLimits, instructions_of, HasSmallTypes, HasSmallObjects};
ghost use Rattle.pair_costs.specs.Small.{AreSmall};
ghost use Rattle.verdicts.specs.Weight.{made_bytes, made_in, memory_bytes};

use ir_tree::{Block, Function, Inst, indexed_size};
use points::Bounds;

/// The bytes of the block that an instruction makes.
#[tactic(auto, using(crate::proofs::Sizes::small_object))]
fn made(inst: &Inst) -> u64
    requires { HasSmallTypes inst.now }
    ensures value { result ≡ made_bytes inst.now }
    ensures most { result ≤ 64 }
{
    match inst {
        Inst::Alloca { of_type, .. } => indexed_size(of_type, 0),
        Inst::Binary { .. } | Inst::Icmp { .. } | Inst::Cast { .. } | Inst::Select { .. } => 0,
        Inst::Freeze { .. } | Inst::Load { .. } => 0,
        Inst::Store { .. } | Inst::GetElementPtr { .. } => 0,
    }
}

/// The bytes of the blocks that a block's instructions make.
fn made_by_block(block: &Block) -> u64
    requires few { instructions_of block.now ≤ 65536 }
    requires objects { HasSmallObjects block.now }
    ensures { result ≡ made_in block.now }
{
    let mut total = 0;
    for inst in block.insts.as_slice() {
        total += made(inst);
    }
    total
}

/// The bytes of the blocks that a function's instructions make.
fn made_by(f: &Function) -> u64
    requires { IsWithinLimits f.now }
    ensures value { result ≡ sum_by made_in f.now.blocks }
    ensures most { result ≤ 4194304 }
{
    let mut total = 0;
    for block in f.blocks.as_slice() {
        total += made_by_block(block);
    }
    total
}

/// The bytes of the memory that a run within the bounds may have.
#[tactic(auto, using(crate::proofs::Sizes::small_given, crate::proofs::Sizes::small_made))]
pub fn memory_of(f: &Function, bounds: &Bounds) -> u64
    requires limits { IsWithinLimits f.now }
    requires small { AreSmall bounds.now }
    ensures value { result ≡ memory_bytes bounds.now f.now }
    ensures most { result ≤ 272629888 }
{
    bounds.blocks * bounds.bytes + (bounds.turns + 1) * made_by(f)
}

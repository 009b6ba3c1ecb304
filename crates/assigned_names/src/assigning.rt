//! What each block of a function assigns.

ghost use Rattle.std.specs.Prelude.{◌≡◌, ◌++◌, map, IfOk, OnOk};
ghost use Rattle.std.specs.List.{flat_map};
ghost use Rattle.ir_tree.specs.declared.tree.Phi.{Phi};
ghost use Rattle.ir_tree.specs.Flow.{assigned_with, assigns, results_of};

use ir_tree::{Block, Function, Inst, Phi, result_of};
use std::alloc::Global;
use support::{NoMemory, Sequence};

/// For each block the names that it assigns.
pub fn assigns_of(alloc: Global, f: &Function) -> Result<Sequence<Sequence<usize>>, NoMemory>
    ensures { IfOk result (λ lists. lists ≡ assigns f.now) }
{
    let mut lists = Sequence::from_vec(Vec::new(alloc));
    for block in f.blocks.as_slice() {
        lists.push(assigned_by(alloc, block)?)?;
    }
    Ok(lists)
}

fn assigned_by(alloc: Global, block: &Block) -> Result<Sequence<usize>, NoMemory>
    ensures { IfOk result (λ names. names ≡ assigned_with block.now block.now.insts) }
{
    let mut names = Sequence::from_vec(Vec::new(alloc));
    push_phis(&mut names, block.phis.as_slice())?;
    push_results(&mut names, block.insts.as_slice())?;
    Ok(names)
}

fn push_phis(names: &mut Sequence<usize>, phis: &[Phi]) -> Result<(), NoMemory>
    ensures { OnOk result (names.new ≡ names.old ++ map (λ (phi : Phi). phi.into) phis.now) }
{
    for phi in phis {
        names.push(phi.into)?;
    }
    Ok(())
}

fn push_results(names: &mut Sequence<usize>, insts: &[Inst]) -> Result<(), NoMemory>
    ensures { OnOk result (names.new ≡ names.old ++ flat_map results_of insts.now) }
{
    for inst in insts {
        if let Some(into) = result_of(inst) {
            names.push(into)?;
        }
    }
    Ok(())
}

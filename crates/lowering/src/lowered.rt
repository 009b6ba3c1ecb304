//! A function with its trees written out.

ghost use Rattle.std.specs.Prelude.{◌≡◌, IfOk};
ghost use Rattle.ir_tree.specs.Sites.{AreNumbered};
ghost use Rattle.lowering.specs.Lowered.{HasFewLeaves, IsLowered, lowered};
ghost use Rattle.lowering.specs.Plan.{IsPlan};

use crate::blocks::lowered_blocks;
use crate::copying::{copy_parameters, copy_places};
use crate::plan::{Plan, plan_of};
use crate::stack_names::lowered_names;
use ir_tree::{Function, copy_name};
use std::alloc::Global;
use support::NoMemory;

/// The function in which each use of a register that carries undef is written out; none where no register does, and
/// then the function is its own lowered one.
///
/// # Errors
/// Out of memory.
pub fn lower(alloc: Global, f: &Function) -> Result<Option<Function>, NoMemory>
    requires numbered { AreNumbered f.now }
    requires few { HasFewLeaves f.now }
    ensures { IfOk result (IsLowered f.now) }
{
    match plan_of(alloc, f)? {
        Some(plan) => Ok(Some(lowered_function(alloc, &plan)?)),
        None => Ok(None),
    }
}

fn lowered_function(alloc: Global, plan: &Plan) -> Result<Function, NoMemory>
    requires { IsPlan plan.now }
    ensures { IfOk result (λ g. g ≡ lowered plan.now.f.now) }
{
    let f = plan.f;
    Ok(Function {
        name: copy_name(alloc, &f.name)?,
        returns: f.returns,
        returns_no_undef: f.returns_no_undef,
        parameters: copy_parameters(alloc, &f.parameters)?,
        blocks: lowered_blocks(alloc, plan)?,
        names: lowered_names(alloc, plan)?,
        places: copy_places(alloc, &f.places)?,
    })
}

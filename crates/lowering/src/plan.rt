//! What the lowering of a function knows of it.

ghost use Rattle.std.specs.Prelude.{◌≡◌, ◌↔◌, ◌+◌, ◌≤◌, EachIndex, IfOk, IsTrue, slice_index};
ghost use Rattle.ir_tree.specs.declared.tree.Operand.TheVariants.{Local};
ghost use Rattle.ir_tree.specs.Carrying.{carries, leaf_count};
ghost use Rattle.ir_tree.specs.Sites.{AreNumbered};
ghost use Rattle.lowering.specs.Lowered.{HasFewLeaves, above, maker_of, placed, scratch};
ghost use Rattle.lowering.specs.Operations.{operation_of};
ghost use Rattle.lowering.specs.Plan.{IsPlan, IsPlanOf, typed_placed};

use crate::operations::{Operation, operations_of};
use ir_tree::{Function, Operand, TypedOperand};
use std::alloc::Global;
use support::NoMemory;
use undef_uses::leaf_counts;

/// A function, and for each of its names how many leaves it has and which operation makes it.
#[derive(Drop)]
pub struct Plan<'f> {
    pub f: &'f Function,
    pub counts: Vec<u8>,
    pub operations: Vec<Operation>,
}

impl<'f> Plan<'f> {
    /// How many leaves a name has.
    pub fn count(&self, name: usize) -> u8
        requires { IsPlan self.now }
        ensures { result ≡ leaf_count self.now.f.now (Local name) }
    {
        self.counts.get(name).copied().unwrap_or(0)
    }

    /// Whether an operand is undef, or carries it.
    pub fn carries(&self, operand: Operand) -> bool
        requires { IsPlan self.now }
        ensures { result ≡ carries self.now.f.now operand }
    {
        match operand {
            Operand::Local(name) => self.count(name) > 0,
            Operand::Undef => true,
            Operand::Number(_) | Operand::Null | Operand::Poison => false,
        }
    }

    /// The operation that makes a name.
    pub fn operation(&self, name: usize) -> Operation
        requires { IsPlan self.now }
        ensures { result ≡ operation_of (maker_of self.now.f.now name) }
    {
        self.operations
            .get(name)
            .copied()
            .unwrap_or(Operation::Other)
    }

    /// The register at a height.
    pub fn scratch(&self, height: usize) -> usize
        requires plan { IsPlan self.now }
        requires height { height ≤ 66 }
        ensures { result ≡ scratch self.now.f.now height }
    {
        self.operations.len() + height
    }

    /// Where an operand is once it is computed at a height.
    pub fn placed(&self, height: usize, operand: Operand) -> Operand
        requires plan { IsPlan self.now }
        requires height { height ≤ 66 }
        ensures { result ≡ placed self.now.f.now height operand }
    {
        if self.carries(operand) {
            Operand::Local(self.scratch(height))
        } else {
            operand
        }
    }

    /// The same of an operand with its type.
    pub fn typed_placed(&self, height: usize, typed: TypedOperand) -> TypedOperand
        requires plan { IsPlan self.now }
        requires height { height ≤ 66 }
        ensures { result ≡ typed_placed self.now.f.now height typed }
    {
        TypedOperand {
            of_type: typed.of_type,
            operand: self.placed(height, typed.operand),
        }
    }

    /// The height after an operand that is computed at a height.
    pub fn above(&self, height: usize, operand: Operand) -> usize
        requires plan { IsPlan self.now }
        requires height { height ≤ 66 }
        ensures value { result ≡ above self.now.f.now height operand }
        ensures most { result ≤ height + 1 }
    {
        if self.carries(operand) {
            height + 1
        } else {
            height
        }
    }
}

/// What is known of a function, if one of its names carries undef.
///
/// # Errors
/// Out of memory.
pub fn plan_of(alloc: Global, f: &Function) -> Result<Option<Plan<'_>>, NoMemory>
    requires numbered { AreNumbered f.now }
    requires few { HasFewLeaves f.now }
    ensures { IfOk result (IsPlanOf f.now) }
{
    let counts = leaf_counts(alloc, f)?;
    if are_zero(&counts) {
        return Ok(None);
    }
    let operations = operations_of(alloc, f)?;
    Ok(Some(Plan {
        f,
        counts,
        operations,
    }))
}

// Whether each count is 0.
fn are_zero(counts: &[u8]) -> bool
    ensures { IsTrue result ↔ EachIndex counts.now (λ k. slice_index counts.now k ≡ 0) }
{
    counts.iter().all(|count| *count == 0)
}

//! The instructions that compute an operand.

ghost use Rattle.std.specs.Prelude.{◌≡◌, ◌++◌, ◌∷◌, ◌≤◌, [], OnOk};
ghost use Rattle.lowering.specs.Lowered.{above, computed, placed};
ghost use Rattle.lowering.specs.Plan.{IsPlan};
ghost use Rattle.lowering.specs.Tasks.{operand_tasks, operation_tasks, pair_tasks};
ghost use Rattle.lowering.specs.declared.operations.Operation.TheVariants.{Select};
ghost use Rattle.lowering.specs.declared.computing.Task.TheVariants.{Compute, Emit};

use crate::operations::Operation;
use crate::plan::Plan;
use ir_tree::{Inst, IrType, Operand, TypedOperand, one_bit};
use std::alloc::Global;
use support::{NoMemory, Sequence};

/// What is still to be done for an operand.
///
/// The instructions of a function may all be one tree, as high as they are many. So a stack of tasks
/// takes the place of recursion.
#[derive(Drop)]
pub enum Task {
    /// Compute an operand of a type at a height.
    Compute {
        height: usize,
        of_type: IrType,
        operand: Operand,
    },
    /// Put an instruction after the others.
    Emit(Inst),
}

/// Appends the instructions that compute an operand of a type from the lowest register on.
pub fn push_computed(
    alloc: Global,
    plan: &Plan,
    insts: &mut Sequence<Inst>,
    of_type: IrType,
    operand: Operand,
) -> Result<(), NoMemory>
    requires { IsPlan plan.now }
    ensures { OnOk result (insts.new ≡ insts.old ++ computed plan.now.f.now 0 of_type operand) }
{
    let mut stack = Vec::new(alloc);
    push_compute(&mut stack, 0, of_type, operand)?;
    while let Some(task) = stack.pop() {
        match task {
            Task::Compute {
                height,
                of_type,
                operand,
            } => push_tasks(plan, &mut stack, height, of_type, operand)?,
            Task::Emit(inst) => insts.push(inst)?,
        }
    }
    Ok(())
}

// Puts what an operand is computed by on the stack.
fn push_tasks(
    plan: &Plan,
    stack: &mut Vec<Task>,
    height: usize,
    of_type: IrType,
    operand: Operand,
) -> Result<(), NoMemory>
    requires plan { IsPlan plan.now }
    requires height { height ≤ 64 }
    ensures { OnOk result (stack.new.items ≡ stack.old.items ++ operand_tasks plan.now.f.now height of_type operand) }
{
    match operand {
        Operand::Local(name) => {
            if plan.carries(operand) {
                push_operation(plan, stack, height, plan.operation(name))?;
            }
        }
        Operand::Undef => stack.push(Task::Emit(Inst::Freeze {
            into: plan.scratch(height),
            of_type,
            operand,
        }))?,
        Operand::Number(_) | Operand::Null | Operand::Poison => {}
    }
    Ok(())
}

// Puts an operation and what its operands are computed by on the stack.
fn push_operation(
    plan: &Plan,
    stack: &mut Vec<Task>,
    height: usize,
    operation: Operation,
) -> Result<(), NoMemory>
    requires plan { IsPlan plan.now }
    requires height { height ≤ 64 }
    ensures { OnOk result (stack.new.items ≡ stack.old.items ++ operation_tasks plan.now.f.now height operation) }
{
    match operation {
        Operation::Binary {
            op,
            width,
            left,
            right,
        } => {
            let pair = placed_pair(plan, height, left, right);
            let inst = Inst::Binary {
                into: plan.scratch(height),
                op,
                width,
                left: pair.0,
                right: pair.1,
            };
            push_pair(plan, stack, height, inst, IrType::Int(width), left, right)
        }
        Operation::Icmp {
            predicate,
            same_sign,
            width,
            left,
            right,
        } => {
            let pair = placed_pair(plan, height, left, right);
            let inst = Inst::Icmp {
                into: plan.scratch(height),
                predicate,
                same_sign,
                width,
                left: pair.0,
                right: pair.1,
            };
            push_pair(plan, stack, height, inst, IrType::Int(width), left, right)
        }
        Operation::Cast {
            cast,
            from,
            operand,
            to,
        } => {
            let inst = Inst::Cast {
                into: plan.scratch(height),
                cast,
                from,
                operand: plan.placed(height, operand),
                to,
            };
            push_one(stack, height, inst, IrType::Int(from), operand)
        }
        Operation::Select {
            condition,
            if_true,
            if_false,
        } => push_select(plan, stack, height, condition, if_true, if_false),
        Operation::Other => Ok(()),
    }
}

// Where two operands are once they are computed, the second above the first.
fn placed_pair(plan: &Plan, height: usize, left: Operand, right: Operand) -> (Operand, Operand)
    requires plan { IsPlan plan.now }
    requires height { height ≤ 64 }
    ensures left { result.0 ≡ placed plan.now.f.now height left }
    ensures right { result.1 ≡ placed plan.now.f.now (above plan.now.f.now height left) right }
{
    let second = plan.above(height, left);
    (plan.placed(height, left), plan.placed(second, right))
}

// Puts an instruction and what its operand is computed by on the stack.
fn push_one(
    stack: &mut Vec<Task>,
    height: usize,
    inst: Inst,
    of_type: IrType,
    operand: Operand,
) -> Result<(), NoMemory>
    ensures { OnOk result (stack.new.items ≡ stack.old.items ++ Emit inst ∷ Compute height of_type operand ∷ []) }
{
    stack.push(Task::Emit(inst))?;
    push_compute(stack, height, of_type, operand)
}

fn push_compute(
    stack: &mut Vec<Task>,
    height: usize,
    of_type: IrType,
    operand: Operand,
) -> Result<(), NoMemory>
    ensures { OnOk result (stack.new.items ≡ stack.old.items ++ Compute height of_type operand ∷ []) }
{
    stack.push(Task::Compute {
        height,
        of_type,
        operand,
    })?;
    Ok(())
}

// Puts an instruction and what its two operands are computed by on the stack, the first on top.
fn push_pair(
    plan: &Plan,
    stack: &mut Vec<Task>,
    height: usize,
    inst: Inst,
    of_type: IrType,
    left: Operand,
    right: Operand,
) -> Result<(), NoMemory>
    requires plan { IsPlan plan.now }
    requires height { height ≤ 64 }
    ensures { OnOk result (stack.new.items ≡ stack.old.items ++ pair_tasks plan.now.f.now height inst of_type left right) }
{
    let second = plan.above(height, left);
    push_one(stack, second, inst, of_type, right)?;
    push_compute(stack, height, of_type, left)
}

// Puts a select and what its operands are computed by on the stack.
fn push_select(
    plan: &Plan,
    stack: &mut Vec<Task>,
    height: usize,
    condition: Operand,
    if_true: TypedOperand,
    if_false: TypedOperand,
) -> Result<(), NoMemory>
    requires plan { IsPlan plan.now }
    requires height { height ≤ 64 }
    ensures { OnOk result (stack.new.items ≡ stack.old.items ++ operation_tasks plan.now.f.now height (Select condition if_true if_false)) }
{
    let second = plan.above(height, condition);
    let third = plan.above(second, if_true.operand);
    let inst = Inst::Select {
        into: plan.scratch(height),
        condition: plan.placed(height, condition),
        if_true: plan.typed_placed(second, if_true),
        if_false: plan.typed_placed(third, if_false),
    };
    push_one(stack, third, inst, if_false.of_type, if_false.operand)?;
    push_compute(stack, second, if_true.of_type, if_true.operand)?;
    push_compute(stack, height, IrType::Int(one_bit()), condition)
}

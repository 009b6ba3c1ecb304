//! What the trees of registers that carry undef cost.

ghost use Rattle.std.specs.Prelude.{◌≡◌, ◌≤◌, true, length, IfOk, OnOk};
ghost use Rattle.ir_tree.specs.declared.tree.Operand.{Operand};
ghost use Rattle.ir_tree.specs.declared.tree.Operand.TheVariants.{Local};
ghost use Rattle.ir_tree.specs.Carrying.{carries};
ghost use Rattle.ir_tree.specs.Limits.{IsWithinLimits};
ghost use Rattle.ir_tree.specs.Sites.{AreNumbered};
ghost use Rattle.lowering.specs.Lowered.{HasFewLeaves};
ghost use Rattle.lowering.specs.Plan.{IsPlan};
ghost use Rattle.pair_costs.specs.Trees.{AreKnown, AreTreeCosts, AreTrees, IsSettled, cost_in, made_in, operands_in, operation_cost, unknown, unknown_in};
ghost use Rattle.verdicts.specs.Weight.{tree_cost};

use crate::costs::{op_cost, width_of};
use ir_tree::{Function, Operand};
use lowering::{Operation, Plan, plan_of};
use std::alloc::Global;
use support::NoMemory;

/// A function, and for each of its names what its tree costs.
#[derive(Drop)]
pub struct Trees<'f> {
    pub f: &'f Function,
    pub costs: Vec<u64>,
}

impl<'f> Trees<'f> {
    /// The trees of a function.
    pub fn new(alloc: Global, f: &'f Function) -> Result<Self, NoMemory>
        requires numbered { AreNumbered f.now }
        requires few { HasFewLeaves f.now }
        requires limits { IsWithinLimits f.now }
        ensures f { IfOk result (λ trees. trees.f.now ≡ f.now) }
        ensures costs { IfOk result AreTrees }
    {
        let costs = match plan_of(alloc, f)? {
            Some(plan) => tree_costs(alloc, &plan)?,
            None => Vec::new(alloc),
        };
        Ok(Trees { f, costs })
    }

    /// What it costs to compute an operand's tree; nothing where it has none.
    pub fn cost(&self, operand: Operand) -> u64
        requires { AreTrees self.now }
        ensures value { result ≡ tree_cost self.now.f.now operand }
        ensures most { result ≤ 17180131328 }
    {
        cost_in(&self.costs, operand)
    }
}

// For each name of a function what its tree costs.
fn tree_costs(alloc: Global, plan: &Plan) -> Result<Vec<u64>, NoMemory>
    requires plan { IsPlan plan.now }
    requires limits { IsWithinLimits plan.now.f.now }
    ensures { IfOk result (λ costs. AreTreeCosts plan.now.f.now costs.items) }
{
    let mut costs = vec![in alloc; 0u64; plan.f.names.len()]?;
    for name in 0..costs.len() {
        if plan.carries(Operand::Local(name)) {
            settle(alloc, plan, &mut costs, name)?;
        }
    }
    Ok(costs)
}

// Finds out what the tree of a name costs.
//
// The instructions of a function may all be one tree, as high as they are many, and the trees of many
// names may share most of it. So each cost is computed once, and a path of names takes the place of
// recursion: each name's cost waits for that of the next one, which is an operand of its operation.
fn settle(alloc: Global, plan: &Plan, costs: &mut Vec<u64>, root: usize) -> Result<(), NoMemory>
    requires plan { IsPlan plan.now }
    requires limits { IsWithinLimits plan.now.f.now }
    requires long { length costs.old.items ≡ length plan.now.f.now.names }
    requires known { AreKnown plan.now.f.now costs.old.items }
    requires carries { carries plan.now.f.now (Local root) ≡ true }
    ensures { OnOk result (IsSettled plan.now.f.now costs.old.items costs.new.items root) }
{
    let mut path = Vec::new(alloc);
    while costs[root] == 0 {
        let name = path.pop().unwrap_or(root);
        let operation = plan.operation(name);
        match unknown_in(plan, costs, operation) {
            Some(operand) => {
                path.push(name)?;
                path.push(operand)?;
            }
            None => costs[name] = made_in(costs, operation),
        }
    }
    Ok(())
}

// The first of an operation's operands that carries undef and whose cost is not known.
fn unknown_in(plan: &Plan, costs: &[u64], operation: Operation) -> Option<usize>
    requires { IsPlan plan.now }
    ensures { result ≡ unknown_in plan.now.f.now costs.now operation }
{
    let (first, second, third) = operands_in(operation);
    let others = unknown(plan, costs, second).or(unknown(plan, costs, third));
    unknown(plan, costs, first).or(others)
}

// The name that the operand is, where it carries undef and its cost is not known.
fn unknown(plan: &Plan, costs: &[u64], operand: Operand) -> Option<usize>
    requires { IsPlan plan.now }
    ensures { result ≡ unknown plan.now.f.now costs.now operand }
{
    match operand {
        Operand::Local(name) if plan.carries(operand) && cost_in(costs, operand) == 0 => Some(name),
        Operand::Local(_) | Operand::Number(_) | Operand::Null | Operand::Poison => None,
        Operand::Undef => None,
    }
}

// What an operation costs with its operands.
fn made_in(costs: &[u64], operation: Operation) -> u64
    requires { (o : Operand) → cost_in costs.now o ≤ 17180131328 }
    ensures { result ≡ made_in costs.now operation }
{
    let (first, second, third) = operands_in(operation);
    let others = cost_in(costs, second) + cost_in(costs, third);
    operation_cost(operation) + (cost_in(costs, first) + others)
}

// What the table has for an operand.
fn cost_in(costs: &[u64], operand: Operand) -> u64
    ensures { result ≡ cost_in costs.now operand }
{
    match operand {
        Operand::Local(name) => costs.get(name).copied().unwrap_or(0),
        Operand::Number(_) | Operand::Null | Operand::Poison | Operand::Undef => 0,
    }
}

// The operands whose undef an operation's result carries. Where there are fewer than three, the others
// are poison.
fn operands_in(operation: Operation) -> (Operand, Operand, Operand)
    ensures { result ≡ operands_in operation }
{
    match operation {
        Operation::Binary { left, right, .. } => (left, right, Operand::Poison),
        Operation::Icmp { left, right, .. } => (left, right, Operand::Poison),
        Operation::Cast { operand, .. } => (operand, Operand::Poison, Operand::Poison),
        Operation::Select {
            condition,
            if_true,
            if_false,
        } => (condition, if_true.operand, if_false.operand),
        Operation::Other => (Operand::Poison, Operand::Poison, Operand::Poison),
    }
}

fn operation_cost(operation: Operation) -> u64
    ensures value { result ≡ operation_cost operation }
    ensures most { result ≤ 4096 }
{
    match operation {
        Operation::Binary { op, width, .. } => op_cost(op, width),
        Operation::Icmp { width, .. } => width.bits() as u64,
        Operation::Cast { to, .. } => to.bits() as u64,
        Operation::Select { if_true, .. } => width_of(if_true.of_type),
        Operation::Other => 0,
    }
}

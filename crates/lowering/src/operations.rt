//! For each name of a function the operation that makes it.

ghost use Rattle.std.specs.Prelude.{◌≡◌, ◌<◌, ◌∷◌, ◌++◌, ℕ, List, length, IfOk};
ghost use Rattle.std.specs.List.{Contains};
ghost use Rattle.ir_tree.specs.declared.tree.Inst.{Inst};
ghost use Rattle.ir_tree.specs.Carrying.{insts_of};
ghost use Rattle.ir_tree.specs.Flow.{results_of};
ghost use Rattle.ir_tree.specs.Sites.{AreNumbered};
ghost use Rattle.undef_uses.specs.Counts.{HasResultsBelow};
ghost use Rattle.lowering.specs.Operations.{AreOperations, operation_in};

use ir_tree::{Cast, Function, Inst, Op, Operand, Predicate, TypedOperand, result_of};
use std::alloc::Global;
use support::NoMemory;
use tv_num::Width;

/// An operation whose result carries the undef of its operands.
#[derive(Clone, Copy)]
pub enum Operation {
    Binary {
        op: Op,
        width: Width,
        left: Operand,
        right: Operand,
    },
    Icmp {
        predicate: Predicate,
        same_sign: bool,
        width: Width,
        left: Operand,
        right: Operand,
    },
    Cast {
        cast: Cast,
        from: Width,
        operand: Operand,
        to: Width,
    },
    Select {
        condition: Operand,
        if_true: TypedOperand,
        if_false: TypedOperand,
    },
    /// Another instruction, or none.
    Other,
}

/// For each name the operation that makes it, that of the first instruction that does.
pub fn operations_of(alloc: Global, f: &Function) -> Result<Vec<Operation>, NoMemory>
    requires { AreNumbered f.now }
    ensures len { IfOk result (λ table. length table.items ≡ length f.now.names) }
    ensures operations { IfOk result (λ table. AreOperations (insts_of f.now) table.items) }
{
    let mut table = vec![in alloc; Operation::Other; f.names.len()]?;
    let blocks = f.blocks.as_slice();
    for at in (0..blocks.len()).rev() {
        note_all(&mut table, blocks[at].insts.as_slice());
    }
    Ok(table)
}

// Puts these instructions before those that the table has.
fn note_all(table: &mut [Operation], insts: &[Inst])
    requires { HasResultsBelow (length table.old) insts.now }
    ensures { (rest : List Inst) → AreOperations rest table.old → AreOperations (insts.now ++ rest) table.new }
{
    for at in (0..insts.len()).rev() {
        note(table, &insts[at]);
    }
}

fn note(table: &mut [Operation], inst: &Inst)
    requires { (name : ℕ) → Contains (results_of inst.now) name → name < length table.old }
    ensures { (rest : List Inst) → AreOperations rest table.old → AreOperations (inst.now ∷ rest) table.new }
{
    if let Some(into) = result_of(inst) {
        table[into] = operation_in(inst);
    }
}

fn operation_in(inst: &Inst) -> Operation
    ensures { result ≡ operation_in inst.now }
{
    match inst {
        Inst::Binary {
            op,
            width,
            left,
            right,
            ..
        } => Operation::Binary {
            op: *op,
            width: *width,
            left: *left,
            right: *right,
        },
        Inst::Icmp {
            predicate,
            same_sign,
            width,
            left,
            right,
            ..
        } => Operation::Icmp {
            predicate: *predicate,
            same_sign: *same_sign,
            width: *width,
            left: *left,
            right: *right,
        },
        Inst::Cast {
            cast,
            from,
            operand,
            to,
            ..
        } => Operation::Cast {
            cast: *cast,
            from: *from,
            operand: *operand,
            to: *to,
        },
        Inst::Select {
            condition,
            if_true,
            if_false,
            ..
        } => Operation::Select {
            condition: *condition,
            if_true: *if_true,
            if_false: *if_false,
        },
        Inst::Freeze { .. } | Inst::Alloca { .. } | Inst::Load { .. } => Operation::Other,
        Inst::Store { .. } | Inst::GetElementPtr { .. } => Operation::Other,
    }
}

//! Functions whose registers carry undef, also such as the reader refuses before it looks at uses. In
//! their texts each `poison` that is an operand of a binary operation, an icmp, a cast or a select
//! stands for `undef`.
use crate::made_functions::function_of;
use ir_tree::{Block, Function, Inst, Operand, TypedOperand};
use std::alloc::Global;
use std::mem::replace;
use std::test::Fail;
use support::Sequence;

fn undef_in(operand: Operand) -> Operand {
    match operand {
        Operand::Poison => Operand::Undef,
        other => other,
    }
}

fn typed_in(typed: TypedOperand) -> TypedOperand {
    TypedOperand {
        of_type: typed.of_type,
        operand: undef_in(typed.operand),
    }
}

/// The instruction with undef in place of poison.
fn inst_in(inst: Inst) -> Inst {
    match inst {
        Inst::Binary {
            into,
            op,
            width,
            left,
            right,
        } => Inst::Binary {
            into,
            op,
            width,
            left: undef_in(left),
            right: undef_in(right),
        },
        Inst::Icmp {
            into,
            predicate,
            same_sign,
            width,
            left,
            right,
        } => Inst::Icmp {
            into,
            predicate,
            same_sign,
            width,
            left: undef_in(left),
            right: undef_in(right),
        },
        Inst::Select {
            into,
            condition,
            if_true,
            if_false,
        } => Inst::Select {
            into,
            condition: undef_in(condition),
            if_true: typed_in(if_true),
            if_false: typed_in(if_false),
        },
        Inst::Cast {
            into,
            cast,
            from,
            operand,
            to,
        } => Inst::Cast {
            into,
            cast,
            from,
            operand: undef_in(operand),
            to,
        },
        other => other,
    }
}

fn block_in(alloc: Global, mut block: Block) -> Result<Block, Fail> {
    let old = replace(&mut block.insts, Sequence::from_vec(Vec::new(alloc)));
    for inst in old.into_vec() {
        block.insts.push(inst_in(inst))?;
    }
    Ok(block)
}

/// The function of a text, with undef in place of poison.
pub fn function_in(alloc: Global, text: &str) -> Result<Function, Fail> {
    let mut function = function_of(alloc, text)?;
    let old = replace(&mut function.blocks, Sequence::from_vec(Vec::new(alloc)));
    for block in old.into_vec() {
        function.blocks.push(block_in(alloc, block)?)?;
    }
    Ok(function)
}

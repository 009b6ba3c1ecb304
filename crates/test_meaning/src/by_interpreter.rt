//! An instruction as the interpreter runs it.

use crate::instructions::{Given, instruction_in, operand_pairs, upper_half, with_given};
use byte_block::Value;
use choice_interp::interpret;
use ir_tree::{Function, is_within_limits};
use points::{Bounds, Input, Outcome};
use std::alloc::Global;
use std::test::Fail;
use support::{NoMemory, Sequence};

const BOUNDS: Bounds = Bounds {
    turns: 0,
    blocks: 0,
    bytes: 0,
};

/// The sum over the runs of a function of one instruction.
pub fn interpreted(alloc: Global, f: &Function) -> Result<u64, Fail> {
    let inst = instruction_in(f).ok_or("the function has an instruction")?;
    let mut sum = 0;
    for args in operand_pairs(alloc, inst)?.as_slice() {
        sum = with_given(sum, returned(alloc, f, args)?);
    }
    Ok(upper_half(sum))
}

/// What a function of one instruction returns. Arguments beyond its parameters have no effect.
#[tactic(auto, using(points::proofs::Runnable::runnable))]
pub fn returned(alloc: Global, f: &Function, args: &[Value]) -> Result<Given, NoMemory> {
    if !is_within_limits(f) {
        return Ok(Given::Other);
    }
    let input = Input {
        args: Sequence::from_vec(args.to_vec(alloc)?),
        blocks: Sequence::from_vec(Vec::new(alloc)),
    };
    let ran = interpret(alloc, f, &BOUNDS, &input, &[])?;
    Ok(match ran.outcome {
        Outcome::Return(Some(Value::Num(n)), _) => Given::Number(n),
        Outcome::Return(Some(Value::Poison), _) => Given::Poison,
        Outcome::Return(_, _) | Outcome::Beyond => Given::Other,
        Outcome::Ub => Given::Undefined,
    })
}

//! What the runs of one function reuse.

ghost use Rattle.std.specs.Prelude.{◌≡◌, replicate, IfOk, length};
ghost use Rattle.choice_interp.specs.Runners.{IsRunner};

use crate::room::Room;
use byte_block::Value;
use ir_tree::{BlockIndex, Function};
use points::Machine;
use std::alloc::{AllocError, Global};
use support::{NoMemory, Sequence};

/// What the runs of one function reuse: a machine, the indices of the function's labels, and room.
#[derive(Drop)]
pub struct Runner {
    pub machine: Machine,
    pub index: BlockIndex,
    pub room: Room,
}

fn poisons(alloc: Global, count: usize) -> Result<Vec<Value>, AllocError>
    ensures { IfOk result (λ values. values.items ≡ replicate count Value.Poison) }
{
    vec![in alloc; Value::Poison; count]
}

fn machine_for(alloc: Global, f: &Function) -> Result<Machine, NoMemory>
    ensures { IfOk result (λ machine. length machine.registers ≡ length f.now.names) }
{
    Ok(Machine {
        registers: Sequence::from_vec(poisons(alloc, f.names.len())?),
        memory: Sequence::from_vec(Vec::new(alloc)),
        turn: 0,
        block: 0,
        taken: Sequence::from_vec(Vec::new(alloc)),
    })
}

/// A runner of a function.
///
/// # Errors
/// Only out of memory.
pub fn runner_for(alloc: Global, f: &Function) -> Result<Runner, NoMemory>
    ensures { IfOk result (IsRunner f.now) }
{
    Ok(Runner {
        machine: machine_for(alloc, f)?,
        index: BlockIndex::of(alloc, f)?,
        room: Room {
            alloc,
            phis: Sequence::from_vec(Vec::new(alloc)),
            indices: Sequence::from_vec(Vec::new(alloc)),
        },
    })
}

//! One instruction.

ghost use Rattle.std.specs.Prelude.{◌≡◌, IfOk, IsFalse, Some, None, if◌then◌else◌, length};
ghost use Rattle.ir_tree.specs.Limits.{HasSmallTypes};
ghost use Rattle.points.specs.Run.{act};

use crate::assigning::assign;
use crate::choosing::freeze;
use crate::memory_steps::{allocate, load_into, store_at, take_index_values};
use crate::reading::{typed_value, typed_value_of, value_of};
use crate::room::Room;
use crate::table::{cast_value, compare_values, on_values, select};
use ir_tree::Inst;
use memory_access::gep;
use points::Machine;
use support::NoMemory;

/// One instruction; false is undefined behaviour, and the machine is then as before.
pub fn step(
    machine: &mut Machine,
    room: &mut Room,
    inst: &Inst,
    tape: &[u64],
) -> Result<bool, NoMemory>
    requires limits { HasSmallTypes inst.now }
    ensures goes { IfOk result (λ goes. act inst.now tape.now machine.old ≡ (if goes then Some machine.new else None)) }
    ensures stays { IfOk result (λ goes. IsFalse goes → machine.new ≡ machine.old) }
    ensures registers { length machine.new.registers ≡ length machine.old.registers }
    ensures turn { machine.new.turn ≡ machine.old.turn }
{
    match inst {
        Inst::Binary {
            into,
            op,
            width,
            left,
            right,
        } => {
            let left = value_of(machine.registers.as_slice(), *left);
            let right = value_of(machine.registers.as_slice(), *right);
            match on_values(*op, *width, left, right) {
                Some(value) => {
                    assign(machine, *into, value);
                    Ok(true)
                }
                None => Ok(false),
            }
        }
        Inst::Icmp {
            into,
            predicate,
            same_sign,
            width,
            left,
            right,
        } => {
            let left = value_of(machine.registers.as_slice(), *left);
            let right = value_of(machine.registers.as_slice(), *right);
            let value = compare_values(*predicate, *same_sign, *width, left, right);
            assign(machine, *into, value);
            Ok(true)
        }
        Inst::Cast {
            into,
            cast,
            from,
            operand,
            to,
        } => {
            let value = value_of(machine.registers.as_slice(), *operand);
            assign(machine, *into, cast_value(*cast, *from, *to, value));
            Ok(true)
        }
        Inst::Select {
            into,
            condition,
            if_true,
            if_false,
        } => {
            let condition = value_of(machine.registers.as_slice(), *condition);
            let if_true = typed_value_of(machine.registers.as_slice(), *if_true);
            let if_false = typed_value_of(machine.registers.as_slice(), *if_false);
            assign(machine, *into, select(condition, if_true, if_false));
            Ok(true)
        }
        Inst::Freeze {
            into,
            of_type,
            operand,
        } => {
            let value = value_of(machine.registers.as_slice(), *operand);
            freeze(machine, *into, *of_type, typed_value(*of_type, value), tape)?;
            Ok(true)
        }
        Inst::Alloca {
            into,
            number,
            of_type,
            align,
        } => {
            allocate(machine, room.alloc, *into, *number, of_type, *align)?;
            Ok(true)
        }
        Inst::Load {
            into,
            of_type,
            pointer,
            align,
        } => Ok(load_into(machine, *into, *of_type, *pointer, *align)),
        Inst::Store {
            value,
            pointer,
            align,
        } => Ok(store_at(machine, *value, *pointer, *align)),
        Inst::GetElementPtr {
            into,
            inbounds,
            nuw,
            of_type,
            base,
            indices,
        } => {
            let registers = machine.registers.as_slice();
            take_index_values(&mut room.indices, registers, of_type, indices.as_slice())?;
            let base = value_of(machine.registers.as_slice(), *base);
            let indices = room.indices.as_slice();
            let value = gep(&machine.memory, base, indices, *inbounds, *nuw);
            assign(machine, *into, value);
            Ok(true)
        }
    }
}

//! How a run returns (LLVM Language Reference, "ret Instruction").

ghost use Rattle.std.specs.Prelude.{◌≡◌, IfOk};
ghost use Rattle.points.specs.Run.{undef_type, returned_with, returned_run};
ghost use Rattle.choice_interp.specs.Left.{left_by};

use crate::choosing::choose;
use crate::ending::Ending;
use crate::reading::{is_poison, typed_value_of};
use ir_tree::{Operand, TypedOperand};
use points::Machine;
use support::NoMemory;

/// A `ret` of an operand. Undef is a choice, which is then taken.
fn return_operand(
    machine: &mut Machine,
    returned: TypedOperand,
    tape: &[u64],
) -> Result<Ending, NoMemory>
    ensures run { IfOk result (λ ending. returned_with (undef_type returned.of_type returned.operand) returned tape.now machine.old ≡ left_by ending machine.new) }
    ensures registers { machine.new.registers ≡ machine.old.registers }
    ensures memory { machine.new.memory ≡ machine.old.memory }
    ensures turn { machine.new.turn ≡ machine.old.turn }
{
    match returned.operand {
        Operand::Undef => {
            let choice = choose(machine, returned.of_type, tape)?;
            Ok(Ending::Return(Some(choice)))
        }
        Operand::Local(_) | Operand::Number(_) | Operand::Null | Operand::Poison => {
            let value = typed_value_of(machine.registers.as_slice(), returned);
            Ok(Ending::Return(Some(value)))
        }
    }
}

/// A `ret`; where the return is `noundef`, poison and undef are undefined behaviour.
pub fn return_from(
    machine: &mut Machine,
    no_undef: bool,
    returned: Option<TypedOperand>,
    tape: &[u64],
) -> Result<Ending, NoMemory>
    ensures run { IfOk result (λ ending. returned_run no_undef returned tape.now machine.old ≡ left_by ending machine.new) }
    ensures registers { machine.new.registers ≡ machine.old.registers }
    ensures memory { machine.new.memory ≡ machine.old.memory }
    ensures turn { machine.new.turn ≡ machine.old.turn }
{
    match returned {
        Some(returned) => {
            if no_undef && is_poison(typed_value_of(machine.registers.as_slice(), returned)) {
                return Ok(Ending::Ub);
            }
            let ending = return_operand(machine, returned, tape)?;
            Ok(ending)
        }
        None => Ok(Ending::Return(None)),
    }
}

//! A value for a register.

ghost use Rattle.std.specs.Prelude.{◌≡◌};
ghost use Rattle.points.specs.Run.{assigned};

use byte_block::Value;
use points::Machine;

/// Gives a name its value. A name that the machine has no register for is left out.
pub fn assign(machine: &mut Machine, name: usize, value: Value)
    ensures { machine.new ≡ assigned machine.old name value }
{
    if name < machine.registers.len() {
        machine.registers.set(name, value);
    }
}

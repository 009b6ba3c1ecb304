//! How a function is entered: its blocks, its parameters, and their attributes (LLVM Language
//! Reference, "Parameter Attributes").

ghost use Rattle.std.specs.Prelude.{◌≡◌, length, replicate, OnOk};
ghost use Rattle.points.specs.Run.{is_null, argument_value, with_args, breaks_noundef, first_machine, null_pointer};
ghost use Rattle.memory_access.specs.Blocks.{equal_pointers};

use crate::reading::is_poison;
use byte_block::{BlockName, Ptr, Value, copy_memory};
use ir_tree::{Function, Parameter};
use points::{Input, Machine};
use std::alloc::Global;
use support::{NoMemory, Sequence};

fn is_null_pointer(pointer: Ptr) -> bool
    ensures { result ≡ equal_pointers pointer null_pointer }
{
    match pointer.block {
        BlockName::Null => pointer.offset == 0,
        BlockName::Given(_) | BlockName::Local(..) => false,
    }
}

fn is_null(value: Value) -> bool
    ensures { result ≡ is_null value }
{
    match value {
        Value::Num(_) | Value::Poison => false,
        Value::Ptr(pointer) => is_null_pointer(pointer),
    }
}

/// What a parameter gets of an argument: null is poison where the parameter is `nonnull`.
pub fn argument_value(parameter: &Parameter, arg: Value) -> Value
    ensures { result ≡ argument_value parameter.now arg }
{
    if parameter.non_null && is_null(arg) {
        Value::Poison
    } else {
        arg
    }
}

fn poison_all(registers: &mut Sequence<Value>)
    ensures { registers.new ≡ replicate (length registers.old) Value.Poison }
{
    for i in 0..registers.len() {
        registers.set(i, Value::Poison);
    }
}

fn give_args(registers: &mut Sequence<Value>, parameters: &[Parameter], args: &[Value])
    ensures value { registers.new ≡ with_args parameters.now args.now registers.old }
    ensures count { length registers.new ≡ length registers.old }
{
    let mut parameters = parameters;
    let mut args = args;
    while let [parameter, more_parameters @ ..] = parameters {
        let [arg, more_args @ ..] = args else {
            return;
        };
        if parameter.name < registers.len() {
            registers.set(parameter.name, argument_value(parameter, *arg));
        }
        parameters = more_parameters;
        args = more_args;
    }
}

/// Whether what a parameter gets is poison and the parameter is `noundef`.
pub fn breaks_no_undef(parameters: &[Parameter], args: &[Value]) -> bool
    ensures { result ≡ breaks_noundef parameters.now args.now }
{
    let mut parameters = parameters;
    let mut args = args;
    while let [parameter, more_parameters @ ..] = parameters {
        let [arg, more_args @ ..] = args else {
            return false;
        };
        if parameter.no_undef && is_poison(argument_value(parameter, *arg)) {
            return true;
        }
        parameters = more_parameters;
        args = more_args;
    }
    false
}

/// The first machine of a run.
pub fn begin(
    machine: &mut Machine,
    alloc: Global,
    f: &Function,
    input: &Input,
) -> Result<(), NoMemory>
    requires { length machine.old.registers ≡ length f.now.names }
    ensures value { OnOk result (machine.new ≡ first_machine f.now input.now) }
    ensures registers { length machine.new.registers ≡ length f.now.names }
{
    machine.memory = copy_memory(alloc, &input.blocks)?;
    poison_all(&mut machine.registers);
    give_args(
        &mut machine.registers,
        f.parameters.as_slice(),
        input.args.as_slice(),
    );
    machine.turn = 0;
    machine.block = 0;
    machine.taken.clear();
    Ok(())
}

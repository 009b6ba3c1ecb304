//! The steps of a call: each parameter gets its argument (LLVM Language Reference, "Parameter
//! Attributes").

ghost use Rattle.std.specs.Prelude.{◌≡◌, ℕ, ◌&&◌, List, [], ◌∷◌, IfOk, if◌then◌else◌};
ghost use Rattle.ir_tree.specs.declared.tree.Function.{Function};
ghost use Rattle.byte_block.specs.declared.value.Value.{Value as Held};
ghost use Rattle.points.specs.declared.machine.Machine.{Machine as Registers};
ghost use Rattle.points.specs.declared.outcome.Outcome.TheVariants.{Ub};
ghost use Rattle.points.specs.Run.{ended, argument_value, is_poison};
ghost use Rattle.run_trace.specs.Items.{Gets, Call, Phis, State, At, Done};
ghost use Rattle.run_trace.specs.Trace.{HasReason, Leads};
ghost use Rattle.run_trace.specs.Parts.{position, ShowsAt};

use crate::steps::{Reason, Site, Step};
use byte_block::Value;
use choice_interp::{argument_value, is_poison};
use ir_tree::Parameter;
use std::alloc::Global;
use support::{NoMemory, Sequence};

fn is_broken(parameter: &Parameter, arg: Value) -> bool
    ensures { result ≡ (parameter.now.no_undef && is_poison (argument_value parameter.now arg)) }
{
    parameter.no_undef && is_poison(argument_value(parameter, arg))
}

fn argument_reason(parameter: &Parameter, arg: Value) -> Option<Reason>
    ensures { (f : Function) (tape : List ℕ) (at k jumps : ℕ) (m : Registers) (others : List Held) → HasReason f tape (Gets parameter.now arg others) (position at k jumps m) result }
{
    if is_broken(parameter, arg) {
        Some(Reason::PoisonArgument)
    } else if is_poison(argument_value(parameter, arg)) && !is_poison(arg) {
        Some(Reason::NullArgument)
    } else {
        None
    }
}

fn one_value(alloc: Global, value: Value) -> Result<Sequence<Value>, NoMemory>
    ensures { IfOk result (λ values. values ≡ value ∷ []) }
{
    Ok(Sequence::from_vec(vec![in alloc; value; 1]?))
}

fn argument_step(
    alloc: Global,
    turn: u64,
    k: usize,
    parameter: &Parameter,
    arg: Value,
) -> Result<Step, NoMemory>
    ensures { IfOk result (λ step. (tape : List ℕ) (m : Registers) (others : List Held) → m.turn ≡ turn → ShowsAt (Gets parameter.now arg others) 0 k tape m step) }
{
    Ok(Step {
        block: 0,
        turn,
        site: Site::Parameter(k),
        operands: one_value(alloc, arg)?,
        result: Some(argument_value(parameter, arg)),
        taken: Sequence::from_vec(Vec::new(alloc)),
        to: None,
        location: None,
        reason: argument_reason(parameter, arg),
    })
}

/// The parameters get their arguments, in order: false where one is poison and its parameter is
/// `noundef`; those after it are not shown.
pub fn trace_arguments(
    alloc: Global,
    steps: &mut Sequence<Step>,
    turn: u64,
    parameters: &[Parameter],
    args: &[Value],
) -> Result<bool, NoMemory>
    ensures { IfOk result (λ goes. (f : Function) (tape : List ℕ) (first : State) (jumps : ℕ) (m : Registers) → f.parameters ≡ parameters.now → m.turn ≡ turn
        → Leads f tape first steps.old (At (Call args.now) (position 0 0 jumps m))
        → Leads f tape first steps.new (if goes then At Phis (position 0 0 jumps m) else Done (ended Ub m))) }
{
    for (k, parameter) in parameters.iter().enumerate() {
        let Some(arg) = args.get(k) else {
            return Ok(true);
        };
        steps.push(argument_step(alloc, turn, k, parameter, *arg)?)?;
        if is_broken(parameter, *arg) {
            return Ok(false);
        }
    }
    Ok(true)
}

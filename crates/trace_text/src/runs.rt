//! The text of runs.

ghost use Rattle.std.specs.Prelude.{◌≡◌, ◌++◌, OnOk, IfOk};
ghost use Rattle.lowering.specs.Lowered.{CanBeLowered};
ghost use Rattle.trace_text.specs.TraceText.{step_texts, returned_text, outcome_text, run_text, trace_text, source_title, target_title, difference_line};

use crate::differences::push_difference;
use crate::steps::push_step;
use crate::values::push_value;
use byte_block::Value;
use ir_tree::{Function, IrType};
use pair_trace::{Difference, Traces};
use points::Outcome;
use run_trace::{Step, Trace};
use std::alloc::Global;
use support::NoMemory;
use verdicts::{LoweredPair, Pair, RunPair};

/// The text of the two runs of a pair, and of how they differ. The first line of each run says which
/// it is; the last line begins with `difference: `. Each line ends with a newline.
///
/// # Errors
/// Only out of memory.
pub fn text_of(
    alloc: Global,
    pair: &Pair,
    traces: &Traces,
    difference: Difference,
) -> Result<Vec<u8>, NoMemory>
    requires source { CanBeLowered pair.now.source }
    requires target { CanBeLowered pair.now.target }
    ensures { IfOk result (λ text. text.items ≡ trace_text pair.now traces.now difference) }
{
    let lowered = LoweredPair::new(alloc, pair)?;
    text_in(alloc, &lowered.run_pair(), traces, difference)
}

/// The text of the two runs of a pair of functions as they are run.
fn text_in(
    alloc: Global,
    run: &RunPair,
    traces: &Traces,
    difference: Difference,
) -> Result<Vec<u8>, NoMemory>
    ensures { IfOk result (λ text. text.items ≡ run_text source_title run.now.source traces.now.source ++ run_text target_title run.now.target traces.now.target ++ difference_line traces.now.source.outcome difference) }
{
    let mut out = Vec::new(alloc);
    push_run(
        alloc,
        &mut out,
        b"source, on the choices 0 (one of its runs)",
        run.source(),
        &traces.source,
    )?;
    push_run(
        alloc,
        &mut out,
        b"target, on the choices of the counterexample",
        run.target(),
        &traces.target,
    )?;
    push_difference(&mut out, &traces.source.outcome, difference)?;
    Ok(out)
}

/// A run after its title.
fn push_run(
    alloc: Global,
    out: &mut Vec<u8>,
    title: &[u8],
    f: &Function,
    trace: &Trace,
) -> Result<(), NoMemory>
    ensures { OnOk result (out.new.items ≡ out.old.items ++ run_text title.now f.now trace.now) }
{
    out.extend_from_slice(title)?;
    push_steps(alloc, out, f, trace.steps.as_slice())?;
    push_outcome(alloc, out, f.returns, &trace.outcome)?;
    out.extend_from_slice(b"\n")?;
    Ok(())
}

fn push_steps(
    alloc: Global,
    out: &mut Vec<u8>,
    f: &Function,
    steps: &[Step],
) -> Result<(), NoMemory>
    ensures { OnOk result (out.new.items ≡ out.old.items ++ step_texts f.now 0 steps.now) }
{
    let mut choices = 0u64;
    for step in steps {
        push_step(alloc, out, f, choices, step)?;
        choices = choices.saturating_add(step.taken.len() as u64);
    }
    Ok(())
}

fn push_outcome(
    alloc: Global,
    out: &mut Vec<u8>,
    returns: Option<IrType>,
    outcome: &Outcome,
) -> Result<(), NoMemory>
    ensures { OnOk result (out.new.items ≡ out.old.items ++ outcome_text returns outcome.now) }
{
    match outcome {
        Outcome::Return(value, _) => {
            out.extend_from_slice(b"\n  returns ")?;
            push_returned(alloc, out, returns, *value)?;
        }
        Outcome::Ub => out.extend_from_slice(b"\n  undefined behaviour")?,
        Outcome::Beyond => {
            out.extend_from_slice(b"\n  goes past the bound on backward jumps")?;
        }
    }
    Ok(())
}

fn push_returned(
    alloc: Global,
    out: &mut Vec<u8>,
    returns: Option<IrType>,
    value: Option<Value>,
) -> Result<(), NoMemory>
    ensures { OnOk result (out.new.items ≡ out.old.items ++ returned_text returns value) }
{
    match (returns, value) {
        (Some(of_type), Some(value)) => push_value(alloc, out, of_type, value),
        (Some(_), None) | (None, _) => {
            out.extend_from_slice(b"void")?;
            Ok(())
        }
    }
}

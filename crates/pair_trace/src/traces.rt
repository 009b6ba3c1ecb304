//! The runs of both sides of a counterexample.

ghost use Rattle.std.specs.Prelude.{IfOk};
ghost use Rattle.lowering.specs.Lowered.{CanBeLowered};
ghost use Rattle.pair_trace.specs.Traces.{AreTracesOf};

use points::{Bounds, Point};
use run_trace::{Trace, trace};
use std::alloc::Global;
use support::NoMemory;
use verdicts::{LoweredPair, Pair};

/// The runs of both sides.
#[derive(Drop)]
pub struct Traces {
    pub source: Trace,
    pub target: Trace,
}

/// The source's run on the input of a point and the tape of zeros, and the target's on the point.
///
/// The tape of zeros is one of those that the source may choose from: where the point is a
/// counterexample, no other one covers it either.
///
/// # Errors
/// Only out of memory.
pub fn trace_pair(
    alloc: Global,
    pair: &Pair,
    bounds: &Bounds,
    point: &Point,
) -> Result<Traces, NoMemory>
    requires source { CanBeLowered pair.now.source }
    requires target { CanBeLowered pair.now.target }
    ensures { IfOk result (AreTracesOf pair.now bounds.now point.now) }
{
    let lowered = LoweredPair::new(alloc, pair)?;
    let run = lowered.run_pair();
    let tape = point.tape.as_slice();
    Ok(Traces {
        source: trace(alloc, run.source(), bounds, &point.input, &[])?,
        target: trace(alloc, run.target(), bounds, &point.input, tape)?,
    })
}

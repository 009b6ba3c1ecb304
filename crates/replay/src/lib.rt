//! What a counterexample shows: two runs, side by side.
//!
//! It promises the outcomes of the defined runs. It builds on `choice_interp`; reports print what
//! it answers.
#![tactic(auto)]

ghost use Rattle.std.specs.Prelude.{IfOk};
ghost use Rattle.lowering.specs.Lowered.{CanBeLowered};
ghost use Rattle.verdicts.specs.Shown.{IsShown};

use choice_interp::interpret;
use points::{Bounds, Point};
use std::alloc::Global;
use support::NoMemory;
use verdicts::{LoweredPair, Pair, Shown};

/// The target's outcome on the point, the source's outcome on the tape of zeros, and how many words
/// the target read.
pub fn replay(alloc: Global, pair: &Pair, bounds: &Bounds, point: &Point) -> Result<Shown, NoMemory>
    requires source { CanBeLowered pair.now.source }
    requires target { CanBeLowered pair.now.target }
    ensures { IfOk result (IsShown pair.now bounds.now point.now) }
{
    let tape = point.tape.as_slice();
    let lowered = LoweredPair::new(alloc, pair)?;
    let run = lowered.run_pair();
    let target = interpret(alloc, run.target(), bounds, &point.input, tape)?;
    let source = interpret(alloc, run.source(), bounds, &point.input, &[])?;
    Ok(Shown {
        target: target.outcome,
        source: source.outcome,
        read: target.read,
    })
}

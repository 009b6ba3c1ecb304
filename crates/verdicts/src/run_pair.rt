//! A pair as it is run.

ghost use Rattle.std.specs.Prelude.{◌≡◌, true, IfOk};
ghost use Rattle.lowering.specs.Lowered.{CanBeLowered};
ghost use Rattle.verdicts.specs.Pair.{run_pair, same_signature};

use crate::pair::Pair;
use ir_tree::Function;
use lowering::lower;
use std::alloc::Global;
use std::marker::Model;
use support::NoMemory;

/// The functions of a pair with each use of a register that carries undef written out. A function in
/// which no register does is shared with the pair, and not copied.
pub struct LoweredPair<'m> {
    source: &'m Function,
    target: &'m Function,
    lowered_source: Option<Function>,
    lowered_target: Option<Function>,
}

// Dropped by one call: a derived drop is written out at each return.
impl<'m> Drop for LoweredPair<'m> {
    fn drop(self) {
        let LoweredPair {
            source,
            target,
            lowered_source,
            lowered_target,
        } = self;
    }
}

impl<'m> Model for LoweredPair<'m> {
    ghost use Rattle.std.specs.Prelude.{◌≡◌, true};
    ghost use Rattle.verdicts.specs.Pair.{RunPair, function_or, same_signature};

    ghost Value = { RunPair };

    ghost view = { λ p. record { source = function_or p.lowered_source p.source.now; target = function_or p.lowered_target p.target.now } };

    ghost invariant = { λ p. same_signature (function_or p.lowered_source p.source.now) (function_or p.lowered_target p.target.now) ≡ true };
}

impl<'m> LoweredPair<'m> {
    /// The functions of a pair as they are run.
    pub fn new(alloc: Global, pair: &Pair<'m>) -> Result<LoweredPair<'m>, NoMemory>
        requires source { CanBeLowered pair.now.source }
        requires target { CanBeLowered pair.now.target }
        ensures { IfOk result (λ lowered. lowered ≡ run_pair pair.now) }
    {
        Ok(LoweredPair {
            source: pair.source(),
            target: pair.target(),
            lowered_source: lower(alloc, pair.source())?,
            lowered_target: lower(alloc, pair.target())?,
        })
    }

    /// The pair as it is run.
    pub fn run_pair(&self) -> RunPair<'_>
        ensures { result ≡ self.now }
    {
        RunPair {
            source: self.lowered_source.as_ref().unwrap_or(self.source),
            target: self.lowered_target.as_ref().unwrap_or(self.target),
        }
    }
}

/// A pair as it is run: the source and the target, of equal signature.
#[derive(Drop)]
pub struct RunPair<'m> {
    source: &'m Function,
    target: &'m Function,
}

impl<'m> Model for RunPair<'m> {
    ghost use Rattle.std.specs.Prelude.{◌≡◌, true};
    ghost use Rattle.verdicts.specs.Pair.{RunPair, same_signature};

    ghost Value = { RunPair };

    ghost view = { λ p. record { source = p.source.now; target = p.target.now } };

    ghost invariant = { λ p. same_signature p.source.now p.target.now ≡ true };
}

impl<'m> RunPair<'m> {
    /// The source as it is run.
    pub fn source(&self) -> &'m Function
        ensures { result.now ≡ self.now.source }
    {
        self.source
    }

    /// The target as it is run.
    pub fn target(&self) -> &'m Function
        ensures value { result.now ≡ self.now.target }
        ensures signature { same_signature self.now.source self.now.target ≡ true }
    {
        self.target
    }
}

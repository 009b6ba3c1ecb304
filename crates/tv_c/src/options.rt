//! The options of a check, as C passes them.

ghost use Rattle.std.specs.Prelude.{◌≡◌, ◌↔◌, IsTrue};
ghost use Rattle.points.specs.Range.{AreInRange};
ghost use Rattle.tv_c.specs.Calls.{bounds_in, budget_in};

use points::{Bounds, Budget};

/// How far a pair is judged, and how much is spent on it: the options of `tv check` with these names.
#[repr(C)]
#[derive(Clone, Copy)]
pub struct TvOptions {
    pub turns: u64,
    pub blocks: u64,
    pub bytes: u64,
    pub rounds: u64,
    pub conflicts: u64,
    pub weight: u64,
}

impl TvOptions {
    /// How far a pair is judged.
    pub fn bounds(&self) -> Bounds
        ensures { result ≡ bounds_in self.now }
    {
        Bounds {
            turns: self.turns,
            blocks: self.blocks,
            bytes: self.bytes,
        }
    }

    /// How much is spent on a pair.
    pub fn budget(&self) -> Budget
        ensures { result ≡ budget_in self.now }
    {
        Budget {
            rounds: self.rounds,
            conflicts: self.conflicts,
            weight: self.weight,
        }
    }

    /// Whether they are in the ranges that a pair may be judged within.
    pub fn are_in_range(&self) -> bool
        ensures { IsTrue result ↔ AreInRange (bounds_in self.now) (budget_in self.now) }
    {
        self.turns <= 64
            && self.blocks <= 4
            && self.bytes <= 32
            && self.rounds <= 4096
            && self.conflicts < 1 << 63
            && 1 <= self.weight
            && self.weight <= 10_000_000
    }
}

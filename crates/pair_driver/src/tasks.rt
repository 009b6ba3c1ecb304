ghost use Rattle.std.specs.Prelude.{◌≡◌, ℕ, Bool, ◌<◌, IfOk};
ghost use Rattle.pair_driver.specs.declared.judged.Judged.{Judged};

use crate::judged::Judged;
use std::alloc::Global;
use support::NoMemory;

/// Tasks that are numbered from 0, which many workers may run, each in any order.
pub trait Tasks: Sync {
    // What has to hold for a task to be run.
    ghost ready: { Self → Type 0 };
    // How many there are.
    ghost count: { Self → ℕ };
    // What the task of a number may answer.
    ghost allows: { Self → ℕ → Judged → Type 0 };
    // Whether an answer ends the run: the tasks after it need no answer.
    ghost ending: { Self → Judged → Bool };

    /// How many there are.
    fn len(&self) -> u64
        ensures { result ≡ count self.now };

    /// Runs the task of a number.
    fn run(&self, alloc: Global, number: u64) -> Result<Judged, NoMemory>
        requires ready { ready self.now }
        requires number { number < count self.now }
        ensures { IfOk result (allows self.now number) };

    /// Whether an answer ends the run.
    fn ends(&self, judged: &Judged) -> bool
        ensures { result ≡ ending self.now judged.now };
}

//! The judge interface with its result type, and the driver that judges pairs by many workers.
//!
//! It promises that [`drive`] answers as many judgements as there are pairs, each one that the judge's
//! meaning allows for the pair of its index, for every number of workers and every schedule. A worker
//! stops only where no pair is left, also one that is out of memory, so that the others stop too.
//! [`drive_first`] promises it for the pairs up to the first incorrect one: workers pass over the pairs
//! after one that was found. [`judge_all`] promises the same as [`drive`], one pair after the other and
//! without a thread. It builds on `verdicts`, `clause_log` and `claim_board`.
#![tactic(auto)]

mod desks;
mod gate;
mod judge;
mod judged;
mod pairs;
mod place;
mod share;
mod tasks;
mod work;

pub use gate::{Gate, OpenGate};
pub use judge::Judge;
pub use judged::Judged;
pub use pairs::{drive, drive_first, judge_all};
pub use share::{run_all, run_first};
pub use tasks::Tasks;

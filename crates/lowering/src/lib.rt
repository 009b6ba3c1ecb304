//! Functions whose registers may carry undef, as functions whose registers hold values.
//!
//! It promises that a lowered function does what the function does, on every input and every tape of
//! choices: the same outcome, and the same choices in the same order. Each use of undef may be another
//! value, and so may each use of a register that an operation makes from it (LLVM Language Reference,
//! "Undefined Values"); `specs/Trees.antt` says so of a run whose registers hold trees, and
//! `specs/Lowered.antt` writes each tree out where it is used. So what runs, encodes or compares
//! functions knows no trees. It builds on `points`, whose runs it speaks of, and `undef_uses`, which
//! counts the leaves of a name.
#![tactic(auto)]

mod blocks;
mod computing;
mod copying;
mod laws;
mod lowered;
mod operations;
mod plan;
mod stack_names;

pub use laws::{accepted_can_be_lowered, samples_are_present};
pub use lowered::lower;
pub use operations::Operation;
pub use plan::{Plan, plan_of};

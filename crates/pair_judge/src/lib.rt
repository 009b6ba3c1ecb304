//! The judge of the program: the verdict on a pair by questions to the solver.
//!
//! It promises that each answer has the defined verdict, or that the limit on conflicts was rightly
//! spent, together with the trail and the certificate of its last question. It builds on
//! `instantiate` and `pair_driver`; the program uses it.
#![tactic(auto)]

mod laws;
mod real;

pub use laws::answers_are_verdicts;
pub use real::Real;

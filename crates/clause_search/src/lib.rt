//! The parts that searches for a model share: the trail, clause learning, and the answer.
//!
//! A search keeps a [`Trail`] of literals with their reasons, decides the least unassigned variable
//! as 0, and learns the clause of the first unique implication point of each conflict, as GRASP and
//! Chaff do. It promises that each part keeps the invariant of a search, so that a solver only adds
//! its own way to find units and conflicts, and the loop. It uses `clause_log`; the solvers use
//! it.
#![tactic(auto)]

mod answer;
mod assignment;
mod learning;
mod looking;
mod marks;
mod refuting;
mod trail;

pub use answer::{Answer, is_spent};
pub use assignment::{next_variable, values};
pub use learning::{Learned, analyze, jump, learn};
pub use looking::{Found, Look, has, is_false_but, look_at};
pub use refuting::refute;
pub use trail::{Entry, Trail};

//! The two questions on a pair of functions: for the least point that neither a shift of its tape nor
//! one of the tapes so far covers, and for the least tape of the source that covers a point.
//!
//! It promises that each answer is the least point or tape that is asked for, that there is none, with a
//! refutation of clauses that ask for it, or that the limit was spent, with such clauses. The terms of
//! the first question are kept while tapes are excluded, so that a tape is encoded once. It builds
//! on `encoder` and `refine_terms`, which write a pair as terms, and `sat_ask`, which asks the
//! solver; `instantiate` asks the questions in turn.
#![tactic(auto)]

mod asking;
mod candidates;
mod encodable;
mod found;
mod goals;
mod inputs;
mod known;
mod laws;
mod point_question;
mod point_terms;
mod subject;
mod tape_question;
mod tapes;
mod variables;

pub use found::Found;
pub use laws::inputs_have_assignments;
pub use point_question::PointQuestion;
pub use subject::Subject;
pub use tape_question::least_cover;

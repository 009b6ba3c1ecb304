//! The verdict on a pair of functions by questions to the solver.
//!
//! It promises that the verdict, the trail of points and tapes, and the certificate go together: a
//! verdict of `correct` or `incorrect` comes with a refutation of the last question of its trail. It
//! asks the two questions of `pair_questions` in turn: for the least point that neither a shift of its
//! tape nor a tape so far covers, and for the least tape that covers it. The driver calls it
//! through `pair_judge`.
#![tactic(auto)]

mod rounds;
mod settled;
mod settling;

pub use settled::Settled;
pub use settling::settle;

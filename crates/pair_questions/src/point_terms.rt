//! The terms of a point that a question asks for.

use bv_terms::TermId;
use mem_terms::{InputTerms, OutcomeTerms, TapeTerms};
use support::Sequence;

/// The terms of a point, its input and the target's tape, with the outcome of the target's run on
/// them and the numbers of the integer arguments as words.
pub struct PointTerms {
    pub input: InputTerms,
    pub tape: TapeTerms,
    pub numbers: Sequence<TermId>,
    pub target: OutcomeTerms,
}

// Dropped by one call: a derived drop is written out at each return.
impl Drop for PointTerms {
    fn drop(self) {
        let PointTerms {
            input,
            tape,
            numbers,
            target,
        } = self;
    }
}

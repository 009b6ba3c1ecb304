//! What a rule makes of an operation.

use bv_terms::{Term, TermId};

/// A term that is there, one over terms that are there, the sum of one with a number, one shifted
/// left by a number or divided by a number, or whether one is not 0.
#[derive(Clone, Copy)]
pub enum Form {
    // X
    Known(TermId),
    // op X, Y
    Built(Term),
    // add X, C
    Raised { a: TermId, by: u128, width: u32 },
    // shl X, C
    Shifted { a: TermId, by: u128, width: u32 },
    // udiv X, C
    Divided { a: TermId, by: u128, width: u32 },
    // icmp ne X, 0
    Nonzero { a: TermId, width: u32 },
}

//! What the judge answers of a pair.

use clause_log::Cert;
use verdicts::{Kept, Verdict};

/// A verdict, the trail that led to it, and what shows its last question answered.
#[derive(Drop)]
pub struct Settled {
    pub verdict: Verdict,
    pub kept: Kept,
    pub cert: Option<Cert>,
}

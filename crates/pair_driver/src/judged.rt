use clause_log::Cert;
use verdicts::{Kept, Verdict};

/// What a judge answers of a pair: the verdict, the tapes and points on the way to it, and what shows
/// its last question answered, or spent.
#[derive(Drop)]
pub struct Judged {
    pub verdict: Verdict,
    pub kept: Kept,
    pub cert: Option<Cert>,
}

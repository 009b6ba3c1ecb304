//! What the runs of a pair reuse.

use candidate_runs::{Candidate, Tries};
use choice_interp::Runner;

/// What is reused from point to point: a runner of the target, tries of the source, and the
/// templates of the arguments.
pub struct Bench {
    pub source: Tries,
    pub target: Runner,
    pub templates: Vec<Candidate>,
}

// Dropped by one call: a derived drop is written out at each return.
impl Drop for Bench {
    fn drop(self) {
        let Bench {
            source,
            target,
            templates,
        } = self;
    }
}

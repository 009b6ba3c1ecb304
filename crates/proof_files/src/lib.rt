//! What a run does with proof files: the text of the certificates of a report, and the check of one.
//!
//! It promises that [`proof_of`] writes the bounds and the budget of a report and a part for each correct
//! and each incorrect row, in order, with the certificate of the row's own answer, and that
//! [`check_parts`] says `verified` of a part exactly where its log refutes its clauses, and otherwise
//! names the first bad step. So what is written is verified whole ([`texts_are_verified`]). It uses
//! `proof_text` for the format and `clause_log` for the check; `tv_run` uses it for `--proof` and `log`.
#![tactic(auto)]

mod checking;
mod laws;
mod writing;

pub use checking::{Checked, check_parts};
pub use laws::{proofs_are_verified, refuted_has_no_bad_step, texts_are_verified};
pub use writing::proof_of;

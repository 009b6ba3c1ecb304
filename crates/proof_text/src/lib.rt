//! Proof files: the certificates of a report's rows as text, with the clauses as in the DIMACS CNF
//! format and the steps of a log as in LRAT (L. Cruz-Filipe and others, "Efficient Certified RAT
//! Verification", 2017). In format 2 a head comes before them: the bounds and the budget of the report.
//!
//! It promises that [`write`] gives the one text of its proof, that [`parse`] gives the proof of a text
//! exactly where it is a proof file, and that otherwise it names the first line that no proof file has
//! there. A text has one head and one list of parts ([`proofs_are_one`]), so [`parse`] reads back what
//! [`write`] wrote. [`begin`] and [`push_part`] write the same text part by part, from certificates that
//! others own. All take time and memory in proportion to the text, whatever numbers it names. It uses
//! `clause_log` and `ir_naming`, which prints the names; `proof_files` writes and checks proof files by it.
#![tactic(auto)]

mod cursor;
mod laws;
mod names;
mod part;
mod reader;
mod words;
mod writer;

pub use laws::proofs_are_one;
pub use part::{Head, Part, Proof, ProofFault};
pub use reader::parse;
pub use writer::{begin, push_part, write};

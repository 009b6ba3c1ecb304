//! Whether the names, the types and the edges of a function are right.
//!
//! It promises that a function is accepted exactly where no site of its text fails by the rules of
//! `ir_tree`'s `specs/WellFormed.antt`, and that otherwise the refusal reports the first site that
//! does: [`check_names`] for names, [`check_types`] for types, and [`check_edges`] for the blocks
//! of phis and for jumps to the entry. It uses `ir_tree`; `assigned_names`, which checks whether a
//! name has its value where it is used, and the reader of functions use it. The rules are those of
//! the LLVM Language Reference, "Well-Formedness", "Identifiers", "phi Instruction", and of each
//! instruction's section for its types.
#![tactic(auto)]

mod edges;
mod marks;
mod names;
mod predecessors;
mod types;
mod values;

pub use edges::{check_edges, check_edges_with};
pub use names::{check_names, check_names_with};
pub use types::{check_types, check_types_with};

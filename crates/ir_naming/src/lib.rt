//! How names are printed: as the LLVM assembly reader takes them, quoted where they have to be.
//!
//! It promises one text for each name (`specs/Naming.antt`; LLVM Language Reference, "Identifiers").
//! Reports, proof files and printed modules write names with it. It uses `ir_tree`.
#![tactic(auto)]

mod naming;

pub use naming::{name_text, push_hex_byte, push_name};

//! Names of a written function, as numbers.
//!
//! It promises that [`numbered`] makes the one function that is written: each name has the number of
//! its first appearance, one that is left out is the next number (LLVM Language Reference,
//! "Identifiers"), and each site has its position. `specs/Numbering.antt` says which function that
//! is, `specs/Places.antt` where its sites are. It uses `ir_grammar` for what is written and
//! `ir_tree` for functions; the reader uses it.
#![tactic(auto)]

mod block_numbering;
mod entry_name;
mod laws;
mod memory_numbering;
mod numbering;
mod places;

pub use laws::{has_all_places, has_names_as_written, is_next_number};
pub use numbering::numbered;

//! The items of a module of LLVM IR, from its tokens.
//!
//! It promises that [`cut`] returns the functions with a body, where the text is items one after
//! another, or the first token at which it stops being that, and why; a list of tokens has exactly
//! one of these results. It uses `ir_lexer` and `ir_tree`; the reader takes the items.
#![tactic(auto)]

mod cutting;
mod edges;
mod fault;
mod heads;
mod item;
mod layout;
mod marks;
mod names;

pub use cutting::{MOST_FUNCTIONS, cut, is_one_cut};
pub use edges::{Edges, do_meet, edges_of, joined_edges};
pub use fault::{ItemFault, Why};
pub use item::Define;
pub use names::{name_before_colon, name_behind_sign, name_of};

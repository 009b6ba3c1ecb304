//! Printing a module as text of LLVM IR, and the pair of modules that the command `make` judges.
//!
//! It promises that [`print`] writes the one text of a module (`specs/ModuleText.antt`): each function
//! with its blocks, each instruction on a line, and that [`make`] is the pair of its seed
//! (`specs/Made.antt`). Parts of that text, as [`push_inst`], are for others that show instructions. That a printed module reads back is the law of `read_back`. It uses
//! `ir_tree` for modules, `ir_naming` for names and `token_text` for what a text is made of.
#![tactic(auto)]

mod accesses;
mod functions;
mod instructions;
mod making;
mod modules;
mod pieces;
mod terminators;

pub use instructions::push_inst;
pub use making::make;
pub use modules::print;
pub use pieces::{push_digits, push_label, push_local_at};
pub use terminators::{push_phi, push_terminator};

//! Loads, stores, allocas and getelementptrs as terms.
//!
//! It promises that under every assignment of the variables the terms of an answer denote what
//! `memory_access` defines on the memory and the values that the operands denote, for every pointer
//! and offset. It builds on `mem_terms` for symbolic values and memory, on `byte_terms` for the
//! bytes of a value, and on `memory_access` for what is meant; runs as terms use it.
//!
//! A pointer to a known offset in a known block makes no choice between blocks or offsets: each
//! condition is a constant then, and what is built is the bytes themselves.
//!
//! - `accesses`: what a load gives, where a store is defined and what it leaves, and the block of an
//!   alloca.
//! - `spans`: over all blocks, whether an access is admitted, and the bytes that it reaches.
//! - `writing`: over all blocks, the memory that a store leaves.
//! - `places`: the same in one block, whose size is in `sizes`; `named`: whether a pointer names it.
//! - `offsets`: where a getelementptr leads.
//! - `joining`: one memory for the two that control flow brings together.
#![tactic(auto)]

mod accesses;
mod joining;
mod named;
mod offsets;
mod places;
mod sizes;
mod spans;
mod writing;

pub use accesses::{SymLoaded, alloca, load, store};
pub use joining::pick_memory;
pub use offsets::{SymIndex, gep};

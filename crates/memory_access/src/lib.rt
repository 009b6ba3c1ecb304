//! What a load, a store, an alloca and a getelementptr do to a memory of blocks.
//!
//! Each is exact and total, as `specs/` defines it on lists. Undefined behaviour is an answer of
//! [`load`] and [`store`], poison one of [`load`] and [`gep`]; only [`alloca`] allocates.
//! The rules are those of the LLVM Language Reference and of the block model of Alive2 (Lee, Kim,
//! Hur, Lopes, "An SMT encoding of LLVM's memory model for bounded translation validation", CAV
//! 2021). It builds on `byte_block` and `tv_num`; `points` defines runs by it, which
//! `choice_interp` computes.
#![tactic(auto)]

mod access_types;
mod accesses;
mod blocks;
mod byte_values;
mod laws;
mod offsets;

pub use access_types::{Access, Loaded, Stored};
pub use accesses::{alloca, load, store};
pub use blocks::{bytes_in, is_equal_name};
pub use byte_values::defined_bits;
pub use laws::{
    bytes_hold_numbers, bytes_hold_values, loads_give_stores, numbers_hold_bytes,
    stores_keep_frames, stores_keep_others, zeros_stay,
};
pub use offsets::{Index, gep};

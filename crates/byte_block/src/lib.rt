//! Values, pointers, bytes and blocks of memory.
//!
//! The memory model is the block model of Alive2 (Lee, Kim, Hur, Lopes, "An SMT encoding of LLVM's
//! memory model for bounded translation validation", CAV 2021), reduced to three kinds of block. It
//! promises plain data: two memories with the same parts are equal. It uses `support`; inputs,
//! outcomes and runs are made of these.
#![tactic(auto)]

mod block;
mod value;

pub use block::{Memory, MemoryBlock, copy_memory};
pub use value::{BlockName, Byte, Ptr, Value};

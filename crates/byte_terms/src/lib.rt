//! Values as bytes and bytes as values, as terms.
//!
//! It promises that under every assignment of the variables the terms of the bytes denote those
//! that `memory_access` defines of the value, and the term of a value the one that it defines of
//! the bytes. It builds on `mem_terms` for symbolic values and bytes, and on `memory_access` for
//! what is meant; loads and stores as terms use it.
//!
//! - `byte_values`: the bytes that a value is stored as, and the value that bytes are read as;
//!   `integer_bytes` and `pointer_bytes` for each kind of value.
//! - `byte_fields` and `byte_lists`: bytes by themselves.
#![tactic(auto)]

mod byte_fields;
mod byte_lists;
mod byte_values;
mod integer_bytes;
mod pointer_bytes;

pub use byte_lists::{pick_bytes, poison_bytes};
pub use byte_values::{access_size, bytes_of_value, value_of_bytes};

//! What every crate of the repository needs, and nothing more.
//!
//! [`Sequence`] is a `Vec` that contracts see as a list, so that two values with the same items are
//! equal; each `Vec` field of a type that a definition compares is one. [`NoMemory`] is the only
//! error of a call that could not grow. The crate promises that `?` carries out of memory through
//! all crates. It uses only `std`, and every other crate may use it.
#![tactic(auto)]

mod no_memory;
mod sequence;

pub use no_memory::NoMemory;
pub use sequence::Sequence;

//! What a pair costs to judge: how many words its runs read, how wide they are, and what it weighs.
//!
//! It promises the defined numbers, and that they are small. It builds on `verdicts`, and on `lowering`,
//! which knows which registers carry undef.
#![tactic(auto)]

mod costs;
mod function_costs;
mod memory;
mod trees;
mod widest;
mod words;

pub use function_costs::weight;
pub use widest::widest_of;
pub use words::need;

//! The semantics of functions: runs on an input and a tape of choices, outcomes and which of them
//! refines which, points, their codes and their order.
//!
//! It promises that a run and a point are defined in one crate, and that points and codes correspond
//! one to one. It builds on `ir_tree` and `memory_access`.
#![tactic(auto)]

mod byte_steps;
mod codes;
mod copies;
mod laws;
mod machine;
mod outcome;
mod point;
mod point_steps;
mod reading;
mod refinement;
mod steps;
mod value_steps;

pub use codes::code_of;
pub use copies::copy_point;
pub use laws::{
    codes_tell_points, numbers_compare_from_front, places_tell_points, tapes_have_plain_forms,
};
pub use machine::Machine;
pub use outcome::Outcome;
pub use point::{Bounds, Budget, Input, Layout, Point, Shape};
pub use point_steps::next;
pub use reading::point_of;
pub use refinement::{blocks_are_allowed, byte_is_allowed, refines, returned_is_allowed};
pub use steps::{next_args, next_words, zero_from};

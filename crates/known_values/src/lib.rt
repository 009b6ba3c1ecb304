//! Operations on numbers of a width, and the weight of a tree.
//!
//! It promises that each of [`numbers`]' functions gives the number that `bv_terms` defines for its
//! operation. The weight is a definition (`specs/Weight.antt`): the number of nodes of a written-out
//! tree. It builds on `bv_terms`.
#![tactic(auto)]

pub mod numbers;

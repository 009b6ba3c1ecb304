//! Terms as gates: the bits of each term, over one input for each bit of a variable.
//!
//! [`Blast`] is a fold over the terms of `bv_terms` whose answer for a term is the list of its bits as
//! gates of one circuit, most significant bit first; a fold with it is bit blasting, as in
//! D. Kroening and O. Strichman, "Decision Procedures" (2016), chapter 6. It promises that the bits
//! write the term's value wherever the inputs agree with the assignment of the variables, and that
//! each assignment has inputs that agree. It uses `bv_terms` and `gate_arith`; questions to a
//! solver are made of it.
#![tactic(auto)]

mod blast;
mod step;

pub use blast::Blast;
